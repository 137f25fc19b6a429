// What every music engine of the library stands on: lent bytes, addresses, fields of a byte, lengths of time, answers and
// numbers of refusal, and values written into lent buffers. Nothing here knows a format.
#![tactic(auto)]

pub mod address;
pub mod answer;
pub mod buffer;
pub mod bytes;
pub mod ctrl1;
pub mod envelope;
pub mod field;
pub mod loops;
pub mod refusal;
pub mod release;
pub mod time;
