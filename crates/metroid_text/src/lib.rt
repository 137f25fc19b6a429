// Verdicts and answers as lines of text, into lent buffers.
#![tactic(auto)]

pub mod answer;
mod decimal;
mod hex;
pub mod line;
pub mod mother;
pub mod verdict;
