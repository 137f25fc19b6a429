// The later engine's player: a track of two lent banks, frame by frame.
#![tactic(auto)]

mod ctrl1;
pub mod event;
pub mod frame;
pub mod reading;
pub mod record;
mod release;
