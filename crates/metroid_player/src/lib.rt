// The player: a track of a lent bank, frame by frame.
#![tactic(auto)]

mod ctrl1;
pub mod event;
pub mod frame;
pub mod record;
mod release;
