// What a host written in C links: the calls that include/hemgosling.h declares.
#![tactic(auto)]

pub mod judge;
pub mod mend;
pub mod mother_judge;
mod mother_places;
pub mod mother_play;
mod places;
pub mod play;
mod tell;
pub mod words;
