// The check of a track of the later engine, before it is played.
#![tactic(auto)]

mod command_faults;
pub mod faults;
pub mod reading;
pub mod settings;
pub mod verdict;
pub mod walk;
