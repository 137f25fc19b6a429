// The check of a track, before it is played.
#![tactic(auto)]

pub mod verdict;
