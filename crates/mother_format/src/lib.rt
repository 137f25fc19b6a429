// The Mother music format: two banks and their headers, playlists, a block's bytes as commands, and what each of them does.
#![tactic(auto)]

pub mod bank;
pub mod channel;
pub mod command;
pub mod envelope;
pub mod header;
pub mod playlist;
pub mod straight;
pub mod transpose;
