// The Metroid music format: a bank and its headers, a channel's bytes as commands and as words, mended so that they read, and one
// channel: its commands until a note, and its way from start to stop.
#![tactic(auto)]

pub mod bank;
pub mod channel;
pub mod command;
mod envelope;
pub mod header;
pub mod mend;
pub mod timeline;
pub mod words;
