//! The commands of dp_replay: their words, their reports, and the top call.
//!
//! * `commands`: the top call, which finds the command in the words
//! * `train`, `send`, `run`, `recv`, `generate`, `edid`, `watch`: the commands of these names (`gen` is a word of the
//!   language)
//! * `job`, `training`, `sending`, `receiving`, `generating`, `fetching`, `watching`: steps of commands
//! * `transfer`: whole reads, whole writes
//! * `stop`, `printing`: why a command stops, what is printed and with which status it ends
//! * `report`, `lines`, `send_lines`, `recv_lines`, `gen_lines`, `edid_lines`, `watch_lines`: the text of a report as
//!   it grows, and its lines
#![tactic(auto)]

mod commands;
mod edid;
mod edid_lines;
mod fetching;
mod gen_lines;
mod generate;
mod generating;
mod job;
mod judge;
mod judge_lines;
mod lines;
mod printing;
mod receiving;
mod recv;
mod recv_lines;
mod report;
mod run;
mod send;
mod send_lines;
mod sending;
mod stop;
mod train;
mod training;
mod transfer;
mod watch;
mod watch_lines;
mod watching;

pub use commands::{replay, replay_gated};
pub use dpx_words::{Command, Name, WordsEnd, read_words};
