//! The words of the command line, read by `clap`.
//!
//! * `command`: what the words can ask for
//! * `reading`: the reading of the words
//! * `verbs`: the words of each command
//! * `arguments`: workers, a number
//! * `positional`: what `clap` makes of the words
#![tactic(auto)]

mod arguments;
mod command;
mod positional;
mod reading;
mod verbs;

pub use command::{Command, Name, WordsEnd};
pub use reading::read_words;
