//! The source of a main link: the sets of a plan, clock by clock, out of the pixels that arrive.
//!
//! * `ticker`: the sets of a plan, one a clock
//! * `framing`: the sets that carry no bytes of lines
//! * `range`, `bad_pixel`: pixels whose components are out of range
//! * `word_writer`: the words of sets, and their bytes
//! * `clocks`, `sender`, `sending`: all that a plan sends, over a pipe and a sink
//! * `laws`: what waits in a ticker, and in which one way sending ends
#![tactic(auto)]

mod bad_pixel;
mod clocks;
mod framing;
mod laws;
mod range;
mod sender;
mod sending;
mod ticker;
mod word_writer;

pub use bad_pixel::BadPixel;
pub use laws::{bytes_wait, pipes_begin, sending_ends_once, words_are_there};
pub use sender::Sender;
pub use sending::{DriveEnd, Sent, drive};
pub use ticker::Ticker;
