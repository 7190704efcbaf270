//! The receiver: from a capture's bytes, in any pieces, to records of pixels and lines of attributes.
//!
//! * `recv_end`, `finish_end`: how it ends; `output`, `refusal`: which write failed, and why nothing more is taken
//! * `attributes_line`: the text of attributes
//! * `line_store`, `unpack`: the line under way, and its pixels' records
//! * `lines`: what events give; `reader`: from words to what is written
//! * `clocks`: from bytes in any pieces to whole clocks; `receiver`: the first refusal is kept
//! * `laws`: what is received of a capture that was sent
#![tactic(auto)]

mod attributes_line;
mod clocks;
mod finish_end;
mod laws;
mod line_store;
mod lines;
mod output;
mod reader;
mod receiver;
mod recv_end;
mod refusal;
mod unpack;

pub use finish_end::{FinishEnd, Received};
pub use laws::{a_capture_is_received, one_end};
pub use output::Output;
pub use receiver::Receiver;
pub use recv_end::RecvEnd;
