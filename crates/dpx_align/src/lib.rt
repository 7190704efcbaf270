//! The lanes of a capture brought side by side: where they lock, the sets from there on, and the first word fault.
//!
//! * `ring`, `rings`: the symbols that may still be needed of a lane, of all lanes, and the search for the lock in them
//! * `deskew`: the sets of symbols
//! * `align_bad`, `first_fault`: a word fault, and the first of the lanes' faults
//! * `step`, `aligner`: the sets and the first word fault of words
//! * `laws`: what the definitions obey; the words that a source sends are received
#![tactic(auto)]

mod align_bad;
mod aligner;
mod deskew;
mod first_fault;
mod laws;
mod ring;
mod rings;
mod step;

pub use align_bad::AlignBad;
pub use aligner::Aligner;
pub use laws::{first_fault_stays, sent_sets_are_received, sets_come_before_the_fault};
pub use step::{NoLock, Step};
