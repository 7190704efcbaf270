//! What is received of the bytes of a capture: definitions, and laws of them.
//!
//! * `specs/Bytes.antt`: the whole clocks of the bytes, and their words
//! * `specs/Reception.antt`: the first fault, and the frames before it; `specs/Due.antt`: what is due of frames
//! * `laws`: what holds of all bytes, and of those that a source sends
#![tactic(auto)]

mod laws;

pub use laws::{captures_are_received, due_stays, faults_stay, one_lock, one_reception};
