//! The completeness of training: where a modelled sink answers, training ends as the sink's plan says.
//!
//! * `laws`: the promise, and what it stands on; laws of definitions alone
#![tactic(auto)]

mod laws;

pub use laws::{fall_is_whole, ports_are_answered, training_is_complete};
