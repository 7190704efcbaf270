//! Which lists of sets a sink accepts, and what it receives of them: definitions, and laws of them.
//!
//! * `specs/Parts.antt`: the parts that a list of sets is made of, and the periods that they form
//! * `specs/Accepted.antt`: the four conditions, frames and tail; `specs/Gathered.antt`: the bytes of attributes
//! * `specs/Machine.antt`: states that read exactly the prefixes of lists of periods, for proofs of a reader
//! * `laws`: what holds of all accepted lists
#![tactic(auto)]

mod laws;

pub use laws::{default_has_no_bf, fronts_are_accepted, one_reception, states_read_exactly};
