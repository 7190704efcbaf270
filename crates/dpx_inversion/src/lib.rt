//! The way round on the side of sets: what a source sends is accepted, and gives back exactly the frames sent.
//!
//! * `specs/Source.antt`: the table of a source's sets, row by row, as proofs use it
//! * `laws`: the way round, and what it asks of the lock before it
#![tactic(auto)]

mod laws;

pub use laws::{
    source_inverts, source_is_received, source_sets_can_be_sent, source_starts_at_sr,
    source_starts_with_group,
};
