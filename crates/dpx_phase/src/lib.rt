//! The two phases of link training: clock recovery and channel equalisation. What they decide at a status can be
//! called by itself.
//!
//! * `phase_end`: how a phase ends
//! * `recovery`, `equalisation`: the two phases
//! * `laws`: what the definitions obey
//! * `steps`: the transactions of a round
//! * `swings`: the swings of the lanes in use
#![tactic(auto)]

mod equalisation;
mod laws;
mod phase_end;
mod recovery;
mod steps;
mod swings;

pub use equalisation::{equalisation_end, equalise, pause_of};
pub use laws::{ends_in_time, ends_once, is_answered, is_decided, is_honest, is_read_last};
pub use phase_end::{FailCause, PhaseEnd};
pub use recovery::{Level, NO_DRIVE, RECOVERY_PAUSE, next_level, recover, recovery_end};
