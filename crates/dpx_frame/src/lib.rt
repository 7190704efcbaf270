//! What each symbol clock of a plan carries, by counters alone.
//!
//! * `schedule`: the slots, one clock after the other
//! * `counters`: where a schedule stands in its frame and line
//! * `units`: where a line stands in its transfer units
//! * `slots`: the slot that counters stand for
#![tactic(auto)]

mod counters;
mod schedule;
mod slots;
mod units;

pub use dpx_base::{Slot, Stuffing};
pub use schedule::Schedule;
