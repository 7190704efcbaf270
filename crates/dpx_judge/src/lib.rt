//! The judge of a recorded AUX history: whether it is that of a training, entry by entry, with no list kept.
//!
//! * `judge`: the judge; `verdict`: what it says of a whole list
//! * `turn`, `step`: where a training stands; `awaited`: what it waits or asks for there; `behind`: what follows
//! * `taking`: one entry
//! * `laws`: what every transcript obeys
#![tactic(auto)]

mod awaited;
mod behind;
mod judge;
mod laws;
mod step;
mod taking;
mod turn;
mod verdict;

pub use judge::{Judge, JudgeStep};
pub use laws::{fronts_are_live, one_ending, one_verdict, trained_is_good};
pub use verdict::{Ending, Verdict, judge_all};
