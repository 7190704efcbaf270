//! Link training with fallback in rate and lanes.
//!
//! * `fallback`: which configuration is tried next
//! * `attempt`: one attempt on one configuration
//! * `training`: the whole training
//! * `train_end`: how it ends
//! * `laws`: what every training obeys
#![tactic(auto)]

mod attempt;
mod fallback;
mod laws;
mod train_end;
mod training;

pub use attempt::{AttemptEnd, equalised, lanes_byte};
pub use fallback::{Next, next_of};
pub use laws::{
    falls_back, falls_in_order, is_bounded, is_read_last, one_history, some_history,
    trained_is_good,
};
pub use train_end::{TrainEnd, Verdict};
pub use training::train;
