//! The supervisor of a link, which allows frames only on a link that was last read as good.
//!
//! * `watch`: the supervisor, event by event
//! * `state`: whether the link may carry frames; `outcome`: what a step came to
//! * `laws`: what every list of steps obeys
#![tactic(auto)]

mod laws;
mod outcome;
mod state;
mod watch;

pub use laws::{
    is_bounded, is_read_last, lists_are_bounded, one_history, only_good_links, some_history,
};
pub use outcome::{Outcome, Stepped};
pub use state::WatchState;
pub use watch::Watch;
