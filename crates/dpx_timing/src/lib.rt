//! Which modes fit a link, and the plan of one that does.
//!
//! * `fitting`: the plan of a mode on a link, or why there is none
//! * `plan`: what a plan tells
//! * `laws`: what holds of every plan
//! * `numbers`, `division`: the arithmetic of a line
#![tactic(auto)]

mod division;
mod fitting;
mod laws;
mod numbers;
mod plan;

pub use fitting::{Unfit, fit};
pub use laws::plans_hold;
pub use numbers::symbols;
pub use plan::Plan;
