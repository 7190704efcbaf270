//! Reading the sets of a main link, one by one: what each tells, and the reason of the first that is refused.
//!
//! * `parser`: the reader, with its first fault; `event`, `bad`: what it answers
//! * `kind`, `state`: what the lanes of a set carry, and the table of what may follow
//! * `counts`, `columns`: what is kept of attributes, lines and VB-ID
//! * `machine`: a set taken, as far as none was refused
//! * `laws`: faults and acceptance, events and frames
#![tactic(auto)]

mod bad;
mod columns;
mod counts;
mod event;
mod kind;
mod laws;
mod machine;
mod parser;
mod state;

pub use bad::{ParseBad, ParseWhy};
pub use event::Event;
pub use laws::{accepted_without_fault, events_give_frames, one_event, one_reason};
pub use parser::Parser;
