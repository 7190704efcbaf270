//! The sink of a job: an AUX port that answers by a script, or as a modelled sink.
//!
//! * `loaded`: what was loaded, and how far it is played
//! * `plan_port`: the port, which keeps its history
#![tactic(auto)]

mod loaded;
mod plan_port;

pub use plan_port::PlanPort;
