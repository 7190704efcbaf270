//! The registers of a sink (DPCD): capabilities, status, drive, and what a modelled sink answers.
//!
//! * `caps`, `pattern`: what a sink can do, and the training pattern that follows from it
//! * `register_map`: the registers by the standard's names
//! * `registers`: the transactions that a source makes of them
//! * `channel`, `plan`: how a modelled channel behaves, and what a sink is to answer
//! * `register_file`: the registers of a modelled sink
//! * `laws`: what the definitions obey
//! * `load_port`: a port that is loaded with such a plan
//! * `status`: the facts of six status bytes, and the drive that they ask for
#![tactic(auto)]

mod caps;
mod channel;
mod laws;
mod load_port;
mod pattern;
mod plan;
mod register_file;
pub mod register_map;
mod registers;
mod status;

pub use caps::{Caps, CapsBad, has_extended};
pub use channel::{Cell, Channel};
pub use laws::answers_by_position;
pub use load_port::LoadPort;
pub use pattern::Pattern;
pub use plan::{AnswerList, SinkPlan};
pub use register_file::RegFile;
pub use registers::{read_block, read_status, write_registers};
pub use status::{Drive, Status6};
