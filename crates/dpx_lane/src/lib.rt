//! The lanes of the main link, row by row: delay, scrambling and code on the way out, the same undone on the way in.
//!
//! * `codes`: the code of a symbol in a row
//! * `scrambler`: the key
//! * `word_table`, `coder`, `delay`, `lane_tx`: a lane on the way out
//! * `symbol_table`, `lane_fault`, `decoder`, `lane_rx`: a lane on the way in
//! * `laws`: what lanes that stand for whole lists say of them
//! * `lane_work`: what a lane's state does to a row
//! * `words`, `lane_rows`: the rows of the lanes, and their bytes
//! * `workers`, `lane_team`: the lanes' states, run on their rows by one worker or one a lane
#![tactic(auto)]

mod coder;
mod codes;
mod decoder;
mod delay;
mod lane_fault;
mod lane_rows;
mod lane_rx;
mod lane_team;
mod lane_tx;
mod lane_work;
mod laws;
mod scrambler;
mod symbol_table;
mod word_table;
mod words;
mod workers;

pub use codes::{code_of, symbol_of};
pub use lane_fault::{LaneFault, WordBad};
pub use lane_rows::LaneRows;
pub use lane_rx::LaneRx;
pub use lane_team::LaneTeam;
pub use lane_tx::LaneTx;
pub use lane_work::LaneWork;
pub use laws::{
    a_capture_is_one, lanes_send_their_rows, teams_go_on, the_key_comes_off, what_is_sent_is_read,
};
pub use scrambler::Scrambler;
