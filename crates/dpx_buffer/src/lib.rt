//! The line buffer: where the bytes of a line wait from the arrival of their pixels to their clocks.
//!
//! * `line_buffer`: the buffer of all lanes
//! * `any_lanes`: lanes whose depth is known when they run
//! * `lanes`, `lane`: the packer and the ring of each lane
//! * `group`: the pixels of an unfinished group
#![tactic(auto)]

mod any_lanes;
mod group;
mod lane;
mod lanes;
mod line_buffer;

pub use line_buffer::LineBuffer;
