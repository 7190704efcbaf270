//! The values, the traits of the outside, and the forms in memory that every other crate names.
//!
//! * `rate`, `lanes`, `link`: the configuration of a main link
//! * `mode`, `raw_mode`, `depth`, `pixel`, `pixel_record`: what a display shows
//! * `sym`, `slot`, `place`, `lane_set`, `lane_bytes`, `arrivals`: what a symbol clock carries
//! * `beam`, `scan`: when a display engine has its pixels; `pipe`, `mem_pipe`: such an engine, and one over memory
//! * `workers`: who works on the lanes
//! * `fault`: what an object of the outside answers where it fails, and want of memory
//! * `source`, `sink`: bytes that are read, bytes that are written
//! * `mem_source`, `mem_sink`: the two over memory, with faults at chosen calls
//! * `bounded_list`: a list whose length is bounded both ways
//! * `transfer`: whole writes
//! * `aux_port`: the AUX channel, as requests, answers and their history; `entry_list`: such a history, recorded
//! * `port_event`, `event_list`: what happens at a port
#![tactic(auto)]

mod arrivals;
mod aux_port;
mod beam;
mod bounded_list;
mod depth;
mod entry_list;
mod event_list;
mod fault;
mod lane_bytes;
mod lane_set;
mod lanes;
mod link;
mod mem_pipe;
mod mem_sink;
mod mem_source;
mod mode;
mod pipe;
mod pixel;
mod pixel_record;
mod place;
mod port_event;
mod rate;
mod raw_mode;
mod scan;
mod sink;
mod slot;
mod source;
mod sym;
mod transfer;
mod workers;

pub use arrivals::Arrivals;
pub use aux_port::{Answer, AuxPort, Entry};
pub use beam::Beam;
pub use bounded_list::{BoundedList, Bytes20};
pub use depth::Depth;
pub use entry_list::EntryList;
pub use event_list::EventList;
pub use fault::{Failed, Memory};
pub use lane_bytes::LaneBytes;
pub use lane_set::LaneSet;
pub use lanes::Lanes;
pub use link::Link;
pub use mem_pipe::MemPipe;
pub use mem_sink::MemSink;
pub use mem_source::MemSource;
pub use mode::Mode;
pub use pipe::{BeginEnd, Pipe, PipeEnd};
pub use pixel::Pixel;
pub use pixel_record::{read_pixel, write_pixel};
pub use place::Place;
pub use port_event::PortEvent;
pub use rate::Rate;
pub use raw_mode::{ModeField, RawMode};
pub use sink::Sink;
pub use slot::{Slot, Stuffing};
pub use source::Source;
pub use sym::Sym;
pub use transfer::write_whole;
pub use workers::{Gate, NoGate, Workers};
