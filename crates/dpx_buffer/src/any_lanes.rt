ghost use Rattle.std.specs.Prelude.{◌≡◌, ◌<◌, ◌≤◌, ◌+◌, ◌*◌, ℕ, [], length, replicate, slice_index_or, IfOk};
ghost use Rattle.dpx_base.specs.Mode.{depth_bits};
ghost use Rattle.dpx_base.specs.Sets.{black};
ghost use Rattle.dpx_base.specs.Unpacking.{InRange};
ghost use Rattle.dpx_pack.specs.Bits.{bits_of_pixel, padding};
ghost use Rattle.dpx_buffer.specs.Lane.{ring_capacity, empty_lane, lane_of, Packs, IsTaken, HasRoomFor};
ghost use Rattle.dpx_buffer.specs.Lane.{HasRoomToFinish};
ghost use Rattle.dpx_buffer.specs.Seen.{depth_in, lanes_in};

use crate::group::Group;
use crate::lane::Lane;
use crate::lanes::{empty_lanes, finish_lines, push_group, take_each};
use dpx_base::{Depth, LaneBytes, Memory};
use std::alloc::Global;

/// The lanes of a depth.
#[derive(Drop)]
pub(crate) enum AnyLanes {
    Six(Vec<Lane<6>>),
    Eight(Vec<Lane<8>>),
    Ten(Vec<Lane<10>>),
    Twelve(Vec<Lane<12>>),
    Sixteen(Vec<Lane<16>>),
}

impl AnyLanes {
    /// Lanes on which nothing waits.
    pub(crate) fn new(alloc: Global, depth: Depth, count: u8) -> Result<AnyLanes, Memory>
        ensures depth { IfOk result (λ lanes. depth_in lanes ≡ depth_bits depth) }
        ensures empty { IfOk result (λ lanes. lanes_in lanes ≡ replicate count empty_lane) }
    {
        match depth {
            Depth::Six => Ok(AnyLanes::Six(empty_lanes(alloc, count)?)),
            Depth::Eight => Ok(AnyLanes::Eight(empty_lanes(alloc, count)?)),
            Depth::Ten => Ok(AnyLanes::Ten(empty_lanes(alloc, count)?)),
            Depth::Twelve => Ok(AnyLanes::Twelve(empty_lanes(alloc, count)?)),
            Depth::Sixteen => Ok(AnyLanes::Sixteen(empty_lanes(alloc, count)?)),
        }
    }

    /// Packs a pixel onto each lane.
    pub(crate) fn push_group(&mut self, group: &Group)
        requires range { (l : ℕ) → l < length (lanes_in self.old)
            → InRange (depth_in self.old) (slice_index_or group.now l black) }
        requires room { (l : ℕ) → l < length (lanes_in self.old)
            → HasRoomFor (3 * depth_in self.old) (lane_of (lanes_in self.old) l) }
        ensures depth { depth_in self.new ≡ depth_in self.old }
        ensures count { length (lanes_in self.new) ≡ length (lanes_in self.old) }
        ensures each { (l : ℕ) → l < length (lanes_in self.old)
            → Packs (bits_of_pixel (depth_in self.old) (slice_index_or group.now l black))
            (lane_of (lanes_in self.old) l) (lane_of (lanes_in self.new) l) }
    {
        match self {
            AnyLanes::Six(lanes) => push_group(lanes, group),
            AnyLanes::Eight(lanes) => push_group(lanes, group),
            AnyLanes::Ten(lanes) => push_group(lanes, group),
            AnyLanes::Twelve(lanes) => push_group(lanes, group),
            AnyLanes::Sixteen(lanes) => push_group(lanes, group),
        }
    }

    /// Ends a line on each lane.
    pub(crate) fn finish_lines(&mut self)
        requires { (l : ℕ) → l < length (lanes_in self.old) → HasRoomToFinish (lane_of (lanes_in self.old) l) }
        ensures depth { depth_in self.new ≡ depth_in self.old }
        ensures count { length (lanes_in self.new) ≡ length (lanes_in self.old) }
        ensures each { (l : ℕ) → l < length (lanes_in self.old)
            → Packs (padding (lane_of (lanes_in self.old) l).bits)
            (lane_of (lanes_in self.old) l) (lane_of (lanes_in self.new) l) }
    {
        match self {
            AnyLanes::Six(lanes) => finish_lines(lanes),
            AnyLanes::Eight(lanes) => finish_lines(lanes),
            AnyLanes::Ten(lanes) => finish_lines(lanes),
            AnyLanes::Twelve(lanes) => finish_lines(lanes),
            AnyLanes::Sixteen(lanes) => finish_lines(lanes),
        }
    }

    /// How many bytes wait on the first lane.
    pub(crate) fn waiting(&self) -> usize
        requires { 0 < length (lanes_in self.now) }
        ensures length { result ≡ length (lane_of (lanes_in self.now) 0).waiting }
        ensures few { result ≤ ring_capacity }
    {
        match self {
            AnyLanes::Six(lanes) => lanes[0].len(),
            AnyLanes::Eight(lanes) => lanes[0].len(),
            AnyLanes::Ten(lanes) => lanes[0].len(),
            AnyLanes::Twelve(lanes) => lanes[0].len(),
            AnyLanes::Sixteen(lanes) => lanes[0].len(),
        }
    }

    /// Takes the first byte of each lane.
    pub(crate) fn take_each(&mut self) -> LaneBytes
        requires count { (1 ≤ length (lanes_in self.old)) × (length (lanes_in self.old) ≤ 4) }
        requires some { (l : ℕ) → l < length (lanes_in self.old)
            → 0 < length (lane_of (lanes_in self.old) l).waiting }
        ensures depth { depth_in self.new ≡ depth_in self.old }
        ensures count { length (lanes_in self.new) ≡ length (lanes_in self.old) }
        ensures bytes { length result ≡ length (lanes_in self.old) }
        ensures each { (l : ℕ) → l < length (lanes_in self.old)
            → IsTaken (lane_of (lanes_in self.old) l) (slice_index_or result l 0) (lane_of (lanes_in self.new) l) }
    {
        match self {
            AnyLanes::Six(lanes) => take_each(lanes),
            AnyLanes::Eight(lanes) => take_each(lanes),
            AnyLanes::Ten(lanes) => take_each(lanes),
            AnyLanes::Twelve(lanes) => take_each(lanes),
            AnyLanes::Sixteen(lanes) => take_each(lanes),
        }
    }
}
