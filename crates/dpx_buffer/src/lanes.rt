ghost use Rattle.std.specs.Prelude.{◌≡◌, ◌<◌, ◌≤◌, ◌+◌, ◌*◌, ℕ, [], length, replicate, slice_index_or, IfOk};
ghost use Rattle.dpx_base.specs.Sets.{black};
ghost use Rattle.dpx_base.specs.Unpacking.{InRange};
ghost use Rattle.dpx_pack.specs.Bits.{bits_of_pixel, padding};
ghost use Rattle.dpx_buffer.specs.Lane.{empty_lane, lane_of, Packs, IsTaken, HasRoomFor, HasRoomToFinish};

use crate::group::Group;
use crate::lane::Lane;
use dpx_base::{LaneBytes, Memory};
use std::alloc::Global;

/// Lanes on which nothing waits.
pub(crate) fn empty_lanes<const C: usize>(alloc: Global, count: u8) -> Result<Vec<Lane<C>>, Memory>
    requires { (6 ≤ C) × (C ≤ 16) }
    ensures { IfOk result (λ lanes. lanes.items ≡ replicate count empty_lane) }
{
    let mut lanes = Vec::new(alloc);
    for lane in 0..count {
        let empty = Lane::new(alloc)?;
        lanes.push(empty).map_err(|_| Memory)?;
    }
    Ok(lanes)
}

/// Packs a pixel onto each lane.
pub(crate) fn push_group<const C: usize>(lanes: &mut Vec<Lane<C>>, group: &Group)
    requires depth { (6 ≤ C) × (C ≤ 16) }
    requires range { (l : ℕ) → l < length lanes.old.items → InRange C (slice_index_or group.now l black) }
    requires room { (l : ℕ) → l < length lanes.old.items → HasRoomFor (3 * C) (lane_of lanes.old.items l) }
    ensures count { length lanes.new.items ≡ length lanes.old.items }
    ensures each { (l : ℕ) → l < length lanes.old.items
        → Packs (bits_of_pixel C (slice_index_or group.now l black))
        (lane_of lanes.old.items l) (lane_of lanes.new.items l) }
{
    for lane in 0..lanes.len() {
        lanes[lane].push(group.pixel_of(lane));
    }
}

/// Ends a line on each lane.
pub(crate) fn finish_lines<const C: usize>(lanes: &mut Vec<Lane<C>>)
    requires depth { (6 ≤ C) × (C ≤ 16) }
    requires room { (l : ℕ) → l < length lanes.old.items → HasRoomToFinish (lane_of lanes.old.items l) }
    ensures count { length lanes.new.items ≡ length lanes.old.items }
    ensures each { (l : ℕ) → l < length lanes.old.items
        → Packs (padding (lane_of lanes.old.items l).bits) (lane_of lanes.old.items l) (lane_of lanes.new.items l) }
{
    for lane in 0..lanes.len() {
        lanes[lane].finish_line();
    }
}

/// Takes the first byte of each lane.
pub(crate) fn take_each<const C: usize>(lanes: &mut Vec<Lane<C>>) -> LaneBytes
    requires count { (1 ≤ length lanes.old.items) × (length lanes.old.items ≤ 4) }
    requires some { (l : ℕ) → l < length lanes.old.items → 0 < length (lane_of lanes.old.items l).waiting }
    ensures count { length lanes.new.items ≡ length lanes.old.items }
    ensures bytes { length result ≡ length lanes.old.items }
    ensures each { (l : ℕ) → l < length lanes.old.items
        → IsTaken (lane_of lanes.old.items l) (slice_index_or result l 0) (lane_of lanes.new.items l) }
{
    let mut bytes = [0; 4];
    let count = lanes.len();
    // A loop of fixed length, of which the compiler makes straight code.
    for lane in 0..4usize {
        if lane < count {
            bytes[lane] = lanes[lane].take();
        }
    }
    LaneBytes::from_slice(&bytes[..count])
}
