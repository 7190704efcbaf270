ghost use Rattle.std.specs.Prelude.{◌≡◌, ◌<◌, ◌≤◌, ◌*◌, ◌/◌, All, IfOk, length, map};
ghost use Rattle.dpx_base.specs.Mode.{depth_bits};
ghost use Rattle.dpx_base.specs.Timing.{symbols_of};
ghost use Rattle.dpx_base.specs.Unpacking.{InRange, unpacked};
ghost use Rattle.dpx_pack.specs.Lines.{HaveTurns, byte_of, in_turn, lane_pixels, lane_with, pixel_in_turn};

use crate::growing::push;
use crate::{LineBytes, Unpacker};
use dpx_base::{Depth, Memory, Pixel};
use std::alloc::Global;

/// The pixels of a line of this width. The padding is not looked at.
pub fn unpack_line(
    alloc: Global,
    line: &LineBytes,
    width: u16,
    depth: Depth,
) -> Result<Vec<Pixel>, Memory>
    requires width { (1 ≤ width) × (width ≤ 8192) }
    requires bytes { All (λ bytes. length bytes ≡ symbols_of width (length line.now) (3 * depth_bits depth)) line.now }
    ensures pixels { IfOk result (λ pixels. pixels.items
        ≡ unpacked (depth_bits depth) (length line.now) width (byte_of line.now)) }
    ensures range { IfOk result (λ pixels. All (InRange (depth_bits depth)) pixels.items) }
{
    match depth {
        Depth::Six => unpack_lanes::<6>(alloc, line, width),
        Depth::Eight => unpack_lanes::<8>(alloc, line, width),
        Depth::Ten => unpack_lanes::<10>(alloc, line, width),
        Depth::Twelve => unpack_lanes::<12>(alloc, line, width),
        Depth::Sixteen => unpack_lanes::<16>(alloc, line, width),
    }
}

fn unpack_lanes<const C: usize>(
    alloc: Global,
    line: &LineBytes,
    width: u16,
) -> Result<Vec<Pixel>, Memory>
    requires depth { (6 ≤ C) × (C ≤ 16) }
    requires width { (1 ≤ width) × (width ≤ 8192) }
    requires bytes { All (λ bytes. length bytes ≡ symbols_of width (length line.now) (3 * C)) line.now }
    ensures pixels { IfOk result (λ pixels. pixels.items ≡ unpacked C (length line.now) width (byte_of line.now)) }
    ensures range { IfOk result (λ pixels. All (InRange C) pixels.items) }
{
    let mut lanes = Vec::new(alloc);
    for lane in 0..line.count() {
        let pixels = unpack_lane::<C>(alloc, line.lane(lane))?;
        push(&mut lanes, pixels)?;
    }
    take_turns(alloc, lanes.as_slice(), usize::from(width))
}

// The pixels that a lane's bytes make whole.
fn unpack_lane<const C: usize>(alloc: Global, bytes: &[u8]) -> Result<Vec<Pixel>, Memory>
    requires { (6 ≤ C) × (C ≤ 16) }
    ensures { IfOk result (λ pixels. pixels.items ≡ lane_pixels C bytes.now) }
{
    let mut unpacker = Unpacker::<C>::new();
    let mut pixels = Vec::new(alloc);
    for byte in bytes {
        if let Some(pixel) = unpacker.push(*byte) {
            push(&mut pixels, pixel)?;
        }
    }
    Ok(pixels)
}

// So many pixels, which the lanes have in turn.
fn take_turns(alloc: Global, lanes: &[Vec<Pixel>], width: usize) -> Result<Vec<Pixel>, Memory>
    requires lanes { 1 ≤ length lanes.now }
    requires room { HaveTurns (map (λ lane. lane.items) lanes.now) width }
    ensures { IfOk result (λ pixels. pixels.items ≡ in_turn (map (λ lane. lane.items) lanes.now) width) }
{
    let mut pixels = Vec::new(alloc);
    for x in 0..width {
        push(&mut pixels, turn(lanes, x))?;
    }
    Ok(pixels)
}

// Pixel x of those that the lanes have in turn.
fn turn(lanes: &[Vec<Pixel>], x: usize) -> Pixel
    requires lanes { 1 ≤ length lanes.now }
    requires room { x / length lanes.now < length (lane_with (map (λ lane. lane.items) lanes.now) x) }
    ensures { result ≡ pixel_in_turn (map (λ lane. lane.items) lanes.now) x }
{
    let lane = lanes[x % lanes.len()].as_slice();
    lane[x / lanes.len()]
}
