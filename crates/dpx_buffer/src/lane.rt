ghost use Rattle.std.specs.Prelude.{◌≡◌, ◌<◌, ◌≤◌, ◌+◌, ◌*◌, ◌++◌, ◌∷◌, [], length, All, IfOk};
ghost use Rattle.circular_buffer.specs.Buffer.{buffer};
ghost use Rattle.dpx_base.specs.Unpacking.{InRange};
ghost use Rattle.dpx_pack.specs.Bits.{bits_of_pixel, padding};
ghost use Rattle.dpx_buffer.specs.Lane.{ring_capacity, Packs};

use circular_buffer::HeapCircularBuffer;
use dpx_base::{Memory, Pixel};
use dpx_pack::{PackedBytes, Packer};
use std::alloc::Global;
use std::marker::Model;

/// The packer of a lane, and the bytes that wait on it. `C` is the number of bits of a component.
#[derive(Drop)]
pub(crate) struct Lane<const C: usize> {
    packer: Packer<C>,
    waiting: HeapCircularBuffer<u8>,
}

impl<const C: usize> Model for Lane<C> {
    ghost use Rattle.std.specs.Prelude.{◌≡◌, ◌≤◌, ◌<◌, length};
    ghost use Rattle.dpx_buffer.specs.Lane.{LaneState, ring_capacity};

    ghost Value = { LaneState };

    ghost view = { λ a. record { bits = a.packer; waiting = a.waiting.items } };

    ghost invariant = { λ a. (a.waiting.capacity ≡ ring_capacity)
        × (length a.waiting.items ≤ ring_capacity) × (length a.packer < 8) };
}

/// The bytes that fit a lane's ring.
const RING: usize = 40;

/// Puts bytes behind those that wait.
fn put_behind(waiting: &mut HeapCircularBuffer<u8>, bytes: &PackedBytes)
    requires { length waiting.old.items + length bytes.now ≤ waiting.old.capacity }
    ensures { waiting.new ≡ buffer (waiting.old.items ++ bytes.now) waiting.old.capacity }
{
    for place in 0..bytes.len() {
        waiting.push_back(bytes.get(place));
    }
}

impl<const C: usize> Lane<C> {
    /// Before the first line.
    pub(crate) fn new(alloc: Global) -> Result<Lane<C>, Memory>
        requires { (6 ≤ C) × (C ≤ 16) }
        ensures { IfOk result (λ lane. lane ≡ record { bits = []; waiting = [] }) }
    {
        let waiting = HeapCircularBuffer::with_capacity(alloc, RING).map_err(|_| Memory)?;
        Ok(Lane {
            packer: Packer::new(),
            waiting,
        })
    }

    /// Packs a pixel.
    pub(crate) fn push(&mut self, pixel: Pixel)
        requires depth { (6 ≤ C) × (C ≤ 16) }
        requires range { InRange C pixel }
        requires room { 8 * length self.old.waiting + length self.old.bits + 3 * C < 8 * ring_capacity + 8 }
        ensures { Packs (bits_of_pixel C pixel) self.old self.new }
    {
        let bytes = self.packer.pack(pixel);
        put_behind(&mut self.waiting, &bytes);
    }

    /// Ends a line.
    pub(crate) fn finish_line(&mut self)
        requires depth { (6 ≤ C) × (C ≤ 16) }
        requires room { 8 * length self.old.waiting + length self.old.bits ≤ 8 * ring_capacity }
        ensures packs { Packs (padding self.old.bits) self.old self.new }
        ensures whole { self.new.bits ≡ [] }
    {
        let bytes = self.packer.finish_line();
        self.waiting.fill_from_slice(bytes.as_slice());
    }

    /// How many bytes wait.
    pub(crate) fn len(&self) -> usize
        ensures length { result ≡ length self.now.waiting }
        ensures few { result ≤ ring_capacity }
    {
        self.waiting.len()
    }

    /// Takes the byte that has waited longest.
    pub(crate) fn take(&mut self) -> u8
        requires { 0 < length self.old.waiting }
        ensures first { self.old.waiting ≡ result ∷ self.new.waiting }
        ensures bits { self.new.bits ≡ self.old.bits }
    {
        match self.waiting.pop_front() {
            Some(byte) => byte,
            None => unreachable!(),
        }
    }
}
