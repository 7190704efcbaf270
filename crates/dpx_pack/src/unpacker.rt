ghost use Rattle.std.specs.Prelude.{◌≡◌, ◌<◌, ◌≤◌, ◌+◌, ◌*◌, ◌^◌, ◌↔◌, ℕ, List, [], ◌∷◌, ◌++◌, length};
ghost use Rattle.std.specs.Prelude.{IsSome, IfSome, IfNone};
ghost use Rattle.dpx_base.specs.Unpacking.{InRange};
ghost use Rattle.dpx_pack.specs.Bits.{low_bits, bits_of_pixel};
ghost use Rattle.dpx_pack.specs.Lanes.{LeftOfBytes, pixel_completed};

use crate::bits::{joined, take_top};
use dpx_base::Pixel;
use std::marker::Model;

/// The unpacker of a lane: the bits that are not yet a pixel. `C` is the number of bits of a component, 6 to 16.
#[derive(Drop)]
pub struct Unpacker<const C: usize> {
    value: u64,
    left: u32,
}

impl<const C: usize> Model for Unpacker<C> {
    ghost use Rattle.std.specs.Prelude.{List, ℕ, ◌<◌, ◌^◌, ◌*◌};
    ghost use Rattle.dpx_pack.specs.Bits.{low_bits};

    ghost Value = { List ℕ };

    ghost view = { λ u. low_bits u.left u.value };

    ghost invariant = { λ u. (u.left < 3 * C) × (u.value < 2 ^ u.left) };
}

impl<const C: usize> Unpacker<C> {
    /// Before a line.
    pub fn new() -> Unpacker<C>
        requires { (6 ≤ C) × (C ≤ 16) }
        ensures empty { result ≡ [] }
        ensures stands { LeftOfBytes C [] result }
    {
        Unpacker { value: 0, left: 0 }
    }

    /// Takes the lane's next byte. This is the pixel that it completes, if it completes one.
    pub fn push(&mut self, byte: u8) -> Option<Pixel>
        requires { (6 ≤ C) × (C ≤ 16) }
        ensures complete { IsSome result ↔ (3 * C ≤ length self.old + 8) }
        ensures some { IfSome result (λ pixel. self.old ++ low_bits 8 byte ≡ bits_of_pixel C pixel ++ self.new) }
        ensures range { IfSome result (InRange C) }
        ensures none { IfNone result (self.new ≡ self.old ++ low_bits 8 byte) }
        ensures places { (bytes : List ℕ) → LeftOfBytes C bytes self.old → result ≡ pixel_completed C bytes byte }
        ensures stands { (bytes : List ℕ) → LeftOfBytes C bytes self.old
            → LeftOfBytes C (bytes ++ byte ∷ []) self.new }
    {
        let width = C as u32;
        let all = joined(self.value, self.left, u16::from(byte), 8);
        let count = self.left + 8;
        if count < 3 * width {
            self.value = all;
            self.left = count;
            return None;
        }
        let (r, first) = take_top(all, count, width);
        let (g, second) = take_top(first, count - width, width);
        let (b, rest) = take_top(second, count - width - width, width);
        self.value = rest;
        self.left = count - width - width - width;
        Some(Pixel { r, g, b })
    }

    /// Drops the bits that are left: the padding of a line.
    pub fn finish_line(&mut self)
        requires { (6 ≤ C) × (C ≤ 16) }
        ensures empty { self.new ≡ [] }
        ensures stands { LeftOfBytes C [] self.new }
    {
        self.value = 0;
        self.left = 0;
    }
}
