ghost use Rattle.std.specs.Prelude.{◌≡◌, ◌<◌, ◌≤◌, ◌+◌, ◌-◌, ◌*◌, ◌/◌, ◌^◌, ℕ, List, [], ◌∷◌, ◌++◌, length, All};
ghost use Rattle.dpx_base.specs.declared.pixel.Pixel.{Pixel};
ghost use Rattle.dpx_base.specs.Unpacking.{InRange};
ghost use Rattle.dpx_pack.specs.Bits.{bits_of_bytes, bits_of_pixel, padding};
ghost use Rattle.dpx_pack.specs.Lanes.{LeftOfPixels, bytes_made_whole, last_bytes};

use crate::PackedBytes;
use crate::bits::{filled_up, joined};
use arrayvec::ArrayVec;
use dpx_base::Pixel;
use std::marker::Model;

/// The packer of a lane: the bits that are not yet a byte. `C` is the number of bits of a component, 6 to 16.
#[derive(Drop)]
pub struct Packer<const C: usize> {
    value: u64,
    left: u32,
}

impl<const C: usize> Model for Packer<C> {
    ghost use Rattle.std.specs.Prelude.{List, ℕ, ◌<◌, ◌^◌};
    ghost use Rattle.dpx_pack.specs.Bits.{low_bits};

    ghost Value = { List ℕ };

    ghost view = { λ p. low_bits p.left p.value };

    ghost invariant = { λ p. (p.left < 8) × (p.value < 2 ^ p.left) };
}

impl<const C: usize> Packer<C> {
    /// Before a line.
    pub fn new() -> Packer<C>
        requires { (6 ≤ C) × (C ≤ 16) }
        ensures empty { result ≡ [] }
        ensures stands { LeftOfPixels C [] result }
    {
        Packer { value: 0, left: 0 }
    }

    /// Packs the lane's next pixel. These are the bytes that it makes whole.
    pub fn push(&mut self, pixel: Pixel) -> ArrayVec<u8, 6>
        requires width { (6 ≤ C) × (C ≤ 16) }
        requires range { InRange C pixel }
        ensures bits { self.old ++ bits_of_pixel C pixel ≡ bits_of_bytes result.items ++ self.new }
        ensures left { length self.new < 8 }
        ensures bytes { All (λ byte. byte < 256) result.items }
        ensures places { (pixels : List Pixel) → LeftOfPixels C pixels self.old
            → result.items ≡ bytes_made_whole C pixels pixel }
        ensures stands { (pixels : List Pixel) → LeftOfPixels C pixels self.old
            → LeftOfPixels C (pixels ++ pixel ∷ []) self.new }
    {
        self.pack(pixel).to_array_vec()
    }

    /// The same as `push`, with the bytes in a value that is small and quickly read.
    pub fn pack(&mut self, pixel: Pixel) -> PackedBytes
        requires width { (6 ≤ C) × (C ≤ 16) }
        requires range { InRange C pixel }
        ensures bits { self.old ++ bits_of_pixel C pixel ≡ bits_of_bytes result ++ self.new }
        ensures left { length self.new < 8 }
        ensures bytes { All (λ byte. byte < 256) result }
        ensures places { (pixels : List Pixel) → LeftOfPixels C pixels self.old
            → result ≡ bytes_made_whole C pixels pixel }
        ensures stands { (pixels : List Pixel) → LeftOfPixels C pixels self.old
            → LeftOfPixels C (pixels ++ pixel ∷ []) self.new }
    {
        let width = C as u32;
        let red = joined(self.value, self.left, pixel.r, width);
        let green = joined(red, self.left + width, pixel.g, width);
        let blue = joined(green, self.left + width + width, pixel.b, width);
        let count = self.left + width + width + width;
        self.left = count % 8;
        self.value = blue % (1 << self.left);
        PackedBytes::of_bits(blue, count)
    }

    /// The last byte of a line, filled up with zeros, if bits are left.
    pub fn finish_line(&mut self) -> ArrayVec<u8, 6>
        requires { (6 ≤ C) × (C ≤ 16) }
        ensures bits { self.old ++ padding self.old ≡ bits_of_bytes result.items }
        ensures bytes { All (λ byte. byte < 256) result.items }
        ensures places { (pixels : List Pixel) → LeftOfPixels C pixels self.old → result.items ≡ last_bytes C pixels }
        ensures empty { self.new ≡ [] }
        ensures stands { LeftOfPixels C [] self.new }
    {
        let mut bytes = ArrayVec::new();
        if self.left > 0 {
            bytes.push(filled_up(self.value, self.left));
            self.value = 0;
            self.left = 0;
        }
        bytes
    }
}
