ghost use Rattle.std.specs.Prelude.{◌≡◌, ◌<◌, ◌≤◌, ◌+◌, ◌*◌, ◌/◌, ◌%◌, ◌^◌, ◌++◌, ◌∷◌, All, length, slice_get, Some};
ghost use Rattle.dpx_pack.specs.Bits.{low_bits, low_bytes, bits_of_bytes};

use arrayvec::ArrayVec;
use std::marker::Model;

/// The bytes that a pixel makes whole, the first one first: at most six.
#[derive(Drop)]
pub struct PackedBytes {
    value: u64,
    count: u8,
}

impl Model for PackedBytes {
    ghost use Rattle.std.specs.Prelude.{List, ℕ, ◌≤◌};
    ghost use Rattle.dpx_pack.specs.Bits.{low_bytes};

    ghost Value = { List ℕ };

    ghost view = { λ w. low_bytes w.count w.value };

    ghost invariant = { λ w. w.count ≤ 6 };
}

impl PackedBytes {
    /// The whole bytes at the front of these bits: the bits, their number.
    pub(crate) fn of_bits(value: u64, count: u32) -> PackedBytes
        requires room { count ≤ 55 }
        ensures bytes { All (λ byte. byte < 256) result }
        ensures bits { low_bits count value ≡ bits_of_bytes result ++ low_bits (count % 8) (value % 2 ^ (count % 8)) }
    {
        PackedBytes {
            value: value >> (count % 8),
            count: (count / 8) as u8,
        }
    }

    /// How many there are.
    pub fn len(&self) -> usize
        ensures length { result ≡ length self.now }
        ensures few { result ≤ 6 }
        ensures bytes { All (λ byte. byte < 256) self.now }
    {
        usize::from(self.count)
    }

    /// The byte at this place.
    pub fn get(&self, place: usize) -> u8
        requires { place < length self.now }
        ensures { slice_get self.now place ≡ Some result }
    {
        let behind = usize::from(self.count) - 1 - place;
        ((self.value >> (8 * behind)) % 256) as u8
    }

    /// The same bytes as a list.
    pub fn to_array_vec(&self) -> ArrayVec<u8, 6>
        ensures { result.items ≡ self.now }
    {
        let mut bytes = ArrayVec::new();
        for place in 0..self.len() {
            bytes.push(self.get(place));
        }
        bytes
    }
}
