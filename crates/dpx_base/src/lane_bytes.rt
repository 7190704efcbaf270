ghost use Rattle.std.specs.Prelude.{◌≡◌, ◌<◌, ◌≤◌, length, slice_get, Some};

use std::marker::Model;

/// The bytes of a clock, lane 0 first: one to four.
#[derive(Clone, Copy, Debug, PartialEq, Eq)]
pub struct LaneBytes {
    pub(crate) bytes: [u8; 4],
    pub(crate) count: u8,
}

impl Model for LaneBytes {
    ghost use Rattle.std.specs.Prelude.{ℕ, List, take, length};
    ghost use Rattle.dpx_base.specs.Padded.{padded, IsPadded};
    ghost use Rattle.dpx_base.specs.Padded.{fields_back};

    ghost Value = { List ℕ };

    ghost view = { λ s. take s.count s.bytes };

    ghost invariant = { λ s. IsPadded 1 4 0 s.bytes s.count };

    ghost inverse = { λ l. record { bytes = padded 4 0 l; count = length l } };

    ghost inverse_ok = { λ s h. fields_back (λ bytes count. record { bytes = bytes; count = count }) h };
}

impl LaneBytes {
    /// Takes all of the bytes, one to four.
    pub fn from_slice(items: &[u8]) -> LaneBytes
        requires { (1 ≤ length items.now) × (length items.now ≤ 4) }
        ensures { result ≡ items.now }
    {
        match items {
            [a] => LaneBytes {
                bytes: [*a, 0, 0, 0],
                count: 1,
            },
            [a, b] => LaneBytes {
                bytes: [*a, *b, 0, 0],
                count: 2,
            },
            [a, b, c] => LaneBytes {
                bytes: [*a, *b, *c, 0],
                count: 3,
            },
            [a, b, c, d] => LaneBytes {
                bytes: [*a, *b, *c, *d],
                count: 4,
            },
            _ => unreachable!(),
        }
    }

    /// How many lanes it has.
    pub fn len(&self) -> usize
        ensures length { result ≡ length self.now }
        ensures range { (1 ≤ result) × (result ≤ 4) }
    {
        usize::from(self.count)
    }

    /// The byte of a lane.
    pub fn get(&self, place: usize) -> u8
        requires { place < length self.now }
        ensures { slice_get self.now place ≡ Some result }
    {
        self.bytes[place]
    }
}
