ghost use Rattle.std.specs.Prelude.{◌≡◌, ◌<◌, ◌≤◌, length, slice_get, Some};

use crate::Pixel;
use std::marker::Model;

/// The pixels that arrive in a clock, in order: none to two.
#[derive(Clone, Copy, Debug, PartialEq, Eq)]
pub struct Arrivals {
    pixels: [Pixel; 2],
    count: u8,
}

impl Model for Arrivals {
    ghost use Rattle.std.specs.Prelude.{List, take, length};
    ghost use Rattle.dpx_base.specs.declared.pixel.Pixel.{Pixel};
    ghost use Rattle.dpx_base.specs.Padded.{padded, IsPadded};
    ghost use Rattle.dpx_base.specs.Sets.{black};
    ghost use Rattle.dpx_base.specs.Padded.{fields_back};

    ghost Value = { List Pixel };

    ghost view = { λ a. take a.count a.pixels };

    ghost invariant = { λ a. IsPadded 0 2 black a.pixels a.count };

    ghost inverse = { λ l. record { pixels = padded 2 black l; count = length l } };

    ghost inverse_ok = { λ a h. fields_back (λ pixels count. record { pixels = pixels; count = count }) h };
}

const BLACK: Pixel = Pixel { r: 0, g: 0, b: 0 };

impl Arrivals {
    /// Takes all of the pixels, at most two.
    pub fn from_slice(items: &[Pixel]) -> Arrivals
        requires { length items.now ≤ 2 }
        ensures { result ≡ items.now }
    {
        match items {
            [] => Arrivals {
                pixels: [BLACK, BLACK],
                count: 0,
            },
            [a] => Arrivals {
                pixels: [*a, BLACK],
                count: 1,
            },
            [a, b] => Arrivals {
                pixels: [*a, *b],
                count: 2,
            },
            _ => unreachable!(),
        }
    }

    /// How many pixels arrive.
    pub fn len(&self) -> usize
        ensures length { result ≡ length self.now }
        ensures few { result ≤ 2 }
    {
        usize::from(self.count)
    }

    /// The pixel at a place.
    pub fn get(&self, place: usize) -> Pixel
        requires { place < length self.now }
        ensures { slice_get self.now place ≡ Some result }
    {
        let pixels = self.pixels;
        pixels[place]
    }
}
