ghost use Rattle.std.specs.Prelude.{◌≡◌, ◌<◌, ◌≤◌, ◌++◌, ◌∷◌, [], length, slice_index_or};
ghost use Rattle.dpx_base.specs.Sets.{black};

use dpx_base::Pixel;
use std::marker::Model;

/// The pixels of an unfinished group, lane 0 first: at most four.
#[derive(Drop)]
pub(crate) struct Group {
    pixels: [Pixel; 4],
    count: u8,
}

impl Model for Group {
    ghost use Rattle.std.specs.Prelude.{List, take, length, ◌≡◌, ◌≤◌};
    ghost use Rattle.dpx_base.specs.declared.pixel.Pixel.{Pixel};

    ghost Value = { List Pixel };

    ghost view = { λ g. take g.count g.pixels };

    ghost invariant = { λ g. (g.count ≤ 4) × (length (take g.count g.pixels) ≡ g.count) };
}

const BLACK: Pixel = Pixel { r: 0, g: 0, b: 0 };

impl Group {
    pub(crate) fn new() -> Group
        ensures { result ≡ [] }
    {
        Group {
            pixels: [BLACK; 4],
            count: 0,
        }
    }

    pub(crate) fn len(&self) -> usize
        ensures length { result ≡ length self.now }
        ensures few { result ≤ 4 }
    {
        usize::from(self.count)
    }

    pub(crate) fn push(&mut self, pixel: Pixel)
        requires { length self.old < 4 }
        ensures { self.new ≡ self.old ++ pixel ∷ [] }
    {
        self.pixels[usize::from(self.count)] = pixel;
        self.count += 1;
    }

    /// The pixel of a lane: black where the group has none for it.
    pub(crate) fn pixel_of(&self, lane: usize) -> Pixel
        ensures { result ≡ slice_index_or self.now lane black }
    {
        if lane < self.len() {
            self.pixels[lane]
        } else {
            BLACK
        }
    }

    pub(crate) fn clear(&mut self)
        ensures { self.new ≡ [] }
    {
        self.count = 0;
    }
}
