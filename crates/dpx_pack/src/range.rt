ghost use Rattle.std.specs.Prelude.{◌≡◌, ◌↔◌, ◌^◌, All, IsTrue};
ghost use Rattle.dpx_base.specs.Mode.{depth_bits};
ghost use Rattle.dpx_base.specs.Unpacking.{InRange};

use dpx_base::{Depth, Pixel};

/// Whether the components have no more bits than the depth.
pub fn is_in_range(pixel: &Pixel, depth: Depth) -> bool
    ensures { IsTrue result ↔ InRange (depth_bits depth) pixel.now }
{
    let end = component_end(depth);
    u32::from(pixel.r) < end && u32::from(pixel.g) < end && u32::from(pixel.b) < end
}

/// Whether those of all pixels have.
pub fn are_in_range(pixels: &[Pixel], depth: Depth) -> bool
    ensures { IsTrue result ↔ All (InRange (depth_bits depth)) pixels.now }
{
    pixels.iter().all(|pixel| is_in_range(pixel, depth))
}

// The first number that has more bits than a component.
fn component_end(depth: Depth) -> u32
    ensures { result ≡ 2 ^ depth_bits depth }
{
    match depth {
        Depth::Six => 0x40,
        Depth::Eight => 0x100,
        Depth::Ten => 0x400,
        Depth::Twelve => 0x1000,
        Depth::Sixteen => 0x1_0000,
    }
}
