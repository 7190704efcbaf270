ghost use Rattle.std.specs.Prelude.{◌≡◌, ◌<◌, ◌+◌, ◌^◌, ℕ};
ghost use Rattle.dpx_base.specs.Mode.{depth_bits};
ghost use Rattle.dpx_source.specs.Pixels.{bad_value, first_bad};

use crate::BadPixel;
use dpx_base::{Arrivals, Depth, Pixel};

/// The least number that a component may not be.
fn limit(depth: Depth) -> u32
    ensures { result ≡ 2 ^ depth_bits depth }
{
    match depth {
        Depth::Six => 64,
        Depth::Eight => 256,
        Depth::Ten => 1024,
        Depth::Twelve => 4096,
        Depth::Sixteen => 65536,
    }
}

/// The pixel's first component that is not below the limit.
fn bad_value(limit: u32, pixel: Pixel) -> Option<u16>
    ensures { (depth : ℕ) → limit ≡ 2 ^ depth → result ≡ bad_value depth pixel }
{
    if limit <= u32::from(pixel.r) {
        Some(pixel.r)
    } else if limit <= u32::from(pixel.g) {
        Some(pixel.g)
    } else if limit <= u32::from(pixel.b) {
        Some(pixel.b)
    } else {
        None
    }
}

/// The first bad pixel, where the first of these has this number.
pub(crate) fn first_bad(depth: Depth, number: u64, arrivals: &Arrivals) -> Option<BadPixel>
    requires { number + 2 < 2 ^ 64 }
    ensures { result ≡ first_bad (depth_bits depth) number arrivals.now }
{
    let limit = limit(depth);
    for place in 0..arrivals.len() {
        if let Some(value) = bad_value(limit, arrivals.get(place)) {
            let number = number + place as u64;
            return Some(BadPixel { number, value });
        }
    }
    None
}
