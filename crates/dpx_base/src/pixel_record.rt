ghost use Rattle.std.specs.Prelude.{◌≡◌};
ghost use Rattle.dpx_base.specs.PixelRecord.{pixel_record, pixel_from};

use crate::Pixel;
use byteorder::{BigEndian, ByteOrder};

/// The pixel of a record.
pub fn read_pixel(bytes: &[u8; 6]) -> Pixel
    ensures { result ≡ pixel_from bytes.now }
{
    Pixel {
        r: BigEndian::read_u16(&bytes[..]),
        g: BigEndian::read_u16(&bytes[2..]),
        b: BigEndian::read_u16(&bytes[4..]),
    }
}

/// The record of a pixel.
pub fn write_pixel(pixel: Pixel) -> [u8; 6]
    ensures value { result ≡ pixel_record pixel }
    ensures back { pixel_from result ≡ pixel }
{
    let mut bytes = [0; 6];
    BigEndian::write_u16(&mut bytes[..], pixel.r);
    BigEndian::write_u16(&mut bytes[2..], pixel.g);
    BigEndian::write_u16(&mut bytes[4..], pixel.b);
    bytes
}
