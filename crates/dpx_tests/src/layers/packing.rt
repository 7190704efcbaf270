ghost use Rattle.std.specs.Prelude.{◌≡◌, ◌<◌, ◌≤◌, ◌⊎◌, length};

use dpx_base::{Depth, Lanes, Pixel};
use dpx_pack::{LineBytes, Packer, Unpacker, are_in_range, is_in_range, pack_line, unpack_line};
use std::alloc::Global;
use std::process::Abort;
use std::test::Fail;

const DEPTHS: [Depth; 5] = [
    Depth::Six,
    Depth::Eight,
    Depth::Ten,
    Depth::Twelve,
    Depth::Sixteen,
];

fn pixel(r: u16, g: u16, b: u16) -> Pixel {
    Pixel { r, g, b }
}

fn packed(
    rt: &impl Abort,
    alloc: Global,
    pixels: &[Pixel],
    lanes: Lanes,
    depth: Depth,
) -> Result<LineBytes, Fail> {
    assert!(rt; !pixels.is_empty() && pixels.len() <= 8192);
    assert!(rt; are_in_range(pixels, depth), "{depth:?}");
    Ok(pack_line(alloc, pixels, lanes, depth)?)
}

/// The pixels on one lane are these bytes.
fn packs_to(
    rt: &impl Abort,
    alloc: Global,
    pixels: &[Pixel],
    depth: Depth,
    bytes: &[u8],
) -> Result<(), Fail> {
    let line = packed(rt, alloc, pixels, Lanes::One, depth)?;
    assert_eq!(rt; line.count(), 1);
    assert_eq!(rt; line.lane(0), bytes, "{depth:?}");
    Ok(())
}

/// What is packed comes back.
fn comes_back(
    rt: &impl Abort,
    alloc: Global,
    pixels: &[Pixel],
    lanes: Lanes,
    depth: Depth,
) -> Result<(), Fail> {
    assert!(rt; !pixels.is_empty() && pixels.len() <= 8192);
    assert!(rt; are_in_range(pixels, depth), "{depth:?}");
    let line = pack_line(alloc, pixels, lanes, depth)?;
    let back = unpack_line(alloc, &line, pixels.len() as u16, depth)?;
    assert_eq!(rt; back.as_slice(), pixels, "{depth:?} {lanes:?}");
    Ok(())
}

const THREE: [Pixel; 3] = [
    Pixel { r: 1, g: 2, b: 3 },
    Pixel { r: 63, g: 0, b: 42 },
    Pixel { r: 33, g: 0, b: 1 },
];

#[test]
fn components_go_highest_bit_first(rt: HostRuntime) -> Result<(), Fail> {
    let alloc = rt.alloc();
    packs_to(
        &rt,
        alloc,
        &THREE,
        Depth::Six,
        &[0x04, 0x20, 0xff, 0x02, 0xa8, 0x40, 0x04],
    )?;
    comes_back(&rt, alloc, &THREE, Lanes::One, Depth::Six)?;
    let one = [pixel(1, 2, 3)];
    packs_to(&rt, alloc, &one, Depth::Eight, &[1, 2, 3])?;
    packs_to(
        &rt,
        alloc,
        &one,
        Depth::Twelve,
        &[0x00, 0x10, 0x02, 0x00, 0x30],
    )?;
    packs_to(
        &rt,
        alloc,
        &one,
        Depth::Sixteen,
        &[0x00, 0x01, 0x00, 0x02, 0x00, 0x03],
    )
}

#[test]
fn last_group_is_filled_up_with_black(rt: HostRuntime) -> Result<(), Fail> {
    let mut pixels = [pixel(0x2aa, 1, 0x3ff); 17];
    pixels[16] = pixel(1023, 0, 341);
    let line = packed(&rt, rt.alloc(), &pixels, Lanes::Four, Depth::Ten)?;
    assert_eq!(rt; line.count(), 4);
    for lane in 0..4 {
        assert_eq!(rt; line.lane(lane).len(), 19, "lane {lane}");
        let end = if lane == 0 {
            [0xff, 0xc0, 0x05, 0x54]
        } else {
            [0; 4]
        };
        assert!(rt; line.lane(lane).ends_with(&end), "lane {lane}");
    }
    Ok(())
}

/// The pixels of a line of 16 on two lanes: the byte of pixel x is 3x, 3x + 1, 3x + 2.
#[test]
fn pixels_go_to_the_lanes_in_turn(rt: HostRuntime) -> Result<(), Fail> {
    let mut pixels = [Pixel::default(); 16];
    for x in 0..16u16 {
        pixels[usize::from(x)] = pixel(3 * x, 3 * x + 1, 3 * x + 2);
    }
    let line = packed(&rt, rt.alloc(), &pixels, Lanes::Two, Depth::Eight)?;
    assert_eq!(rt; line.count(), 2);
    assert!(rt; line.lane(0).starts_with(&[0, 1, 2, 6, 7, 8]));
    assert!(rt; line.lane(1).starts_with(&[3, 4, 5, 9, 10, 11]));
    assert!(rt; line.lane(1).ends_with(&[45, 46, 47]));
    Ok(())
}

/// The greatest component.
fn greatest(depth: Depth) -> u16
    ensures { 1 ≤ result }
{
    match depth {
        Depth::Six => 63,
        Depth::Eight => 255,
        Depth::Ten => 1023,
        Depth::Twelve => 4095,
        Depth::Sixteen => 65_535,
    }
}

/// Pixels with the least and the greatest components among them.
fn picture(depth: Depth) -> [Pixel; 33] {
    let last = greatest(depth);
    let mut pixels = [pixel(0, last, 0); 33];
    for x in 1..33u16 {
        pixels[usize::from(x)] = pixel(x * 1009 % last, last - x * 617 % last, last / x);
    }
    pixels
}

#[test]
fn lines_come_back(rt: HostRuntime) -> Result<(), Fail> {
    for depth in DEPTHS {
        let pixels = picture(depth);
        for width in 16..34usize {
            for lanes in [Lanes::One, Lanes::Two, Lanes::Four] {
                comes_back(&rt, rt.alloc(), &pixels[..width], lanes, depth)?;
            }
        }
    }
    Ok(())
}

#[test]
fn components_in_range_are_below_two_to_the_depth(rt: HostRuntime) {
    for depth in DEPTHS {
        let last = greatest(depth);
        assert!(rt; is_in_range(&pixel(last, last, last), depth), "{depth:?}");
    }
    for (r, g, b) in [(64, 0, 0), (0, 64, 0), (0, 0, 64)] {
        assert!(rt; !is_in_range(&pixel(r, g, b), Depth::Six), "{r} {g} {b}");
        assert!(rt; !are_in_range(&[pixel(63, 63, 63), pixel(r, g, b)], Depth::Six));
    }
}

#[test]
fn lane_is_packed_pixel_by_pixel(rt: HostRuntime) {
    let first = pixel(1, 2, 3);
    let second = pixel(0xabc, 0xdef, 0x123);
    assert!(rt; is_in_range(&first, Depth::Twelve) && is_in_range(&second, Depth::Twelve));
    let mut packer = Packer::<12>::new();
    assert_eq!(rt;
        packer.push(first).as_slice(),
        [0x00, 0x10, 0x02, 0x00].as_slice()
    );
    assert_eq!(rt; packer.finish_line().as_slice(), [0x30].as_slice());
    let bytes = packer.pack(second);
    assert_eq!(rt; bytes.len(), 4);
    assert_eq!(rt; (bytes.get(0), bytes.get(3)), (0xab, 0x12));
}

#[test]
fn lane_is_unpacked_byte_by_byte(rt: HostRuntime) {
    let mut unpacker = Unpacker::<12>::new();
    for byte in [0x00, 0x10, 0x02, 0x00] {
        assert_eq!(rt; unpacker.push(byte), None);
    }
    assert_eq!(rt; unpacker.push(0x3f), Some(pixel(1, 2, 3)));
    unpacker.finish_line();
    for byte in [0x00, 0x10, 0x02, 0x00] {
        assert_eq!(rt; unpacker.push(byte), None);
    }
    assert_eq!(rt; unpacker.push(0x30), Some(pixel(1, 2, 3)));
}
