ghost use Rattle.std.specs.Prelude.{◌<◌, ◌≤◌, length};

use dpx_base::{Arrivals, LaneBytes, LaneSet, Lanes, Pixel, Sym, read_pixel, write_pixel};
use std::process::Abort;

const PIXEL: Pixel = Pixel {
    r: 155,
    g: 0,
    b: 100,
};

/// A set of these bytes, as data.
fn has_data(rt: &impl Abort, bytes: &[u8])
    requires { (1 ≤ length bytes.now) × (length bytes.now ≤ 4) }
{
    let lanes = LaneBytes::from_slice(bytes);
    let set = LaneSet::data(&lanes);
    assert_eq!(rt; (lanes.len(), set.len()), (bytes.len(), bytes.len()));
    for lane in 0..bytes.len() {
        assert_eq!(rt; bytes.get(lane), Some(&lanes.get(lane)), "lane {lane}");
        assert_eq!(rt; set.get(lane), Sym::data(lanes.get(lane)), "lane {lane}");
    }
}

#[test]
fn sets_have_the_data_of_their_lanes(rt: HostRuntime) {
    has_data(&rt, &[7]);
    has_data(&rt, &[7, 0]);
    has_data(&rt, &[7, 8, 0]);
    has_data(&rt, &[7, 8, 9, 255]);
}

#[test]
fn sets_are_the_same_where_their_symbols_are(rt: HostRuntime) {
    let be = Sym::control(0xfb);
    assert_eq!(rt;
        LaneSet::on_each(Lanes::One, be),
        LaneSet::from_slice(&[be])
    );
    assert_eq!(rt;
        LaneSet::on_each(Lanes::Two, be),
        LaneSet::from_slice(&[be, be])
    );
    assert_eq!(rt;
        LaneSet::on_each(Lanes::Four, be),
        LaneSet::from_slice(&[be, be, be, be])
    );
    let three = LaneSet::from_slice(&[be, be, Sym::data(0)]);
    assert_ne!(rt; three, LaneSet::from_slice(&[be, be]));
    assert_ne!(rt; three, LaneSet::from_slice(&[be, be, Sym::control(0)]));
}

#[test]
fn two_pixels_arrive_in_order(rt: HostRuntime) {
    let black = Pixel::default();
    let two = Arrivals::from_slice(&[PIXEL, black]);
    assert_eq!(rt; (two.len(), two.get(0), two.get(1)), (2, PIXEL, black));
    assert_eq!(rt; Arrivals::from_slice(&[PIXEL]).get(0), PIXEL);
    assert_eq!(rt; Arrivals::from_slice(&[]).len(), 0);
}

#[test]
fn pixel_records_have_the_most_significant_byte_first(rt: HostRuntime) {
    assert_eq!(rt; write_pixel(PIXEL), [0, 155, 0, 0, 0, 100]);
    let wide = Pixel {
        r: 0x1234,
        g: 0xabcd,
        b: 0xff00,
    };
    assert_eq!(rt; write_pixel(wide), [0x12, 0x34, 0xab, 0xcd, 0xff, 0x00]);
    assert_eq!(rt; read_pixel(&[0x12, 0x34, 0xab, 0xcd, 0xff, 0x00]), wide);
}
