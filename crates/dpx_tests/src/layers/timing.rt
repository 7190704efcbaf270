//! Fit, by worked lines, and beside a computation by hand for modes in use.

ghost use Rattle.std.specs.Prelude.{◌≤◌};

use dpx_base::{Depth, Lanes, Link, Mode, Rate, RawMode};
use dpx_timing::{Unfit, fit, symbols};
use std::process::Abort;

mod by_hand;
mod in_use;

/// Width, height, both with their blank, and the pixel clock in kHz.
pub(crate) type Sizes = [u32; 5];

pub(crate) const RATES: [Rate; 4] = [Rate::Rbr, Rate::Hbr, Rate::Hbr2, Rate::Hbr3];

pub(crate) const LANES: [Lanes; 3] = [Lanes::One, Lanes::Two, Lanes::Four];

/// A mode whose sync is one pixel and one line: fit does not look at it.
pub(crate) fn mode(rt: &impl Abort, sizes: Sizes, depth: Depth) -> Mode {
    let [width, height, htotal, vtotal, clock_khz] = sizes;
    let raw = RawMode {
        width,
        height,
        htotal,
        vtotal,
        hsw: 1,
        hstart: 1,
        vsw: 1,
        vstart: 1,
        hsp: false,
        vsp: false,
        clock_khz,
        depth,
    };
    Mode::read(&raw).expect(rt, "a legal mode")
}

/// The symbols of a line, n, m, the delay, the line's end, the bound, the clocks of two frames.
pub(crate) type Numbers = [u64; 7];

pub(crate) fn outcome(mode: &Mode, link: Link, unit: u8) -> Result<Numbers, Unfit>
    requires { (32 ≤ unit) × (unit ≤ 64) }
{
    let plan = fit(mode, link, unit, 2)?;
    Ok([
        u64::from(plan.symbols()),
        plan.n(),
        plan.m(),
        u64::from(plan.delay()),
        plan.line_end(),
        u64::from(plan.bound()),
        plan.clocks(),
    ])
}

#[test]
fn small_lines_have_their_numbers(rt: HostRuntime) {
    let rows = [
        (
            Depth::Eight,
            true,
            [24, 1_296_000, 2_592_000, 25, 40, 20, 699],
        ),
        (
            Depth::Eight,
            false,
            [24, 1_296_000, 2_592_000, 25, 40, 20, 696],
        ),
        (
            Depth::Twelve,
            true,
            [36, 1_944_000, 2_592_000, 17, 44, 23, 695],
        ),
        (
            Depth::Sixteen,
            true,
            [48, 2_592_000, 2_592_000, 8, 48, 26, 690],
        ),
    ];
    for (depth, enhanced, wanted) in rows {
        let link = Link {
            rate: Rate::Rbr,
            lanes: Lanes::Two,
            enhanced,
        };
        let mode = mode(&rt, [16, 2, 28, 4, 54_000], depth);
        assert_eq!(rt;
            outcome(&mode, link, 32),
            Ok(wanted),
            "{depth:?} {enhanced}"
        );
    }
}

fn link(rate: Rate, lanes: Lanes) -> Link {
    Link {
        rate,
        lanes,
        enhanced: true,
    }
}

/// n, m, the delay and the line's end.
fn shortly(mode: &Mode, link: Link, unit: u8) -> Result<[u64; 4], Unfit>
    requires { (32 ≤ unit) × (unit ≤ 64) }
{
    let [_, n, m, delay, line_end, _, _] = outcome(mode, link, unit)?;
    Ok([n, m, delay, line_end])
}

#[test]
fn longer_lines_have_their_numbers(rt: HostRuntime) {
    let rbr = link(Rate::Rbr, Lanes::One);
    let hbr2 = link(Rate::Hbr2, Lanes::One);
    let tight = mode(&rt, [16, 1, 24, 3, 54_000], Depth::Eight);
    assert_eq!(rt; shortly(&tight, rbr, 64), Ok([1_296_000, 1_296_000, 5, 48]));
    let near = mode(&rt, [64, 1, 80, 3, 174_375], Depth::Eight);
    assert_eq!(rt;
        shortly(&near, hbr2, 32),
        Ok([4_185_000, 4_320_000, 7, 198])
    );
    assert_eq!(rt;
        shortly(&near, hbr2, 64),
        Ok([4_185_000, 4_320_000, 8, 198])
    );
    let large = mode(&rt, [3840, 2160, 4000, 2222, 533_250], Depth::Eight);
    let hbr2x4 = link(Rate::Hbr2, Lanes::Four);
    assert_eq!(rt;
        shortly(&large, hbr2x4, 64),
        Ok([12_798_000, 17_280_000, 24, 3876])
    );
    let slow = mode(&rt, [640, 480, 800, 525, 25_175], Depth::Six);
    let hbr3x4 = link(Rate::Hbr3, Lanes::Four);
    assert_eq!(rt;
        shortly(&slow, hbr3x4, 64),
        Ok([453_150, 25_920_000, 250, 20_545])
    );
}

#[test]
fn refusals_carry_their_two_sides(rt: HostRuntime) {
    let rbr = link(Rate::Rbr, Lanes::One);
    let fast = mode(&rt, [16, 1, 24, 3, 54_001], Depth::Eight);
    let too_fast = Unfit::TooFast {
        n: 1_296_024,
        m: 1_296_000,
    };
    assert_eq!(rt; outcome(&fast, rbr, 64), Err(too_fast));
    let slow = mode(&rt, [640, 480, 800, 525, 20_000], Depth::Six);
    let too_slow = Unfit::TooSlow {
        n: 360_000,
        m: 25_920_000,
        unit: 64,
    };
    assert_eq!(rt;
        outcome(&slow, link(Rate::Hbr3, Lanes::Four), 64),
        Err(too_slow)
    );
    let short = mode(&rt, [16, 1, 23, 3, 54_000], Depth::Eight);
    let no_room = Unfit::NoRoom { have: 69, need: 70 };
    assert_eq!(rt; outcome(&short, rbr, 64), Err(no_room));
}

#[test]
fn symbols_fill_up_lanes_and_bytes(rt: HostRuntime) {
    assert_eq!(rt; symbols(17, Depth::Ten, Lanes::Four), 19);
    assert_eq!(rt; symbols(3, Depth::Six, Lanes::One), 7);
    assert_eq!(rt; symbols(3840, Depth::Eight, Lanes::Four), 2880);
}
