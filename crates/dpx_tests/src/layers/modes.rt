ghost use Rattle.std.specs.Prelude.{◌<◌};

use dpx_base::{Depth, Mode, ModeField, RawMode};
use std::process::Abort;

/// Width, height, htotal, vtotal, hsw, hstart, vsw, vstart and the clock of 640 × 480 pixels at 60 Hz.
const VGA: [u32; 9] = [640, 480, 800, 525, 96, 144, 2, 35, 25_175];

const FIELDS: [ModeField; 9] = [
    ModeField::Width,
    ModeField::Height,
    ModeField::Htotal,
    ModeField::Vtotal,
    ModeField::Hsw,
    ModeField::Hstart,
    ModeField::Vsw,
    ModeField::Vstart,
    ModeField::Clock,
];

fn raw(numbers: [u32; 9]) -> RawMode {
    let [
        width,
        height,
        htotal,
        vtotal,
        hsw,
        hstart,
        vsw,
        vstart,
        clock_khz,
    ] = numbers;
    RawMode {
        width,
        height,
        htotal,
        vtotal,
        hsw,
        hstart,
        vsw,
        vstart,
        hsp: true,
        vsp: false,
        clock_khz,
        depth: Depth::Eight,
    }
}

/// A mode of these numbers is read, or this field is named.
fn reads(rt: &impl Abort, numbers: [u32; 9], wrong: Option<ModeField>) {
    assert_eq!(rt; Mode::read(&raw(numbers)).err(), wrong, "{numbers:?}");
}

#[test]
fn sizes_are_tried_at_their_edges(rt: HostRuntime) {
    let cases = [
        (0, 15, Some(ModeField::Width)),
        (0, 16, None),
        (0, 8192, Some(ModeField::Htotal)),
        (0, 8193, Some(ModeField::Width)),
        (1, 0, Some(ModeField::Height)),
        (1, 1, None),
        (1, 8192, Some(ModeField::Vtotal)),
        (1, 8193, Some(ModeField::Height)),
        (2, 640, Some(ModeField::Htotal)),
        (2, 641, Some(ModeField::Hsw)),
        (2, 65_535, None),
        (2, 65_536, Some(ModeField::Htotal)),
        (3, 481, Some(ModeField::Vtotal)),
        (3, 482, Some(ModeField::Vstart)),
        (3, 65_535, None),
        (3, 65_536, Some(ModeField::Vtotal)),
    ];
    for (place, number, wrong) in cases {
        let mut numbers = VGA;
        if let Some(field) = numbers.get_mut(place) {
            *field = number;
        }
        reads(&rt, numbers, wrong);
    }
}

#[test]
fn sync_pulses_and_the_clock_are_tried_at_their_edges(rt: HostRuntime) {
    let cases = [
        (4, 0, Some(ModeField::Hsw)),
        (4, 1, None),
        (4, 144, None),
        (4, 145, Some(ModeField::Hstart)),
        (4, 160, Some(ModeField::Hstart)),
        (4, 161, Some(ModeField::Hsw)),
        (5, 95, Some(ModeField::Hstart)),
        (5, 96, None),
        (5, 160, None),
        (5, 161, Some(ModeField::Hstart)),
        (6, 0, Some(ModeField::Vsw)),
        (6, 1, None),
        (6, 35, None),
        (6, 36, Some(ModeField::Vstart)),
        (6, 45, Some(ModeField::Vstart)),
        (6, 46, Some(ModeField::Vsw)),
        (7, 1, Some(ModeField::Vstart)),
        (7, 2, None),
        (7, 45, None),
        (7, 46, Some(ModeField::Vstart)),
        (8, 0, Some(ModeField::Clock)),
        (8, 1, None),
        (8, 1_440_000, None),
        (8, 1_440_001, Some(ModeField::Clock)),
    ];
    for (place, number, wrong) in cases {
        let mut numbers = VGA;
        if let Some(field) = numbers.get_mut(place) {
            *field = number;
        }
        reads(&rt, numbers, wrong);
    }
}

#[test]
fn sync_pulses_have_at_most_32767_pixels_or_lines(rt: HostRuntime) {
    reads(
        &rt,
        [640, 480, 65_535, 65_535, 32_767, 40_000, 32_767, 40_000, 1],
        None,
    );
    reads(
        &rt,
        [640, 480, 65_535, 65_535, 32_768, 40_000, 32_767, 40_000, 1],
        Some(ModeField::Hsw),
    );
    reads(
        &rt,
        [640, 480, 65_535, 65_535, 32_767, 40_000, 32_768, 40_000, 1],
        Some(ModeField::Vsw),
    );
}

#[test]
fn first_field_out_of_its_range_is_named(rt: HostRuntime) {
    let mut numbers = [0; 9];
    for place in 0..9 {
        reads(&rt, numbers, Some(FIELDS[place]));
        numbers[place] = VGA[place];
    }
    reads(&rt, numbers, None);
}

/// The mode has these eight sizes.
fn has_sizes(rt: &impl Abort, mode: &Mode, sizes: [u16; 8]) {
    let [width, height, htotal, vtotal, hsw, hstart, vsw, vstart] = sizes;
    assert_eq!(rt; (mode.width(), mode.height()), (width, height));
    assert_eq!(rt; (mode.htotal(), mode.vtotal()), (htotal, vtotal));
    assert_eq!(rt; (mode.hsw(), mode.hstart()), (hsw, hstart));
    assert_eq!(rt; (mode.vsw(), mode.vstart()), (vsw, vstart));
}

#[test]
fn mode_has_the_fields_that_were_read(rt: HostRuntime) {
    match Mode::read(&raw(VGA)) {
        Ok(mode) => {
            has_sizes(&rt, &mode, [640, 480, 800, 525, 96, 144, 2, 35]);
            assert_eq!(rt; (mode.hsp(), mode.vsp()), (true, false));
            assert_eq!(rt; (mode.clock_khz(), mode.depth()), (25_175, Depth::Eight));
        }
        Err(field) => assert!(rt; false, "{field:?} is wrong"),
    }
}

#[test]
fn depths_are_6_8_10_12_and_16(rt: HostRuntime) {
    let depths = [
        (6, Depth::Six),
        (8, Depth::Eight),
        (10, Depth::Ten),
        (12, Depth::Twelve),
        (16, Depth::Sixteen),
    ];
    for (bits, depth) in depths {
        assert_eq!(rt; (depth.bits(), Depth::from_bits(bits)), (bits, Some(depth)));
    }
    for bits in [0, 5, 7, 9, 11, 13, 14, 15, 17, 48, 255] {
        assert_eq!(rt; Depth::from_bits(bits), None, "{bits}");
    }
}
