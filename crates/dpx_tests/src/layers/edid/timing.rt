//! Detailed timings, byte by byte.

ghost use Rattle.std.specs.Prelude.{◌<◌};

use dpx_base::{Depth, Mode, ModeField, RawMode};
use dpx_edid::{Slot, read_timing, write_timing};
use std::process::Abort;

/// 1920 × 1080 pixels, 138,500 kHz.
pub(crate) const FULL_HD: [u8; 18] = [
    0x1a, 0x36, 0x80, 0xa0, 0x70, 0x38, 0x1f, 0x40, 0x30, 0x20, 0x35, 0x00, 0x00, 0x00, 0x00, 0x00,
    0x00, 0x1e,
];

/// The same, interlaced.
pub(crate) const INTERLACED: [u8; 18] = [
    0x1a, 0x36, 0x80, 0xa0, 0x70, 0x38, 0x1f, 0x40, 0x30, 0x20, 0x35, 0x00, 0x00, 0x00, 0x00, 0x00,
    0x00, 0x9e,
];

/// Width, height, htotal, vtotal, hstart, vstart, hsw, vsw, hsp, vsp and the clock.
pub(crate) type Numbers = [u32; 11];

pub(crate) const FULL_HD_SAYS: Numbers = [1920, 1080, 2080, 1111, 112, 28, 32, 5, 0, 0, 138_500];

/// What a slot says.
#[derive(Clone, Copy, Debug, PartialEq, Eq)]
pub(crate) enum Says {
    Other,
    Interlaced,
    Illegal(ModeField),
    Mode(Numbers),
}

pub(crate) fn numbers(mode: &Mode) -> Numbers {
    [
        u32::from(mode.width()),
        u32::from(mode.height()),
        u32::from(mode.htotal()),
        u32::from(mode.vtotal()),
        u32::from(mode.hstart()),
        u32::from(mode.vstart()),
        u32::from(mode.hsw()),
        u32::from(mode.vsw()),
        u32::from(mode.hsp()),
        u32::from(mode.vsp()),
        mode.clock_khz(),
    ]
}

/// The slot says so; a mode has 8 bits.
pub(crate) fn slot_says(rt: &impl Abort, slot: &Slot, wanted: Says) {
    let said = match slot {
        Slot::Other => Says::Other,
        Slot::Interlaced => Says::Interlaced,
        Slot::Illegal(field) => Says::Illegal(*field),
        Slot::Timing(mode) => {
            assert_eq!(rt; mode.depth(), Depth::Eight);
            Says::Mode(numbers(mode))
        }
    };
    assert_eq!(rt; said, wanted);
}

/// The timing with these bytes changed says so.
fn changed(rt: &impl Abort, changes: &[(usize, u8)], wanted: Says) {
    let mut bytes = FULL_HD;
    for (place, byte) in changes {
        if let Some(old) = bytes.get_mut(*place) {
            *old = *byte;
        }
    }
    slot_says(rt, &read_timing(&bytes), wanted);
}

/// The numbers with these in place of those at these places.
fn with(mut numbers: Numbers, fields: &[(usize, u32)]) -> Numbers {
    for (place, number) in fields {
        if let Some(old) = numbers.get_mut(*place) {
            *old = *number;
        }
    }
    numbers
}

/// The timing with these bytes changed has these numbers at these places.
fn differs(rt: &impl Abort, changes: &[(usize, u8)], fields: &[(usize, u32)]) {
    changed(rt, changes, Says::Mode(with(FULL_HD_SAYS, fields)));
}

const WIDTH: usize = 0;

const HEIGHT: usize = 1;

const HTOTAL: usize = 2;

const VTOTAL: usize = 3;

const HSTART: usize = 4;

const VSTART: usize = 5;

const HSW: usize = 6;

const VSW: usize = 7;

const HSP: usize = 8;

const VSP: usize = 9;

const CLOCK: usize = 10;

#[test]
fn a_timing_has_its_numbers(rt: HostRuntime) {
    differs(&rt, &[], &[]);
    // bytes 12 to 16 are not looked at
    differs(
        &rt,
        &[(12, 0xff), (13, 0xff), (14, 0xff), (15, 0xff), (16, 0xff)],
        &[],
    );
}

#[test]
fn no_clock_is_something_else(rt: HostRuntime) {
    changed(&rt, &[(0, 0), (1, 0)], Says::Other);
    changed(&rt, &[(0, 0), (1, 0), (17, 0x9e)], Says::Other);
    changed(&rt, &[(17, 0x9e)], Says::Interlaced);
    changed(&rt, &[(2, 0), (4, 0), (17, 0x80)], Says::Interlaced);
    differs(&rt, &[(0, 1), (1, 0)], &[(CLOCK, 10)]);
    differs(&rt, &[(0, 0), (1, 1)], &[(CLOCK, 2560)]);
    differs(&rt, &[(0, 0xff), (1, 0xff)], &[(CLOCK, 655_350)]);
}

#[test]
fn sizes_at_their_edges(rt: HostRuntime) {
    changed(&rt, &[(2, 15), (4, 0)], Says::Illegal(ModeField::Width));
    differs(&rt, &[(2, 16), (4, 0)], &[(WIDTH, 16), (HTOTAL, 176)]);
    differs(
        &rt,
        &[(2, 0xff), (4, 0xf0)],
        &[(WIDTH, 4095), (HTOTAL, 4255)],
    );
    changed(&rt, &[(3, 0)], Says::Illegal(ModeField::Htotal));
    changed(&rt, &[(3, 31)], Says::Illegal(ModeField::Hsw));
    differs(&rt, &[(3, 80)], &[(HTOTAL, 2000), (HSTART, 32)]);
    differs(
        &rt,
        &[(3, 0xff), (4, 0x7f)],
        &[(HTOTAL, 6015), (HSTART, 4047)],
    );
    changed(&rt, &[(5, 0), (7, 0)], Says::Illegal(ModeField::Height));
    differs(&rt, &[(5, 1), (7, 0)], &[(HEIGHT, 1), (VTOTAL, 32)]);
    differs(
        &rt,
        &[(5, 0xff), (7, 0xf0)],
        &[(HEIGHT, 4095), (VTOTAL, 4126)],
    );
    changed(&rt, &[(6, 1)], Says::Illegal(ModeField::Vtotal));
    changed(&rt, &[(6, 4)], Says::Illegal(ModeField::Vsw));
    differs(&rt, &[(6, 8)], &[(VTOTAL, 1088), (VSTART, 5)]);
    differs(
        &rt,
        &[(6, 0xff), (7, 0x4f)],
        &[(VTOTAL, 5175), (VSTART, 4092)],
    );
}

#[test]
fn sync_pulses_at_their_edges(rt: HostRuntime) {
    differs(&rt, &[(8, 0)], &[(HSTART, 160)]);
    differs(&rt, &[(8, 128)], &[(HSTART, 32)]);
    changed(&rt, &[(8, 129)], Says::Illegal(ModeField::Hstart));
    changed(&rt, &[(8, 161)], Says::Illegal(ModeField::Hstart));
    changed(
        &rt,
        &[(8, 0xff), (11, 0xc0)],
        Says::Illegal(ModeField::Hstart),
    );
    changed(&rt, &[(9, 0)], Says::Illegal(ModeField::Hsw));
    differs(&rt, &[(9, 1)], &[(HSW, 1)]);
    differs(&rt, &[(9, 112)], &[(HSW, 112)]);
    changed(&rt, &[(9, 113)], Says::Illegal(ModeField::Hstart));
    changed(&rt, &[(9, 161)], Says::Illegal(ModeField::Hsw));
    changed(&rt, &[(9, 0xff), (11, 0x30)], Says::Illegal(ModeField::Hsw));
    differs(&rt, &[(10, 0x05)], &[(VSTART, 31)]);
    differs(&rt, &[(10, 0xa5), (11, 0x04)], &[(VSTART, 5)]);
    changed(
        &rt,
        &[(10, 0xb5), (11, 0x04)],
        Says::Illegal(ModeField::Vstart),
    );
    changed(
        &rt,
        &[(10, 0xf5), (11, 0x0c)],
        Says::Illegal(ModeField::Vstart),
    );
    changed(&rt, &[(10, 0x30)], Says::Illegal(ModeField::Vsw));
    differs(&rt, &[(10, 0x3c), (11, 0x01)], &[(VSW, 28)]);
    changed(
        &rt,
        &[(10, 0x3d), (11, 0x01)],
        Says::Illegal(ModeField::Vstart),
    );
    changed(
        &rt,
        &[(10, 0x3f), (11, 0x03)],
        Says::Illegal(ModeField::Vsw),
    );
}

#[test]
fn the_greatest_front_and_sync_are_read(rt: HostRuntime) {
    // a blank of 4,095 pixels and lines has room for them
    differs(
        &rt,
        &[(3, 0xff), (4, 0x7f), (8, 0xff), (9, 0xff), (11, 0xf0)],
        &[(HTOTAL, 6015), (HSTART, 3072), (HSW, 1023)],
    );
    differs(
        &rt,
        &[(6, 0xff), (7, 0x4f), (10, 0xff), (11, 0x0f)],
        &[(VTOTAL, 5175), (VSTART, 4032), (VSW, 63)],
    );
}

#[test]
fn polarities_are_those_of_digital_separate_pulses(rt: HostRuntime) {
    let rows = [
        (0x1e, 0, 0),
        (0x1c, 1, 0),
        (0x1a, 0, 1),
        (0x18, 1, 1),
        (0x79, 1, 1),
        (0x16, 0, 0),
        (0x10, 0, 0),
        (0x08, 0, 0),
        (0x00, 0, 0),
    ];
    for (flags, hsp, vsp) in rows {
        differs(&rt, &[(17, flags)], &[(HSP, hsp), (VSP, vsp)]);
    }
}

/// The greatest mode that has a timing.
const GREATEST: Numbers = [4095, 4095, 8190, 8190, 3072, 4032, 1023, 63, 0, 0, 655_350];

fn raw_of(numbers: Numbers, depth: Depth) -> RawMode {
    RawMode {
        width: numbers[WIDTH],
        height: numbers[HEIGHT],
        htotal: numbers[HTOTAL],
        vtotal: numbers[VTOTAL],
        hstart: numbers[HSTART],
        vstart: numbers[VSTART],
        hsw: numbers[HSW],
        vsw: numbers[VSW],
        hsp: numbers[HSP] == 1,
        vsp: numbers[VSP] == 1,
        clock_khz: numbers[CLOCK],
        depth,
    }
}

/// The greatest mode with these of its numbers changed has a timing or none.
fn has_timing(rt: &impl Abort, fields: &[(usize, u32)], depth: Depth, has: bool) {
    let raw = raw_of(with(GREATEST, fields), depth);
    let mode = Mode::read(&raw).expect(rt, "a legal mode");
    assert_eq!(rt; write_timing(&mode).is_some(), has, "{raw:?}");
}

#[test]
fn a_mode_past_the_bits_has_no_timing(rt: HostRuntime) {
    let rows: [(&[(usize, u32)], bool); 13] = [
        (&[], true),
        (&[(CLOCK, 655_360)], false),
        (&[(CLOCK, 655_345)], false),
        (&[(CLOCK, 10)], true),
        (&[(CLOCK, 9)], false),
        (&[(WIDTH, 4096), (HTOTAL, 8191)], false),
        (&[(HTOTAL, 8191), (HSTART, 3073)], false),
        (&[(HEIGHT, 4096), (VTOTAL, 8191)], false),
        (&[(VTOTAL, 8191), (VSTART, 4033)], false),
        (&[(HSTART, 3071)], false),
        (&[(HSW, 1024)], false),
        (&[(VSTART, 4031)], false),
        (&[(VSW, 64)], false),
    ];
    for (fields, has) in rows {
        has_timing(&rt, fields, Depth::Eight, has);
    }
    for depth in [Depth::Six, Depth::Ten, Depth::Twelve, Depth::Sixteen] {
        has_timing(&rt, &[], depth, false);
    }
}
