//! Modes in use: VESA DMT, CVT with reduced blanking, and CTA-861.

use super::timing::{Says, numbers, slot_says};
use dpx_base::{Depth, Mode, RawMode};
use dpx_edid::{read_timing, write_timing};
use std::process::Abort;

/// Along a line and along a frame: what is shown, the front, the sync pulse and what is behind it, and whether the
/// pulse is negative; then the clock.
type Row = ([u32; 4], bool, [u32; 4], bool, u32);

const MODES: [Row; 40] = [
    ([640, 32, 64, 96], false, [350, 32, 3, 60], true, 31_500),
    ([640, 32, 64, 96], true, [400, 1, 3, 41], false, 31_500),
    ([720, 36, 72, 108], true, [400, 1, 3, 42], false, 35_500),
    ([640, 24, 40, 128], true, [480, 9, 3, 28], true, 31_500),
    ([640, 16, 64, 120], true, [480, 1, 3, 16], true, 31_500),
    ([640, 56, 56, 80], true, [480, 1, 3, 25], true, 36_000),
    ([800, 24, 72, 128], false, [600, 1, 2, 22], false, 36_000),
    ([800, 40, 128, 88], false, [600, 1, 4, 23], false, 40_000),
    ([800, 56, 120, 64], false, [600, 37, 6, 23], false, 50_000),
    ([800, 16, 80, 160], false, [600, 1, 3, 21], false, 49_500),
    ([800, 32, 64, 152], false, [600, 1, 3, 27], false, 56_250),
    ([848, 16, 112, 112], false, [480, 6, 8, 23], false, 33_750),
    ([1024, 24, 136, 160], true, [768, 3, 6, 29], true, 65_000),
    ([1024, 24, 136, 144], true, [768, 3, 6, 29], true, 75_000),
    ([1024, 16, 96, 176], false, [768, 1, 3, 28], false, 78_750),
    ([1024, 48, 96, 208], false, [768, 1, 3, 36], false, 94_500),
    ([1152, 64, 128, 256], false, [864, 1, 3, 32], false, 108_000),
    ([1280, 48, 32, 80], false, [768, 3, 7, 12], true, 68_250),
    ([1280, 64, 128, 192], true, [768, 3, 7, 20], false, 79_500),
    ([1280, 48, 32, 80], false, [800, 3, 6, 14], true, 71_000),
    ([1280, 96, 112, 312], false, [960, 1, 3, 36], false, 108_000),
    (
        [1280, 48, 112, 248],
        false,
        [1024, 1, 3, 38],
        false,
        108_000,
    ),
    (
        [1280, 16, 144, 248],
        false,
        [1024, 1, 3, 38],
        false,
        135_000,
    ),
    ([1360, 64, 112, 256], false, [768, 3, 6, 18], false, 85_500),
    ([1366, 70, 143, 213], false, [768, 3, 3, 24], false, 85_500),
    ([1400, 48, 32, 80], false, [1050, 3, 4, 23], true, 101_000),
    ([1440, 48, 32, 80], false, [900, 3, 6, 17], true, 88_750),
    ([1600, 24, 80, 96], false, [900, 1, 3, 96], false, 108_000),
    (
        [1600, 64, 192, 304],
        false,
        [1200, 1, 3, 46],
        false,
        162_000,
    ),
    ([1680, 48, 32, 80], false, [1050, 3, 6, 21], true, 119_000),
    (
        [1792, 128, 200, 328],
        true,
        [1344, 1, 3, 46],
        false,
        204_750,
    ),
    ([1856, 96, 224, 352], true, [1392, 1, 3, 43], false, 218_250),
    ([1920, 48, 32, 80], false, [1200, 3, 6, 26], true, 154_000),
    (
        [1920, 128, 208, 344],
        true,
        [1440, 1, 3, 56],
        false,
        234_000,
    ),
    ([2560, 48, 32, 80], false, [1600, 3, 6, 37], true, 268_500),
    ([720, 16, 62, 60], true, [480, 9, 6, 30], true, 27_000),
    ([1280, 110, 40, 220], false, [720, 5, 5, 20], false, 74_250),
    ([1920, 88, 44, 148], false, [1080, 4, 5, 36], false, 148_500),
    ([720, 12, 64, 68], true, [576, 5, 5, 39], true, 27_000),
    (
        [3840, 176, 88, 296],
        false,
        [2160, 8, 10, 72],
        false,
        297_000,
    ),
];

fn mode(rt: &impl Abort, row: Row) -> Mode {
    let (along_line, hsp, along_frame, vsp, clock_khz) = row;
    let [width, hfront, hsw, hback] = along_line;
    let [height, vfront, vsw, vback] = along_frame;
    let raw = RawMode {
        width,
        height,
        htotal: width
            .wrapping_add(hfront)
            .wrapping_add(hsw)
            .wrapping_add(hback),
        vtotal: height
            .wrapping_add(vfront)
            .wrapping_add(vsw)
            .wrapping_add(vback),
        hsw,
        hstart: hsw.wrapping_add(hback),
        vsw,
        vstart: vsw.wrapping_add(vback),
        hsp,
        vsp,
        clock_khz,
        depth: Depth::Eight,
    };
    Mode::read(&raw).expect(rt, "a legal mode")
}

#[test]
fn modes_in_use_are_written_and_read(rt: HostRuntime) {
    for row in MODES {
        let mode = mode(&rt, row);
        let bytes = write_timing(&mode).expect(&rt, "a timing");
        slot_says(&rt, &read_timing(&bytes), Says::Mode(numbers(&mode)));
    }
}

/// The timing of a mode has these bytes, and 00 at 12 to 16.
fn has_bytes(rt: &impl Abort, row: Row, front: [u8; 12], flags: u8) {
    let bytes = write_timing(&mode(rt, row)).expect(rt, "a timing");
    assert_eq!(rt; bytes.get(..12), Some(front.as_slice()));
    assert_eq!(rt; bytes.get(12..), Some([0, 0, 0, 0, 0, flags].as_slice()));
}

#[test]
fn timings_of_displays_have_their_bytes(rt: HostRuntime) {
    has_bytes(
        &rt,
        MODES[37],
        [
            0x02, 0x3a, 0x80, 0x18, 0x71, 0x38, 0x2d, 0x40, 0x58, 0x2c, 0x45, 0x00,
        ],
        0x1e,
    );
    has_bytes(
        &rt,
        MODES[36],
        [
            0x01, 0x1d, 0x00, 0x72, 0x51, 0xd0, 0x1e, 0x20, 0x6e, 0x28, 0x55, 0x00,
        ],
        0x1e,
    );
    has_bytes(
        &rt,
        MODES[12],
        [
            0x64, 0x19, 0x00, 0x40, 0x41, 0x00, 0x26, 0x30, 0x18, 0x88, 0x36, 0x00,
        ],
        0x18,
    );
}
