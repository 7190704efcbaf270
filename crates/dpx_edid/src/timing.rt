ghost use Rattle.std.specs.Prelude.{◌≡◌, ◌<◌, ◌≤◌};
ghost use Rattle.dpx_edid.specs.Timing.{clock_in, is_negative, raw_mode, read_timing};
ghost use Rattle.dpx_edid.specs.Timing.{line_of, frame_of, has_timing, flags_of, high_bits, write_timing};

use crate::extent::{Extent, frame_in, frame_of, line_in, line_of};
use dpx_base::{Depth, Mode, ModeField, RawMode};

/// What the eighteen bytes at a place of a base block say (VESA E-EDID standard, detailed timing
/// descriptors).
#[derive(Clone, Copy, Drop)]
pub enum Slot {
    /// Something other than a timing.
    Other,
    /// A timing of an interlaced mode.
    Interlaced,
    /// A timing with this field out of its range.
    Illegal(ModeField),
    Timing(Mode),
}

/// What the bytes say. A timing has 8 bits a component, and a sync pulse is negative where the pulses are digital
/// and separate and its bit is 0, which is this project's own reading. Bytes 12 to 16 are not looked at.
pub fn read_timing(bytes: &[u8; 18]) -> Slot
    ensures { result ≡ read_timing bytes.now }
{
    if bytes[0] == 0 && bytes[1] == 0 {
        return Slot::Other;
    }
    if bytes[17] >= 0x80 {
        return Slot::Interlaced;
    }
    match Mode::read(&raw_mode(bytes)) {
        Ok(mode) => Slot::Timing(mode),
        Err(field) => Slot::Illegal(field),
    }
}

fn raw_mode(bytes: &[u8; 18]) -> RawMode
    ensures { result ≡ raw_mode bytes.now }
{
    let line = line_in(bytes);
    let frame = frame_in(bytes);
    RawMode {
        width: line.active,
        height: frame.active,
        htotal: line.active + line.blank,
        vtotal: frame.active + frame.blank,
        hsw: line.sync,
        hstart: line.start(),
        vsw: frame.sync,
        vstart: frame.start(),
        hsp: is_negative(2, bytes[17]),
        vsp: is_negative(4, bytes[17]),
        clock_khz: clock_in(bytes),
        depth: Depth::Eight,
    }
}

/// The pixel clock in kHz, which stands in steps of 10 kHz.
fn clock_in(bytes: &[u8; 18]) -> u32
    ensures { result ≡ clock_in bytes.now }
{
    10 * (u32::from(bytes[0]) + 256 * u32::from(bytes[1]))
}

/// Whether the flags say digital separate sync pulses, and a negative one at this bit.
fn is_negative(bit: u8, flags: u8) -> bool
    requires { 0 < bit }
    ensures { result ≡ is_negative bit flags }
{
    flags / 8 % 4 == 3 && flags / bit % 2 == 0
}

/// The timing of a mode; none where the clock is no multiple of 10 kHz or above 655,350 kHz, a component has not
/// 8 bits, or a number has no room.
pub fn write_timing(mode: &Mode) -> Option<[u8; 18]>
    ensures { result ≡ write_timing mode.now }
{
    let line = line_of(mode);
    let frame = frame_of(mode);
    if !has_timing(mode, line, frame) {
        return None;
    }
    let clock = mode.clock_khz() / 10;
    Some([
        (clock % 256) as u8,
        (clock / 256) as u8,
        (line.active % 256) as u8,
        (line.blank % 256) as u8,
        (line.active / 256 * 16 + line.blank / 256) as u8,
        (frame.active % 256) as u8,
        (frame.blank % 256) as u8,
        (frame.active / 256 * 16 + frame.blank / 256) as u8,
        (line.front % 256) as u8,
        (line.sync % 256) as u8,
        (frame.front % 16 * 16 + frame.sync % 16) as u8,
        high_bits(line, frame),
        0x00,
        0x00,
        0x00,
        0x00,
        0x00,
        flags_of(mode.hsp(), mode.vsp()),
    ])
}

/// The high bits of fronts and sync pulses, two of each.
fn high_bits(line: Extent, frame: Extent) -> u8
    requires line_front { line.front ≤ 1023 }
    requires line_sync { line.sync ≤ 1023 }
    requires frame_front { frame.front ≤ 63 }
    requires frame_sync { frame.sync ≤ 63 }
    ensures { result ≡ high_bits line frame }
{
    let along_line = line.front / 256 * 64 + line.sync / 256 * 16;
    let along_frame = frame.front / 16 * 4 + frame.sync / 16;
    (along_line + along_frame) as u8
}

/// Whether a timing can say the mode, which is so long along a line and along a frame.
fn has_timing(mode: &Mode, line: Extent, frame: Extent) -> bool
    requires line { line ≡ line_of mode.now }
    requires frame { frame ≡ frame_of mode.now }
    ensures { result ≡ has_timing mode.now }
{
    mode.clock_khz() % 10 == 0
        && mode.clock_khz() <= 655_350
        && mode.depth().bits() == 8
        && line.has_room(1023)
        && frame.has_room(63)
}

/// Digital separate sync pulses, with a bit for each that is positive.
fn flags_of(hsp: bool, vsp: bool) -> u8
    ensures { result ≡ flags_of hsp vsp }
{
    let horizontal = if hsp { 0 } else { 2 };
    let vertical = if vsp { 0 } else { 4 };
    0x18 + horizontal + vertical
}
