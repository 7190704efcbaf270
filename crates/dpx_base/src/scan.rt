//! The ticks of a display engine, by counters.

ghost use Rattle.std.specs.Prelude.{◌≡◌, ◌<◌, ◌≤◌, ◌+◌, ◌^◌, ◌&&◌, nat_lt, nat_le, if◌then◌else◌};
ghost use Rattle.dpx_base.specs.Beam.{is_pixel, pixels_among};

use crate::Mode;
use std::marker::Model;

/// Where a scan of frames stands.
#[derive(Drop)]
pub(crate) struct Scan {
    mode: Mode,
    frames: u32,
    frame: u64,
    row: u32,
    column: u32,
    tick: u64,
}

impl Model for Scan {
    ghost use Rattle.dpx_base.specs.Scan.{Scanned, IsScan};
    ghost use Rattle.dpx_base.specs.ScanFields.{scanned};

    ghost Value = { Scanned };

    ghost view = { scanned };

    ghost invariant = { λ s. IsScan (scanned s) s.frame s.row s.column };
}

/// 1 in the pixels of an active line of a frame that is shown, else 0.
fn pixel_value(
    frame: u64,
    frames: u32,
    row: u32,
    blank_lines: u32,
    column: u32,
    blank_ticks: u32,
) -> u8
    ensures { result
        ≡ (if nat_lt frame frames && nat_le blank_ticks column && nat_le blank_lines row then 1 else 0) }
{
    if frame < u64::from(frames) && blank_ticks <= column && blank_lines <= row {
        1
    } else {
        0
    }
}

impl Scan {
    /// At the first tick of the first frame.
    pub(crate) fn new(mode: &Mode, frames: u32) -> Scan
        ensures { result ≡ record { mode = mode.now; frames = frames; tick = 0 } }
    {
        let _total = mode.htotal();
        Scan {
            mode: *mode,
            frames,
            frame: 0,
            row: 0,
            column: 0,
            tick: 0,
        }
    }

    /// 1 where the next tick is a pixel, else 0.
    fn pixel(&self) -> u8
        ensures { result ≡ (if is_pixel self.now.mode self.now.frames self.now.tick then 1 else 0) }
    {
        let blank_ticks = u32::from(self.mode.htotal()) - u32::from(self.mode.width());
        let blank_lines = u32::from(self.mode.vtotal()) - u32::from(self.mode.height());
        pixel_value(
            self.frame,
            self.frames,
            self.row,
            blank_lines,
            self.column,
            blank_ticks,
        )
    }

    /// The next tick: 1 where it is a pixel, else 0.
    pub(crate) fn step(&mut self) -> u8
        requires { self.old.tick < 2 ^ 63 }
        ensures pixel { result ≡ (if is_pixel self.old.mode self.old.frames self.old.tick then 1 else 0) }
        ensures next { self.new ≡ record self.old { tick = self.old.tick + 1 } }
    {
        let pixel = self.pixel();
        self.tick += 1;
        if self.column + 1 < u32::from(self.mode.htotal()) {
            self.column += 1;
        } else {
            self.column = 0;
            if self.row + 1 < u32::from(self.mode.vtotal()) {
                self.row += 1;
            } else {
                self.row = 0;
                self.frame += 1;
            }
        }
        pixel
    }

    /// The next ticks: how many of them are pixels.
    pub(crate) fn steps(&mut self, count: u8) -> u8
        requires { self.old.tick + count ≤ 2 ^ 63 }
        ensures pixels { result ≡ pixels_among self.old.mode self.old.frames self.old.tick count }
        ensures few { result ≤ count }
        ensures next { self.new ≡ record self.old { tick = self.old.tick + count } }
    {
        let mut pixels = 0;
        for done in 0..count {
            pixels += self.step();
        }
        pixels
    }
}
