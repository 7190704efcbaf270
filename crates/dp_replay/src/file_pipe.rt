ghost use Rattle.std.specs.Prelude.{◌≡◌, ◌≤◌, ◌<◌, ◌+◌, ◌^◌, ◌⊎◌, ℕ, length, IsSome, IfOk, IfSome, is_err, Err, false};
ghost use Rattle.std.specs.Io.KnownBytes.{Keeps};
ghost use Rattle.dpx_base.specs.declared.depth.Depth.TheVariants.{Eight};
ghost use Rattle.dpx_base.specs.declared.pipe.BeginEnd.{BeginEnd};
ghost use Rattle.dpx_base.specs.declared.pipe.PipeEnd.{PipeEnd};
ghost use Rattle.dpx_base.specs.Beam.{IsCarried, pixels_before, pixels_in};
ghost use Rattle.dpx_base.specs.Pipe.{IsBegun, IsClocked, CountsFaults, given_in};
ghost use Rattle.dp_replay.specs.FilePipe.{told_of};
ghost use Rattle.dp_replay.specs.Records.{HoldsInAll, TakesPixels, left_of, unread};

use crate::records::{Records, TakeEnd};
use dpx_base::{Arrivals, Beam, BeginEnd, LaneSet, Link, Mode, Pipe, PipeEnd, Source};
use std::alloc::Global;
use std::marker::Model;

/// A pipe whose pixels are the records of a source, which is a file in the program. It tells neither its pixels nor its
/// sets, since a source is read once; what each clock takes of a source that tells its bytes stands at `clock`.
#[derive(Drop)]
pub struct FilePipe<S: Source> {
    records: Records<S>,
    beam: Option<Beam>,
    clocks: u64,
    clock: u64,
    /// How many pixels were handed over since the pipe was begun.
    given: u64,
    refused: bool,
}

impl<S: Source> Model for FilePipe<S> {
    ghost use Rattle.dp_replay.specs.FilePipe.{PipeFacts};
    ghost use Rattle.dp_replay.specs.FilePipeFields.{IsInPipe, facts_of};

    ghost Value = { PipeFacts };

    ghost view = { facts_of };

    ghost invariant = { IsInPipe };
}

impl<S: Source> FilePipe<S> {
    /// Not begun yet.
    pub fn new(source: S) -> FilePipe<S>
        ensures { result ≡ record {
          begun = None;
          clocks = 0;
          clock = 0;
          refused = false;
          left = left_of (unread (S.seen source));
          faults = (S.seen source).faults;
        } }
    {
        FilePipe {
            records: Records::new(source),
            beam: None,
            clocks: 0,
            clock: 0,
            given: 0,
            refused: false,
        }
    }
}

impl<S: Source> Pipe for FilePipe<S> {
    ghost state = { told_of };

    /// Where there is nothing to read from, that is a fault.
    #[tactic(auto, using(dpx_base::proofs::Beams::pixels_first))]
    fn begin(
        &mut self,
        _alloc: Global,
        mode: &Mode,
        link: Link,
        frames: u32,
        clocks: u64,
    ) -> Result<(), BeginEnd>
        requires carried { IsCarried mode.now link }
        requires short { clocks ≤ 2 ^ 62 }
        ensures begun { IsBegun (record { mode = mode.now; link = link; frames = frames }) clocks (is_err result)
            (told_of self.old) (told_of self.new) }
        ensures faults { CountsFaults (result ≡ Err BeginEnd.Failed) self.old.faults self.new.faults }
        ensures kept { Keeps self.old.left self.new.left }
    {
        self.beam = Some(Beam::new(mode, link, frames));
        self.clocks = clocks;
        self.clock = 0;
        self.given = 0;
        self.refused = self.records.is_open().is_err();
        if self.refused {
            Err(BeginEnd::Failed)
        } else {
            Ok(())
        }
    }

    #[tactic(auto, using(dpx_base::proofs::Beams::pixels_step, crate::proofs::Pixels::held_in_all))]
    fn clock(&mut self, sent: &LaneSet) -> Result<Arrivals, PipeEnd>
        requires begun { IsSome self.old.begun }
        requires kept { self.old.refused ≡ false }
        requires left { self.old.clock < self.old.clocks }
        ensures clocked { IsClocked sent.now (is_err result) (told_of self.old) (told_of self.new) }
        ensures count { IfSome self.old.begun (λ shown. IfOk result
            (λ arrivals. length arrivals ≡ pixels_in shown self.old.clock)) }
        ensures contents { IfSome self.old.begun (λ shown. IfSome (told_of self.old).pixels (λ pixels.
            (result ≡ Err PipeEnd.Failed) ⊎ (result ≡ given_in shown self.old.clock pixels))) }
        ensures ended { IfSome self.old.begun (λ shown. (n : ℕ) → result ≡ Err (PipeEnd.Ended n)
            → (pixels_before shown self.old.clock ≤ n) × (n < pixels_before shown (self.old.clock + 1))) }
        ensures faults { CountsFaults (result ≡ Err PipeEnd.Failed) self.old.faults self.new.faults }
        ensures takes { IfSome self.old.begun (λ shown. IfOk result
            (TakesPixels (pixels_in shown self.old.clock) self.old.left self.new.left)) }
        ensures whole { IfSome self.old.begun (λ shown. (n : ℕ) → result ≡ Err (PipeEnd.Ended n)
            → HoldsInAll (pixels_before shown self.old.clock) n self.old.left) }
    {
        let _sent = sent;
        self.clock += 1;
        let due = match &mut self.beam {
            Some(beam) => beam.next(),
            None => unreachable!(),
        };
        match self.records.take(due) {
            Ok(arrivals) => {
                self.given += u64::from(due);
                Ok(arrivals)
            }
            Err(TakeEnd::Short(whole)) => {
                self.refused = true;
                Err(PipeEnd::Ended(self.given + u64::from(whole)))
            }
            Err(TakeEnd::Failed) => {
                self.refused = true;
                Err(PipeEnd::Failed)
            }
        }
    }
}

#[cfg(test)]
mod tests {
    use super::*;
    use crate::file_source::FileSource;
    use dpx_base::{Depth, Lanes, ModeField, Pixel, Rate, RawMode, Sym, write_pixel};
    use std::fs;
    use std::fs::File;
    use std::process::Abort;
    use std::rt::Files;
    use std::test::Fail;

    const LINK: Link = Link {
        rate: Rate::Rbr,
        lanes: Lanes::Four,
        enhanced: true,
    };

    /// 16 × 2 pixels of 28 × 4, at this pixel clock.
    fn small_mode(clock_khz: u32) -> Result<Mode, ModeField>
        ensures { IfOk result (λ mode. (mode.clock_khz ≡ clock_khz) × (mode.depth ≡ Eight)) }
    {
        Mode::read(&RawMode {
            width: 16,
            height: 2,
            htotal: 28,
            vtotal: 4,
            hsw: 4,
            hstart: 8,
            vsw: 1,
            vstart: 2,
            hsp: false,
            vsp: false,
            clock_khz,
            depth: Depth::Eight,
        })
    }

    /// Three symbol clocks a tick.
    const SLOW: u32 = 54_000;

    /// Four ticks in three symbol clocks: one, one, two.
    const FAST: u32 = 216_000;

    #[test]
    fn a_pipe_over_no_file_does_not_begin(rt: HostRuntime) -> Result<(), Fail> {
        let mode = small_mode(SLOW)?;
        for name in ["no folder/frames.pixels", ""] {
            let mut pipe = FilePipe::new(FileSource::open(&rt, name));
            let begun = pipe.begin(rt.alloc(), &mode, LINK, 2, 699);
            assert_eq!(rt; begun, Err(BeginEnd::Failed));
        }
        Ok(())
    }

    /// A pipe over a file of these bytes, with all clocks of forty frames before it.
    fn begun<R: AllocGlobal + Files<File = File>>(
        rt: &R,
        bytes: &[u8],
        clock_khz: u32,
    ) -> Result<FilePipe<FileSource>, Fail>
        requires { clock_khz ≤ 216000 }
        ensures begun { IfOk result (λ pipe. IsSome pipe.begun) }
        ensures kept { IfOk result (λ pipe. pipe.refused ≡ false) }
        ensures clocks { IfOk result (λ pipe. (pipe.clock ≡ 0) × (pipe.clocks ≡ 13440)) }
    {
        fs::write(rt, "frames.pixels", bytes)?;
        let mode = small_mode(clock_khz)?;
        let mut pipe = FilePipe::new(FileSource::open(rt, "frames.pixels"));
        pipe.begin(rt.alloc(), &mode, LINK, 40, 13_440)?;
        Ok(pipe)
    }

    /// How many of the clocks go on, and why the next does not.
    fn first_end(pipe: &mut FilePipe<FileSource>, clocks: u64) -> (u64, Option<PipeEnd>)
        requires begun { IsSome pipe.old.begun }
        requires kept { pipe.old.refused ≡ false }
        requires left { pipe.old.clock + clocks ≤ pipe.old.clocks }
    {
        let fill = LaneSet::on_each(Lanes::Four, Sym::data(0));
        for clock in 0..clocks {
            if let Err(end) = pipe.clock(&fill) {
                return (clock, Some(end));
            }
        }
        (clocks, None)
    }

    #[test]
    fn whole_records_are_counted(rt: HostRuntime) -> Result<(), Fail> {
        // tick by tick the pixels come as the last of each third clock; the first in tick 12 of line 2
        let mut pipe = begun(&rt, &[0; 9], SLOW)?;
        assert_eq!(rt;
            first_end(&mut pipe, 13_440),
            (209, Some(PipeEnd::Ended(1)))
        );
        // tick 68 stands in clock 51, tick 69 in clock 52, and two in clock 53
        let mut pipe = begun(&rt, &[0; 18], FAST)?;
        assert_eq!(rt; first_end(&mut pipe, 13_440), (53, Some(PipeEnd::Ended(3))));
        Ok(())
    }

    /// A pixel that tells its number.
    fn numbered(number: u16) -> Pixel {
        Pixel {
            r: number,
            g: number ^ 0x5555,
            b: number ^ 0x00ff,
        }
    }

    /// The pixels of these clocks are numbered in order, from 0 on; this is how many they are.
    fn in_order(rt: &impl Abort, pipe: &mut FilePipe<FileSource>, clocks: u64) -> u16
        requires begun { IsSome pipe.old.begun }
        requires kept { pipe.old.refused ≡ false }
        requires left { pipe.old.clock + clocks ≤ pipe.old.clocks }
    {
        let fill = LaneSet::on_each(Lanes::Four, Sym::data(0));
        let mut number = 0u16;
        for clock in 0..clocks {
            let Ok(arrivals) = pipe.clock(&fill) else {
                return number;
            };
            for place in 0..arrivals.len() {
                assert_eq!(rt; arrivals.get(place), numbered(number), "clock {clock}");
                number = number.wrapping_add(1);
            }
        }
        number
    }

    #[test]
    fn pixels_come_in_the_order_of_their_records(rt: HostRuntime) -> Result<(), Fail> {
        let mut bytes = Vec::new(rt.alloc());
        for number in 0..1280u16 {
            bytes.extend_from_slice(&write_pixel(numbered(number)))?;
        }
        let mut slow = begun(&rt, bytes.as_slice(), SLOW)?;
        assert_eq!(rt; in_order(&rt, &mut slow, 13_440), 1280);
        let mut fast = begun(&rt, bytes.as_slice(), FAST)?;
        assert_eq!(rt; in_order(&rt, &mut fast, 13_440), 1280);
        Ok(())
    }
}
