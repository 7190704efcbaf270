ghost use Rattle.std.specs.Prelude.{◌≡◌, ◌<◌, ◌≤◌, ◌+◌, ◌*◌, ◌^◌, ◌⊎◌, ℕ, length, map};
ghost use Rattle.std.specs.Prelude.{IsSome, IfOk, IfSome, is_err, Ok, Err, Some, None, false};
ghost use Rattle.std.specs.List.{range_with_len};
ghost use Rattle.dpx_base.specs.declared.pipe.BeginEnd.{BeginEnd};
ghost use Rattle.dpx_base.specs.declared.pipe.PipeEnd.{PipeEnd};
ghost use Rattle.dpx_base.specs.Beam.{IsCarried, pixels_before, pixels_in};
ghost use Rattle.dpx_base.specs.Pipe.{IsBegun, IsClocked, CountsFaults, given_in, handed_over};
ghost use Rattle.dpx_files.specs.Generator.{gen_pixel};
ghost use Rattle.dpx_files.specs.GenPipe.{told_of, pipe_clocked};
ghost use Rattle.dpx_files.specs.Shape.{IsShape};

use crate::Shape;
use crate::generator::{gen_pixel, gen_shape};
use dpx_base::{Arrivals, Beam, BeginEnd, Depth, LaneSet, Link, Mode, Pipe, PipeEnd};
use std::alloc::Global;
use std::marker::Model;

/// A pipe over the pixels that a number gives. It tells them, keeps no sets, and never fails.
#[derive(Drop)]
pub struct GenPipe {
    seed: u32,
    depth: Depth,
    /// How many pixels there are.
    count: u64,
    beam: Option<Beam>,
    clocks: u64,
    clock: u64,
    /// How many pixels were handed over since the pipe was begun.
    given: u64,
    refused: bool,
}

impl Model for GenPipe {
    ghost use Rattle.dpx_files.specs.GenPipe.{PipeOfNumber};
    ghost use Rattle.dpx_files.specs.GenPipeFields.{IsInPipe, seen_of};

    ghost Value = { PipeOfNumber };

    ghost view = { seen_of };

    ghost invariant = { IsInPipe };
}

/// The pixels of all frames of a shape.
#[tactic(auto, using(crate::proofs::Products::pixels_fit))]
fn pixels_of(shape: &Shape) -> u64
    requires { IsShape shape.now }
    ensures { result ≡ shape.now.frames * shape.now.mode.height * shape.now.mode.width }
{
    u64::from(shape.frames) * u64::from(shape.mode.height()) * u64::from(shape.mode.width())
}

/// The next `due` of `count` pixels, after `given` of them.
#[tactic(auto, using(crate::proofs::Generated::too_few, crate::proofs::Generated::enough))]
fn hand_over(seed: u32, depth: Depth, given: u64, count: u64, due: u8) -> Result<Arrivals, PipeEnd>
    requires given { given ≤ count }
    requires few { due ≤ 2 }
    ensures value { result ≡ handed_over (map (gen_pixel seed depth) (range_with_len 0 count)) given due }
    ensures given { IfOk result (λ arrivals. (length arrivals ≡ due) × (given + due ≤ count)) }
    ensures ended { (n : ℕ) → result ≡ Err (PipeEnd.Ended n) → (n ≡ count) × (count < given + due) }
    ensures never { result ≡ Err PipeEnd.Failed → ⊥ }
{
    if count - given < u64::from(due) {
        return Err(PipeEnd::Ended(count));
    }
    Ok(match due {
        0 => Arrivals::from_slice(&[]),
        1 => Arrivals::from_slice(&[gen_pixel(seed, given, depth)]),
        _ => Arrivals::from_slice(&[
            gen_pixel(seed, given, depth),
            gen_pixel(seed, given + 1, depth),
        ]),
    })
}

impl GenPipe {
    /// Holds the pixels of this number's frames.
    #[tactic(auto, unfolding(crate::specs::Generator::gen_count))]
    pub fn new(seed: u32) -> GenPipe
        ensures { result
            ≡ record { seed = seed; begun = None; clocks = 0; clock = 0; refused = false } }
    {
        let (_, shape) = gen_shape(seed);
        GenPipe {
            seed,
            depth: shape.mode.depth(),
            count: pixels_of(&shape),
            beam: None,
            clocks: 0,
            clock: 0,
            given: 0,
            refused: false,
        }
    }
}

impl Pipe for GenPipe {
    ghost state = { told_of };

    /// It takes no memory.
    #[tactic(auto, using(dpx_base::proofs::Beams::pixels_first))]
    fn begin(
        &mut self,
        _alloc: Global,
        mode: &Mode,
        link: Link,
        frames: u32,
        clocks: u64,
    ) -> Result<(), BeginEnd>
        requires carried { IsCarried mode.now link }
        requires short { clocks ≤ 2 ^ 62 }
        ensures begun { IsBegun (record { mode = mode.now; link = link; frames = frames }) clocks (is_err result)
            (told_of self.old) (told_of self.new) }
        ensures faults { CountsFaults (result ≡ Err BeginEnd.Failed) 0 0 }
        ensures begins { result ≡ Ok tt }
        ensures after { self.new ≡ record self.old {
          begun = Some (record { mode = mode.now; link = link; frames = frames });
          clocks = clocks;
          clock = 0;
          refused = false;
        } }
    {
        self.beam = Some(Beam::new(mode, link, frames));
        self.clocks = clocks;
        self.clock = 0;
        self.given = 0;
        self.refused = false;
        Ok(())
    }

    #[tactic(auto, using(dpx_base::proofs::Beams::pixels_step), unfolding(crate::specs::Generator::gen_pixels))]
    fn clock(&mut self, sent: &LaneSet) -> Result<Arrivals, PipeEnd>
        requires begun { IsSome self.old.begun }
        requires kept { self.old.refused ≡ false }
        requires left { self.old.clock < self.old.clocks }
        ensures clocked { IsClocked sent.now (is_err result) (told_of self.old) (told_of self.new) }
        ensures count { IfSome self.old.begun (λ shown. IfOk result
            (λ arrivals. length arrivals ≡ pixels_in shown self.old.clock)) }
        ensures contents { IfSome self.old.begun (λ shown. IfSome (told_of self.old).pixels (λ pixels.
            (result ≡ Err PipeEnd.Failed) ⊎ (result ≡ given_in shown self.old.clock pixels))) }
        ensures ended { IfSome self.old.begun (λ shown. (n : ℕ) → result ≡ Err (PipeEnd.Ended n)
            → (pixels_before shown self.old.clock ≤ n) × (n < pixels_before shown (self.old.clock + 1))) }
        ensures faults { CountsFaults (result ≡ Err PipeEnd.Failed) 0 0 }
        ensures never { result ≡ Err PipeEnd.Failed → ⊥ }
        ensures after { self.new ≡ pipe_clocked self.old result }
    {
        self.clock += 1;
        let due = match &mut self.beam {
            Some(beam) => beam.next(),
            None => unreachable!(),
        };
        let arrivals = hand_over(self.seed, self.depth, self.given, self.count, due);
        match &arrivals {
            Ok(_) => self.given += u64::from(due),
            Err(_) => self.refused = true,
        }
        arrivals
    }
}
