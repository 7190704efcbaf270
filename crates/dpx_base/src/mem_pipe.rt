ghost use Rattle.std.specs.Prelude.{◌≡◌, ◌<◌, ◌≤◌, ◌+◌, ◌^◌, ◌⊎◌, ◌↔◌, ℕ, [], length, Contains};
ghost use Rattle.std.specs.Prelude.{IsSome, IfOk, IfSome, is_err, Err, Some, None, false};
ghost use Rattle.dpx_base.specs.declared.pipe.BeginEnd.{BeginEnd};
ghost use Rattle.dpx_base.specs.declared.pipe.PipeEnd.{PipeEnd};
ghost use Rattle.dpx_base.specs.Beam.{IsCarried, pixels_before, pixels_in};
ghost use Rattle.dpx_base.specs.MemPipe.{told_of, pipe_begun, pipe_clocked};
ghost use Rattle.dpx_base.specs.Pipe.{IsBegun, IsClocked, CountsFaults, given_in, handed_over};

use crate::{Arrivals, Beam, BeginEnd, LaneSet, Link, Mode, Pipe, PipeEnd, Pixel};
use std::alloc::Global;
use std::marker::Model;

/// A pipe over memory, which tells its pixels and the sets that it was handed.
#[derive(Drop)]
pub struct MemPipe {
    pixels: Vec<Pixel>,
    fails: Vec<u64>,
    beam: Option<Beam>,
    clocks: u64,
    clock: u64,
    /// How many pixels were handed over since the pipe was begun.
    given: usize,
    refused: bool,
    sets: Vec<LaneSet>,
    faults: u64,
}

impl Model for MemPipe {
    ghost use Rattle.dpx_base.specs.MemPipe.{PipeInMemory};
    ghost use Rattle.dpx_base.specs.MemPipeFields.{IsInPipe, seen_of};

    ghost Value = { PipeInMemory };

    ghost view = { seen_of };

    ghost invariant = { IsInPipe };
}

/// The next `due` pixels, after `given` of them.
fn hand_over(pixels: &[Pixel], given: usize, due: usize) -> Result<Arrivals, PipeEnd>
    requires given { given ≤ length pixels.now }
    requires few { due ≤ 2 }
    ensures { result ≡ handed_over pixels.now given due }
{
    if pixels.len() - given < due {
        Err(PipeEnd::Ended(pixels.len() as u64))
    } else {
        Ok(Arrivals::from_slice(&pixels[given..given + due]))
    }
}

impl MemPipe {
    /// Holds these pixels. The clocks whose numbers, from 0, stand in `fails` fail.
    pub fn new(pixels: Vec<Pixel>, fails: Vec<u64>) -> MemPipe
        ensures { result ≡ record {
          pixels = pixels.items;
          fails = fails.items;
          begun = None;
          clocks = 0;
          clock = 0;
          refused = false;
          sets = [];
          faults = 0;
        } }
    {
        let alloc = *pixels.allocator();
        MemPipe {
            pixels,
            fails,
            beam: None,
            clocks: 0,
            clock: 0,
            given: 0,
            refused: false,
            sets: Vec::new(alloc),
            faults: 0,
        }
    }

    /// The sets that it was handed since it was begun.
    pub fn sets(&self) -> &[LaneSet]
        ensures { result.now ≡ self.now.sets }
    {
        self.sets.as_slice()
    }
}

impl Pipe for MemPipe {
    ghost state = { told_of };

    /// Takes room for the sets of all clocks.
    #[tactic(auto, using(crate::proofs::Beams::pixels_first))]
    fn begin(
        &mut self,
        alloc: Global,
        mode: &Mode,
        link: Link,
        frames: u32,
        clocks: u64,
    ) -> Result<(), BeginEnd>
        requires carried { IsCarried mode.now link }
        requires short { clocks ≤ 2 ^ 62 }
        ensures begun { IsBegun (record { mode = mode.now; link = link; frames = frames }) clocks (is_err result)
            (told_of self.old) (told_of self.new) }
        ensures faults { CountsFaults (result ≡ Err BeginEnd.Failed) self.old.faults self.new.faults }
        ensures never { result ≡ Err BeginEnd.Failed → ⊥ }
        ensures after { self.new
            ≡ pipe_begun (record { mode = mode.now; link = link; frames = frames }) clocks self.old result }
    {
        self.beam = Some(Beam::new(mode, link, frames));
        self.clocks = clocks;
        self.clock = 0;
        self.given = 0;
        self.sets.clear();
        self.refused = self.sets.reserve(clocks as usize).is_err();
        if self.refused {
            Err(BeginEnd::Memory)
        } else {
            Ok(())
        }
    }

    #[tactic(auto, using(crate::proofs::Beams::pixels_step))]
    fn clock(&mut self, sent: &LaneSet) -> Result<Arrivals, PipeEnd>
        requires begun { IsSome self.old.begun }
        requires kept { self.old.refused ≡ false }
        requires left { self.old.clock < self.old.clocks }
        ensures clocked { IsClocked sent.now (is_err result) (told_of self.old) (told_of self.new) }
        ensures count { IfSome self.old.begun (λ shown. IfOk result
            (λ arrivals. length arrivals ≡ pixels_in shown self.old.clock)) }
        ensures contents { IfSome self.old.begun (λ shown. IfSome (Some self.old.pixels) (λ pixels.
            (result ≡ Err PipeEnd.Failed) ⊎ (result ≡ given_in shown self.old.clock pixels))) }
        ensures ended { IfSome self.old.begun (λ shown. (n : ℕ) → result ≡ Err (PipeEnd.Ended n)
            → (pixels_before shown self.old.clock ≤ n) × (n < pixels_before shown (self.old.clock + 1))) }
        ensures faults { CountsFaults (result ≡ Err PipeEnd.Failed) self.old.faults self.new.faults }
        ensures fails { result ≡ Err PipeEnd.Failed ↔ Contains self.old.fails self.old.clock }
        ensures after { self.new ≡ pipe_clocked sent.now self.old result }
    {
        let number = self.clock;
        self.clock += 1;
        self.sets.push_reserved(*sent);
        if self.fails.contains(&number) {
            self.refused = true;
            self.faults = self.faults.saturating_add(1);
            return Err(PipeEnd::Failed);
        }
        let due = match &mut self.beam {
            Some(beam) => usize::from(beam.next()),
            None => unreachable!(),
        };
        let arrivals = hand_over(&self.pixels, self.given, due);
        match &arrivals {
            Ok(_) => self.given += due,
            Err(_) => self.refused = true,
        }
        arrivals
    }
}
