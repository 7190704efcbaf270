ghost use Rattle.std.specs.Prelude.{◌≡◌, ◌≢◌, ◌<◌, ◌≤◌, ◌+◌, ◌^◌, ◌⊎◌, ℕ};
ghost use Rattle.std.specs.Prelude.{length, IfOk, IfSome, IsSome, is_err, Err, false};
ghost use Rattle.dpx_base.specs.declared.pipe.BeginEnd.{BeginEnd};
ghost use Rattle.dpx_base.specs.declared.pipe.PipeEnd.{PipeEnd};
ghost use Rattle.dpx_base.specs.Beam.{IsCarried, pixels_before, pixels_in};
ghost use Rattle.dpx_base.specs.Pipe.{PipeState, IsBegun, IsClocked, CountsFaults, given_in};

use crate::{Arrivals, LaneSet, Link, Mode};
use std::alloc::Global;

/// Why a pipe did not begin.
#[derive(Clone, Copy, Debug, PartialEq, Eq)]
pub enum BeginEnd {
    Memory,
    Failed,
}

/// Why a pipe did not go on.
#[derive(Clone, Copy, Debug, PartialEq, Eq)]
pub enum PipeEnd {
    /// It holds so many pixels in all, and a further one is due.
    Ended(u64),
    Failed,
}

/// The display engine: it shows frames, a symbol clock at a time.
pub trait Pipe {
    /// What contracts see of the pipe.
    ghost state: { Self → PipeState };

    /// Begins frames of a mode over a link, for at most so many clocks. The link has to carry the mode, so that no
    /// clock has more than two pixels. Also where it is refused, it begins anew.
    fn begin(
        &mut self,
        alloc: Global,
        mode: &Mode,
        link: Link,
        frames: u32,
        clocks: u64,
    ) -> Result<(), BeginEnd>
        requires carried { IsCarried mode.now link }
        requires short { clocks ≤ 2 ^ 62 }
        ensures begun { IsBegun (record { mode = mode.now; link = link; frames = frames }) clocks (is_err result)
            (state self.old) (state self.new) }
        ensures faults { CountsFaults (result ≡ Err BeginEnd.Failed) (state self.old).faults (state self.new).faults };

    /// One symbol clock: takes the set that is sent in it, and hands over the pixels whose ticks lie in it.
    fn clock(&mut self, sent: &LaneSet) -> Result<Arrivals, PipeEnd>
        requires begun { IsSome (state self.old).begun }
        requires kept { (state self.old).refused ≡ false }
        requires left { (state self.old).clock < (state self.old).clocks }
        ensures clocked { IsClocked sent.now (is_err result) (state self.old) (state self.new) }
        ensures count { IfSome (state self.old).begun (λ shown. IfOk result
            (λ arrivals. length arrivals ≡ pixels_in shown (state self.old).clock)) }
        ensures contents { IfSome (state self.old).begun (λ shown. IfSome (state self.old).pixels (λ pixels.
            (result ≡ Err PipeEnd.Failed) ⊎ (result ≡ given_in shown (state self.old).clock pixels))) }
        ensures ended { IfSome (state self.old).begun (λ shown. (n : ℕ) → result ≡ Err (PipeEnd.Ended n)
            → (pixels_before shown (state self.old).clock ≤ n)
            × (n < pixels_before shown ((state self.old).clock + 1))) }
        ensures faults { CountsFaults (result ≡ Err PipeEnd.Failed) (state self.old).faults (state self.new).faults };
}
