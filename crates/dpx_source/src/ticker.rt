ghost use Rattle.std.specs.Prelude.{◌≡◌, ◌≤◌, ◌+◌, ◌++◌, ◌↔◌, ℕ, List, [], length, true, false, is_some, IsNone};
ghost use Rattle.std.specs.Prelude.{IfSome, IfOk, IfErr, OnOk, Some, None, Err};
ghost use Rattle.dpx_base.specs.declared.pixel.Pixel.{Pixel};
ghost use Rattle.dpx_base.specs.Beam.{pixels_in};
ghost use Rattle.dpx_base.specs.Lanes.{lanes_count};
ghost use Rattle.dpx_base.specs.Mode.{depth_bits};
ghost use Rattle.dpx_base.specs.Plan.{clocks};
ghost use Rattle.dpx_base.specs.Sets.{set_at};
ghost use Rattle.dpx_source.specs.Framing.{AreSymbols};
ghost use Rattle.dpx_source.specs.Pixels.{first_bad, refused_with};
ghost use Rattle.dpx_source.specs.Ticker.{StandsFor, shown};

use crate::BadPixel;
use crate::framing::Framing;
use crate::range::first_bad;
use dpx_base::{Arrivals, LaneSet, Memory, Slot};
use dpx_buffer::LineBuffer;
use dpx_frame::Schedule;
use dpx_timing::Plan;
use std::alloc::Global;
use std::marker::Model;

/// The sets of a plan, one a symbol clock. A clock has two calls: `emit` gives its set, then `absorb` takes the
/// pixels that arrive in it.
#[derive(Drop)]
pub struct Ticker {
    plan: Plan,
    schedule: Schedule,
    framing: Framing,
    buffer: LineBuffer,
    pub(crate) clock: u64,
    given: bool,
    absorbed: u64,
    refusal: Option<BadPixel>,
}

impl Model for Ticker {
    ghost use Rattle.dpx_source.specs.Ticker.{TickerState};
    ghost use Rattle.dpx_source.specs.Inside.{state_of, IsInside};

    ghost Value = { TickerState };

    ghost view = { state_of };

    ghost invariant = { IsInside };
}

impl Ticker {
    /// Before clock 0. It takes its memory at once.
    pub fn new(alloc: Global, plan: &Plan) -> Result<Ticker, Memory>
        ensures stands { IfOk result (λ ticker. StandsFor [] ticker) }
        ensures start { IfOk result (λ ticker. ticker ≡ record {
          plan = plan.now;
          clock = 0;
          given = false;
          absorbed = 0;
          buffer = ticker.buffer;
          refusal = None;
        }) }
    {
        let _clocks = plan.clocks();
        let buffer = LineBuffer::new(alloc, plan)?;
        Ok(Ticker {
            plan: *plan,
            schedule: Schedule::new(plan),
            framing: Framing::new(plan),
            buffer,
            clock: 0,
            given: false,
            absorbed: 0,
            refusal: None,
        })
    }

    pub fn plan(&self) -> &Plan
        ensures { result.now ≡ self.now.plan }
    {
        &self.plan
    }

    /// The set of the current clock; none behind the last. The set before it has to be followed by its pixels.
    pub fn emit(&mut self) -> Option<LaneSet>
        requires { self.old.given ≡ false }
        ensures ended { IsNone result ↔ (clocks self.old.plan ≤ self.old.clock) }
        ensures given { self.new.given ≡ is_some result }
        ensures same { self.new ≡ record self.old { given = self.new.given; buffer = self.new.buffer } }
        ensures lanes { IfSome result (λ set. length set ≡ lanes_count self.old.plan.link.lanes) }
        ensures symbols { IfSome result AreSymbols }
        ensures set { (pixels more : List Pixel) → StandsFor pixels self.old
            → IfSome result (λ set. set ≡ set_at self.old.plan (pixels ++ more) self.old.clock) }
        ensures stands { (pixels : List Pixel) → StandsFor pixels self.old → StandsFor pixels self.new }
    {
        let slot = self.schedule.next();
        match slot {
            Slot::Ended => None,
            Slot::Valid => {
                let bytes = self.buffer.take_due();
                self.given = true;
                Some(LaneSet::data(&bytes))
            }
            other => {
                self.given = true;
                Some(self.framing.set(other))
            }
        }
    }

    /// Ends the clock with the pixels that arrive in it. A pixel that is out of range is refused, and the same
    /// refusal answers each later call.
    pub fn absorb(&mut self, arrivals: &Arrivals) -> Result<(), BadPixel>
        requires given { self.old.refusal ≡ None → self.old.given ≡ true }
        requires arrivals { self.old.refusal ≡ None
            → length arrivals.now ≡ pixels_in (shown self.old.plan) self.old.clock }
        ensures again { IfSome self.old.refusal (λ bad. result ≡ Err bad) }
        ensures exact { self.old.refusal ≡ None
            → result ≡ refused_with (first_bad (depth_bits self.old.plan.mode.depth) self.old.absorbed arrivals.now) }
        ensures refused { IfErr result (λ bad. self.new ≡ record self.old { refusal = Some bad }) }
        ensures taken { OnOk result (self.new ≡ record self.old {
          clock = self.old.clock + 1;
          given = false;
          absorbed = self.old.absorbed + length arrivals.now;
          buffer = self.new.buffer;
        }) }
        ensures stands { (pixels : List Pixel) → StandsFor pixels self.old
            → OnOk result (StandsFor (pixels ++ arrivals.now) self.new) }
    {
        if let Some(bad) = self.refusal {
            return Err(bad);
        }
        if let Some(bad) = first_bad(self.plan.mode().depth(), self.absorbed, arrivals) {
            self.refusal = Some(bad);
            return Err(bad);
        }
        self.buffer.absorb(arrivals);
        self.absorbed += arrivals.len() as u64;
        self.clock += 1;
        self.given = false;
        Ok(())
    }
}
