ghost use Rattle.std.specs.Prelude.{◌≡◌, ◌≤◌, ◌*◌, IfOk};
ghost use Rattle.dpx_base.specs.Timing.{IsFit, NeverShort, NeverOver, n, m, bound};
ghost use Rattle.dpx_base.specs.TimingLaws.{IsCadence, IsApart, IsSending};
ghost use Rattle.dpx_base.specs.Plan.{IsPlan, timing, timing_of};
ghost use Rattle.dpx_timing.specs.Fit.{fit_of, unfit_of, no_room_of};
ghost use Rattle.dpx_timing.specs.Numbers.{timing_in, IsSmall};
ghost use Rattle.dpx_timing.specs.Schedule.{AttributesEnd, IsSchedule};

use crate::Plan;
use crate::numbers::Numbers;
use dpx_base::{Link, Mode};

/// Why a mode does not fit a link. The rule is this project's own.
#[derive(Clone, Copy, Debug, PartialEq, Eq)]
pub enum Unfit {
    /// More is displayed than the link can carry: `n` of `m` symbols would be needed.
    TooFast { n: u64, m: u64 },
    /// A transfer unit would carry no symbol: `unit * n` is below `m`.
    TooSlow { n: u64, m: u64, unit: u8 },
    /// Lines have so many clocks, and need so many.
    NoRoom { have: u64, need: u64 },
}

/// The plan of `frames` frames of a mode on a link, in transfer units of `unit` clocks, or why there is none.
pub fn fit(mode: &Mode, link: Link, unit: u8, frames: u32) -> Result<Plan, Unfit>
    requires unit { (32 ≤ unit) × (unit ≤ 64) }
    requires frames { (1 ≤ frames) × (frames ≤ 65535) }
    ensures value { result ≡ fit_of (record { mode = mode.now; link = link; unit = unit; frames = frames }) }
    ensures planned { IfOk result IsPlan }
    ensures never_short { IfOk result (λ plan. NeverShort (timing plan)) }
    ensures never_over { IfOk result (λ plan. NeverOver (timing plan)) }
    ensures few_wait { IfOk result (λ plan. bound (timing plan) ≤ 34) }
    ensures cadence { IfOk result (λ plan. IsCadence (timing plan)) }
    ensures apart { IfOk result (λ plan. IsApart (timing plan)) }
    ensures sending { IfOk result (λ plan. IsSending (timing plan)) }
    ensures attributes_end { IfOk result AttributesEnd }
{
    let numbers = Numbers::new(mode, link, unit);
    match numbers.unfit() {
        Some(unfit) => Err(unfit),
        None => Ok(numbers.plan(mode, link, unit, frames)),
    }
}

/// The clocks of a header's longest group and longest VB-ID block, and of BE.
const HEADER: u128 = 17;

impl Numbers {
    /// The first reason why a line does not fit.
    #[tactic(auto, unfolding(crate::specs::Fit::unfit_of))]
    fn unfit(self) -> Option<Unfit>
        requires { IsSmall (timing_in self) }
        ensures { result ≡ unfit_of (timing_in self) }
    {
        let n = self.n();
        let m = self.m();
        if m < n {
            return Some(Unfit::TooFast {
                n: n as u64,
                m: m as u64,
            });
        }
        if self.unit * n < m {
            return Some(Unfit::TooSlow {
                n: n as u64,
                m: m as u64,
                unit: self.unit as u8,
            });
        }
        self.no_room()
    }

    /// Whether lines have fewer clocks than they need.
    #[tactic(auto, unfolding(crate::specs::Fit::no_room_of))]
    fn no_room(self) -> Option<Unfit>
        requires small { IsSmall (timing_in self) }
        requires not_too_fast { n (timing_in self) ≤ m (timing_in self) }
        requires not_too_slow { m (timing_in self) ≤ self.unit * n (timing_in self) }
        ensures { result ≡ no_room_of (timing_in self) }
    {
        let need = self.line_end() + self.delay() + HEADER;
        let have = self.gap();
        if need <= have {
            return None;
        }
        Some(Unfit::NoRoom {
            have: have as u64,
            need: need as u64,
        })
    }

    /// The plan of a mode that fits.
    fn plan(self, mode: &Mode, link: Link, unit: u8, frames: u32) -> Plan
        requires same { timing_in self ≡ timing_of mode.now link unit }
        requires unit { (32 ≤ unit) × (unit ≤ 64) }
        requires frames { (1 ≤ frames) × (frames ≤ 65535) }
        requires small { IsSmall (timing_in self) }
        requires fits { IsFit (timing_in self) }
        ensures value { result ≡ record { mode = mode.now; link = link; unit = unit; frames = frames } }
        ensures planned { IsPlan result }
        ensures schedule { IsSchedule result }
    {
        let lines = u128::from(frames) * u128::from(mode.vtotal());
        Plan {
            mode: *mode,
            link,
            unit,
            frames,
            symbols: self.symbols() as u32,
            n: self.n() as u64,
            m: self.m() as u64,
            delay: self.delay() as u32,
            line_end: self.line_end() as u64,
            bound: self.bound() as u32,
            clocks: self.clocks(lines, link) as u64,
        }
    }
}
