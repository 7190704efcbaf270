ghost use Rattle.std.specs.Prelude.{◌≡◌, ◌+◌, ◌*◌, ◌^◌, ◌<◌, ◌≤◌, ℕ};
ghost use Rattle.dpx_base.specs.Plan.{IsPlan, timing};
ghost use Rattle.dpx_frame.specs.Counters.{StandsAt, IsBounded};

use crate::units::Units;
use dpx_timing::Plan;

/// Where a schedule stands in its frame and line.
#[derive(Clone, Copy, Drop)]
pub(crate) struct Counters {
    /// Clocks before the first line's BE.
    pub(crate) before: u64,
    /// The line, counted over all frames.
    pub(crate) line: u32,
    /// The line, counted in its frame.
    pub(crate) row: u32,
    /// Clocks since the line's BE.
    pub(crate) since: u64,
    /// Clocks until the next line's BE.
    pub(crate) until: u64,
    /// What the next line's start leaves of a clock, below the pixel clock.
    pub(crate) spare: u64,
    /// Clocks since the BE of the frame's first line.
    pub(crate) in_frame: u64,
    pub(crate) units: Units,
}

/// So many ticks take so many symbol clocks, in parts of which the pixel clock has one each.
fn parts(plan: &Plan, ticks: u16) -> u64
    ensures value { result ≡ ticks * (timing plan.now).symbol_clock }
    ensures small { result < 2 ^ 36 }
{
    u64::from(ticks) * u64::from(plan.link().rate.clock_khz())
}

impl Counters {
    /// Before the first clock.
    pub(crate) fn first(plan: &Plan) -> Counters
        ensures counters { StandsAt plan.now 0 result }
        ensures planned { IsPlan plan.now }
    {
        let mode = plan.mode();
        let pixel_clock = u64::from(mode.clock_khz());
        let blank = parts(plan, mode.htotal() - mode.width());
        let due = blank % pixel_clock + parts(plan, mode.htotal());
        Counters {
            before: blank / pixel_clock + u64::from(plan.delay()) - 1,
            line: 0,
            row: 0,
            since: 0,
            until: due / pixel_clock,
            spare: due % pixel_clock,
            in_frame: 0,
            units: Units::first(plan),
        }
    }

    /// Goes a clock on.
    pub(crate) fn step(&mut self, plan: &Plan)
        requires { IsBounded self.old }
        ensures { (t : ℕ) → StandsAt plan.now t self.old → StandsAt plan.now (t + 1) self.new }
    {
        if self.before > 0 {
            self.before -= 1;
        } else if self.until == 1 {
            *self = self.next_line(plan);
        } else {
            self.step_in_line(plan);
        }
    }

    /// Goes a clock on, in the same line.
    fn step_in_line(&mut self, plan: &Plan)
        requires { IsBounded self.old }
        ensures { (t : ℕ) → self.old.before ≡ 0 → 1 < self.old.until → StandsAt plan.now t self.old →
            StandsAt plan.now (t + 1) self.new }
    {
        if self.since > 0 {
            self.units.step(plan);
        }
        self.since += 1;
        self.until -= 1;
        self.in_frame += 1;
    }

    /// A clock later, at the next line's BE.
    fn next_line(self, plan: &Plan) -> Counters
        requires { IsBounded self }
        ensures { (t : ℕ) → self.before ≡ 0 → self.until ≡ 1 → StandsAt plan.now t self →
            StandsAt plan.now (t + 1) result }
    {
        let pixel_clock = u64::from(plan.mode().clock_khz());
        let due = self.spare + parts(plan, plan.mode().htotal());
        let next = Counters {
            line: self.line + 1,
            row: self.row + 1,
            since: 0,
            until: due / pixel_clock,
            spare: due % pixel_clock,
            in_frame: self.in_frame + 1,
            units: Units::first(plan),
            ..self
        };
        if next.row == u32::from(plan.mode().vtotal()) {
            Counters {
                row: 0,
                in_frame: 0,
                ..next
            }
        } else {
            next
        }
    }
}
