ghost use Rattle.std.specs.Prelude.{◌≡◌, ◌+◌, ◌-◌, ◌*◌, ◌%◌, ◌^◌, ◌<◌, ℕ, if◌then◌else◌, nat_lt};
ghost use Rattle.dpx_base.specs.Plan.{IsPlan, timing};
ghost use Rattle.dpx_base.specs.Timing.{symbols, carried, n, m};
ghost use Rattle.dpx_frame.specs.Units.{StandsInLine};

use dpx_timing::Plan;

/// Where a line stands in its transfer units. What a line has sent when a unit ends is rounded down,
/// so what the rate leaves is kept.
#[derive(Clone, Copy, Drop)]
pub(crate) struct Units {
    /// Clocks of the unit that have gone by.
    pub(crate) place: u64,
    /// Symbols of the unit.
    pub(crate) symbols: u64,
    /// Symbols of the line behind the unit.
    pub(crate) left: u64,
    /// What the rate leaves at the unit's end, below `m`.
    pub(crate) rest: u64,
}

impl Units {
    /// The unit behind those that left so many symbols, and this rest.
    fn behind(plan: &Plan, left: u64, rest: u64) -> Units
        requires { rest < 2 ^ 32 }
        ensures unit { (k : ℕ) → left ≡ symbols (timing plan.now) - carried (timing plan.now) k →
            rest ≡ (k * plan.now.unit * n (timing plan.now)) % m (timing plan.now) →
            StandsInLine (timing plan.now) (k * plan.now.unit) result }
    {
        let due = rest + u64::from(plan.unit()) * plan.n();
        let symbols = left.min(due / plan.m());
        Units {
            place: 0,
            symbols,
            left: left - symbols,
            rest: due % plan.m(),
        }
    }

    /// The first clock of a line.
    pub(crate) fn first(plan: &Plan) -> Units
        ensures { StandsInLine (timing plan.now) 0 result }
    {
        Units::behind(plan, u64::from(plan.symbols()), 0)
    }

    /// Goes on to the next clock of the line.
    pub(crate) fn step(&mut self, plan: &Plan)
        requires rest { self.old.rest < 2 ^ 32 }
        requires place { self.old.place < 2 ^ 32 }
        ensures unit { (w : ℕ) → StandsInLine (timing plan.now) w self.old →
            StandsInLine (timing plan.now) (w + 1) self.new }
    {
        if self.place + 1 < u64::from(plan.unit()) {
            self.place += 1;
        } else {
            *self = Units::behind(plan, self.left, self.rest);
        }
    }
}
