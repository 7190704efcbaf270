ghost use Rattle.std.specs.Prelude.{◌≡◌, ◌+◌, ℕ, min};
ghost use Rattle.dpx_base.specs.Plan.{clocks};
ghost use Rattle.dpx_base.specs.Slots.{slot_at};

use crate::counters::Counters;
use dpx_base::Slot;
use dpx_timing::Plan;
use std::marker::Model;

/// What the symbol clocks of a plan carry, one clock after the other: VESA DisplayPort 1.4a, main link framing;
/// the places are this project's own. It is seen as its plan and the number of its next clock, from 0.
#[derive(Drop)]
pub struct Schedule {
    plan: Plan,
    clock: u64,
    counters: Counters,
}

impl Model for Schedule {
    ghost use Rattle.dpx_frame.specs.Schedule.{ScheduleFacts, IsScheduled};

    ghost Value = { ScheduleFacts };

    ghost view = { λ s. record { plan = s.plan; clock = s.clock } };

    ghost invariant = { λ s. IsScheduled s.plan s.clock s.counters };
}

impl Schedule {
    /// Before clock 0.
    pub fn new(plan: &Plan) -> Schedule
        ensures { result ≡ record { plan = plan.now; clock = 0 } }
    {
        Schedule {
            plan: *plan,
            clock: 0,
            counters: Counters::first(plan),
        }
    }

    /// The slot of the next clock. Behind the last clock it is `Ended`, and the schedule stays there.
    pub fn next(&mut self) -> Slot
        ensures slot { result ≡ slot_at self.old.plan self.old.clock }
        ensures clock { self.new ≡ record self.old { clock = min (self.old.clock + 1) (clocks self.old.plan) } }
    {
        if self.plan.clocks() <= self.clock {
            return Slot::Ended;
        }
        let slot = self.counters.slot(&self.plan);
        self.counters.step(&self.plan);
        self.clock += 1;
        slot
    }
}
