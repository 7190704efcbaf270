ghost use Rattle.std.specs.Prelude.{ℕ};
ghost use Rattle.dpx_dpcd.specs.LoadPort.{IsLoaded, BeginsAnew, AnswersAsPlanned};

use crate::SinkPlan;
use dpx_base::AuxPort;

/// An AUX port that can be told what its sink is to answer.
pub trait LoadPort: AuxPort<Plan = SinkPlan> {
    /// How many entries of a history the port surely tells after a load; 0 where it may tell none.
    ghost surely_told: { ℕ };

    /// Begins anew with this plan: no asks, an empty history.
    fn load(&mut self, plan: SinkPlan)
        ensures loaded { IsLoaded plan (Self.state self.new) }
        ensures anew { BeginsAnew Self.surely_told (Self.state self.old) (Self.state self.new) };

    /// Where the port tells its plan and its history, the answers since it was loaded are the plan's.
    ghost as_planned: { (port : Self) → AnswersAsPlanned (Self.state port) };
}
