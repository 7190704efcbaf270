ghost use Rattle.dpx_base.specs.Plan.{PlanFacts, IsPlan};
ghost use Rattle.dpx_timing.specs.Schedule.{IsSchedule};

/// What holds of every plan. `crate::proofs::Holds::schedule` is the same for proofs of the crates above.
pub fn plans_hold()
    ensures { (p : PlanFacts) → IsPlan p → IsSchedule p }
{}
