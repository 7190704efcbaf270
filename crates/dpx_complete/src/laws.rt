//! Laws of training against a modelled sink. Each function's contract is the law.
ghost use Rattle.dpx_complete.specs.Complete.{TrainingIsComplete, DeferralEndsTraining, PortsAreAnswered};
ghost use Rattle.dpx_complete.specs.Fall.{FallIsWhole};

/// Where a modelled sink answers that defers at most seven times, training ends at the first configuration of
/// the fallback path whose lanes recover and equalise, or not trained where there is none, or with its
/// capabilities refused; where it defers eight times or more, with the first request spent.
pub fn training_is_complete()
    ensures complete { TrainingIsComplete }
    ensures deferred { DeferralEndsTraining }
{}

/// A port that was loaded with a modelled sink, was trained, and still tells its history and its plan has a
/// history that the law above speaks of.
pub fn ports_are_answered()
    ensures { PortsAreAnswered }
{}

/// The fallback path, said with at most so many configurations, is never cut short.
pub fn fall_is_whole()
    ensures { FallIsWhole }
{}
