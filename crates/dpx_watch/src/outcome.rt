ghost use Rattle.std.specs.Prelude.{◌≡◌};
ghost use Rattle.dpx_watch.specs.Step.{outcome_of, settled};

use dpx_aux::AuxEnd;
use dpx_base::Link;
use dpx_dpcd::{CapsBad, Drive, Status6};
use dpx_link::TrainEnd;

/// What a step came to. `last` is the last status that was read.
#[derive(Clone, Copy, Debug, PartialEq, Eq)]
pub enum Outcome {
    /// The link was down and is, and nothing was asked.
    Nothing,
    /// The link was up and is: its status shows every lane in use done.
    Kept {
        last: Status6,
    },
    /// The link was trained with this drive, and is up.
    Trained {
        link: Link,
        drive: Drive,
        last: Status6,
    },
    /// No configuration could be trained.
    NotTrained {
        last: Status6,
    },
    /// The capabilities were refused.
    CapsRefused(CapsBad),
    /// A transaction was refused or spent.
    AuxEnded(AuxEnd),
    /// The sink is gone.
    Unplugged,
}

/// What a step came to, and how many requests it asked.
#[derive(Clone, Copy, Debug, PartialEq, Eq)]
pub struct Stepped {
    pub outcome: Outcome,
    pub requests: u32,
}

/// What an end of a training means for the link.
pub(crate) fn outcome_of(end: TrainEnd) -> Outcome
    ensures { result ≡ outcome_of end }
{
    match end {
        TrainEnd::Trained {
            link,
            drive,
            last,
            ..
        } => Outcome::Trained { link, drive, last },
        TrainEnd::NotTrained { last, .. } => Outcome::NotTrained { last },
        TrainEnd::CapsRefused { why, .. } => Outcome::CapsRefused(why),
        TrainEnd::AuxEnded { why, .. } => Outcome::AuxEnded(why),
    }
}

/// A transaction that failed ends the step.
pub(crate) fn settled(given: Result<Outcome, AuxEnd>) -> Outcome
    ensures { result ≡ settled given }
{
    match given {
        Ok(outcome) => outcome,
        Err(why) => Outcome::AuxEnded(why),
    }
}
