ghost use Rattle.std.specs.Prelude.{◌≡◌};
ghost use Rattle.dpx_link.specs.Training.{end_of};

use dpx_aux::AuxEnd;
use dpx_base::Link;
use dpx_dpcd::{CapsBad, Drive, Status6};

/// How a training ended. `last` is the last status that was read, `requests` the number of asks.
#[derive(Clone, Copy, Debug, PartialEq, Eq)]
pub enum TrainEnd {
    /// The lanes of `link` are trained with this drive.
    Trained {
        link: Link,
        drive: Drive,
        last: Status6,
        requests: u32,
    },
    /// No configuration is left.
    NotTrained {
        last: Status6,
        requests: u32,
    },
    CapsRefused {
        why: CapsBad,
        requests: u32,
    },
    AuxEnded {
        why: AuxEnd,
        requests: u32,
    },
}

/// How a training ended in which no transaction failed.
#[derive(Clone, Copy, Debug, PartialEq, Eq)]
pub enum Verdict {
    Trained {
        link: Link,
        drive: Drive,
        last: Status6,
    },
    NotTrained {
        last: Status6,
    },
    CapsRefused {
        why: CapsBad,
    },
}

/// How the training ended, after so many asks.
pub(crate) fn end_of(outcome: Result<Verdict, AuxEnd>, requests: u32) -> TrainEnd
    ensures { result ≡ end_of requests outcome }
{
    match outcome {
        Ok(Verdict::Trained { link, drive, last }) => TrainEnd::Trained {
            link,
            drive,
            last,
            requests,
        },
        Ok(Verdict::NotTrained { last }) => TrainEnd::NotTrained { last, requests },
        Ok(Verdict::CapsRefused { why }) => TrainEnd::CapsRefused { why, requests },
        Err(why) => TrainEnd::AuxEnded { why, requests },
    }
}
