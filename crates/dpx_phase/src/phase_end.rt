use dpx_aux::AuxEnd;
use dpx_dpcd::{Drive, Status6};

/// How a training phase ended. `last` is the last status that was read.
#[derive(Clone, Copy, Debug, PartialEq, Eq)]
pub enum PhaseEnd {
    /// `drive` is the one in force when `last` was read.
    Done { drive: Drive, last: Status6 },
    Failed { last: Status6, cause: FailCause },
    /// Equalisation found that a lane had lost clock recovery.
    Lost { last: Status6 },
    /// A transaction failed.
    Aux(AuxEnd),
}

/// Why a phase failed: the first of these that held.
#[derive(Clone, Copy, Debug, PartialEq, Eq)]
pub enum FailCause {
    /// Every lane in use was at the greatest swing.
    MaxSwing,
    /// Five drives in a row had the same swings.
    SameSwing,
    /// So many statuses were read as may be.
    Reads,
}
