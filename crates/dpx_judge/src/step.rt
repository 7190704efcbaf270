use dpx_base::Link;
use dpx_dpcd::{Caps, Drive};
use dpx_link::Verdict;
use dpx_phase::Level;

/// Where a training stands: the wait or the transaction that comes next.
#[derive(Clone, Copy)]
pub(crate) enum Step {
    /// The capabilities are read.
    BaseBlock,
    /// Their extended field is read.
    ExtendedField,
    /// The sink is put to full power.
    Power(Caps),
    /// The rate and the lanes are written.
    Configuration(Attempt),
    /// The coding is written.
    Coding(Attempt),
    /// Clock recovery, at the status of this number, counted from 1.
    Recovery {
        attempt: Attempt,
        act: Act,
        level: Level,
        number: u8,
    },
    /// Channel equalisation, at the status of this number, with this drive in force.
    Equalisation {
        attempt: Attempt,
        act: Act,
        drive: Drive,
        number: u8,
    },
    /// The closing write is made.
    Close(Verdict),
}

/// An attempt to train `link`, in a training that began with `first`.
#[derive(Clone, Copy)]
pub(crate) struct Attempt {
    pub caps: Caps,
    pub first: Link,
    pub link: Link,
}

/// What a phase does next.
#[derive(Clone, Copy)]
pub(crate) enum Act {
    /// The pattern and the first drive are written.
    Start,
    /// The wait before a read.
    Wait,
    /// The status is read.
    Read,
    /// The drive that it asked for is written.
    Adjust,
}
