use dpx_base::LaneSet;

/// What an aligner answers where no word fault stands.
#[derive(Clone, Copy, Debug, PartialEq, Eq)]
pub enum Step {
    /// The next set, with its number: the set at the lock is 0.
    Set { number: u64, set: LaneSet },
    /// No further set is complete.
    Hungry,
}

/// The lanes do not lock in the clocks fed.
#[derive(Clone, Copy, Debug, PartialEq, Eq)]
pub struct NoLock {
    /// How many clocks were fed.
    pub clocks: u64,
}
