/// What was received in all.
#[derive(Clone, Copy, Debug, PartialEq, Eq)]
pub struct Received {
    /// The whole frames.
    pub frames: u64,
    /// The whole active lines behind the first attributes.
    pub lines: u64,
    /// The sets of an active part that no header has ended, its BE included; 0 where there is none.
    pub tail_clocks: u64,
}

/// Why a capture without a fault was not received to its end.
#[derive(Clone, Copy, Debug, PartialEq, Eq)]
pub enum FinishEnd {
    /// So many bytes of an unfinished clock are left.
    Truncated { clock: u64, bytes: u8 },
    /// The lanes do not lock in so many clocks.
    NoLock { clocks: u64 },
}
