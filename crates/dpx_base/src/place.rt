/// Where a word of a capture stands.
#[derive(Clone, Copy, Debug, PartialEq, Eq)]
pub struct Place {
    /// Symbol clocks from the first one on, which is 0.
    pub clock: u64,
    /// From 0 on.
    pub lane: u8,
}
