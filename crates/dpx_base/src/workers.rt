/// How many workers code or decode the lanes. No result depends on it.
#[derive(Clone, Copy, Debug, PartialEq, Eq)]
pub enum Workers {
    /// One for all lanes.
    One,
    /// One for each lane.
    Lanes,
}

/// Where a worker reports before it begins a row.
pub trait Gate: Sync {
    fn arrive(&self, lane: u8);
}

/// The gate that does nothing.
#[derive(Clone, Copy, Debug, PartialEq, Eq)]
pub struct NoGate;

impl Gate for NoGate {
    fn arrive(&self, _lane: u8) {}
}
