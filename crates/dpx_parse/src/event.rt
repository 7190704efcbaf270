use dpx_base::LaneBytes;
use dpx_msa::Attributes;

/// What a set that is not refused tells.
#[derive(Clone, Copy, Debug, PartialEq, Eq)]
pub enum Event {
    Nothing,
    /// These attributes hold from here on.
    Attributes(Attributes),
    LineStart,
    /// Symbols of the line, one for each lane.
    Valid(LaneBytes),
    LineEnd,
}
