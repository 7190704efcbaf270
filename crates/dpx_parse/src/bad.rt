use dpx_msa::MsaBad;

/// Why a set is refused: this project's own.
#[derive(Clone, Copy, Debug, PartialEq, Eq)]
pub enum ParseWhy {
    /// The lanes differ: in data or control, or in the control symbol.
    Mixed,
    /// A control symbol, or data, that cannot stand here.
    BadControl,
    /// The set does not go on with its group.
    BadGroup,
    /// The group marks content protection.
    Protected,
    /// VB-ID tells an interlaced mode.
    Interlaced,
    /// A copy of VB-ID differs from the first.
    VbIdDiffers,
    /// The attributes have no reading.
    Msa(MsaBad),
    /// One valid symbol more than the line has.
    LineLong,
    /// The line ends after `got` of `want` symbols on each lane.
    LineShort { got: u32, want: u32 },
    /// Attributes follow after `got` of `want` lines.
    FrameShort { got: u32, want: u32 },
    /// A line begins past the height.
    FrameLong,
}

/// A refusal: the number of the set, counted from 0, and the reason.
#[derive(Clone, Copy, Debug, PartialEq, Eq)]
pub struct ParseBad {
    pub set: u64,
    pub why: ParseWhy,
}
