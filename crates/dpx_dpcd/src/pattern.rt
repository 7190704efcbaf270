ghost use Rattle.std.specs.Prelude.{◌≡◌};
ghost use Rattle.dpx_dpcd.specs.Pattern.{pattern_register};

/// A training pattern (VESA DisplayPort 1.4a, TRAINING_PATTERN_SET). Recovery sends TPS1, equalisation
/// another one.
#[derive(Clone, Copy, Debug, PartialEq, Eq)]
pub enum Pattern {
    Tps1,
    Tps2,
    Tps3,
    Tps4,
}

impl Pattern {
    /// What selects the pattern in register 00102: its number in bits 3:0, and bit 5, scrambling off,
    /// but for TPS4.
    pub fn register(self) -> u8
        ensures { result ≡ pattern_register self }
    {
        match self {
            Pattern::Tps1 => 0x21,
            Pattern::Tps2 => 0x22,
            Pattern::Tps3 => 0x23,
            Pattern::Tps4 => 0x07,
        }
    }
}
