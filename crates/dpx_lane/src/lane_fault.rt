ghost use Rattle.std.specs.Prelude.{◌≡◌};
ghost use Rattle.dpx_lane.specs.Reading.{read_word};

use dpx_base::Sym;
use dpx_code::{CodeBad, Rd, decode};

/// Why a word of a lane is bad.
#[derive(Clone, Copy, Debug, PartialEq, Eq)]
pub enum WordBad {
    /// It is 1024 or more.
    Value(u16),
    Code(CodeBad),
}

/// A lane's first bad word.
#[derive(Clone, Copy, Debug, PartialEq, Eq)]
pub struct LaneFault {
    /// Symbol clocks from the lane's first word on, over all rows.
    pub clock: u64,
    pub why: WordBad,
}

/// Reads a word of a row.
pub(crate) fn read_word(word: u16, rd: Rd) -> Result<(Sym, Rd), WordBad>
    ensures { result ≡ read_word word rd }
{
    if word >= 1024 {
        return Err(WordBad::Value(word));
    }
    match decode(word, rd) {
        Ok(read) => Ok(read),
        Err(bad) => Err(WordBad::Code(bad)),
    }
}
