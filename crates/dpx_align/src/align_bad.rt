ghost use Rattle.std.specs.Prelude.{◌≡◌, ◌<◌};
ghost use Rattle.dpx_align.specs.FirstFault.{bad_of};

use dpx_base::Place;
use dpx_code::CodeBad;
use dpx_lane::{LaneFault, WordBad};

/// The first word fault of a capture, with its reason.
#[derive(Clone, Copy, Debug, PartialEq, Eq)]
pub enum AlignBad {
    /// The word is 1024 or more.
    BadWord { place: Place, value: u16 },
    /// No symbol has the word, at either disparity.
    NotAWord { place: Place, word: u16 },
    /// Only the disparity has the word that the lane's words before it do not leave.
    WrongColumn { place: Place, word: u16 },
}

/// The answer for a lane's fault.
pub(crate) fn align_bad(lane: u8, fault: LaneFault) -> AlignBad
    ensures { result ≡ bad_of lane fault }
{
    let place = Place {
        clock: fault.clock,
        lane,
    };
    match fault.why {
        WordBad::Value(value) => AlignBad::BadWord { place, value },
        WordBad::Code(CodeBad::NotAWord(word)) => AlignBad::NotAWord { place, word },
        WordBad::Code(CodeBad::WrongColumn(word, _)) => AlignBad::WrongColumn { place, word },
    }
}
