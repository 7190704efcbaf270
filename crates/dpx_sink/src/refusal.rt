ghost use Rattle.std.specs.Prelude.{◌≡◌};
ghost use Rattle.dpx_sink.specs.Receiver.{end_of};

use crate::{Output, RecvEnd};
use dpx_align::AlignBad;
use dpx_parse::ParseBad;

/// Why a receiver refuses, and where a write failed.
#[derive(Clone, Copy, Debug, PartialEq, Eq)]
pub(crate) enum Refusal {
    Word(AlignBad),
    Set(ParseBad),
    Write(Output),
}

impl Refusal {
    /// As callers of the receiver see it.
    pub fn end(self) -> RecvEnd
        ensures { result ≡ end_of self }
    {
        match self {
            Refusal::Word(bad) => RecvEnd::Align(bad),
            Refusal::Set(bad) => RecvEnd::Parse(bad),
            Refusal::Write(_) => RecvEnd::WriteFault,
        }
    }
}
