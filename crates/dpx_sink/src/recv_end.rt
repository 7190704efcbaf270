use dpx_align::AlignBad;
use dpx_parse::ParseBad;

/// Why a receiver refuses: the first fault of the capture, or a write that failed.
#[derive(Clone, Copy, Debug, PartialEq, Eq)]
pub enum RecvEnd {
    Align(AlignBad),
    Parse(ParseBad),
    WriteFault,
}
