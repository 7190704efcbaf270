//! What holds of all that is received. Each function's contract is the law.

ghost use Rattle.dpx_sink.specs.Laws.{CapturesAreWritten, IsOneEnd};

/// The end of bytes without a fault is one.
pub fn one_end()
    ensures { IsOneEnd }
{}

/// A receiver that was fed the bytes of the capture of a plan that fits, behind its header and in any pieces, has
/// written exactly the pixels that were sent and a line for each frame; no feed was refused, and its end counts all
/// frames and lines and no tail.
pub fn a_capture_is_received()
    ensures { CapturesAreWritten }
{}
