//! Laws of the definitions. Each function's contract is the law.
ghost use Rattle.dpx_dpcd.specs.Laws.{DefersByPosition, IsSilentElsewhere};

/// A modelled sink defers by the number of the requests before; bytes that are no request get silence.
pub fn answers_by_position()
    ensures deferred { DefersByPosition }
    ensures silent { IsSilentElsewhere }
{}
