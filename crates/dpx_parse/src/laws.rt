ghost use Rattle.dpx_parse.specs.Laws.{AcceptsExactly, GivesFrames, IsOneReason, IsOneEvent};

/// A list of sets is accepted exactly where none of its parts has a fault.
pub fn accepted_without_fault()
    ensures { AcceptsExactly }
{}

/// The frames of an accepted list are what its events give.
pub fn events_give_frames()
    ensures { GivesFrames }
{}

/// A set that is refused behind others has one reason, with one pair of numbers.
pub fn one_reason()
    ensures { IsOneReason }
{}

/// A set that is taken behind others tells one thing.
pub fn one_event()
    ensures { IsOneEvent }
{}
