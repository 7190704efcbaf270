ghost use Rattle.dpx_inversion.specs.Laws.{Inverts, IsReceived, SetsCanBeSent, StartsAtSr, StartsWithGroup};

/// The sets of a plan that fits and of exactly its pixels, from the first SR on, are accepted and give back the
/// frames.
pub fn source_inverts()
    ensures { Inverts }
{}

/// Whatever is received of a source's sets from the first SR on is its frames, with its pixels in their order.
pub fn source_is_received()
    ensures { IsReceived }
{}

/// Before the first header a source sends zeros, and the header begins with SR: so its first SR stands there.
pub fn source_starts_at_sr()
    ensures { StartsAtSr }
{}

/// The sets of a source are zeros, then the first header's whole group, which has SR, and the rest.
pub fn source_starts_with_group()
    ensures { StartsWithGroup }
{}

/// Each of a source's sets has a symbol for each lane, and each symbol can be sent.
pub fn source_sets_can_be_sent()
    ensures { SetsCanBeSent }
{}
