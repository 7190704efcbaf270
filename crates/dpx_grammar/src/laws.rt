ghost use Rattle.dpx_grammar.specs.Laws.{DefaultHasNoBf, FrontsAreAccepted, IsOneReception};
ghost use Rattle.dpx_grammar.specs.Machine.{ReadsExactly};

/// What is received of a list of sets is one: no other frames and no other tail.
pub fn one_reception()
    ensures { IsOneReception }
{}

/// Every front of an accepted list of sets is accepted; so a list that is not accepted has a first fault.
pub fn fronts_are_accepted()
    ensures { FrontsAreAccepted }
{}

/// In default framing BF and CP are never accepted, on any lane.
pub fn default_has_no_bf()
    ensures { DefaultHasNoBf }
{}

/// The states read exactly the prefixes of lists of periods, part by part.
pub fn states_read_exactly()
    ensures { ReadsExactly }
{}
