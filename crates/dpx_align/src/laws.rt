//! What the definitions of faults, locks and sets obey. A function's contract is the law.
ghost use Rattle.dpx_align.specs.Laws.{SentIsReceived, SetsHaveWords, WordsHaveSymbols};
ghost use Rattle.dpx_align.specs.Laws.{FaultsAreOne, FaultStays, SymbolsAreOne};
ghost use Rattle.dpx_align.specs.Laws.{SetsAreOne, SetsStay, CompletesOnce, SetsComeFirst};

/// The first word fault is one, with its reason, and stays as clocks are added; and words have one list of symbols.
pub fn first_fault_stays()
    ensures one { FaultsAreOne }
    ensures stays { FaultStays }
    ensures symbols { SymbolsAreOne }
{}

/// A number has one set, which stays as clocks are added. It is complete at one clock; a set of the clocks before a
/// word fault at a clock before that fault's.
pub fn sets_come_before_the_fault()
    ensures set { SetsAreOne }
    ensures stays { SetsStay }
    ensures clock { CompletesOnce }
    ensures before { SetsComeFirst }
{}

/// The words of sets whose first SR begins a group have no word fault. They lock at that SR's clock on lane 0, and give
/// back exactly the sets from it on. All sets of data and of the nine control symbols have words, and all such words
/// have symbols.
pub fn sent_sets_are_received()
    ensures received { SentIsReceived }
    ensures words { SetsHaveWords }
    ensures symbols { WordsHaveSymbols }
{}
