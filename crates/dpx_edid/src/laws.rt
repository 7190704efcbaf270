//! Laws of the definitions. Each function's contract is the law.
ghost use Rattle.std.specs.Prelude.{◌≡◌, ◌≤◌, length, Some, IfSome};
ghost use Rattle.dpx_base.specs.Mode.{ModeFacts, IsLegal};
ghost use Rattle.dpx_base.specs.Port.{asks};
ghost use Rattle.dpx_aux.specs.Conversation.{AlwaysIs, IsDecided, HistoriesAre, Suffices};
ghost use Rattle.dpx_edid.specs.declared.timing.Slot.TheVariants.{Timing};
ghost use Rattle.dpx_edid.specs.Causes.{IsCaused};
ghost use Rattle.dpx_edid.specs.Fetch.{Fetch, fetch_asks};
ghost use Rattle.dpx_edid.specs.Timing.{read_timing, write_timing};

/// For given answers there is one fetch: one history, and one end.
pub fn one_fetch()
    ensures { IsDecided Fetch }
{}

/// Of every 912 answers, whatever they are, some front is the answers of a fetch.
pub fn some_fetch()
    ensures { Suffices fetch_asks Fetch }
{}

/// A fetch asks at most 912 times, 8 times in each of 114 transactions, and its history has no more entries than that.
pub fn is_bounded()
    ensures number { fetch_asks ≡ 912 }
    ensures asks { HistoriesAre Fetch (λ history. asks history ≤ fetch_asks) }
    ensures entries { HistoriesAre Fetch (λ history. length history ≤ fetch_asks) }
{}

/// Whatever its history, a fetch that was refused ended at a refusal, one that is spent at the eighth answer in vain,
/// which it tells; and a block is whole.
pub fn is_caused()
    ensures { AlwaysIs Fetch IsCaused }
{}

/// The timing of a mode says that mode.
pub fn timing_comes_back()
    ensures { (mode : ModeFacts) → IsLegal mode
        → IfSome (write_timing mode) (λ bytes. read_timing bytes ≡ Timing mode) }
{}
