//! Laws of the definitions that the supervisor is proved against. Each function's contract is the law.
ghost use Rattle.std.specs.Prelude.{◌≡◌, ◌*◌, ◌≤◌, List, length};
ghost use Rattle.dpx_base.specs.Port.{asks};
ghost use Rattle.dpx_aux.specs.Conversation.{AlwaysIs, IsDecided, HistoriesAre, Suffices};
ghost use Rattle.dpx_watch.specs.declared.state.WatchState.{WatchState};
ghost use Rattle.dpx_watch.specs.State.{state_after};
ghost use Rattle.dpx_watch.specs.Step.{WatchStep, step_asks, step_entries};
ghost use Rattle.dpx_watch.specs.Laws.{IsUpByRead, Taken, Watches, history_of};

use crate::WatchState;
use dpx_base::{Link, PortEvent};

/// For given answers there is one step: one history and one outcome.
pub fn one_history(top: Link, state: WatchState, event: PortEvent)
    ensures { IsDecided (WatchStep top state event) }
{}

/// Of every 3,120 answers, whatever they are, some front is the answers of a step.
pub fn some_history(top: Link, state: WatchState, event: PortEvent)
    ensures { Suffices step_asks (WatchStep top state event) }
{}

/// A step writes the power once at most and looks at the status once at most, beside a training: so it asks at most
/// 3,120 times, and its history has at most 3,300 entries.
pub fn is_bounded(top: Link, state: WatchState, event: PortEvent)
    ensures numbers { (step_asks ≡ 3120) × (step_entries ≡ 3300) }
    ensures asks { HistoriesAre (WatchStep top state event) (λ history. asks history ≤ step_asks) }
    ensures entries { HistoriesAre (WatchStep top state event) (λ history. length history ≤ step_entries) }
{}

/// Behind a step the link is up only with a status that shows every lane in use done, and that was read in this step,
/// as the last one.
pub fn is_read_last(top: Link, state: WatchState, event: PortEvent)
    ensures { AlwaysIs (WatchStep top state event) (λ outcome. IsUpByRead (state_after state outcome)) }
{}

/// So many events ask so many times more at most, and add so many entries more.
pub fn lists_are_bounded(top: Link)
    ensures asks { (taken : List Taken) (now : WatchState) → Watches top WatchState.Down taken now
        → asks (history_of taken) ≤ length taken * step_asks }
    ensures entries { (taken : List Taken) (now : WatchState) → Watches top WatchState.Down taken now
        → length (history_of taken) ≤ length taken * step_entries }
{}

/// Whatever the events and the answers, frames are allowed only where the last status that was read shows every lane
/// in use done.
pub fn only_good_links(top: Link)
    ensures { (taken : List Taken) (now : WatchState) → Watches top WatchState.Down taken now
        → IsUpByRead now (history_of taken) }
{}
