ghost use Rattle.std.specs.Prelude.{◌≡◌};
ghost use Rattle.dpx_watch.specs.State.{state_after};

use crate::Outcome;
use dpx_base::Link;
use dpx_dpcd::Status6;

/// Whether the link may carry frames.
#[derive(Clone, Copy, Debug, PartialEq, Eq)]
pub enum WatchState {
    Down,
    /// The link is trained, and `last` is the status that was read last.
    Up { link: Link, last: Status6 },
}

/// The state behind a step that came to this.
pub(crate) fn state_after(state: WatchState, outcome: Outcome) -> WatchState
    ensures { result ≡ state_after state outcome }
{
    match (outcome, state) {
        (Outcome::Kept { last }, WatchState::Up { link, .. }) => WatchState::Up { link, last },
        (Outcome::Trained { link, last, .. }, _) => WatchState::Up { link, last },
        _ => WatchState::Down,
    }
}
