//! The first of the lanes' faults.

ghost use Rattle.std.specs.Prelude.{◌≡◌, ◌<◌, ℕ, List};
ghost use Rattle.dpx_base.specs.Lanes.{lanes_count};
ghost use Rattle.dpx_lane.specs.Team.{TeamRead};
ghost use Rattle.dpx_align.specs.FirstFault.{earlier_of, best_with, FirstOf};

use dpx_lane::{LaneFault, LaneRx, LaneTeam};

/// The earlier of a fault and a higher lane's.
fn earlier(best: Option<(u8, LaneFault)>, lane: u8, fault: LaneFault) -> (u8, LaneFault)
    ensures { result ≡ earlier_of best lane fault }
{
    match best {
        Some((at, found)) => {
            if fault.clock < found.clock {
                (lane, fault)
            } else {
                (at, found)
            }
        }
        None => (lane, fault),
    }
}

/// The first fault so far, with one lane more.
fn with_lane(
    best: Option<(u8, LaneFault)>,
    lane: u8,
    fault: Option<LaneFault>,
) -> Option<(u8, LaneFault)>
    ensures { result ≡ best_with best lane fault }
{
    match fault {
        Some(fault) => Some(earlier(best, lane, fault)),
        None => best,
    }
}

/// The fault at the least clock, and at that clock the lowest lane's.
pub(crate) fn first_fault(team: &LaneTeam<LaneRx>) -> Option<(u8, LaneFault)>
    ensures { (words left : List (List ℕ)) → TeamRead team.now.states words left
        → FirstOf words (lanes_count team.now.lanes) result }
{
    let mut best = None;
    for lane in 0..team.lanes().count() {
        best = with_lane(best, lane, team.lane(lane).fault());
    }
    best
}
