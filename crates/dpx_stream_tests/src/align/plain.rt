//! Lock and sets, computed as they are defined: over the lanes' codes, whole and slowly.

/// Whether the lane has the group from this clock on.
fn has_at(lane: &[u16], group: &[u16], clock: usize) -> bool {
    lane.iter().skip(clock).take(group.len()).eq(group.iter())
}

/// The lane's first group that starts in the 17 clocks from this one on.
fn near(lane: &[u16], group: &[u16], clock: usize) -> Option<usize> {
    for at in clock..clock.saturating_add(17) {
        if has_at(lane, group, at) {
            return Some(at);
        }
    }
    None
}

/// Whether every lane has a group near this clock, and some lane one at it.
fn meets(lanes: &[&[u16]], group: &[u16], clock: usize) -> bool {
    let mut some = false;
    for lane in lanes {
        if near(lane, group, clock).is_none() {
            return false;
        }
        some |= has_at(lane, group, clock);
    }
    some
}

/// The lock, if there is one.
pub(super) fn lock(lanes: &[&[u16]], group: &[u16], clocks: usize) -> Option<usize> {
    for clock in 0..clocks {
        if meets(lanes, group, clock) {
            return Some(clock);
        }
    }
    None
}

/// A set's codes, where it is complete.
pub(super) fn set(lanes: &[&[u16]], group: &[u16], lock: usize, number: usize) -> Option<[u16; 4]> {
    let mut codes = [0; 4];
    for (code, lane) in codes.iter_mut().zip(lanes.iter()) {
        let start = near(lane, group, lock)?;
        *code = *lane.get(start.saturating_add(number))?;
    }
    Some(codes)
}
