//! The work of each lane on its own row, by one thread a lane: `join_mut` alone, nested for four lanes.

ghost use Rattle.std.specs.Thread.{IsSync};

use crate::LaneWork;
use dpx_base::Gate;
use std::thread::{Threads, join_mut};

pub(crate) fn work<K: LaneWork, G: Gate>(gate: &G, lane: u8, state: &mut K, row: &mut [u16])
    requires { K.takes state.old row.old }
    ensures { K.does state.old row.old state.new row.new }
{
    gate.arrive(lane);
    state.run(row);
}

/// Lanes 0 and 1, each in a worker of its own.
pub(crate) fn work_first_two<K: LaneWork, G: Gate, R: Threads + Sync>(
    rt: &R,
    gate: &G,
    first: &mut K,
    second: &mut K,
    first_row: &mut [u16],
    second_row: &mut [u16],
)
    requires first { K.takes first.old first_row.old }
    requires second { K.takes second.old second_row.old }
    ensures first { K.does first.old first_row.old first.new first_row.new }
    ensures second { K.does second.old second_row.old second.new second_row.new }
{
    join_mut(
        rt,
        &mut ||
            requires { K.takes first.now first_row.now }
        { work(gate, 0, first, first_row) },
        &mut ||
            requires { K.takes second.now second_row.now }
        { work(gate, 1, second, second_row) },
    );
}

/// Lanes 2 and 3, each in a worker of its own.
fn work_last_two<K: LaneWork, G: Gate, R: Threads + Sync>(
    rt: &R,
    gate: &G,
    third: &mut K,
    fourth: &mut K,
    third_row: &mut [u16],
    fourth_row: &mut [u16],
)
    requires third { K.takes third.old third_row.old }
    requires fourth { K.takes fourth.old fourth_row.old }
    ensures third { K.does third.old third_row.old third.new third_row.new }
    ensures fourth { K.does fourth.old fourth_row.old fourth.new fourth_row.new }
{
    join_mut(
        rt,
        &mut ||
            requires { K.takes third.now third_row.now }
        { work(gate, 2, third, third_row) },
        &mut ||
            requires { K.takes fourth.now fourth_row.now }
        { work(gate, 3, fourth, fourth_row) },
    );
}

/// All four lanes, each in a worker of its own.
pub(crate) fn work_four<K: LaneWork, G: Gate, R: Threads + Sync>(
    rt: &R,
    gate: &G,
    first: &mut K,
    second: &mut K,
    third: &mut K,
    fourth: &mut K,
    first_row: &mut [u16],
    second_row: &mut [u16],
    third_row: &mut [u16],
    fourth_row: &mut [u16],
)
    requires first { K.takes first.old first_row.old }
    requires second { K.takes second.old second_row.old }
    requires third { K.takes third.old third_row.old }
    requires fourth { K.takes fourth.old fourth_row.old }
    ensures first { K.does first.old first_row.old first.new first_row.new }
    ensures second { K.does second.old second_row.old second.new second_row.new }
    ensures third { K.does third.old third_row.old third.new third_row.new }
    ensures fourth { K.does fourth.old fourth_row.old fourth.new fourth_row.new }
{
    join_mut(
        rt,
        &mut ||
            requires { IsSync R.row × K.takes first.now first_row.now × K.takes second.now second_row.now }
        { work_first_two(rt, gate, first, second, first_row, second_row) },
        &mut ||
            requires { IsSync R.row × K.takes third.now third_row.now × K.takes fourth.now fourth_row.now }
        { work_last_two(rt, gate, third, fourth, third_row, fourth_row) },
    );
}
