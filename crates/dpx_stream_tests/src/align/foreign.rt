//! Captures that no source of this project sends, beside a plain reading of them.

ghost use Rattle.dpx_code.specs.Disparity.{IsKnown};

use super::{AT_ONCE, BY_AND_BY, Heard, bytes_of, code_lane, hear, link, plain};
use dpx_align::{AlignBad, NoLock};
use dpx_base::{Lanes, Place};
use dpx_code::Rd;
use std::alloc::Global;
use std::process::Abort;
use std::thread::Threads;

const CLOCKS: usize = 64;

const BF: u16 = 0x17c;

const ENHANCED: &[u16] = &[0x11c, BF, BF, 0x11c];

const DEFAULT: &[u16] = &[0x11c];

/// What is wrong with a word.
#[derive(Clone, Copy, Debug, PartialEq, Eq)]
enum Fault {
    Large,
    NoWord,
    OtherColumn,
}

/// A lane of data: the clocks at which groups start, and the clock of its bad word.
#[derive(Clone, Copy, Debug)]
struct Lane {
    groups: &'static [usize],
    bad: Option<(usize, Fault)>,
}

/// A lane without a bad word.
fn good(groups: &'static [usize]) -> Lane {
    Lane { groups, bad: None }
}

fn bad(groups: &'static [usize], clock: usize, fault: Fault) -> Lane {
    Lane {
        groups,
        bad: Some((clock, fault)),
    }
}

const NONE: Lane = Lane {
    groups: &[],
    bad: None,
};

#[derive(Clone, Copy, Debug)]
struct Case {
    enhanced: bool,
    lanes: Lanes,
    rows: [Lane; 4],
}

/// The codes of a lane: data, the groups, and a control symbol where the word is to be of the other column.
fn codes(lane: &Lane, number: u16, group: &[u16]) -> [u16; CLOCKS] {
    let mut row = [0; CLOCKS];
    for (clock, code) in (0u16..64).zip(row.iter_mut()) {
        *code = clock % 16 * 8 + number % 4;
    }
    for start in lane.groups {
        for (code, sym) in row.iter_mut().skip(*start).zip(group.iter()) {
            *code = *sym;
        }
    }
    if let Some((clock, Fault::OtherColumn)) = lane.bad {
        row[clock % CLOCKS] = BF;
    }
    row
}

/// The words of such codes, one of which is bad. The other column turns each bit of that control symbol's word.
fn words(lane: &Lane, row: [u16; CLOCKS], first: Rd) -> [u16; CLOCKS]
    requires { IsKnown first }
{
    let mut words = row;
    code_lane(&mut words, first);
    if let Some((clock, fault)) = lane.bad {
        let clock = clock % CLOCKS;
        words[clock] = match fault {
            Fault::Large => words[clock] | 0x400,
            Fault::NoWord => 0,
            Fault::OtherColumn => words[clock] ^ 0x3ff,
        };
    }
    words
}

fn refusal(lane: u8, clock: usize, fault: Fault, word: u16) -> AlignBad {
    let place = Place {
        clock: clock as u64,
        lane,
    };
    match fault {
        Fault::Large => AlignBad::BadWord { place, value: word },
        Fault::NoWord => AlignBad::NotAWord { place, word },
        Fault::OtherColumn => AlignBad::WrongColumn { place, word },
    }
}

/// The clock of the first bad word, at that clock of the lowest lane, and its refusal.
fn first_bad(case: &Case, words: &[[u16; CLOCKS]; 4]) -> Option<(usize, AlignBad)> {
    let mut first: Option<(usize, AlignBad)> = None;
    for (number, (lane, row)) in (0..case.lanes.count()).zip(case.rows.iter().zip(words.iter())) {
        if let Some((clock, fault)) = lane.bad {
            let sooner = match first {
                Some((before, _)) => clock < before,
                None => true,
            };
            if sooner {
                first = Some((clock, refusal(number, clock, fault, row[clock % CLOCKS])));
            }
        }
    }
    first
}

/// What was heard is what the plain reading of the codes before the first bad word has.
fn is_plain(rt: &impl Abort, heard: &Heard, rows: &[&[u16]], group: &[u16]) {
    let lock = plain::lock(rows, group, CLOCKS);
    let locked = match lock {
        Some(_) => Ok(()),
        None => Err(NoLock {
            clocks: CLOCKS as u64,
        }),
    };
    assert_eq!(rt; heard.lock, locked);
    for number in 0..=heard.sets.len() {
        let set = match lock {
            Some(clock) => plain::set(rows, group, clock, number),
            None => None,
        };
        assert_eq!(rt; heard.sets.get(number).copied(), set, "{number}");
    }
}

fn is_heard<R: Threads + Sync + Abort>(rt: &R, alloc: Global, case: &Case) {
    let group = if case.enhanced { ENHANCED } else { DEFAULT };
    let [a, b, c, d] = &case.rows;
    let rows = [
        codes(a, 0, group),
        codes(b, 1, group),
        codes(c, 2, group),
        codes(d, 3, group),
    ];
    let words = [
        words(a, rows[0], Rd::Minus),
        words(b, rows[1], Rd::Plus),
        words(c, rows[2], Rd::Plus),
        words(d, rows[3], Rd::Minus),
    ];
    let bad = first_bad(case, &words);
    let before = match bad {
        Some((clock, _)) => clock.min(CLOCKS),
        None => CLOCKS,
    };
    let count = usize::from(case.lanes.count());
    let [e, f, g, h] = &rows;
    let plain = [&e[..before], &f[..before], &g[..before], &h[..before]];
    let [k, l, m, n] = &words;
    let all: [&[u16]; 4] = [k, l, m, n];
    let bytes = bytes_of(rt, alloc, &all[..count], CLOCKS);
    for cuts in [BY_AND_BY, AT_ONCE] {
        let heard = hear(
            rt,
            alloc,
            link(case.lanes, case.enhanced),
            bytes.as_slice(),
            cuts,
        );
        assert_eq!(rt; heard.bad, bad.map(|(_, bad)| bad));
        is_plain(rt, &heard, &plain[..count], group);
    }
}

fn two(enhanced: bool, first: Lane, second: Lane) -> Case {
    Case {
        enhanced,
        lanes: Lanes::Two,
        rows: [first, second, NONE, NONE],
    }
}

fn four(enhanced: bool, rows: [Lane; 4]) -> Case {
    Case {
        enhanced,
        lanes: Lanes::Four,
        rows,
    }
}

/// Groups on all lanes, few or far apart; a second one on a lane before another lane's first; and groups on some lanes.
fn groups() -> [Case; 10] {
    [
        four(true, [good(&[5]), good(&[7]), good(&[9]), good(&[11])]),
        four(true, [good(&[30]), good(&[14]), good(&[22]), good(&[29])]),
        four(
            false,
            [good(&[3, 4, 8]), good(&[5]), good(&[2]), good(&[18])],
        ),
        two(true, good(&[3]), good(&[19])),
        two(true, good(&[3]), good(&[20])),
        two(true, good(&[3, 12]), good(&[20])),
        two(true, good(&[3, 9]), good(&[15])),
        two(true, good(&[60]), good(&[61])),
        two(false, good(&[63]), good(&[47])),
        four(true, [good(&[5]), good(&[]), good(&[9]), good(&[11])]),
    ]
}

#[test]
fn groups_lock_where_all_lanes_have_one_near(rt: HostRuntime) {
    for case in &groups() {
        is_heard(&rt, rt.alloc(), case);
    }
}

/// Bad words before the lock, within a group, behind sets, at one clock on two lanes, and sooner on a higher lane.
fn faults() -> [Case; 9] {
    [
        two(
            true,
            bad(&[20], 5, Fault::NoWord),
            bad(&[22], 5, Fault::NoWord),
        ),
        two(true, bad(&[20], 2, Fault::NoWord), good(&[22])),
        two(true, good(&[5]), bad(&[7], 9, Fault::Large)),
        two(true, good(&[5]), bad(&[7], 10, Fault::OtherColumn)),
        two(true, good(&[5]), bad(&[7], 11, Fault::OtherColumn)),
        two(
            false,
            bad(&[5], 40, Fault::OtherColumn),
            bad(&[9], 40, Fault::Large),
        ),
        two(
            true,
            bad(&[5], 41, Fault::NoWord),
            bad(&[9], 40, Fault::OtherColumn),
        ),
        four(
            true,
            [
                good(&[5]),
                bad(&[7], 63, Fault::Large),
                bad(&[9], 50, Fault::NoWord),
                bad(&[11], 50, Fault::Large),
            ],
        ),
        four(
            false,
            [
                good(&[5]),
                bad(&[7], 0, Fault::Large),
                good(&[9]),
                good(&[11]),
            ],
        ),
    ]
}

#[test]
fn sets_end_before_the_first_bad_word(rt: HostRuntime) {
    for case in &faults() {
        is_heard(&rt, rt.alloc(), case);
    }
}
