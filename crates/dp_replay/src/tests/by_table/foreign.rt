//! What the command `recv` says of sets that no source sends, coded as the tables say.

use super::super::receiving::{CLEAR, EIGHT, hear, report};
use super::sets::{BE, BF, BS, FS, SE, SR, SS};
use super::shape::{Plan, Shape};
use super::{ONE_LANE, TWO_LANES, all_sets, capture};
use std::alloc::{AllocError, Global};
use std::process::Abort;
use std::test::Fail;
use std::thread::Threads;

/// Two frames of 16 × 2 pixels of 8 bits, on two lanes.
const SMALL: Shape = Shape {
    rate: ("RBR", 0x06, 162_000),
    lanes: 2,
    enhanced: true,
    width: 16,
    height: 2,
    htotal: 28,
    vtotal: 4,
    hsw: 4,
    hstart: 8,
    vsw: 1,
    vstart: 2,
    hsp: false,
    vsp: false,
    clock: 54_000,
    depth: 8,
    unit: 32,
    frames: 2,
};

/// The clock of its first header, which is set 0 of what is received.
const FIRST_SET: usize = 101;

/// Why a test ends that changes a set where there is none.
const SHORT: &str = "there are fewer sets";

/// What is printed, the status, and how many pixels are written.
type Wanted<'a> = (&'a str, u8, usize);

/// The command ends so on the capture of these sets.
fn says<R: Abort + Threads + Sync>(
    rt: &R,
    alloc: Global,
    shape: &Shape,
    sets: &[[u16; 4]],
    wanted: Wanted,
) -> Result<(), Fail> {
    let bytes = capture(alloc, shape, sets)?;
    let heard = hear(rt, alloc, "recv a b", bytes.as_slice(), CLEAR)?;
    let pixels = heard.records.len() / 6;
    assert_eq!(rt; (heard.printed.as_str(), heard.status, pixels), wanted);
    Ok(())
}

/// The same symbol on each lane, set by set.
fn on_each(alloc: Global, pieces: &[&[u16]]) -> Result<Vec<[u16; 4]>, AllocError> {
    let mut sets = Vec::new(alloc);
    for piece in pieces {
        for code in *piece {
            sets.push([*code; 4])?;
        }
    }
    Ok(sets)
}

const CP: u16 = 0x13c;

/// The first group and a block of zeros, on one lane.
const START: &[u16] = &[SR, BF, BF, SR, 0, 0, 0, 0, 0, 0, 0, 0, 0, 0, 0, 0];

const ZEROS: &[u16] = &[0; 36];

/// Sets on one lane, and what is said of them.
const BROKEN: [(&[&[u16]], &str); 8] = [
    (&[START, &[FS]], "set 16 control\n"),
    (&[START, &[SS, SS], &[0; 35], &[SE]], "set 53 control\n"),
    (
        &[START, &[SS, SS], ZEROS, &[SE]],
        "set 54 attributes width 0\n",
    ),
    (&[START, &[BS, BF, BF, SR]], "set 19 group\n"),
    (
        &[&[SR, BF, BF, SR, 0x10, 0, 0, 0x11]],
        "set 7 vbid differs\n",
    ),
    (&[START, &[BS, BF, BF, BS, 4]], "set 20 interlaced\n"),
    (&[START, &[SS, SE]], "set 17 control\n"),
    (&[START, &[BS, CP]], "set 17 protected\n"),
];

#[test]
fn sets_that_may_not_stand_are_named(rt: HostRuntime) -> Result<(), Fail> {
    let (lane, _) = ONE_LANE;
    for (pieces, report) in BROKEN {
        let sets = on_each(rt.alloc(), pieces)?;
        says(&rt, rt.alloc(), &lane, sets.as_slice(), (report, 6, 0))?;
    }
    // an active part before the first attributes
    let sets = on_each(rt.alloc(), &[START, &[BE, BS, BF, BF, BS], &[0; 12]])?;
    let wanted = ("received frames 0 lines 0 tail 0\n", 0, 0);
    says(&rt, rt.alloc(), &lane, sets.as_slice(), wanted)?;
    let (lanes, _) = TWO_LANES;
    let mut sets = on_each(rt.alloc(), &[&[SR, BF, BF, SR], &[0; 6]])?;
    sets.push([0, BS, 0, 0])?;
    let wanted = ("set 10 mixed\n", 6, 0);
    says(&rt, rt.alloc(), &lanes, sets.as_slice(), wanted)
}

/// The four columns of 16 × 1 pixels of 6 bits, as one lane carries them.
const COLUMNS: [u16; 36] = [
    0, 0, 0, 0, 0, 0, 0, 0, 0, 0, 0, 0, 0, 0, 0, 0, 0, 0, 0, 0, 0, 0, 16, 0, 1, 0, 0, 0, 0, 0, 0,
    0, 1, 1, 0, 0,
];

/// A byte of the columns, what stands there instead, and what is said of it.
const REFUSED: [(usize, u16, &str); 6] = [
    (33, 0x03, "set 54 attributes colour 03\n"),
    (33, 0xa1, "set 54 attributes depth A1\n"),
    (34, 0x80, "set 54 attributes misc1 80\n"),
    (22, 15, "set 54 attributes width 15\n"),
    (24, 0, "set 54 attributes height 0\n"),
    (32, 0, "set 54 attributes nvid\n"),
];

#[test]
fn attributes_that_are_refused_are_named(rt: HostRuntime) -> Result<(), Fail> {
    let (lane, _) = ONE_LANE;
    for (place, byte, report) in REFUSED {
        let mut columns = COLUMNS;
        columns[place % 36] = byte;
        let sets = on_each(rt.alloc(), &[START, &[SS, SS], &columns, &[SE]])?;
        says(&rt, rt.alloc(), &lane, sets.as_slice(), (report, 6, 0))?;
    }
    Ok(())
}

/// A byte of the second frame's attributes: its set and lane, and what stands there instead; how that is told; and what
/// is said in the end.
type Other = ((usize, usize, u16), &'static str, Wanted<'static>);

const OTHERS: [Other; 5] = [
    (
        (350, 0, 0xf1),
        "width 16 height 2 total 28 4 start 8 2 sync 4 1 polarity 0 0 mvid 54001 nvid 162000 misc0 21 depth 8",
        ("received frames 2 lines 4 tail 0", 0, 64),
    ),
    // a line of 17 pixels has 27 symbols on a lane
    (
        (361, 0, 17),
        "width 17 height 2 total 28 4 start 8 2 sync 4 1 polarity 0 0 mvid 54000 nvid 162000 misc0 21 depth 8",
        ("set 504 line short 24 want 27", 6, 32),
    ),
    // at 6 bits it has 18: the next one is the third of the second unit
    (
        (363, 1, 0x01),
        "width 16 height 2 total 28 4 start 8 2 sync 4 1 polarity 0 0 mvid 54000 nvid 162000 misc0 01 depth 6",
        ("set 498 line long", 6, 32),
    ),
    (
        (363, 0, 1),
        "width 16 height 1 total 28 4 start 8 2 sync 4 1 polarity 0 0 mvid 54000 nvid 162000 misc0 21 depth 8",
        ("set 547 frame long", 6, 48),
    ),
    (
        (363, 0, 3),
        "width 16 height 3 total 28 4 start 8 2 sync 4 1 polarity 0 0 mvid 54000 nvid 162000 misc0 21 depth 8",
        ("received frames 1 lines 4 tail 0", 0, 64),
    ),
];

#[test]
fn attributes_are_in_force_for_their_own_frame(rt: HostRuntime) -> Result<(), Fail> {
    for ((set, lane, byte), told, (last, status, pixels)) in OTHERS {
        let mut sets = all_sets(rt.alloc(), &Plan::of(SMALL))?;
        let changed = sets.get_mut(FIRST_SET + set).ok_or(SHORT)?;
        changed[lane % 4] = byte;
        let second = format!(in rt.alloc(); "attributes {told}\n{last}\n")?;
        let printed = report(rt.alloc(), 1, EIGHT, second.as_str())?;
        let wanted = (printed.as_str(), status, pixels);
        says(&rt, rt.alloc(), &SMALL, sets.as_slice(), wanted)?;
    }
    Ok(())
}

/// How many sets are taken out from one on, and what stands there instead.
type Cut = (usize, usize, &'static [u16]);

/// Sets that are changed, and what is said behind the first frame's attributes.
const CUTS: [(Cut, Wanted<'static>); 4] = [
    ((167, 1, &[]), ("set 167 line short 23 want 24\n", 6, 0)),
    ((168, 0, &[0]), ("set 168 line long\n", 6, 0)),
    (
        (211, 41, &[0; 41]),
        ("set 366 frame short 1 want 2\n", 6, 16),
    ),
    ((346, 21, &[]), ("set 442 frame long\n", 6, 32)),
];

/// The sets with so many of them replaced, from a set of what is received on.
fn replaced(
    alloc: Global,
    sets: &[[u16; 4]],
    (from, count, codes): Cut,
) -> Result<Vec<[u16; 4]>, Fail> {
    let from = FIRST_SET.saturating_add(from);
    let behind = from.saturating_add(count);
    let mut changed = sets.get(..from).ok_or(SHORT)?.to_vec(alloc)?;
    for code in codes {
        changed.push([*code; 4])?;
    }
    changed.extend_from_slice(sets.get(behind..).ok_or(SHORT)?)?;
    Ok(changed)
}

#[test]
fn lines_and_frames_of_other_lengths_are_named(rt: HostRuntime) -> Result<(), Fail> {
    let sets = all_sets(rt.alloc(), &Plan::of(SMALL))?;
    for (cut, (last, status, pixels)) in CUTS {
        let changed = replaced(rt.alloc(), sets.as_slice(), cut)?;
        let printed = report(rt.alloc(), 1, EIGHT, last)?;
        let wanted = (printed.as_str(), status, pixels);
        says(&rt, rt.alloc(), &SMALL, changed.as_slice(), wanted)?;
    }
    Ok(())
}
