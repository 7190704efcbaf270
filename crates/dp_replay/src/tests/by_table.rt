//! What the command `send` hands the pipe and writes, beside sets and words computed whole and slowly from the tables
//! of clocks, of packing, of attributes and of the code.

use super::sending::{CALM, Stage, ends};
use dpx_base::{LaneSet, Sym};
use std::alloc::Global;
use std::process::Abort;
use std::test::Fail;
use std::thread::Threads;

mod foreign;
mod sets;
mod shape;
mod words;

use shape::{Plan, Shape};

/// The depths of a component.
const DEPTHS: [u8; 5] = [6, 8, 10, 12, 16];

/// Two frames on one lane. Behind it, the pixel clock at each depth.
const ONE_LANE: (Shape, [u64; 5]) = (
    Shape {
        rate: ("RBR", 0x06, 162_000),
        lanes: 1,
        enhanced: true,
        width: 17,
        height: 2,
        htotal: 30,
        vtotal: 4,
        hsw: 3,
        hstart: 7,
        vsw: 1,
        vstart: 2,
        hsp: true,
        vsp: false,
        clock: 0,
        depth: 0,
        unit: 32,
        frames: 2,
    },
    [52_000, 52_312, 41_999, 29_999, 27_000],
);

/// An odd width on two lanes.
const TWO_LANES: (Shape, [u64; 5]) = (
    Shape {
        rate: ("HBR", 0x0a, 270_000),
        lanes: 2,
        enhanced: true,
        width: 19,
        height: 3,
        htotal: 37,
        vtotal: 5,
        hsw: 5,
        hstart: 11,
        vsw: 2,
        vstart: 2,
        hsp: false,
        vsp: true,
        clock: 0,
        depth: 0,
        unit: 33,
        frames: 2,
    },
    [81_999, 111_000, 82_001, 65_000, 87_654],
);

/// A width of one more than three lanes' on four, and up to two pixels in a clock.
const FOUR_LANES: (Shape, [u64; 5]) = (
    Shape {
        rate: ("HBR2", 0x14, 540_000),
        lanes: 4,
        enhanced: true,
        width: 61,
        height: 2,
        htotal: 150,
        vtotal: 4,
        hsw: 4,
        hstart: 31,
        vsw: 1,
        vstart: 1,
        hsp: true,
        vsp: true,
        clock: 0,
        depth: 0,
        unit: 32,
        frames: 2,
    },
    [918_001, 690_001, 557_999, 447_000, 301_001],
);

/// What each lane carries, clock by clock.
fn all_sets(alloc: Global, plan: &Plan) -> Result<Vec<[u16; 4]>, Fail> {
    let mut sets = Vec::new(alloc);
    for clock in 0..plan.clocks() {
        sets.push(plan.set_at(clock))?;
    }
    Ok(sets)
}

/// The words of a lane: as many fills before its symbols as it lags, and behind them as the last lane lags further.
fn lane_words(
    alloc: Global,
    lanes: usize,
    lane: usize,
    codes: &[[u16; 4]],
) -> Result<Vec<u16>, Fail> {
    let mut row = Vec::new(alloc);
    let before = lane.saturating_mul(2);
    let behind = lanes
        .saturating_mul(2)
        .saturating_sub(2)
        .saturating_sub(before);
    row.resize(before.min(8), 0)?;
    for set in codes {
        row.push(set[lane % 4])?;
    }
    for _ in 0..behind {
        row.push(0)?;
    }
    words::words(alloc, row.as_slice())
}

/// The bytes of a capture.
fn capture(alloc: Global, shape: &Shape, codes: &[[u16; 4]]) -> Result<Vec<u8>, Fail> {
    let lanes = (shape.lanes % 8) as usize;
    let mut rows = Vec::new(alloc);
    for lane in 0..lanes {
        rows.push(lane_words(alloc, lanes, lane, codes)?)?;
    }
    let (_, code, _) = shape.rate;
    let header = [
        0x44,
        0x50,
        0x58,
        0x31,
        lanes as u8,
        code,
        u8::from(shape.enhanced),
        0,
    ];
    let mut bytes = header.to_vec(alloc)?;
    for clock in 0..codes
        .len()
        .saturating_add(lanes.saturating_mul(2))
        .saturating_sub(2)
    {
        for row in rows.iter() {
            let word = row.get(clock).copied().ok_or("a row that is too short")?;
            bytes.push((word / 256) as u8)?;
            bytes.push((word % 256) as u8)?;
        }
    }
    Ok(bytes)
}

fn symbol(code: u16) -> Sym {
    Sym {
        control: code >= 256,
        byte: (code % 256) as u8,
    }
}

/// The pipe was handed these sets.
fn hands(rt: &impl Abort, shape: &Shape, codes: &[[u16; 4]], sets: &[LaneSet]) {
    assert_eq!(rt; sets.len(), codes.len());
    let lanes = shape.lanes.clamp(1, 4) as usize;
    for (clock, (code, set)) in codes.iter().zip(sets).enumerate() {
        let wanted = code.map(symbol);
        assert_eq!(rt;
            *set,
            LaneSet::from_slice(&wanted[..lanes]),
            "clock {clock}"
        );
    }
}

/// These frames are sent as the tables say.
fn is_sent<R: Abort + Threads + Sync>(rt: &R, alloc: Global, shape: &Shape) -> Result<(), Fail> {
    let plan = Plan::of(*shape);
    let job = shape.job(alloc)?;
    let report = plan.report(alloc)?;
    let mut stage = Stage::new(alloc, job.as_str(), shape.pixels(alloc)?, CALM)?;
    ends(rt, alloc, "send a b c", &mut stage, (report.as_str(), 0))?;
    let sets = all_sets(alloc, &plan)?;
    hands(rt, shape, sets.as_slice(), stage.pipe.sets());
    let capture = capture(alloc, shape, sets.as_slice())?;
    assert!(rt; stage.pix.bytes() == capture.as_slice(), "{job}");
    Ok(())
}

/// Both framings, at each depth.
fn are_sent<R: Abort + Threads + Sync>(
    rt: &R,
    alloc: Global,
    (shape, clocks): (Shape, [u64; 5]),
) -> Result<(), Fail> {
    for enhanced in [true, false] {
        for (depth, clock) in DEPTHS.iter().zip(&clocks) {
            let depth = *depth;
            let clock = *clock;
            is_sent(
                rt,
                alloc,
                &Shape {
                    enhanced,
                    depth,
                    clock,
                    ..shape
                },
            )?;
        }
    }
    Ok(())
}

#[test]
fn one_lane_carries_what_the_tables_say(rt: HostRuntime) -> Result<(), Fail> {
    are_sent(&rt, rt.alloc(), ONE_LANE)
}

#[test]
fn two_lanes_carry_what_the_tables_say(rt: HostRuntime) -> Result<(), Fail> {
    are_sent(&rt, rt.alloc(), TWO_LANES)
}

#[test]
fn four_lanes_carry_what_the_tables_say(rt: HostRuntime) -> Result<(), Fail> {
    are_sent(&rt, rt.alloc(), FOUR_LANES)
}
