ghost use Rattle.std.specs.Prelude.{◌≡◌};

use dpx_aux::{AuxEnd, LastAnswer};
use dpx_base::{Answer, AuxPort, Bytes20, Lanes, Link, Rate};
use dpx_dpcd::{Drive, Pattern, Status6};
use dpx_phase::{FailCause, PhaseEnd, equalise, recover};
use std::process::Abort;

/// Gives its statuses to the reads of 00202 in their order, and is silent after them. It acknowledges all
/// else, and keeps the bytes that were written at 00102, and those at 00103.
#[derive(Drop)]
struct Script {
    statuses: [u64; 10],
    count: usize,
    read: usize,
    start: Kept,
    drives: Kept,
    asked: u64,
    waited: u32,
}

#[derive(Drop)]
struct Kept {
    bytes: [u8; 40],
    count: usize,
}

impl Kept {
    fn new() -> Kept {
        Kept {
            bytes: [0; 40],
            count: 0,
        }
    }

    fn push(&mut self, more: &[u8]) {
        for byte in more {
            if let Some(place) = self.bytes.get_mut(self.count) {
                *place = *byte;
                self.count += 1;
            }
        }
    }

    fn are(&self, bytes: &[u8]) -> bool {
        self.bytes.get(..self.count) == Some(bytes)
    }
}

impl AuxPort for Script {
    ghost use Rattle.std.specs.Prelude.{None};

    type Plan = ();

    ghost state = { λ p. record { asked = p.asked; history = None; plan = None; room = 0; asked_in_all = p.asked } };

    fn ask(&mut self, request: &[u8]) -> Answer {
        self.asked += 1;
        match request {
            [0x90, 0x02, 0x02, 0x05] => return self.next(),
            [0x80, 0x01, 0x02, _, bytes @ ..] => self.start.push(bytes),
            [0x80, 0x01, 0x03, _, bytes @ ..] => self.drives.push(bytes),
            _ => {}
        }
        Answer::Bytes(Bytes20::from_slice(&[0x00]))
    }

    fn wait(&mut self, micros: u32) {
        self.waited = micros;
    }

    fn asked(&self) -> u64 {
        self.asked
    }
}

impl Script {
    /// At most ten statuses.
    fn new(statuses: &[u64]) -> Script
        ensures { result.asked ≡ 0 }
    {
        let mut all = [0; 10];
        for place in 0..statuses.len().min(10) {
            all[place] = statuses[place];
        }
        Script {
            statuses: all,
            count: statuses.len(),
            read: 0,
            start: Kept::new(),
            drives: Kept::new(),
            asked: 0,
            waited: 0,
        }
    }

    fn next(&mut self) -> Answer
        ensures { self.new.asked ≡ self.old.asked }
    {
        if self.read >= self.count || self.read >= 10 {
            return Answer::Silent;
        }
        let [a, b, c, d, e, f] = status(self.statuses[self.read]).bytes;
        self.read += 1;
        Answer::Bytes(Bytes20::from_slice(&[0x00, a, b, c, d, e, f]))
    }
}

fn link(lanes: Lanes) -> Link {
    Link {
        rate: Rate::Hbr,
        lanes,
        enhanced: true,
    }
}

/// Six status bytes, the first one highest.
fn status(bytes: u64) -> Status6 {
    let [_, _, a, b, c, d, e, f] = bytes.to_be_bytes();
    Status6 {
        bytes: [a, b, c, d, e, f],
    }
}

fn failed(last: u64, cause: FailCause) -> PhaseEnd {
    PhaseEnd::Failed {
        last: status(last),
        cause,
    }
}

/// Done, with the registers of this drive, lane 0 highest.
fn done(drive: u32, last: u64) -> PhaseEnd {
    PhaseEnd::Done {
        drive: Drive {
            registers: drive.to_be_bytes(),
        },
        last: status(last),
    }
}

fn lost(last: u64) -> PhaseEnd {
    PhaseEnd::Lost { last: status(last) }
}

/// Recovery reads these statuses, ends so, and has written these drives.
fn recovers(rt: &impl Abort, lanes: Lanes, statuses: &[u64], end: PhaseEnd, drives: &[u8]) {
    let mut port = Script::new(statuses);
    assert_eq!(rt; recover(&mut port, link(lanes)), end, "{statuses:?}");
    assert!(rt; port.drives.are(drives), "{statuses:?}");
    let start = [0x21, 0, 0, 0, 0];
    assert!(rt; port.start.are(&start[..1 + usize::from(lanes.count())]));
    assert_eq!(rt; (port.read, port.waited), (statuses.len(), 100));
}

/// Equalisation with TPS2 and the drive 00 01 02 27 does.
fn equalises(rt: &impl Abort, lanes: Lanes, statuses: &[u64], end: PhaseEnd, drives: &[u8]) {
    let mut port = Script::new(statuses);
    let drive = Drive {
        registers: [0x00, 0x01, 0x02, 0x27],
    };
    let ended = equalise(&mut port, link(lanes), Pattern::Tps2, drive, 0);
    assert_eq!(rt; ended, end, "{statuses:?}");
    assert!(rt; port.drives.are(drives), "{statuses:?}");
    let start = [0x22, 0x00, 0x01, 0x02, 0x27];
    assert!(rt; port.start.are(&start[..1 + usize::from(lanes.count())]));
    assert_eq!(rt; (port.read, port.waited), (statuses.len(), 400));
}

fn one(rt: &impl Abort, statuses: &[u64], end: PhaseEnd, drives: &[u8]) {
    recovers(rt, Lanes::One, statuses, end, drives);
}

fn two(rt: &impl Abort, statuses: &[u64], end: PhaseEnd, drives: &[u8]) {
    recovers(rt, Lanes::Two, statuses, end, drives);
}

/// One lane has recovered its clock, or it asks for swing 1, 2 or 3.
const UP: u64 = 0x0100_0000_0000;

const LOW: u64 = 0x0100;

const MIDDLE: u64 = 0x0200;

const FULL: u64 = 0x0300;

#[test]
fn recovery_of_one_lane_ends_by_the_first_condition_that_holds(rt: HostRuntime) {
    let same = FailCause::SameSwing;
    let full = FailCause::MaxSwing;
    one(&rt, &[UP], done(0, UP), &[]);
    one(&rt, &[0; 5], failed(0, same), &[0, 0, 0, 0]);
    one(&rt, &[FULL, 0], failed(0, full), &[0x27]);
    // the clocks are looked at before the swing
    one(&rt, &[FULL, UP], done(0x2700_0000, UP), &[0x27]);
    // swing 2 leaves room for emphasis 1 alone, swing 1 for 2
    one(&rt, &[0x0A00, UP], done(0x2A00_0000, UP), &[0x2A]);
    one(&rt, &[0x0D00, UP], done(0x3100_0000, UP), &[0x31]);
    // emphasis counts for nothing
    let emphasis = [0x0400, 0x0800, 0x0C00, 0, 0];
    one(&rt, &emphasis, failed(0, same), &[0x08, 0x10, 0x38, 0]);
    // the drive at the start has another swing
    one(&rt, &[LOW; 6], failed(LOW, same), &[1, 1, 1, 1, 1]);
    let turns = [LOW, MIDDLE, LOW, MIDDLE, LOW, MIDDLE, LOW, MIDDLE, LOW, LOW];
    let drives = [1, 2, 1, 2, 1, 2, 1, 2, 1];
    one(&rt, &turns, failed(LOW, FailCause::Reads), &drives);
    // of two causes at the tenth status the first
    let turns = [LOW, MIDDLE, LOW, MIDDLE, LOW, MIDDLE, LOW, MIDDLE, FULL, 0];
    let drives = [1, 2, 1, 2, 1, 2, 1, 2, 0x27];
    one(&rt, &turns, failed(0, full), &drives);
    // lanes that are not in use say nothing
    let others = 0x1011_0000_F0FF;
    one(&rt, &[others; 5], failed(others, same), &[0, 0, 0, 0]);
}

#[test]
fn recovery_of_more_lanes_looks_at_each_lane(rt: HostRuntime) {
    let both = 0x1100_0000_0000;
    two(&rt, &[both], done(0, both), &[]);
    let drive = 0x2701_0000;
    two(
        &rt,
        &[0x0100_0000_1300, both],
        done(drive, both),
        &[0x27, 1],
    );
    let full = FailCause::MaxSwing;
    two(&rt, &[0x3300, UP], failed(UP, full), &[0x27, 0x27]);
    let turns = [0x0000, 0x1000, 0x2000, 0x1000, 0x2000, both];
    let drives = [0, 0, 0, 1, 0, 2, 0, 1, 0, 2];
    two(&rt, &turns, done(0x0002_0000, both), &drives);
    let all = 0x1111_0000_0000;
    let statuses = [0x1101_0000_1032, all];
    let end = done(0x0001_0227, all);
    recovers(&rt, Lanes::Four, &statuses, end, &[0, 1, 2, 0x27]);
}

#[test]
fn equalisation_ends_by_the_first_condition_that_holds(rt: HostRuntime) {
    let first = done(0x0001_0227, 0x0700_0100_0A00);
    equalises(&rt, Lanes::One, &[0x0700_0100_0A00], first, &[]);
    let first = done(0x0001_0227, 0x7777_8100_0000);
    equalises(&rt, Lanes::Four, &[0x7777_8100_0000], first, &[]);
    // the drive in force, not the one that is asked for last
    let statuses = [0x1100_0000_2200, 0x7700_0100_1100];
    let second = done(0x0202_0000, 0x7700_0100_1100);
    equalises(&rt, Lanes::Two, &statuses, second, &[2, 2]);
    // lanes without alignment, alignment without lanes
    for status in [0x7700_0000_0000, 0x1700_0100_0000] {
        let end = failed(status, FailCause::Reads);
        equalises(&rt, Lanes::Two, &[status; 5], end, &[0; 8]);
    }
    // a lane in use that has lost its clock
    let statuses = [0x1100_0000_0000, 0x0100_0100_0000];
    equalises(&rt, Lanes::Two, &statuses, lost(0x0100_0100_0000), &[0, 0]);
    let last = 0x7767_0100_0000;
    equalises(&rt, Lanes::Four, &[last], lost(last), &[]);
}

#[test]
fn equalisation_waits_as_the_interval_says(rt: HostRuntime) {
    for (interval, micros) in [(0, 400), (1, 4000), (4, 16000), (5, 16000), (127, 16000)] {
        let mut port = Script::new(&[0]);
        let drive = Drive { registers: [0; 4] };
        let end = equalise(&mut port, link(Lanes::One), Pattern::Tps4, drive, interval);
        assert_eq!(rt; end, lost(0));
        assert_eq!(rt; port.waited, micros, "at {interval}");
        assert!(rt; port.start.are(&[0x07, 0]));
    }
}

#[test]
fn a_port_that_falls_silent_ends_each_phase(rt: HostRuntime) {
    let spent = PhaseEnd::Aux(AuxEnd::Spent {
        address: 0x0_0202,
        last: LastAnswer::Silent,
    });
    one(&rt, &[LOW], spent, &[1]);
    equalises(&rt, Lanes::One, &[], spent, &[]);
}
