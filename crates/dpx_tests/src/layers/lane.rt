ghost use Rattle.std.specs.Prelude.{◌<◌, ◌≤◌, length};

use dpx_base::{Gate, LaneSet, Lanes, Memory, NoGate, Sym, Workers};
use dpx_code::{CodeBad, Rd};
use dpx_lane::{LaneFault, LaneRows, LaneRx, LaneTeam, LaneWork, Scrambler, WordBad};
use std::alloc::Global;
use std::process::Abort;
use std::sync::atomic::{AtomicU64, Ordering};
use std::test::Fail;
use std::thread::Threads;

const NIL: Sym = Sym {
    control: false,
    byte: 0,
};

const SR: Sym = Sym {
    control: true,
    byte: 0x1c,
};

const BE: Sym = Sym {
    control: true,
    byte: 0xfb,
};

/// A lane's symbols behind a reset, with the key on them.
fn scrambles(rt: &impl Abort, symbols: &[Sym], bytes: &[u8]) {
    let mut scrambler = Scrambler::new();
    scrambler.next(NIL);
    scrambler.next(SR);
    for (sym, byte) in symbols.iter().zip(bytes.iter()) {
        let keyed = scrambler.next(*sym);
        assert_eq!(rt; (keyed.control, keyed.byte), (sym.control, *byte));
    }
}

#[test]
fn worked_key_bytes_are_these(rt: HostRuntime) {
    let key = [0xff, 0x17, 0xc0, 0x14, 0xb2, 0xe7, 0x02, 0x82];
    scrambles(&rt, &[NIL; 8], &key);
    scrambles(
        &rt,
        &[NIL, NIL, BE, NIL, NIL],
        &[0xff, 0x17, 0xfb, 0x14, 0xb2],
    );
}

/// The key's next byte out of its last sixteen bits, the oldest first, bit by bit.
fn plain_byte(bits: &mut [u8; 16]) -> u8 {
    let mut byte = 0u8;
    for place in 0..8u8 {
        byte |= (bits[0] & 1) << place;
        let next = bits[0] ^ bits[3] ^ bits[4] ^ bits[5];
        bits.rotate_left(1);
        bits[15] = next;
    }
    byte
}

#[test]
fn the_key_follows_its_polynomial(rt: HostRuntime) {
    let mut bits = [1, 1, 1, 1, 1, 1, 1, 1, 1, 1, 1, 0, 1, 0, 0, 0];
    let mut scrambler = Scrambler::new();
    for place in 0..10_000u32 {
        assert_eq!(rt; scrambler.next(NIL).byte, plain_byte(&mut bits), "{place}");
    }
}

/// The fault of a lane that takes words in two rows, cut at a place.
fn fault_of(words: &[u16], cut: usize) -> Option<LaneFault>
    requires few { length words.now ≤ 4 }
    requires cut { cut ≤ length words.now }
{
    let mut row = [0u16; 4];
    row[..words.len()].copy_from_slice(words);
    let mut lane = LaneRx::new();
    lane.run(&mut row[..cut]);
    lane.run(&mut row[cut..words.len()]);
    lane.fault()
}

#[test]
fn a_fault_is_the_first_bad_word_of_all_rows(rt: HostRuntime) {
    let wrong = WordBad::Code(CodeBad::WrongColumn(0x0fa, Rd::Plus));
    let none = WordBad::Code(CodeBad::NotAWord(0x000));
    for cut in 0..=2 {
        let fault = fault_of(&[0x2aa, 0x0fa, 0x0fa], cut);
        assert_eq!(rt;
            fault,
            Some(LaneFault {
                clock: 2,
                why: wrong
            })
        );
        let fault = fault_of(&[0x2aa, 0x000, 0x0fa], cut);
        assert_eq!(rt;
            fault,
            Some(LaneFault {
                clock: 1,
                why: none
            })
        );
    }
    let large = WordBad::Value(1024);
    assert_eq!(rt;
        fault_of(&[0x400], 1),
        Some(LaneFault {
            clock: 0,
            why: large
        })
    );
    assert_eq!(rt; fault_of(&[0x2aa, 0x0fa, 0x305], 1), None);
}

/// The capture words of so many clocks of data 00 on two lanes.
fn sent<R: Threads + Sync>(
    rt: &R,
    alloc: Global,
    workers: Workers,
    gate: &impl Gate,
) -> Result<[u8; 8], Memory> {
    let mut rows = LaneRows::new(alloc, Lanes::Two)?;
    let mut team = LaneTeam::tx(Lanes::Two);
    let set = LaneSet::from_slice(&[NIL, NIL]);
    rows.push_set(&set);
    rows.push_set(&set);
    team.run(rt, &mut rows, workers, gate);
    let mut bytes = [0u8; 8];
    rows.write_words(&mut bytes);
    Ok(bytes)
}

const FIRST_WORDS: [u8; 8] = [0x02, 0xb1, 0x02, 0xb1, 0x03, 0xa4, 0x03, 0xa4];

#[test]
fn a_capture_begins_with_these_words(rt: HostRuntime) -> Result<(), Memory> {
    let alloc = rt.alloc();
    assert_eq!(rt; sent(&rt, alloc, Workers::One, &NoGate)?, FIRST_WORDS);
    assert_eq!(rt; sent(&rt, alloc, Workers::Lanes, &NoGate)?, FIRST_WORDS);
    Ok(())
}

#[test]
fn words_are_read_into_rows_lane_by_lane(rt: HostRuntime) -> Result<(), Memory> {
    let mut rows = LaneRows::new(rt.alloc(), Lanes::Two)?;
    rows.read_words(&[0x02, 0xb1, 0x00, 0xfa, 0x03, 0xa4, 0x01, 0x02]);
    assert_eq!(rt; rows.len(), 2);
    let entries = [(0, 0, 0x2b1), (1, 0, 0x0fa), (0, 1, 0x3a4), (1, 1, 0x102)];
    for (lane, clock, entry) in entries {
        assert_eq!(rt; rows.get(lane, clock), entry);
    }
    rows.clear();
    assert_eq!(rt; rows.len(), 0);
    Ok(())
}

/// Each of two lanes turns until it sees the other.
#[derive(Drop)]
struct Meeting {
    here: [AtomicU64; 2],
    seen: [AtomicU64; 2],
}

impl Gate for Meeting {
    fn arrive(&self, lane: u8) {
        let (mine, other) = if lane == 0 { (0, 1) } else { (1, 0) };
        self.here[mine].store(1, Ordering::SeqCst);
        for _ in 0..100_000_000u64 {
            if self.here[other].load(Ordering::SeqCst) == 1 {
                self.seen[mine].store(1, Ordering::SeqCst);
                return;
            }
        }
    }
}

#[test]
fn two_lanes_meet_at_the_gate(rt: HostRuntime) -> Result<(), Memory> {
    let gate = Meeting {
        here: [AtomicU64::new(0), AtomicU64::new(0)],
        seen: [AtomicU64::new(0), AtomicU64::new(0)],
    };
    let bytes = sent(&rt, rt.alloc(), Workers::Lanes, &gate)?;
    assert_eq!(rt; bytes, FIRST_WORDS);
    let seen = (
        gate.seen[0].load(Ordering::SeqCst),
        gate.seen[1].load(Ordering::SeqCst),
    );
    assert_eq!(rt; seen, (1, 1), "a lane did not see the other");
    Ok(())
}

/// How often each lane came.
#[derive(Drop)]
struct Counter {
    came: [AtomicU64; 4],
}

impl Gate for Counter {
    fn arrive(&self, lane: u8) {
        if lane < 4 {
            let came = &self.came[usize::from(lane)];
            came.store(
                came.load(Ordering::SeqCst).saturating_add(1),
                Ordering::SeqCst,
            );
        }
    }
}

/// How often each lane came to the gate in a run of four lanes.
fn comings<R: Threads + Sync>(rt: &R, alloc: Global, workers: Workers) -> Result<[u64; 4], Memory> {
    let gate = Counter {
        came: [
            AtomicU64::new(0),
            AtomicU64::new(0),
            AtomicU64::new(0),
            AtomicU64::new(0),
        ],
    };
    let mut team = LaneTeam::rx(Lanes::Four);
    let mut rows = LaneRows::new(alloc, Lanes::Four)?;
    team.run(rt, &mut rows, workers, &gate);
    let [first, second, third, fourth] = &gate.came;
    Ok([
        first.load(Ordering::SeqCst),
        second.load(Ordering::SeqCst),
        third.load(Ordering::SeqCst),
        fourth.load(Ordering::SeqCst),
    ])
}

#[test]
fn each_lane_comes_to_the_gate_once_a_row(rt: HostRuntime) -> Result<(), Memory> {
    assert_eq!(rt; comings(&rt, rt.alloc(), Workers::One)?, [1; 4]);
    assert_eq!(rt; comings(&rt, rt.alloc(), Workers::Lanes)?, [1; 4]);
    Ok(())
}
