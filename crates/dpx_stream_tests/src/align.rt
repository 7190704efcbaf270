//! Lock, deskew and the first word fault.

ghost use Rattle.std.specs.Prelude.{◌≡◌, ◌≤◌, ◌<◌, ◌+◌, ◌*◌, ℕ, List, length, true, false};
ghost use Rattle.dpx_align.specs.Aligner.{CanFeed, clocks_fed, lanes_of};
ghost use Rattle.dpx_align.specs.declared.step.Step.TheVariants.{Set, Hungry};
ghost use Rattle.dpx_base.specs.Code.{IsSymbol};
ghost use Rattle.dpx_base.specs.Lanes.{lanes_count};
ghost use Rattle.dpx_base.specs.Symbols.{control_symbol};
ghost use Rattle.dpx_base.specs.declared.sym.Sym.{Sym};
ghost use Rattle.dpx_code.specs.Disparity.{IsKnown};

use crate::parse::sent::sent;
use dpx_align::{AlignBad, Aligner, NoLock, Step};
use dpx_base::{LaneSet, Lanes, Link, NoGate, Place, Rate, Sym, Workers};
use dpx_code::{Rd, encode};
use dpx_lane::{LaneRows, Scrambler, code_of};
use std::alloc::Global;
use std::process::Abort;
use std::thread::Threads;

mod foreign;
mod plain;

fn control(byte: u8) -> Sym
    requires { IsSymbol (control_symbol byte) }
    ensures { IsSymbol result }
{
    Sym {
        control: true,
        byte,
    }
}

/// A symbol of a code: the byte, and 256 more for one of the control symbols that stand here.
#[tactic(auto, unfolding(dpx_base::specs::Code::is_control, dpx_base::specs::Code::is_among, dpx_base::specs::Code::control_words))]
fn symbol(code: u16) -> Sym
    ensures { IsSymbol result }
{
    match code {
        0x11c => control(0x1c),
        0x15c => control(0x5c),
        0x17c => control(0x7c),
        0x1bc => control(0xbc),
        0x1f7 => control(0xf7),
        0x1fb => control(0xfb),
        0x1fd => control(0xfd),
        0x1fe => control(0xfe),
        _ => Sym::data((code % 256) as u8),
    }
}

/// The symbol with the key on it.
fn keyed(scrambler: &mut Scrambler, sym: Sym) -> Sym
    requires { IsSymbol sym }
    ensures { IsSymbol result }
{
    scrambler.next(sym)
}

/// A lane's codes become its words.
fn code_lane(row: &mut [u16], first: Rd)
    requires { IsKnown first }
{
    let mut scrambler = Scrambler::new();
    let mut rd = first;
    for entry in row.iter_mut() {
        let (word, next) = encode(keyed(&mut scrambler, symbol(*entry)), rd);
        *entry = word;
        rd = next;
    }
}

/// The bytes of so many clocks of the lanes' words: clock by clock, and lane by lane within a clock.
fn bytes_of(rt: &impl Abort, alloc: Global, words: &[&[u16]], clocks: usize) -> Vec<u8> {
    let mut bytes = Vec::new(alloc);
    for clock in 0..clocks {
        for row in words {
            for byte in row.get(clock).copied().unwrap_or(0).to_be_bytes() {
                bytes.push(byte).expect(rt, "memory");
            }
        }
    }
    bytes
}

/// What is received of a capture's words: the sets' codes, the first word fault, and whether there is a lock.
#[derive(Debug, Drop)]
struct Heard {
    sets: Vec<[u16; 4]>,
    bad: Option<AlignBad>,
    lock: Result<(), NoLock>,
}

fn codes(set: &LaneSet) -> [u16; 4] {
    let mut codes = [0; 4];
    for (code, sym) in codes.iter_mut().zip(set.as_slice().iter()) {
        *code = code_of(*sym);
    }
    codes
}

/// Keeps the codes of a step's set; whether it has one.
fn keep(rt: &impl Abort, sets: &mut Vec<[u16; 4]>, step: Step) -> bool
    ensures set { result ≡ true → (number : ℕ) × (set : List Sym) × (step ≡ Set number set) }
    ensures hungry { result ≡ false → step ≡ Hungry }
{
    match step {
        Step::Set { number, set } => {
            assert_eq!(rt; number, sets.len() as u64);
            sets.push(codes(&set)).expect(rt, "memory");
            true
        }
        Step::Hungry => false,
    }
}

/// Takes all sets that are complete; the fault that follows them, if there is one.
fn take_sets(rt: &impl Abort, aligner: &mut Aligner, sets: &mut Vec<[u16; 4]>) -> Option<AlignBad>
    ensures feeds { CanFeed aligner.new }
    ensures clocks { clocks_fed aligner.new ≡ clocks_fed aligner.old }
    ensures lanes { lanes_of aligner.new ≡ lanes_of aligner.old }
{
    loop {
        match aligner.step() {
            Ok(step) => {
                if !keep(rt, sets, step) {
                    return None;
                }
            }
            Err(bad) => return Some(bad),
        }
    }
}

/// The rows of some clocks.
fn read(rows: &mut LaneRows, bytes: &[u8], from: usize, count: usize)
    requires few { count ≤ 8192 }
    requires within { 2 * lanes_count rows.old.lanes * (from + count) ≤ length bytes.now }
    ensures clocks { rows.new.clocks ≡ count }
    ensures lanes { rows.new.lanes ≡ rows.old.lanes }
{
    let size = 2 * usize::from(rows.lanes().count());
    rows.read_words(&bytes[size * from..size * (from + count)]);
}

/// How many clocks the first rows have. Each further row has as many as the two before it.
const BY_AND_BY: [usize; 2] = [1, 2];

const AT_ONCE: [usize; 2] = [8192, 8192];

/// What an aligner hears of these bytes, which are fed in rows of so many clocks.
fn hear<R: Threads + Sync + Abort>(
    rt: &R,
    alloc: Global,
    link: Link,
    bytes: &[u8],
    cuts: [usize; 2],
) -> Heard {
    let mut aligner = Aligner::new(alloc, link).expect(rt, "memory");
    let mut rows = LaneRows::new(alloc, link.lanes).expect(rt, "memory");
    let mut sets = Vec::new(alloc);
    let mut bad = None;
    let clocks = (bytes.len() / (2 * usize::from(link.lanes.count()))).min(100_000);
    let [mut count, mut next] = cuts;
    let mut fed = 0;
    while fed < clocks {
        let some = count.clamp(1, 8192).min(clocks - fed);
        read(&mut rows, bytes, fed, some);
        aligner.feed(rt, &mut rows, Workers::Lanes, &NoGate);
        bad = take_sets(rt, &mut aligner, &mut sets);
        fed += some;
        (count, next) = (next, count.saturating_add(next));
    }
    let lock = aligner.finish();
    Heard { sets, bad, lock }
}

fn link(lanes: Lanes, enhanced: bool) -> Link {
    Link {
        rate: Rate::Rbr,
        lanes,
        enhanced,
    }
}

/// The words of one lane have this first fault.
fn is_refused<R: Threads + Sync + Abort>(rt: &R, alloc: Global, words: &[u16], bad: AlignBad) {
    let bytes = bytes_of(rt, alloc, &[words], words.len());
    for cuts in [BY_AND_BY, AT_ONCE] {
        let heard = hear(rt, alloc, link(Lanes::One, true), bytes.as_slice(), cuts);
        assert_eq!(rt; heard.bad, Some(bad));
    }
}

#[test]
fn words_of_one_lane_are_refused(rt: HostRuntime) {
    let at = |clock| Place { clock, lane: 0 };
    let wrong = AlignBad::WrongColumn {
        place: at(2),
        word: 0x0fa,
    };
    is_refused(&rt, rt.alloc(), &[0x2aa, 0x0fa, 0x0fa], wrong);
    let none = AlignBad::NotAWord {
        place: at(1),
        word: 0x000,
    };
    is_refused(&rt, rt.alloc(), &[0x2aa, 0x000], none);
    let large = AlignBad::BadWord {
        place: at(0),
        value: 1024,
    };
    is_refused(&rt, rt.alloc(), &[0x400], large);
}

/// The codes of a lane of two frames on two lanes: 101 clocks of zeros, the sets from the first SR on, and as many
/// fills in all as the second lane lags.
fn two_frames(lane: u8) -> [u16; 701] {
    let mut row = [0; 701];
    let begin = 101 + 2 * u64::from(lane % 2);
    for (clock, code) in (0u64..701).zip(row.iter_mut()) {
        if begin <= clock && clock < begin + 598 {
            *code = sent(clock - begin)[usize::from(lane % 2)];
        }
    }
    row
}

/// What is heard of the two frames without their first clocks.
fn hear_behind<R: Threads + Sync + Abort>(
    rt: &R,
    alloc: Global,
    enhanced: bool,
    skipped: usize,
    cuts: [usize; 2],
) -> Heard
    requires { skipped ≤ 701 }
{
    let mut first = two_frames(0);
    let mut second = two_frames(1);
    code_lane(&mut first, Rd::Minus);
    code_lane(&mut second, Rd::Minus);
    let bytes = bytes_of(
        rt,
        alloc,
        &[&first[skipped..], &second[skipped..]],
        701 - skipped,
    );
    hear(
        rt,
        alloc,
        link(Lanes::Two, enhanced),
        bytes.as_slice(),
        cuts,
    )
}

/// Without so many clocks all sets of the two frames are heard.
fn all_are_heard<R: Threads + Sync + Abort>(rt: &R, alloc: Global, skipped: usize, cuts: [usize; 2])
    requires { skipped ≤ 701 }
{
    let heard = hear_behind(rt, alloc, true, skipped, cuts);
    assert_eq!(rt;
        (heard.bad, heard.lock, heard.sets.len()),
        (None, Ok(()), 598)
    );
    for (number, set) in (0u64..598).zip(heard.sets.iter()) {
        let [first, second] = sent(number);
        assert_eq!(rt; *set, [first, second, 0, 0], "{number}");
    }
}

#[test]
fn two_frames_lock_while_their_first_group_is_whole(rt: HostRuntime) {
    for skipped in [0, 100, 101] {
        all_are_heard(&rt, rt.alloc(), skipped, AT_ONCE);
        all_are_heard(&rt, rt.alloc(), skipped, BY_AND_BY);
    }
    let heard = hear_behind(&rt, rt.alloc(), true, 102, BY_AND_BY);
    let lock = Err(NoLock { clocks: 599 });
    assert_eq!(rt; (heard.bad, heard.lock, heard.sets.len()), (None, lock, 0));
}

#[test]
fn default_framing_locks_at_any_sr(rt: HostRuntime) {
    let heard = hear_behind(&rt, rt.alloc(), false, 0, AT_ONCE);
    assert_eq!(rt; heard.sets.get(1).copied(), Some([0x17c, 0x17c, 0, 0]));
    let heard = hear_behind(&rt, rt.alloc(), false, 102, BY_AND_BY);
    assert_eq!(rt; heard.sets.first().copied(), Some([0x11c, 0x11c, 0, 0]));
    assert_eq!(rt; heard.sets.get(1).copied(), Some([0x011, 0x17c, 0, 0]));
}
