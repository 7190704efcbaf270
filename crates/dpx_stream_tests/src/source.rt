//! The ticker, clock by clock beside a display engine.

ghost use Rattle.std.specs.Prelude.{◌≡◌, ◌≤◌, ◌<◌, ◌+◌, ◌^◌, OnSome, IfNone, length, None, false};
ghost use Rattle.dpx_source.specs.Ticker.{shown};

use crate::frame::two_frames;
use dpx_base::{Arrivals, Beam, LaneSet, Pixel, Sym};
use dpx_source::Ticker;
use dpx_timing::Plan;
use std::alloc::Global;
use std::process::Abort;

/// Pixel 5 has the red byte 5, the green byte 69 and the blue byte 133.
fn pixel(number: u16) -> Pixel
    requires { number < 60000 }
{
    Pixel {
        r: number,
        g: number + 64,
        b: number + 128,
    }
}

/// So many pixels from this number on.
fn pixels(from: u16, count: u8) -> Arrivals
    requires few { count ≤ 2 }
    requires small { from < 50000 }
    ensures { length result ≡ count }
{
    match count {
        0 => Arrivals::from_slice(&[]),
        1 => Arrivals::from_slice(&[pixel(from)]),
        _ => Arrivals::from_slice(&[pixel(from), pixel(from + 1)]),
    }
}

/// The set of a clock, whose pixels then arrive: as many as the engine has ticks, from `next` on.
fn tick(rt: &impl Abort, ticker: &mut Ticker, beam: &mut Beam, next: &mut u16) -> Option<LaneSet>
    requires given { ticker.old.given ≡ false }
    requires calm { ticker.old.refusal ≡ None }
    requires beside { beam.old ≡ record { shown = shown ticker.old.plan; clock = ticker.old.clock } }
    requires early { beam.old.clock < 2 ^ 62 }
    requires small { next.old < 50000 }
    ensures given { OnSome result (ticker.new.given ≡ false) }
    ensures calm { OnSome result (ticker.new.refusal ≡ None) }
    ensures beside { OnSome result (beam.new ≡ record { shown = shown ticker.new.plan; clock = ticker.new.clock }) }
    ensures clock { OnSome result (beam.new.clock ≡ beam.old.clock + 1) }
    ensures next { OnSome result (next.new ≤ next.old + 2) }
{
    let set = ticker.emit()?;
    let count = beam.next();
    let taken = ticker.absorb(&pixels(*next, count));
    assert!(rt; taken.is_ok(), "a pixel in range");
    *next += u16::from(count);
    Some(set)
}

/// The set of a clock of some frames, where all pixels are there.
#[tactic(auto, unfolding(dpx_base::specs::Timing::n, dpx_base::specs::Timing::m))]
fn set_of(rt: &impl Abort, alloc: Global, plan: &Plan, clock: u16) -> Option<LaneSet>
    requires { clock < 1000 }
{
    let mut ticker = Ticker::new(alloc, plan).expect(rt, "memory");
    let mut beam = Beam::new(plan.mode(), plan.link(), plan.frames());
    let mut next = 0;
    for before in 0..clock {
        let _set = tick(rt, &mut ticker, &mut beam, &mut next)?;
    }
    ticker.emit()
}

/// Two lanes carry these symbols.
fn pair(first: Sym, second: Sym) -> Option<LaneSet> {
    Some(LaneSet::from_slice(&[first, second]))
}

#[test]
fn sets_of_two_frames(rt: HostRuntime) {
    let plan = two_frames(&rt, true);
    let same = |byte| pair(Sym::control(byte), Sym::control(byte));
    let bytes = |first, second| pair(Sym::data(first), Sym::data(second));
    let sets = [
        (0, bytes(0, 0)),
        (101, same(0x1c)),
        (105, bytes(0x11, 0x11)),
        (106, bytes(0xf0, 0xf0)),
        (111, same(0x5c)),
        (113, bytes(0x00, 0x00)),
        (114, bytes(0xd2, 0xd2)),
        (131, same(0xfd)),
        (228, same(0xfb)),
        (229, bytes(0, 1)),
        (230, bytes(64, 65)),
        (232, bytes(2, 3)),
        (245, same(0xfe)),
        (246, bytes(0, 0)),
        (260, same(0xf7)),
        (261, bytes(74, 75)),
        (268, bytes(142, 143)),
        (269, same(0xbc)),
        (273, bytes(0x10, 0x10)),
        (699, None),
    ];
    for (clock, set) in sets {
        assert_eq!(rt; set_of(&rt, rt.alloc(), &plan, clock), set, "clock {clock}");
    }
}
