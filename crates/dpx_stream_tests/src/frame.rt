ghost use Rattle.std.specs.Prelude.{◌≤◌};

use crate::modes::mode;
use dpx_base::{Depth, Lanes, Link, Rate};
use dpx_frame::{Schedule, Slot, Stuffing};
use dpx_timing::{Plan, fit};
use std::process::Abort;

/// Clocks, counted from 0, have these slots.
fn carries(rt: &impl Abort, plan: &Plan, slots: &[(u32, Slot)]) {
    for (clock, slot) in slots {
        let mut schedule = Schedule::new(plan);
        for _ in 0..*clock {
            let _ = schedule.next();
        }
        assert_eq!(rt; schedule.next(), *slot, "clock {clock}");
    }
}

/// Two frames of 16 × 2 pixels on two lanes. Line `r`, from 0, starts at clock 84 `r` + 61, and lines 2 and 3 of each
/// frame have pixels.
pub(crate) fn two_frames(rt: &impl Abort, enhanced: bool) -> Plan {
    let link = Link {
        rate: Rate::Rbr,
        lanes: Lanes::Two,
        enhanced,
    };
    let mode = mode(rt, [16, 2, 28, 4, 54_000], Depth::Eight);
    fit(&mode, link, 32, 2).expect(rt, "a mode that fits")
}

/// Of 32 symbols 31 carry pixels; the first line with pixels starts at clock 545 and the delay.
fn dense(rt: &impl Abort, unit: u8) -> Plan
    requires { (32 ≤ unit) × (unit ≤ 64) }
{
    let link = Link {
        rate: Rate::Hbr2,
        lanes: Lanes::One,
        enhanced: true,
    };
    let mode = mode(rt, [64, 2, 80, 4, 174_375], Depth::Eight);
    fit(&mode, link, unit, 1).expect(rt, "a mode that fits")
}

fn group(reset: bool) -> Slot {
    Slot::Group { index: 0, reset }
}

#[test]
fn slots_of_two_frames(rt: HostRuntime) {
    let plan = two_frames(&rt, true);
    let slots = [
        (0, Slot::Fill),
        (101, group(true)),
        (111, Slot::Msa { index: 0 }),
        (131, Slot::Msa { index: 20 }),
        (228, Slot::Be),
        (229, Slot::Valid),
        (245, Slot::Stuff(Stuffing::Fs)),
        (260, Slot::Stuff(Stuffing::Fe)),
        (269, group(false)),
        (699, Slot::Ended),
        (700, Slot::Ended),
    ];
    carries(&rt, &plan, &slots);
}

#[test]
fn slots_in_default_framing(rt: HostRuntime) {
    let plan = two_frames(&rt, false);
    let slots = [
        (101, group(true)),
        (108, Slot::Msa { index: 0 }),
        (128, Slot::Msa { index: 20 }),
        (228, Slot::Be),
        (269, group(false)),
        (696, Slot::Ended),
    ];
    carries(&rt, &plan, &slots);
}

#[test]
fn a_single_stuffing_symbol_is_fe(rt: HostRuntime) {
    let slots = [
        (551, Slot::Be),
        (582, Slot::Valid),
        (583, Slot::Stuff(Stuffing::Fe)),
        (584, Slot::Valid),
    ];
    carries(&rt, &dense(&rt, 32), &slots);
}

#[test]
fn two_stuffing_symbols_are_fs_and_fe(rt: HostRuntime) {
    let slots = [
        (614, Slot::Valid),
        (615, Slot::Stuff(Stuffing::Fs)),
        (616, Slot::Stuff(Stuffing::Fe)),
        (617, Slot::Valid),
    ];
    carries(&rt, &dense(&rt, 64), &slots);
}
