ghost use Rattle.std.specs.Prelude.{◌≡◌};

use super::behaves;
use dpx_aux::{AuxEnd, LastAnswer};
use dpx_base::{Answer, AuxPort, Bytes20, Lanes, Link, Rate};
use dpx_dpcd::{
    Caps, CapsBad, Cell, Channel, Pattern, Status6, has_extended, read_block, read_status,
    write_registers,
};
use std::process::Abort;
use std::test::Fail;

const HBR2: [u8; 16] = [
    0x12, 0x14, 0xc4, 0x81, 0, 0, 0, 0, 0, 0, 0, 0, 0, 0, 0x80, 0,
];

const HBR3: [u8; 16] = [
    0x14, 0x1e, 0xc4, 0x81, 0, 0, 0, 0, 0, 0, 0, 0, 0, 0, 0x80, 0,
];

/// A block of capabilities with these bytes at 00001 to 00003 and at 0000E.
fn block(rate: u8, lanes: u8, pattern: u8, interval: u8) -> [u8; 16] {
    [
        0x12, rate, lanes, pattern, 0, 0, 0, 0, 0, 0, 0, 0, 0, 0, interval, 0,
    ]
}

/// Capabilities with these patterns, in default framing.
fn plain(rate: Rate, lanes: Lanes, [tps3, tps4]: [bool; 2], interval: u8) -> Caps {
    Caps {
        rate,
        lanes,
        enhanced: false,
        tps3,
        tps4,
        interval,
    }
}

/// The same in enhanced framing.
fn caps(rate: Rate, lanes: Lanes, patterns: [bool; 2], interval: u8) -> Caps {
    Caps {
        enhanced: true,
        ..plain(rate, lanes, patterns, interval)
    }
}

#[test]
fn block_of_capabilities_is_read_or_refused_by_its_first_fault(rt: HostRuntime) {
    let rows = [
        (HBR2, Ok(caps(Rate::Hbr2, Lanes::Four, [true, true], 0))),
        (HBR3, Ok(caps(Rate::Hbr3, Lanes::Four, [true, true], 0))),
        (
            block(0x19, 0x84, 0, 0),
            Ok(caps(Rate::Hbr2, Lanes::Four, [false, false], 0)),
        ),
        (
            block(0x06, 0xc1, 0x7f, 0x7f),
            Ok(caps(Rate::Rbr, Lanes::One, [true, false], 0x7f)),
        ),
        (
            block(0x0a, 0xa2, 0x80, 0x84),
            Ok(caps(Rate::Hbr, Lanes::Two, [false, true], 4)),
        ),
        // no block is refused for want of enhanced framing
        (
            block(0x14, 0x04, 0x81, 0),
            Ok(plain(Rate::Hbr2, Lanes::Four, [false, true], 0)),
        ),
        (
            block(0x1e, 0x42, 0, 0x03),
            Ok(plain(Rate::Hbr3, Lanes::Two, [true, false], 3)),
        ),
        (block(0x14, 0x83, 0x81, 0), Err(CapsBad::BadLanes(0x83))),
        (block(0x14, 0x80, 0x81, 0), Err(CapsBad::BadLanes(0x80))),
        (block(0x14, 0x91, 0x81, 0), Err(CapsBad::BadLanes(0x91))),
        (block(0x05, 0x84, 0x81, 0), Err(CapsBad::BadRate(0x05))),
        (block(0x05, 0x04, 0x81, 0), Err(CapsBad::BadRate(0x05))),
        // the lanes are looked at before the rate
        (block(0x05, 0x03, 0, 0), Err(CapsBad::BadLanes(0x03))),
    ];
    for (block, caps) in rows {
        assert_eq!(rt; Caps::read(&block), caps, "{block:?}");
    }
}

#[test]
fn extended_field_is_there_where_the_highest_bit_says_so(rt: HostRuntime) {
    for (byte, there) in [(0x00, false), (0x7f, false), (0x80, true), (0xff, true)] {
        assert_eq!(rt;
            has_extended(&block(0xff, 0xff, 0xff, byte)),
            there,
            "at {byte}"
        );
    }
}

fn link(rate: Rate, lanes: Lanes, enhanced: bool) -> Link {
    Link {
        rate,
        lanes,
        enhanced,
    }
}

#[test]
fn training_starts_at_the_lower_rate_and_the_fewer_lanes(rt: HostRuntime) -> Result<(), Fail> {
    let rows = [
        ((Rate::Hbr3, Lanes::Four), (Rate::Hbr2, Lanes::Two)),
        ((Rate::Hbr2, Lanes::Two), (Rate::Hbr2, Lanes::Two)),
        ((Rate::Rbr, Lanes::Four), (Rate::Rbr, Lanes::Two)),
        ((Rate::Hbr3, Lanes::One), (Rate::Hbr2, Lanes::One)),
        ((Rate::Hbr, Lanes::One), (Rate::Hbr, Lanes::One)),
    ];
    let sink = Caps::read(&block(0x14, 0xc2, 0x81, 0))?;
    for ((rate, lanes), (lower, fewer)) in rows {
        assert_eq!(rt;
            sink.start(link(rate, lanes, true)),
            link(lower, fewer, true)
        );
    }
    Ok(())
}

#[test]
fn framing_is_enhanced_where_both_ends_know_it(rt: HostRuntime) -> Result<(), Fail> {
    let rows = [
        (0x81, true, true),
        (0x81, false, false),
        (0x01, true, false),
        (0x01, false, false),
    ];
    for (byte, source, both) in rows {
        let sink = Caps::read(&block(0x06, byte, 0, 0))?;
        let start = sink.start(link(Rate::Rbr, Lanes::One, source));
        assert_eq!(rt; start, link(Rate::Rbr, Lanes::One, both));
    }
    Ok(())
}

#[test]
fn highest_known_pattern_is_the_one_for_equalisation(rt: HostRuntime) -> Result<(), Fail> {
    let rows = [
        (0x84, 0x7f, Pattern::Tps2, 0x22),
        (0xc4, 0x7f, Pattern::Tps3, 0x23),
        (0xc4, 0x80, Pattern::Tps4, 0x07),
        (0x84, 0x80, Pattern::Tps4, 0x07),
    ];
    for (lanes, pattern, known, register) in rows {
        let sink = Caps::read(&block(0x14, lanes, pattern, 0))?;
        assert_eq!(rt; (sink.pattern(), known.register()), (known, register));
    }
    assert_eq!(rt; Pattern::Tps1.register(), 0x21);
    Ok(())
}

#[test]
fn status_says_what_the_lanes_in_use_have_reached(rt: HostRuntime) {
    let rows = [
        (Lanes::One, [0x00, 0x00, 0x01], (false, false)),
        (Lanes::One, [0x01, 0x00, 0x01], (true, false)),
        (Lanes::One, [0x07, 0x00, 0x01], (true, true)),
        (Lanes::One, [0x0f, 0x00, 0x81], (true, true)),
        // alignment is bit 0 alone
        (Lanes::One, [0x07, 0x00, 0x00], (true, false)),
        (Lanes::Four, [0x77, 0x77, 0xfe], (true, false)),
        // the lower lane has the low bits
        (Lanes::One, [0x70, 0x77, 0x01], (false, false)),
        (Lanes::Two, [0x07, 0x77, 0x01], (false, false)),
        (Lanes::Two, [0x77, 0x00, 0x01], (true, true)),
        (Lanes::Four, [0x77, 0x07, 0x01], (false, false)),
        (Lanes::Four, [0x77, 0x70, 0x01], (false, false)),
        (Lanes::Four, [0x77, 0x77, 0x01], (true, true)),
        // one lane without its equalisation, its symbols, its clock
        (Lanes::Two, [0x57, 0x00, 0x01], (true, false)),
        (Lanes::Four, [0x77, 0x73, 0x01], (true, false)),
        (Lanes::Four, [0x77, 0x67, 0x01], (false, false)),
    ];
    for (lanes, [first, second, align], reached) in rows {
        let status = Status6 {
            bytes: [first, second, align, 0, 0, 0],
        };
        let said = (status.cr_done(lanes), status.eq_done(lanes));
        assert_eq!(rt; said, reached, "{status:?} on {lanes:?}");
    }
}

fn drives(rt: &impl Abort, lanes: Lanes, asked: [u8; 2], drive: [u8; 4]) {
    let [first, second] = asked;
    let status = Status6 {
        bytes: [0, 0, 0, 0, first, second],
    };
    assert_eq!(rt;
        status.level(lanes).registers,
        drive,
        "{asked:?} on {lanes:?}"
    );
}

#[test]
fn drive_is_what_the_lanes_in_use_ask_for(rt: HostRuntime) {
    // for emphasis 0 to 3 and each swing asked for: the swing, and what it leaves of the emphasis
    let rows = [
        0x00, 0x01, 0x02, 0x27, 0x08, 0x09, 0x2a, 0x27, 0x10, 0x31, 0x2a, 0x27, 0x38, 0x31, 0x2a,
        0x27,
    ];
    for (asked, drive) in rows.iter().enumerate() {
        drives(&rt, Lanes::One, [asked as u8, 0], [*drive, 0, 0, 0]);
    }
    let asked = [0xa3, 0x4d];
    drives(&rt, Lanes::One, asked, [0x27, 0x00, 0x00, 0x00]);
    drives(&rt, Lanes::Two, asked, [0x27, 0x2a, 0x00, 0x00]);
    drives(&rt, Lanes::Four, asked, [0x27, 0x2a, 0x31, 0x08]);
}

#[test]
fn each_rate_and_lane_has_a_cell_of_its_own(rt: HostRuntime) {
    let good = Cell::new(true, true, 0, 0);
    let slow = Cell::new(true, false, 2, 3);
    assert_eq!(rt;
        (slow.cr(), slow.eq(), slow.swing(), slow.emph()),
        (true, false, 2, 3)
    );
    let mut channel = Channel::perfect();
    channel.set(Rate::Hbr2, 3, slow);
    behaves(&rt, &channel, Rate::Hbr2, 3, slow);
    behaves(&rt, &channel, Rate::Hbr2, 2, good);
    behaves(&rt, &channel, Rate::Hbr3, 0, good);
    behaves(&rt, &channel, Rate::Hbr, 3, good);
    behaves(&rt, &channel, Rate::Rbr, 3, good);
}

/// Answers a request of these bytes, after one that it defers, and is silent to all others.
#[derive(Drop)]
struct Replies<'a> {
    request: &'a [u8],
    reply: &'a [u8],
    asked: u64,
}

impl AuxPort for Replies<'_> {
    ghost use Rattle.std.specs.Prelude.{None};

    type Plan = ();

    ghost state = { λ p. record { asked = p.asked; history = None; plan = None; room = 0; asked_in_all = p.asked } };

    fn ask(&mut self, request: &[u8]) -> Answer {
        self.asked += 1;
        if self.asked == 1 {
            Answer::Bytes(Bytes20::from_slice(&[0x20]))
        } else if request == self.request && self.reply.len() <= 20 {
            Answer::Bytes(Bytes20::from_slice(self.reply))
        } else {
            Answer::Silent
        }
    }

    fn wait(&mut self, _micros: u32) {}

    fn asked(&self) -> u64 {
        self.asked
    }
}

fn port<'a>(request: &'a [u8], reply: &'a [u8]) -> Replies<'a>
    ensures { result.asked ≡ 0 }
{
    Replies {
        request,
        reply,
        asked: 0,
    }
}

fn is_written(rt: &impl Abort, sink: &mut Replies, end: Result<(), AuxEnd>)
    requires { sink.old.asked ≡ 0 }
{
    assert_eq!(rt; write_registers(sink, 0x0_0103, &[0x27, 0x2a]), end);
}

fn is_block(rt: &impl Abort, sink: &mut Replies, end: Result<[u8; 16], AuxEnd>)
    requires { sink.old.asked ≡ 0 }
{
    assert_eq!(rt; read_block(sink, 0x0_2200), end);
}

fn is_status(rt: &impl Abort, sink: &mut Replies, end: Result<Status6, AuxEnd>)
    requires { sink.old.asked ≡ 0 }
{
    assert_eq!(rt; read_status(sink), end);
}

const WRITE: [u8; 6] = [0x80, 0x01, 0x03, 0x01, 0x27, 0x2a];

const BLOCK: [u8; 4] = [0x90, 0x22, 0x00, 0x0f];

const STATUS: [u8; 4] = [0x90, 0x02, 0x02, 0x05];

#[test]
fn registers_are_written_in_one_transaction(rt: HostRuntime) {
    let mut sink = port(&WRITE, &[0x00]);
    is_written(&rt, &mut sink, Ok(()));
    assert_eq!(rt; sink.asked, 2);
    let refused = AuxEnd::Refused {
        address: 0x0_0103,
        taken: 1,
    };
    is_written(&rt, &mut port(&WRITE, &[0x10, 0x01]), Err(refused));
}

#[test]
fn a_block_is_read_in_one_transaction(rt: HostRuntime) {
    let reply = [
        0x00, 0x12, 0x14, 0xc4, 0x81, 0, 0, 0, 0, 0, 0, 0, 0, 0, 0, 0x80, 0,
    ];
    let mut sink = port(&BLOCK, &reply);
    is_block(&rt, &mut sink, Ok(HBR2));
    assert_eq!(rt; sink.asked, 2);
    let spent = AuxEnd::Spent {
        address: 0x0_2200,
        last: LastAnswer::Silent,
    };
    is_block(&rt, &mut port(&[], &[]), Err(spent));
}

#[test]
fn a_status_is_read_in_one_transaction(rt: HostRuntime) {
    let status = Status6 {
        bytes: [0x11, 0x22, 0x80, 0x00, 0x0a, 0xff],
    };
    let mut sink = port(&STATUS, &[0x00, 0x11, 0x22, 0x80, 0x00, 0x0a, 0xff]);
    is_status(&rt, &mut sink, Ok(status));
    assert_eq!(rt; sink.asked, 2);
    // five bytes are no status
    let spent = AuxEnd::Spent {
        address: 0x0_0202,
        last: LastAnswer::Malformed,
    };
    let mut sink = port(&STATUS, &[0x00, 0x77, 0x77, 0x01, 0x00, 0x00]);
    is_status(&rt, &mut sink, Err(spent));
    assert_eq!(rt; sink.asked, 8);
}
