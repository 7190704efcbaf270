ghost use Rattle.std.specs.Prelude.{◌≡◌, ◌≤◌, ◌∷◌, length};

use dpx_aux::{AuxEnd, LastAnswer, Reply, read_request};
use dpx_base::{Answer, AuxPort, Bytes20, Lanes, Link, Rate};
use dpx_dpcd::{CapsBad, Cell, Channel, Drive, RegFile, Status6};
use dpx_link::{TrainEnd, train};
use std::process::Abort;

/// A modelled sink that answers each request at once, or never.
#[derive(Drop)]
struct Sink {
    file: RegFile,
    is_silent: bool,
    asked: u64,
}

impl AuxPort for Sink {
    ghost use Rattle.std.specs.Prelude.{None};

    type Plan = ();

    ghost state = { λ p. record { asked = p.asked; history = None; plan = None; room = 0; asked_in_all = p.asked } };

    fn ask(&mut self, request: &[u8]) -> Answer {
        self.asked += 1;
        if self.is_silent {
            return Answer::Silent;
        }
        let Ok(request) = read_request(request) else {
            return Answer::Silent;
        };
        match self.file.answer(&request) {
            Reply::Ack(brought) => acknowledgement(brought.as_slice()),
            _ => Answer::Silent,
        }
    }

    fn wait(&mut self, micros: u32) {
        let _ = micros;
    }

    fn asked(&self) -> u64 {
        self.asked
    }
}

fn acknowledgement(brought: &[u8]) -> Answer
    requires { length brought.now ≤ 16 }
{
    let mut bytes = [0; 17];
    let length = brought.len();
    bytes[1..=length].copy_from_slice(brought);
    Answer::Bytes(Bytes20::from_slice(&bytes[..=length]))
}

const CAPS: [u8; 16] = [
    0x12, 0x14, 0xc4, 0x81, 0, 0, 0, 0, 0, 0, 0, 0, 0, 0, 0x80, 0x00,
];

const EXTENDED: [u8; 16] = [
    0x14, 0x1e, 0xc4, 0x81, 0, 0, 0, 0, 0, 0, 0, 0, 0, 0, 0x80, 0x00,
];

fn sink_with(channel: Channel) -> Sink
    ensures { result.asked ≡ 0 }
{
    Sink {
        file: RegFile::new(CAPS, EXTENDED, channel),
        is_silent: false,
        asked: 0,
    }
}

/// A channel that is perfect but for this cell.
fn but_for(rate: Rate, lane: u8, cell: Cell) -> Channel
    requires { lane ≤ 3 }
{
    let mut channel = Channel::perfect();
    channel.set(rate, lane, cell);
    channel
}

fn link(rate: Rate, lanes: Lanes) -> Link {
    Link {
        rate,
        lanes,
        enhanced: true,
    }
}

fn trained(rate: Rate, lanes: Lanes, drive: [u8; 4], last: [u8; 6], requests: u32) -> TrainEnd {
    TrainEnd::Trained {
        link: link(rate, lanes),
        drive: Drive { registers: drive },
        last: Status6 { bytes: last },
        requests,
    }
}

fn ends(rt: &impl Abort, channel: Channel, top: Link, end: TrainEnd) {
    assert_eq!(rt; train(&mut sink_with(channel), top), end);
}

#[test]
fn training_ends_at_the_highest_link_that_the_channel_carries(rt: HostRuntime) {
    let top = link(Rate::Hbr3, Lanes::Four);
    let last = [0x77, 0x77, 0x01, 0, 0, 0];
    let end = trained(Rate::Hbr3, Lanes::Four, [0; 4], last, 10);
    ends(&rt, Channel::perfect(), top, end);
    // no clock at HBR3
    let channel = but_for(Rate::Hbr3, 3, Cell::new(false, true, 0, 0));
    let end = trained(Rate::Hbr2, Lanes::Four, [0; 4], last, 22);
    ends(&rt, channel, top, end);
    // no equalisation on four lanes
    let channel = but_for(Rate::Hbr2, 2, Cell::new(true, false, 0, 0));
    let last = [0x77, 0x00, 0x01, 0, 0, 0];
    let end = trained(Rate::Hbr2, Lanes::Two, [0; 4], last, 24);
    ends(&rt, channel, link(Rate::Hbr2, Lanes::Four), end);
    // a lane that asks for more drive
    let channel = but_for(Rate::Rbr, 0, Cell::new(true, true, 2, 2));
    let last = [0x07, 0, 0x01, 0, 0x0a, 0];
    let end = trained(Rate::Rbr, Lanes::One, [0x2a, 0, 0, 0], last, 12);
    ends(&rt, channel, link(Rate::Rbr, Lanes::One), end);
}

#[test]
fn dead_channel_takes_twelve_attempts(rt: HostRuntime) {
    let mut channel = Channel::perfect();
    for rate in [Rate::Rbr, Rate::Hbr, Rate::Hbr2, Rate::Hbr3] {
        for lane in 0..4 {
            channel.set(rate, lane, Cell::new(false, false, 0, 0));
        }
    }
    let end = TrainEnd::NotTrained {
        last: Status6 { bytes: [0; 6] },
        requests: 148,
    };
    ends(&rt, channel, link(Rate::Hbr3, Lanes::Four), end);
}

#[test]
fn three_lanes_are_refused(rt: HostRuntime) {
    let mut caps = CAPS;
    caps[2] = 0x83;
    caps[0x0e] = 0;
    let mut port = sink_with(Channel::perfect());
    port.file = RegFile::new(caps, EXTENDED, Channel::perfect());
    let end = train(&mut port, link(Rate::Rbr, Lanes::One));
    let why = CapsBad::BadLanes(0x83);
    assert_eq!(rt; end, TrainEnd::CapsRefused { why, requests: 1 });
}

#[test]
fn silent_sink_spends_the_first_request(rt: HostRuntime) {
    let mut port = sink_with(Channel::perfect());
    port.is_silent = true;
    let end = train(&mut port, link(Rate::Rbr, Lanes::One));
    let why = AuxEnd::Spent {
        address: 0,
        last: LastAnswer::Silent,
    };
    assert_eq!(rt; end, TrainEnd::AuxEnded { why, requests: 8 });
}
