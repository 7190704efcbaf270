//! The supervisor against a plain table: every list of up to five events, over six sinks.

use dpx_base::{Answer, AuxPort, Bytes20, Lanes, Link, PortEvent, Rate};
use dpx_dpcd::{AnswerList, Cell, Channel, LoadPort, SinkPlan};
use dpx_sinkmodel::PlanPort;
use dpx_watch::{Outcome, Stepped, Watch};
use std::alloc::{AllocError, Global};
use std::process::Abort;
use std::test::Fail;

#[derive(Clone, Copy, Debug, PartialEq, Eq)]
enum Sink {
    /// Trains at the first configuration.
    Perfect,
    /// Lane 3 recovers no clock at HBR3.
    Slower,
    /// No lane ever recovers its clock.
    Never,
    /// Its block of capabilities says three lanes.
    ThreeLanes,
    /// Defers eight times.
    Deferring,
    /// Answers one training, a good status and a bad one, and is silent then.
    Script,
}

/// What the sink of the script answers; the first nine are a training of RBR on one lane.
const BLOCK: [u8; 17] = [0, 0x12, 0x06, 0x81, 0, 0, 0, 0, 0, 0, 0, 0, 0, 0, 0, 0, 0];

const DONE: [u8; 1] = [0];

const CLOCK: [u8; 7] = [0, 0x01, 0, 0, 0, 0, 0];

const GOOD: [u8; 7] = [0, 0x07, 0, 0x01, 0, 0, 0];

const BAD: [u8; 7] = [0, 0, 0, 0, 0, 0, 0];

fn script(alloc: Global) -> Result<SinkPlan, AllocError> {
    let mut answers = Vec::new(alloc);
    for bytes in [
        &BLOCK[..],
        &DONE,
        &DONE,
        &DONE,
        &DONE,
        &CLOCK,
        &DONE,
        &GOOD,
        &DONE,
        &GOOD,
        &BAD,
    ] {
        if bytes.len() <= 20 {
            answers.push(Answer::Bytes(Bytes20::from_slice(bytes)))?;
        }
    }
    Ok(SinkPlan::Script(AnswerList::from_vec(answers)))
}

fn model(lanes: u8, defers: u8, channel: Channel) -> SinkPlan {
    let mut caps = [0; 16];
    caps[0] = 0x12;
    caps[1] = 0x1E;
    caps[2] = lanes;
    caps[14] = 0x80;
    SinkPlan::Model {
        caps,
        extended: caps,
        defers,
        channel,
    }
}

/// At these rates this lane recovers no clock.
fn without_clock(rates: &[Rate], lanes: &[u8]) -> Channel {
    let mut channel = Channel::perfect();
    for rate in rates {
        for lane in lanes {
            if *lane < 4 {
                channel.set(*rate, *lane, Cell::new(false, true, 0, 0));
            }
        }
    }
    channel
}

const RATES: [Rate; 4] = [Rate::Rbr, Rate::Hbr, Rate::Hbr2, Rate::Hbr3];

fn plan(alloc: Global, sink: Sink) -> Result<SinkPlan, AllocError> {
    Ok(match sink {
        Sink::Perfect => model(0x84, 0, Channel::perfect()),
        Sink::Slower => model(0x84, 0, without_clock(&[Rate::Hbr3], &[3])),
        Sink::Never => model(0x84, 0, without_clock(&RATES, &[0, 1, 2, 3])),
        Sink::ThreeLanes => model(0x83, 0, Channel::perfect()),
        Sink::Deferring => model(0x84, 8, Channel::perfect()),
        Sink::Script => return script(alloc),
    })
}

/// What a plain reading of the rules expects: whether the link is up, and how many answers of a script were used.
#[derive(Drop)]
struct Table {
    sink: Sink,
    is_up: bool,
    used: u64,
}

impl Table {
    fn train(&mut self) -> (&'static str, u32) {
        self.is_up = true;
        match self.sink {
            Sink::Perfect => return ("trained", 10),
            Sink::Slower => return ("trained", 22),
            Sink::Script if self.used == 0 => {
                self.used = 9;
                return ("trained", 9);
            }
            _ => {}
        }
        self.is_up = false;
        match self.sink {
            Sink::Never => ("not trained", 148),
            Sink::ThreeLanes => ("caps refused", 2),
            // Every ninth request is answered: a later training has one of those first.
            Sink::Deferring if self.used > 0 => ("aux ended", 9),
            _ => {
                self.used = self.used.saturating_add(8);
                ("aux ended", 8)
            }
        }
    }

    /// A look at a link that is up; the script has a good status, and then a bad one.
    fn check(&mut self) -> (&'static str, u32) {
        if self.sink != Sink::Script {
            return ("kept", 1);
        }
        if self.used == 9 {
            self.used = 10;
            return ("kept", 1);
        }
        self.is_up = false;
        ("aux ended", 9)
    }

    fn resume(&mut self) -> (&'static str, u32) {
        if self.sink != Sink::Script {
            return ("kept", 2);
        }
        self.used = 11;
        self.is_up = false;
        ("aux ended", 8)
    }

    fn step(&mut self, event: PortEvent) -> (&'static str, u32) {
        match (event, self.is_up) {
            (PortEvent::Loss, _) => {
                self.is_up = false;
                ("unplugged", 0)
            }
            (PortEvent::Interrupt, false) => ("nothing", 0),
            (PortEvent::Interrupt, true) => self.check(),
            (PortEvent::Resume, true) => self.resume(),
            (PortEvent::Plug, _) | (PortEvent::Resume, false) => self.train(),
        }
    }
}

fn word(stepped: &Stepped) -> &'static str {
    match stepped.outcome {
        Outcome::Nothing => "nothing",
        Outcome::Kept { .. } => "kept",
        Outcome::Trained { .. } => "trained",
        Outcome::NotTrained { .. } => "not trained",
        Outcome::CapsRefused(_) => "caps refused",
        Outcome::AuxEnded(_) => "aux ended",
        Outcome::Unplugged => "unplugged",
    }
}

const EVENTS: [PortEvent; 4] = [
    PortEvent::Plug,
    PortEvent::Interrupt,
    PortEvent::Loss,
    PortEvent::Resume,
];

fn steps(
    rt: &impl Abort,
    watch: &mut Watch,
    port: &mut PlanPort,
    table: &mut Table,
    number: usize,
) {
    let event = EVENTS[number % 4];
    assert!(rt; port.asked() < 1_000_000);
    let stepped = watch.step(port, event);
    let expected = table.step(event);
    assert_eq!(rt; (word(&stepped), stepped.requests), expected, "{event:?}");
    assert_eq!(rt;
        (watch.allows(), watch.last().is_some()),
        (table.is_up, table.is_up),
        "{event:?}"
    );
}

/// The list of five events that has this number.
fn walks(rt: &impl Abort, watch: &mut Watch, port: &mut PlanPort, sink: Sink, number: usize) {
    let mut table = Table {
        sink,
        is_up: false,
        used: 0,
    };
    let mut left = number;
    for _ in 0..5u32 {
        steps(rt, watch, port, &mut table, left);
        left /= 4;
    }
}

/// Every list of five events, each of which begins with every shorter one.
fn walks_all(rt: &impl Abort, alloc: Global, sink: Sink, top: Link) -> Result<(), Fail> {
    let mut port = PlanPort::new(alloc)?;
    for number in 0..1024usize {
        port.load(plan(alloc, sink)?);
        walks(rt, &mut Watch::new(top), &mut port, sink, number);
    }
    Ok(())
}

const TOP: Link = Link {
    rate: Rate::Hbr3,
    lanes: Lanes::Four,
    enhanced: true,
};

#[test]
fn every_list_of_five_events_over_a_perfect_sink(rt: HostRuntime) -> Result<(), Fail> {
    walks_all(&rt, rt.alloc(), Sink::Perfect, TOP)
}

#[test]
fn every_list_of_five_events_over_a_sink_that_trains_slower(rt: HostRuntime) -> Result<(), Fail> {
    walks_all(&rt, rt.alloc(), Sink::Slower, TOP)
}

#[test]
fn every_list_of_five_events_over_a_sink_that_never_trains(rt: HostRuntime) -> Result<(), Fail> {
    walks_all(&rt, rt.alloc(), Sink::Never, TOP)
}

#[test]
fn every_list_of_five_events_over_a_sink_of_three_lanes(rt: HostRuntime) -> Result<(), Fail> {
    walks_all(&rt, rt.alloc(), Sink::ThreeLanes, TOP)
}

#[test]
fn every_list_of_five_events_over_a_sink_that_defers(rt: HostRuntime) -> Result<(), Fail> {
    walks_all(&rt, rt.alloc(), Sink::Deferring, TOP)
}

#[test]
fn every_list_of_five_events_over_a_script(rt: HostRuntime) -> Result<(), Fail> {
    let top = Link {
        rate: Rate::Rbr,
        lanes: Lanes::One,
        enhanced: true,
    };
    walks_all(&rt, rt.alloc(), Sink::Script, top)
}
