//! Histories as text, an entry a line: the bytes of a request and those of its answer, or a wait.

use super::reports::{DEAD, LOUD, NO_CLOCK_ON_LANE_3, NO_EQUALISATION_ON_LANE_2};
use super::{CALM, modelled, run};
use dpx_base::{Answer, Entry};
use dpx_sinkmodel::PlanPort;
use std::alloc::Global;
use std::process::Abort;
use std::test::Fail;
use std::thread::Threads;

mod scripts;

/// What is told of a history.
#[derive(Clone, Copy, PartialEq)]
enum Told {
    Requests,
    /// With waits and answers.
    All,
}

fn push_bytes(text: &mut String, bytes: &[u8]) -> Result<(), Fail> {
    let mut before = "";
    for byte in bytes {
        write!(text, "{before}{byte:02X}")?;
        before = " ";
    }
    Ok(())
}

fn push_entry(text: &mut String, entry: &Entry, told: Told) -> Result<(), Fail> {
    match entry {
        Entry::Waited(micros) => {
            if told == Told::All {
                write!(text, "wait {micros}\n")?;
            }
        }
        Entry::Asked { request, answer } => {
            push_bytes(text, request.as_slice())?;
            if told == Told::All {
                text.push_str(" = ")?;
                push_answer(text, answer)?;
            }
            text.push_str("\n")?;
        }
    }
    Ok(())
}

fn push_answer(text: &mut String, answer: &Answer) -> Result<(), Fail> {
    match answer {
        Answer::Silent => text.push_str("silent")?,
        Answer::Bytes(bytes) => push_bytes(text, bytes.as_slice())?,
    }
    Ok(())
}

/// What a training of this job asks.
fn history<R: Threads + Sync>(
    rt: &R,
    alloc: Global,
    job: &str,
    told: Told,
) -> Result<String, Fail> {
    let mut port = PlanPort::new(alloc)?;
    run(
        rt,
        alloc,
        "train job.json",
        CALM,
        CALM,
        job.as_bytes(),
        &mut port,
    )?;
    let mut text = String::new(alloc);
    for entry in port.history() {
        push_entry(&mut text, entry, told)?;
    }
    Ok(text)
}

const PERFECT: &str = "\
90 00 00 0F = 00 12 14 C4 81 00 00 00 00 00 00 00 00 00 00 80 00
90 22 00 0F = 00 14 1E C4 81 00 00 00 00 00 00 00 00 00 00 80 00
80 06 00 00 01 = 00
80 01 00 01 1E 84 = 00
80 01 07 01 00 01 = 00
80 01 02 04 21 00 00 00 00 = 00
wait 100
90 02 02 05 = 00 11 11 00 00 00 00
80 01 02 04 07 00 00 00 00 = 00
wait 400
90 02 02 05 = 00 77 77 01 00 00 00
80 01 02 00 00 = 00
";

const LOUD_LANE: &str = "\
90 00 00 0F = 00 12 14 C4 81 00 00 00 00 00 00 00 00 00 00 80 00
90 22 00 0F = 00 14 1E C4 81 00 00 00 00 00 00 00 00 00 00 80 00
80 06 00 00 01 = 00
80 01 00 01 06 81 = 00
80 01 07 01 00 01 = 00
80 01 02 01 21 00 = 00
wait 100
90 02 02 05 = 00 00 00 00 00 0A 00
80 01 03 00 2A = 00
wait 100
90 02 02 05 = 00 01 00 00 00 0A 00
80 01 02 01 07 2A = 00
wait 400
90 02 02 05 = 00 07 00 01 00 0A 00
80 01 02 00 00 = 00
";

/// Training of this modelled job is this conversation.
fn converses<R: Abort + Threads + Sync>(
    rt: &R,
    alloc: Global,
    (rate, lanes, more): (&str, u8, &str),
    expected: &str,
) -> Result<(), Fail> {
    let job = modelled(alloc, rate, lanes, more)?;
    let given = history(rt, alloc, job.as_str(), Told::All)?;
    assert_eq!(rt; given.as_str(), expected);
    Ok(())
}

#[test]
fn a_modelled_sink_is_asked_and_answers_entry_by_entry(rt: HostRuntime) -> Result<(), Fail> {
    converses(&rt, rt.alloc(), ("HBR3", 4, ""), PERFECT)?;
    converses(&rt, rt.alloc(), ("RBR", 1, LOUD), LOUD_LANE)
}

/// How often a phase reads the status, and what it reads each time.
type Reads = (u8, &'static str);

/// An attempt with the least drive.
#[derive(Clone, Copy)]
struct Attempt {
    rate: u8,
    lanes: u8,
    recovery: Reads,
    equalisation: Option<Reads>,
}

/// The capabilities, their extended field, the power.
const OPENING: &str = "\
90 00 00 0F = 00 12 14 C4 81 00 00 00 00 00 00 00 00 00 00 80 00
90 22 00 0F = 00 14 1E C4 81 00 00 00 00 00 00 00 00 00 00 80 00
80 06 00 00 01 = 00
";

/// The conversation of these attempts.
fn conversation(alloc: Global, attempts: &[Attempt]) -> Result<String, Fail> {
    let mut text = String::from_str(alloc, OPENING)?;
    for attempt in attempts {
        push_attempt(&mut text, *attempt)?;
    }
    text.push_str("80 01 02 00 00 = 00\n")?;
    Ok(text)
}

fn push_attempt(text: &mut String, attempt: Attempt) -> Result<(), Fail> {
    let rate = attempt.rate;
    let lanes = attempt.lanes;
    let enhanced = lanes | 0x80;
    write!(
        text,
        "80 01 00 01 {rate:02X} {enhanced:02X} = 00\n80 01 07 01 00 01 = 00\n"
    )?;
    push_phase(text, lanes, ("21", 100), attempt.recovery)?;
    match attempt.equalisation {
        Some(reads) => push_phase(text, lanes, ("07", 400), reads),
        None => Ok(()),
    }
}

/// A pattern, and the reads. Each comes after a wait; the drive is written between them.
fn push_phase(
    text: &mut String,
    lanes: u8,
    (pattern, micros): (&str, u32),
    (count, status): Reads,
) -> Result<(), Fail> {
    write!(text, "80 01 02 {lanes:02X} {pattern}")?;
    push_drives(text, lanes)?;
    for number in 0..count {
        if number > 0 {
            let last = lanes.saturating_sub(1);
            write!(text, "80 01 03 {last:02X}")?;
            push_drives(text, lanes)?;
        }
        write!(text, "wait {micros}\n90 02 02 05 = 00 {status}\n")?;
    }
    Ok(())
}

fn push_drives(text: &mut String, lanes: u8) -> Result<(), Fail> {
    for _ in 0..lanes {
        text.push_str(" 00")?;
    }
    text.push_str(" = 00\n")?;
    Ok(())
}

const LOWER_RATE: [Attempt; 2] = [
    Attempt {
        rate: 0x1E,
        lanes: 4,
        recovery: (5, "11 01 00 00 00 00"),
        equalisation: None,
    },
    Attempt {
        rate: 0x14,
        lanes: 4,
        recovery: (1, "11 11 00 00 00 00"),
        equalisation: Some((1, "77 77 01 00 00 00")),
    },
];

const FEWER_LANES: [Attempt; 2] = [
    Attempt {
        rate: 0x14,
        lanes: 4,
        recovery: (1, "11 11 00 00 00 00"),
        equalisation: Some((5, "77 71 00 00 00 00")),
    },
    Attempt {
        rate: 0x14,
        lanes: 2,
        recovery: (1, "11 00 00 00 00 00"),
        equalisation: Some((1, "77 00 01 00 00 00")),
    },
];

#[test]
fn no_clock_lowers_the_rate(rt: HostRuntime) -> Result<(), Fail> {
    let expected = conversation(rt.alloc(), &LOWER_RATE)?;
    let job = ("HBR3", 4, NO_CLOCK_ON_LANE_3);
    converses(&rt, rt.alloc(), job, expected.as_str())
}

#[test]
fn no_equalisation_halves_the_lanes(rt: HostRuntime) -> Result<(), Fail> {
    let expected = conversation(rt.alloc(), &FEWER_LANES)?;
    let job = ("HBR2", 4, NO_EQUALISATION_ON_LANE_2);
    converses(&rt, rt.alloc(), job, expected.as_str())
}

/// Never a clock.
fn dead(rate: u8, lanes: u8) -> Attempt {
    Attempt {
        rate,
        lanes,
        recovery: (5, "00 00 00 00 00 00"),
        equalisation: None,
    }
}

#[test]
fn a_dead_channel_is_tried_at_each_rate_and_number_of_lanes(rt: HostRuntime) -> Result<(), Fail> {
    let attempts = [
        dead(0x1E, 4),
        dead(0x14, 4),
        dead(0x0A, 4),
        dead(0x06, 4),
        dead(0x1E, 2),
        dead(0x14, 2),
        dead(0x0A, 2),
        dead(0x06, 2),
        dead(0x1E, 1),
        dead(0x14, 1),
        dead(0x0A, 1),
        dead(0x06, 1),
    ];
    let expected = conversation(rt.alloc(), &attempts)?;
    converses(&rt, rt.alloc(), ("HBR3", 4, DEAD), expected.as_str())
}
