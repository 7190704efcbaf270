//! Histories with one entry changed, against a plain search: a training of the same link over the list's own answers,
//! whose history is compared with the list.

use super::{
    FOUR_LANES, HBR2_LANES, ONE_LANE, but_for, dead, halved, model, never_aligned, script, slower,
    three_lanes, trains,
};
use dpx_base::{Answer, Bytes20, Entry, Link, Rate};
use dpx_dpcd::{AnswerList, Cell, Channel, SinkPlan};
use dpx_judge::{Ending, Verdict, judge_all};
use dpx_link::TrainEnd;
use dpx_sinkmodel::PlanPort;
use std::alloc::{AllocError, Global};
use std::process::Abort;
use std::test::Fail;

/// What is done to the entry at a place.
#[derive(Clone, Copy, Debug, PartialEq, Eq)]
enum Change {
    LeftOut,
    Doubled,
    /// The wait is longer, or the request is for another address.
    Asked,
    /// The wait is shorter; or the answer is a deferral, and silence where it was one.
    Answered,
}

const CHANGES: [Change; 4] = [
    Change::LeftOut,
    Change::Doubled,
    Change::Asked,
    Change::Answered,
];

fn copied(answer: &Answer) -> Answer {
    match answer {
        Answer::Silent => Answer::Silent,
        Answer::Bytes(bytes) => Answer::Bytes(Bytes20::from_slice(bytes.as_slice())),
    }
}

fn copy(entry: &Entry) -> Entry {
    match entry {
        Entry::Waited(micros) => Entry::Waited(*micros),
        Entry::Asked { request, answer } => Entry::Asked {
            request: Bytes20::from_slice(request.as_slice()),
            answer: copied(answer),
        },
    }
}

/// The bytes with the lowest bit of the third one turned.
fn elsewhere(request: &Bytes20) -> Bytes20 {
    let mut bytes = [0; 20];
    let length = request.as_slice().len();
    bytes[..length].copy_from_slice(request.as_slice());
    bytes[2] ^= 1;
    Bytes20::from_slice(&bytes[..length])
}

fn asked_otherwise(entry: &Entry) -> Entry {
    match entry {
        Entry::Waited(micros) => Entry::Waited(micros.saturating_add(1)),
        Entry::Asked { request, answer } => Entry::Asked {
            request: elsewhere(request),
            answer: copied(answer),
        },
    }
}

fn answered_otherwise(entry: &Entry) -> Entry {
    match entry {
        Entry::Waited(micros) => Entry::Waited(*micros / 2),
        Entry::Asked { request, answer } => Entry::Asked {
            request: Bytes20::from_slice(request.as_slice()),
            answer: match answer {
                Answer::Bytes(bytes) if bytes.as_slice() == [0x20].as_slice() => Answer::Silent,
                _ => Answer::Bytes(Bytes20::from_slice(&[0x20])),
            },
        },
    }
}

fn push_changed(list: &mut Vec<Entry>, entry: &Entry, change: Change) -> Result<(), AllocError> {
    match change {
        Change::LeftOut => Ok(()),
        Change::Doubled => {
            list.push(copy(entry))?;
            list.push(copy(entry))?;
            Ok(())
        }
        Change::Asked => Ok(list.push(asked_otherwise(entry))?),
        Change::Answered => Ok(list.push(answered_otherwise(entry))?),
    }
}

/// The history with this change of the entry at this place.
fn changed(
    alloc: Global,
    history: &[Entry],
    place: usize,
    change: Change,
) -> Result<Vec<Entry>, AllocError> {
    let mut list = Vec::new(alloc);
    for (number, entry) in history.iter().enumerate() {
        if number == place {
            push_changed(&mut list, entry, change)?;
        } else {
            list.push(copy(entry))?;
        }
    }
    Ok(list)
}

fn answers_of(alloc: Global, list: &[Entry]) -> Result<SinkPlan, AllocError> {
    let mut answers = Vec::new(alloc);
    for entry in list {
        if let Entry::Asked { answer, .. } = entry {
            answers.push(copied(answer))?;
        }
    }
    Ok(SinkPlan::Script(AnswerList::from_vec(answers)))
}

fn same_answers(a: &Answer, b: &Answer) -> bool {
    match (a, b) {
        (Answer::Silent, Answer::Silent) => true,
        (Answer::Bytes(a), Answer::Bytes(b)) => a.as_slice() == b.as_slice(),
        _ => false,
    }
}

fn same_entries(a: &Entry, b: &Entry) -> bool {
    match (a, b) {
        (Entry::Waited(a), Entry::Waited(b)) => a == b,
        (
            Entry::Asked { request, answer },
            Entry::Asked {
                request: r,
                answer: s,
            },
        ) => { request.as_slice() == r.as_slice() && same_answers(answer, s) }
        _ => false,
    }
}

fn ending(end: TrainEnd) -> Ending {
    match end {
        TrainEnd::Trained { link, .. } => Ending::Trained(link),
        TrainEnd::NotTrained { .. } => Ending::NotTrained,
        TrainEnd::CapsRefused { .. } => Ending::CapsRefused,
        TrainEnd::AuxEnded { .. } => Ending::AuxEnded,
    }
}

/// The first place at which the list is not the history.
fn first_difference(list: &[Entry], history: &[Entry]) -> Option<usize> {
    for (place, entry) in list.iter().enumerate() {
        if place >= history.len() || !same_entries(entry, &history[place]) {
            return Some(place);
        }
    }
    None
}

/// What a training over the answers of the list makes of it.
fn searched(
    rt: &impl Abort,
    port: &mut PlanPort,
    top: Link,
    list: &[Entry],
    answers: SinkPlan,
) -> Verdict {
    let end = trains(rt, port, top, answers);
    match first_difference(list, port.history()) {
        Some(place) => Verdict::Differs(place as u64),
        None if list.len() == port.history().len() => Verdict::Yes(ending(end)),
        None => Verdict::Short,
    }
}

/// Each change at each place of this history is judged as the search finds. Where no answer was a deferral, none is a
/// whole history.
fn changes(
    rt: &impl Abort,
    alloc: Global,
    top: Link,
    plan: SinkPlan,
    deferred: bool,
) -> Result<(), Fail> {
    let mut told = PlanPort::new(alloc)?;
    trains(rt, &mut told, top, plan);
    let mut port = PlanPort::new(alloc)?;
    for place in 0..told.history().len() {
        for change in CHANGES {
            let list = changed(alloc, told.history(), place, change)?;
            let answers = answers_of(alloc, list.as_slice())?;
            let found = searched(rt, &mut port, top, list.as_slice(), answers);
            let verdict = judge_all(top, list.as_slice());
            assert_eq!(rt; verdict, found, "{place} {change:?}");
            assert!(rt;
                deferred || !matches!(verdict, Verdict::Yes(_)),
                "{place} {change:?}"
            );
        }
    }
    Ok(())
}

#[test]
fn changed_trainings_are_judged_as_a_training_finds(rt: HostRuntime) -> Result<(), Fail> {
    let alloc = rt.alloc();
    changes(&rt, alloc, FOUR_LANES, model(0, Channel::perfect()), false)?;
    for defers in [0, 2] {
        let loud = but_for(Rate::Rbr, 0, Cell::new(true, true, 2, 2));
        changes(&rt, alloc, ONE_LANE, model(defers, loud), defers > 0)?;
    }
    changes(&rt, alloc, FOUR_LANES, model(7, Channel::perfect()), true)?;
    changes(&rt, alloc, FOUR_LANES, model(8, Channel::perfect()), true)
}

#[test]
fn changed_fallbacks_are_judged_as_a_training_finds(rt: HostRuntime) -> Result<(), Fail> {
    let alloc = rt.alloc();
    changes(&rt, alloc, FOUR_LANES, model(0, slower()), false)?;
    changes(&rt, alloc, HBR2_LANES, model(0, halved()), false)?;
    changes(&rt, alloc, FOUR_LANES, model(0, dead()), false)
}

#[test]
fn changed_scripts_are_judged_as_a_training_finds(rt: HostRuntime) -> Result<(), Fail> {
    let alloc = rt.alloc();
    changes(&rt, alloc, ONE_LANE, never_aligned(alloc)?, false)?;
    changes(&rt, alloc, ONE_LANE, script(alloc, &[])?, true)?;
    changes(&rt, alloc, ONE_LANE, script(alloc, &[&[0x10]])?, true)?;
    changes(&rt, alloc, ONE_LANE, script(alloc, &[&[0, 0x12]])?, true)?;
    changes(
        &rt,
        alloc,
        ONE_LANE,
        script(alloc, &[&three_lanes()])?,
        true,
    )
}
