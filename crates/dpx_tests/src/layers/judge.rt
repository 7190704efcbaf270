//! The judge over histories of trainings.

ghost use Rattle.std.specs.Prelude.{◌<◌};

use dpx_base::{Answer, AuxPort, Bytes20, Entry, Lanes, Link, Rate};
use dpx_dpcd::{AnswerList, Cell, Channel, LoadPort, SinkPlan};
use dpx_judge::{Ending, Judge, JudgeStep, Verdict, judge_all};
use dpx_link::{TrainEnd, train};
use dpx_sinkmodel::PlanPort;
use std::alloc::{AllocError, Global};
use std::process::Abort;
use std::test::Fail;

mod changed;

fn link(rate: Rate, lanes: Lanes) -> Link {
    Link {
        rate,
        lanes,
        enhanced: true,
    }
}

const ONE_LANE: Link = Link {
    rate: Rate::Rbr,
    lanes: Lanes::One,
    enhanced: true,
};

const FOUR_LANES: Link = Link {
    rate: Rate::Hbr3,
    lanes: Lanes::Four,
    enhanced: true,
};

const HBR2_LANES: Link = Link {
    rate: Rate::Hbr2,
    lanes: Lanes::Four,
    enhanced: true,
};

const CAPS: [u8; 16] = [
    0x12, 0x14, 0xc4, 0x81, 0, 0, 0, 0, 0, 0, 0, 0, 0, 0, 0x80, 0x00,
];

const EXTENDED: [u8; 16] = [
    0x14, 0x1e, 0xc4, 0x81, 0, 0, 0, 0, 0, 0, 0, 0, 0, 0, 0x80, 0x00,
];

fn model(defers: u8, channel: Channel) -> SinkPlan {
    SinkPlan::Model {
        caps: CAPS,
        extended: EXTENDED,
        defers,
        channel,
    }
}

/// A channel that is perfect but for this cell.
fn but_for(rate: Rate, lane: u8, cell: Cell) -> Channel
    requires { lane < 4 }
{
    let mut channel = Channel::perfect();
    channel.set(rate, lane, cell);
    channel
}

fn dead() -> Channel {
    let mut channel = Channel::perfect();
    for rate in [Rate::Rbr, Rate::Hbr, Rate::Hbr2, Rate::Hbr3] {
        for lane in 0..4 {
            channel.set(rate, lane, Cell::new(false, false, 0, 0));
        }
    }
    channel
}

/// A channel whose lane 3 fails clock recovery at HBR3.
fn slower() -> Channel {
    but_for(Rate::Hbr3, 3, Cell::new(false, true, 0, 0))
}

/// A channel whose lane 2 fails equalisation at HBR2.
fn halved() -> Channel {
    but_for(Rate::Hbr2, 2, Cell::new(true, false, 0, 0))
}

fn script(alloc: Global, texts: &[&[u8]]) -> Result<SinkPlan, AllocError> {
    let mut answers = Vec::new(alloc);
    for bytes in texts {
        if bytes.len() <= 20 {
            answers.push(Answer::Bytes(Bytes20::from_slice(bytes)))?;
        }
    }
    Ok(SinkPlan::Script(AnswerList::from_vec(answers)))
}

const BLOCK: [u8; 17] = [0, 0x12, 0x06, 0x81, 0, 0, 0, 0, 0, 0, 0, 0, 0, 0, 0, 0, 0];

/// Capabilities with a number of lanes that no link has.
fn three_lanes() -> [u8; 17] {
    let mut block = BLOCK;
    block[3] = 0x83;
    block
}

const DONE: [u8; 1] = [0];

const CLOCK: [u8; 7] = [0, 0x01, 0, 0, 0, 0, 0];

/// Equalised, and never aligned.
const UNALIGNED: [u8; 7] = [0, 0x07, 0, 0, 0, 0, 0];

fn never_aligned(alloc: Global) -> Result<SinkPlan, AllocError> {
    script(
        alloc,
        &[
            &BLOCK, &DONE, &DONE, &DONE, &DONE, &CLOCK, &DONE, &UNALIGNED, &DONE, &UNALIGNED,
            &DONE, &UNALIGNED, &DONE, &UNALIGNED, &DONE, &UNALIGNED, &DONE,
        ],
    )
}

/// Trains `top` against the plan.
fn trains(rt: &impl Abort, port: &mut PlanPort, top: Link, plan: SinkPlan) -> TrainEnd {
    port.load(plan);
    assert!(rt; port.asked() < 1_000_000);
    train(port, top)
}

/// A training of `top` against the plan has a history that is judged so.
fn judged(rt: &impl Abort, port: &mut PlanPort, top: Link, plan: SinkPlan, ending: Ending) {
    trains(rt, port, top, plan);
    assert_eq!(rt; judge_all(top, port.history()), Verdict::Yes(ending));
}

#[test]
fn histories_are_judged_with_their_own_ends(rt: HostRuntime) -> Result<(), Fail> {
    let mut port = PlanPort::new(rt.alloc())?;
    let four = Ending::Trained(FOUR_LANES);
    judged(
        &rt,
        &mut port,
        FOUR_LANES,
        model(0, Channel::perfect()),
        four,
    );
    judged(
        &rt,
        &mut port,
        FOUR_LANES,
        model(7, Channel::perfect()),
        four,
    );
    judged(
        &rt,
        &mut port,
        FOUR_LANES,
        model(8, Channel::perfect()),
        Ending::AuxEnded,
    );
    let loud = but_for(Rate::Rbr, 0, Cell::new(true, true, 2, 2));
    judged(
        &rt,
        &mut port,
        ONE_LANE,
        model(0, loud),
        Ending::Trained(ONE_LANE),
    );
    let lower = Ending::Trained(link(Rate::Hbr2, Lanes::Four));
    judged(&rt, &mut port, FOUR_LANES, model(0, slower()), lower);
    judged(
        &rt,
        &mut port,
        FOUR_LANES,
        model(0, dead()),
        Ending::NotTrained,
    );
    Ok(())
}

#[test]
fn histories_of_scripts_are_judged_with_their_own_ends(rt: HostRuntime) -> Result<(), Fail> {
    let mut port = PlanPort::new(rt.alloc())?;
    judged(
        &rt,
        &mut port,
        ONE_LANE,
        script(rt.alloc(), &[])?,
        Ending::AuxEnded,
    );
    judged(
        &rt,
        &mut port,
        ONE_LANE,
        script(rt.alloc(), &[&[0x10]])?,
        Ending::AuxEnded,
    );
    judged(
        &rt,
        &mut port,
        ONE_LANE,
        script(rt.alloc(), &[&[0, 0x12]])?,
        Ending::AuxEnded,
    );
    judged(
        &rt,
        &mut port,
        ONE_LANE,
        never_aligned(rt.alloc())?,
        Ending::NotTrained,
    );
    let refused = script(rt.alloc(), &[&three_lanes()])?;
    judged(&rt, &mut port, ONE_LANE, refused, Ending::CapsRefused);
    let fewer = Ending::Trained(link(Rate::Hbr2, Lanes::Two));
    judged(&rt, &mut port, HBR2_LANES, model(0, halved()), fewer);
    Ok(())
}

#[test]
fn an_entry_behind_the_end_differs_and_so_does_each_later_one(rt: HostRuntime) {
    let mut judge = Judge::new(ONE_LANE);
    let wait = Entry::Waited(100);
    assert_eq!(rt; judge.feed(&wait), JudgeStep::Differs);
    assert_eq!(rt; judge.feed(&wait), JudgeStep::Differs);
    let mut judge = Judge::new(ONE_LANE);
    let asked = Entry::Asked {
        request: Bytes20::from_slice(&[0x90, 0x00, 0x00, 0x0f]),
        answer: Answer::Bytes(Bytes20::from_slice(&[0x10])),
    };
    assert_eq!(rt; judge.feed(&asked), JudgeStep::Ended(Ending::AuxEnded));
    assert_eq!(rt; judge.feed(&asked), JudgeStep::Differs);
    assert_eq!(rt; judge.feed(&asked), JudgeStep::Differs);
}
