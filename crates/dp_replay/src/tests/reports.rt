use super::sending::USAGE;
use super::{CALM, ends, modelled, run, scripted};
use dpx_sinkmodel::PlanPort;
use std::alloc::Global;
use std::process::Abort;
use std::test::Fail;
use std::thread::Threads;

/// These words have no reading.
fn is_usage<R: Abort + Threads + Sync>(rt: &R, alloc: Global, words: &str) -> Result<(), Fail> {
    let mut port = PlanPort::new(alloc)?;
    let ran = run(rt, alloc, words, CALM, CALM, b"{}", &mut port)?;
    assert_eq!(rt; ran.ended(), (USAGE, 2), "{words}");
    Ok(())
}

#[test]
fn words_without_a_reading_are_usage(rt: HostRuntime) -> Result<(), Fail> {
    for words in [
        "",
        "train",
        "--help",
        "train a b",
        "train -job",
        "Train a",
        "job.json train",
        "edid",
        "edid a b",
    ] {
        is_usage(&rt, rt.alloc(), words)?;
    }
    Ok(())
}

#[test]
fn jobs_without_a_reading_are_refused(rt: HostRuntime) -> Result<(), Fail> {
    for (job, report) in [
        ("", "job not json\n"),
        ("{}", "job wrong link\n"),
        ("[]", "job wrong job\n"),
        (r#"{"link":{"rate":"RBR","lanes":3}}"#, "job wrong lanes\n"),
        (
            r#"{"link":{"rate":"RBR","lanes":1},"sink":{"model":{}}}"#,
            "job wrong caps\n",
        ),
    ] {
        ends(&rt, rt.alloc(), job, (report, 3))?;
    }
    Ok(())
}

/// Good capabilities, and a lane that is done at both statuses. All other answers are to writes.
const DONE_AT_ONCE: &str =
    "0012068100000000000000000000000000 00 00 00 00 00010000000000 00 00070001000000 00";

/// The same from a sink without enhanced framing.
pub(crate) const DONE_IN_DEFAULT_FRAMING: &str =
    "0012060100000000000000000000000000 00 00 00 00 00010000000000 00 00070001000000 00";

pub(crate) const ASKS_FOR_SWING: &str =
    "0012068100000000000000000000000000 00 00 00 00 00000000000A00 00 00010000000A00 00
    00070001000A00 00";

pub(crate) const NO_CLOCK: &str =
    "0012068100000000000000000000000000 00 00 00 00 00000000000000 00 00000000000000 00
    00000000000000 00 00000000000000 00 00000000000000 00";

const NEVER_ALIGNED: &str =
    "0012068100000000000000000000000000 00 00 00 00 00010000000000 00 00070000000000 00
    00070000000000 00 00070000000000 00 00070000000000 00 00070000000000 00";

/// The answers of a script, and the report and the status that they come to for RBR on one lane.
type Scripted = (&'static str, &'static str, u8);

const SCRIPTS: [Scripted; 12] = [
    // no answer
    ("", "aux spent at 00000 last silent requests 8\n", 4),
    // a link that is done at once
    (
        DONE_AT_ONCE,
        "trained RBR 1 requests 9\n\
        lane 0 swing 0 emphasis 0\n\
        last 07 00 01 00 00 00\n",
        0,
    ),
    // a link that is done at once in default framing
    (
        DONE_IN_DEFAULT_FRAMING,
        "trained RBR 1 requests 9\n\
        lane 0 swing 0 emphasis 0\n\
        last 07 00 01 00 00 00\n",
        0,
    ),
    // a lane that asks for more
    (
        ASKS_FOR_SWING,
        "trained RBR 1 requests 11\n\
        lane 0 swing 2 emphasis 1\n\
        last 07 00 01 00 0A 00\n",
        0,
    ),
    // five statuses without a clock
    (
        NO_CLOCK,
        "not trained requests 15\n\
        last 00 00 00 00 00 00\n",
        4,
    ),
    // lanes that are done without alignment
    (
        NEVER_ALIGNED,
        "not trained requests 17\n\
        last 07 00 00 00 00 00\n",
        4,
    ),
    // three lanes, which there are not
    (
        "0012068300000000000000000000000000",
        "caps lanes 83 requests 1\n",
        4,
    ),
    // no lanes
    (
        "0012068000000000000000000000000000",
        "caps lanes 80 requests 1\n",
        4,
    ),
    // no enhanced framing, which is no refusal, and then silence
    (
        "0012060400000000000000000000000000",
        "aux spent at 00600 last silent requests 9\n",
        4,
    ),
    // a rate below RBR
    (
        "0012058400000000000000000000000000",
        "caps rate 05 requests 1\n",
        4,
    ),
    // a refusal
    ("10", "aux refused at 00000 taken 0 requests 1\n", 4),
    // a read that brings too little, and then silence
    ("0012", "aux spent at 00000 last silent requests 8\n", 4),
];

fn script_ends<R: Abort + Threads + Sync>(
    rt: &R,
    alloc: Global,
    answers: &str,
    wanted: (&str, u8),
) -> Result<(), Fail> {
    let job = scripted(alloc, answers)?;
    ends(rt, alloc, job.as_str(), wanted)
}

#[test]
fn scripted_sinks_are_reported_as_they_answer(rt: HostRuntime) -> Result<(), Fail> {
    for (answers, report, status) in SCRIPTS {
        script_ends(&rt, rt.alloc(), answers, (report, status))?;
    }
    Ok(())
}

/// Each answer behind seven defers.
fn deferred(alloc: Global, answers: &str) -> Result<String, Fail> {
    let mut text = String::new(alloc);
    for answer in answers.split_whitespace() {
        write!(text, "20 20 20 20 20 20 20 {answer} ")?;
    }
    Ok(text)
}

#[test]
fn seven_defers_before_each_answer_are_waited_out(rt: HostRuntime) -> Result<(), Fail> {
    let answers = deferred(rt.alloc(), DONE_AT_ONCE)?;
    let report = "trained RBR 1 requests 72\n\
        lane 0 swing 0 emphasis 0\n\
        last 07 00 01 00 00 00\n";
    script_ends(&rt, rt.alloc(), answers.as_str(), (report, 0))
}

/// The rate and the lanes that a job asks for, the members of its model behind the capabilities,
/// the report and the status that it comes to.
type Modelled = (&'static str, u8, &'static str, &'static str, u8);

/// At no rate does any lane recover its clock.
pub(crate) const DEAD: &str = r#","channel":{"RBR":[[0,0,0,0],[0,0,0,0],[0,0,0,0],[0,0,0,0]],
    "HBR":[[0,0,0,0],[0,0,0,0],[0,0,0,0],[0,0,0,0]],"HBR2":[[0,0,0,0],[0,0,0,0],[0,0,0,0],[0,0,0,0]],
    "HBR3":[[0,0,0,0],[0,0,0,0],[0,0,0,0],[0,0,0,0]]}"#;

/// At RBR lane 0 asks for swing 2 and pre-emphasis 2.
pub(crate) const LOUD: &str = r#","channel":{"RBR":[[1,1,2,2],[1,1,0,0],[1,1,0,0],[1,1,0,0]]}"#;

/// At HBR3 lane 3 does not recover its clock.
pub(crate) const NO_CLOCK_ON_LANE_3: &str =
    r#","channel":{"HBR3":[[1,1,0,0],[1,1,0,0],[1,1,0,0],[0,1,0,0]]}"#;

/// At HBR2 lane 2 does not equalise.
pub(crate) const NO_EQUALISATION_ON_LANE_2: &str =
    r#","channel":{"HBR2":[[1,1,0,0],[1,1,0,0],[1,0,0,0],[1,1,0,0]]}"#;

const MODELS: [Modelled; 7] = [
    // a perfect channel
    (
        "HBR3",
        4,
        "",
        "trained HBR3 4 requests 10\n\
        lane 0 swing 0 emphasis 0\n\
        lane 1 swing 0 emphasis 0\n\
        lane 2 swing 0 emphasis 0\n\
        lane 3 swing 0 emphasis 0\n\
        last 77 77 01 00 00 00\n",
        0,
    ),
    // seven defers before each answer
    (
        "HBR3",
        4,
        r#","defers":7"#,
        "trained HBR3 4 requests 80\n\
        lane 0 swing 0 emphasis 0\n\
        lane 1 swing 0 emphasis 0\n\
        lane 2 swing 0 emphasis 0\n\
        lane 3 swing 0 emphasis 0\n\
        last 77 77 01 00 00 00\n",
        0,
    ),
    // eight defers before each answer
    (
        "HBR3",
        4,
        r#","defers":8"#,
        "aux spent at 00000 last defer requests 8\n",
        4,
    ),
    // a lane that asks for more
    (
        "RBR",
        1,
        LOUD,
        "trained RBR 1 requests 12\n\
        lane 0 swing 2 emphasis 1\n\
        last 07 00 01 00 0A 00\n",
        0,
    ),
    // a lower rate where a lane has no clock
    (
        "HBR3",
        4,
        NO_CLOCK_ON_LANE_3,
        "trained HBR2 4 requests 22\n\
        lane 0 swing 0 emphasis 0\n\
        lane 1 swing 0 emphasis 0\n\
        lane 2 swing 0 emphasis 0\n\
        lane 3 swing 0 emphasis 0\n\
        last 77 77 01 00 00 00\n",
        0,
    ),
    // fewer lanes where one does not equalise
    (
        "HBR2",
        4,
        NO_EQUALISATION_ON_LANE_2,
        "trained HBR2 2 requests 24\n\
        lane 0 swing 0 emphasis 0\n\
        lane 1 swing 0 emphasis 0\n\
        last 77 00 01 00 00 00\n",
        0,
    ),
    // no configuration is left
    (
        "HBR3",
        4,
        DEAD,
        "not trained requests 148\n\
        last 00 00 00 00 00 00\n",
        4,
    ),
];

fn model_ends<R: Abort + Threads + Sync>(
    rt: &R,
    alloc: Global,
    (rate, lanes, more): (&str, u8, &str),
    wanted: (&str, u8),
) -> Result<(), Fail> {
    let job = modelled(alloc, rate, lanes, more)?;
    ends(rt, alloc, job.as_str(), wanted)
}

#[test]
fn modelled_sinks_are_reported_as_their_channels_are(rt: HostRuntime) -> Result<(), Fail> {
    for (rate, lanes, more, report, status) in MODELS {
        model_ends(&rt, rt.alloc(), (rate, lanes, more), (report, status))?;
    }
    Ok(())
}

#[test]
fn a_rate_between_two_codes_counts_as_the_lower(rt: HostRuntime) -> Result<(), Fail> {
    let job =
        r#"{"link":{"rate":"HBR3","lanes":1},"sink":{"model":{"caps":"12198100000000000000000000000000"}}}"#;
    let report = "trained HBR2 1 requests 9\n\
        lane 0 swing 0 emphasis 0\n\
        last 07 00 01 00 00 00\n";
    ends(&rt, rt.alloc(), job, (report, 0))
}
