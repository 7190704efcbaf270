//! The reports of recorded histories.

ghost use Rattle.std.specs.Prelude.{◌<◌};

use super::{CALM, Stream, run};
use dpx_sinkmodel::PlanPort;
use std::alloc::Global;
use std::process::Abort;
use std::test::Fail;
use std::thread::Threads;

/// A training of HBR3 on four lanes, an entry a line: a request and its answer, or a wait.
const TRANSCRIPT: [&str; 12] = [
    r#"["9000000F","001214C481000000000000000000008000"]"#,
    r#"["9022000F","00141EC481000000000000000000008000"]"#,
    r#"["8006000001","00"]"#,
    r#"["800100011E84","00"]"#,
    r#"["800107010001","00"]"#,
    r#"["800102042100000000","00"]"#,
    "100",
    r#"["90020205","00111100000000"]"#,
    r#"["800102040700000000","00"]"#,
    "400",
    r#"["90020205","00777701000000"]"#,
    r#"["8001020000","00"]"#,
];

/// A job of HBR3 on four lanes with these entries.
fn job_of(alloc: Global, entries: &[&str]) -> Result<String, Fail> {
    let mut text = String::from_str(alloc, r#"{"link":{"rate":"HBR3","lanes":4},"entries":["#)?;
    for (number, entry) in entries.iter().enumerate() {
        let comma = if number == 0 { "" } else { "," };
        write!(text, "{comma}{entry}")?;
    }
    text.push_str("]}")?;
    Ok(text)
}

/// The report and the status of this job, and that the port was not asked.
fn ends<R: Abort + Threads + Sync>(
    rt: &R,
    alloc: Global,
    job: &str,
    reads: Stream,
    writes: Stream,
    wanted: (&str, u8),
) -> Result<(), Fail>
    requires { 0 < reads.size }
{
    let mut port = PlanPort::new(alloc)?;
    let ran = run(
        rt,
        alloc,
        "judge job.json",
        reads,
        writes,
        job.as_bytes(),
        &mut port,
    )?;
    assert_eq!(rt; (ran.ended(), port.history().len()), (wanted, 0), "{job}");
    Ok(())
}

/// A job with these entries ends so.
fn judges<R: Abort + Threads + Sync>(
    rt: &R,
    alloc: Global,
    entries: &[&str],
    wanted: (&str, u8),
) -> Result<(), Fail> {
    let job = job_of(alloc, entries)?;
    ends(rt, alloc, job.as_str(), CALM, CALM, wanted)
}

/// The transcript with this entry at this place.
fn with(place: usize, entry: &'static str) -> [&'static str; 12]
    requires { place < 12 }
{
    let mut entries = TRANSCRIPT;
    entries[place] = entry;
    entries
}

#[test]
fn a_transcript_of_a_training_is_judged_yes(rt: HostRuntime) -> Result<(), Fail> {
    let yes = ("judge yes trained HBR3 4\n", 0);
    judges(&rt, rt.alloc(), &TRANSCRIPT, yes)?;
    let refused = [r#"["9000000F","10"]"#];
    judges(&rt, rt.alloc(), &refused, ("judge yes aux ended\n", 0))?;
    let three_lanes = [r#"["9000000F","0012148381000000000000000000000000"]"#];
    judges(
        &rt,
        rt.alloc(),
        &three_lanes,
        ("judge yes caps refused\n", 0),
    )
}

#[test]
fn a_transcript_that_breaks_off_is_short(rt: HostRuntime) -> Result<(), Fail> {
    judges(
        &rt,
        rt.alloc(),
        &TRANSCRIPT[..11],
        ("judge short after 11\n", 14),
    )?;
    judges(&rt, rt.alloc(), &[], ("judge short after 0\n", 14))
}

#[test]
fn a_transcript_differs_at_its_first_wrong_entry(rt: HostRuntime) -> Result<(), Fail> {
    judges(
        &rt,
        rt.alloc(),
        &with(9, "100"),
        ("judge differs at 9\n", 14),
    )?;
    let unaligned = with(10, r#"["90020205","00777700000000"]"#);
    judges(&rt, rt.alloc(), &unaligned, ("judge differs at 11\n", 14))?;
    let mut doubled = [TRANSCRIPT[11]; 13];
    doubled[..12].copy_from_slice(&TRANSCRIPT);
    judges(&rt, rt.alloc(), &doubled, ("judge differs at 12\n", 14))
}

#[test]
fn jobs_without_a_transcript_are_refused(rt: HostRuntime) -> Result<(), Fail> {
    let wrong = ("job wrong entries\n", 3);
    judges(&rt, rt.alloc(), &["-1"], wrong)?;
    judges(&rt, rt.alloc(), &["4294967296"], wrong)?;
    judges(&rt, rt.alloc(), &[r#"["90"]"#], wrong)?;
    judges(&rt, rt.alloc(), &[r#"["9","00"]"#], wrong)?;
    let link = r#"{"link":{"rate":"HBR3","lanes":4}}"#;
    ends(&rt, rt.alloc(), link, CALM, CALM, wrong)
}

#[test]
fn faults_of_a_judge_are_told(rt: HostRuntime) -> Result<(), Fail> {
    let failing = Stream {
        size: 64,
        fails: &[0],
    };
    let job = job_of(rt.alloc(), &TRANSCRIPT)?;
    ends(
        &rt,
        rt.alloc(),
        job.as_str(),
        failing,
        CALM,
        ("read fault\n", 7),
    )?;
    ends(&rt, rt.alloc(), job.as_str(), CALM, failing, ("", 8))
}
