//! `edid`: reports of base blocks, fetches that fail, refusals, faults.

ghost use Rattle.std.specs.Prelude.{◌<◌};

use super::{CALM, Ran, Stream, modelled, run, scripted};
use dpx_base::{Answer, Entry};
use dpx_sinkmodel::PlanPort;
use std::alloc::Global;
use std::process::Abort;
use std::test::Fail;
use std::thread::Threads;

/// A start and eight reads of sixteen bytes: a block with one timing.
const DISPLAY: &str = "00 0000FFFFFFFFFFFF000000000000000000 0000000104000000000000000000000000
    0000000000000000000000000000000000 000000000000001A3680A070381F403020
    00350000000000001E0000000000000000 0000000000000000000000000000000000
    0000000000000000000000000000000000 00000000000000000000000000000000E7";

const DISPLAY_REPORT: &str = "edid 1.4 requests 9
slot 0 width 1920 height 1080 total 2080 1111 start 112 28 sync 32 5 polarity 0 0 clock 138500
slot 1 other
slot 2 other
slot 3 other
";

/// The same with a wrong sum.
const WRONG_SUM: &str = "00 0000FFFFFFFFFFFF000000000000000000 0000000104000000000000000000000000
    0000000000000000000000000000000000 000000000000001A3680A070381F403020
    00350000000000001E0000000000000000 0000000000000000000000000000000000
    0000000000000000000000000000000000 0000000000000000000000000000000000";

/// A timing with negative pulses, an interlaced one, one that is no mode, and nothing.
const FOUR_SLOTS: &str = "00 0000FFFFFFFFFFFF000000000000000000 0000000104000000000000000000000000
    0000000000000000000000000000000000 00000000000000D60980A020E02D101060
    00A2000000000000181A3680A070381F40 003020350000000000009E1A360FA00038
    001F403020350000000000001E00000000 00000000000000000000000000000000C8";

const FOUR_SLOTS_REPORT: &str = "edid 1.4 requests 9
slot 0 width 640 height 480 total 800 525 start 144 35 sync 96 2 polarity 1 1 clock 25180
slot 1 interlaced
slot 2 illegal width
slot 3 other
";

/// `edid` of this job, over these streams.
fn edid<R: Threads + Sync>(
    rt: &R,
    alloc: Global,
    reads: Stream,
    writes: Stream,
    job: &str,
    port: &mut PlanPort,
) -> Result<Ran, Fail>
    requires { 0 < reads.size }
{
    run(
        rt,
        alloc,
        "edid job.json",
        reads,
        writes,
        job.as_bytes(),
        port,
    )
}

/// `edid` of this job ends with this report and status, after so many requests.
fn ends<R: Abort + Threads + Sync>(
    rt: &R,
    alloc: Global,
    job: &str,
    wanted: (&str, u8),
    requests: usize,
) -> Result<(), Fail> {
    let mut port = PlanPort::new(alloc)?;
    let ran = edid(rt, alloc, CALM, CALM, job, &mut port)?;
    assert_eq!(rt; ran.ended(), wanted, "{job}");
    assert_eq!(rt; (port.history().len(), ran.unread), (requests, 0));
    Ok(())
}

#[test]
fn blocks_are_reported(rt: HostRuntime) -> Result<(), Fail> {
    for (answers, report, status) in [
        (DISPLAY, DISPLAY_REPORT, 0),
        (FOUR_SLOTS, FOUR_SLOTS_REPORT, 0),
        (WRONG_SUM, "edid sum 19 requests 9\n", 13),
    ] {
        let job = scripted(rt.alloc(), answers)?;
        ends(&rt, rt.alloc(), job.as_str(), (report, status), 9)?;
    }
    Ok(())
}

/// Eight answers of sixteen bytes FF behind a start.
const NO_HEADER: &str = "00 00FFFFFFFFFFFFFFFFFFFFFFFFFFFFFFFF 00FFFFFFFFFFFFFFFFFFFFFFFFFFFFFFFF
    00FFFFFFFFFFFFFFFFFFFFFFFFFFFFFFFF 00FFFFFFFFFFFFFFFFFFFFFFFFFFFFFFFF
    00FFFFFFFFFFFFFFFFFFFFFFFFFFFFFFFF 00FFFFFFFFFFFFFFFFFFFFFFFFFFFFFFFF
    00FFFFFFFFFFFFFFFFFFFFFFFFFFFFFFFF 00FFFFFFFFFFFFFFFFFFFFFFFFFFFFFFFF";

/// Version 2, and the sum made up for it.
const VERSION_2: &str = "00 0000FFFFFFFFFFFF000000000000000000 0000000204000000000000000000000000
    0000000000000000000000000000000000 0000000000000000000000000000000000
    0000000000000000000000000000000000 0000000000000000000000000000000000
    0000000000000000000000000000000000 0000000000000000000000000000000000";

#[test]
fn other_blocks_are_refused(rt: HostRuntime) -> Result<(), Fail> {
    let job = scripted(rt.alloc(), NO_HEADER)?;
    let wanted = ("edid header 0 requests 9\n", 13);
    ends(&rt, rt.alloc(), job.as_str(), wanted, 9)?;
    let job = scripted(rt.alloc(), VERSION_2)?;
    let wanted = ("edid version 02 requests 9\n", 13);
    ends(&rt, rt.alloc(), job.as_str(), wanted, 9)
}

#[test]
fn fetches_that_fail_are_reported(rt: HostRuntime) -> Result<(), Fail> {
    for (answers, report, requests) in [
        ("40", "i2c refused requests 1\n", 1),
        ("20 80 20 10", "i2c refused requests 4\n", 4),
        ("", "i2c spent last silent requests 8\n", 8),
        (
            "00 20 20 20 20 20 20 20 80",
            "i2c spent last defer requests 9\n",
            9,
        ),
        (
            "00 00 00 00 00 00 00 00 00",
            "i2c spent last malformed requests 9\n",
            9,
        ),
    ] {
        let job = scripted(rt.alloc(), answers)?;
        ends(&rt, rt.alloc(), job.as_str(), (report, 4), requests)?;
    }
    // a modelled sink knows native requests alone
    let job = modelled(rt.alloc(), "RBR", 1, "")?;
    let wanted = ("i2c spent last silent requests 8\n", 4);
    ends(&rt, rt.alloc(), job.as_str(), wanted, 8)
}

#[test]
fn a_job_needs_a_sink_alone(rt: HostRuntime) -> Result<(), Fail> {
    for (job, report) in [
        ("", "job not json\n"),
        ("[]", "job wrong job\n"),
        ("{}", "job wrong sink\n"),
        (r#"{"sink":{"script":["0"]}}"#, "job wrong script\n"),
        (r#"{"sink":{"model":{}}}"#, "job wrong caps\n"),
    ] {
        ends(&rt, rt.alloc(), job, (report, 3), 0)?;
    }
    let job = r#"{"link":7,"mode":[],"sink":{"script":["40"]}}"#;
    ends(&rt, rt.alloc(), job, ("i2c refused requests 1\n", 4), 1)
}

/// An ask of these bytes.
fn asks(rt: &impl Abort, entry: Option<&Entry>, wanted: &[u8], bytes: usize) {
    let Some(Entry::Asked { request, answer }) = entry else {
        assert!(rt; false, "no ask");
        return;
    };
    assert_eq!(rt; request.as_slice(), wanted);
    match answer {
        Answer::Silent => assert_eq!(rt; bytes, 0),
        Answer::Bytes(answer) => assert_eq!(rt; answer.len(), bytes),
    }
}

#[test]
fn the_history_is_a_start_and_eight_reads(rt: HostRuntime) -> Result<(), Fail> {
    let job = scripted(rt.alloc(), DISPLAY)?;
    let mut port = PlanPort::new(rt.alloc())?;
    edid(&rt, rt.alloc(), CALM, CALM, job.as_str(), &mut port)?;
    let history = port.history();
    asks(&rt, history.get(0), &[0x40, 0x00, 0x50, 0x00, 0x00], 1);
    for place in 1..8 {
        asks(&rt, history.get(place), &[0x50, 0x00, 0x50, 0x0f], 17);
    }
    asks(&rt, history.get(8), &[0x10, 0x00, 0x50, 0x0f], 17);
    Ok(())
}

#[test]
fn a_fault_at_each_read_and_write_is_named(rt: HostRuntime) -> Result<(), Fail> {
    let job = scripted(rt.alloc(), DISPLAY)?;
    let last = job.len() as u64 / 16 + 1;
    for number in [0, last] {
        let reads = Stream {
            size: 16,
            fails: &[number],
        };
        let mut port = PlanPort::new(rt.alloc())?;
        let ran = edid(&rt, rt.alloc(), reads, CALM, job.as_str(), &mut port)?;
        assert_eq!(rt;
            (ran.ended(), port.history().len()),
            (("read fault\n", 7), 0)
        );
    }
    for (size, printed) in [(0, ""), (4, "edid")] {
        let writes = Stream { size, fails: &[] };
        let mut port = PlanPort::new(rt.alloc())?;
        let ran = edid(&rt, rt.alloc(), CALM, writes, job.as_str(), &mut port)?;
        assert_eq!(rt; (ran.ended(), port.history().len()), ((printed, 8), 9));
    }
    Ok(())
}
