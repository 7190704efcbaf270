ghost use Rattle.std.specs.Prelude.{◌<◌};

use super::{CALM, Stream, modelled, run};
use dpx_sinkmodel::PlanPort;
use std::alloc::Global;
use std::process::Abort;
use std::test::Fail;
use std::thread::Threads;

/// The report of a perfect channel with one lane at RBR.
const REPORT: &str =
    "trained RBR 1 requests 10\nlane 0 swing 0 emphasis 0\nlast 07 00 01 00 00 00\n";

/// Of the training with this report.
const ENTRIES: usize = 12;

/// `train` of this job prints this, and ends with this status and so many entries of the history.
fn ends<R: Abort + Threads + Sync>(
    rt: &R,
    alloc: Global,
    reads: Stream,
    writes: Stream,
    job: &str,
    wanted: (&str, u8, usize),
) -> Result<(), Fail>
    requires { 0 < reads.size }
{
    let mut port = PlanPort::new(alloc)?;
    let ran = run(
        rt,
        alloc,
        "train job.json",
        reads,
        writes,
        job.as_bytes(),
        &mut port,
    )?;
    let (printed, status) = ran.ended();
    assert_eq!(rt; (printed, status, port.history().len()), wanted);
    Ok(())
}

#[test]
fn a_read_that_fails_ends_the_command(rt: HostRuntime) -> Result<(), Fail> {
    let job = modelled(rt.alloc(), "RBR", 1, "")?;
    // the first read, one in the middle, the one that would find the end
    for number in [0, 3, job.len() as u64 / 16 + 1] {
        let reads = Stream {
            size: 16,
            fails: &[number],
        };
        let wanted = ("read fault\n", 7, 0);
        ends(&rt, rt.alloc(), reads, CALM, job.as_str(), wanted)?;
    }
    Ok(())
}

#[test]
fn no_read_is_made_behind_one_that_fails(rt: HostRuntime) -> Result<(), Fail> {
    let job = modelled(rt.alloc(), "RBR", 1, "")?;
    // the read that would bring the last 12 of 140 bytes
    let reads = Stream {
        size: 16,
        fails: &[8],
    };
    let mut port = PlanPort::new(rt.alloc())?;
    let ran = run(
        &rt,
        rt.alloc(),
        "train job.json",
        reads,
        CALM,
        job.as_bytes(),
        &mut port,
    )?;
    assert_eq!(rt; (ran.ended(), ran.unread), (("read fault\n", 7), 12));
    Ok(())
}

#[test]
fn the_cuts_of_a_source_do_not_matter(rt: HostRuntime) -> Result<(), Fail> {
    let job = modelled(rt.alloc(), "RBR", 1, "")?;
    for size in [1, 2, 7, 4096] {
        let reads = Stream { size, fails: &[] };
        let wanted = (REPORT, 0, ENTRIES);
        ends(&rt, rt.alloc(), reads, CALM, job.as_str(), wanted)?;
    }
    Ok(())
}

#[test]
fn a_write_that_fails_ends_the_command(rt: HostRuntime) -> Result<(), Fail> {
    let job = modelled(rt.alloc(), "RBR", 1, "")?;
    let rows: [(usize, &[u64], &str, u8); 4] = [
        (1024, &[0], "", 8),
        (0, &[], "", 8),
        (13, &[], "trained RBR 1", 8),
        (REPORT.len(), &[], REPORT, 0),
    ];
    for (size, fails, printed, status) in rows {
        let writes = Stream { size, fails };
        let wanted = (printed, status, ENTRIES);
        ends(&rt, rt.alloc(), CALM, writes, job.as_str(), wanted)?;
    }
    Ok(())
}

/// A job and then spaces, so many bytes in all.
fn padded(alloc: Global, length: usize) -> Result<Vec<u8>, Fail> {
    let mut bytes = Vec::new(alloc);
    bytes.extend_from_slice(modelled(alloc, "RBR", 1, "")?.as_bytes())?;
    bytes.resize(length, b' ')?;
    Ok(bytes)
}

/// Of a job of so many bytes: how the command ends, and how many bytes it leaves.
fn reads<R: Abort + Threads + Sync>(
    rt: &R,
    alloc: Global,
    length: usize,
    fails: &[u64],
    wanted: (&str, u8),
    unread: usize,
) -> Result<(), Fail> {
    let job = padded(alloc, length)?;
    let mut port = PlanPort::new(alloc)?;
    let ran = run(
        rt,
        alloc,
        "train job.json",
        Stream { size: 1024, fails },
        CALM,
        job.as_slice(),
        &mut port,
    )?;
    assert_eq!(rt; (ran.ended(), ran.unread), (wanted, unread));
    Ok(())
}

#[test]
fn a_job_is_read_up_to_its_longest_and_no_further(rt: HostRuntime) -> Result<(), Fail> {
    reads(&rt, rt.alloc(), 1_048_576, &[], (REPORT, 0), 0)?;
    let too_long = ("job too long\n", 3);
    // of six bytes too many one is read
    reads(&rt, rt.alloc(), 1_048_582, &[], too_long, 5)?;
    // a further read would fail
    reads(&rt, rt.alloc(), 1_048_582, &[1025], too_long, 0)
}
