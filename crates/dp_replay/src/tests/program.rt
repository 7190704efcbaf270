//! The program over files: which file each word names, what is printed, and the status.

use super::generating::FOUR;
use super::receiving::{ALL, EIGHT, capture, report};
use super::sending::{PIXELS, PLAN, TWO_FRAMES, TWO_LANES, USAGE, job, pixels};
use super::words;
use crate::file_sink::FileSink;
use crate::run_words;
use dpx_base::write_pixel;
use std::alloc::Global;
use std::fs;
use std::fs::File;
use std::process::Abort;
use std::rt::Files;
use std::test::Fail;
use std::thread::Threads;

/// The program prints this for these words, and gives this status.
fn ends<R: Abort + AllocGlobal + Files<File = File> + Threads + Sync>(
    rt: &R,
    line: &str,
    wanted: (&str, u8),
) -> Result<(), Fail> {
    let words = words(rt.alloc(), line)?;
    let mut out = FileSink::create(rt, "report");
    let status = run_words(rt, words.as_slice(), &mut out)?;
    let printed = fs::read_to_string(rt, "report")?;
    assert_eq!(rt; (printed.as_str(), status), wanted, "{line}");
    Ok(())
}

#[test]
fn words_without_a_file_are_printed_for(rt: HostRuntime) -> Result<(), Fail> {
    ends(&rt, "gen 4", (FOUR, 0))?;
    for line in ["", "gen", "send job.json frames.pixels", "train -job"] {
        ends(&rt, line, (USAGE, 2))?;
    }
    Ok(())
}

#[test]
fn files_that_are_not_there_are_faults(rt: HostRuntime) -> Result<(), Fail> {
    for line in [
        "train absent",
        "send absent frames.pixels made.dpx",
        "run absent frames.pixels made.dpx",
        "recv absent made.pixels",
        "edid absent",
        "watch absent",
        "judge absent",
    ] {
        ends(&rt, line, ("read fault\n", 7))?;
    }
    Ok(())
}

/// The records of the two frames' pixels.
fn records(alloc: Global) -> Result<Vec<u8>, Fail> {
    let mut bytes = Vec::new(alloc);
    for pixel in &pixels(alloc, PIXELS)? {
        bytes.extend_from_slice(&write_pixel(*pixel))?;
    }
    Ok(bytes)
}

/// The file has these bytes.
fn holds<R: Abort + AllocGlobal + Files<File = File>>(
    rt: &R,
    name: &str,
    bytes: &[u8],
) -> Result<(), Fail> {
    let held = fs::read(rt, name)?;
    assert!(rt; held.as_slice() == bytes, "{name}");
    Ok(())
}

#[test]
fn frames_go_from_file_to_file_and_back(rt: HostRuntime) -> Result<(), Fail> {
    let job = job(rt.alloc(), TWO_LANES, TWO_FRAMES, 8)?;
    let frames = records(rt.alloc())?;
    fs::write(&rt, "job.json", job.as_bytes())?;
    fs::write(&rt, "frames.pixels", frames.as_slice())?;
    let sent = format!(in rt.alloc(); "{PLAN}sent frames 2 lines 4 clocks 699\n")?;
    ends(
        &rt,
        "send job.json frames.pixels frames.dpx",
        (sent.as_str(), 0),
    )?;
    let words = capture(&rt, rt.alloc(), TWO_LANES, 8)?;
    holds(&rt, "frames.dpx", words.as_slice())?;
    let received = report(rt.alloc(), 2, EIGHT, ALL)?;
    ends(&rt, "recv frames.dpx back.pixels", (received.as_str(), 0))?;
    holds(&rt, "back.pixels", frames.as_slice())?;
    holds(&rt, "frames.dpx", words.as_slice())?;
    holds(&rt, "frames.pixels", frames.as_slice())
}
