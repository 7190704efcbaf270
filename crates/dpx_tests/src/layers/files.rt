//! Jobs, good and bad, as tables: a frame, what is wrong, and the pieces that make it so.

use dpx_files::{JobBad, Need, read_job};
use std::alloc::Global;
use std::process::Abort;
use std::test::Fail;

mod generator;
mod header;
mod link;
mod model;
mod shape;
mod sink;
mod text;

/// What stands before and behind a piece of a job.
pub(crate) type Frame = (&'static str, &'static str);

/// A frame, how a job is read with each of the pieces in it, and the pieces.
pub(crate) type Row = (Frame, &'static str, &'static str);

pub(crate) const WHOLE: Frame = ("", "");

/// A script.
pub(crate) const SCRIPT: Frame = (
    r#"{"link":{"rate":"HBR","lanes":2},"sink":{"script":"#,
    "}}",
);

/// How a job is read for a command: `ok`, or what is said of it behind `job`.
pub(crate) fn outcome_for(alloc: Global, need: Need, bytes: &[u8]) -> &'static str {
    match read_job(alloc, bytes, need) {
        Ok(_) => "ok",
        Err(JobBad::TooLong) => "too long",
        Err(JobBad::NotJson) => "not json",
        Err(JobBad::Wrong(field)) => field.name(),
        Err(JobBad::Memory) => "memory",
    }
}

/// How a job is read to train its link.
pub(crate) fn outcome(alloc: Global, bytes: &[u8]) -> &'static str {
    outcome_for(alloc, Need::Train, bytes)
}

/// Each piece in its frame has this outcome. Semicolons stand between the pieces.
pub(crate) fn ends(
    rt: &impl Abort,
    alloc: Global,
    frame: Frame,
    wanted: &str,
    pieces: &str,
) -> Result<(), Fail> {
    let (before, behind) = frame;
    for piece in pieces.split(';') {
        let piece = piece.trim();
        let text = format!(in alloc; "{before}{piece}{behind}")?;
        assert_eq!(rt; outcome(alloc, text.as_bytes()), wanted, "{text}");
    }
    Ok(())
}

/// A piece so many times, between two others.
pub(crate) fn repeated(
    alloc: Global,
    before: &str,
    piece: &str,
    times: u16,
    behind: &str,
) -> Result<String, Fail> {
    let mut text = String::from_str(alloc, before)?;
    for _ in 0..times {
        text.push_str(piece)?;
    }
    text.push_str(behind)?;
    Ok(text)
}

#[test]
fn a_job_is_read_or_refused_by_its_first_fault(rt: HostRuntime) -> Result<(), Fail> {
    for rows in [text::ROWS, link::ROWS, sink::ROWS, model::ROWS] {
        for (frame, wanted, pieces) in rows {
            ends(&rt, rt.alloc(), *frame, wanted, pieces)?;
        }
    }
    Ok(())
}
