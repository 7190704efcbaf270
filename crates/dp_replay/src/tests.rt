//! The top call over objects in memory and a sink that is scripted or modelled.

ghost use Rattle.std.specs.Prelude.{◌<◌};

use dpx_base::{MemPipe, MemSink, MemSource, Source};
use dpx_cli::replay;
use dpx_sinkmodel::PlanPort;
use std::alloc::Global;
use std::process::Abort;
use std::str;
use std::test::Fail;
use std::thread::Threads;

mod by_table;
mod displays;
mod faults;
mod gate;
mod generating;
mod histories;
mod judging;
mod program;
mod receive_faults;
mod receiving;
mod reports;
mod running;
mod send_faults;
mod sending;
mod walk;
mod watching;

/// A job with a modelled sink that has HBR3 in its extended field, four lanes and TPS4. Behind its
/// capabilities stand more members of the model, or none.
pub(crate) fn modelled(alloc: Global, rate: &str, lanes: u8, more: &str) -> Result<String, Fail> {
    let sink =
        r#""caps":"1214C481000000000000000000008000","extended":"141EC481000000000000000000008000""#;
    let text = format!(in alloc;
        "{{\"link\":{{\"rate\":\"{rate}\",\"lanes\":{lanes}}},\"sink\":{{\"model\":{{{sink}{more}}}}}}}"
    )?;
    Ok(text)
}

/// A job for RBR on one lane with a script. Spaces stand between its answers.
pub(crate) fn scripted(alloc: Global, answers: &str) -> Result<String, Fail> {
    let mut text = String::from_str(
        alloc,
        r#"{"link":{"rate":"RBR","lanes":1},"sink":{"script":["#,
    )?;
    for (number, answer) in answers.split_whitespace().enumerate() {
        let comma = if number == 0 { "" } else { "," };
        write!(text, "{comma}\"{answer}\"")?;
    }
    text.push_str("]}}")?;
    Ok(text)
}

/// Words of the command line. Spaces stand between them.
fn words(alloc: Global, text: &str) -> Result<Vec<String>, Fail> {
    let mut words = Vec::new(alloc);
    for word in text.split_whitespace() {
        words.push(String::from_str(alloc, word)?)?;
    }
    Ok(words)
}

/// The bytes that a source gives a read, or those that a sink has room for, and the numbers of the calls
/// that fail.
#[derive(Clone, Copy)]
pub(crate) struct Stream<'a> {
    pub(crate) size: usize,
    pub(crate) fails: &'a [u64],
}

/// A source in pieces, or a sink with room for each report. No call fails.
pub(crate) const CALM: Stream<'static> = Stream {
    size: 1024,
    fails: &[],
};

/// What a run of the command leaves.
#[derive(Drop)]
pub(crate) struct Ran {
    printed: String,
    status: u8,
    /// Bytes of the job, of at most 64 more.
    pub(crate) unread: usize,
}

impl Ran {
    pub(crate) fn ended(&self) -> (&str, u8) {
        (self.printed.as_str(), self.status)
    }
}

/// Runs the command of these words on a job.
pub(crate) fn run<R: Threads + Sync>(
    rt: &R,
    alloc: Global,
    command: &str,
    reads: Stream,
    writes: Stream,
    job: &[u8],
    port: &mut PlanPort,
) -> Result<Ran, Fail>
    requires { 0 < reads.size }
{
    let words = words(alloc, command)?;
    let mut src = MemSource::new(job.to_vec(alloc)?, reads.size, reads.fails.to_vec(alloc)?);
    let mut out = MemSink::new(alloc, writes.size, writes.fails.to_vec(alloc)?)?;
    let mut pipe = MemPipe::new(Vec::new(alloc), Vec::new(alloc));
    let mut pix = MemSink::new(alloc, 0, Vec::new(alloc))?;
    let status = replay(
        rt,
        alloc,
        words.as_slice(),
        &mut src,
        &mut pipe,
        port,
        &mut pix,
        &mut out,
    );
    Ok(Ran {
        printed: String::from_str(alloc, str::from_utf8(out.bytes())?)?,
        status,
        unread: src.read(&mut [0; 64]).unwrap_or(0),
    })
}

/// `train` of this job ends with this report and status.
pub(crate) fn ends<R: Abort + Threads + Sync>(
    rt: &R,
    alloc: Global,
    job: &str,
    wanted: (&str, u8),
) -> Result<(), Fail> {
    let mut port = PlanPort::new(alloc)?;
    let ran = run(
        rt,
        alloc,
        "train job.json",
        CALM,
        CALM,
        job.as_bytes(),
        &mut port,
    )?;
    assert_eq!(rt; ran.ended(), wanted, "{job}");
    Ok(())
}
