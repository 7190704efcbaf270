//! A replay tool for the link layer of DisplayPort: trains a link against the sink that a job
//! describes, sends frames into a capture, and prints how that ended. `dpx_cli` has the commands; here are the files.
//!
//! * `file_source`, `file_sink`: bytes from a file; bytes to a file or to standard output
//! * `file_pipe`, `records`: frames of pixels from a file
//! * `files`: the files of a command
#![tactic(auto)]

ghost use Rattle.std.specs.Prelude.{◌≡◌, ◌≢◌, IfOk};
ghost use Rattle.dpx_cli.specs.Status.{IsExitStatus};

mod file_pipe;
mod file_sink;
mod file_source;
mod files;
mod records;
#[cfg(test)]
mod tests;

use dpx_base::Memory;
use dpx_cli::{WordsEnd, read_words, replay};
use dpx_sinkmodel::PlanPort;
use file_sink::FileSink;
use files::CommandFiles;
use std::env;
use std::fs::File;
use std::io::ErrorKind;
use std::process::ExitCode;
use std::rt::{Env, Files};
use std::thread::Threads;

fn main(rt: HostRuntime) -> ExitCode {
    let _streams = occupy_streams(&rt);
    let mut out = FileSink::output(rt.stdout());
    match run(&rt, &mut out) {
        Ok(status) => ExitCode::from(status),
        Err(Memory) => {
            let _ = println!(rt; "memory");
            ExitCode::from(10)
        }
    }
}

/// A standard stream that was closed would be taken by the first file that is opened, and get the report. So three
/// files that can't be written are opened first, and held to the end: then each of the three streams is something.
fn occupy_streams<R: Files<File = File>>(files: &R) -> [Option<File>; 3] {
    [(), (), ()].map(|()| File::open(files, "/").ok())
}

/// Does what the words of the command line say, and gives the status.
fn run<R: Env + Files<File = File> + AllocGlobal + Threads + Sync>(
    rt: &R,
    out: &mut FileSink,
) -> Result<u8, Memory>
    ensures statuses { IfOk result IsExitStatus }
    ensures writes_are_calm { IfOk result (λ status. status ≢ 8 → out.new.faults ≡ out.old.faults) }
{
    let words = words(rt)?;
    run_words(rt, words.as_slice(), out)
}

/// Opens the files that the words name, and gives the command's status.
fn run_words<R: Files<File = File> + AllocGlobal + Threads + Sync>(
    rt: &R,
    words: &[String],
    out: &mut FileSink,
) -> Result<u8, Memory>
    ensures statuses { IfOk result IsExitStatus }
    ensures writes_are_calm { IfOk result (λ status. status ≢ 8 → out.new.faults ≡ out.old.faults) }
{
    let mut aux = PlanPort::new(rt.alloc())?;
    let mut files = match read_words(rt.alloc(), words) {
        Ok(command) => CommandFiles::open(rt, &command),
        Err(WordsEnd::Usage) => CommandFiles::none(),
        Err(WordsEnd::Memory) => return Err(Memory),
    };
    Ok(replay(
        rt,
        rt.alloc(),
        words,
        &mut files.src,
        &mut files.pipe,
        &mut aux,
        &mut files.pix,
        out,
    ))
}

/// The words of the command line without the program's name. Where one is no text there are none:
/// they have no reading either way.
fn words<R: Env + AllocGlobal>(rt: &R) -> Result<Vec<String>, Memory> {
    match env::args(rt) {
        Ok(words) => words.skip(1).collect(rt.alloc()).map_err(|_| Memory),
        Err(error) => {
            if error.kind() == ErrorKind::OutOfMemory {
                return Err(Memory);
            }
            Ok(Vec::new(rt.alloc()))
        }
    }
}
