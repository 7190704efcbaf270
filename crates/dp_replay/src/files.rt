ghost use Rattle.std.specs.Prelude.{◌≡◌, ℕ, true};
ghost use Rattle.dpx_cli.specs.Commands.{IsGen};

use crate::file_pipe::FilePipe;
use crate::file_sink::FileSink;
use crate::file_source::FileSource;
use dpx_cli::Command;
use std::fs::File;
use std::rt::Files;

/// The files of a command; nothing where it has none.
#[derive(Drop)]
pub struct CommandFiles {
    pub src: FileSource,
    pub pipe: FilePipe<FileSource>,
    pub pix: FileSink,
}

impl CommandFiles {
    pub fn none() -> CommandFiles {
        CommandFiles {
            src: FileSource::nothing(),
            pipe: FilePipe::new(FileSource::nothing()),
            pix: FileSink::nothing(),
        }
    }

    /// Opens the files in the order of the words. Where frames are made out of a number, the capture is kept nowhere.
    pub fn open<R: Files<File = File>>(rt: &R, command: &Command) -> CommandFiles
        ensures discards { (seed : ℕ) → IsGen seed command.now → result.pix.discards ≡ true }
    {
        match command {
            Command::Train { job }
            | Command::Edid { job }
            | Command::Watch { job }
            | Command::Judge { job } => CommandFiles {
                src: FileSource::open(rt, job.as_str()),
                ..CommandFiles::none()
            },
            Command::Send {
                job,
                pixels,
                capture,
                ..
            }
            | Command::Run {
                job,
                pixels,
                capture,
                ..
            } => CommandFiles {
                src: FileSource::open(rt, job.as_str()),
                pipe: FilePipe::new(FileSource::open(rt, pixels.as_str())),
                pix: FileSink::create(rt, capture.as_str()),
            },
            Command::Gen { .. } => CommandFiles {
                pix: FileSink::discard(),
                ..CommandFiles::none()
            },
            Command::Recv {
                capture,
                pixels,
                ..
            } => CommandFiles {
                src: FileSource::open(rt, capture.as_str()),
                pix: FileSink::create(rt, pixels.as_str()),
                ..CommandFiles::none()
            },
        }
    }
}
