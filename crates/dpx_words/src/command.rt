ghost use Rattle.std.specs.Prelude.{◌≡◌, IfOk};

use dpx_base::Workers;
use std::alloc::{AllocError, Global};
use std::marker::Model;
use thiserror::Error;

/// A name among the words of the command line, seen as its text.
#[derive(Debug, Drop)]
pub struct Name {
    text: String,
}

impl Model for Name {
    ghost use Rattle.std.specs.Prelude.{ℕ, List, string_bytes};

    ghost Value = { List ℕ };

    ghost view = { λ n. string_bytes n.text };
}

impl Name {
    pub(crate) fn new(alloc: Global, text: &str) -> Result<Name, AllocError>
        ensures { IfOk result (λ name. name ≡ text.now) }
    {
        Ok(Name {
            text: String::from_str(alloc, text)?,
        })
    }

    pub fn as_str(&self) -> &str
        ensures { result.now ≡ self.now }
    {
        self.text.as_str()
    }
}

/// What the words ask for.
#[derive(Debug, Drop)]
pub enum Command {
    /// Train a link, as the job in this file says.
    Train {
        job: Name,
    },
    /// Send the frames of a file of pixels over the job's link, into a capture.
    Send {
        job: Name,
        pixels: Name,
        capture: Name,
        workers: Workers,
    },
    /// Train as the job says, and then send the frames over the link that was trained.
    Run {
        job: Name,
        pixels: Name,
        capture: Name,
        workers: Workers,
    },
    /// Read a capture back into pixels.
    Recv {
        capture: Name,
        pixels: Name,
        workers: Workers,
    },
    /// Generate frames from a number, send them, receive them, and compare.
    Gen {
        seed: u32,
        workers: Workers,
    },
    /// Fetch the EDID of the job's sink.
    Edid {
        job: Name,
    },
    /// Supervise the job's link through its events.
    Watch {
        job: Name,
    },
    /// Judge whether the job's history is that of a training of its link.
    Judge {
        job: Name,
    },
}

/// Why words are not read.
#[derive(Debug, Drop, Error)]
pub enum WordsEnd {
    #[error("the words are no command")]
    Usage,
    #[error("no memory for the words")]
    Memory,
}

impl From<AllocError> for WordsEnd {
    ghost use Rattle.std.specs.Prelude.{◌≡◌};
    ghost use Rattle.dpx_words.specs.declared.command.WordsEnd.TheVariants.{Memory};

    ghost from_gives = { λ _ end. end ≡ Memory };

    fn from(_refused: AllocError) -> WordsEnd {
        WordsEnd::Memory
    }
}
