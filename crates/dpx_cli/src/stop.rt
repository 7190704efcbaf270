ghost use Rattle.std.specs.Prelude.{◌≡◌, ◌++◌, OnOk};
ghost use Rattle.dpx_cli.specs.Stop.{stop_lines, stop_status, job_line, capture_line, stop_of_job};

use crate::edid_lines::{push_bad_edid, push_unfetched};
use crate::judge_lines::push_not_whole;
use crate::lines::push_train_end;
use crate::recv_lines::{push_bad_set, push_bad_word, push_finish_end, push_header};
use crate::report::Report;
use crate::send_lines::{push_bad_pixel, push_pixels_ended, push_unfit};
use dpx_align::AlignBad;
use dpx_base::Memory;
use dpx_edid::{EdidBad, FetchEnd};
use dpx_files::{Field, JobBad};
use dpx_link::TrainEnd;
use dpx_parse::ParseBad;
use dpx_sink::FinishEnd;
use dpx_timing::Unfit;
use std::alloc::AllocError;

/// Why a job is refused.
#[derive(Clone, Copy, Debug, PartialEq, Eq)]
pub(crate) enum JobRefusal {
    TooLong,
    NotJson,
    Wrong(Field),
}

/// Why a capture is refused.
#[derive(Clone, Copy, Debug, PartialEq, Eq)]
pub(crate) enum CaptureBad {
    /// So many bytes were read, and they are no header.
    Header(u8),
    /// Its first fault: a word, or a set.
    Word(AlignBad),
    Set(ParseBad),
    /// It is longer than a capture may be.
    Long,
    /// It has no fault, and ends within a clock or has no lock.
    Unfinished(FinishEnd),
}

/// Why a recorded history is not that of a training.
#[derive(Clone, Copy, Debug, PartialEq, Eq)]
pub(crate) enum NotWhole {
    /// It breaks off after so many entries.
    Short(u64),
    /// It differs from every one of them, from the entry at this place on.
    Differs(u64),
}

/// Why a command stops before all was done.
#[derive(Debug, Drop)]
pub(crate) enum Stop {
    /// The words have no reading.
    Usage,
    Job(JobRefusal),
    /// Training ended otherwise than as trained.
    Untrained(TrainEnd),
    /// The mode does not fit the link.
    Unfit(Unfit),
    /// No base block was fetched.
    Unfetched(FetchEnd),
    /// A base block is refused, which was fetched with so many requests.
    BadEdid { why: EdidBad, requests: u32 },
    /// This pixel, counted over all frames, has this component out of range.
    BadPixel { number: u64, value: u16 },
    /// The pipe holds so many pixels, and a further one is due.
    PixelsEnded(u64),
    Capture(CaptureBad),
    NotWhole(NotWhole),
    ReadFault,
    /// A write of the capture, or of the pixels, failed.
    WriteFault,
    PipeFault,
    /// A write of the report failed: nothing more is written to it.
    OutFault,
    NoMemory,
}

const USAGE: &str =
    "usage: dp_replay train JOB | send JOB PIXELS CAPTURE [one|lanes] | run JOB PIXELS CAPTURE [one|lanes] | recv CAPTURE PIXELS [one|lanes] | gen SEED [one|lanes] | edid JOB | watch JOB | judge JOB\n";

pub(crate) const MEMORY: &str = "memory\n";

impl From<AllocError> for Stop {
    ghost use Rattle.std.specs.Prelude.{◌≡◌};
    ghost use Rattle.dpx_cli.specs.declared.stop.Stop.TheVariants.{NoMemory};

    ghost from_gives = { λ error stop. stop ≡ NoMemory };

    fn from(_error: AllocError) -> Stop {
        Stop::NoMemory
    }
}

impl From<Memory> for Stop {
    ghost use Rattle.std.specs.Prelude.{◌≡◌};
    ghost use Rattle.dpx_cli.specs.declared.stop.Stop.TheVariants.{NoMemory};

    ghost from_gives = { λ memory stop. stop ≡ NoMemory };

    fn from(_memory: Memory) -> Stop {
        Stop::NoMemory
    }
}

impl Stop {
    /// What a job that was not read stops a command with.
    pub(crate) fn of_job(why: JobBad) -> Stop
        ensures { result ≡ stop_of_job why }
    {
        match why {
            JobBad::TooLong => Stop::Job(JobRefusal::TooLong),
            JobBad::NotJson => Stop::Job(JobRefusal::NotJson),
            JobBad::Wrong(field) => Stop::Job(JobRefusal::Wrong(field)),
            JobBad::Memory => Stop::NoMemory,
        }
    }

    /// The exit status.
    pub(crate) fn status(&self) -> u8
        ensures { result ≡ stop_status self.now }
    {
        match self {
            Stop::Usage => 2,
            Stop::Job(_) => 3,
            Stop::BadPixel { .. } | Stop::PixelsEnded(_) => 3,
            Stop::Untrained(_) => 4,
            Stop::Unfetched(_) => 4,
            Stop::Unfit(_) => 5,
            Stop::Capture(_) => 6,
            Stop::ReadFault => 7,
            Stop::WriteFault | Stop::OutFault => 8,
            Stop::PipeFault => 9,
            Stop::NoMemory => 10,
            Stop::BadEdid { .. } => 13,
            Stop::NotWhole(_) => 14,
        }
    }

    /// Writes the last lines of the report.
    pub(crate) fn push_lines(&self, report: &mut Report) -> Result<(), AllocError>
        ensures { OnOk result (report.new ≡ report.old ++ stop_lines self.now) }
    {
        match self {
            Stop::Usage => report.push(USAGE),
            Stop::Job(why) => push_job(report, why),
            Stop::Untrained(end) => push_train_end(report, end),
            Stop::Unfit(why) => push_unfit(report, *why),
            Stop::Unfetched(end) => push_unfetched(report, *end),
            Stop::BadEdid { why, requests } => push_bad_edid(report, *why, *requests),
            Stop::BadPixel { number, value } => push_bad_pixel(report, *number, *value),
            Stop::PixelsEnded(number) => push_pixels_ended(report, *number),
            Stop::Capture(why) => push_capture(report, *why),
            Stop::NotWhole(why) => push_not_whole(report, *why),
            Stop::ReadFault => report.push("read fault\n"),
            Stop::WriteFault => report.push("write fault\n"),
            Stop::PipeFault => report.push("pipe fault\n"),
            Stop::OutFault => Ok(()),
            Stop::NoMemory => report.push(MEMORY),
        }
    }
}

fn push_job(report: &mut Report, why: &JobRefusal) -> Result<(), AllocError>
    ensures { OnOk result (report.new ≡ report.old ++ job_line why.now) }
{
    match why {
        JobRefusal::TooLong => report.push("job too long\n"),
        JobRefusal::NotJson => report.push("job not json\n"),
        JobRefusal::Wrong(field) => {
            report.push("job wrong ")?;
            report.push(field.name())?;
            report.push("\n")
        }
    }
}

fn push_capture(report: &mut Report, why: CaptureBad) -> Result<(), AllocError>
    ensures { OnOk result (report.new ≡ report.old ++ capture_line why) }
{
    match why {
        CaptureBad::Header(count) => push_header(report, count),
        CaptureBad::Word(bad) => push_bad_word(report, bad),
        CaptureBad::Set(bad) => push_bad_set(report, bad),
        CaptureBad::Long => report.push("capture long\n"),
        CaptureBad::Unfinished(end) => push_finish_end(report, end),
    }
}
