//! The histories of scripted sinks, and of a source with default framing alone.

use super::super::reports::{ASKS_FOR_SWING, DONE_IN_DEFAULT_FRAMING, NO_CLOCK};
use super::super::scripted;
use super::{Told, history};
use std::alloc::Global;
use std::process::Abort;
use std::test::Fail;
use std::thread::Threads;

const TURNED_UP: &str = "\
90 00 00 0F
80 06 00 00 01
80 01 00 01 06 81
80 01 07 01 00 01
80 01 02 01 21 00
90 02 02 05
80 01 03 00 2A
90 02 02 05
80 01 02 01 22 2A
90 02 02 05
80 01 02 00 00
";

/// The lanes are told without bit 7.
const DEFAULT_FRAMING: &str = "\
90 00 00 0F = 00 12 06 01 00 00 00 00 00 00 00 00 00 00 00 00 00
80 06 00 00 01 = 00
80 01 00 01 06 01 = 00
80 01 07 01 00 01 = 00
80 01 02 01 21 00 = 00
wait 100
90 02 02 05 = 00 01 00 00 00 00 00
80 01 02 01 22 00 = 00
wait 400
90 02 02 05 = 00 07 00 01 00 00 00
80 01 02 00 00 = 00
";

/// A source that knows no enhanced framing, and a sink that does.
const PLAIN_SOURCE: &str = r#"{"link":{"rate":"RBR","lanes":2,"enhanced":0},
    "sink":{"model":{"caps":"1206C200000000000000000000000000"}}}"#;

const PLAIN_SOURCE_TRAINS: &str = "\
90 00 00 0F
80 06 00 00 01
80 01 00 01 06 02
80 01 07 01 00 01
80 01 02 02 21 00 00
90 02 02 05
80 01 02 02 23 00 00
90 02 02 05
80 01 02 00 00
";

const NEVER_RECOVERED: &str = "\
90 00 00 0F
80 06 00 00 01
80 01 00 01 06 81
80 01 07 01 00 01
80 01 02 01 21 00
90 02 02 05
80 01 03 00 00
90 02 02 05
80 01 03 00 00
90 02 02 05
80 01 03 00 00
90 02 02 05
80 01 03 00 00
90 02 02 05
80 01 02 00 00
";

const SILENCE: &str = "\
90 00 00 0F = silent
90 00 00 0F = silent
90 00 00 0F = silent
90 00 00 0F = silent
90 00 00 0F = silent
90 00 00 0F = silent
90 00 00 0F = silent
90 00 00 0F = silent
";

/// Training with this script has this history.
fn asks<R: Abort + Threads + Sync>(
    rt: &R,
    alloc: Global,
    answers: &str,
    told: Told,
    expected: &str,
) -> Result<(), Fail> {
    let job = scripted(alloc, answers)?;
    let given = history(rt, alloc, job.as_str(), told)?;
    assert_eq!(rt; given.as_str(), expected);
    Ok(())
}

#[test]
fn a_scripted_sink_gets_the_drives_that_it_asks_for(rt: HostRuntime) -> Result<(), Fail> {
    asks(&rt, rt.alloc(), ASKS_FOR_SWING, Told::Requests, TURNED_UP)?;
    asks(&rt, rt.alloc(), NO_CLOCK, Told::Requests, NEVER_RECOVERED)
}

#[test]
fn framing_is_default_where_one_end_has_no_other(rt: HostRuntime) -> Result<(), Fail> {
    let answers = DONE_IN_DEFAULT_FRAMING;
    asks(&rt, rt.alloc(), answers, Told::All, DEFAULT_FRAMING)?;
    let given = history(&rt, rt.alloc(), PLAIN_SOURCE, Told::Requests)?;
    assert_eq!(rt; given.as_str(), PLAIN_SOURCE_TRAINS);
    Ok(())
}

#[test]
fn silence_is_asked_eight_times(rt: HostRuntime) -> Result<(), Fail> {
    asks(&rt, rt.alloc(), "", Told::All, SILENCE)
}
