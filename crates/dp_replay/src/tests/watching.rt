use super::{CALM, modelled, run, scripted};
use dpx_sinkmodel::PlanPort;
use std::alloc::Global;
use std::process::Abort;
use std::test::Fail;
use std::thread::Threads;

/// A training of RBR on one lane, then a status that is good and one that is not.
const TRAINED_GOOD_BAD: &str =
    "0012068100000000000000000000000000 00 00 00 00 00010000000000 00 00070001000000 00
    00070001000000 00000000000000";

/// The job with events. Spaces stand between them.
fn with_events(alloc: Global, job: &str, events: &str) -> Result<String, Fail> {
    let mut text = String::from_str(alloc, job.strip_suffix("}").unwrap_or(""))?;
    text.push_str(r#","events":["#)?;
    for (number, event) in events.split_whitespace().enumerate() {
        let comma = if number == 0 { "" } else { "," };
        write!(text, "{comma}\"{event}\"")?;
    }
    text.push_str("]}")?;
    Ok(text)
}

/// The report and the status of a job with these events.
fn watches<R: Abort + Threads + Sync>(
    rt: &R,
    alloc: Global,
    job: &str,
    events: &str,
    wanted: (&str, u8),
) -> Result<(), Fail> {
    let text = with_events(alloc, job, events)?;
    let mut port = PlanPort::new(alloc)?;
    let ran = run(
        rt,
        alloc,
        "watch job.json",
        CALM,
        CALM,
        text.as_bytes(),
        &mut port,
    )?;
    assert_eq!(rt; (ran.ended(), ran.unread), (wanted, 0), "{events}");
    Ok(())
}

#[test]
fn a_script_is_watched_until_its_answers_end(rt: HostRuntime) -> Result<(), Fail> {
    let job = scripted(rt.alloc(), TRAINED_GOOD_BAD)?;
    let report = "event 0 plug trained RBR 1 requests 9 frames yes\n\
        event 1 interrupt kept requests 1 frames yes\n\
        event 2 interrupt aux ended requests 9 frames no\n\
        event 3 loss unplugged requests 0 frames no\n\
        event 4 interrupt nothing requests 0 frames no\n";
    let events = "plug interrupt interrupt loss interrupt";
    watches(&rt, rt.alloc(), job.as_str(), events, (report, 0))
}

#[test]
fn a_modelled_sink_is_kept_when_the_source_resumes(rt: HostRuntime) -> Result<(), Fail> {
    let job = modelled(rt.alloc(), "HBR3", 4, "")?;
    let report = "event 0 plug trained HBR3 4 requests 10 frames yes\n\
        event 1 resume kept requests 2 frames yes\n";
    watches(&rt, rt.alloc(), job.as_str(), "plug resume", (report, 0))
}

#[test]
fn without_events_the_report_is_empty(rt: HostRuntime) -> Result<(), Fail> {
    let job = modelled(rt.alloc(), "HBR3", 4, "")?;
    watches(&rt, rt.alloc(), job.as_str(), "", ("", 0))
}

#[test]
fn an_event_of_another_name_is_refused(rt: HostRuntime) -> Result<(), Fail> {
    let job = modelled(rt.alloc(), "HBR3", 4, "")?;
    watches(
        &rt,
        rt.alloc(),
        job.as_str(),
        "plug unplug",
        ("job wrong events\n", 3),
    )
}

#[test]
fn a_job_without_events_is_refused(rt: HostRuntime) -> Result<(), Fail> {
    let job = modelled(rt.alloc(), "HBR3", 4, "")?;
    let mut port = PlanPort::new(rt.alloc())?;
    let ran = run(
        &rt,
        rt.alloc(),
        "watch job.json",
        CALM,
        CALM,
        job.as_bytes(),
        &mut port,
    )?;
    assert_eq!(rt;
        (ran.ended(), port.history().len()),
        (("job wrong events\n", 3), 0)
    );
    Ok(())
}
