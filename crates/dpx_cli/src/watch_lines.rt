ghost use Rattle.std.specs.Prelude.{◌≡◌, ◌++◌, OnOk};
ghost use Rattle.dpx_cli.specs.WatchLines.{event_line, event_word, outcome_text, trained_text, frames_text};

use crate::report::Report;
use dpx_base::{Link, PortEvent};
use dpx_watch::{Outcome, Stepped};
use std::alloc::AllocError;

/// Writes what the event of this number came to, and whether frames are allowed behind it.
#[tactic(auto, unfolding(crate::specs::WatchLines::event_line))]
pub(crate) fn push_event(
    report: &mut Report,
    number: usize,
    event: PortEvent,
    stepped: &Stepped,
    allowed: bool,
) -> Result<(), AllocError>
    ensures { OnOk result (report.new
        ≡ report.old ++ event_line number event stepped.now.outcome stepped.now.requests allowed) }
{
    report.push_named("event ", number as u64)?;
    report.push(" ")?;
    report.push(event_word(event))?;
    report.push(" ")?;
    push_outcome(report, &stepped.outcome)?;
    report.push_named(" requests ", u64::from(stepped.requests))?;
    report.push(frames_text(allowed))
}

fn event_word(event: PortEvent) -> &'static str
    ensures { result.now ≡ event_word event }
{
    match event {
        PortEvent::Plug => "plug",
        PortEvent::Interrupt => "interrupt",
        PortEvent::Loss => "loss",
        PortEvent::Resume => "resume",
    }
}

fn frames_text(allowed: bool) -> &'static str
    ensures { result.now ≡ frames_text allowed }
{
    if allowed {
        " frames yes\n"
    } else {
        " frames no\n"
    }
}

fn push_outcome(report: &mut Report, outcome: &Outcome) -> Result<(), AllocError>
    ensures { OnOk result (report.new ≡ report.old ++ outcome_text outcome.now) }
{
    match outcome {
        Outcome::Nothing => report.push("nothing"),
        Outcome::Kept { .. } => report.push("kept"),
        Outcome::Trained { link, .. } => push_trained(report, *link),
        Outcome::NotTrained { .. } => report.push("not trained"),
        Outcome::CapsRefused(_) => report.push("caps refused"),
        Outcome::AuxEnded(_) => report.push("aux ended"),
        Outcome::Unplugged => report.push("unplugged"),
    }
}

/// Writes the link that was trained.
#[tactic(auto, unfolding(crate::specs::WatchLines::trained_text))]
pub(crate) fn push_trained(report: &mut Report, link: Link) -> Result<(), AllocError>
    ensures { OnOk result (report.new ≡ report.old ++ trained_text link) }
{
    report.push("trained ")?;
    report.push(link.rate.name())?;
    report.push(" ")?;
    report.push_number(u64::from(link.lanes.count()))
}
