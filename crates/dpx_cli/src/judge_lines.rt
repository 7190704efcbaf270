ghost use Rattle.std.specs.Prelude.{◌≡◌, ◌++◌, OnOk};
ghost use Rattle.dpx_cli.specs.JudgeLines.{differs_line, ending_text, not_whole_line, short_line, yes_line};

use crate::report::Report;
use crate::stop::NotWhole;
use crate::watch_lines::push_trained;
use dpx_judge::Ending;
use std::alloc::AllocError;

/// Writes that the history is that of a training, which ended so.
#[tactic(auto, unfolding(crate::specs::JudgeLines::yes_line))]
pub(crate) fn push_yes(report: &mut Report, ending: Ending) -> Result<(), AllocError>
    ensures { OnOk result (report.new ≡ report.old ++ yes_line ending) }
{
    report.push("judge yes ")?;
    push_ending(report, ending)?;
    report.push("\n")
}

fn push_ending(report: &mut Report, ending: Ending) -> Result<(), AllocError>
    ensures { OnOk result (report.new ≡ report.old ++ ending_text ending) }
{
    match ending {
        Ending::Trained(link) => push_trained(report, link),
        Ending::NotTrained => report.push("not trained"),
        Ending::CapsRefused => report.push("caps refused"),
        Ending::AuxEnded => report.push("aux ended"),
    }
}

/// Writes why the history is not that of a training.
pub(crate) fn push_not_whole(report: &mut Report, why: NotWhole) -> Result<(), AllocError>
    ensures { OnOk result (report.new ≡ report.old ++ not_whole_line why) }
{
    match why {
        NotWhole::Short(count) => push_short(report, count),
        NotWhole::Differs(place) => push_differs(report, place),
    }
}

#[tactic(auto, unfolding(crate::specs::JudgeLines::short_line))]
fn push_short(report: &mut Report, count: u64) -> Result<(), AllocError>
    ensures { OnOk result (report.new ≡ report.old ++ short_line count) }
{
    report.push_named("judge short after ", count)?;
    report.push("\n")
}

#[tactic(auto, unfolding(crate::specs::JudgeLines::differs_line))]
fn push_differs(report: &mut Report, place: u64) -> Result<(), AllocError>
    ensures { OnOk result (report.new ≡ report.old ++ differs_line place) }
{
    report.push_named("judge differs at ", place)?;
    report.push("\n")
}
