ghost use Rattle.dpx_cli.specs.Judge.{JudgeCauses, JudgeDoes, SaysVerdict};
ghost use Rattle.dpx_cli.specs.Printing.{StepPrints, StepsDo};
ghost use Rattle.dpx_cli.specs.JudgeLines.{yes_line};
ghost use Rattle.dpx_cli.specs.Step.{◌⇒◌};

use crate::job::read_job_for;
use crate::judge_lines::push_yes;
use crate::printing::{finish, print};
use crate::report::Report;
use crate::stop::{NotWhole, Stop};
use dpx_base::{Sink, Source};
use dpx_files::{Job, Need};
use dpx_judge::{Ending, Verdict, judge_all};
use std::alloc::Global;

/// The command `judge`.
pub(crate) fn judge<S: Source, O: Sink>(alloc: Global, src: &mut S, out: &mut O) -> u8
    ensures { JudgeDoes (S.seen src.old ⇒ S.seen src.new) (O.seen out.old ⇒ O.seen out.new) result }
{
    let done = judge_steps(alloc, src, out);
    finish(alloc, out, &done)
}

fn judge_steps<S: Source, O: Sink>(alloc: Global, src: &mut S, out: &mut O) -> Result<(), Stop>
    ensures { StepsDo (JudgeCauses (S.seen src.old ⇒ S.seen src.new)) (O.seen out.old ⇒ O.seen out.new) result }
{
    match read_job_for(alloc, src, Need::Judge)? {
        Job::Judge { link, entries } => {
            let entries = entries.as_slice();
            say(alloc, out, entries.len() as u64, judge_all(link, entries))
        }
        _ => unreachable!(),
    }
}

/// Prints the verdict on so many entries where it is yes.
fn say<O: Sink>(alloc: Global, out: &mut O, count: u64, verdict: Verdict) -> Result<(), Stop>
    ensures { SaysVerdict count verdict (O.seen out.old ⇒ O.seen out.new) result }
{
    match verdict {
        Verdict::Yes(ending) => print_yes(alloc, out, ending),
        Verdict::Short => Err(Stop::NotWhole(NotWhole::Short(count))),
        Verdict::Differs(place) => Err(Stop::NotWhole(NotWhole::Differs(place))),
    }
}

fn print_yes<O: Sink>(alloc: Global, out: &mut O, ending: Ending) -> Result<(), Stop>
    ensures { StepPrints (O.seen out.old ⇒ O.seen out.new) (yes_line ending) result }
{
    let mut report = Report::new(alloc);
    push_yes(&mut report, ending)?;
    print(out, &report)
}
