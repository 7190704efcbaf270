ghost use Rattle.std.specs.Prelude.{◌≡◌, ◌+◌, ◌*◌, ◌≤◌, ◌⊎◌, IsSome};
ghost use Rattle.dpx_files.specs.Events.{most_events};
ghost use Rattle.dpx_watch.specs.Step.{step_entries};
ghost use Rattle.dpx_cli.specs.Printing.{StepsDo};
ghost use Rattle.dpx_cli.specs.Step.{◌⇒◌};
ghost use Rattle.dpx_cli.specs.Watch.{WatchCauses, WatchDoes};

use crate::job::read_job_for;
use crate::printing::{finish, print};
use crate::report::Report;
use crate::stop::Stop;
use crate::watching::watch_events;
use dpx_base::{Sink, Source};
use dpx_dpcd::LoadPort;
use dpx_files::{Job, Need};
use std::alloc::Global;

/// The command `watch`.
pub(crate) fn watch<S: Source, P: LoadPort, O: Sink>(
    alloc: Global,
    src: &mut S,
    aux: &mut P,
    out: &mut O,
) -> u8
    ensures told { most_events * step_entries ≤ P.surely_told
        → (aux.new ≡ aux.old) ⊎ IsSome (P.state aux.new).history }
    ensures bounded { (P.state aux.new).asked_in_all ≤ (P.state aux.old).asked_in_all + 64 * 3120 }
    ensures does { WatchDoes (S.seen src.old ⇒ S.seen src.new)
        (P.state aux.old ⇒ P.state aux.new) (aux.new ≡ aux.old) (O.seen out.old ⇒ O.seen out.new) result }
{
    let done = watch_steps(alloc, src, aux, out);
    finish(alloc, out, &done)
}

fn watch_steps<S: Source, P: LoadPort, O: Sink>(
    alloc: Global,
    src: &mut S,
    aux: &mut P,
    out: &mut O,
) -> Result<(), Stop>
    ensures told { most_events * step_entries ≤ P.surely_told
        → (aux.new ≡ aux.old) ⊎ IsSome (P.state aux.new).history }
    ensures steps { StepsDo
        (WatchCauses (S.seen src.old ⇒ S.seen src.new) (P.state aux.old ⇒ P.state aux.new) (aux.new ≡ aux.old))
        (O.seen out.old ⇒ O.seen out.new) result }
{
    match read_job_for(alloc, src, Need::Watch)? {
        Job::Watch { link, sink, events } => {
            let mut report = Report::new(alloc);
            watch_events(aux, link, sink, &events, &mut report)?;
            print(out, &report)
        }
        _ => unreachable!(),
    }
}
