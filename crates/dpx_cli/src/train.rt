ghost use Rattle.std.specs.Prelude.{◌≡◌, ◌≤◌, ◌⊎◌, IsSome};
ghost use Rattle.dpx_link.specs.Training.{training_entries};
ghost use Rattle.dpx_cli.specs.Printing.{StepsDo};
ghost use Rattle.dpx_cli.specs.Step.{◌⇒◌};
ghost use Rattle.dpx_cli.specs.Train.{TrainCauses, TrainDoes};

use crate::job::read_job_for;
use crate::printing::finish;
use crate::stop::Stop;
use crate::training::train_link;
use dpx_base::{Sink, Source};
use dpx_dpcd::LoadPort;
use dpx_files::{Job, Need};
use std::alloc::Global;

/// The command `train`.
pub(crate) fn train<S: Source, P: LoadPort, O: Sink>(
    alloc: Global,
    src: &mut S,
    aux: &mut P,
    out: &mut O,
) -> u8
    ensures told { training_entries ≤ P.surely_told → (aux.new ≡ aux.old) ⊎ IsSome (P.state aux.new).history }
    ensures does { TrainDoes (S.seen src.old ⇒ S.seen src.new)
        (P.state aux.old ⇒ P.state aux.new) (aux.new ≡ aux.old) (O.seen out.old ⇒ O.seen out.new) result }
{
    let done = train_steps(alloc, src, aux, out);
    finish(alloc, out, &done)
}

fn train_steps<S: Source, P: LoadPort, O: Sink>(
    alloc: Global,
    src: &mut S,
    aux: &mut P,
    out: &mut O,
) -> Result<(), Stop>
    ensures told { training_entries ≤ P.surely_told → (aux.new ≡ aux.old) ⊎ IsSome (P.state aux.new).history }
    ensures steps { StepsDo
        (TrainCauses (S.seen src.old ⇒ S.seen src.new) (P.state aux.old ⇒ P.state aux.new) (aux.new ≡ aux.old))
        (O.seen out.old ⇒ O.seen out.new) result }
{
    match read_job_for(alloc, src, Need::Train)? {
        Job::Train { link, sink } => {
            train_link(alloc, aux, link, sink, out)?;
            Ok(())
        }
        _ => unreachable!(),
    }
}
