ghost use Rattle.std.specs.Prelude.{◌≡◌, ◌≤◌, ◌⊎◌, IsSome};
ghost use Rattle.dpx_link.specs.Training.{training_entries};
ghost use Rattle.dpx_cli.specs.Edid.{EdidCauses, EdidDoes};
ghost use Rattle.dpx_cli.specs.Printing.{StepsDo};
ghost use Rattle.dpx_cli.specs.Step.{◌⇒◌};

use crate::fetching::report_block;
use crate::job::read_job_for;
use crate::printing::finish;
use crate::stop::Stop;
use dpx_base::{Sink, Source};
use dpx_dpcd::LoadPort;
use dpx_files::{Job, Need};
use std::alloc::Global;

/// The command `edid`.
pub(crate) fn edid<S: Source, P: LoadPort, O: Sink>(
    alloc: Global,
    src: &mut S,
    aux: &mut P,
    out: &mut O,
) -> u8
    ensures told { training_entries ≤ P.surely_told → (aux.new ≡ aux.old) ⊎ IsSome (P.state aux.new).history }
    ensures does { EdidDoes (S.seen src.old ⇒ S.seen src.new)
        (P.state aux.old ⇒ P.state aux.new) (aux.new ≡ aux.old) (O.seen out.old ⇒ O.seen out.new) result }
{
    let done = edid_steps(alloc, src, aux, out);
    finish(alloc, out, &done)
}

fn edid_steps<S: Source, P: LoadPort, O: Sink>(
    alloc: Global,
    src: &mut S,
    aux: &mut P,
    out: &mut O,
) -> Result<(), Stop>
    ensures told { training_entries ≤ P.surely_told → (aux.new ≡ aux.old) ⊎ IsSome (P.state aux.new).history }
    ensures steps { StepsDo
        (EdidCauses (S.seen src.old ⇒ S.seen src.new) (P.state aux.old ⇒ P.state aux.new) (aux.new ≡ aux.old))
        (O.seen out.old ⇒ O.seen out.new) result }
{
    match read_job_for(alloc, src, Need::Edid)? {
        Job::Edid { sink } => report_block(alloc, aux, sink, out),
        _ => unreachable!(),
    }
}
