ghost use Rattle.std.specs.Prelude.{◌≡◌, ◌≤◌, ◌⊎◌, IsSome};
ghost use Rattle.dpx_link.specs.Training.{training_entries};
ghost use Rattle.dpx_cli.specs.Printing.{StepsDo};
ghost use Rattle.dpx_cli.specs.Run.{RunCauses, RunDoes};
ghost use Rattle.dpx_cli.specs.Step.{◌⇒◌};

use crate::job::read_job_for;
use crate::printing::finish;
use crate::sending::send_shape;
use crate::stop::Stop;
use crate::training::train_link;
use dpx_base::{Gate, Pipe, Sink, Source, Workers};
use dpx_dpcd::LoadPort;
use dpx_files::{Job, Need};
use dpx_lane::a_capture_is_one;
use std::alloc::Global;
use std::thread::Threads;

/// The command `run`.
pub(crate) fn run<S: Source, T: Pipe, P: LoadPort, O: Sink, G: Gate, R: Threads + Sync>(
    rt: &R,
    alloc: Global,
    src: &mut S,
    pipe: &mut T,
    aux: &mut P,
    pix: &mut O,
    out: &mut O,
    workers: Workers,
    gate: &G,
) -> u8
    ensures told { training_entries ≤ P.surely_told → (aux.new ≡ aux.old) ⊎ IsSome (P.state aux.new).history }
    ensures does { RunDoes (S.seen src.old ⇒ S.seen src.new) (P.state aux.old ⇒ P.state aux.new)
        (aux.new ≡ aux.old) (T.state pipe.old ⇒ T.state pipe.new) (O.seen pix.old ⇒ O.seen pix.new)
        ((pipe.new ≡ pipe.old) × (pix.new ≡ pix.old)) (O.seen out.old ⇒ O.seen out.new) result }
{
    a_capture_is_one();
    let done = run_steps(rt, alloc, src, pipe, aux, pix, out, workers, gate);
    finish(alloc, out, &done)
}

fn run_steps<S: Source, T: Pipe, P: LoadPort, O: Sink, G: Gate, R: Threads + Sync>(
    rt: &R,
    alloc: Global,
    src: &mut S,
    pipe: &mut T,
    aux: &mut P,
    pix: &mut O,
    out: &mut O,
    workers: Workers,
    gate: &G,
) -> Result<(), Stop>
    ensures told { training_entries ≤ P.surely_told → (aux.new ≡ aux.old) ⊎ IsSome (P.state aux.new).history }
    ensures steps { StepsDo
        (RunCauses (S.seen src.old ⇒ S.seen src.new) (P.state aux.old ⇒ P.state aux.new) (aux.new ≡ aux.old)
        (T.state pipe.old ⇒ T.state pipe.new) (O.seen pix.old ⇒ O.seen pix.new)
        ((pipe.new ≡ pipe.old) × (pix.new ≡ pix.old))) (O.seen out.old ⇒ O.seen out.new) result }
{
    match read_job_for(alloc, src, Need::Run)? {
        Job::Run { link, shape, sink } => {
            let trained = train_link(alloc, aux, link, sink, out)?;
            send_shape(rt, alloc, &shape, trained, pipe, pix, out, workers, gate)
        }
        _ => unreachable!(),
    }
}
