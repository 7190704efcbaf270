ghost use Rattle.std.specs.Prelude.{◌≡◌};
ghost use Rattle.dpx_cli.specs.Printing.{StepsDo};
ghost use Rattle.dpx_cli.specs.Send.{SendCauses, SendDoes};
ghost use Rattle.dpx_cli.specs.Step.{◌⇒◌};

use crate::job::read_job_for;
use crate::printing::finish;
use crate::sending::send_shape;
use crate::stop::Stop;
use dpx_base::{Gate, Pipe, Sink, Source, Workers};
use dpx_files::{Job, Need};
use dpx_lane::a_capture_is_one;
use std::alloc::Global;
use std::thread::Threads;

/// The command `send`.
pub(crate) fn send<S: Source, T: Pipe, O: Sink, G: Gate, R: Threads + Sync>(
    rt: &R,
    alloc: Global,
    src: &mut S,
    pipe: &mut T,
    pix: &mut O,
    out: &mut O,
    workers: Workers,
    gate: &G,
) -> u8
    ensures { SendDoes (S.seen src.old ⇒ S.seen src.new) (T.state pipe.old ⇒ T.state pipe.new)
        (O.seen pix.old ⇒ O.seen pix.new) ((pipe.new ≡ pipe.old) × (pix.new ≡ pix.old))
        (O.seen out.old ⇒ O.seen out.new) result }
{
    a_capture_is_one();
    let done = send_steps(rt, alloc, src, pipe, pix, out, workers, gate);
    finish(alloc, out, &done)
}

fn send_steps<S: Source, T: Pipe, O: Sink, G: Gate, R: Threads + Sync>(
    rt: &R,
    alloc: Global,
    src: &mut S,
    pipe: &mut T,
    pix: &mut O,
    out: &mut O,
    workers: Workers,
    gate: &G,
) -> Result<(), Stop>
    ensures { StepsDo (SendCauses (S.seen src.old ⇒ S.seen src.new) (T.state pipe.old ⇒ T.state pipe.new)
        (O.seen pix.old ⇒ O.seen pix.new) ((pipe.new ≡ pipe.old) × (pix.new ≡ pix.old)))
        (O.seen out.old ⇒ O.seen out.new) result }
{
    match read_job_for(alloc, src, Need::Send)? {
        Job::Send { link, shape } => {
            send_shape(rt, alloc, &shape, link, pipe, pix, out, workers, gate)
        }
        _ => unreachable!(),
    }
}
