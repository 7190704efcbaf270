ghost use Rattle.std.specs.Prelude.{◌≡◌};
ghost use Rattle.dpx_cli.specs.Gen.{GenCauses, GenDoes};
ghost use Rattle.dpx_cli.specs.Printing.{StepsDo};
ghost use Rattle.dpx_cli.specs.Step.{◌⇒◌};

use crate::generating::{equal_pixels, plan_of, received_back, sent_into_memory};
use crate::printing::{finish, print_generated};
use crate::stop::Stop;
use crate::transfer::write_text;
use dpx_base::{Gate, Sink, Workers};
use std::alloc::Global;
use std::thread::Threads;

/// The command `gen`.
pub(crate) fn generate<O: Sink, G: Gate, R: Threads + Sync>(
    rt: &R,
    alloc: Global,
    seed: u32,
    pix: &mut O,
    out: &mut O,
    workers: Workers,
    gate: &G,
) -> u8
    ensures { GenDoes seed (O.seen pix.old ⇒ O.seen pix.new) (pix.new ≡ pix.old) (O.seen out.old ⇒ O.seen out.new)
        result }
{
    let done = generate_steps(rt, alloc, seed, pix, out, workers, gate);
    finish(alloc, out, &done)
}

/// Sends the frames of a number into memory, writes that capture, receives it again, and compares.
fn generate_steps<O: Sink, G: Gate, R: Threads + Sync>(
    rt: &R,
    alloc: Global,
    seed: u32,
    pix: &mut O,
    out: &mut O,
    workers: Workers,
    gate: &G,
) -> Result<(), Stop>
    ensures { StepsDo (GenCauses seed (O.seen pix.old ⇒ O.seen pix.new) (pix.new ≡ pix.old))
        (O.seen out.old ⇒ O.seen out.new) result }
{
    let plan = plan_of(seed);
    let capture = sent_into_memory(rt, alloc, seed, &plan, workers, gate)?;
    if write_text(pix, capture.bytes()).is_err() {
        return Err(Stop::WriteFault);
    }
    let (received, records) = received_back(
        rt,
        alloc,
        seed,
        &plan,
        capture.bytes(),
        workers,
        gate,
    )?;
    let equal = equal_pixels(seed, plan.mode().depth(), records.bytes());
    print_generated(alloc, out, seed, &plan, received, equal)
}
