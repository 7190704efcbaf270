ghost use Rattle.std.specs.Prelude.{◌≡◌, ◌≤◌};
ghost use Rattle.dpx_source.specs.Drive.{HasBegun};
ghost use Rattle.dpx_source.specs.Sender.{IsNew};
ghost use Rattle.dpx_cli.specs.Printing.{StepsDo};
ghost use Rattle.dpx_cli.specs.Sending.{ShapeSent, PlanSent, WritesCapture};
ghost use Rattle.dpx_cli.specs.Step.{◌⇒◌};
ghost use Rattle.dpx_cli.specs.Stop.{stop_of_begin, stop_of_drive};

use crate::printing::{print_plan, print_sent};
use crate::stop::Stop;
use crate::transfer::write_text;
use dpx_base::{BeginEnd, Gate, Link, Pipe, Sink, Workers};
use dpx_files::{Shape, header_bytes};
use dpx_lane::a_capture_is_one;
use dpx_source::{DriveEnd, Sender, drive};
use dpx_timing::{Plan, fit};
use std::alloc::Global;
use std::thread::Threads;

/// Sends a job's shape over a link: finds the plan, prints it, sends its frames, and prints how much was sent. Where
/// the mode does not fit, neither the pipe nor the sink of the capture is touched.
pub(crate) fn send_shape<T: Pipe, O: Sink, G: Gate, R: Threads + Sync>(
    rt: &R,
    alloc: Global,
    shape: &Shape,
    link: Link,
    pipe: &mut T,
    pix: &mut O,
    out: &mut O,
    workers: Workers,
    gate: &G,
) -> Result<(), Stop>
    requires unit { (32 ≤ shape.now.unit) × (shape.now.unit ≤ 64) }
    requires frames { (1 ≤ shape.now.frames) × (shape.now.frames ≤ 65535) }
    ensures { StepsDo (ShapeSent shape.now link (T.state pipe.old ⇒ T.state pipe.new) (O.seen pix.old ⇒ O.seen pix.new)
        ((pipe.new ≡ pipe.old) × (pix.new ≡ pix.old))) (O.seen out.old ⇒ O.seen out.new) result }
{
    match fit(&shape.mode, link, shape.unit, shape.frames) {
        Ok(plan) => send_plan(rt, alloc, &plan, pipe, pix, out, workers, gate),
        Err(why) => Err(Stop::Unfit(why)),
    }
}

fn send_plan<T: Pipe, O: Sink, G: Gate, R: Threads + Sync>(
    rt: &R,
    alloc: Global,
    plan: &Plan,
    pipe: &mut T,
    pix: &mut O,
    out: &mut O,
    workers: Workers,
    gate: &G,
) -> Result<(), Stop>
    ensures { StepsDo (PlanSent plan.now (T.state pipe.old ⇒ T.state pipe.new) (O.seen pix.old ⇒ O.seen pix.new)
        ((pipe.new ≡ pipe.old) × (pix.new ≡ pix.old))) (O.seen out.old ⇒ O.seen out.new) result }
{
    a_capture_is_one();
    print_plan(alloc, out, plan)?;
    write_capture(rt, alloc, plan, pipe, pix, workers, gate)?;
    print_sent(alloc, out, plan)
}

/// Begins the pipe, and writes the header and the words. All memory is taken before the pipe is begun.
pub(crate) fn write_capture<T: Pipe, O: Sink, G: Gate, R: Threads + Sync>(
    rt: &R,
    alloc: Global,
    plan: &Plan,
    pipe: &mut T,
    pix: &mut O,
    workers: Workers,
    gate: &G,
) -> Result<(), Stop>
    ensures { WritesCapture plan.now (T.state pipe.old ⇒ T.state pipe.new) (O.seen pix.old ⇒ O.seen pix.new)
        ((pipe.new ≡ pipe.old) × (pix.new ≡ pix.old)) result }
{
    let Ok(mut sender) = Sender::new(alloc, plan) else {
        return Err(Stop::NoMemory);
    };
    let begun = pipe.begin(
        alloc,
        plan.mode(),
        plan.link(),
        plan.frames(),
        plan.clocks(),
    );
    match begun {
        Ok(()) => write_frames(rt, &mut sender, plan.link(), pipe, pix, workers, gate),
        Err(end) => Err(stop_of_begin(end)),
    }
}

/// Writes the header and the words of a pipe that has just begun.
fn write_frames<T: Pipe, O: Sink, G: Gate, R: Threads + Sync>(
    rt: &R,
    sender: &mut Sender,
    link: Link,
    pipe: &mut T,
    pix: &mut O,
    workers: Workers,
    gate: &G,
) -> Result<(), Stop>
    requires new { IsNew sender.old }
    requires link { sender.old.ticker.plan.link ≡ link }
    requires begun { HasBegun sender.old.ticker.plan (T.state pipe.old) }
    ensures { WritesCapture sender.old.ticker.plan (T.state pipe.old ⇒ T.state pipe.new)
        (O.seen pix.old ⇒ O.seen pix.new) ⊥ result }
{
    match write_text(pix, &header_bytes(link)) {
        Ok(()) => match drive(rt, sender, pipe, pix, workers, gate) {
            Ok(_) => Ok(()),
            Err(end) => Err(stop_of_drive(end)),
        },
        Err(_) => Err(Stop::WriteFault),
    }
}

fn stop_of_begin(end: BeginEnd) -> Stop
    ensures { result ≡ stop_of_begin end }
{
    match end {
        BeginEnd::Memory => Stop::NoMemory,
        BeginEnd::Failed => Stop::PipeFault,
    }
}

fn stop_of_drive(end: DriveEnd) -> Stop
    ensures { result ≡ stop_of_drive end }
{
    match end {
        DriveEnd::BadPixel { number, value } => Stop::BadPixel { number, value },
        DriveEnd::Ended(number) => Stop::PixelsEnded(number),
        DriveEnd::PipeFault => Stop::PipeFault,
        DriveEnd::WriteFault => Stop::WriteFault,
    }
}
