ghost use Rattle.std.specs.Prelude.{◌≡◌};
ghost use Rattle.dpx_cli.specs.EdidLines.{edid_report};
ghost use Rattle.dpx_cli.specs.GenLines.{gen_lines};
ghost use Rattle.dpx_cli.specs.Lines.{train_report};
ghost use Rattle.dpx_cli.specs.RecvLines.{received_line};
ghost use Rattle.dpx_cli.specs.SendLines.{plan_line, sent_line};
ghost use Rattle.dpx_cli.specs.Printing.{StepPrints, EndsWith, Finishes, StopsAtOnce};
ghost use Rattle.dpx_cli.specs.Step.{◌⇒◌};

use crate::edid_lines::push_edid;
use crate::gen_lines::push_generated;
use crate::lines::push_train_end;
use crate::recv_lines::push_received;
use crate::report::Report;
use crate::send_lines::{push_plan, push_sent};
use crate::stop::{MEMORY, Stop};
use crate::transfer::write_text;
use dpx_base::Sink;
use dpx_edid::Edid;
use dpx_link::TrainEnd;
use dpx_sink::Received;
use dpx_timing::Plan;
use std::alloc::Global;

/// Prints how training ended.
pub(crate) fn print_training<O: Sink>(
    alloc: Global,
    out: &mut O,
    end: &TrainEnd,
) -> Result<(), Stop>
    ensures { StepPrints (O.seen out.old ⇒ O.seen out.new) (train_report end.now) result }
{
    let mut report = Report::new(alloc);
    push_train_end(&mut report, end)?;
    print(out, &report)
}

/// Prints the numbers of a plan that fits.
pub(crate) fn print_plan<O: Sink>(alloc: Global, out: &mut O, plan: &Plan) -> Result<(), Stop>
    ensures { StepPrints (O.seen out.old ⇒ O.seen out.new) (plan_line plan.now) result }
{
    let mut report = Report::new(alloc);
    push_plan(&mut report, plan)?;
    print(out, &report)
}

/// Prints how much was sent.
pub(crate) fn print_sent<O: Sink>(alloc: Global, out: &mut O, plan: &Plan) -> Result<(), Stop>
    ensures { StepPrints (O.seen out.old ⇒ O.seen out.new) (sent_line plan.now) result }
{
    let mut report = Report::new(alloc);
    push_sent(&mut report, plan)?;
    print(out, &report)
}

/// Prints how much was received.
pub(crate) fn print_received<O: Sink>(
    alloc: Global,
    out: &mut O,
    received: Received,
) -> Result<(), Stop>
    ensures { StepPrints (O.seen out.old ⇒ O.seen out.new) (received_line received) result }
{
    let mut report = Report::new(alloc);
    push_received(&mut report, received)?;
    print(out, &report)
}

/// Prints what came of a number's frames.
pub(crate) fn print_generated<O: Sink>(
    alloc: Global,
    out: &mut O,
    seed: u32,
    plan: &Plan,
    received: Received,
    equal: u64,
) -> Result<(), Stop>
    ensures { StepPrints (O.seen out.old ⇒ O.seen out.new) (gen_lines seed plan.now received equal) result }
{
    let mut report = Report::new(alloc);
    push_generated(&mut report, seed, plan, received, equal)?;
    print(out, &report)
}

/// Prints what a base block says, which was fetched with so many requests.
pub(crate) fn print_edid<O: Sink>(
    alloc: Global,
    out: &mut O,
    edid: &Edid,
    requests: u32,
) -> Result<(), Stop>
    ensures { StepPrints (O.seen out.old ⇒ O.seen out.new) (edid_report edid.now requests) result }
{
    let mut report = Report::new(alloc);
    push_edid(&mut report, edid, requests)?;
    print(out, &report)
}

/// Prints what a step of a command reports. Where that fails, nothing more is to be written.
pub(crate) fn print<O: Sink>(out: &mut O, report: &Report) -> Result<(), Stop>
    ensures { StepPrints (O.seen out.old ⇒ O.seen out.new) report.now result }
{
    match write_text(out, report.as_bytes()) {
        Ok(()) => Ok(()),
        Err(_) => Err(Stop::OutFault),
    }
}

/// Prints how a command ended, and gives its status.
pub(crate) fn finish<O: Sink>(alloc: Global, out: &mut O, done: &Result<(), Stop>) -> u8
    ensures { Finishes (O.seen out.old ⇒ O.seen out.new) done.now result }
{
    match done {
        Ok(()) => 0,
        Err(Stop::OutFault) => 8,
        Err(stop) => print_stop(alloc, out, stop),
    }
}

/// Prints the lines of a stop, and gives its status.
pub(crate) fn print_stop<O: Sink>(alloc: Global, out: &mut O, stop: &Stop) -> u8
    ensures { StopsAtOnce (O.seen out.old ⇒ O.seen out.new) stop.now result }
{
    let mut report = Report::new(alloc);
    match stop.push_lines(&mut report) {
        Ok(()) => end_with(out, report.as_bytes(), stop.status()),
        Err(_) => end_with(out, MEMORY.as_bytes(), 10),
    }
}

fn end_with<O: Sink>(out: &mut O, text: &[u8], status: u8) -> u8
    ensures { EndsWith (O.seen out.old ⇒ O.seen out.new) text.now status result }
{
    match write_text(out, text) {
        Ok(()) => status,
        Err(_) => 8,
    }
}
