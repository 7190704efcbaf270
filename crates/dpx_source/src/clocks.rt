ghost use Rattle.std.specs.Prelude.{◌≡◌, ◌<◌, ◌+◌, ◌∷◌, ◌++◌, [], ℕ, List, length, Option, IfOk, IfErr, OnOk, Err};
ghost use Rattle.dpx_base.specs.declared.sym.Sym.{Sym};
ghost use Rattle.dpx_base.specs.Lanes.{lanes_count};
ghost use Rattle.dpx_base.specs.Pipe.{CountsFaults};
ghost use Rattle.dpx_base.specs.Plan.{clocks};
ghost use Rattle.dpx_source.specs.declared.sending.DriveEnd.{DriveEnd};
ghost use Rattle.dpx_source.specs.Framing.{AreSymbols};
ghost use Rattle.dpx_source.specs.Going.{IsReady, Going, Stopped, Sending, Ends, pipe_stop};
ghost use Rattle.dpx_source.specs.WordWriter.{IsWriter};

use crate::word_writer::WordWriter;
use crate::{DriveEnd, Ticker};
use dpx_base::{Gate, LaneSet, Pipe, PipeEnd, Sink, Workers};
use std::thread::Threads;

fn pipe_stop(end: PipeEnd) -> DriveEnd
    ensures { result ≡ pipe_stop end }
{
    match end {
        PipeEnd::Ended(n) => DriveEnd::Ended(n),
        PipeEnd::Failed => DriveEnd::PipeFault,
    }
}

/// One clock of the ticker and the pipe: the pipe is handed the set, and the pixels that it gives are absorbed.
fn send_set<T: Pipe>(ticker: &mut Ticker, pipe: &mut T) -> Result<LaneSet, DriveEnd>
    requires ready { IsReady ticker.old (T.state pipe.old) }
    requires left { ticker.old.clock < clocks ticker.old.plan }
    ensures ready { OnOk result (IsReady ticker.new (T.state pipe.new)) }
    ensures clock { OnOk result (ticker.new.clock ≡ ticker.old.clock + 1) }
    ensures plan { ticker.new.plan ≡ ticker.old.plan }
    ensures pixels { (T.state pipe.new).pixels ≡ (T.state pipe.old).pixels }
    ensures lanes { IfOk result (λ set. length set ≡ lanes_count ticker.old.plan.link.lanes) }
    ensures symbols { IfOk result AreSymbols }
    ensures going { (given : List (List Sym)) → Going ticker.old.plan given (T.state pipe.old) ticker.old
        → IfOk result (λ set. Going ticker.old.plan (given ++ set ∷ []) (T.state pipe.new) ticker.new) }
    ensures stopped { (given : List (List Sym)) → Going ticker.old.plan given (T.state pipe.old) ticker.old
        → IfErr result (λ end. Stopped ticker.old.plan given end (T.state pipe.new)) }
    ensures faults { CountsFaults (result ≡ Err DriveEnd.PipeFault) (T.state pipe.old).faults
        (T.state pipe.new).faults }
    ensures no_write { result ≡ Err DriveEnd.WriteFault → ⊥ }
{
    let set = match ticker.emit() {
        Some(set) => set,
        None => unreachable!(),
    };
    let arrivals = match pipe.clock(&set) {
        Ok(arrivals) => arrivals,
        Err(end) => return Err(pipe_stop(end)),
    };
    match ticker.absorb(&arrivals) {
        Ok(()) => Ok(set),
        Err(bad) => Err(DriveEnd::BadPixel {
            number: bad.number,
            value: bad.value,
        }),
    }
}

/// One clock, and its set put behind those whose words are written.
pub(crate) fn send_clock<T: Pipe, O: Sink, G: Gate, R: Threads + Sync>(
    rt: &R,
    ticker: &mut Ticker,
    writer: &mut WordWriter,
    pipe: &mut T,
    out: &mut O,
    workers: Workers,
    gate: &G,
) -> Result<(), DriveEnd>
    requires ready { IsReady ticker.old (T.state pipe.old) }
    requires left { ticker.old.clock < clocks ticker.old.plan }
    requires writer { IsWriter writer.old }
    requires room { writer.old.rows.clocks < 8192 }
    requires lanes { writer.old.team.lanes ≡ ticker.old.plan.link.lanes }
    ensures ready { OnOk result (IsReady ticker.new (T.state pipe.new)) }
    ensures clock { OnOk result (ticker.new.clock ≡ ticker.old.clock + 1) }
    ensures plan { ticker.new.plan ≡ ticker.old.plan }
    ensures pixels { (T.state pipe.new).pixels ≡ (T.state pipe.old).pixels }
    ensures writer { IsWriter writer.new }
    ensures room { OnOk result (writer.new.rows.clocks < 8192) }
    ensures lanes { writer.new.team.lanes ≡ writer.old.team.lanes }
    ensures sending { (given : List (List Sym)) (before : Option (List ℕ))
        → Sending ticker.old.plan given (T.state pipe.old) ticker.old writer.old.rows writer.old.team before
        (O.seen out.old).taken
        → OnOk result ((set : List Sym) × Sending ticker.old.plan (given ++ set ∷ []) (T.state pipe.new) ticker.new
        writer.new.rows writer.new.team before (O.seen out.new).taken) }
    ensures ends { (given : List (List Sym)) (before : Option (List ℕ))
        → Sending ticker.old.plan given (T.state pipe.old) ticker.old writer.old.rows writer.old.team before
        (O.seen out.old).taken
        → IfErr result (λ end. Ends ticker.old.plan end (T.state pipe.new) before (O.seen out.new).taken) }
    ensures pipe_faults { CountsFaults (result ≡ Err DriveEnd.PipeFault) (T.state pipe.old).faults
        (T.state pipe.new).faults }
    ensures write_faults { CountsFaults (result ≡ Err DriveEnd.WriteFault) (O.seen out.old).faults
        (O.seen out.new).faults }
{
    let set = send_set(ticker, pipe)?;
    if writer.push(rt, &set, out, workers, gate).is_err() {
        return Err(DriveEnd::WriteFault);
    }
    Ok(())
}
