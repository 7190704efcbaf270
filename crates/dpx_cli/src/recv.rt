ghost use Rattle.std.specs.Prelude.{◌≡◌};
ghost use Rattle.dpx_cli.specs.Printing.{StepsDo};
ghost use Rattle.dpx_cli.specs.Recv.{ReceiveEnds, RecvCauses, RecvDoes};
ghost use Rattle.dpx_cli.specs.Step.{◌⇒◌};

use crate::printing::{finish, print_received};
use crate::receiving::{read_capture_header, read_no_more, receive_piece};
use crate::stop::{CaptureBad, Stop};
use dpx_base::{Gate, Sink, Source, Workers};
use dpx_files::headers_come_back;
use dpx_reception::{captures_are_received, faults_stay, one_reception};
use dpx_sink::{Receiver, a_capture_is_received, one_end};
use std::alloc::Global;
use std::thread::Threads;

/// How many bytes of a capture are read at most, header included.
const LONGEST_CAPTURE: u64 = 1 << 40;

const HEADER: u64 = 8;

/// How many bytes one read is for.
const PIECE: usize = 65_536;

/// The command `recv`.
pub(crate) fn recv<S: Source, O: Sink, G: Gate, R: Threads + Sync>(
    rt: &R,
    alloc: Global,
    src: &mut S,
    pix: &mut O,
    out: &mut O,
    workers: Workers,
    gate: &G,
) -> u8
    ensures { RecvDoes (S.seen src.old ⇒ S.seen src.new) (O.seen pix.old ⇒ O.seen pix.new) (pix.new ≡ pix.old)
        (O.seen out.old ⇒ O.seen out.new) result }
{
    headers_come_back();
    one_end();
    one_reception();
    faults_stay();
    captures_are_received();
    a_capture_is_received();
    let done = recv_steps(rt, alloc, src, pix, out, workers, gate);
    finish(alloc, out, &done)
}

fn recv_steps<S: Source, O: Sink, G: Gate, R: Threads + Sync>(
    rt: &R,
    alloc: Global,
    src: &mut S,
    pix: &mut O,
    out: &mut O,
    workers: Workers,
    gate: &G,
) -> Result<(), Stop>
    ensures { StepsDo (RecvCauses (S.seen src.old ⇒ S.seen src.new) (O.seen pix.old ⇒ O.seen pix.new)
        (pix.new ≡ pix.old)) (O.seen out.old ⇒ O.seen out.new) result }
{
    let mut receiver = receive(rt, alloc, src, pix, out, workers, gate)?;
    match receiver.finish() {
        Ok(received) => print_received(alloc, out, received),
        Err(end) => Err(Stop::Capture(CaptureBad::Unfinished(end))),
    }
}

/// Reads the capture to its end, and feeds it to a receiver. What a read hands over is fed before the next one.
fn receive<S: Source, O: Sink, G: Gate, R: Threads + Sync>(
    rt: &R,
    alloc: Global,
    src: &mut S,
    pix: &mut O,
    out: &mut O,
    workers: Workers,
    gate: &G,
) -> Result<Receiver, Stop>
    ensures { ReceiveEnds (S.seen src.old ⇒ S.seen src.new) (O.seen pix.old ⇒ O.seen pix.new) (pix.new ≡ pix.old)
        (O.seen out.old ⇒ O.seen out.new) result }
{
    let link = read_capture_header(alloc, src)?;
    let Ok(mut receiver) = Receiver::new(alloc, link) else {
        return Err(Stop::NoMemory);
    };
    let mut piece = [0; PIECE];
    let mut left = LONGEST_CAPTURE - HEADER;
    while left > 0 {
        let room = left.min(PIECE as u64) as usize;
        let count = receive_piece(
            rt,
            &mut receiver,
            &mut piece[..room],
            src,
            pix,
            out,
            workers,
            gate,
        )?;
        if count == 0 {
            return Ok(receiver);
        }
        left -= count as u64;
    }
    read_no_more(src)?;
    Ok(receiver)
}
