ghost use Rattle.std.specs.Prelude.{◌≡◌, ◌<◌, ◌+◌, ℕ, List, length, None, IfSome, IsNone};
ghost use Rattle.dpx_base.specs.Capture.{header_bytes};
ghost use Rattle.dpx_files.specs.Header.{header_in};
ghost use Rattle.dpx_cli.specs.Receiving.{PieceEnds, ReadsHeader, ReadsNoMore, stop_of_recv, stop_of_write};
ghost use Rattle.dpx_cli.specs.Step.{◌⇒◌};
ghost use Rattle.dpx_sink.specs.Receiver.{StandsFor, bytes_fed, link_of, most_bytes};

use crate::stop::{CaptureBad, Stop};
use crate::transfer::{ReadEnd, read_at_most};
use dpx_base::{Gate, Link, Sink, Source, Workers};
use dpx_files::read_header;
use dpx_sink::{Output, Receiver, RecvEnd};
use std::alloc::Global;
use std::thread::Threads;

const HEADER: usize = 8;

/// Reads the header of a capture, and gives its link.
pub(crate) fn read_capture_header<S: Source>(alloc: Global, src: &mut S) -> Result<Link, Stop>
    ensures { ReadsHeader (S.seen src.old ⇒ S.seen src.new) result }
{
    let bytes = match read_at_most(alloc, src, HEADER) {
        Ok(bytes) => bytes,
        Err(ReadEnd::Fault) => return Err(Stop::ReadFault),
        Err(ReadEnd::Memory) => return Err(Stop::NoMemory),
    };
    match header_of(bytes.as_slice()) {
        Some(link) => Ok(link),
        None => Err(Stop::Capture(CaptureBad::Header(bytes.len() as u8))),
    }
}

fn header_of(bytes: &[u8]) -> Option<Link>
    ensures link { IfSome result (λ link. header_bytes link ≡ bytes.now) }
    ensures none { IsNone result → length bytes.now ≡ 8 → header_in bytes.now ≡ None }
{
    match bytes {
        [a, b, c, d, e, f, g, h] => read_header(&[*a, *b, *c, *d, *e, *f, *g, *h]),
        _ => None,
    }
}

/// Reads a piece of the capture, feeds it to the receiver, and gives its length: 0 at the end of the input.
pub(crate) fn receive_piece<S: Source, O: Sink, G: Gate, R: Threads + Sync>(
    rt: &R,
    receiver: &mut Receiver,
    piece: &mut [u8],
    src: &mut S,
    pix: &mut O,
    out: &mut O,
    workers: Workers,
    gate: &G,
) -> Result<usize, Stop>
    requires room { 0 < length piece.old }
    requires few { bytes_fed receiver.old + length piece.old < most_bytes (link_of receiver.old) }
    ensures ends { (bytes records text : List ℕ) → StandsFor receiver.old bytes records text
        → bytes_fed receiver.old ≡ length bytes
        → PieceEnds (S.seen src.old ⇒ S.seen src.new) (O.seen pix.old ⇒ O.seen pix.new)
        (O.seen out.old ⇒ O.seen out.new) receiver.new (length piece.old) bytes records text (link_of receiver.old)
        result }
    ensures link { link_of receiver.new ≡ link_of receiver.old }
    ensures piece { length piece.new ≡ length piece.old }
{
    let Ok(count) = src.read(piece) else {
        return Err(Stop::ReadFault);
    };
    match receiver.feed(rt, &piece[..count], workers, gate, pix, out) {
        Ok(()) => Ok(count),
        Err(end) => Err(stop_of_recv(end, receiver.failed_output())),
    }
}

fn stop_of_recv(end: RecvEnd, output: Option<Output>) -> Stop
    ensures { result ≡ stop_of_recv end output }
{
    match end {
        RecvEnd::Align(bad) => Stop::Capture(CaptureBad::Word(bad)),
        RecvEnd::Parse(bad) => Stop::Capture(CaptureBad::Set(bad)),
        RecvEnd::WriteFault => stop_of_write(output),
    }
}

fn stop_of_write(output: Option<Output>) -> Stop
    ensures { result ≡ stop_of_write output }
{
    match output {
        Some(Output::Log) => Stop::OutFault,
        _ => Stop::WriteFault,
    }
}

/// A capture as long as it may be has ended, or it is too long.
pub(crate) fn read_no_more<S: Source>(src: &mut S) -> Result<(), Stop>
    ensures { ReadsNoMore (S.seen src.old ⇒ S.seen src.new) result }
{
    match src.read(&mut [0]) {
        Ok(0) => Ok(()),
        Ok(_) => Err(Stop::Capture(CaptureBad::Long)),
        Err(_) => Err(Stop::ReadFault),
    }
}
