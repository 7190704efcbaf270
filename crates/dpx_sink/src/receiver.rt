ghost use Rattle.std.specs.Prelude.{◌≡◌, ◌≢◌, ◌<◌, ◌+◌, ◌++◌, ℕ, List, [], None, Err, IfOk, IfErr, OnOk, length};
ghost use Rattle.dpx_sink.specs.Clocks.{IsReady};

use crate::clocks::Clocks;
use crate::refusal::Refusal;
use crate::{FinishEnd, Output, Received, RecvEnd};
use dpx_base::{Gate, Link, Memory, Sink, Workers};
use std::alloc::Global;
use std::thread::Threads;

/// Receives the bytes of a capture behind its header, in any pieces, up to the first fault.
#[derive(Drop)]
pub struct Receiver {
    clocks: Clocks,
    refused: Option<Refusal>,
    ghost ready: { refused ≡ None → IsReady clocks },
}

impl Receiver {
    ghost use Rattle.dpx_sink.specs.Receiver.{StandsFor, HasRefused, IsOpen, Feeds, EndsAs};
    ghost use Rattle.dpx_sink.specs.Receiver.{link_of, bytes_fed, most_bytes, failed_output};
    ghost use Rattle.dpx_sink.specs.Writes.{Calm, WriteFails, sinks};
    ghost use Rattle.dpx_sink.specs.declared.recv_end.RecvEnd.{RecvEnd};

    /// Takes all its memory: a batch of clocks, what waits for a lock, and a line. It was fed nothing.
    pub fn new(alloc: Global, link: Link) -> Result<Receiver, Memory>
        ensures nothing { IfOk result (λ receiver. StandsFor receiver [] [] []) }
        ensures link { IfOk result (λ receiver. link_of receiver ≡ link) }
        ensures none { IfOk result (λ receiver. bytes_fed receiver ≡ 0) }
        ensures is_open { IfOk result IsOpen }
    {
        Ok(Receiver {
            clocks: Clocks::new(alloc, link)?,
            refused: None,
        })
    }

    /// Takes the next bytes, in any cut. The pixels of a line are written to `pix` when it ends, and a line of text
    /// to `log` for the attributes of a frame. Once it has refused, it refuses for the same reason, and writes nothing.
    pub fn feed<O: Sink, G: Gate, R: Threads + Sync>(
        &mut self,
        rt: &R,
        bytes: &[u8],
        workers: Workers,
        gate: &G,
        pix: &mut O,
        log: &mut O,
    ) -> Result<(), RecvEnd>
        requires few { IsOpen self.old → bytes_fed self.old + length bytes.now < most_bytes (link_of self.old) }
        ensures feeds { (taken records text : List ℕ) → StandsFor self.old taken records text
            → Feeds self.new (link_of self.old) (sinks (O.seen pix.old) (O.seen log.old))
            (sinks (O.seen pix.new) (O.seen log.new)) (taken ++ bytes.now) records text result }
        ensures link { link_of self.new ≡ link_of self.old }
        ensures fed { OnOk result (bytes_fed self.new ≡ bytes_fed self.old + length bytes.now) }
        ensures is_open { OnOk result (IsOpen self.new) }
        ensures refuses { IfErr result (HasRefused self.new) }
        ensures again { (end : RecvEnd) → HasRefused self.old end → (result ≡ Err end) × (self.new ≡ self.old) }
        ensures writes_no_more { (end : RecvEnd) → HasRefused self.old end
            → (O.seen pix.new ≡ O.seen pix.old) × (O.seen log.new ≡ O.seen log.old) }
        ensures calm { result ≢ Err RecvEnd.WriteFault
            → Calm (sinks (O.seen pix.old) (O.seen log.old)) (sinks (O.seen pix.new) (O.seen log.new)) }
        ensures cause { IsOpen self.old → result ≡ Err RecvEnd.WriteFault
            → WriteFails (failed_output self.new) (sinks (O.seen pix.old) (O.seen log.old))
            (sinks (O.seen pix.new) (O.seen log.new)) }
    {
        if let Some(refusal) = self.refused {
            return Err(refusal.end());
        }
        match self.clocks.take(rt, bytes, workers, gate, pix, log) {
            Ok(()) => Ok(()),
            Err(refusal) => {
                self.refused = Some(refusal);
                Err(refusal.end())
            }
        }
    }

    /// Where a write failed, and `feed` answered a write fault for it.
    pub fn failed_output(&self) -> Option<Output>
        ensures { result ≡ failed_output self.now }
    {
        match self.refused {
            Some(Refusal::Write(output)) => Some(output),
            _ => None,
        }
    }

    /// The end of the capture, where nothing was refused: it ends within a clock, or its lanes lock nowhere, or all of
    /// it was received.
    pub fn finish(&mut self) -> Result<Received, FinishEnd>
        requires is_open { IsOpen self.old }
        ensures ends { (taken records text : List ℕ) → StandsFor self.old taken records text
            → EndsAs (link_of self.old) taken result }
        ensures kept { self.new ≡ self.old }
    {
        self.clocks.finish()
    }
}
