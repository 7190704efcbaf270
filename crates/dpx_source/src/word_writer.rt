ghost use Rattle.std.specs.Prelude.{◌≡◌, ◌<◌, ◌≤◌, ◌-◌, ◌*◌, ◌++◌, ◌∷◌, [], ℕ, List, length, replicate, take};
ghost use Rattle.std.specs.Prelude.{Option, IfOk, OnOk, OnErr};
ghost use Rattle.dpx_base.specs.declared.sym.Sym.{Sym};
ghost use Rattle.dpx_base.specs.Capture.{word_bytes};
ghost use Rattle.dpx_base.specs.Faults.{HasCause};
ghost use Rattle.dpx_base.specs.Lanes.{lanes_count};
ghost use Rattle.dpx_lane.specs.Rows.{no_rows};
ghost use Rattle.dpx_lane.specs.Team.{TeamSent};
ghost use Rattle.dpx_source.specs.Framing.{AreSymbols};
ghost use Rattle.dpx_source.specs.WordWriter.{IsWriter, HasWritten, HasWrittenFront, HasWrittenAll, with_fills};

use dpx_base::{Failed, Gate, LaneSet, Lanes, Memory, Sink, Sym, Workers, write_whole};
use dpx_lane::{LaneRows, LaneTeam, LaneTx};
use std::alloc::Global;
use std::thread::Threads;

/// How many clocks a batch has.
const BATCH: usize = 8192;

/// What makes words of sets: the sets wait in rows, until as many are there as a batch has.
#[derive(Drop)]
pub(crate) struct WordWriter {
    pub(crate) rows: LaneRows,
    pub(crate) team: LaneTeam<LaneTx>,
    bytes: Vec<u8>,
}

/// Writes the rows' words to the front of the bytes, and gives their size.
fn put_words(rows: &LaneRows, bytes: &mut [u8]) -> usize
    requires { length bytes.old ≡ 65536 }
    ensures room { length bytes.new ≡ 65536 }
    ensures within { result ≤ 65536 }
    ensures words { take result bytes.new ≡ word_bytes (lanes_count rows.now.lanes) rows.now.clocks rows.now.rows }
    ensures lanes { length rows.now.rows ≡ lanes_count rows.now.lanes }
{
    let size = 2 * (usize::from(rows.lanes().count()) * rows.len());
    rows.write_words(&mut bytes[..size]);
    size
}

impl WordWriter {
    /// Takes its memory at once.
    pub(crate) fn new(alloc: Global, lanes: Lanes) -> Result<WordWriter, Memory>
        ensures writer { IfOk result IsWriter }
        ensures rows { IfOk result (λ writer. writer.rows ≡ no_rows lanes) }
        ensures lanes { IfOk result (λ writer. writer.team.lanes ≡ lanes) }
        ensures nothing { IfOk result (λ writer. TeamSent 0 writer.team.states
            (replicate (lanes_count lanes) []) (replicate (lanes_count lanes) [])) }
    {
        Ok(WordWriter {
            rows: LaneRows::new(alloc, lanes)?,
            team: LaneTeam::tx(lanes),
            bytes: vec![in alloc; 0; 8 * BATCH].map_err(|_| Memory)?,
        })
    }

    /// Puts a set behind those that wait. Where a batch is full then, its words are written.
    #[tactic(auto, using(crate::proofs::Batches::codes_more))]
    pub(crate) fn push<O: Sink, G: Gate, R: Threads + Sync>(
        &mut self,
        rt: &R,
        set: &LaneSet,
        out: &mut O,
        workers: Workers,
        gate: &G,
    ) -> Result<(), Failed>
        requires writer { IsWriter self.old }
        requires room { self.old.rows.clocks < 8192 }
        requires lanes { length set.now ≡ lanes_count self.old.team.lanes }
        requires symbols { AreSymbols set.now }
        ensures writer { IsWriter self.new }
        ensures room { OnOk result (self.new.rows.clocks < 8192) }
        ensures lanes { self.new.team.lanes ≡ self.old.team.lanes }
        ensures wrote { (given : List (List Sym)) (before : Option (List ℕ))
            → HasWritten self.old.rows self.old.team given before (O.seen out.old).taken
            → OnOk result (HasWritten self.new.rows self.new.team (given ++ set.now ∷ []) before
            (O.seen out.new).taken) }
        ensures front { (given : List (List Sym)) (before : Option (List ℕ))
            → HasWritten self.old.rows self.old.team given before (O.seen out.old).taken
            → OnErr result (HasWrittenFront (lanes_count self.old.team.lanes) (given ++ set.now ∷ []) before
            (O.seen out.new).taken) }
        ensures cause { HasCause (O.seen out.old).faults (O.seen out.new).faults result }
    {
        self.rows.push_set(set);
        if self.rows.len() < BATCH {
            return Ok(());
        }
        self.write_batch(rt, out, workers, gate)
    }

    /// Makes words of the sets that wait, and writes them.
    fn write_batch<O: Sink, G: Gate, R: Threads + Sync>(
        &mut self,
        rt: &R,
        out: &mut O,
        workers: Workers,
        gate: &G,
    ) -> Result<(), Failed>
        requires writer { IsWriter self.old }
        requires room { self.old.rows.clocks ≤ 8192 }
        ensures writer { IsWriter self.new }
        ensures empty { self.new.rows.clocks ≡ 0 }
        ensures lanes { self.new.team.lanes ≡ self.old.team.lanes }
        ensures wrote { (given : List (List Sym)) (before : Option (List ℕ))
            → HasWritten self.old.rows self.old.team given before (O.seen out.old).taken
            → OnOk result (HasWritten self.new.rows self.new.team given before (O.seen out.new).taken) }
        ensures front { (given : List (List Sym)) (before : Option (List ℕ))
            → HasWritten self.old.rows self.old.team given before (O.seen out.old).taken
            → OnErr result (HasWrittenFront (lanes_count self.old.team.lanes) given before (O.seen out.new).taken) }
        ensures cause { HasCause (O.seen out.old).faults (O.seen out.new).faults result }
    {
        self.team.run(rt, &mut self.rows, workers, gate);
        let size = put_words(&self.rows, &mut self.bytes);
        self.rows.clear();
        write_whole(out, &self.bytes[..size])
    }

    /// Puts fills behind the last set, in which the lanes that lag come to their end; then all that waits is written.
    #[tactic(auto, using(crate::proofs::SetSymbols::on_each, crate::proofs::SetSymbols::fill_symbol))]
    pub(crate) fn finish<O: Sink, G: Gate, R: Threads + Sync>(
        &mut self,
        rt: &R,
        out: &mut O,
        workers: Workers,
        gate: &G,
    ) -> Result<(), Failed>
        requires writer { IsWriter self.old }
        requires room { self.old.rows.clocks < 8192 }
        ensures writer { IsWriter self.new }
        ensures whole { (given : List (List Sym)) (before : Option (List ℕ))
            → HasWritten self.old.rows self.old.team given before (O.seen out.old).taken
            → OnOk result (HasWrittenAll (lanes_count self.old.team.lanes) (with_fills self.old.team.lanes given)
            before (O.seen out.new).taken) }
        ensures front { (given : List (List Sym)) (before : Option (List ℕ))
            → HasWritten self.old.rows self.old.team given before (O.seen out.old).taken
            → OnErr result (HasWrittenFront (lanes_count self.old.team.lanes) (with_fills self.old.team.lanes given)
            before (O.seen out.new).taken) }
        ensures cause { HasCause (O.seen out.old).faults (O.seen out.new).faults result }
    {
        let lanes = self.team.lanes();
        let fill = LaneSet::on_each(lanes, Sym::data(0));
        for done in 0..2 * (lanes.count() - 1) {
            self.push(rt, &fill, out, workers, gate)?;
        }
        self.write_batch(rt, out, workers, gate)
    }
}
