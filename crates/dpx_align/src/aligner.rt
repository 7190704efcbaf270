ghost use Rattle.std.specs.Prelude.{◌≡◌, ◌<◌, ◌≤◌, ◌+◌, ◌-◌, ◌^◌, ℕ, List, [], length, min, replicate, slice_get, Some};
ghost use Rattle.std.specs.Prelude.{IfOk, IfErr, None};
ghost use Rattle.dpx_base.specs.Lanes.{lanes_count};
ghost use Rattle.dpx_base.specs.declared.sym.Sym.{Sym};
ghost use Rattle.dpx_lane.specs.Receiving.{good_clocks};
ghost use Rattle.dpx_lane.specs.Team.{joined};
ghost use Rattle.dpx_lane.specs.declared.lane_rx.LaneRx.{LaneRx};
ghost use Rattle.dpx_align.specs.Search.{lengthened};

use crate::align_bad::align_bad;
use crate::deskew::Deskew;
use crate::first_fault::first_fault;
use crate::{AlignBad, NoLock, Step};
use dpx_base::{Gate, Link, Memory, Workers};
use dpx_lane::{LaneRows, LaneRx, LaneTeam};
use std::alloc::Global;
use std::thread::Threads;

/// Reads the lanes' words, and hands out the sets from the lock on, up to the first word fault.
#[derive(Drop)]
pub struct Aligner {
    team: LaneTeam<LaneRx>,
    deskew: Deskew,
    clocks: u64,
    bad: Option<AlignBad>,
    ghost lanes: { length deskew.rings ≡ lanes_count team.lanes },
    ghost taken: { deskew.taken ≤ clocks },
    ghost few: { clocks < 2 ^ 62 },
    ghost reads: { (lane : ℕ) (s : LaneRx) → slice_get team.states lane ≡ Some s → good_clocks s ≤ clocks },
}

/// How many of the next clocks stand before a clock.
fn clocks_before(clock: u64, fed: u64, next: usize) -> usize
    ensures { result ≡ min (clock - fed) next }
{
    clock.saturating_sub(fed).min(next as u64) as usize
}

impl Aligner {
    ghost use Rattle.dpx_align.specs.Aligner.{WasFed, CanFeed, Answers, FeedsAfter, IsWide, Lessens, EndsAs};
    ghost use Rattle.dpx_align.specs.Aligner.{given_after, lanes_of, is_enhanced, clocks_fed, sets_given};

    /// Takes all its memory.
    pub fn new(alloc: Global, link: Link) -> Result<Aligner, Memory>
        ensures nothing { IfOk result (λ aligner.
            WasFed aligner (replicate (lanes_count link.lanes) []) (replicate (lanes_count link.lanes) [])) }
        ensures rested { IfOk result CanFeed }
        ensures link { IfOk result (λ aligner.
            (lanes_of aligner ≡ link.lanes) × (is_enhanced aligner ≡ link.enhanced)) }
        ensures none { IfOk result (λ aligner. (clocks_fed aligner ≡ 0) × (sets_given aligner ≡ 0)) }
    {
        Ok(Aligner {
            team: LaneTeam::rx(link.lanes),
            deskew: Deskew::new(alloc, link)?,
            clocks: 0,
            bad: None,
        })
    }

    /// Takes the words of the next clocks. The rows are used up: the first fault's word and what stands behind it is
    /// left, and codes before it.
    pub fn feed<G: Gate, R: Threads + Sync>(
        &mut self,
        rt: &R,
        rows: &mut LaneRows,
        workers: Workers,
        gate: &G,
    )
        requires lanes { rows.old.lanes ≡ lanes_of self.old }
        requires stepped { CanFeed self.old }
        requires few { clocks_fed self.old + rows.old.clocks < 2 ^ 62 }
        ensures fed { (words : List (List ℕ)) (plain : List (List Sym)) → WasFed self.old words plain
            → (more : List (List Sym)) × WasFed self.new (joined words rows.old.rows) (lengthened plain more) }
        ensures clocks { clocks_fed self.new ≡ clocks_fed self.old + rows.old.clocks }
        ensures rows { rows.new.lanes ≡ rows.old.lanes }
        ensures given { sets_given self.new ≡ sets_given self.old }
        ensures link { (lanes_of self.new ≡ lanes_of self.old) × (is_enhanced self.new ≡ is_enhanced self.old) }
    {
        let before = self.clocks;
        let next = rows.len();
        self.clocks += next as u64;
        if self.bad.is_some() {
            return;
        }
        self.team.run(rt, rows, workers, gate);
        match first_fault(&self.team) {
            None => self.deskew.take(rows, rows.len()),
            Some((lane, fault)) => {
                let count = clocks_before(fault.clock, before, rows.len());
                self.deskew.take(rows, count);
                self.bad = Some(align_bad(lane, fault));
            }
        }
    }

    /// The next set that is complete before the first word fault; or that fault, again and again; or that more clocks
    /// are wanted.
    pub fn step(&mut self) -> Result<Step, AlignBad>
        ensures answer { (words : List (List ℕ)) (plain : List (List Sym)) → WasFed self.old words plain
            → Answers self.old words plain result }
        ensures fed { (words : List (List ℕ)) (plain : List (List Sym)) → WasFed self.old words plain
            → WasFed self.new words plain }
        ensures given { sets_given self.new ≡ given_after self.old result }
        ensures feeds { FeedsAfter self.new result }
        ensures wide { IsWide self.old result }
        ensures waiting { Lessens self.old self.new result }
        ensures clocks { clocks_fed self.new ≡ clocks_fed self.old }
        ensures link { (lanes_of self.new ≡ lanes_of self.old) × (is_enhanced self.new ≡ is_enhanced self.old) }
    {
        let number = self.deskew.given();
        if let Some(set) = self.deskew.next_set() {
            return Ok(Step::Set { number, set });
        }
        match self.bad {
            Some(bad) => Err(bad),
            None => Ok(Step::Hungry),
        }
    }

    /// Whether the lanes lock in the clocks fed before the first word fault.
    pub fn finish(&self) -> Result<(), NoLock>
        ensures lock { (words : List (List ℕ)) (plain : List (List Sym)) → WasFed self.now words plain
            → EndsAs self.now plain result }
        ensures clocks { IfErr result (λ end. end.clocks ≡ clocks_fed self.now) }
    {
        if self.deskew.has_lock() {
            Ok(())
        } else {
            Err(NoLock {
                clocks: self.clocks,
            })
        }
    }
}
