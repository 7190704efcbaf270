ghost use Rattle.std.specs.Prelude.{◌≡◌, ◌<◌, ◌≤◌, ◌+◌, ◌^◌, ◌&&◌, ℕ, List, [], Bool};
ghost use Rattle.std.specs.Prelude.{false, true, length, take, map, nat_lt};
ghost use Rattle.std.specs.Prelude.{replicate, slice_index_or, IfOk, IfSome, Some};
ghost use Rattle.std.specs.List.{list_all};
ghost use Rattle.dpx_base.specs.Lanes.{lanes_count};
ghost use Rattle.dpx_base.specs.Words.{words_of};
ghost use Rattle.dpx_base.specs.declared.sym.Sym.{Sym};
ghost use Rattle.dpx_align.specs.Lock.{sr_group, lane_of, IsLock};
ghost use Rattle.dpx_align.specs.Search.{lengthened, decoded, Even, Level};

use crate::rings::Rings;
use dpx_base::{LaneSet, Link, Memory, Sym};
use dpx_lane::LaneRows;
use std::alloc::Global;

const SR: Sym = Sym {
    control: true,
    byte: 0x1c,
};

const BF: Sym = Sym {
    control: true,
    byte: 0x7c,
};

const ENHANCED: [Sym; 4] = [SR, BF, BF, SR];

const DEFAULT: [Sym; 1] = [SR];

/// The group whose first symbol is SR.
fn sr_group(enhanced: bool) -> &'static [Sym]
    ensures { result.now ≡ sr_group enhanced }
{
    if enhanced { &ENHANCED } else { &DEFAULT }
}

/// Brings the lanes' symbols side by side: finds where they lock, and hands out the sets from there on.
#[derive(Drop)]
pub(crate) struct Deskew {
    enhanced: bool,
    rings: Rings,
    locked: bool,
    given: u64,
    taken: u64,
    ghost lanes: { (0 < length rings) × (length rings ≤ 4) },
    ghost even: { locked ≡ false → Even rings },
    ghost level: { Level rings },
    ghost count: { given + length (slice_index_or rings 0 []) ≤ taken },
    ghost few: { taken < 2 ^ 62 },
}

impl Deskew {
    ghost use Rattle.dpx_align.specs.Deskew.{HasTaken, IsNext, IsRested, RestsAt, given_with};

    /// Takes all its memory, and holds nothing.
    pub fn new(alloc: Global, link: Link) -> Result<Deskew, Memory>
        ensures nothing { IfOk result (λ deskew. HasTaken deskew (replicate (lanes_count link.lanes) [])) }
        ensures rested { IfOk result IsRested }
        ensures framing { IfOk result (λ deskew. deskew.enhanced ≡ link.enhanced) }
        ensures lanes { IfOk result (λ deskew. length deskew.rings ≡ lanes_count link.lanes) }
        ensures none { IfOk result (λ deskew. (deskew.given ≡ 0) × (deskew.taken ≡ 0)) }
    {
        Ok(Deskew {
            enhanced: link.enhanced,
            rings: Rings::new(alloc, link.lanes).map_err(|_| Memory)?,
            locked: false,
            given: 0,
            taken: 0,
        })
    }

    /// Looks for the lock where it is not found yet.
    fn settle(&mut self)
        ensures state { (plain : List (List Sym)) → HasTaken self.old plain → HasTaken self.new plain }
        ensures none { self.new.locked ≡ false → (plain : List (List Sym)) → HasTaken self.old plain
            → (m : ℕ) → IsLock (sr_group self.old.enhanced) plain m → ⊥ }
        ensures short { self.new.locked ≡ false
            → (lane : ℕ) → lane < length self.new.rings → length (lane_of self.new.rings lane) ≤ 19 }
        ensures given { self.new.given ≡ self.old.given }
        ensures taken { self.new.taken ≡ self.old.taken }
        ensures framing { self.new.enhanced ≡ self.old.enhanced }
        ensures lanes { length self.new.rings ≡ length self.old.rings }
    {
        if !self.locked {
            self.locked = self.rings.seek(sr_group(self.enhanced));
        }
    }

    /// Whether the next set is complete.
    fn is_ready(&self) -> bool
        ensures { result ≡ (self.now.locked && list_all (λ ring. nat_lt 0 (length ring)) self.now.rings) }
    {
        self.locked && self.rings.each_waits()
    }

    /// The next set, which is complete.
    fn hand_out(&mut self) -> LaneSet
        requires locked { self.old.locked ≡ true }
        requires wait { (lane : ℕ) → lane < length self.old.rings → 0 < length (lane_of self.old.rings lane) }
        ensures set { (plain : List (List Sym)) → HasTaken self.old plain → IsNext self.old plain (Some result) }
        ensures state { (plain : List (List Sym)) → HasTaken self.old plain → HasTaken self.new plain }
        ensures given { self.new.given ≡ self.old.given + 1 }
        ensures taken { self.new.taken ≡ self.old.taken }
        ensures framing { self.new.enhanced ≡ self.old.enhanced }
        ensures lanes { length self.new.rings ≡ length self.old.rings }
        ensures size { length result ≡ length self.old.rings }
    {
        let set = self.rings.take_heads();
        self.given += 1;
        set
    }

    /// The next set that is complete, if there is one.
    pub fn next_set(&mut self) -> Option<LaneSet>
        ensures next { (plain : List (List Sym)) → HasTaken self.old plain → IsNext self.old plain result }
        ensures state { (plain : List (List Sym)) → HasTaken self.old plain → HasTaken self.new plain }
        ensures given { self.new.given ≡ given_with self.old result }
        ensures rest { RestsAt self.new result }
        ensures taken { self.new.taken ≡ self.old.taken }
        ensures framing { self.new.enhanced ≡ self.old.enhanced }
        ensures lanes { length self.new.rings ≡ length self.old.rings }
        ensures size { IfSome result (λ set. length set ≡ length self.old.rings) }
    {
        self.settle();
        if self.is_ready() {
            return Some(self.hand_out());
        }
        None
    }

    /// Whether the lanes lock in what was taken.
    pub fn has_lock(&self) -> bool
        ensures lock { (plain : List (List Sym)) → HasTaken self.now plain
            → result ≡ true → (m : ℕ) × IsLock (sr_group self.now.enhanced) plain m }
        ensures none { (plain : List (List Sym)) → HasTaken self.now plain
            → result ≡ false → (m : ℕ) → IsLock (sr_group self.now.enhanced) plain m → ⊥ }
    {
        if self.locked {
            return true;
        }
        self.rings.can_lock(sr_group(self.enhanced))
    }

    /// How many sets were handed out.
    pub fn given(&self) -> u64
        ensures { result ≡ self.now.given }
    {
        self.given
    }

    /// Takes the symbols of the rows' first clocks, as codes.
    pub fn take(&mut self, rows: &LaneRows, count: usize)
        requires rested { IsRested self.old }
        requires lanes { length self.old.rings ≡ lanes_count rows.now.lanes }
        requires rows { length self.old.rings ≤ length rows.now.rows }
        requires clocks { (lane : ℕ) → lane < length self.old.rings → count ≤ length (words_of rows.now.rows lane) }
        requires batch { count ≤ 8192 }
        requires few { self.old.taken + count < 2 ^ 62 }
        ensures state { (plain : List (List Sym)) → HasTaken self.old plain
            → HasTaken self.new (lengthened plain (map (λ row. take count row) (decoded rows.now.rows))) }
        ensures given { self.new.given ≡ self.old.given }
        ensures taken { self.new.taken ≡ self.old.taken + count }
        ensures framing { self.new.enhanced ≡ self.old.enhanced }
        ensures lanes { length self.new.rings ≡ length self.old.rings }
    {
        self.rings.push_rows(rows, count);
        self.taken += count as u64;
    }
}
