//! The rings of all lanes, and how the lock is looked for in them.

ghost use Rattle.std.specs.Prelude.{◌≡◌, ◌<◌, ◌≤◌, ◌+◌, ◌^◌, ℕ, List, [], length, drop, take, map, nat_lt};
ghost use Rattle.std.specs.Prelude.{replicate, IfSome, IfOk};
ghost use Rattle.std.specs.List.{list_any, list_all};
ghost use Rattle.std.specs.Option.{is_some};
ghost use Rattle.dpx_base.specs.Lanes.{lanes_count};
ghost use Rattle.dpx_base.specs.Words.{words_of};
ghost use Rattle.dpx_align.specs.Lock.{lane_of};
ghost use Rattle.dpx_align.specs.Search.{begins_with, near, meets, scan, start, head, lengthened};
ghost use Rattle.dpx_align.specs.Search.{lock_in, kept, decoded};

use crate::ring::Ring;
use dpx_base::{LaneSet, Lanes, Sym};
use dpx_lane::LaneRows;
use std::alloc::{AllocError, Global};
use std::marker::Model;

/// Whether some ring has the group at a place.
fn some_begins(rings: &[Ring], group: &[Sym], place: usize) -> bool
    requires { place + length group.now < 2 ^ 64 }
    ensures { result ≡ list_any (λ ring. begins_with group.now (drop place ring)) rings.now }
{
    rings.iter().any(|ring| ring.begins_at(group, place))
}

/// Whether each ring has the group within 16 symbols of a place.
fn each_near(rings: &[Ring], group: &[Sym], place: usize) -> bool
    requires { place + length group.now + 17 < 2 ^ 64 }
    ensures { result ≡ list_all (λ ring. is_some (near group.now place ring)) rings.now }
{
    rings.iter().all(|ring| ring.near(group, place).is_some())
}

/// Whether a symbol waits on each ring.
fn each_waits(rings: &[Ring]) -> bool
    ensures { result ≡ list_all (λ ring. nat_lt 0 (length ring)) rings.now }
{
    rings.iter().all(|ring| ring.len() > 0)
}

/// Whether the lanes can lock at a place.
fn meet(rings: &[Ring], group: &[Sym], place: usize) -> bool
    requires { place + length group.now + 17 < 2 ^ 64 }
    ensures { result ≡ meets group.now rings.now place }
{
    some_begins(rings, group, place) && each_near(rings, group, place)
}

/// The first place below `end` where the lanes can lock.
#[tactic(auto, using(crate::proofs::Scanning::past, crate::proofs::Scanning::here, crate::proofs::Scanning::more))]
fn find(rings: &[Ring], group: &[Sym], end: usize) -> Option<usize>
    requires { end + length group.now + 17 < 2 ^ 64 }
    ensures place { result ≡ scan end (meets group.now rings.now) 0 }
    ensures within { IfSome result (λ place. place < end) }
{
    for place in 0..end {
        if meet(rings, group, place) {
            return Some(place);
        }
    }
    None
}

/// Lets go of the first `count` symbols of each ring.
fn skip_all(rings: &mut [Ring], count: usize)
    ensures { rings.new ≡ map (λ ring. drop count ring) rings.old }
{
    for ring in rings.iter_mut() {
        ring.skip(count);
    }
}

fn skip_to(ring: &mut Ring, group: &[Sym], place: usize)
    requires { place + length group.now + 17 < 2 ^ 64 }
    ensures { ring.new ≡ drop (start group.now place ring.old) ring.old }
{
    let first = ring.near(group, place).unwrap_or(0);
    ring.skip(first);
}

/// Lets go of what stands before each ring's first group from a place on.
fn skip_to_groups(rings: &mut [Ring], group: &[Sym], place: usize)
    requires { place + length group.now + 17 < 2 ^ 64 }
    ensures { rings.new ≡ map (λ ring. drop (start group.now place ring) ring) rings.old }
{
    for ring in rings.iter_mut() {
        skip_to(ring, group, place);
    }
}

/// The first symbol of each of so many rings, which is let go. Their number is known when this is compiled, so that the
/// symbols need not lie in memory.
fn take_firsts<const LANES: usize>(rings: &mut [Ring]) -> LaneSet
    requires lanes { length rings.old ≡ LANES }
    requires few { (1 ≤ LANES) × (LANES ≤ 4) }
    requires wait { (lane : ℕ) → lane < LANES → 0 < length (lane_of rings.old lane) }
    ensures set { result ≡ map head rings.old }
    ensures rest { rings.new ≡ map (λ ring. drop 1 ring) rings.old }
{
    let mut symbols = [Sym::data(0); LANES];
    for lane in 0..LANES {
        symbols[lane] = rings[lane].take_first();
    }
    LaneSet::from_slice(&symbols)
}

/// The first symbol of each ring, which is let go.
fn take_heads(rings: &mut [Ring]) -> LaneSet
    requires lanes { (1 ≤ length rings.old) × (length rings.old ≤ 4) }
    requires wait { (lane : ℕ) → lane < length rings.old → 0 < length (lane_of rings.old lane) }
    ensures set { result ≡ map head rings.old }
    ensures rest { rings.new ≡ map (λ ring. drop 1 ring) rings.old }
{
    match rings.len() {
        1 => take_firsts::<1>(rings),
        2 => take_firsts::<2>(rings),
        3 => take_firsts::<3>(rings),
        _ => take_firsts::<4>(rings),
    }
}

/// Each ring goes on by the symbols of its row's first codes.
fn push_rows(rings: &mut [Ring], rows: &LaneRows, count: usize)
    requires lanes { length rings.old ≡ lanes_count rows.now.lanes }
    requires rows { length rings.old ≤ length rows.now.rows }
    requires clocks { (lane : ℕ) → lane < length rings.old → count ≤ length (words_of rows.now.rows lane) }
    requires room { (lane : ℕ) → lane < length rings.old → length (lane_of rings.old lane) + count ≤ 8256 }
    ensures { rings.new ≡ lengthened rings.old (map (λ row. take count row) (decoded rows.now.rows)) }
{
    for lane in 0..rings.len() {
        rings[lane].push_row(&rows.row(lane as u8)[..count]);
    }
}

/// Looks for the lock; whether it is there. Lets go of what is not needed.
fn seek(rings: &mut [Ring], group: &[Sym]) -> bool
    requires lanes { 0 < length rings.old }
    requires short { length group.now ≤ 4 }
    ensures found { result ≡ is_some (lock_in group.now rings.old) }
    ensures kept { rings.new ≡ kept group.now rings.old (lock_in group.now rings.old) }
{
    let len = rings[0].len();
    match find(rings, group, len) {
        Some(place) => {
            skip_to_groups(rings, group, place);
            true
        }
        None => {
            skip_all(rings, len.saturating_sub(15 + group.len()));
            false
        }
    }
}

/// The rings of the lanes in use, lane 0 first.
#[derive(Drop)]
pub(crate) struct Rings {
    rings: Vec<Ring>,
}

impl Model for Rings {
    ghost use Rattle.std.specs.Prelude.{List};
    ghost use Rattle.dpx_base.specs.declared.sym.Sym.{Sym};

    ghost Value = { List (List Sym) };

    ghost view = { λ r. r.rings.items };
}

impl Rings {
    /// Looks for the lock; whether it is there. Lets go of what is not needed.
    pub fn seek(&mut self, group: &[Sym]) -> bool
        requires lanes { 0 < length self.old }
        requires short { length group.now ≤ 4 }
        ensures found { result ≡ is_some (lock_in group.now self.old) }
        ensures kept { self.new ≡ kept group.now self.old (lock_in group.now self.old) }
    {
        seek(self.rings.as_mut_slice(), group)
    }

    /// A ring for each lane.
    pub fn new(alloc: Global, lanes: Lanes) -> Result<Rings, AllocError>
        ensures { IfOk result (λ rings. rings ≡ replicate (lanes_count lanes) []) }
    {
        let mut rings = Vec::with_capacity(alloc, usize::from(lanes.count()))?;
        for _ in 0..lanes.count() {
            rings.push(Ring::new(alloc)?)?;
        }
        Ok(Rings { rings })
    }

    /// Whether the lanes can lock in what the rings hold.
    pub fn can_lock(&self, group: &[Sym]) -> bool
        requires lanes { 0 < length self.now }
        requires short { length group.now ≤ 4 }
        ensures { result ≡ is_some (lock_in group.now self.now) }
    {
        let rings = self.rings.as_slice();
        find(rings, group, rings[0].len()).is_some()
    }

    /// Each ring goes on by the symbols of its row's first codes.
    pub fn push_rows(&mut self, rows: &LaneRows, count: usize)
        requires lanes { length self.old ≡ lanes_count rows.now.lanes }
        requires rows { length self.old ≤ length rows.now.rows }
        requires clocks { (lane : ℕ) → lane < length self.old → count ≤ length (words_of rows.now.rows lane) }
        requires room { (lane : ℕ) → lane < length self.old → length (lane_of self.old lane) + count ≤ 8256 }
        ensures { self.new ≡ lengthened self.old (map (λ row. take count row) (decoded rows.now.rows)) }
    {
        push_rows(self.rings.as_mut_slice(), rows, count);
    }

    /// Whether a symbol waits on each ring.
    pub fn each_waits(&self) -> bool
        ensures { result ≡ list_all (λ ring. nat_lt 0 (length ring)) self.now }
    {
        each_waits(self.rings.as_slice())
    }

    /// The first symbol of each ring, which is let go.
    pub fn take_heads(&mut self) -> LaneSet
        requires lanes { (1 ≤ length self.old) × (length self.old ≤ 4) }
        requires wait { (lane : ℕ) → lane < length self.old → 0 < length (lane_of self.old lane) }
        ensures set { result ≡ map head self.old }
        ensures rest { self.new ≡ map (λ ring. drop 1 ring) self.old }
    {
        take_heads(self.rings.as_mut_slice())
    }
}
