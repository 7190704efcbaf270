ghost use Rattle.std.specs.Prelude.{◌≡◌, ◌<◌, ◌≤◌, ◌+◌, ◌^◌, ℕ, List, [], ◌++◌, length, drop, map, IfOk, slice_get};
ghost use Rattle.dpx_base.specs.declared.sym.Sym.{Sym};
ghost use Rattle.dpx_lane.specs.Codes.{symbol_of};
ghost use Rattle.dpx_align.specs.Search.{sym_eq, begins_with, near, head};

use circular_buffer::HeapCircularBuffer;
use dpx_base::Sym;
use dpx_lane::symbol_of;
use std::alloc::{AllocError, Global};
use std::marker::Model;

/// A batch of 8,192 clocks, and 64 symbols that may still wait for other lanes.
const ROOM: usize = 8256;

/// The symbols of one lane that may still be needed, in order. It keeps their codes, which come in whole rows.
#[derive(Drop)]
pub(crate) struct Ring {
    buffer: HeapCircularBuffer<u16>,
}

impl Model for Ring {
    ghost use Rattle.std.specs.Prelude.{◌≡◌, List, map};
    ghost use Rattle.dpx_base.specs.declared.sym.Sym.{Sym};
    ghost use Rattle.dpx_lane.specs.Codes.{symbol_of};

    ghost Value = { List Sym };

    ghost view = { λ r. map symbol_of r.buffer.items };

    ghost invariant = { λ r. r.buffer.capacity ≡ 8256 };
}

fn same(a: Sym, b: Sym) -> bool
    ensures { result ≡ sym_eq a b }
{
    a.control == b.control && a.byte == b.byte
}

impl Ring {
    pub fn new(alloc: Global) -> Result<Ring, AllocError>
        ensures { IfOk result (λ r. r ≡ []) }
    {
        Ok(Ring {
            buffer: HeapCircularBuffer::with_capacity(alloc, ROOM)?,
        })
    }

    pub fn len(&self) -> usize
        ensures len { result ≡ length self.now }
        ensures room { result ≤ 8256 }
    {
        self.buffer.len()
    }

    /// Goes on by the symbols of a row of codes.
    pub fn push_row(&mut self, row: &[u16])
        requires { length self.old + length row.now ≤ 8256 }
        ensures { self.new ≡ self.old ++ map symbol_of row.now }
    {
        self.buffer.fill_from_slice(row);
    }

    /// Lets go of the first `count` symbols.
    #[tactic(auto, using(crate::proofs::Heads::skipped))]
    pub fn skip(&mut self, count: usize)
        ensures { self.new ≡ drop count self.old }
    {
        let len = self.buffer.len();
        if count < len {
            self.buffer.truncate_front(len - count);
        } else {
            self.buffer.clear();
        }
    }

    fn at(&self, place: usize) -> Option<Sym>
        ensures { result ≡ slice_get self.now place }
    {
        match self.buffer.get(place) {
            Some(code) => Some(symbol_of(*code)),
            None => None,
        }
    }

    /// Takes the first symbol out.
    pub fn take_first(&mut self) -> Sym
        requires { 0 < length self.old }
        ensures first { result ≡ head self.old }
        ensures rest { self.new ≡ drop 1 self.old }
    {
        match self.buffer.pop_front() {
            Some(code) => symbol_of(code),
            None => unreachable!(),
        }
    }

    /// Whether the group stands at a place.
    #[tactic(auto, using(crate::proofs::Beginning::begins_end, crate::proofs::Beginning::begins_past))]
    pub fn begins_at(&self, group: &[Sym], place: usize) -> bool
        requires { place + length group.now < 2 ^ 64 }
        ensures { result ≡ begins_with group.now (drop place self.now) }
    {
        for i in 0..group.len() {
            match self.at(place + i) {
                Some(sym) => {
                    if !same(group[i], sym) {
                        return false;
                    }
                }
                None => return false,
            }
        }
        true
    }

    /// The first place of a group within 16 symbols of a place.
    #[tactic(auto, using(crate::proofs::Scanning::past, crate::proofs::Scanning::here, crate::proofs::Scanning::more))]
    pub fn near(&self, group: &[Sym], place: usize) -> Option<usize>
        requires { place + length group.now + 17 < 2 ^ 64 }
        ensures { result ≡ near group.now place self.now }
    {
        for at in place..place + 17 {
            if self.begins_at(group, at) {
                return Some(at);
            }
        }
        None
    }
}
