ghost use Rattle.std.specs.Prelude.{◌≡◌, ◌<◌, ◌≤◌, length, map, replicate, slice_get, Some};
ghost use Rattle.dpx_base.specs.Lanes.{lanes_count};
ghost use Rattle.dpx_base.specs.Symbols.{data_symbol, bytes_of};

use crate::{LaneBytes, Lanes, Sym};
use std::marker::Model;

/// The symbols of a clock, lane 0 first: one to four.
#[derive(Clone, Copy, Debug, PartialEq, Eq)]
pub struct LaneSet {
    symbols: [Sym; 4],
    count: u8,
}

impl Model for LaneSet {
    ghost use Rattle.std.specs.Prelude.{List, take, length};
    ghost use Rattle.dpx_base.specs.declared.sym.Sym.{Sym};
    ghost use Rattle.dpx_base.specs.Padded.{padded, IsPadded};
    ghost use Rattle.dpx_base.specs.Symbols.{data_symbol};
    ghost use Rattle.dpx_base.specs.Padded.{fields_back};

    ghost Value = { List Sym };

    ghost view = { λ s. take s.count s.symbols };

    ghost invariant = { λ s. IsPadded 1 4 (data_symbol 0) s.symbols s.count };

    ghost inverse = { λ l. record { symbols = padded 4 (data_symbol 0) l; count = length l } };

    ghost inverse_ok = { λ s h. fields_back (λ symbols count. record { symbols = symbols; count = count }) h };
}

const NONE: Sym = Sym {
    control: false,
    byte: 0,
};

impl LaneSet {
    /// Takes all of the symbols, one to four.
    pub fn from_slice(items: &[Sym]) -> LaneSet
        requires { (1 ≤ length items.now) × (length items.now ≤ 4) }
        ensures { result ≡ items.now }
    {
        match items {
            [a] => LaneSet {
                symbols: [*a, NONE, NONE, NONE],
                count: 1,
            },
            [a, b] => LaneSet {
                symbols: [*a, *b, NONE, NONE],
                count: 2,
            },
            [a, b, c] => LaneSet {
                symbols: [*a, *b, *c, NONE],
                count: 3,
            },
            [a, b, c, d] => LaneSet {
                symbols: [*a, *b, *c, *d],
                count: 4,
            },
            _ => unreachable!(),
        }
    }

    /// The same symbol on each lane.
    pub fn on_each(lanes: Lanes, symbol: Sym) -> LaneSet
        ensures { result ≡ replicate (lanes_count lanes) symbol }
    {
        match lanes {
            Lanes::One => LaneSet {
                symbols: [symbol, NONE, NONE, NONE],
                count: 1,
            },
            Lanes::Two => LaneSet {
                symbols: [symbol, symbol, NONE, NONE],
                count: 2,
            },
            Lanes::Four => LaneSet {
                symbols: [symbol, symbol, symbol, symbol],
                count: 4,
            },
        }
    }

    /// A data symbol for each byte.
    pub fn data(bytes: &LaneBytes) -> LaneSet
        ensures { result ≡ map data_symbol bytes.now }
    {
        let [a, b, c, d] = bytes.bytes;
        LaneSet {
            symbols: [Sym::data(a), Sym::data(b), Sym::data(c), Sym::data(d)],
            count: bytes.count,
        }
    }

    /// The symbols, lane 0 first.
    pub fn as_slice(&self) -> &[Sym]
        ensures value { result.now ≡ self.now }
        ensures range { (1 ≤ length result.now) × (length result.now ≤ 4) }
    {
        &self.symbols[..usize::from(self.count)]
    }

    /// The bytes of the symbols.
    pub fn bytes(&self) -> LaneBytes
        ensures { result ≡ bytes_of self.now }
    {
        let [a, b, c, d] = self.symbols;
        LaneBytes {
            bytes: [a.byte, b.byte, c.byte, d.byte],
            count: self.count,
        }
    }

    /// How many lanes it has.
    pub fn len(&self) -> usize
        ensures length { result ≡ length self.now }
        ensures range { (1 ≤ result) × (result ≤ 4) }
    {
        usize::from(self.count)
    }

    /// The symbol of a lane.
    pub fn get(&self, place: usize) -> Sym
        requires { place < length self.now }
        ensures { slice_get self.now place ≡ Some result }
    {
        let symbols = self.symbols;
        symbols[place]
    }
}
