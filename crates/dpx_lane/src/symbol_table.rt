//! The symbols of the words, by a table: a word's symbol is looked up, and decoded in a row only where it is refused.

ghost use Rattle.std.specs.Prelude.{◌≡◌, ◌<◌, ◌+◌, ◌*◌, ◌%◌, ◌/◌, ℕ, Ok};
ghost use Rattle.dpx_code.specs.Decode.{decoded};
ghost use Rattle.dpx_lane.specs.Codes.{symbol_of};
ghost use Rattle.dpx_lane.specs.SymbolTable.{IsEntryAt, rd_numbered};

use crate::code_of;
use dpx_base::Sym;
use dpx_code::{Rd, decode};
use std::marker::Model;

/// The entry of a word that is refused.
pub(crate) const REFUSED: u16 = 65535;

pub(crate) fn rd_numbered(number: u16) -> Rd
    ensures { result ≡ rd_numbered number }
{
    if number == 0 {
        Rd::Minus
    } else if number == 1 {
        Rd::Plus
    } else {
        Rd::Unknown
    }
}

fn number(rd: Rd) -> u16
    ensures few { result < 3 }
    ensures rd { rd_numbered result ≡ rd }
{
    match rd {
        Rd::Minus => 0,
        Rd::Plus => 1,
        Rd::Unknown => 2,
    }
}

fn packed(sym: Sym, rd: Rd) -> u16
    ensures small { result < 1536 }
    ensures symbol { symbol_of (result % 512) ≡ sym }
    ensures rd { rd_numbered (result / 512) ≡ rd }
{
    code_of(sym) + 512 * number(rd)
}

#[tactic(auto, unfolding(crate::specs::SymbolTable::IsEntryAt))]
fn entry_at(index: u16) -> u16
    requires { index < 3072 }
    ensures { IsEntryAt index result }
{
    match decode(index % 1024, rd_numbered(index / 1024)) {
        Ok((sym, rd)) => packed(sym, rd),
        Err(_) => REFUSED,
    }
}

fn place(word: u16, rd: Rd) -> usize
    requires { word < 1024 }
    ensures below { result < 3072 }
    ensures word { result % 1024 ≡ word }
    ensures rd { rd_numbered (result / 1024) ≡ rd }
{
    usize::from(number(rd) * 1024 + word)
}

/// The symbols of all words, at minus, at plus and where the disparity is not known.
#[derive(Drop)]
pub(crate) struct SymbolTable {
    entries: [u16; 3072],
}

impl Model for SymbolTable {
    ghost use Rattle.std.specs.Prelude.{Bool, true};
    ghost use Rattle.dpx_lane.specs.SymbolTable.{AreEntries};

    ghost Value = { Bool };

    ghost view = { λ t. true };

    ghost invariant = { λ t. AreEntries t.entries };
}

impl SymbolTable {
    pub(crate) fn new() -> SymbolTable {
        let mut entries = [0u16; 3072];
        for index in 0..3072u16 {
            entries[usize::from(index)] = entry_at(index);
        }
        SymbolTable { entries }
    }

    /// A word's entry: its symbol's code, and 512 times the number of the disparity that it leaves; or `REFUSED`.
    pub(crate) fn entry(&self, word: u16, rd: Rd) -> u16
        requires { word < 1024 }
        ensures { result < 65535 → decoded word rd ≡ Ok (symbol_of (result % 512), rd_numbered (result / 512)) }
    {
        self.entries[place(word, rd)]
    }
}
