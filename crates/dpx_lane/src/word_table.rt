//! The words of the codes, by a table: a symbol's word is looked up, and never coded in a row.

ghost use Rattle.std.specs.Prelude.{◌≡◌, ◌<◌, ◌+◌, ◌%◌, ℕ, IsTrue, nat_le};
ghost use Rattle.dpx_base.specs.Code.{Codes, IsSymbol, is_control};
ghost use Rattle.dpx_lane.specs.Codes.{is_code, symbol_of};
ghost use Rattle.dpx_lane.specs.WordTable.{IsEntry, IsEntryAt};

use crate::symbol_of;
use dpx_base::Sym;
use dpx_code::{Rd, encode};
use std::marker::Model;

fn coded(sym: Sym, plus: bool) -> (u16, bool)
    requires { IsSymbol sym }
    ensures fits { result.0 < 1024 }
    ensures codes { Codes sym plus result.0 result.1 }
{
    let (word, next) = encode(sym, if plus { Rd::Plus } else { Rd::Minus });
    (word, next == Rd::Plus)
}

#[tactic(auto, unfolding(dpx_base::specs::Code::is_control, dpx_base::specs::Code::is_among, dpx_base::specs::Code::control_words))]
fn is_control(byte: u8) -> bool
    ensures { result ≡ is_control byte }
{
    match byte {
        0x1c | 0x3c | 0x5c | 0x7c | 0xbc | 0xf7 | 0xfb | 0xfd | 0xfe => true,
        _ => false,
    }
}

fn is_code(code: u16) -> bool
    requires { code < 512 }
    ensures { result ≡ is_code code }
{
    code < 256 || is_control((code % 256) as u8)
}

fn packed(word: u16, next: bool) -> u16
    requires { word < 1024 }
    ensures word { result % 1024 ≡ word }
    ensures next { nat_le 1024 result ≡ next }
{
    if next { word + 1024 } else { word }
}

/// A code's word, plus 1024 where it leaves plus; 0 where it is no code.
fn entry(code: u16, plus: bool) -> u16
    requires { code < 512 }
    ensures { IsTrue (is_code code) → IsEntry result plus code }
{
    if !is_code(code) {
        return 0;
    }
    let (word, next) = coded(symbol_of(code), plus);
    packed(word, next)
}

#[tactic(auto, unfolding(crate::specs::WordTable::IsEntryAt))]
fn entry_at(index: u16) -> u16
    requires { index < 1024 }
    ensures { IsEntryAt index result }
{
    entry(index % 512, index >= 512)
}

fn place(code: u16, plus: bool) -> usize
    requires { code < 512 }
    ensures below { result < 1024 }
    ensures code { result % 512 ≡ code }
    ensures plus { nat_le 512 result ≡ plus }
{
    if plus {
        usize::from(code) + 512
    } else {
        usize::from(code)
    }
}

/// The words of all codes at minus, then at plus.
#[derive(Drop)]
pub(crate) struct WordTable {
    entries: [u16; 1024],
}

impl Model for WordTable {
    ghost use Rattle.std.specs.Prelude.{Bool, true};
    ghost use Rattle.dpx_lane.specs.WordTable.{AreEntries};

    ghost Value = { Bool };

    ghost view = { λ t. true };

    ghost invariant = { λ t. AreEntries t.entries };
}

impl WordTable {
    pub(crate) fn new() -> WordTable {
        let mut entries = [0u16; 1024];
        for index in 0..1024u16 {
            entries[usize::from(index)] = entry_at(index);
        }
        WordTable { entries }
    }

    /// The word of a code, and whether it leaves plus.
    pub(crate) fn word(&self, code: u16, plus: bool) -> (u16, bool)
        requires { IsTrue (is_code code) }
        ensures { Codes (symbol_of code) plus result.0 result.1 }
    {
        let entry = self.entries[place(code, plus)];
        (entry % 1024, entry >= 1024)
    }
}
