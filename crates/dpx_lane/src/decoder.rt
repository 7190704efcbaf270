ghost use Rattle.std.specs.Prelude.{◌≡◌, ◌<◌, ◌≤◌, ◌+◌, ◌^◌, ℕ, List, [], ◌∷◌, ◌++◌, length, Ok, None};
ghost use Rattle.dpx_lane.specs.Reading.{read_word, IsFault};
ghost use Rattle.dpx_lane.specs.Receiving.{HasDecoded, IsReading};

use crate::lane_fault::read_word;
use crate::symbol_table::{REFUSED, SymbolTable, rd_numbered};
use crate::{LaneFault, Scrambler, code_of, symbol_of};
use dpx_base::Sym;
use dpx_code::Rd;

/// A lane's running disparity and its key, the clocks of its good words, and the first bad word.
#[derive(Clone, Copy, Drop)]
pub(crate) struct Decoder {
    rd: Rd,
    scrambler: Scrambler,
    clock: u64,
    fault: Option<LaneFault>,
}

impl Decoder {
    /// At the seed, and at either disparity.
    pub(crate) fn new() -> Decoder
        ensures nothing { HasDecoded result [] [] }
        ensures clock { result.clock ≡ 0 }
    {
        Decoder {
            rd: Rd::Unknown,
            scrambler: Scrambler::new(),
            clock: 0,
            fault: None,
        }
    }

    /// The first bad word of all rows, if there was one.
    pub(crate) fn fault(&self) -> Option<LaneFault>
        ensures first { (words left : List ℕ) → HasDecoded self.now words left → IsFault words result }
        ensures reading { (words left : List ℕ) → HasDecoded self.now words left → IsReading words left result }
    {
        self.fault
    }

    /// A good word.
    fn go_on(&mut self, word: u16, sym: Sym, rd: Rd) -> u16
        requires clock { self.old.clock < 2 ^ 62 }
        requires fault { self.old.fault ≡ None }
        requires read { read_word word self.old.rd ≡ Ok (sym, rd) }
        ensures state { (words left : List ℕ) → HasDecoded self.old words left
            → HasDecoded self.new (words ++ word ∷ []) (left ++ result ∷ []) }
        ensures clock { self.new.clock ≡ self.old.clock + 1 }
    {
        self.rd = rd;
        self.clock += 1;
        code_of(self.scrambler.next(sym))
    }

    fn step(&mut self, table: &SymbolTable, word: u16) -> u16
        requires { self.old.clock < 2 ^ 62 }
        ensures state { (words left : List ℕ) → HasDecoded self.old words left
            → HasDecoded self.new (words ++ word ∷ []) (left ++ result ∷ []) }
        ensures clock { self.new.clock ≤ self.old.clock + 1 }
    {
        if self.fault.is_some() {
            return word;
        }
        if word < 1024 {
            let entry = table.entry(word, self.rd);
            if entry < REFUSED {
                return self.go_on(word, symbol_of(entry % 512), rd_numbered(entry / 512));
            }
        }
        match read_word(word, self.rd) {
            Ok((sym, rd)) => self.go_on(word, sym, rd),
            Err(why) => {
                self.fault = Some(LaneFault {
                    clock: self.clock,
                    why,
                });
                word
            }
        }
    }

    /// Puts the codes of a row's words into their places, up to the first bad word.
    pub(crate) fn read_row(&mut self, table: &SymbolTable, row: &mut [u16])
        requires { self.old.clock + length row.old < 2 ^ 62 }
        ensures goes_on { (words left : List ℕ) → HasDecoded self.old words left
            → HasDecoded self.new (words ++ row.old) (left ++ row.new) }
        ensures clock { self.new.clock ≤ self.old.clock + length row.old }
    {
        // A copy stays in registers while the row is read.
        let mut local = *self;
        for word in row.iter_mut() {
            *word = local.step(table, *word);
        }
        *self = local;
    }
}
