ghost use Rattle.std.specs.Prelude.{◌≡◌, ◌<◌, ℕ, List, [], ◌∷◌, ◌++◌, IsTrue, length, slice_index};
ghost use Rattle.dpx_lane.specs.Codes.{is_code, AllCodes};
ghost use Rattle.dpx_lane.specs.Sending.{HasCoded};

use crate::word_table::WordTable;
use crate::{Scrambler, code_of, symbol_of};

/// A lane's scrambler and its running disparity.
#[derive(Clone, Copy, Drop)]
pub(crate) struct Coder {
    scrambler: Scrambler,
    plus: bool,
}

impl Coder {
    /// At the seed, and at minus.
    pub(crate) fn new() -> Coder
        ensures { HasCoded result [] [] }
    {
        Coder {
            scrambler: Scrambler::new(),
            plus: false,
        }
    }

    /// The word of the next code.
    fn word(&mut self, table: &WordTable, code: u16) -> u16
        requires { IsTrue (is_code code) }
        ensures { (codes words : List ℕ) → HasCoded self.old codes words
            → HasCoded self.new (codes ++ code ∷ []) (words ++ result ∷ []) }
    {
        let sym = self.scrambler.next(symbol_of(code));
        let (word, plus) = table.word(code_of(sym), self.plus);
        self.plus = plus;
        word
    }

    /// Puts the words of a row's codes into their places.
    pub(crate) fn code_row(&mut self, table: &WordTable, row: &mut [u16])
        requires { AllCodes row.old }
        ensures { (codes words : List ℕ) → HasCoded self.old codes words
            → HasCoded self.new (codes ++ row.old) (words ++ row.new) }
    {
        // A copy stays in registers while the row is coded.
        let mut local = *self;
        for code in row.iter_mut() {
            *code = local.word(table, *code);
        }
        *self = local;
    }
}
