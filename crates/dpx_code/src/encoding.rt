ghost use Rattle.std.specs.Prelude.{◌≡◌, ◌<◌};
ghost use Rattle.dpx_base.specs.Code.{data_word, word_of, IsSymbol, Codes, next_disparity};
ghost use Rattle.dpx_code.specs.Disparity.{rd_of, is_plus, IsKnown};

use crate::Rd;
use crate::disparity::{disparity_after, next_disparity, rd_of};
use crate::tables::{control_word, first_block, second_block};
use dpx_base::Sym;

#[tactic(auto, unfolding(dpx_base::specs::Code::data_word))]
fn data_word(byte: u8, plus: bool) -> u16
    ensures fits { result < 1024 }
    ensures word { result ≡ data_word byte plus }
{
    let first = first_block(byte % 32, plus);
    let second = second_block(byte / 32, byte % 32, disparity_after(3, first, plus));
    u16::from(first) * 16 + u16::from(second)
}

#[tactic(auto, unfolding(dpx_base::specs::Code::word_of))]
pub(crate) fn word_of(sym: Sym, plus: bool) -> u16
    requires { IsSymbol sym }
    ensures fits { result < 1024 }
    ensures word { result ≡ word_of sym.control sym.byte plus }
{
    if sym.control {
        control_word(sym.byte, plus)
    } else {
        data_word(sym.byte, plus)
    }
}

/// The word of a symbol at a disparity that is known, with bit a as bit 9, and the disparity that it leaves.
pub fn encode(sym: Sym, rd: Rd) -> (u16, Rd)
    requires known { IsKnown rd }
    requires symbol { IsSymbol sym }
    ensures fits { result.0 < 1024 }
    ensures codes { Codes sym (is_plus rd) result.0 (is_plus result.1) }
    ensures known { IsKnown result.1 }
    ensures next { result.1 ≡ rd_of (next_disparity result.0 (is_plus rd)) }
{
    let plus = rd == Rd::Plus;
    let word = word_of(sym, plus);
    (word, rd_of(next_disparity(word, plus)))
}
