ghost use Rattle.std.specs.Prelude.{◌≡◌, ◌<◌, IsTrue};
ghost use Rattle.dpx_base.specs.Code.{IsSymbol};
ghost use Rattle.dpx_lane.specs.Codes.{code_of, symbol_of, is_code};

use dpx_base::Sym;

/// A symbol's code in a row: the byte, plus 256 for a control symbol. This project's own.
pub fn code_of(sym: Sym) -> u16
    ensures value { result ≡ code_of sym }
    ensures back { symbol_of result ≡ sym }
    ensures fits { result < 512 }
    ensures code { IsSymbol sym → IsTrue (is_code result) }
{
    u16::from(sym.byte) + if sym.control { 256 } else { 0 }
}

/// The symbol of a code.
pub fn symbol_of(code: u16) -> Sym
    ensures value { result ≡ symbol_of code }
    ensures symbol { IsTrue (is_code code) → IsSymbol result }
{
    Sym {
        control: code >= 256,
        byte: (code % 256) as u8,
    }
}
