ghost use Rattle.std.specs.Prelude.{◌≡◌, ◌<◌, ◌≤◌, ◌↔◌, ◌⊎◌, Bool, false, true, IfSome, IfNone, IfOk, IfErr, IsOk, Err};
ghost use Rattle.dpx_base.specs.Code.{IsSymbol, Codes, StandsIn};
ghost use Rattle.dpx_base.specs.declared.sym.Sym.{Sym};
ghost use Rattle.dpx_code.specs.Back.{data_of, is_candidate_control, candidate_byte};
ghost use Rattle.dpx_code.specs.Decode.{decoded, StandsAllowed, StandsElsewhere};
ghost use Rattle.dpx_code.specs.Disparity.{rd_of, Allows};
ghost use Rattle.dpx_code.specs.declared.decoding.CodeBad.TheVariants.{NotAWord, WrongColumn};
ghost use Rattle.dpx_code.specs.declared.disparity.Rd.TheVariants.{Unknown};

use crate::Rd;
use crate::disparity::{next_disparity, rd_of};
use crate::encoding::word_of;
use crate::tables::{control_of, x_of, y_of};
use dpx_base::Sym;

/// Why a word has no symbol.
#[derive(Clone, Copy, Debug, PartialEq, Eq)]
pub enum CodeBad {
    /// No symbol has this word, at either disparity.
    NotAWord(u16),
    /// Only the other disparity has this word.
    WrongColumn(u16, Rd),
}

/// The byte of two data blocks; 256 or more where one is none.
#[tactic(auto, unfolding(crate::specs::Back::data_of))]
fn data_of(word: u16) -> u16
    requires { word < 1024 }
    ensures fits { result ≤ 288 }
    ensures value { result ≡ data_of word }
{
    u16::from(x_of((word / 16) as u8)) + 32 * u16::from(y_of((word % 16) as u8))
}

/// The one symbol that a word can stand for.
#[tactic(auto, unfolding(crate::specs::Back::is_candidate_control, crate::specs::Back::candidate_byte))]
fn candidate_of(word: u16) -> Option<Sym>
    requires { word < 1024 }
    ensures symbol { IfSome result IsSymbol }
    ensures control { IfSome result (λ sym. sym.control ≡ is_candidate_control word) }
    ensures byte { IfSome result (λ sym. sym.byte ≡ candidate_byte word) }
    ensures none { IfNone result (256 ≤ candidate_byte word) }
{
    let control = control_of(word);
    if control > 0 {
        return Some(Sym {
            control: true,
            byte: control,
        });
    }
    let data = data_of(word);
    if data > 255 {
        return None;
    }
    Some(Sym {
        control: false,
        byte: data as u8,
    })
}

/// What a word is read as, by the columns that it stands in.
#[tactic(auto, unfolding(crate::specs::Back::stands))]
fn read_word(word: u16, rd: Rd) -> Result<(Sym, Rd), CodeBad>
    requires { word < 1024 }
    ensures { result ≡ decoded word rd }
{
    let Some(sym) = candidate_of(word) else {
        return Err(CodeBad::NotAWord(word));
    };
    let minus = word_of(sym, false) == word;
    let plus = word_of(sym, true) == word;
    let (allowed, other, column) = match rd {
        Rd::Minus => (minus, plus, false),
        Rd::Plus => (plus, minus, true),
        Rd::Unknown => (minus || plus, false, plus),
    };
    if allowed {
        if rd == Rd::Unknown && minus && plus {
            Ok((sym, Rd::Unknown))
        } else {
            Ok((sym, rd_of(next_disparity(word, column))))
        }
    } else if other {
        Err(CodeBad::WrongColumn(word, rd))
    } else {
        Err(CodeBad::NotAWord(word))
    }
}

/// The symbol of a word, and the disparity that it leaves. `Unknown` allows both columns, and stays where the word
/// stands in both.
pub fn decode(word: u16, rd: Rd) -> Result<(Sym, Rd), CodeBad>
    requires { word < 1024 }
    ensures ok { IsOk result ↔ StandsAllowed rd word }
    ensures symbol { (symbol : Sym) (plus next : Bool) → Allows rd plus → Codes symbol plus word next
        → IfOk result (λ read. read.0 ≡ symbol) }
    ensures next { (symbol : Sym) (plus next : Bool) → Allows rd plus → Codes symbol plus word next
        → IfOk result (λ read. (read.1 ≡ rd_of next) ⊎ (read.1 ≡ Unknown)) }
    ensures unknown { IfOk result (λ read.
        (read.1 ≡ Unknown) ↔ ((rd ≡ Unknown) × StandsIn false word × StandsIn true word)) }
    ensures not_a_word { (result ≡ Err (NotAWord word)) ↔ ((plus : Bool) → StandsIn plus word → ⊥) }
    ensures wrong_column { (result ≡ Err (WrongColumn word rd)) ↔ StandsElsewhere rd word }
    ensures refusals { IfErr result (λ bad. (bad ≡ NotAWord word) ⊎ (bad ≡ WrongColumn word rd)) }
    ensures computed { result ≡ decoded word rd }
{
    read_word(word, rd)
}
