ghost use Rattle.std.specs.Prelude.{◌≡◌, ◌<◌};
ghost use Rattle.dpx_base.specs.Code.{IsSymbol};
ghost use Rattle.dpx_base.specs.Symbols.{control_symbol};
ghost use Rattle.dpx_code.specs.Disparity.{IsKnown};

use dpx_base::Sym;
use dpx_code::{CodeBad, Rd, decode, encode};
use std::process::Abort;

const fn data(byte: u8) -> Sym
    ensures { IsSymbol result }
{
    Sym {
        control: false,
        byte,
    }
}

const fn control(byte: u8) -> Sym
    ensures { result ≡ control_symbol byte }
{
    Sym {
        control: true,
        byte,
    }
}

/// The first blocks for x from 0 to 31 at minus, and whether plus turns them over: a block that is not balanced, and
/// that of x = 7.
const FIRST: [u16; 32] = [
    0b100111, 0b011101, 0b101101, 0b110001, 0b110101, 0b101001, 0b011001, 0b111000, 0b111001,
    0b100101, 0b010101, 0b110100, 0b001101, 0b101100, 0b011100, 0b010111, 0b011011, 0b100011,
    0b010011, 0b110010, 0b001011, 0b101010, 0b011010, 0b111010, 0b110011, 0b100110, 0b010110,
    0b110110, 0b001110, 0b101110, 0b011110, 0b101011,
];

/// The second blocks for y from 0 to 7 at minus; plus turns over those that are not balanced, and that of y = 3.
const SECOND: [u16; 8] = [
    0b1011, 0b1001, 0b0101, 0b1100, 0b1101, 0b1010, 0b0110, 0b1110,
];

/// The control bytes, with their words at minus.
const CONTROL: [(u8, u16); 9] = [
    (0x1c, 0b0011110100),
    (0x3c, 0b0011111001),
    (0x5c, 0b0011110101),
    (0x7c, 0b0011110011),
    (0xbc, 0b0011111010),
    (0xf7, 0b1110101000),
    (0xfb, 0b1101101000),
    (0xfd, 0b1011101000),
    (0xfe, 0b0111101000),
];

/// A block at a disparity, of its block at minus.
fn turned(block: u16, half: u32, turns: bool, plus: bool) -> u16 {
    let mask = if half == 3 { 0b111111 } else { 0b1111 };
    if plus && (turns || block.count_ones() != half) {
        block ^ mask
    } else {
        block
    }
}

fn leaves(block: u16, half: u32, plus: bool) -> bool {
    if block.count_ones() == half {
        plus
    } else {
        block.count_ones() > half
    }
}

/// The word of a data byte, and whether it leaves plus, by the rule in words: the disparity turns the blocks over, and
/// the alternate seven stands where five equal bits would else stand in a row.
fn plain_data(byte: u8, plus: bool) -> (u16, bool) {
    let x = byte % 32;
    let y = byte / 32;
    let first = turned(FIRST[usize::from(x)], 3, x == 7, plus);
    let middle = leaves(first, 3, plus);
    let alternate = if middle {
        x == 11 || x == 13 || x == 14
    } else {
        x == 17 || x == 18 || x == 20
    };
    let second = if y == 7 && alternate {
        if middle { 0b1000 } else { 0b0111 }
    } else {
        turned(SECOND[usize::from(y)], 2, y == 3, middle)
    };
    ((first << 4) | second, leaves(second, 2, middle))
}

fn plain_control(word: u16, plus: bool) -> (u16, bool) {
    let word = if plus { word ^ 0b1111111111 } else { word };
    (word, leaves(word & 0b1111, 2, leaves(word >> 4, 3, plus)))
}

/// The symbol that has a word in a column, and whether it leaves plus.
fn in_column(word: u16, plus: bool) -> Option<(Sym, bool)> {
    for byte in 0..=255u8 {
        let (found, next) = plain_data(byte, plus);
        if found == word {
            return Some((data(byte), next));
        }
    }
    for (byte, minus) in CONTROL {
        let (found, next) = plain_control(minus, plus);
        if found == word {
            return Some((control(byte), next));
        }
    }
    None
}

fn rd_of(plus: bool) -> Rd
    ensures { IsKnown result }
{
    if plus { Rd::Plus } else { Rd::Minus }
}

/// What a word is read as, by the columns.
fn plain_read(word: u16, rd: Rd) -> Result<(Sym, Rd), CodeBad> {
    let minus = in_column(word, false);
    let plus = in_column(word, true);
    let (here, there) = match rd {
        Rd::Minus => (minus, plus),
        Rd::Plus => (plus, minus),
        Rd::Unknown => {
            if let (Some((sym, _)), Some(_)) = (minus, plus) {
                return Ok((sym, Rd::Unknown));
            }
            (minus.or(plus), None)
        }
    };
    match (here, there) {
        (Some((sym, next)), _) => Ok((sym, rd_of(next))),
        (None, Some(_)) => Err(CodeBad::WrongColumn(word, rd)),
        (None, None) => Err(CodeBad::NotAWord(word)),
    }
}

/// How many words are read, stand in the other column alone, and are none.
fn counts(rt: &impl Abort, rd: Rd) -> (u32, u32, u32) {
    let mut read = 0u32;
    let mut wrong = 0u32;
    let mut none = 0u32;
    for word in 0..1024u16 {
        let given = decode(word, rd);
        assert_eq!(rt; given, plain_read(word, rd), "{word:03x}");
        match given {
            Ok(_) => read = read.wrapping_add(1),
            Err(CodeBad::WrongColumn(_, _)) => wrong = wrong.wrapping_add(1),
            Err(CodeBad::NotAWord(_)) => none = none.wrapping_add(1),
        }
    }
    (read, wrong, none)
}

#[test]
fn all_words_are_read_by_their_columns(rt: HostRuntime) {
    // 265 symbols have a word in each column; 18 first blocks and 4 second blocks are the same in both
    assert_eq!(rt; counts(&rt, Rd::Minus), (265, 193, 566));
    assert_eq!(rt; counts(&rt, Rd::Plus), (265, 193, 566));
    assert_eq!(rt; counts(&rt, Rd::Unknown), (458, 0, 566));
}

fn there_and_back(rt: &impl Abort, sym: Sym, plus: bool)
    requires { IsSymbol sym }
{
    let rd = rd_of(plus);
    let (word, next) = encode(sym, rd);
    assert_eq!(rt; decode(word, rd), Ok((sym, next)), "{word:03x}");
}

fn both_ways(rt: &impl Abort, sym: Sym)
    requires { IsSymbol sym }
{
    there_and_back(rt, sym, false);
    there_and_back(rt, sym, true);
}

#[tactic(auto, unfolding(dpx_base::specs::Code::is_control, dpx_base::specs::Code::is_among, dpx_base::specs::Code::control_words))]
#[test]
fn symbols_go_there_and_back(rt: HostRuntime) {
    for byte in 0..=255u8 {
        both_ways(&rt, data(byte));
    }
    both_ways(&rt, control(0x1c));
    both_ways(&rt, control(0x3c));
    both_ways(&rt, control(0x5c));
    both_ways(&rt, control(0x7c));
    both_ways(&rt, control(0xbc));
    both_ways(&rt, control(0xf7));
    both_ways(&rt, control(0xfb));
    both_ways(&rt, control(0xfd));
    both_ways(&rt, control(0xfe));
}

#[tactic(auto, unfolding(dpx_base::specs::Code::is_control, dpx_base::specs::Code::is_among, dpx_base::specs::Code::control_words))]
#[test]
fn worked_words_are_these(rt: HostRuntime) {
    assert_eq!(rt; encode(data(0x00), Rd::Minus), (0x274, Rd::Minus));
    assert_eq!(rt; encode(data(0xf1), Rd::Minus), (0x237, Rd::Plus));
    assert_eq!(rt; encode(control(0xbc), Rd::Minus), (0x0fa, Rd::Plus));
    assert_eq!(rt; encode(control(0xbc), Rd::Plus), (0x305, Rd::Minus));
    assert_eq!(rt; decode(0x000, Rd::Minus), Err(CodeBad::NotAWord(0x000)));
    assert_eq!(rt;
        decode(0x0fa, Rd::Plus),
        Err(CodeBad::WrongColumn(0x0fa, Rd::Plus))
    );
    assert_eq!(rt; decode(0x2aa, Rd::Unknown), Ok((data(0xb5), Rd::Unknown)));
}
