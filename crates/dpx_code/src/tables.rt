//! The tables of the code. Each stands once; its macro makes the way to a word and the way back of it.

ghost use Rattle.std.specs.Prelude.{◌≡◌, ◌<◌, ◌≤◌, slice_index, IsTrue};
ghost use Rattle.dpx_base.specs.Code.{first_block, second_block, takes_a7, control_word, is_control};
ghost use Rattle.dpx_code.specs.Back.{x_of, y_of, control_of};

// An entry at minus and at plus, one where they are the same.
macro_rules! column {
    ($plus:expr; $minus:literal) => { $minus };
    ($plus:expr; $minus:literal, $p:literal) => { if $plus { $p } else { $minus } };
}

// A table's rows, read by their number; or the number of the row that has an entry.
macro_rules! rows {
    (entry $at:expr, $plus:expr; $($n:literal => $($w:literal)/+),*) => {
        match $at {
            $($n => column!($plus; $($w),+),)*
            _ => unreachable!(),
        }
    };
    (find $at:expr, $else:literal; $($n:literal => $minus:literal / $p:literal),*) => {{
        $(if $at == $minus || $at == $p {
            return $n;
        })*
        $else
    }};
    (row $at:expr, $($none:literal)|+ => $else:literal; $($n:literal => $($w:literal)/+),*) => {
        match $at {
            $($($w)|+ => $n,)*
            $($none => $else,)+
            _ => unreachable!(),
        }
    };
}

macro_rules! first_blocks {
    ($($how:tt)*) => {
        rows!($($how)*;
            0 => 0b100111 / 0b011000,
            1 => 0b011101 / 0b100010,
            2 => 0b101101 / 0b010010,
            3 => 0b110001,
            4 => 0b110101 / 0b001010,
            5 => 0b101001,
            6 => 0b011001,
            7 => 0b111000 / 0b000111,
            8 => 0b111001 / 0b000110,
            9 => 0b100101,
            10 => 0b010101,
            11 => 0b110100,
            12 => 0b001101,
            13 => 0b101100,
            14 => 0b011100,
            15 => 0b010111 / 0b101000,
            16 => 0b011011 / 0b100100,
            17 => 0b100011,
            18 => 0b010011,
            19 => 0b110010,
            20 => 0b001011,
            21 => 0b101010,
            22 => 0b011010,
            23 => 0b111010 / 0b000101,
            24 => 0b110011 / 0b001100,
            25 => 0b100110,
            26 => 0b010110,
            27 => 0b110110 / 0b001001,
            28 => 0b001110,
            29 => 0b101110 / 0b010001,
            30 => 0b011110 / 0b100001,
            31 => 0b101011 / 0b010100
        )
    };
}

macro_rules! second_blocks {
    ($($how:tt)*) => {
        rows!($($how)*;
            0 => 0b1011 / 0b0100,
            1 => 0b1001,
            2 => 0b0101,
            3 => 0b1100 / 0b0011,
            4 => 0b1101 / 0b0010,
            5 => 0b1010,
            6 => 0b0110,
            7 => 0b1110 / 0b0001
        )
    };
}

macro_rules! control_words {
    ($($how:tt)*) => {
        rows!($($how)*;
            0x1C => 0b0011110100 / 0b1100001011,
            0x3C => 0b0011111001 / 0b1100000110,
            0x5C => 0b0011110101 / 0b1100001010,
            0x7C => 0b0011110011 / 0b1100001100,
            0xBC => 0b0011111010 / 0b1100000101,
            0xF7 => 0b1110101000 / 0b0001010111,
            0xFB => 0b1101101000 / 0b0010010111,
            0xFD => 0b1011101000 / 0b0100010111,
            0xFE => 0b0111101000 / 0b1000010111
        )
    };
}

#[tactic(auto, unfolding(dpx_base::specs::Code::first_block, dpx_base::specs::Code::first_minus, dpx_base::specs::Code::first_plus))]
pub(crate) fn first_block(x: u8, plus: bool) -> u8
    requires { x < 32 }
    ensures fits { result < 64 }
    ensures entry { result ≡ first_block x plus }
{
    first_blocks!(entry x, plus)
}

#[tactic(auto, unfolding(dpx_base::specs::Code::takes_a7))]
fn takes_a7(x: u8, plus: bool) -> bool
    ensures { result ≡ takes_a7 x plus }
{
    if plus {
        x == 11 || x == 13 || x == 14
    } else {
        x == 17 || x == 18 || x == 20
    }
}

#[tactic(auto, unfolding(dpx_base::specs::Code::second_block, dpx_base::specs::Code::second_minus, dpx_base::specs::Code::second_plus))]
pub(crate) fn second_block(y: u8, x: u8, plus: bool) -> u8
    requires { y < 8 }
    ensures fits { result < 16 }
    ensures entry { result ≡ second_block y x plus }
{
    if y == 7 && takes_a7(x, plus) {
        if plus { 0b1000 } else { 0b0111 }
    } else {
        second_blocks!(entry y, plus)
    }
}

#[tactic(auto, unfolding(dpx_base::specs::Code::control_word, dpx_base::specs::Code::is_control, dpx_base::specs::Code::is_among, dpx_base::specs::Code::word_among, dpx_base::specs::Code::control_words))]
pub(crate) fn control_word(byte: u8, plus: bool) -> u16
    requires { IsTrue (is_control byte) }
    ensures fits { result < 1024 }
    ensures entry { result ≡ control_word byte plus }
{
    control_words!(entry byte, plus)
}

/// The x of a first block, 32 where it is none.
#[tactic(auto, unfolding(crate::specs::Back::x_of))]
pub(crate) fn x_of(block: u8) -> u8
    requires { block < 64 }
    ensures fits { result ≤ 32 }
    ensures row { result ≡ slice_index x_of block }
{
    first_blocks!(row block, 0 | 1 | 2 | 3 | 4 | 8 | 15 | 16 | 31 | 32 | 47 | 48 | 55 | 59 | 60 | 61 | 62 | 63 => 32)
}

/// The y of a second block, 8 where it is none.
#[tactic(auto, unfolding(crate::specs::Back::y_of))]
pub(crate) fn y_of(block: u8) -> u8
    requires { block < 16 }
    ensures fits { result ≤ 8 }
    ensures row { result ≡ slice_index y_of block }
{
    if block == 0b0111 || block == 0b1000 {
        return 7;
    }
    second_blocks!(row block, 0 | 15 => 8)
}

/// The control byte of a word, 0 where it is none's.
#[tactic(auto, unfolding(crate::specs::Back::control_of, crate::specs::Back::control_among, dpx_base::specs::Code::control_words, dpx_base::specs::Code::is_control, dpx_base::specs::Code::is_among))]
pub(crate) fn control_of(word: u16) -> u8
    ensures word { result ≡ control_of word }
    ensures symbol { 0 < result → IsTrue (is_control result) }
{
    control_words!(find word, 0)
}
