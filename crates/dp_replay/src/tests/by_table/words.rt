//! The words of a lane's row: the key of the scrambler bit by bit, and the code by both columns of its table.

use super::sets::SR;
use std::alloc::Global;
use std::test::Fail;

/// The first blocks for x from 0 to 31, at minus and at plus.
const FIRST: [(u16, u16); 32] = [
    (0b100111, 0b011000),
    (0b011101, 0b100010),
    (0b101101, 0b010010),
    (0b110001, 0b110001),
    (0b110101, 0b001010),
    (0b101001, 0b101001),
    (0b011001, 0b011001),
    (0b111000, 0b000111),
    (0b111001, 0b000110),
    (0b100101, 0b100101),
    (0b010101, 0b010101),
    (0b110100, 0b110100),
    (0b001101, 0b001101),
    (0b101100, 0b101100),
    (0b011100, 0b011100),
    (0b010111, 0b101000),
    (0b011011, 0b100100),
    (0b100011, 0b100011),
    (0b010011, 0b010011),
    (0b110010, 0b110010),
    (0b001011, 0b001011),
    (0b101010, 0b101010),
    (0b011010, 0b011010),
    (0b111010, 0b000101),
    (0b110011, 0b001100),
    (0b100110, 0b100110),
    (0b010110, 0b010110),
    (0b110110, 0b001001),
    (0b001110, 0b001110),
    (0b101110, 0b010001),
    (0b011110, 0b100001),
    (0b101011, 0b010100),
];

/// The second blocks for y from 0 to 7.
const SECOND: [(u16, u16); 8] = [
    (0b1011, 0b0100),
    (0b1001, 0b1001),
    (0b0101, 0b0101),
    (0b1100, 0b0011),
    (0b1101, 0b0010),
    (0b1010, 0b1010),
    (0b0110, 0b0110),
    (0b1110, 0b0001),
];

/// The second block for y of 7 behind some first blocks.
const ALTERNATE: (u16, u16) = (0b0111, 0b1000);

/// The control symbols with their words at minus. At plus each bit is the other one.
const CONTROL: [(u16, u16); 9] = [
    (0x11c, 0b0011110100),
    (0x13c, 0b0011111001),
    (0x15c, 0b0011110101),
    (0x17c, 0b0011110011),
    (0x1bc, 0b0011111010),
    (0x1f7, 0b1110101000),
    (0x1fb, 0b1101101000),
    (0x1fd, 0b1011101000),
    (0x1fe, 0b0111101000),
];

fn of_column((minus, plus): (u16, u16), is_plus: bool) -> u16 {
    if is_plus { plus } else { minus }
}

/// Whether a block of so many bits leaves plus.
fn leaves_plus(block: u16, bits: u32, was_plus: bool) -> bool {
    let ones = block.count_ones().saturating_mul(2);
    if ones == bits { was_plus } else { ones > bits }
}

/// The two blocks of a data byte.
fn data_blocks(byte: u16, is_plus: bool) -> (u16, u16) {
    let x = usize::from(byte % 32);
    let y = usize::from(byte / 32 % 8);
    let first = of_column(FIRST[x], is_plus);
    let between = leaves_plus(first, 6, is_plus);
    let is_alternate = match x {
        17 | 18 | 20 => !between,
        11 | 13 | 14 => between,
        _ => false,
    };
    let pair = if y == 7 && is_alternate {
        ALTERNATE
    } else {
        SECOND[y]
    };
    (first, of_column(pair, between))
}

fn control_blocks(code: u16, is_plus: bool) -> (u16, u16) {
    let mut word = 0;
    for (symbol, at_minus) in CONTROL {
        if symbol == code {
            word = if is_plus {
                at_minus ^ 0b1111111111
            } else {
                at_minus
            };
        }
    }
    (word / 16 % 64, word % 16)
}

/// The bytes of the key, so many.
fn key(alloc: Global, count: usize) -> Result<Vec<u16>, Fail> {
    let mut bits = [1u16, 1, 1, 1, 1, 1, 1, 1, 1, 1, 1, 0, 1, 0, 0, 0];
    let mut bytes = Vec::new(alloc);
    for _ in 0..count {
        let mut byte = 0u16;
        for place in 0..8u32 {
            byte |= bits[0] << place;
            let next = (bits[0] ^ bits[3] ^ bits[4] ^ bits[5]) & 1;
            bits.rotate_left(1);
            bits[15] = next;
        }
        bytes.push(byte)?;
    }
    Ok(bytes)
}

/// The words of a lane's row of codes.
pub(super) fn words(alloc: Global, row: &[u16]) -> Result<Vec<u16>, Fail> {
    let key = key(alloc, row.len())?;
    let mut words = Vec::new(alloc);
    let mut behind_reset = 0usize;
    let mut is_plus = false;
    for code in row {
        let (first, second) = if *code < 256 {
            data_blocks(*code ^ key.get(behind_reset).copied().unwrap_or(0), is_plus)
        } else {
            control_blocks(*code, is_plus)
        };
        words.push(first % 64 * 16 + second % 16)?;
        is_plus = leaves_plus(second, 4, leaves_plus(first, 6, is_plus));
        behind_reset = if *code == SR {
            0
        } else {
            behind_reset.saturating_add(1)
        };
    }
    Ok(words)
}
