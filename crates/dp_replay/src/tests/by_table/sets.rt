//! The set of a clock: the first line of the table of clocks that applies to it. A symbol's code is its byte, and 256
//! more for a control symbol.

use super::shape::{Plan, Shape, scaled};

pub(super) const BS: u16 = 0x1bc;

pub(super) const BE: u16 = 0x1fb;

pub(super) const SR: u16 = 0x11c;

pub(super) const SS: u16 = 0x15c;

pub(super) const SE: u16 = 0x1fd;

pub(super) const FS: u16 = 0x1fe;

const FE: u16 = 0x1f7;

pub(super) const BF: u16 = 0x17c;

/// The table of clocks, line by line.
#[derive(Clone, Copy, PartialEq, Eq)]
enum Row {
    Start,
    Symbol,
    Stuffing,
    Group,
    Block,
    Attributes,
}

const TABLE: [Row; 6] = [
    Row::Start,
    Row::Symbol,
    Row::Stuffing,
    Row::Group,
    Row::Block,
    Row::Attributes,
];

impl Plan {
    /// What each lane carries in a clock; lanes that are not in use carry 0.
    pub(super) fn set_at(&self, clock: u64) -> [u16; 4] {
        let lanes = self.shape.lanes;
        for row in TABLE {
            for line in 0..self.shape.lines() {
                if let Some(place) = self.place_in(row, line, clock) {
                    let code = |lane| if lane < lanes {
                        self.code(row, line, lane, place)
                    } else {
                        0
                    };
                    return [code(0), code(1), code(2), code(3)];
                }
            }
        }
        [0; 4]
    }

    /// Where the clock stands among those to which this line of the table applies, of a line of the frames.
    fn place_in(&self, row: Row, line: u64, clock: u64) -> Option<u64> {
        let start = self.start(line);
        let (group, block) = self.header_clocks();
        let header = start.saturating_add(self.end);
        let behind = header.saturating_add(group).saturating_add(block);
        let is_active = self.shape.is_active(line);
        match row {
            Row::Start if is_active => within(clock.saturating_add(1), start, 1),
            Row::Symbol | Row::Stuffing if is_active => {
                let place = within(clock, start, self.end)?;
                (self.is_symbol(place) == (row == Row::Symbol)).then_some(place)
            }
            Row::Group => within(clock, header, group),
            Row::Block => within(clock, header.saturating_add(group), block),
            Row::Attributes if self.shape.row(line) == 0 => {
                within(
                    clock,
                    behind,
                    scaled(36, 1, self.shape.lanes).saturating_add(3),
                )
            }
            _ => None,
        }
    }

    fn code(&self, row: Row, line: u64, lane: u64, place: u64) -> u16 {
        match row {
            Row::Start => BE,
            Row::Symbol => self.shape.symbol(line, lane, self.symbol_number(place)),
            Row::Stuffing => self.stuffing(place),
            Row::Group => group(line, place),
            Row::Block => self.shape.block(line, place),
            Row::Attributes => self.shape.attributes(lane, place),
        }
    }

    /// Of a clock of a line: its unit, and its place in it.
    fn in_unit(&self, place: u64) -> (u64, u64) {
        let unit = scaled(place, 1, self.shape.unit);
        (unit, place.checked_rem(self.shape.unit).unwrap_or(0))
    }

    fn unit_symbols(&self, unit: u64) -> u64 {
        self.symbols_before(unit.saturating_add(1))
            .saturating_sub(self.symbols_before(unit))
    }

    fn is_symbol(&self, place: u64) -> bool {
        let (unit, place) = self.in_unit(place);
        place < self.unit_symbols(unit)
    }

    fn symbol_number(&self, place: u64) -> u64 {
        let (unit, place) = self.in_unit(place);
        self.symbols_before(unit).saturating_add(place)
    }

    /// FE ends a unit, else FS begins what fills it.
    fn stuffing(&self, place: u64) -> u16 {
        let (unit, place) = self.in_unit(place);
        if place.saturating_add(1) == self.shape.unit {
            FE
        } else if place == self.unit_symbols(unit) {
            FS
        } else {
            0
        }
    }
}

/// A clock's place among so many from the first on.
fn within(clock: u64, first: u64, count: u64) -> Option<u64> {
    clock.checked_sub(first).filter(|place| *place < count)
}

fn group(line: u64, place: u64) -> u16 {
    match place {
        1 | 2 => BF,
        _ if line % 512 == 0 => SR,
        _ => BS,
    }
}

impl Shape {
    /// Of a line, in its frame.
    fn row(&self, line: u64) -> u64 {
        line.checked_rem(self.vtotal).unwrap_or(0)
    }

    fn is_active(&self, line: u64) -> bool {
        self.row(line) >= self.vtotal.saturating_sub(self.height)
    }

    /// Eight bits of a lane's line, the first in bit 7.
    fn symbol(&self, line: u64, lane: u64, number: u64) -> u16 {
        let mut byte = 0u16;
        for place in 0..8u64 {
            let bit = self.bit(line, lane, number.saturating_mul(8).saturating_add(place));
            byte = byte % 128 * 2 + bit % 2;
        }
        byte
    }

    /// A bit of a lane's line.
    fn bit(&self, line: u64, lane: u64, place: u64) -> u16 {
        let column = lane.saturating_add(scaled(place, 1, self.bits()).saturating_mul(self.lanes));
        if column >= self.width {
            return 0;
        }
        let frame = scaled(line, 1, self.vtotal);
        let above = self
            .row(line)
            .saturating_sub(self.vtotal.saturating_sub(self.height));
        let shown = frame.saturating_mul(self.height).saturating_add(above);
        let pixel = shown.saturating_mul(self.width).saturating_add(column);
        let place = place.checked_rem(self.bits()).unwrap_or(0);
        let component = self.component(pixel, scaled(place, 1, self.depth()));
        let below = place.checked_rem(self.depth()).unwrap_or(0);
        component >> (self.depth().saturating_sub(1).saturating_sub(below) % 16) & 1
    }

    /// VB-ID, Mvid and Maud, again and again.
    fn block(&self, line: u64, place: u64) -> u16 {
        let is_between = self.is_active(line) && self.row(line.saturating_add(1)) != 0;
        match place % 3 {
            0 => if is_between { 0x10 } else { 0x11 },
            1 => byte(self.clock, 1),
            _ => 0,
        }
    }

    /// SS SS, the bytes of a lane's columns, SE.
    fn attributes(&self, lane: u64, place: u64) -> u16 {
        let bytes = scaled(36, 1, self.lanes);
        match place {
            0 | 1 => SS,
            _ if place < bytes.saturating_add(2) => self.attribute(lane, place - 2),
            _ => SE,
        }
    }

    /// A lane carries the column of its number, then each that is as many as there are lanes further on.
    fn attribute(&self, lane: u64, place: u64) -> u16 {
        let column = lane.saturating_add((place / 9).saturating_mul(self.lanes));
        self.columns()[(column % 4) as usize][(place % 9) as usize]
    }

    fn columns(&self) -> [[u16; 9]; 4] {
        let [m0, m1, m2] = [
            byte(self.clock, 65_536),
            byte(self.clock, 256),
            byte(self.clock, 1),
        ];
        let two = |value| [byte(value, 256), byte(value, 1)];
        let [h0, h1] = two(self.htotal);
        let [v0, v1] = two(self.vtotal);
        let [hs0, hs1] = two(self.hstart);
        let [vs0, vs1] = two(self.vstart);
        let [w0, w1] = two(self.width);
        let [l0, l1] = two(self.height);
        let [p0, p1] = polarity(self.hsp, self.hsw);
        let [q0, q1] = polarity(self.vsp, self.vsw);
        let symbols = self.rate.2;
        let [n0, n1, n2] = [byte(symbols, 65_536), byte(symbols, 256), byte(symbols, 1)];
        [
            [m0, m1, m2, h0, h1, v0, v1, p0, p1],
            [m0, m1, m2, hs0, hs1, vs0, vs1, q0, q1],
            [m0, m1, m2, w0, w1, l0, l1, 0, 0],
            [m0, m1, m2, n0, n1, n2, self.misc0(), 0, 0],
        ]
    }

    fn misc0(&self) -> u16 {
        match self.depth {
            6 => 0x01,
            8 => 0x21,
            10 => 0x41,
            12 => 0x61,
            _ => 0x81,
        }
    }
}

/// The byte of a number at this weight.
fn byte(number: u64, weight: u64) -> u16 {
    (scaled(number, 1, weight) % 256) as u16
}

/// A polarity in bit 15 of a width.
fn polarity(is_negative: bool, width: u64) -> [u16; 2] {
    let high = byte(width, 256) % 128;
    [if is_negative { high + 128 } else { high }, byte(width, 1)]
}
