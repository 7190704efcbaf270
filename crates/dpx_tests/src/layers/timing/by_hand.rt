//! The numbers of a line, computed as with pencil and paper: no number comes near the type's end.

use super::{Numbers, Sizes};
use dpx_base::{Depth, Link};
use dpx_timing::Unfit;
use std::num::Wrapping;

type Number = Wrapping<u64>;

fn number(n: u32) -> Number {
    Wrapping(u64::from(n))
}

/// a / d, rounded down.
fn down(a: Number, d: Number) -> Number {
    Wrapping(a.0.checked_div(d.0).unwrap_or(0))
}

/// a / d, rounded up.
fn up(a: Number, d: Number) -> Number {
    let whole = down(a, d);
    if whole * d == a {
        whole
    } else {
        whole + number(1)
    }
}

/// The clocks of a line: a remainder is kept from unit to unit, and each gives the symbols that are whole by then.
fn line_end(symbols: Number, unit: Number, n: Number, m: Number) -> Number {
    let mut clocks = number(0);
    let mut left = symbols;
    let mut rest = number(0);
    for _ in 0..symbols.0 {
        rest += unit * n;
        let whole = down(rest, m);
        if left <= whole {
            break;
        }
        left -= whole;
        rest -= whole * m;
        clocks += unit;
    }
    clocks + left
}

/// What fit has to say of units of 64 clocks and two frames.
pub(crate) fn outcome(sizes: Sizes, depth: Depth, link: Link) -> Result<Numbers, Unfit> {
    let [width, _, htotal, vtotal, pixel_clock] = sizes.map(number);
    let bits = number(3) * number(u32::from(depth.bits()));
    let lanes = number(u32::from(link.lanes.count()));
    let symbol_clock = number(link.rate.clock_khz());
    let unit = number(64);
    let n = pixel_clock * bits;
    let m = number(8) * lanes * symbol_clock;
    if n > m {
        return Err(Unfit::TooFast { n: n.0, m: m.0 });
    }
    if unit * n < m {
        return Err(Unfit::TooSlow {
            n: n.0,
            m: m.0,
            unit: 64,
        });
    }
    let symbols = up(up(width, lanes) * bits, number(8));
    let delay = number(65) - down(unit * n, m) + up((bits + number(8)) * m, number(8) * n);
    let end = line_end(symbols, unit, n, m);
    let have = down(htotal * symbol_clock, pixel_clock);
    let need = end + delay + number(17);
    if have < need {
        return Err(Unfit::NoRoom {
            have: have.0,
            need: need.0,
        });
    }
    let tick = number(2) * vtotal * htotal - width;
    let header = if link.enhanced { number(4) } else { number(1) } + down(number(12), lanes);
    let clocks = down(tick * symbol_clock, pixel_clock) + delay + end + header;
    let bound = down(unit + bits, number(4)) + number(6);
    Ok([symbols, n, m, delay, end, bound, clocks].map(|number| number.0))
}
