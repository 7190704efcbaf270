//! The four columns of the attributes, out of what the lanes carried.

ghost use Rattle.std.specs.Prelude.{◌≡◌, ◌<◌};
ghost use Rattle.dpx_base.specs.Lanes.{lanes_count};
ghost use Rattle.dpx_parse.specs.Columns.{dealt, dealt_place};

use dpx_base::Lanes;

fn dealt_place(lanes: Lanes, place: usize) -> usize
    requires { place < 36 }
    ensures value { result ≡ dealt_place (lanes_count lanes) place }
    ensures bound { result < 36 }
{
    match lanes {
        Lanes::One => place / 9 * 9 + place % 9,
        Lanes::Two => (place / 9 / 2 * 9 + place % 9) * 2 + place / 9 % 2,
        Lanes::Four => (place / 9 / 4 * 9 + place % 9) * 4 + place / 9 % 4,
    }
}

/// The 36 bytes in their order, out of the bytes in the order of sets and then lanes.
pub(crate) fn deal(lanes: Lanes, bytes: &[u8; 36]) -> [u8; 36]
    ensures { result ≡ dealt (lanes_count lanes) bytes.now }
{
    let mut columns = [0; 36];
    for place in 0..36usize {
        columns[place] = bytes[dealt_place(lanes, place)];
    }
    columns
}
