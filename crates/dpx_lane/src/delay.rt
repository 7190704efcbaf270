//! The delay of a lane, at the edges of a row: no symbol inside a row is moved one by one.

ghost use Rattle.std.specs.Prelude.{◌≡◌, ◌<◌, ◌++◌, length, replicate};

use arrayvec::ArrayVec;

/// So many codes of the fill symbol, data 00.
pub(crate) fn fills(count: u8) -> ArrayVec<u16, 7>
    requires { count < 7 }
    ensures { result.items ≡ replicate count 0 }
{
    let mut codes = ArrayVec::new();
    for _ in 0..count {
        codes.push(0);
    }
    codes
}

/// What waited goes before the row, and as much of its end waits.
pub(crate) fn delay_row(waiting: &mut ArrayVec<u16, 7>, row: &mut [u16])
    ensures delayed { row.new ++ waiting.new.items ≡ waiting.old.items ++ row.old }
    ensures row { length row.new ≡ length row.old }
{
    let lag = waiting.len();
    if lag <= row.len() {
        row.rotate_right(lag);
        row[..lag].swap_with_slice(waiting.as_mut_slice());
    } else {
        let count = row.len();
        let waiting = waiting.as_mut_slice();
        waiting[..count].swap_with_slice(row);
        waiting.rotate_left(count);
    }
}
