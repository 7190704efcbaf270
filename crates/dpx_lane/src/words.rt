//! A word of a capture: two bytes, the most significant first.

ghost use Rattle.std.specs.Prelude.{◌≡◌, ◌≤◌, ◌+◌, ◌*◌, ◌++◌, length, take, drop};
ghost use Rattle.dpx_base.specs.Attributes.{two_bytes};
ghost use Rattle.dpx_lane.specs.Rows.{lane_word};

use byteorder::{BigEndian, ByteOrder};

/// Writes a word at a place.
pub(crate) fn put_word(to: &mut [u8], at: usize, word: u16)
    requires { at + 2 ≤ length to.old }
    ensures { to.new ≡ take at to.old ++ (two_bytes word ++ drop (at + 2) to.old) }
{
    BigEndian::write_u16(&mut to[at..at + 2], word);
}

/// A lane's word in the bytes of a clock.
pub(crate) fn word_of(bytes: &[u8], lane: usize) -> u16
    requires { 2 * lane + 2 ≤ length bytes.now }
    ensures { result ≡ lane_word bytes.now lane }
{
    BigEndian::read_u16(&bytes[2 * lane..])
}
