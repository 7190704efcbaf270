ghost use Rattle.std.specs.Prelude.{◌≡◌, ◌<◌, ◌≤◌, ◌+◌, ◌-◌, ◌*◌, ◌^◌, ◌++◌, length, replicate};
ghost use Rattle.dpx_pack.specs.Bits.{low_bits};

/// The number with these bits, and the bits of `more` behind them.
pub(crate) fn joined(value: u64, left: u32, more: u16, width: u32) -> u64
    requires value { value < 2 ^ left }
    requires more { more < 2 ^ width }
    requires room { left + width ≤ 63 }
    ensures fits { result < 2 ^ (left + width) }
    ensures bits { low_bits (left + width) result ≡ low_bits left value ++ low_bits width more }
{
    (value << width) + u64::from(more)
}

/// The first bits as a number, and the rest.
pub(crate) fn take_top(value: u64, count: u32, width: u32) -> (u16, u64)
    requires value { value < 2 ^ count }
    requires width { (width ≤ count) × (width ≤ 16) }
    requires room { count ≤ 63 }
    ensures top { result.0 < 2 ^ width }
    ensures rest { result.1 < 2 ^ (count - width) }
    ensures bits { low_bits count value ≡ low_bits width result.0 ++ low_bits (count - width) result.1 }
{
    let rest = count - width;
    ((value >> rest) as u16, value % (1 << rest))
}

/// The bits as a byte, filled up with zeros.
pub(crate) fn filled_up(value: u64, left: u32) -> u8
    requires left { (0 < left) × (left < 8) }
    requires value { value < 2 ^ left }
    ensures { low_bits 8 result ≡ low_bits left value ++ replicate (8 - left) 0 }
{
    (value << (8 - left)) as u8
}
