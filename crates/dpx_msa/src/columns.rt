ghost use Rattle.std.specs.Prelude.{◌≡◌, ◌<◌, ◌/◌};
ghost use Rattle.dpx_base.specs.Attributes.{column_symbol, vb_id};
ghost use Rattle.dpx_base.specs.Lanes.{lanes_count};

use dpx_base::Lanes;

/// VB-ID: `blank` tells the vertical blanking. No video is never told.
pub fn vb_id(blank: bool) -> u8
    ensures { result ≡ vb_id blank }
{
    if blank { 0x11 } else { 0x10 }
}

/// The place, 0 to 35, of the attribute byte that the lane carries at `index`.
pub fn column_symbol(lane: u8, lanes: Lanes, index: u8) -> u8
    requires lane { lane < lanes_count lanes }
    requires index { index < 36 / lanes_count lanes }
    ensures place { result ≡ column_symbol lanes lane index }
    ensures within { result < 36 }
{
    9 * (lane + lanes.count() * (index / 9)) + index % 9
}
