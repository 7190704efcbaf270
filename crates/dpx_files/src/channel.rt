ghost use Rattle.std.specs.Prelude.{◌≡◌, ◌≤◌, ◌++◌, IfSome};
ghost use Rattle.serde_json.specs.View.{view};
ghost use Rattle.dpx_dpcd.specs.Model.{IsCell, AreCells};
ghost use Rattle.dpx_files.specs.Channel.{channel_of, lanes_at, cell_of, level_of, with_lanes};

use crate::members::{elements, read_flag};
use dpx_base::Rate;
use dpx_dpcd::{Cell, Channel};
use serde_json::Value;

/// The lanes of a modelled channel; None where the value describes none.
#[tactic(auto, unfolding(crate::specs::Channel::channel_of))]
pub(crate) fn read_channel(value: &Value) -> Option<Channel>
    ensures value { result ≡ channel_of (view value.now) }
    ensures cells { IfSome result (AreCells 16) }
{
    if !value.is_object() {
        return None;
    }
    let rbr = read_lanes(value, Rate::Rbr)?;
    let hbr = read_lanes(value, Rate::Hbr)?;
    let hbr2 = read_lanes(value, Rate::Hbr2)?;
    let hbr3 = read_lanes(value, Rate::Hbr3)?;
    Some(channel_with(rbr, hbr, hbr2, hbr3))
}

#[tactic(auto, unfolding(crate::specs::Channel::lanes_at))]
fn read_lanes(channel: &Value, rate: Rate) -> Option<[Cell; 4]>
    ensures value { result ≡ lanes_at (view channel.now) rate }
    ensures cells { IfSome result (AreCells 4) }
{
    let Some(value) = channel.get(rate.name()) else {
        return Some([Cell::new(true, true, 0, 0); 4]);
    };
    match elements(value)? {
        [a, b, c, d] => Some([read_cell(a)?, read_cell(b)?, read_cell(c)?, read_cell(d)?]),
        _ => None,
    }
}

#[tactic(auto, unfolding(crate::specs::Channel::cell_of))]
fn read_cell(value: &Value) -> Option<Cell>
    ensures value { result ≡ cell_of (view value.now) }
    ensures cell { IfSome result IsCell }
{
    match elements(value)? {
        [cr, eq, swing, emph] => Some(Cell::new(
            read_flag(cr)?,
            read_flag(eq)?,
            read_level(swing)?,
            read_level(emph)?,
        )),
        _ => None,
    }
}

fn read_level(value: &Value) -> Option<u8>
    ensures value { result ≡ level_of (view value.now) }
    ensures bound { IfSome result (λ level. level ≤ 3) }
{
    match value.as_u64() {
        Some(level) if level <= 3 => Some(level as u8),
        _ => None,
    }
}

/// A channel of the lanes at RBR, HBR, HBR2 and HBR3.
fn channel_with(rbr: [Cell; 4], hbr: [Cell; 4], hbr2: [Cell; 4], hbr3: [Cell; 4]) -> Channel
    requires rbr { AreCells 4 rbr }
    requires hbr { AreCells 4 hbr }
    requires hbr2 { AreCells 4 hbr2 }
    requires hbr3 { AreCells 4 hbr3 }
    ensures value { result ≡ rbr ++ hbr ++ hbr2 ++ hbr3 }
    ensures cells { AreCells 16 result }
{
    let mut channel = Channel::perfect();
    set_lanes(&mut channel, Rate::Rbr, rbr);
    set_lanes(&mut channel, Rate::Hbr, hbr);
    set_lanes(&mut channel, Rate::Hbr2, hbr2);
    set_lanes(&mut channel, Rate::Hbr3, hbr3);
    channel
}

fn set_lanes(channel: &mut Channel, rate: Rate, cells: [Cell; 4])
    ensures { channel.new ≡ with_lanes rate cells channel.old }
{
    let [a, b, c, d] = cells;
    channel.set(rate, 0, a);
    channel.set(rate, 1, b);
    channel.set(rate, 2, c);
    channel.set(rate, 3, d);
}
