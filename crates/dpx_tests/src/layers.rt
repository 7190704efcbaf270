//! Each layer by itself: a file for each crate, and one for the register file.

ghost use Rattle.std.specs.Prelude.{◌<◌};

use dpx_base::Rate;
use dpx_dpcd::{Cell, Channel};
use std::process::Abort;

mod attributes;
mod aux;
mod base;
mod buffer;
mod code;
mod dpcd;
mod edid;
mod files;
mod judge;
mod lane;
mod link;
mod main_link;
mod modes;
mod packing;
mod phase;
mod pipe;
mod register_file;
mod sinkmodel;
mod timing;
mod watch;

/// The channel behaves so at this rate on this lane.
pub(crate) fn behaves(rt: &impl Abort, channel: &Channel, rate: Rate, lane: u8, cell: Cell)
    requires { lane < 4 }
{
    assert_eq!(rt; channel.cell(rate, lane), cell, "{rate:?} {lane}");
}
