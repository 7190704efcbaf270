ghost use Rattle.std.specs.Prelude.{◌≡◌, ◌+◌, ◌<◌};
ghost use Rattle.dpx_phase.specs.Drives.{swing, at_full_swing, same_swings};

use dpx_base::Lanes;
use dpx_dpcd::Drive;

/// Whether every lane in use has the greatest swing.
pub(crate) fn at_full_swing(lanes: Lanes, drive: Drive) -> bool
    ensures { result ≡ at_full_swing lanes drive.registers }
{
    lanes.every_lane(|lane| swing(drive, lane) == 3)
}

/// Whether two drives have equal swings, lane by lane. Their emphasis counts for nothing.
pub(crate) fn same_swings(lanes: Lanes, a: Drive, b: Drive) -> bool
    ensures { result ≡ same_swings lanes a.registers b.registers }
{
    lanes.every_lane(|lane| swing(a, lane) == swing(b, lane))
}

/// The swing of a lane, 0 to 3: bits 1:0 of its register.
fn swing(drive: Drive, lane: u8) -> u8
    requires { lane < 4 }
    ensures { result ≡ swing drive.registers lane }
{
    drive.registers[usize::from(lane)] % 4
}
