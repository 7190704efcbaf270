ghost use Rattle.std.specs.Prelude.{◌≡◌, ℕ, ◌+◌, ◌*◌, ◌<◌, ◌≤◌, nat_le, if◌then◌else◌, IfOk, IfSome, IfNone};
ghost use Rattle.dpx_base.specs.Asks.{CanAsk, AsksAtMost};
ghost use Rattle.dpx_aux.specs.Conversation.{Converses};
ghost use Rattle.dpx_aux.specs.Asking.{asks_at_most};
ghost use Rattle.dpx_dpcd.specs.declared.pattern.Pattern.TheVariants.{Tps1};
ghost use Rattle.dpx_dpcd.specs.Status.{cr_done, status_level};
ghost use Rattle.dpx_phase.specs.Drives.{no_drive, at_full_swing, same_swings};
ghost use Rattle.dpx_phase.specs.Endings.{recovery_reads, recovery_end};
ghost use Rattle.dpx_phase.specs.Phase.{Runs, Follows, rounds_transactions};
ghost use Rattle.dpx_phase.specs.Recovery.{Recovery, recovery, EndsRecovery, recovery_asks};

use crate::steps::{read_later, write_drive, write_start};
use crate::swings::{at_full_swing, same_swings};
use crate::{FailCause, PhaseEnd};
use dpx_aux::AuxEnd;
use dpx_base::{AuxPort, Lanes, Link};
use dpx_dpcd::{Drive, Pattern, Status6};

/// How many statuses are read at most: this project's own number.
const READS: u8 = 10;

/// The microseconds before each read of clock recovery.
pub const RECOVERY_PAUSE: u32 = 100;

/// After so many drives with equal swings, recovery fails: this project's own number.
const ALIKE: u8 = 5;

/// No swing and no emphasis: the drive that clock recovery begins with.
pub const NO_DRIVE: Drive = Drive { registers: [0; 4] };

/// The drive in force in clock recovery, and how many drives in a row, up to it, have had its swings.
#[derive(Clone, Copy, Debug, PartialEq, Eq)]
pub struct Level {
    pub drive: Drive,
    pub alike: u8,
}

/// Clock recovery: training pattern 1 with no drive, and then the drives that the sink asks for.
#[tactic(auto, unfolding(crate::specs::Recovery::Recovery))]
pub fn recover<P: AuxPort>(port: &mut P, link: Link) -> PhaseEnd
    requires { CanAsk recovery_asks (P.state port.old) }
    ensures phase { Converses (Recovery link) (P.state port.old) (P.state port.new) result }
    ensures few { AsksAtMost recovery_asks (P.state port.old) (P.state port.new) }
    ensures end { EndsRecovery link.lanes result }
{
    match start(port, link.lanes) {
        Ok(end) => end,
        Err(why) => PhaseEnd::Aux(why),
    }
}

fn start<P: AuxPort>(port: &mut P, lanes: Lanes) -> Result<PhaseEnd, AuxEnd>
    requires { CanAsk recovery_asks (P.state port.old) }
    ensures runs { Converses (Runs (recovery lanes) Tps1 no_drive)
        (P.state port.old) (P.state port.new) result }
    ensures few { AsksAtMost recovery_asks (P.state port.old) (P.state port.new) }
    ensures end { IfOk result (EndsRecovery lanes) }
{
    write_start(port, lanes, Pattern::Tps1, NO_DRIVE)?;
    adjust(port, lanes)
}

/// Reads statuses, and writes the drives that they ask for, until one ends the phase.
fn adjust<P: AuxPort>(port: &mut P, lanes: Lanes) -> Result<PhaseEnd, AuxEnd>
    requires { CanAsk (asks_at_most * rounds_transactions recovery_reads) (P.state port.old) }
    ensures follows { Converses (Follows (recovery lanes)) (P.state port.old) (P.state port.new) result }
    ensures few { AsksAtMost (asks_at_most * rounds_transactions recovery_reads)
        (P.state port.old) (P.state port.new) }
    ensures end { IfOk result (EndsRecovery lanes) }
{
    let mut level = Level {
        drive: NO_DRIVE,
        alike: 1,
    };
    for number in 1..READS + 1 {
        let status = read_later(port, RECOVERY_PAUSE)?;
        match recovery_end(lanes, status, level, number) {
            Some(end) => return Ok(end),
            None => {}
        }
        level = next_level(lanes, status, level);
        write_drive(port, lanes, level.drive)?;
    }
    // The tenth status always ends the phase.
    unreachable!()
}

/// How recovery ends at the status of this number, counted from 1, if it ends there.
pub fn recovery_end(lanes: Lanes, status: Status6, level: Level, number: u8) -> Option<PhaseEnd>
    requires { number ≤ recovery_reads }
    ensures value { result ≡ recovery_end lanes (nat_le 5 level.alike) number level.drive.registers status }
    ensures unended { IfNone result (number < recovery_reads) }
    ensures end { IfSome result (EndsRecovery lanes) }
{
    if status.cr_done(lanes) {
        Some(PhaseEnd::Done {
            drive: level.drive,
            last: status,
        })
    } else if at_full_swing(lanes, level.drive) {
        Some(PhaseEnd::Failed {
            last: status,
            cause: FailCause::MaxSwing,
        })
    } else if level.alike >= ALIKE {
        Some(PhaseEnd::Failed {
            last: status,
            cause: FailCause::SameSwing,
        })
    } else if number == READS {
        Some(PhaseEnd::Failed {
            last: status,
            cause: FailCause::Reads,
        })
    } else {
        None
    }
}

/// The drive that the status asks for, and whether it goes on with the same swings.
pub fn next_level(lanes: Lanes, status: Status6, level: Level) -> Level
    requires { level.alike < 255 }
    ensures drive { result.drive.registers ≡ status_level lanes status.bytes }
    ensures alike { result.alike ≡ (if same_swings lanes level.drive.registers (status_level lanes status.bytes)
        then level.alike + 1
        else 1) }
{
    let drive = status.level(lanes);
    let alike = if same_swings(lanes, level.drive, drive) {
        level.alike + 1
    } else {
        1
    };
    Level { drive, alike }
}
