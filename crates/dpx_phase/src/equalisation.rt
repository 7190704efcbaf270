ghost use Rattle.std.specs.Prelude.{◌≡◌, ◌+◌, ◌*◌, ◌<◌, ◌≤◌, ◌≢◌, IfOk, IfSome, IfNone};
ghost use Rattle.dpx_base.specs.Asks.{CanAsk, AsksAtMost};
ghost use Rattle.dpx_aux.specs.Conversation.{Converses};
ghost use Rattle.dpx_aux.specs.Asking.{asks_at_most};
ghost use Rattle.dpx_dpcd.specs.declared.pattern.Pattern.{Pattern};
ghost use Rattle.dpx_dpcd.specs.Status.{cr_done, eq_done};
ghost use Rattle.dpx_phase.specs.Endings.{equalisation_reads, equalisation_end};
ghost use Rattle.dpx_phase.specs.Phase.{Runs, Follows, rounds_transactions};
ghost use Rattle.dpx_phase.specs.Equalisation.{Equalisation, equalisation, pause_of, equalisation_asks};
ghost use Rattle.dpx_phase.specs.Equalisation.{EndsEqualisation};

use crate::steps::{read_later, write_drive, write_start};
use crate::{FailCause, PhaseEnd};
use dpx_aux::AuxEnd;
use dpx_base::{AuxPort, Lanes, Link};
use dpx_dpcd::{Drive, Pattern, Status6};

/// How many statuses are read at most: this project's own number.
const READS: u8 = 5;

/// Channel equalisation: the pattern with the drive that recovery ended with, and then the drives that the
/// sink asks for. `interval` is the read interval of the capabilities.
#[tactic(auto, unfolding(crate::specs::Equalisation::Equalisation))]
pub fn equalise<P: AuxPort>(
    port: &mut P,
    link: Link,
    pattern: Pattern,
    drive: Drive,
    interval: u8,
) -> PhaseEnd
    requires later { pattern ≢ Pattern.Tps1 }
    requires interval { interval ≤ 127 }
    requires countable { CanAsk equalisation_asks (P.state port.old) }
    ensures phase { Converses (Equalisation link pattern drive interval)
        (P.state port.old) (P.state port.new) result }
    ensures few { AsksAtMost equalisation_asks (P.state port.old) (P.state port.new) }
    ensures end { EndsEqualisation link.lanes result }
{
    match start(port, link.lanes, pattern, drive, pause_of(interval)) {
        Ok(end) => end,
        Err(why) => PhaseEnd::Aux(why),
    }
}

/// The microseconds before each read of equalisation: this project's own rule for an interval above 4.
pub fn pause_of(interval: u8) -> u32
    ensures { result ≡ pause_of interval }
{
    if interval == 0 {
        400
    } else {
        4000 * u32::from(interval.min(4))
    }
}

fn start<P: AuxPort>(
    port: &mut P,
    lanes: Lanes,
    pattern: Pattern,
    drive: Drive,
    pause: u32,
) -> Result<PhaseEnd, AuxEnd>
    requires { CanAsk equalisation_asks (P.state port.old) }
    ensures runs { Converses (Runs (equalisation lanes drive.registers pause) pattern drive.registers)
        (P.state port.old) (P.state port.new) result }
    ensures few { AsksAtMost equalisation_asks (P.state port.old) (P.state port.new) }
    ensures end { IfOk result (EndsEqualisation lanes) }
{
    write_start(port, lanes, pattern, drive)?;
    adjust(port, lanes, drive, pause)
}

/// Reads statuses, and writes the drives that they ask for, until one ends the phase.
fn adjust<P: AuxPort>(
    port: &mut P,
    lanes: Lanes,
    first: Drive,
    pause: u32,
) -> Result<PhaseEnd, AuxEnd>
    requires { CanAsk (asks_at_most * rounds_transactions equalisation_reads) (P.state port.old) }
    ensures follows { Converses (Follows (equalisation lanes first.registers pause))
        (P.state port.old) (P.state port.new) result }
    ensures few { AsksAtMost (asks_at_most * rounds_transactions equalisation_reads)
        (P.state port.old) (P.state port.new) }
    ensures end { IfOk result (EndsEqualisation lanes) }
{
    let mut drive = first;
    for number in 1..READS + 1 {
        let status = read_later(port, pause)?;
        match equalisation_end(lanes, status, drive, number) {
            Some(end) => return Ok(end),
            None => {}
        }
        drive = status.level(lanes);
        write_drive(port, lanes, drive)?;
    }
    // The fifth status always ends the phase.
    unreachable!()
}

/// How equalisation ends at the status of this number, counted from 1, if it ends there.
pub fn equalisation_end(lanes: Lanes, status: Status6, drive: Drive, number: u8) -> Option<PhaseEnd>
    requires { number ≤ equalisation_reads }
    ensures value { result ≡ equalisation_end lanes number drive.registers status }
    ensures unended { IfNone result (number < equalisation_reads) }
    ensures end { IfSome result (EndsEqualisation lanes) }
{
    if !status.cr_done(lanes) {
        Some(PhaseEnd::Lost { last: status })
    } else if status.eq_done(lanes) {
        Some(PhaseEnd::Done {
            drive,
            last: status,
        })
    } else if number == READS {
        Some(PhaseEnd::Failed {
            last: status,
            cause: FailCause::Reads,
        })
    } else {
        None
    }
}
