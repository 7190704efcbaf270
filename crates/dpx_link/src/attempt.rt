ghost use Rattle.std.specs.Prelude.{◌≡◌, ◌+◌, ◌*◌, ◌≤◌, IfOk};
ghost use Rattle.dpx_base.specs.Asks.{CanAsk, AsksAtMost};
ghost use Rattle.dpx_aux.specs.Conversation.{Converses};
ghost use Rattle.dpx_aux.specs.Asking.{asks_at_most};
ghost use Rattle.dpx_phase.specs.Recovery.{recovery_asks};
ghost use Rattle.dpx_phase.specs.Equalisation.{equalisation_asks};
ghost use Rattle.dpx_link.specs.Attempt.{Attempt, Configures, PhasesInTurn, AttemptIsDone, lanes_byte, equalised};
ghost use Rattle.dpx_link.specs.Attempt.{attempt_transactions};

use dpx_aux::AuxEnd;
use dpx_base::{AuxPort, Link};
use dpx_dpcd::register_map::{DOWNSPREAD_CTRL, LINK_BW_SET};
use dpx_dpcd::{Caps, Drive, Status6, write_registers};
use dpx_phase::{PhaseEnd, equalise, recover};

/// How an attempt ended. `last` is the last status that was read.
#[derive(Clone, Copy, Debug, PartialEq, Eq)]
pub enum AttemptEnd {
    /// Equalised with this drive.
    Done { drive: Drive, last: Status6 },
    /// Clock recovery failed, or was lost in equalisation.
    Unrecovered { last: Status6 },
    /// Equalisation failed.
    Unequalised { last: Status6 },
}

/// One attempt to train `link`.
#[tactic(auto, unfolding(crate::specs::Attempt::Attempt))]
pub(crate) fn attempt<P: AuxPort>(
    port: &mut P,
    caps: &Caps,
    link: Link,
) -> Result<AttemptEnd, AuxEnd>
    requires interval { caps.now.interval ≤ 127 }
    requires countable { CanAsk (asks_at_most * attempt_transactions) (P.state port.old) }
    ensures attempt { Converses (Attempt caps.now link) (P.state port.old) (P.state port.new) result }
    ensures few { AsksAtMost (asks_at_most * attempt_transactions) (P.state port.old) (P.state port.new) }
    ensures good { IfOk result (AttemptIsDone link.lanes) }
{
    configure(port, link)?;
    phases(port, caps, link)
}

/// Tells the sink the rate, the lanes and the coding.
#[tactic(auto, unfolding(crate::specs::Attempt::Configures))]
fn configure<P: AuxPort>(port: &mut P, link: Link) -> Result<(), AuxEnd>
    requires { CanAsk (asks_at_most * 2) (P.state port.old) }
    ensures configures { Converses (Configures link) (P.state port.old) (P.state port.new) result }
    ensures few { AsksAtMost (asks_at_most * 2) (P.state port.old) (P.state port.new) }
{
    let configuration = [link.rate.code(), lanes_byte(link)];
    write_registers(port, LINK_BW_SET, &configuration)?;
    write_registers(port, DOWNSPREAD_CTRL, &[0x00, 0x01])
}

/// The byte of register 00101: the lanes, and bit 7 for enhanced framing.
pub fn lanes_byte(link: Link) -> u8
    ensures { result ≡ lanes_byte link }
{
    let framing = if link.enhanced { 0x80 } else { 0x00 };
    link.lanes.count() + framing
}

/// Clock recovery, and where that was done equalisation.
fn phases<P: AuxPort>(port: &mut P, caps: &Caps, link: Link) -> Result<AttemptEnd, AuxEnd>
    requires interval { caps.now.interval ≤ 127 }
    requires countable { CanAsk (recovery_asks + equalisation_asks) (P.state port.old) }
    ensures phases { Converses (PhasesInTurn caps.now link) (P.state port.old) (P.state port.new) result }
    ensures few { AsksAtMost (recovery_asks + equalisation_asks) (P.state port.old) (P.state port.new) }
    ensures good { IfOk result (AttemptIsDone link.lanes) }
{
    match recover(port, link) {
        PhaseEnd::Done { drive, .. } => {
            equalised(equalise(port, link, caps.pattern(), drive, caps.interval))
        }
        PhaseEnd::Failed { last, .. } | PhaseEnd::Lost { last } => {
            Ok(AttemptEnd::Unrecovered { last })
        }
        PhaseEnd::Aux(why) => Err(why),
    }
}

/// What an end of equalisation means for the attempt.
pub fn equalised(end: PhaseEnd) -> Result<AttemptEnd, AuxEnd>
    ensures { result ≡ equalised end }
{
    match end {
        PhaseEnd::Done { drive, last } => Ok(AttemptEnd::Done { drive, last }),
        PhaseEnd::Failed { last, .. } => Ok(AttemptEnd::Unequalised { last }),
        PhaseEnd::Lost { last } => Ok(AttemptEnd::Unrecovered { last }),
        PhaseEnd::Aux(why) => Err(why),
    }
}
