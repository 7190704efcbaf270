//! Laws of the definitions that the phases are proved against. Each function's contract is the law.
ghost use Rattle.dpx_aux.specs.Conversation.{AlwaysIs, IsDecided, ResultsAre, Suffices};
ghost use Rattle.dpx_phase.specs.Endings.{recovery_ends, equalisation_ends};
ghost use Rattle.dpx_phase.specs.LastStatus.{EndIsRead};
ghost use Rattle.dpx_phase.specs.Laws.{EndsOnce, EndsWithin};
ghost use Rattle.dpx_phase.specs.Equalisation.{Equalisation, EndsEqualisation, equalisation_asks};
ghost use Rattle.dpx_phase.specs.Recovery.{Recovery, EndsRecovery, recovery_asks};

use dpx_base::{Lanes, Link};
use dpx_dpcd::{Drive, Pattern};

/// A list of statuses that ends a phase has no shorter beginning that ends it.
pub fn ends_once(lanes: Lanes, drive: Drive)
    ensures recovery { EndsOnce (recovery_ends lanes) }
    ensures equalisation { EndsOnce (equalisation_ends lanes drive.registers) }
{}

/// Of ten statuses some beginning ends recovery, of five some beginning ends equalisation.
pub fn ends_in_time(lanes: Lanes, drive: Drive)
    ensures recovery { EndsWithin 10 (recovery_ends lanes) }
    ensures equalisation { EndsWithin 5 (equalisation_ends lanes drive.registers) }
{}

/// For given answers each phase has one history, and one end.
pub fn is_decided(link: Link, pattern: Pattern, drive: Drive, interval: u8)
    ensures recovery { IsDecided (Recovery link) }
    ensures equalisation { IsDecided (Equalisation link pattern drive interval) }
{}

/// Whatever so many answers are, some front of them is the answers of the phase.
pub fn is_answered(link: Link, pattern: Pattern, drive: Drive, interval: u8)
    ensures recovery { Suffices recovery_asks (Recovery link) }
    ensures equalisation { Suffices equalisation_asks (Equalisation link pattern drive interval) }
{}

/// Whatever the history, the end says of the last status what the conditions looked at.
pub fn is_honest(link: Link, pattern: Pattern, drive: Drive, interval: u8)
    ensures recovery { ResultsAre (Recovery link) (EndsRecovery link.lanes) }
    ensures equalisation { ResultsAre (Equalisation link pattern drive interval) (EndsEqualisation link.lanes) }
{}

/// Whatever the history, the status that an end tells is the last one that was read; and the drive that Done tells is
/// the last one that was written, right before that read.
pub fn is_read_last(link: Link, pattern: Pattern, drive: Drive, interval: u8)
    ensures recovery { AlwaysIs (Recovery link) (EndIsRead link.lanes) }
    ensures equalisation { AlwaysIs (Equalisation link pattern drive interval) (EndIsRead link.lanes) }
{}
