ghost use Rattle.dpx_base.specs.Asks.{CanAsk, AsksAtMost};
ghost use Rattle.dpx_aux.specs.Conversation.{Converses};
ghost use Rattle.dpx_aux.specs.Asking.{asks_at_most};
ghost use Rattle.dpx_phase.specs.Phase.{Starts, Adjusts, ReadsLater};

use dpx_aux::AuxEnd;
use dpx_base::{AuxPort, Lanes};
use dpx_dpcd::register_map::{TRAINING_LANE0_SET, TRAINING_PATTERN_SET};
use dpx_dpcd::{Drive, Pattern, Status6, read_status, write_registers};

/// Selects a pattern, with the drive of the lanes in use.
pub(crate) fn write_start<P: AuxPort>(
    port: &mut P,
    lanes: Lanes,
    pattern: Pattern,
    drive: Drive,
) -> Result<(), AuxEnd>
    requires { CanAsk asks_at_most (P.state port.old) }
    ensures starts { Converses (Starts lanes pattern drive.registers)
        (P.state port.old) (P.state port.new) result }
    ensures few { AsksAtMost asks_at_most (P.state port.old) (P.state port.new) }
{
    let [lane_0, lane_1, lane_2, lane_3] = drive.registers;
    let bytes = [pattern.register(), lane_0, lane_1, lane_2, lane_3];
    write_registers(
        port,
        TRAINING_PATTERN_SET,
        &bytes[..1 + usize::from(lanes.count())],
    )
}

/// Writes the drive of the lanes in use.
pub(crate) fn write_drive<P: AuxPort>(
    port: &mut P,
    lanes: Lanes,
    drive: Drive,
) -> Result<(), AuxEnd>
    requires { CanAsk asks_at_most (P.state port.old) }
    ensures writes { Converses (Adjusts lanes drive.registers)
        (P.state port.old) (P.state port.new) result }
    ensures few { AsksAtMost asks_at_most (P.state port.old) (P.state port.new) }
{
    write_registers(
        port,
        TRAINING_LANE0_SET,
        &drive.registers[..usize::from(lanes.count())],
    )
}

/// Waits for so many microseconds, and reads the status.
pub(crate) fn read_later<P: AuxPort>(port: &mut P, micros: u32) -> Result<Status6, AuxEnd>
    requires { CanAsk asks_at_most (P.state port.old) }
    ensures reads { Converses (ReadsLater micros) (P.state port.old) (P.state port.new) result }
    ensures few { AsksAtMost asks_at_most (P.state port.old) (P.state port.new) }
{
    port.wait(micros);
    read_status(port)
}
