ghost use Rattle.std.specs.Prelude.{◌+◌, ◌^◌, ◌≤◌, length};
ghost use Rattle.dpx_base.specs.Asks.{CanAsk, AsksAtMost};
ghost use Rattle.dpx_aux.specs.Conversation.{Converses};
ghost use Rattle.dpx_aux.specs.Asking.{asks_at_most};
ghost use Rattle.dpx_dpcd.specs.Registers.{ReadsBlock, ReadsStatus, Writes};

use crate::Status6;
use crate::register_map::LANE0_1_STATUS;
use dpx_aux::{AuxEnd, Data16, Request, transact};
use dpx_base::AuxPort;

/// Writes 1 to 16 registers from `address` on, in one transaction, which asks at most eight times.
pub fn write_registers<P: AuxPort>(port: &mut P, address: u32, bytes: &[u8]) -> Result<(), AuxEnd>
    requires some { 1 ≤ length bytes.now }
    requires few { length bytes.now ≤ 16 }
    requires within { address + length bytes.now ≤ 2 ^ 20 }
    requires countable { CanAsk asks_at_most (P.state port.old) }
    ensures writes { Converses (Writes address bytes.now) (P.state port.old) (P.state port.new) result }
    ensures few { AsksAtMost asks_at_most (P.state port.old) (P.state port.new) }
{
    transact(
        port,
        &Request::Write {
            address,
            bytes: Data16::from_slice(bytes),
        },
    )?;
    Ok(())
}

/// Reads the sixteen registers from `address` on, in one transaction, which asks at most eight times.
pub fn read_block<P: AuxPort>(port: &mut P, address: u32) -> Result<[u8; 16], AuxEnd>
    requires within { address + 16 ≤ 2 ^ 20 }
    requires countable { CanAsk asks_at_most (P.state port.old) }
    ensures reads { Converses (ReadsBlock address) (P.state port.old) (P.state port.new) result }
    ensures few { AsksAtMost asks_at_most (P.state port.old) (P.state port.new) }
{
    let block = transact(
        port,
        &Request::Read {
            address,
            length: 16,
        },
    )?;
    let mut bytes = [0; 16];
    bytes.copy_from_slice(block.as_slice());
    Ok(bytes)
}

/// Reads the status, registers 00202 to 00207, in one transaction, which asks at most eight times.
pub fn read_status<P: AuxPort>(port: &mut P) -> Result<Status6, AuxEnd>
    requires { CanAsk asks_at_most (P.state port.old) }
    ensures reads { Converses ReadsStatus (P.state port.old) (P.state port.new) result }
    ensures few { AsksAtMost asks_at_most (P.state port.old) (P.state port.new) }
{
    let status = transact(
        port,
        &Request::Read {
            address: LANE0_1_STATUS,
            length: 6,
        },
    )?;
    let mut bytes = [0; 6];
    bytes.copy_from_slice(status.as_slice());
    Ok(Status6 { bytes })
}
