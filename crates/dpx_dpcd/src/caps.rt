ghost use Rattle.std.specs.Prelude.{◌≡◌, ◌≤◌, IfOk};
ghost use Rattle.dpx_dpcd.specs.Caps.{caps_read, caps_start, caps_pattern, has_extended};

use crate::Pattern;
use dpx_base::{Lanes, Link, Rate};

/// What a sink can do, read from a block of sixteen capability registers (VESA DisplayPort 1.4a, DPCD
/// 00000 to 0000F).
#[derive(Clone, Copy, Debug, PartialEq, Eq)]
pub struct Caps {
    /// The greatest rate whose code is not above byte 1.
    pub rate: Rate,
    /// Bits 4:0 of byte 2.
    pub lanes: Lanes,
    /// The sink knows enhanced framing: bit 7 of byte 2.
    pub enhanced: bool,
    /// The sink knows the pattern TPS3: bit 6 of byte 2.
    pub tps3: bool,
    /// The sink knows the pattern TPS4: bit 7 of byte 3.
    pub tps4: bool,
    /// How long to wait before a status of equalisation is read, bits 6:0 of byte 0E: so many times 4
    /// ms, or 0 for the least wait; at most 127.
    pub interval: u8,
}

/// Why a block of capabilities is refused, with the byte that is at fault.
#[derive(Clone, Copy, Debug, PartialEq, Eq)]
pub enum CapsBad {
    /// Bits 4:0 of byte 2 are not 1, 2 or 4.
    BadLanes(u8),
    /// Byte 1 is below the code of RBR.
    BadRate(u8),
}

/// Whether the block says that the extended field at 02200 is there: bit 7 of byte 0E.
pub fn has_extended(bytes: &[u8; 16]) -> bool
    ensures { result ≡ has_extended bytes.now }
{
    bytes[0x0e] >= 0x80
}

impl Caps {
    /// Reads a block. The first refusal in the order of `CapsBad` is given, which is this project's own
    /// order.
    pub fn read(bytes: &[u8; 16]) -> Result<Caps, CapsBad>
        ensures value { result ≡ caps_read bytes.now }
        ensures interval { IfOk result (λ caps. caps.interval ≤ 127) }
    {
        let Some(lanes) = Lanes::from_count(bytes[2] % 0x20) else {
            return Err(CapsBad::BadLanes(bytes[2]));
        };
        let Some(rate) = Rate::from_code(bytes[1]) else {
            return Err(CapsBad::BadRate(bytes[1]));
        };
        Ok(Caps {
            rate,
            lanes,
            enhanced: bytes[2] >= 0x80,
            tps3: bytes[2] / 0x40 % 2 == 1,
            tps4: bytes[3] >= 0x80,
            interval: bytes[0x0e] % 0x80,
        })
    }

    /// The first configuration of a training: the lower rate and the fewer lanes of this sink and of `top`,
    /// and enhanced framing where both have it.
    pub fn start(&self, top: Link) -> Link
        ensures { result ≡ caps_start self.now top }
    {
        Link {
            rate: if self.rate.code() < top.rate.code() {
                self.rate
            } else {
                top.rate
            },
            lanes: if self.lanes.count() < top.lanes.count() {
                self.lanes
            } else {
                top.lanes
            },
            enhanced: self.enhanced && top.enhanced,
        }
    }

    /// The pattern for equalisation: the highest one that the sink knows, which is this project's own
    /// choice.
    pub fn pattern(&self) -> Pattern
        ensures { result ≡ caps_pattern self.now }
    {
        if self.tps4 {
            Pattern::Tps4
        } else if self.tps3 {
            Pattern::Tps3
        } else {
            Pattern::Tps2
        }
    }
}
