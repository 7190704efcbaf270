ghost use Rattle.std.specs.Prelude.{◌≡◌, ◌+◌, ◌<◌, ◌≤◌};
ghost use Rattle.dpx_base.specs.Lanes.{lanes_count, every_lane};
ghost use Rattle.dpx_dpcd.specs.Status.{nibble, cr_done, eq_done, status_level, lane_level, register_byte, has_bits};

use dpx_base::Lanes;

/// Registers 00103 to 00106, the drive of the lanes, a byte a lane: swing in bits 1:0, its maximum
/// reached in bit 2, pre-emphasis in bits 4:3, its maximum reached in bit 5. A lane that is not in use
/// has 00.
#[derive(Clone, Copy, Debug, PartialEq, Eq)]
pub struct Drive {
    pub registers: [u8; 4],
}

/// Registers 00202 to 00207: the status of the lanes, their alignment, and what drive they ask for.
#[derive(Clone, Copy, Debug, PartialEq, Eq)]
pub struct Status6 {
    pub bytes: [u8; 6],
}

/// Clock recovery: bit 0 of a lane's status.
const CR: u8 = 1;

/// Clock recovery, equalisation and symbol lock: bits 0 to 2 of a lane's status.
const CR_EQ_LOCK: u8 = 7;

impl Status6 {
    /// Whether every lane in use has recovered its clock (VESA DisplayPort 1.4a, LANE0_1_STATUS and
    /// LANE2_3_STATUS).
    #[tactic(auto, unfolding(crate::specs::Status::cr_done))]
    pub fn cr_done(&self, lanes: Lanes) -> bool
        ensures { result ≡ cr_done lanes self.now.bytes }
    {
        self.every_lane_has(lanes, CR)
    }

    /// Whether every lane in use has recovered its clock, is equalised and locked to its symbols, and
    /// the lanes are aligned (bit 0 of register 00204).
    #[tactic(auto, unfolding(crate::specs::Status::eq_done))]
    pub fn eq_done(&self, lanes: Lanes) -> bool
        ensures { result ≡ eq_done lanes self.now.bytes }
    {
        self.every_lane_has(lanes, CR_EQ_LOCK) && self.bytes[2] % 2 == 1
    }

    /// The drive that the lanes in use ask for in registers 00206 and 00207. That swing goes before
    /// pre-emphasis, where they exceed 3 in sum, is this project's own choice.
    #[tactic(auto, unfolding(crate::specs::Status::status_level))]
    pub fn level(&self, lanes: Lanes) -> Drive
        ensures { result.registers ≡ status_level lanes self.now.bytes }
    {
        Drive {
            registers: [
                self.lane_level(lanes, 0),
                self.lane_level(lanes, 1),
                self.lane_level(lanes, 2),
                self.lane_level(lanes, 3),
            ],
        }
    }

    fn every_lane_has(&self, lanes: Lanes, bits: u8) -> bool
        requires { bits < 16 }
        ensures { result ≡ every_lane lanes (has_bits bits self.now.bytes) }
    {
        lanes.every_lane(|lane| self.has(lane, bits))
    }

    fn has(&self, lane: u8, bits: u8) -> bool
        requires lane { lane < 4 }
        requires bits { bits < 16 }
        ensures { result ≡ has_bits bits self.now.bytes lane }
    {
        self.nibble(0, lane) % (bits + 1) == bits
    }

    fn lane_level(&self, lanes: Lanes, lane: u8) -> u8
        requires { lane < 4 }
        ensures { result ≡ lane_level lanes self.now.bytes lane }
    {
        if lane < lanes.count() {
            let asked = self.nibble(4, lane);
            register_byte(asked % 4, asked / 4)
        } else {
            0
        }
    }

    /// The four bits of a lane in a pair of bytes: the lower lane has the low nibble.
    fn nibble(&self, pair: usize, lane: u8) -> u8
        requires pair { pair ≤ 4 }
        requires lane { lane < 4 }
        ensures value { result ≡ nibble self.now.bytes pair lane }
        ensures bound { result < 16 }
    {
        let byte = self.bytes[pair + usize::from(lane / 2)];
        if lane % 2 == 0 { byte % 16 } else { byte / 16 }
    }
}

/// The byte for a swing and the emphasis asked for beside it. Swing goes first: they are at most 3 in sum.
fn register_byte(swing: u8, asked: u8) -> u8
    requires { swing < 4 }
    ensures { result ≡ register_byte swing asked }
{
    let emphasis = asked.min(3 - swing);
    let swing_at_most = if swing == 3 { 4 } else { 0 };
    let emphasis_at_most = if emphasis == 3 - swing { 32 } else { 0 };
    swing + 8 * emphasis + swing_at_most + emphasis_at_most
}
