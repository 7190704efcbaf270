ghost use Rattle.std.specs.Prelude.{◌≡◌, ◌+◌, ◌^◌, ◌≤◌, length};
ghost use Rattle.dpx_judge.specs.Machine.{awaits, phase_awaits, write, read, IsAskable};

use crate::step::{Act, Step};
use dpx_aux::{Data16, Request};
use dpx_base::Lanes;
use dpx_dpcd::register_map::{
    DOWNSPREAD_CTRL, DP13_DPCD_REV, DPCD_REV, LANE0_1_STATUS, LINK_BW_SET, SET_POWER,
    TRAINING_LANE0_SET, TRAINING_PATTERN_SET,
};
use dpx_dpcd::{Drive, Pattern};
use dpx_link::lanes_byte;
use dpx_phase::{RECOVERY_PAUSE, pause_of};

/// What a training does at a step.
#[derive(Drop)]
pub(crate) enum Awaited {
    /// It waits for so many microseconds.
    Wait(u32),
    Ask(Request),
}

/// What a training does at this step.
pub(crate) fn awaits(step: &Step) -> Awaited
    ensures value { result ≡ awaits step.now }
    ensures askable { IsAskable result }
{
    match step {
        Step::BaseBlock => read(DPCD_REV, 16),
        Step::ExtendedField => read(DP13_DPCD_REV, 16),
        Step::Power(_) => write(SET_POWER, &[0x01]),
        Step::Configuration(attempt) => {
            let link = attempt.link;
            write(LINK_BW_SET, &[link.rate.code(), lanes_byte(link)])
        }
        Step::Coding(_) => write(DOWNSPREAD_CTRL, &[0x00, 0x01]),
        Step::Recovery {
            attempt,
            act,
            level,
            ..
        } => phase_awaits(
            *act,
            attempt.link.lanes,
            Pattern::Tps1,
            level.drive,
            RECOVERY_PAUSE,
        ),
        Step::Equalisation {
            attempt,
            act,
            drive,
            ..
        } => {
            let pause = pause_of(attempt.caps.interval);
            phase_awaits(
                *act,
                attempt.link.lanes,
                attempt.caps.pattern(),
                *drive,
                pause,
            )
        }
        Step::Close(_) => write(TRAINING_PATTERN_SET, &[0x00]),
    }
}

fn phase_awaits(act: Act, lanes: Lanes, pattern: Pattern, drive: Drive, pause: u32) -> Awaited
    ensures value { result ≡ phase_awaits act lanes pattern drive.registers pause }
    ensures askable { IsAskable result }
{
    let count = usize::from(lanes.count());
    let [lane_0, lane_1, lane_2, lane_3] = drive.registers;
    match act {
        Act::Start => {
            let bytes = [pattern.register(), lane_0, lane_1, lane_2, lane_3];
            write(TRAINING_PATTERN_SET, &bytes[..1 + count])
        }
        Act::Wait => Awaited::Wait(pause),
        Act::Read => read(LANE0_1_STATUS, 6),
        Act::Adjust => write(TRAINING_LANE0_SET, &drive.registers[..count]),
    }
}

fn read(address: u32, length: u8) -> Awaited
    requires some { 1 ≤ length }
    requires few { length ≤ 16 }
    requires within { address + length ≤ 2 ^ 20 }
    ensures value { result ≡ read address length }
    ensures askable { IsAskable result }
{
    Awaited::Ask(Request::Read { address, length })
}

fn write(address: u32, bytes: &[u8]) -> Awaited
    requires some { 1 ≤ length bytes.now }
    requires few { length bytes.now ≤ 16 }
    requires within { address + length bytes.now ≤ 2 ^ 20 }
    ensures value { result ≡ write address bytes.now }
    ensures askable { IsAskable result }
{
    Awaited::Ask(Request::Write {
        address,
        bytes: Data16::from_slice(bytes),
    })
}
