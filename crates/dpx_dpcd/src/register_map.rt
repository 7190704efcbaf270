//! The registers of a sink, by the standard's names (VESA DisplayPort 1.4a, DPCD).

/// The first of sixteen receiver capabilities.
pub const DPCD_REV: u32 = 0x0_0000;

/// The last of them.
pub const CAPS_END: u32 = 0x0_000f;

/// The rate of the link, as a code.
pub const LINK_BW_SET: u32 = 0x0_0100;

/// The pattern that is sent.
pub const TRAINING_PATTERN_SET: u32 = 0x0_0102;

/// The drive of lane 0; those of the other lanes follow.
pub const TRAINING_LANE0_SET: u32 = 0x0_0103;

pub const DOWNSPREAD_CTRL: u32 = 0x0_0107;

/// The last of the link's registers.
pub const MAIN_LINK_CHANNEL_CODING_SET: u32 = 0x0_0108;

/// The first of six registers of the status.
pub const LANE0_1_STATUS: u32 = 0x0_0202;

pub const LANE2_3_STATUS: u32 = 0x0_0203;

pub const LANE_ALIGN_STATUS_UPDATED: u32 = 0x0_0204;

/// The drive that lanes 0 and 1 ask for.
pub const ADJUST_REQUEST_LANE0_1: u32 = 0x0_0206;

/// The last register of the status.
pub const ADJUST_REQUEST_LANE2_3: u32 = 0x0_0207;

pub const SET_POWER: u32 = 0x0_0600;

/// The first of sixteen registers of the extended capabilities.
pub const DP13_DPCD_REV: u32 = 0x0_2200;

/// The last of them.
pub const EXTENDED_CAPS_END: u32 = 0x0_220f;
