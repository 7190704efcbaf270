use dpx_base::{Depth, Lanes, Link, Mode, Rate, RawMode};
use dpx_msa::{Attributes, MsaBad, attributes_bytes, column_symbol, read_attributes, vb_id};
use std::process::Abort;

/// 16 × 2 pixels of 8 bits at 54 MHz over RBR.
const SPELLED: [u8; 36] = [
    0x00, 0xd2, 0xf0, 0x00, 0x1c, 0x00, 0x04, 0x00, 0x04, 0x00, 0xd2, 0xf0, 0x00, 0x08, 0x00, 0x02,
    0x00, 0x01, 0x00, 0xd2, 0xf0, 0x00, 0x10, 0x00, 0x02, 0x00, 0x00, 0x00, 0xd2, 0xf0, 0x02, 0x78,
    0xd0, 0x21, 0x00, 0x00,
];

const READ: Attributes = Attributes {
    mvid: 54_000,
    nvid: 162_000,
    htotal: 28,
    vtotal: 4,
    hstart: 8,
    vstart: 2,
    hsw: 4,
    vsw: 1,
    hsp: false,
    vsp: false,
    width: 16,
    height: 2,
    depth: Depth::Eight,
    misc0: 0x21,
};

const RAW: RawMode = RawMode {
    width: 16,
    height: 2,
    htotal: 28,
    vtotal: 4,
    hsw: 4,
    hstart: 8,
    vsw: 1,
    vstart: 2,
    hsp: false,
    vsp: false,
    clock_khz: 54_000,
    depth: Depth::Eight,
};

/// The mode is spelled so over RBR.
fn is_spelled(rt: &impl Abort, raw: &RawMode, bytes: [u8; 36]) {
    let link = Link {
        rate: Rate::Rbr,
        lanes: Lanes::Two,
        enhanced: true,
    };
    match Mode::read(raw) {
        Ok(mode) => assert_eq!(rt; attributes_bytes(&mode, link), bytes),
        Err(field) => assert!(rt; false, "{field:?} is wrong"),
    }
}

#[test]
fn attributes_are_four_columns(rt: HostRuntime) {
    is_spelled(&rt, &RAW, SPELLED);
    let mut raw = RAW;
    raw.hsp = true;
    raw.depth = Depth::Twelve;
    let mut bytes = SPELLED;
    bytes[7] = 0x80;
    bytes[33] = 0x61;
    is_spelled(&rt, &raw, bytes);
}

#[test]
fn attributes_are_read(rt: HostRuntime) {
    assert_eq!(rt; read_attributes(&SPELLED), Ok(READ));
    let mut bytes = SPELLED;
    bytes[16] = 0xff;
    bytes[33] = 0x98;
    assert_eq!(rt;
        read_attributes(&bytes),
        Ok(Attributes {
            vsw: 0x7f01,
            vsp: true,
            depth: Depth::Sixteen,
            misc0: 0x98,
            ..READ
        })
    );
}

/// Bytes of the columns, with what each makes of them: places, values, and the refusal.
const REFUSALS: [(usize, u8, MsaBad); 8] = [
    (33, 0x23, MsaBad::Colour(0x23)),
    (33, 0xa1, MsaBad::DepthCode(0xa1)),
    (34, 0x01, MsaBad::Misc1(1)),
    (22, 0x0f, MsaBad::Width(15)),
    (21, 0x20, MsaBad::Width(8208)),
    (24, 0x00, MsaBad::Height(0)),
    (23, 0x20, MsaBad::Height(8194)),
    (33, 0xe5, MsaBad::Colour(0xe5)),
];

#[test]
fn each_refusal_names_its_value(rt: HostRuntime) {
    for (place, value, why) in REFUSALS {
        let mut bytes = SPELLED;
        bytes[place] = value;
        assert_eq!(rt; read_attributes(&bytes), Err(why), "{place} {value:02X}");
    }
    let mut bytes = SPELLED;
    for place in 30..33 {
        bytes[place] = 0;
    }
    assert_eq!(rt; read_attributes(&bytes), Err(MsaBad::NvidZero));
}

/// Faults are mended one after the other, and each time the next is named.
#[test]
fn first_refusal_is_named(rt: HostRuntime) {
    let mut bytes = [0xff; 36];
    for place in 30..33 {
        bytes[place] = 0;
    }
    let mends = [
        (33, 0xf9, MsaBad::Colour(0xff)),
        (33, 0x41, MsaBad::DepthCode(0xf9)),
        (34, 0x00, MsaBad::Misc1(0xff)),
        (21, 0x01, MsaBad::Width(0xffff)),
        (23, 0x02, MsaBad::Height(0xffff)),
        (32, 0x01, MsaBad::NvidZero),
    ];
    for (place, value, why) in mends {
        assert_eq!(rt; read_attributes(&bytes), Err(why), "{place}");
        bytes[place] = value;
    }
    assert!(rt; read_attributes(&bytes).is_ok());
}

/// Puts one of the six faults into the columns. They are numbered in the order in which they are named.
fn spoil(bytes: &mut [u8; 36], fault: u8) {
    match fault {
        0 => bytes[33] |= 0x02,
        1 => bytes[33] |= 0xa0,
        2 => bytes[34] |= 0x01,
        3 => bytes[21] |= 0x40,
        4 => bytes[23] |= 0x40,
        _ => {
            bytes[30] = 0;
            bytes[31] = 0;
            bytes[32] = 0;
        }
    }
}

/// With these faults put in, this refusal is named.
fn is_refused(rt: &impl Abort, faults: &[u8], why: MsaBad) {
    let mut bytes = SPELLED;
    for fault in faults {
        spoil(&mut bytes, *fault);
    }
    assert_eq!(rt; read_attributes(&bytes), Err(why), "{faults:?}");
}

/// Each fault by itself, and each pair of faults, with what is named of them.
const FAULTS: [(&[u8], MsaBad); 21] = [
    (&[0], MsaBad::Colour(0x23)),
    (&[1], MsaBad::DepthCode(0xa1)),
    (&[2], MsaBad::Misc1(0x01)),
    (&[3], MsaBad::Width(0x4010)),
    (&[4], MsaBad::Height(0x4002)),
    (&[5], MsaBad::NvidZero),
    (&[0, 1], MsaBad::Colour(0xa3)),
    (&[0, 2], MsaBad::Colour(0x23)),
    (&[0, 3], MsaBad::Colour(0x23)),
    (&[0, 4], MsaBad::Colour(0x23)),
    (&[0, 5], MsaBad::Colour(0x23)),
    (&[1, 2], MsaBad::DepthCode(0xa1)),
    (&[1, 3], MsaBad::DepthCode(0xa1)),
    (&[1, 4], MsaBad::DepthCode(0xa1)),
    (&[1, 5], MsaBad::DepthCode(0xa1)),
    (&[2, 3], MsaBad::Misc1(0x01)),
    (&[2, 4], MsaBad::Misc1(0x01)),
    (&[2, 5], MsaBad::Misc1(0x01)),
    (&[3, 4], MsaBad::Width(0x4010)),
    (&[3, 5], MsaBad::Width(0x4010)),
    (&[4, 5], MsaBad::Height(0x4002)),
];

#[test]
fn of_two_faults_the_earlier_is_named(rt: HostRuntime) {
    for (faults, why) in FAULTS {
        is_refused(&rt, faults, why);
    }
}

#[test]
fn sizes_are_read_at_their_edges(rt: HostRuntime) {
    for (place, value) in [(22, 16), (21, 0x20), (24, 1), (23, 0x20)] {
        let mut bytes = SPELLED;
        bytes[place + 1 - place % 2] = 0;
        bytes[place] = value;
        if value == 0x20 {
            bytes[place + 1] = 0;
        }
        assert!(rt; read_attributes(&bytes).is_ok(), "{place} {value}");
    }
}

#[test]
fn lanes_carry_their_columns_in_turn(rt: HostRuntime) {
    let cases = [
        (0, Lanes::Two, 0, 0),
        (0, Lanes::Two, 8, 8),
        (0, Lanes::Two, 9, 18),
        (1, Lanes::Two, 0, 9),
        (1, Lanes::Two, 17, 35),
        (3, Lanes::Four, 8, 35),
        (0, Lanes::One, 35, 35),
    ];
    for (lane, lanes, index, place) in cases {
        assert!(rt; lane < lanes.count() && index < 36 / lanes.count());
        assert_eq!(rt;
            column_symbol(lane, lanes, index),
            place,
            "lane {lane} index {index}"
        );
    }
    assert_eq!(rt; (vb_id(true), vb_id(false)), (0x11, 0x10));
}
