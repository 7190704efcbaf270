//! The first bytes of a capture.

use dpx_base::{Lanes, Link, Rate};
use dpx_files::{header_bytes, read_header};

const TWO_LANES: Link = Link {
    rate: Rate::Rbr,
    lanes: Lanes::Two,
    enhanced: true,
};

const HEADER: [u8; 8] = [0x44, 0x50, 0x58, 0x31, 0x02, 0x06, 0x01, 0x00];

#[test]
fn a_header_tells_the_link(rt: HostRuntime) {
    let plain = Link {
        enhanced: false,
        ..TWO_LANES
    };
    let fastest = Link {
        rate: Rate::Hbr3,
        lanes: Lanes::Four,
        enhanced: true,
    };
    let rows = [
        (TWO_LANES, HEADER),
        (plain, [0x44, 0x50, 0x58, 0x31, 0x02, 0x06, 0x00, 0x00]),
        (fastest, [0x44, 0x50, 0x58, 0x31, 0x04, 0x1e, 0x01, 0x00]),
    ];
    for (link, bytes) in rows {
        assert_eq!(rt; header_bytes(link), bytes);
        assert_eq!(rt; read_header(&bytes), Some(link));
    }
}

/// The bytes that a header can have at each place.
const READ: [&[u8]; 8] = [
    &[0x44],
    &[0x50],
    &[0x58],
    &[0x31],
    &[1, 2, 4],
    &[0x06, 0x0a, 0x14, 0x1e],
    &[0x00, 0x01],
    &[0x00],
];

#[test]
fn every_other_byte_makes_no_header(rt: HostRuntime) {
    for (place, read) in READ.iter().enumerate() {
        for byte in 0..=255u8 {
            let mut bytes = HEADER;
            bytes[place] = byte;
            let given = read_header(&bytes).is_some();
            assert_eq!(rt; given, read.contains(&byte), "{byte} at {place}");
        }
    }
}
