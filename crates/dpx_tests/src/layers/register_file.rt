use dpx_aux::{Reply, read_request};
use dpx_base::Rate;
use dpx_dpcd::{Cell, Channel, RegFile};
use std::process::Abort;

const CAPS: [u8; 16] = [
    0x12, 0x1e, 0xc4, 0x80, 0, 0, 0, 0, 0, 0, 0, 0, 0, 0, 0x80, 0x0f,
];

const EXTENDED: [u8; 16] = [
    0x14, 0x1e, 0xc4, 0x80, 0, 0, 0, 0, 0, 0, 0, 0, 0, 0, 0x81, 0xef,
];

/// The request is acknowledged, and that brings these bytes.
fn brings(rt: &impl Abort, file: &mut RegFile, request: &[u8], bytes: &[u8]) {
    let reply = match read_request(request) {
        Ok(request) => file.answer(&request),
        Err(_) => Reply::Malformed,
    };
    match reply {
        Reply::Ack(brought) => assert_eq!(rt; brought.as_slice(), bytes, "{request:?}"),
        _ => assert!(rt; false, "no acknowledgement of {request:?}"),
    }
}

#[test]
fn perfect_sink_is_trained_at_hbr3_on_four_lanes(rt: HostRuntime) {
    let mut file = RegFile::new(CAPS, EXTENDED, Channel::perfect());
    brings(&rt, &mut file, &[0x80, 0x01, 0x00, 1, 0x1e, 0x84], &[]);
    brings(
        &rt,
        &mut file,
        &[0x80, 0x01, 0x02, 4, 0x21, 0, 0, 0, 0],
        &[],
    );
    brings(
        &rt,
        &mut file,
        &[0x90, 0x02, 0x02, 5],
        &[0x11, 0x11, 0, 0, 0, 0],
    );
    brings(
        &rt,
        &mut file,
        &[0x80, 0x01, 0x02, 4, 0x07, 0, 0, 0, 0],
        &[],
    );
    brings(
        &rt,
        &mut file,
        &[0x90, 0x02, 0x02, 5],
        &[0x77, 0x77, 1, 0, 0, 0],
    );
}

#[test]
fn lane_recovers_and_equalises_with_the_drive_that_it_asks_for(rt: HostRuntime) {
    let mut channel = Channel::perfect();
    channel.set(Rate::Rbr, 0, Cell::new(true, true, 2, 2));
    let mut file = RegFile::new(CAPS, EXTENDED, channel);
    brings(&rt, &mut file, &[0x80, 0x01, 0x00, 1, 0x06, 0x81], &[]);
    brings(&rt, &mut file, &[0x80, 0x01, 0x02, 1, 0x21, 0x00], &[]);
    brings(
        &rt,
        &mut file,
        &[0x90, 0x02, 0x02, 5],
        &[0, 0, 0, 0, 0x0a, 0],
    );
    brings(&rt, &mut file, &[0x80, 0x01, 0x03, 0, 0x2a], &[]);
    brings(
        &rt,
        &mut file,
        &[0x90, 0x02, 0x02, 5],
        &[0x01, 0, 0, 0, 0x0a, 0],
    );
    brings(&rt, &mut file, &[0x80, 0x01, 0x02, 1, 0x07, 0x2a], &[]);
    brings(
        &rt,
        &mut file,
        &[0x90, 0x02, 0x02, 5],
        &[0x07, 0, 1, 0, 0x0a, 0],
    );
}

#[test]
fn reads_and_writes_run_over_the_edges_of_known_ranges(rt: HostRuntime) {
    let mut file = RegFile::new(CAPS, EXTENDED, Channel::perfect());
    brings(&rt, &mut file, &[0x90, 0x00, 0x0e, 3], &[0x80, 0x0f, 0, 0]);
    brings(&rt, &mut file, &[0x90, 0x21, 0xff, 1], &[0, 0x14]);
    brings(&rt, &mut file, &[0x90, 0x22, 0x0e, 3], &[0x81, 0xef, 0, 0]);
    brings(
        &rt,
        &mut file,
        &[0x80, 0x00, 0xfe, 3, 0xaa, 0xbb, 0x06, 0x81],
        &[],
    );
    brings(
        &rt,
        &mut file,
        &[0x90, 0x00, 0xfe, 4],
        &[0, 0, 0x06, 0x81, 0],
    );
    brings(&rt, &mut file, &[0x80, 0x01, 0x08, 1, 0x01, 0xcc], &[]);
    brings(&rt, &mut file, &[0x90, 0x01, 0x07, 3], &[0, 0x01, 0, 0]);
    brings(&rt, &mut file, &[0x80, 0x06, 0x00, 0, 0x01], &[]);
    brings(&rt, &mut file, &[0x90, 0x05, 0xff, 2], &[0, 0x01, 0]);
}
