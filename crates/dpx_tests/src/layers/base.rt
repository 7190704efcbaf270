ghost use Rattle.std.specs.Prelude.{◌<◌, ◌≤◌, length};

use dpx_base::{BoundedList, Bytes20, Failed, Lanes, MemSink, MemSource, Rate, Sink, Source};
use std::process::Abort;
use std::test::Fail;

#[test]
fn rates_have_their_codes_clocks_and_names(rt: HostRuntime) {
    let rates = [
        (Rate::Rbr, (0x06, 162_000, "RBR")),
        (Rate::Hbr, (0x0a, 270_000, "HBR")),
        (Rate::Hbr2, (0x14, 540_000, "HBR2")),
        (Rate::Hbr3, (0x1e, 810_000, "HBR3")),
    ];
    for (rate, wanted) in rates {
        assert_eq!(rt; (rate.code(), rate.clock_khz(), rate.name()), wanted);
    }
}

#[test]
fn code_counts_as_the_greatest_rate_below(rt: HostRuntime) {
    let codes = [
        (0x00, None),
        (0x05, None),
        (0x06, Some(Rate::Rbr)),
        (0x09, Some(Rate::Rbr)),
        (0x0a, Some(Rate::Hbr)),
        (0x13, Some(Rate::Hbr)),
        (0x14, Some(Rate::Hbr2)),
        (0x19, Some(Rate::Hbr2)),
        (0x1d, Some(Rate::Hbr2)),
        (0x1e, Some(Rate::Hbr3)),
        (0xff, Some(Rate::Hbr3)),
    ];
    for (code, rate) in codes {
        assert_eq!(rt; Rate::from_code(code), rate, "at {code}");
    }
}

#[test]
fn lanes_are_one_two_or_four(rt: HostRuntime) {
    for lanes in [Lanes::One, Lanes::Two, Lanes::Four] {
        assert_eq!(rt; Lanes::from_count(lanes.count()), Some(lanes));
    }
    for count in [0, 3, 5, 8, 255] {
        assert_eq!(rt; Lanes::from_count(count), None, "at {count}");
    }
}

#[test]
fn every_lane_looks_at_the_lanes_in_use(rt: HostRuntime) {
    for (lanes, last) in [(Lanes::One, 0), (Lanes::Two, 1), (Lanes::Four, 3)] {
        assert!(rt; lanes.every_lane(|lane| lane <= last), "{lanes:?}");
        assert!(rt; !lanes.every_lane(|lane| lane < last), "{lanes:?}");
    }
}

#[test]
fn bounded_list_gives_back_what_it_was_made_of(rt: HostRuntime) {
    let twenty = [7; 20];
    assert_eq!(rt; Bytes20::from_slice(&twenty).as_slice(), twenty.as_slice());
    assert_eq!(rt; Bytes20::from_slice(&[]).len(), 0);
    let symbols = BoundedList::<u16, 1, 4>::from_slice(&[0x1bc, 0x0fb, 0x002]);
    assert_eq!(rt; symbols.as_slice(), [0x1bc, 0x0fb, 0x002].as_slice());
    assert_eq!(rt; (symbols.len(), symbols.get(2)), (3, 0x002));
}

/// A read into a buffer of this room gives these bytes, or it fails.
fn reads(rt: &impl Abort, source: &mut MemSource, room: usize, given: Option<&[u8]>)
    requires { room ≤ 8 }
{
    let mut buf = [0; 8];
    let result = source.read(&mut buf[..room]);
    match given {
        Some(bytes) => {
            assert_eq!(rt; result, Ok(bytes.len()));
            assert!(rt; buf.starts_with(bytes));
        }
        None => assert_eq!(rt; result, Err(Failed)),
    }
}

#[test]
fn source_hands_over_pieces_and_goes_on_after_a_failed_read(rt: HostRuntime) -> Result<(), Fail> {
    let bytes = [1, 2, 3, 4, 5, 6, 7].to_vec(rt.alloc())?;
    let fails = [1, 4].to_vec(rt.alloc())?;
    let mut source = MemSource::new(bytes, 3, fails);
    reads(&rt, &mut source, 8, Some(&[1, 2, 3]));
    reads(&rt, &mut source, 8, None);
    reads(&rt, &mut source, 2, Some(&[4, 5]));
    reads(&rt, &mut source, 0, Some(&[]));
    reads(&rt, &mut source, 8, None);
    reads(&rt, &mut source, 8, Some(&[6, 7]));
    reads(&rt, &mut source, 8, Some(&[]));
    reads(&rt, &mut source, 8, Some(&[]));
    Ok(())
}

fn writes(rt: &impl Abort, sink: &mut MemSink, piece: &[u8], taken: Result<usize, Failed>)
    requires { 0 < length piece.now }
{
    assert_eq!(rt; sink.write(piece), taken);
}

#[test]
fn sink_takes_what_it_has_room_for_and_fails_where_it_has_none(
    rt: HostRuntime,
) -> Result<(), Fail> {
    let fails = [1].to_vec(rt.alloc())?;
    let mut sink = MemSink::new(rt.alloc(), 5, fails)?;
    writes(&rt, &mut sink, &[1, 2, 3], Ok(3));
    writes(&rt, &mut sink, &[8, 9], Err(Failed));
    writes(&rt, &mut sink, &[4], Ok(1));
    writes(&rt, &mut sink, &[5, 6], Ok(1));
    writes(&rt, &mut sink, &[7], Err(Failed));
    assert_eq!(rt; sink.bytes(), [1, 2, 3, 4, 5].as_slice());
    Ok(())
}
