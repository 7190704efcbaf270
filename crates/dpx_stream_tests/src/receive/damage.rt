//! Damaged words, foreign words, and writes that fail.

use super::{End, capture, gives, is_written, two_lanes};
use dpx_align::AlignBad;
use dpx_base::{Depth, Lanes, Link, MemSink, NoGate, Place, Rate, Workers};
use dpx_sink::{Output, Receiver, RecvEnd};
use std::alloc::Global;
use std::process::Abort;
use std::test::Fail;
use std::thread::Threads;

/// The bytes, with the word at this place changed to 0.
fn damaged(alloc: Global, bytes: &[u8], place: usize) -> Result<Vec<u8>, Fail> {
    let mut damaged = bytes.to_vec(alloc)?;
    for byte in damaged.iter_mut().skip(place).take(2) {
        *byte = 0;
    }
    Ok(damaged)
}

#[test]
fn a_damaged_word_is_named_at_its_place(rt: HostRuntime) -> Result<(), Fail> {
    let alloc = rt.alloc();
    let capture = capture(&rt, alloc, Depth::Eight, true)?;
    // The first attributes end in the set that clock 133 completes, the first line in that of clock 271.
    let words: [(u16, u8, u16, usize); 6] = [
        (0, 0, 0, 0),
        (133, 0, 0, 0),
        (134, 1, 0, 1),
        (200, 1, 0, 1),
        (271, 1, 0, 1),
        (272, 0, 16, 1),
    ];
    for (clock, lane, pixels, lines) in words {
        let place = Place {
            clock: u64::from(clock),
            lane,
        };
        let bad = AlignBad::NotAWord { place, word: 0 };
        let end = Err(End::Refused(RecvEnd::Align(bad)));
        let at = 4 * usize::from(clock) + 2 * usize::from(lane);
        let bytes = damaged(alloc, capture.bytes(), at)?;
        gives(
            &rt,
            alloc,
            two_lanes(true),
            bytes.as_slice(),
            &[1001],
            end,
            pixels,
            lines,
        )?;
    }
    Ok(())
}

#[test]
fn words_of_one_lane_are_named(rt: HostRuntime) -> Result<(), Fail> {
    let alloc = rt.alloc();
    let link = Link {
        rate: Rate::Rbr,
        lanes: Lanes::One,
        enhanced: true,
    };
    let place = |clock| Place { clock, lane: 0 };
    let column = AlignBad::WrongColumn {
        place: place(2),
        word: 0xfa,
    };
    let none = AlignBad::NotAWord {
        place: place(1),
        word: 0,
    };
    let value = AlignBad::BadWord {
        place: place(0),
        value: 1024,
    };
    let rows: [(&[u8], AlignBad); 3] = [
        (&[2, 0xaa, 0, 0xfa, 0, 0xfa], column),
        (&[2, 0xaa, 0, 0], none),
        (&[4, 0], value),
    ];
    for (bytes, bad) in rows {
        let end = Err(End::Refused(RecvEnd::Align(bad)));
        gives(&rt, alloc, link, bytes, &[1, 2], end, 0, 0)?;
    }
    Ok(())
}

/// Where these writes fail the bytes are refused at one output, with so much taken; a second feed writes nothing.
fn stops<R: Abort + Threads + Sync>(
    rt: &R,
    alloc: Global,
    pix_fails: &[u64],
    log_fails: &[u64],
    output: Output,
    pixels: u16,
    lines: usize,
) -> Result<(), Fail> {
    let capture = capture(rt, alloc, Depth::Eight, true)?;
    let bytes = capture.bytes();
    assert!(rt; bytes.len() < 3000);
    let mut pix = MemSink::new(alloc, 1000, pix_fails.to_vec(alloc)?)?;
    let mut log = MemSink::new(alloc, 1000, log_fails.to_vec(alloc)?)?;
    let mut receiver = Receiver::new(alloc, two_lanes(true)).expect(rt, "memory");
    let workers = Workers::One;
    let end = receiver.feed(rt, bytes, workers, &NoGate, &mut pix, &mut log);
    assert_eq!(rt; end, Err(RecvEnd::WriteFault));
    let again = receiver.feed(rt, bytes, workers, &NoGate, &mut pix, &mut log);
    assert_eq!(rt; again, Err(RecvEnd::WriteFault));
    assert_eq!(rt; receiver.failed_output(), Some(output));
    is_written(
        rt,
        alloc,
        pix.bytes(),
        pixels,
        log.bytes(),
        lines,
        Depth::Eight,
    )
}

#[test]
fn a_write_that_fails_ends_it(rt: HostRuntime) -> Result<(), Fail> {
    let alloc = rt.alloc();
    for n in 0..4u16 {
        let lines = usize::from(n) / 2 + 1;
        stops(
            &rt,
            alloc,
            &[u64::from(n)],
            &[],
            Output::Pixels,
            16 * n,
            lines,
        )?;
    }
    stops(&rt, alloc, &[], &[0], Output::Log, 0, 0)?;
    stops(&rt, alloc, &[], &[1], Output::Log, 32, 1)
}
