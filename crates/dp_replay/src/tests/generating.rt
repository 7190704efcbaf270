//! The command `gen` over objects in memory: frames out of a number, sent and received.

use super::receiving::{CLEAR, Hearing, capture, hear};
use super::sending::{CALM, Fails, Stage, TWO_LANES, USAGE, ends, status};
use dpx_base::MemSink;
use std::alloc::Global;
use std::process::Abort;
use std::test::Fail;
use std::thread::Threads;

/// A command, the bytes of its capture, and its report.
type Generated = (&'static str, usize, &'static str);

pub(crate) const FOUR: &str = "gen seed 4 mode 0 frames 2\n\
    plan symbols 24 n 1296000 m 2592000 unit 32 delay 25 end 40 bound 20\n\
    sent frames 2 lines 4 clocks 699\n\
    received frames 2 lines 4 tail 0\n\
    pixels 64 equal 64\n";

const ONE: &str = "gen seed 1 mode 1 frames 1\n\
    plan symbols 1440 n 453150 m 1296000 unit 64 delay 53 end 4104 bound 26\n\
    sent frames 1 lines 480 clocks 2702735\n\
    received frames 1 lines 480 tail 0\n\
    pixels 307200 equal 307200\n";

const TWO: &str = "gen seed 2 mode 2 frames 1\n\
    plan symbols 2880 n 3324000 m 4320000 unit 64 delay 22 end 3736 bound 28\n\
    sent frames 1 lines 1080 clocks 4504989\n\
    received frames 1 lines 1080 tail 0\n\
    pixels 2073600 equal 2073600\n";

const THREE: &str = "gen seed 3 mode 3 frames 1\n\
    plan symbols 3600 n 15997500 m 25920000 unit 64 delay 34 end 5830 bound 29\n\
    sent frames 1 lines 2160 clocks 13500797\n\
    received frames 1 lines 2160 tail 0\n\
    pixels 8294400 equal 8294400\n";

/// The command prints this, and its capture has so many bytes.
fn generates<R: Abort + Threads + Sync>(
    rt: &R,
    alloc: Global,
    (command, bytes, report): Generated,
) -> Result<(), Fail> {
    let mut stage = Stage::new(alloc, "", Vec::new(alloc), CALM)?;
    stage.pix = MemSink::new(alloc, bytes, Vec::new(alloc))?;
    ends(rt, alloc, command, &mut stage, (report, 0))?;
    assert_eq!(rt; stage.handed(), (bytes, 0), "{command}");
    Ok(())
}

#[test]
fn frames_out_of_a_number_come_back(rt: HostRuntime) -> Result<(), Fail> {
    for row in [
        ("gen 4", 2812, FOUR),
        ("gen 4 one", 2812, FOUR),
        ("gen 4 lanes", 2812, FOUR),
        ("gen 0000000004", 2812, FOUR),
        ("gen 1 one", 5_405_478, ONE),
        ("gen 1 lanes", 5_405_478, ONE),
        ("gen 2 one", 18_019_972, TWO),
        ("gen 2 lanes", 18_019_972, TWO),
        ("gen 3 one", 108_006_432, THREE),
        ("gen 3 lanes", 108_006_432, THREE),
    ] {
        generates(&rt, rt.alloc(), row)?;
    }
    Ok(())
}

/// The capture of a number's frames.
fn capture_of<R: Threads + Sync>(rt: &R, alloc: Global, command: &str) -> Result<Vec<u8>, Fail> {
    let mut stage = Stage::new(alloc, "", Vec::new(alloc), CALM)?;
    status(rt, alloc, command, &mut stage)?;
    Ok(stage.pix.bytes().to_vec(alloc)?)
}

#[test]
fn a_number_gives_the_capture_that_its_pixels_give(rt: HostRuntime) -> Result<(), Fail> {
    let generated = capture_of(&rt, rt.alloc(), "gen 4")?;
    let sent = capture(&rt, rt.alloc(), TWO_LANES, 8)?;
    assert_eq!(rt; generated.as_slice(), sent.as_slice());
    let heard = hear(&rt, rt.alloc(), "recv a b", generated.as_slice(), CLEAR)?;
    assert_eq!(rt; heard.records.len(), 384);
    assert!(rt;
        heard
            .records
            .as_slice()
            .starts_with(&[0, 155, 0, 0, 0, 100])
    );
    Ok(())
}

#[test]
fn the_capture_of_a_number_is_received_in_pieces(rt: HostRuntime) -> Result<(), Fail> {
    let alloc = rt.alloc();
    let mut stage = Stage::new(alloc, "", Vec::new(alloc), CALM)?;
    stage.pix = MemSink::new(alloc, 5_405_478, Vec::new(alloc))?;
    status(&rt, alloc, "gen 1 one", &mut stage)?;
    let pieces = Hearing {
        step: 4099,
        ..CLEAR
    };
    let heard = hear(&rt, alloc, "recv a b", stage.pix.bytes(), pieces)?;
    assert_eq!(rt; (heard.status, heard.records.len()), (0, 6 * 307_200));
    let report = heard.printed.as_str();
    assert!(rt; report.starts_with("attributes width 640 height 480 "));
    assert!(rt; report.ends_with("\nreceived frames 1 lines 480 tail 0\n"));
    assert_eq!(rt; report.lines().count(), 2);
    Ok(())
}

/// The command with these failing calls ends so, and so many bytes of the capture were taken.
fn fails_with<R: Abort + Threads + Sync>(
    rt: &R,
    alloc: Global,
    room: usize,
    fails: Fails,
    wanted: (&str, u8),
    taken: usize,
) -> Result<(), Fail> {
    let mut stage = Stage::new(alloc, "", Vec::new(alloc), fails)?;
    stage.pix = MemSink::new(alloc, room, fails.capture.to_vec(alloc)?)?;
    ends(rt, alloc, "gen 4", &mut stage, wanted)?;
    assert_eq!(rt; stage.handed(), (taken, 0));
    Ok(())
}

#[test]
fn a_write_that_fails_ends_the_command(rt: HostRuntime) -> Result<(), Fail> {
    let alloc = rt.alloc();
    let capture = Fails {
        capture: &[0],
        ..CALM
    };
    fails_with(&rt, alloc, 4096, capture, ("write fault\n", 8), 0)?;
    fails_with(&rt, alloc, 1000, CALM, ("write fault\n", 8), 1000)?;
    let report = Fails {
        report: &[0],
        ..CALM
    };
    fails_with(&rt, alloc, 4096, report, ("", 8), 2812)
}

#[test]
fn words_of_gen_without_a_reading_are_usage(rt: HostRuntime) -> Result<(), Fail> {
    for command in [
        "gen",
        "gen 4294967296",
        "gen 00000000004",
        "gen -4",
        "gen +4",
        "gen 0x4",
        "gen 4 four",
        "gen 4 one one",
    ] {
        let mut stage = Stage::new(rt.alloc(), "", Vec::new(rt.alloc()), CALM)?;
        ends(&rt, rt.alloc(), command, &mut stage, (USAGE, 2))?;
        assert_eq!(rt; stage.handed(), (0, 0), "{command}");
    }
    Ok(())
}
