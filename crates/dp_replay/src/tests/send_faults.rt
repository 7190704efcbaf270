//! The command `send` over objects in memory: pixels and calls that fail.

use super::sending::{
    CALM, Fails, PIXELS, Stage, TWO_FRAMES, TWO_LANES, ends, job, pixels, status,
};
use super::words;
use crate::file_pipe::FilePipe;
use crate::file_source::FileSource;
use dpx_base::Pixel;
use dpx_cli::replay;
use std::alloc::Global;
use std::process::Abort;
use std::test::Fail;
use std::thread::Threads;

/// These pixels stop the sending, behind the plan's line, and a part of the capture was taken.
fn pixels_stop<R: Abort + Threads + Sync>(
    rt: &R,
    alloc: Global,
    depth: u8,
    pixels: Vec<Pixel>,
    report: &str,
) -> Result<(), Fail> {
    let job = job(alloc, TWO_LANES, TWO_FRAMES, depth)?;
    let mut stage = Stage::new(alloc, job.as_str(), pixels, CALM)?;
    ends(rt, alloc, "send a b c", &mut stage, (report, 3))?;
    let (bytes, _) = stage.handed();
    assert!(rt; bytes < 2812, "{bytes}");
    Ok(())
}

#[test]
fn a_pixel_out_of_range_stops_the_sending(rt: HostRuntime) -> Result<(), Fail> {
    let mut pixels = pixels(rt.alloc(), 5)?;
    pixels.push(Pixel {
        r: 0,
        g: 1024,
        b: 0,
    })?;
    pixels.resize(64, Pixel::default())?;
    let report = "plan symbols 30 n 1620000 m 2592000 unit 32 delay 21 end 42 bound 21\n\
        pixel 5 bad 1024\n";
    pixels_stop(&rt, rt.alloc(), 10, pixels, report)
}

#[test]
fn a_missing_pixel_stops_the_sending(rt: HostRuntime) -> Result<(), Fail> {
    let report = "plan symbols 24 n 1296000 m 2592000 unit 32 delay 25 end 40 bound 20\n\
        pixels ended at 63\n";
    pixels_stop(&rt, rt.alloc(), 8, pixels(rt.alloc(), 63)?, report)
}

/// A run on the two frames with these failing calls ends so, and has handed out so much.
fn fails_with<R: Abort + Threads + Sync>(
    rt: &R,
    alloc: Global,
    fails: Fails,
    wanted: (&str, u8),
    handed: (usize, usize),
) -> Result<(), Fail> {
    let job = job(alloc, TWO_LANES, TWO_FRAMES, 8)?;
    let mut stage = Stage::new(alloc, job.as_str(), pixels(alloc, PIXELS)?, fails)?;
    ends(rt, alloc, "send a b c", &mut stage, wanted)?;
    assert_eq!(rt; stage.handed(), handed);
    Ok(())
}

#[test]
fn a_fault_at_once_stops_the_command(rt: HostRuntime) -> Result<(), Fail> {
    let unread = Fails { job: &[0], ..CALM };
    fails_with(&rt, rt.alloc(), unread, ("read fault\n", 7), (0, 0))?;
    let untaken = Fails {
        capture: &[0],
        ..CALM
    };
    let report = "plan symbols 24 n 1296000 m 2592000 unit 32 delay 25 end 40 bound 20\n\
        write fault\n";
    fails_with(&rt, rt.alloc(), untaken, (report, 8), (0, 0))
}

#[test]
fn a_pipe_that_does_not_begin_leaves_the_capture_empty(rt: HostRuntime) -> Result<(), Fail> {
    let alloc = rt.alloc();
    let job = job(alloc, TWO_LANES, TWO_FRAMES, 8)?;
    let mut stage = Stage::new(alloc, job.as_str(), Vec::new(alloc), CALM)?;
    let status = replay(
        &rt,
        alloc,
        words(alloc, "send a b c")?.as_slice(),
        &mut stage.src,
        &mut FilePipe::new(FileSource::nothing()),
        &mut stage.port,
        &mut stage.pix,
        &mut stage.out,
    );
    assert_eq!(rt; (status, stage.pix.bytes().len()), (9, 0));
    Ok(())
}

/// The pipe that fails at this clock was handed its set and no further one.
fn pipe_fails<R: Abort + Threads + Sync>(rt: &R, alloc: Global, clock: u16) -> Result<(), Fail> {
    let job = job(alloc, TWO_LANES, TWO_FRAMES, 8)?;
    let clocks = [u64::from(clock)];
    let fails = Fails {
        clocks: &clocks,
        ..CALM
    };
    let mut stage = Stage::new(alloc, job.as_str(), pixels(alloc, PIXELS)?, fails)?;
    let report = "plan symbols 24 n 1296000 m 2592000 unit 32 delay 25 end 40 bound 20\n\
        pipe fault\n";
    ends(rt, alloc, "send a b c", &mut stage, (report, 9))?;
    assert_eq!(rt; stage.pipe.sets().len(), usize::from(clock) + 1);
    Ok(())
}

#[test]
fn a_pipe_that_fails_is_handed_no_further_set(rt: HostRuntime) -> Result<(), Fail> {
    for clock in 0..699 {
        pipe_fails(&rt, rt.alloc(), clock)?;
    }
    Ok(())
}

/// The report fails at this write: behind so many lines of it nothing is printed, and so much was handed out.
fn report_fails<R: Abort + Threads + Sync>(
    rt: &R,
    alloc: Global,
    write: u64,
    wanted: (&str, u8),
    handed: (usize, usize),
) -> Result<(), Fail> {
    let writes = [write];
    let fails = Fails {
        report: &writes,
        ..CALM
    };
    fails_with(rt, alloc, fails, wanted, handed)
}

#[test]
fn a_write_of_the_report_that_fails_is_the_last(rt: HostRuntime) -> Result<(), Fail> {
    let alloc = rt.alloc();
    let plan = "plan symbols 24 n 1296000 m 2592000 unit 32 delay 25 end 40 bound 20\n";
    report_fails(&rt, alloc, 0, ("", 8), (0, 0))?;
    report_fails(&rt, alloc, 1, (plan, 8), (2812, 699))?;
    let whole = format!(in alloc; "{plan}sent frames 2 lines 4 clocks 699\n")?;
    report_fails(&rt, alloc, 2, (whole.as_str(), 0), (2812, 699))
}

/// The status of a run whose capture fails at this write, and the bytes that were taken.
fn capture_fails<R: Threads + Sync>(
    rt: &R,
    alloc: Global,
    write: u64,
) -> Result<(u8, usize), Fail> {
    let job = job(alloc, TWO_LANES, TWO_FRAMES, 8)?;
    let writes = [write];
    let fails = Fails {
        capture: &writes,
        ..CALM
    };
    let mut stage = Stage::new(alloc, job.as_str(), pixels(alloc, PIXELS)?, fails)?;
    let status = status(rt, alloc, "send a b c", &mut stage)?;
    Ok((status, stage.pix.bytes().len()))
}

#[test]
fn a_write_of_the_capture_that_fails_ends_the_command(rt: HostRuntime) -> Result<(), Fail> {
    // the header is one write, the words are more
    for write in 0..2812 {
        let (status, bytes) = capture_fails(&rt, rt.alloc(), write)?;
        if status == 0 {
            assert_eq!(rt; (write > 1, bytes), (true, 2812));
            return Ok(());
        }
        assert_eq!(rt; (status, bytes < 2812), (8, true));
    }
    Err("no run ended well".into())
}
