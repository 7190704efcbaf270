//! The command `send` over objects in memory: what is sent, and what is refused before that. Here are the objects of the
//! commands that send.

use super::words;
use dpx_base::{MemPipe, MemSink, MemSource, Pixel};
use dpx_cli::replay;
use dpx_sinkmodel::PlanPort;
use std::alloc::Global;
use std::process::Abort;
use std::str;
use std::test::Fail;
use std::thread::Threads;

pub(crate) const USAGE: &str = "usage: dp_replay train JOB | send JOB PIXELS CAPTURE [one|lanes] \
    | run JOB PIXELS CAPTURE [one|lanes] | recv CAPTURE PIXELS [one|lanes] | gen SEED [one|lanes] \
    | edid JOB | watch JOB | judge JOB\n";

pub(crate) const TWO_LANES: &str = r#""rate":"RBR","lanes":2"#;

const ONE_LANE: &str = r#""rate":"RBR","lanes":1"#;

const FOUR_LANES: &str = r#""rate":"HBR3","lanes":4"#;

/// Two frames of 16 by 2 pixels.
pub(crate) const TWO_FRAMES: &str = r#""width":16,"height":2,"htotal":28,"vtotal":4,
    "hsw":4,"hstart":8,"vsw":1,"vstart":2,"clock":54000,"frames":2,"unit":32"#;

pub(crate) const PIXELS: u64 = 64;

pub(crate) const PLAN: &str =
    "plan symbols 24 n 1296000 m 2592000 unit 32 delay 25 end 40 bound 20\n";

/// A job with these members of its link and its mode.
pub(crate) fn job(alloc: Global, link: &str, mode: &str, depth: u8) -> Result<String, Fail> {
    let text = format!(in alloc; "{{\"link\":{{{link}}},\"mode\":{{{mode},\"depth\":{depth}}}}}")?;
    Ok(text)
}

fn component(number: u64, place: u64) -> u16 {
    ((number % 65_536 * 40_503 + place % 3 * 25_717 + 4 * 9_973) % 65_536 / 256) as u16
}

/// So many pixels, with components of eight bits.
pub(crate) fn pixels(alloc: Global, count: u64) -> Result<Vec<Pixel>, Fail> {
    let mut pixels = Vec::new(alloc);
    for number in 0..count {
        pixels.push(Pixel {
            r: component(number, 0),
            g: component(number, 1),
            b: component(number, 2),
        })?;
    }
    Ok(pixels)
}

/// The numbers of the reads, clocks and writes that fail.
#[derive(Clone, Copy)]
pub(crate) struct Fails<'a> {
    pub(crate) job: &'a [u64],
    pub(crate) clocks: &'a [u64],
    pub(crate) capture: &'a [u64],
    pub(crate) report: &'a [u64],
}

pub(crate) const CALM: Fails<'static> = Fails {
    job: &[],
    clocks: &[],
    capture: &[],
    report: &[],
};

/// The objects of the command.
#[derive(Drop)]
pub(crate) struct Stage {
    pub(crate) src: MemSource,
    pub(crate) pipe: MemPipe,
    pub(crate) port: PlanPort,
    pub(crate) pix: MemSink,
    pub(crate) out: MemSink,
}

impl Stage {
    pub(crate) fn new(
        alloc: Global,
        job: &str,
        pixels: Vec<Pixel>,
        fails: Fails,
    ) -> Result<Stage, Fail> {
        Ok(Stage {
            src: MemSource::new(job.as_bytes().to_vec(alloc)?, 64, fails.job.to_vec(alloc)?),
            pipe: MemPipe::new(pixels, fails.clocks.to_vec(alloc)?),
            port: PlanPort::new(alloc)?,
            pix: MemSink::new(alloc, 32_768, fails.capture.to_vec(alloc)?)?,
            out: MemSink::new(alloc, 1024, fails.report.to_vec(alloc)?)?,
        })
    }

    /// Bytes of the capture that were taken, and sets that the pipe was handed.
    pub(crate) fn handed(&self) -> (usize, usize) {
        (self.pix.bytes().len(), self.pipe.sets().len())
    }
}

/// Runs the command, and gives its status.
pub(crate) fn status<R: Threads + Sync>(
    rt: &R,
    alloc: Global,
    command: &str,
    stage: &mut Stage,
) -> Result<u8, Fail> {
    let words = words(alloc, command)?;
    let status = replay(
        rt,
        alloc,
        words.as_slice(),
        &mut stage.src,
        &mut stage.pipe,
        &mut stage.port,
        &mut stage.pix,
        &mut stage.out,
    );
    Ok(status)
}

/// The command on this stage prints this and ends with this status.
pub(crate) fn ends<R: Abort + Threads + Sync>(
    rt: &R,
    alloc: Global,
    command: &str,
    stage: &mut Stage,
    wanted: (&str, u8),
) -> Result<(), Fail> {
    let status = status(rt, alloc, command, stage)?;
    let printed = str::from_utf8(stage.out.bytes())?;
    assert_eq!(rt; (printed, status), wanted, "{command}");
    Ok(())
}

/// The frames are sent: a plan, the clocks of the sets and the bytes of the capture.
type Sent = (&'static str, &'static str, u8, &'static str, usize, usize);

const SENT: [Sent; 6] = [
    ("send a b c", TWO_LANES, 8, PLAN, 699, 2812),
    ("send a b c one", TWO_LANES, 8, PLAN, 699, 2812),
    ("send a b c lanes", TWO_LANES, 8, PLAN, 699, 2812),
    // default framing
    (
        "send a b c",
        r#""rate":"RBR","lanes":2,"enhanced":0"#,
        8,
        PLAN,
        696,
        2800,
    ),
    (
        "send a b c",
        TWO_LANES,
        12,
        "plan symbols 36 n 1944000 m 2592000 unit 32 delay 17 end 44 bound 23\n",
        695,
        2796,
    ),
    (
        "send a b c",
        TWO_LANES,
        16,
        "plan symbols 48 n 2592000 m 2592000 unit 32 delay 8 end 48 bound 26\n",
        690,
        2776,
    ),
];

fn is_sent<R: Abort + Threads + Sync>(
    rt: &R,
    alloc: Global,
    (command, link, depth, plan, clocks, bytes): Sent,
) -> Result<(), Fail> {
    let job = job(alloc, link, TWO_FRAMES, depth)?;
    let report = format!(in alloc; "{plan}sent frames 2 lines 4 clocks {clocks}\n")?;
    let mut stage = Stage::new(alloc, job.as_str(), pixels(alloc, PIXELS)?, CALM)?;
    ends(rt, alloc, command, &mut stage, (report.as_str(), 0))?;
    assert_eq!(rt; stage.handed(), (bytes, clocks));
    Ok(())
}

#[test]
fn frames_are_sent_whole(rt: HostRuntime) -> Result<(), Fail> {
    for row in SENT {
        is_sent(&rt, rt.alloc(), row)?;
    }
    Ok(())
}

fn begins<R: Abort + Threads + Sync>(
    rt: &R,
    alloc: Global,
    link: &str,
    wanted: &[u8],
) -> Result<(), Fail> {
    let job = job(alloc, link, TWO_FRAMES, 8)?;
    let mut stage = Stage::new(alloc, job.as_str(), pixels(alloc, PIXELS)?, CALM)?;
    let status = status(rt, alloc, "send a b c", &mut stage)?;
    assert_eq!(rt; (status, stage.pix.bytes().starts_with(wanted)), (0, true));
    Ok(())
}

#[test]
fn a_capture_begins_with_its_header(rt: HostRuntime) -> Result<(), Fail> {
    let words = b"DPX1\x02\x06\x01\x00\x02\xb1\x02\xb1\x03\xa4\x03\xa4";
    begins(&rt, rt.alloc(), TWO_LANES, words)?;
    let default = r#""rate":"RBR","lanes":2,"enhanced":0"#;
    begins(&rt, rt.alloc(), default, b"DPX1\x02\x06\x00\x00")
}

/// Members of a link and a mode that are refused, the depth, the report and the status.
type Refused = (&'static str, &'static str, u8, &'static str, u8);

const REFUSED: [Refused; 5] = [
    (
        ONE_LANE,
        r#""width":16,"height":2,"htotal":24,"vtotal":4,
    "hsw":2,"hstart":4,"vsw":1,"vstart":2,"clock":54001,"frames":2,"unit":64"#,
        8,
        "unfit too fast n 1296024 m 1296000\n",
        5,
    ),
    (
        FOUR_LANES,
        r#""width":640,"height":480,"htotal":800,"vtotal":525,
    "hsw":96,"hstart":144,"vsw":2,"vstart":35,"clock":20000,"frames":2,"unit":64"#,
        6,
        "unfit too slow n 360000 m 25920000 unit 64\n",
        5,
    ),
    (
        ONE_LANE,
        r#""width":16,"height":2,"htotal":23,"vtotal":4,
    "hsw":2,"hstart":4,"vsw":1,"vstart":2,"clock":54000,"frames":2,"unit":64"#,
        8,
        "unfit no room have 69 need 70\n",
        5,
    ),
    (
        TWO_LANES,
        r#""width":15,"height":2,"htotal":28,"vtotal":4,
    "hsw":4,"hstart":8,"vsw":1,"vstart":2,"clock":54000,"frames":2,"unit":32"#,
        8,
        "job wrong width\n",
        3,
    ),
    (TWO_LANES, TWO_FRAMES, 14, "job wrong depth\n", 3),
];

/// The command prints this, ends with this status, and hands out nothing.
fn touches_nothing<R: Abort + Threads + Sync>(
    rt: &R,
    alloc: Global,
    command: &str,
    job: &str,
    fails: Fails,
    wanted: (&str, u8),
) -> Result<(), Fail> {
    let mut stage = Stage::new(alloc, job, pixels(alloc, PIXELS)?, fails)?;
    ends(rt, alloc, command, &mut stage, wanted)?;
    assert_eq!(rt; stage.handed(), (0, 0));
    Ok(())
}

fn is_refused<R: Abort + Threads + Sync>(
    rt: &R,
    alloc: Global,
    (link, mode, depth, report, status): Refused,
) -> Result<(), Fail> {
    let job = job(alloc, link, mode, depth)?;
    let wanted = (report, status);
    touches_nothing(rt, alloc, "send a b c", job.as_str(), CALM, wanted)
}

#[test]
fn what_does_not_fit_is_refused_before_anything_is_sent(rt: HostRuntime) -> Result<(), Fail> {
    for row in REFUSED {
        is_refused(&rt, rt.alloc(), row)?;
    }
    let wanted = ("job wrong link\n", 3);
    touches_nothing(&rt, rt.alloc(), "send a b c", "{}", CALM, wanted)
}

#[test]
fn words_of_send_without_a_reading_are_usage(rt: HostRuntime) -> Result<(), Fail> {
    for command in [
        "send a b",
        "send a b c four",
        "send a b c one one",
        "send a b -c",
        "send a b c -one",
    ] {
        touches_nothing(&rt, rt.alloc(), command, "{}", CALM, (USAGE, 2))?;
    }
    Ok(())
}
