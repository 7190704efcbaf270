//! The command `recv` over objects in memory: what is received of a capture that was sent, and of one that is damaged.

ghost use Rattle.std.specs.Prelude.{◌<◌};

use super::sending::{CALM, PIXELS, Stage, TWO_FRAMES, TWO_LANES, job, pixels, status};
use super::words;
use dpx_base::{MemPipe, MemSink, MemSource, write_pixel};
use dpx_cli::replay;
use dpx_sinkmodel::PlanPort;
use std::alloc::Global;
use std::process::Abort;
use std::str;
use std::test::Fail;
use std::thread::Threads;

const ATTRIBUTES: &str =
    "attributes width 16 height 2 total 28 4 start 8 2 sync 4 1 polarity 0 0 mvid 54000 nvid 162000";

/// How MISC0 and the depth are told of components of 8 bits.
pub(crate) const EIGHT: &str = "misc0 21 depth 8";

pub(crate) const ALL: &str = "received frames 2 lines 4 tail 0\n";

/// Why a test ends that cuts a capture where it has no byte.
const SHORT: &str = "the capture is too short";

/// What the source gives a read, and which calls fail.
#[derive(Clone, Copy)]
pub(crate) struct Hearing<'a> {
    pub(crate) step: usize,
    pub(crate) reads: &'a [u64],
    pub(crate) records: &'a [u64],
    pub(crate) report: &'a [u64],
}

pub(crate) const CLEAR: Hearing<'static> = Hearing {
    step: 4096,
    reads: &[],
    records: &[],
    report: &[],
};

/// What a run leaves.
#[derive(Drop)]
pub(crate) struct Heard {
    pub(crate) printed: String,
    pub(crate) status: u8,
    pub(crate) records: Vec<u8>,
}

/// Runs the command on these bytes.
pub(crate) fn hear<R: Threads + Sync>(
    rt: &R,
    alloc: Global,
    command: &str,
    capture: &[u8],
    hearing: Hearing,
) -> Result<Heard, Fail>
    requires { 0 < hearing.step }
{
    let words = words(alloc, command)?;
    let mut src = MemSource::new(
        capture.to_vec(alloc)?,
        hearing.step,
        hearing.reads.to_vec(alloc)?,
    );
    let mut pipe = MemPipe::new(Vec::new(alloc), Vec::new(alloc));
    let mut port = PlanPort::new(alloc)?;
    let room = capture.len().max(4096);
    let mut pix = MemSink::new(alloc, room, hearing.records.to_vec(alloc)?)?;
    let mut out = MemSink::new(alloc, 1024, hearing.report.to_vec(alloc)?)?;
    let status = replay(
        rt,
        alloc,
        words.as_slice(),
        &mut src,
        &mut pipe,
        &mut port,
        &mut pix,
        &mut out,
    );
    Ok(Heard {
        printed: String::from_str(alloc, str::from_utf8(out.bytes())?)?,
        status,
        records: pix.bytes().to_vec(alloc)?,
    })
}

/// The capture of the two frames, over this link, with components of so many bits.
pub(crate) fn capture<R: Threads + Sync>(
    rt: &R,
    alloc: Global,
    link: &str,
    depth: u8,
) -> Result<Vec<u8>, Fail> {
    let job = job(alloc, link, TWO_FRAMES, depth)?;
    let mut stage = Stage::new(alloc, job.as_str(), pixels(alloc, PIXELS)?, CALM)?;
    status(rt, alloc, "send a b c", &mut stage)?;
    Ok(stage.pix.bytes().to_vec(alloc)?)
}

/// The records of the first pixels of the two frames.
fn records(alloc: Global, count: u64) -> Result<Vec<u8>, Fail> {
    let mut bytes = Vec::new(alloc);
    for pixel in &pixels(alloc, count)? {
        bytes.extend_from_slice(&write_pixel(*pixel))?;
    }
    Ok(bytes)
}

/// So many lines of attributes, and a last line.
pub(crate) fn report(alloc: Global, frames: usize, told: &str, last: &str) -> Result<String, Fail> {
    let mut text = String::new(alloc);
    for _ in 0..frames {
        write!(text, "{ATTRIBUTES} {told}\n")?;
    }
    text.push_str(last)?;
    Ok(text)
}

/// The command on these bytes prints this behind so many lines of attributes, ends with this status, and gives so many
/// pixels: 16 for each whole line.
type Wanted = (usize, &'static str, u8, u64);

fn hears<R: Abort + Threads + Sync>(
    rt: &R,
    alloc: Global,
    command: &str,
    capture: &[u8],
    hearing: Hearing,
    wanted: Wanted,
) -> Result<(), Fail>
    requires { 0 < hearing.step }
{
    let (frames, last, status, count) = wanted;
    let heard = hear(rt, alloc, command, capture, hearing)?;
    let printed = report(alloc, frames, EIGHT, last)?;
    assert_eq!(rt;
        (heard.printed.as_str(), heard.status),
        (printed.as_str(), status)
    );
    assert_eq!(rt; heard.records.as_slice(), records(alloc, count)?.as_slice());
    Ok(())
}

#[test]
fn what_was_sent_is_received(rt: HostRuntime) -> Result<(), Fail> {
    let sent = capture(&rt, rt.alloc(), TWO_LANES, 8)?;
    for command in ["recv a b", "recv a b one", "recv a b lanes"] {
        hears(
            &rt,
            rt.alloc(),
            command,
            sent.as_slice(),
            CLEAR,
            (2, ALL, 0, PIXELS),
        )?;
    }
    let bytes = Hearing { step: 1, ..CLEAR };
    hears(
        &rt,
        rt.alloc(),
        "recv a b",
        sent.as_slice(),
        bytes,
        (2, ALL, 0, PIXELS),
    )
}

/// A link, a depth, and what is received of the two frames.
const KINDS: [(&str, u8, &str); 4] = [
    (
        r#""rate":"RBR","lanes":2,"enhanced":0"#,
        8,
        "misc0 21 depth 8",
    ),
    (TWO_LANES, 12, "misc0 61 depth 12"),
    (TWO_LANES, 16, "misc0 81 depth 16"),
    (r#""rate":"RBR","lanes":1"#, 8, "misc0 21 depth 8"),
];

#[test]
fn each_kind_of_capture_is_received(rt: HostRuntime) -> Result<(), Fail> {
    for (link, depth, told) in KINDS {
        let sent = capture(&rt, rt.alloc(), link, depth)?;
        let heard = hear(&rt, rt.alloc(), "recv a b", sent.as_slice(), CLEAR)?;
        let printed = report(rt.alloc(), 2, told, ALL)?;
        assert_eq!(rt;
            (heard.printed.as_str(), heard.status),
            (printed.as_str(), 0)
        );
        assert_eq!(rt;
            heard.records.as_slice(),
            records(rt.alloc(), PIXELS)?.as_slice()
        );
    }
    Ok(())
}

/// The capture from this byte behind the header on, or up to this byte; and what is received of it.
const CUT_OFF: [(usize, usize, Wanted); 4] = [
    // the first header begins in the first clock that is left
    (8 + 4 * 101, 2812, (2, ALL, 0, PIXELS)),
    // its group is cut on lane 0
    (8 + 4 * 102, 2812, (0, "no lock in 599 clocks\n", 6, 0)),
    (8, 1288, (1, "received frames 0 lines 1 tail 6\n", 0, 16)),
    (
        8,
        1290,
        (1, "capture truncated at clock 320 with 2 bytes\n", 6, 16),
    ),
];

#[test]
fn a_part_of_a_capture_is_received_as_far_as_it_goes(rt: HostRuntime) -> Result<(), Fail> {
    let sent = capture(&rt, rt.alloc(), TWO_LANES, 8)?;
    for (from, to, wanted) in CUT_OFF {
        let mut part = sent.get(..8).ok_or(SHORT)?.to_vec(rt.alloc())?;
        part.extend_from_slice(sent.get(from..to).ok_or(SHORT)?)?;
        hears(&rt, rt.alloc(), "recv a b", part.as_slice(), CLEAR, wanted)?;
    }
    Ok(())
}

#[test]
fn a_capture_cut_near_its_start_says_where(rt: HostRuntime) -> Result<(), Fail> {
    let sent = capture(&rt, rt.alloc(), TWO_LANES, 8)?;
    for count in 0..41usize {
        let report = if count < 8 {
            format!(in rt.alloc(); "capture header after {count} bytes\n")?
        } else if count % 4 == 0 {
            format!(in rt.alloc(); "no lock in {} clocks\n", (count - 8) / 4)?
        } else {
            format!(in rt.alloc();
                "capture truncated at clock {} with {} bytes\n",
                (count - 8) / 4,
                count % 4
            )?
        };
        let part = sent.get(..count).ok_or(SHORT)?;
        let heard = hear(&rt, rt.alloc(), "recv a b", part, CLEAR)?;
        assert_eq!(rt;
            (heard.printed.as_str(), heard.status),
            (report.as_str(), 6)
        );
        assert!(rt; heard.records.is_empty());
    }
    Ok(())
}

/// Captures of one lane or two that no source sent, and what is said of them.
const DAMAGED: [(&[u8], &str); 6] = [
    (b"EPX1\x01\x06\x01\x00", "capture header after 8 bytes\n"),
    (b"DPX1\x01\x06\x01\x00", "no lock in 0 clocks\n"),
    (
        b"DPX1\x01\x06\x01\x00\x02\xaa\x00\xfa\x00\xfa",
        "wrong column at clock 2 lane 0: 0FA\n",
    ),
    (
        b"DPX1\x01\x06\x01\x00\x02\xaa\x00\x00",
        "not a word at clock 1 lane 0: 000\n",
    ),
    (
        b"DPX1\x01\x06\x01\x00\x04\x00",
        "word value at clock 0 lane 0 is 1024\n",
    ),
    // both words of the second clock are bad
    (
        b"DPX1\x02\x06\x01\x00\x02\xaa\x02\xaa\x00\x00\x04\x00",
        "not a word at clock 1 lane 0: 000\n",
    ),
];

#[test]
fn damage_is_named_at_its_place(rt: HostRuntime) -> Result<(), Fail> {
    for (bytes, report) in DAMAGED {
        hears(&rt, rt.alloc(), "recv a b", bytes, CLEAR, (0, report, 6, 0))?;
    }
    let mut sent = capture(&rt, rt.alloc(), TWO_LANES, 8)?;
    let mut unflagged = sent.to_vec(rt.alloc())?;
    if let Some(flags) = unflagged.get_mut(6) {
        *flags = 0;
    }
    let wanted = (0, "set 1 control\n", 6, 0);
    hears(
        &rt,
        rt.alloc(),
        "recv a b",
        unflagged.as_slice(),
        CLEAR,
        wanted,
    )?;
    // lane 1 in clock 200
    let place = 8 + 4 * 200 + 2;
    for byte in [place, place + 1] {
        if let Some(old) = sent.get_mut(byte) {
            *old = 0;
        }
    }
    let wanted = (1, "not a word at clock 200 lane 1: 000\n", 6, 0);
    hears(&rt, rt.alloc(), "recv a b", sent.as_slice(), CLEAR, wanted)
}
