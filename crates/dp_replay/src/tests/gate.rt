//! The gate: the two lanes of a command run side by side.

use super::receiving::capture;
use super::sending::{CALM, PIXELS, Stage, TWO_FRAMES, TWO_LANES, job, pixels};
use super::words;
use dpx_base::{Gate, MemSource};
use dpx_cli::replay_gated;
use std::alloc::Global;
use std::process::Abort;
use std::sync::atomic::{AtomicU64, Ordering};
use std::test::Fail;
use std::thread::Threads;

/// Each of two lanes turns until it sees the other.
#[derive(Drop)]
struct Meeting {
    here: [AtomicU64; 2],
    seen: [AtomicU64; 2],
}

impl Gate for Meeting {
    fn arrive(&self, lane: u8) {
        let (mine, other) = if lane == 0 { (0, 1) } else { (1, 0) };
        self.here[mine].store(1, Ordering::SeqCst);
        for _ in 0..100_000_000u64 {
            if self.here[other].load(Ordering::SeqCst) == 1 {
                self.seen[mine].store(1, Ordering::SeqCst);
                return;
            }
        }
    }
}

/// The status of a command on these bytes and the pixels of the two frames, past this gate.
fn run_past<R: Threads + Sync>(
    rt: &R,
    alloc: Global,
    command: &str,
    bytes: &[u8],
    gate: &impl Gate,
) -> Result<u8, Fail> {
    let words = words(alloc, command)?;
    let mut stage = Stage::new(alloc, "", pixels(alloc, PIXELS)?, CALM)?;
    stage.src = MemSource::new(bytes.to_vec(alloc)?, 64, Vec::new(alloc));
    let status = replay_gated(
        rt,
        alloc,
        words.as_slice(),
        &mut stage.src,
        &mut stage.pipe,
        &mut stage.port,
        &mut stage.pix,
        &mut stage.out,
        gate,
    );
    Ok(status)
}

/// The command ends well, and each of its two lanes has seen the other.
fn lanes_meet<R: Abort + Threads + Sync>(
    rt: &R,
    alloc: Global,
    command: &str,
    bytes: &[u8],
) -> Result<(), Fail> {
    let gate = Meeting {
        here: [AtomicU64::new(0), AtomicU64::new(0)],
        seen: [AtomicU64::new(0), AtomicU64::new(0)],
    };
    assert_eq!(rt; run_past(rt, alloc, command, bytes, &gate)?, 0);
    for lane in gate.seen {
        let seen = lane.load(Ordering::SeqCst);
        assert_eq!(rt; seen, 1, "{command}: a lane did not see the other");
    }
    Ok(())
}

#[test]
fn two_lanes_meet_at_the_gate(rt: HostRuntime) -> Result<(), Fail> {
    let job = job(rt.alloc(), TWO_LANES, TWO_FRAMES, 8)?;
    lanes_meet(&rt, rt.alloc(), "send a b c lanes", job.as_bytes())?;
    let capture = capture(&rt, rt.alloc(), TWO_LANES, 8)?;
    lanes_meet(&rt, rt.alloc(), "recv a b lanes", capture.as_slice())?;
    lanes_meet(&rt, rt.alloc(), "gen 4 lanes", &[])
}
