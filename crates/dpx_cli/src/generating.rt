ghost use Rattle.std.specs.Prelude.{◌≡◌, ◌≤◌, ◌+◌, ◌-◌, ◌*◌, length, IfOk, IfErr};
ghost use Rattle.dpx_base.specs.Capture.{capture_clocks};
ghost use Rattle.dpx_base.specs.Lanes.{lanes_count};
ghost use Rattle.dpx_cli.specs.declared.stop.Stop.{Stop};
ghost use Rattle.dpx_cli.specs.Generating.{GoesRound, IsForMemory, equal_pixels, is_equal_at};
ghost use Rattle.dpx_files.specs.Generator.{gen_pixels, gen_plan};
ghost use Rattle.dpx_reception.specs.Due.{pixel_records};
ghost use Rattle.dpx_sink.specs.Laws.{all_of};
ghost use Rattle.dpx_sink.specs.declared.recv_end.RecvEnd.{RecvEnd};

use crate::gen_lines::pixel_count;
use crate::sending::write_capture;
use crate::stop::Stop;
use dpx_base::{Depth, Gate, MemSink, Workers, write_pixel};
use dpx_files::{GenPipe, frames_are_whole, frames_fit, gen_pixel, gen_shape};
use dpx_reception::captures_are_received;
use dpx_sink::{Received, Receiver, RecvEnd, a_capture_is_received};
use dpx_timing::{Plan, fit};
use std::alloc::Global;
use std::thread::Threads;

const HEADER: usize = 8;

/// The bytes of a pixel's record.
const RECORD: usize = 6;

/// Room for the lines of attributes of two frames.
const TEXT: usize = 512;

/// The plan of a number's frames.
pub(crate) fn plan_of(seed: u32) -> Plan
    ensures { result ≡ gen_plan seed }
{
    frames_fit();
    let (link, shape) = gen_shape(seed);
    match fit(&shape.mode, link, shape.unit, shape.frames) {
        Ok(plan) => plan,
        Err(_) => unreachable!(),
    }
}

/// The bytes of a plan's capture.
fn capture_size(plan: &Plan) -> u64
    ensures { result ≡ 8 + 2 * lanes_count plan.now.link.lanes * capture_clocks plan.now }
{
    let lanes = u64::from(plan.link().lanes.count());
    let clocks = plan.clocks() + 2 * (lanes - 1);
    HEADER as u64 + 2 * lanes * clocks
}

/// Sends a number's frames into memory. The pipe has all pixels and never fails, so what can be missing is memory.
pub(crate) fn sent_into_memory<G: Gate, R: Threads + Sync>(
    rt: &R,
    alloc: Global,
    seed: u32,
    plan: &Plan,
    workers: Workers,
    gate: &G,
) -> Result<MemSink, Stop>
    requires { plan.now ≡ gen_plan seed }
    ensures capture { IfOk result (λ sink. GoesRound seed sink.taken) }
    ensures memory { IfErr result (λ stop. stop ≡ Stop.NoMemory) }
{
    frames_fit();
    frames_are_whole();
    captures_are_received();
    let mut capture = MemSink::new(alloc, capture_size(plan) as usize, Vec::new(alloc))?;
    let mut pipe = GenPipe::new(seed);
    match write_capture(rt, alloc, plan, &mut pipe, &mut capture, workers, gate) {
        Ok(()) => Ok(capture),
        Err(stop) => Err(want_of_memory(stop)),
    }
}

/// Sending into memory stops for want of it: there is none, or what was taken is too little.
fn want_of_memory(stop: Stop) -> Stop
    requires { IsForMemory stop }
    ensures { result ≡ Stop.NoMemory }
{
    match stop {
        Stop::NoMemory | Stop::WriteFault => Stop::NoMemory,
        _ => unreachable!(),
    }
}

/// Receives a number's capture from memory: how much that is, and the records of its pixels.
pub(crate) fn received_back<G: Gate, R: Threads + Sync>(
    rt: &R,
    alloc: Global,
    seed: u32,
    plan: &Plan,
    capture: &[u8],
    workers: Workers,
    gate: &G,
) -> Result<(Received, MemSink), Stop>
    requires plan { plan.now ≡ gen_plan seed }
    requires round { GoesRound seed capture.now }
    ensures received { IfOk result (λ back. back.0 ≡ all_of (gen_plan seed)) }
    ensures records { IfOk result (λ back. back.1.taken ≡ pixel_records (gen_pixels seed)) }
    ensures memory { IfErr result (λ stop. stop ≡ Stop.NoMemory) }
{
    frames_fit();
    frames_are_whole();
    a_capture_is_received();
    let room = RECORD * pixel_count(plan) as usize;
    let mut receiver = Receiver::new(alloc, plan.link())?;
    let mut records = MemSink::new(alloc, room, Vec::new(alloc))?;
    let mut text = MemSink::new(alloc, TEXT, Vec::new(alloc))?;
    match receiver.feed(
        rt,
        &capture[HEADER..],
        workers,
        gate,
        &mut records,
        &mut text,
    ) {
        Ok(()) => match receiver.finish() {
            Ok(received) => Ok((received, records)),
            Err(_) => unreachable!(),
        },
        Err(end) => Err(want_of_room(end)),
    }
}

/// Receiving into memory stops where what was taken is too little.
fn want_of_room(end: RecvEnd) -> Stop
    requires { end ≡ RecvEnd.WriteFault }
    ensures { result ≡ Stop.NoMemory }
{
    match end {
        RecvEnd::WriteFault => Stop::NoMemory,
        _ => unreachable!(),
    }
}

/// How many of these records are those of a number's pixels, each at its place.
pub(crate) fn equal_pixels(seed: u32, depth: Depth, records: &[u8]) -> u64
    ensures { result ≡ equal_pixels seed depth records.now }
{
    let mut equal = 0;
    for number in 0..records.len() / RECORD {
        if is_equal_at(seed, depth, records, number) {
            equal += 1;
        }
    }
    equal
}

fn is_equal_at(seed: u32, depth: Depth, records: &[u8], number: usize) -> bool
    requires { 6 * number + 6 ≤ length records.now }
    ensures { result ≡ is_equal_at seed depth records.now number }
{
    let place = RECORD * number;
    let pixel = gen_pixel(seed, number as u64, depth);
    records[place..place + RECORD] == write_pixel(pixel)[..]
}
