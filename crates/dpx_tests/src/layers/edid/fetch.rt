//! Fetches of a base block, from devices of several kinds.

ghost use Rattle.std.specs.Prelude.{◌≡◌, ◌≤◌, length};

use super::display;
use dpx_aux::LastAnswer;
use dpx_base::{Answer, AuxPort, Bytes20};
use dpx_edid::{I2cEnd, fetch_edid};
use std::process::Abort;

/// A device with a block. It brings at most so many bytes to a read that is not the last, and answers each request only
/// behind so many deferrals.
#[derive(Drop)]
struct Device {
    block: [u8; 128],
    place: usize,
    most: usize,
    defers: u8,
    asked: u64,
}

fn reply(bytes: &[u8]) -> Answer
    requires { length bytes.now ≤ 20 }
{
    Answer::Bytes(Bytes20::from_slice(bytes))
}

impl Device {
    /// The next bytes of the block.
    fn bring(&mut self, count: usize) -> Answer
        ensures { self.new.asked ≡ self.old.asked }
    {
        if count > 16 || self.place > 128 - count {
            return Answer::Silent;
        }
        let mut bytes = [0; 17];
        bytes[1..count + 1].copy_from_slice(&self.block[self.place..self.place + count]);
        self.place += count;
        reply(&bytes[..count + 1])
    }
}

impl AuxPort for Device {
    ghost use Rattle.std.specs.Prelude.{None};

    type Plan = ();

    ghost state = { λ p. record { asked = p.asked; history = None; plan = None; room = 0; asked_in_all = p.asked } };

    fn ask(&mut self, request: &[u8]) -> Answer {
        self.asked += 1;
        if self.asked % (u64::from(self.defers) + 1) != 0 {
            return reply(&[0x20]);
        }
        match request {
            [0x40, 0x00, 0x50, 0x00, 0x00] => {
                self.place = 0;
                reply(&[0x00])
            }
            [0x50, 0x00, 0x50, less] => self.bring(self.most.min(usize::from(*less) + 1)),
            [0x10, 0x00, 0x50, less] => self.bring(usize::from(*less) + 1),
            _ => Answer::Silent,
        }
    }

    fn wait(&mut self, _micros: u32) {}

    fn asked(&self) -> u64 {
        self.asked
    }
}

/// The display's block is fetched from such a device by so many requests.
fn fetches(rt: &impl Abort, most: usize, defers: u8, requests: u32) {
    let mut device = Device {
        block: display(),
        place: 99,
        most,
        defers,
        asked: 0,
    };
    let fetched = fetch_edid(&mut device).ok().expect(rt, "a block");
    assert_eq!(rt; fetched.block, display());
    assert_eq!(rt; fetched.requests, requests, "{most} {defers}");
    assert_eq!(rt; device.asked(), u64::from(requests));
}

#[test]
fn short_reads_of_each_length_fetch_the_block(rt: HostRuntime) {
    // a start, the reads while more than sixteen bytes are missing, the last read
    let requests = [
        114, 58, 40, 30, 25, 21, 18, 16, 15, 14, 13, 12, 11, 10, 10, 9,
    ];
    for most in 1..17 {
        fetches(&rt, most, 0, requests[most - 1]);
    }
    // nothing is asked for more often than by a device that is slow throughout
    fetches(&rt, 1, 7, 912);
    fetches(&rt, 16, 7, 72);
}

/// Gives its answers in their order, and is silent behind them; an answer of no bytes is silence too.
#[derive(Drop)]
struct Script<'a> {
    answers: &'a [&'a [u8]],
    asked: u64,
}

impl AuxPort for Script<'_> {
    ghost use Rattle.std.specs.Prelude.{None};

    type Plan = ();

    ghost state = { λ p. record { asked = p.asked; history = None; plan = None; room = 0; asked_in_all = p.asked } };

    fn ask(&mut self, _request: &[u8]) -> Answer {
        self.asked += 1;
        let [first, rest @ ..] = self.answers else {
            return Answer::Silent;
        };
        self.answers = rest;
        if first.is_empty() || first.len() > 20 {
            return Answer::Silent;
        }
        Answer::Bytes(Bytes20::from_slice(first))
    }

    fn wait(&mut self, _micros: u32) {}

    fn asked(&self) -> u64 {
        self.asked
    }
}

/// A fetch with these answers fails so, after so many requests.
fn fails(rt: &impl Abort, answers: &[&[u8]], why: I2cEnd, requests: u32) {
    let mut port = Script {
        answers: &*answers,
        asked: 0,
    };
    let end = fetch_edid(&mut port).err().expect(rt, "a failure");
    assert_eq!(rt; (end.why, end.requests), (why, requests), "{answers:?}");
    assert_eq!(rt; port.asked(), u64::from(requests));
}

#[test]
fn a_fetch_ends_at_a_refusal_or_after_eight_answers_in_vain(rt: HostRuntime) {
    const ACK: &[u8] = &[0x00];
    const D: &[u8] = &[0x20];
    const W: &[u8] = &[0x80];
    const FULL: &[u8] = &[0x00, 0, 1, 2, 3, 4, 5, 6, 7, 8, 9, 10, 11, 12, 13, 14, 15];
    const SHORT: &[u8] = &[0x00, 0, 1, 2, 3, 4, 5, 6, 7, 8, 9, 10, 11, 12, 13, 14];
    let silent = I2cEnd::Spent(LastAnswer::Silent);
    let defer = I2cEnd::Spent(LastAnswer::Defer);
    let malformed = I2cEnd::Spent(LastAnswer::Malformed);
    fails(&rt, &[&[0x40]], I2cEnd::Refused, 1);
    fails(&rt, &[&[0x10]], I2cEnd::Refused, 1);
    fails(&rt, &[], silent, 8);
    fails(&rt, &[D, W, D, W, D, W, D, &[0x40]], I2cEnd::Refused, 8);
    fails(&rt, &[D, W, D, W, D, W, D, W, ACK], defer, 8);
    fails(&rt, &[D, D, D, D, D, D, D, FULL, ACK], malformed, 8);
    fails(&rt, &[ACK, FULL, D, &[0x10]], I2cEnd::Refused, 4);
    fails(
        &rt,
        &[ACK, ACK, ACK, ACK, ACK, ACK, ACK, ACK, ACK],
        malformed,
        9,
    );
    // the last read takes no fewer bytes than it asks for
    fails(
        &rt,
        &[
            ACK, FULL, FULL, FULL, FULL, FULL, FULL, FULL, SHORT, SHORT, SHORT, SHORT, SHORT,
            SHORT, SHORT, SHORT,
        ],
        malformed,
        16,
    );
}
