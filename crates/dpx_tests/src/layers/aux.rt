ghost use Rattle.std.specs.Prelude.{◌+◌, ◌^◌, ◌≤◌, length};
ghost use Rattle.dpx_aux.specs.Request.{IsValid};

use dpx_aux::{
    AuxBad, AuxEnd, Data16, LastAnswer, Reply, Request, encode_request, read_reply, read_request,
    transact,
};
use dpx_base::{Answer, AuxPort, Bytes20};
use std::process::Abort;
use std::test::Fail;

fn read(address: u32, length: u8) -> Request
    requires some { 1 ≤ length }
    requires few { length ≤ 16 }
    requires within { address + length ≤ 2 ^ 20 }
    ensures { IsValid result }
{
    Request::Read { address, length }
}

fn write(address: u32, bytes: &[u8]) -> Request
    requires some { 1 ≤ length bytes.now }
    requires few { length bytes.now ≤ 16 }
    requires within { address + length bytes.now ≤ 2 ^ 20 }
    ensures { IsValid result }
{
    Request::Write {
        address,
        bytes: Data16::from_slice(bytes),
    }
}

fn encodes(rt: &impl Abort, request: &Request, bytes: &[u8]) -> Result<(), Fail>
    requires { IsValid request.now }
{
    assert_eq!(rt; encode_request(request).as_slice(), bytes);
    let again = read_request(bytes)?;
    assert_eq!(rt; encode_request(&again).as_slice(), bytes);
    Ok(())
}

#[test]
fn requests_have_their_bytes_and_are_read_back(rt: HostRuntime) -> Result<(), Fail> {
    encodes(&rt, &read(0x0_0000, 16), &[0x90, 0x00, 0x00, 0x0f])?;
    encodes(&rt, &read(0xf_edc9, 1), &[0x9f, 0xed, 0xc9, 0x00])?;
    encodes(
        &rt,
        &write(0x0_0600, &[0x01]),
        &[0x80, 0x06, 0x00, 0x00, 0x01],
    )?;
    encodes(
        &rt,
        &write(0x0_0102, &[0x21, 0, 0, 0, 0]),
        &[0x80, 0x01, 0x02, 0x04, 0x21, 0, 0, 0, 0],
    )
}

#[test]
fn bytes_of_no_request_are_refused_by_their_first_fault(rt: HostRuntime) {
    let seventeen = [
        0x80, 0, 0, 0x10, 0, 1, 2, 3, 4, 5, 6, 7, 8, 9, 10, 11, 12, 13, 14, 15, 16,
    ];
    let rows: [(&[u8], Option<AuxBad>); 20] = [
        // fewer than four bytes, whatever they are
        (&[], Some(AuxBad::BadLength(0))),
        (&[0x70, 0xff, 0xff], Some(AuxBad::BadLength(3))),
        // neither command, whatever stands behind
        (&[0x00, 0x00, 0x00, 0x0f], Some(AuxBad::BadCommand(0x00))),
        (&[0x7f, 0xff, 0xff, 0xff], Some(AuxBad::BadCommand(0x7f))),
        (
            &[0xa0, 0x00, 0x00, 0x00, 0x00],
            Some(AuxBad::BadCommand(0xa0)),
        ),
        // a length of more than sixteen, or another one than the length says
        (&[0x90, 0x00, 0x00, 0x10], Some(AuxBad::BadLength(4))),
        (&[0x90, 0x00, 0x00, 0x00, 0x00], Some(AuxBad::BadLength(5))),
        (&[0x80, 0x00, 0x00, 0x00], Some(AuxBad::BadLength(4))),
        (&[0x80, 0x00, 0x00, 0x01, 0xaa], Some(AuxBad::BadLength(5))),
        (
            &[0x80, 0x00, 0x00, 0x00, 0xaa, 0xbb],
            Some(AuxBad::BadLength(6)),
        ),
        (&seventeen, Some(AuxBad::BadLength(21))),
        // also where the addresses pass the last one
        (&[0x9f, 0xff, 0xff, 0xff], Some(AuxBad::BadLength(4))),
        (&[0x8f, 0xff, 0xff, 0x01, 0xaa], Some(AuxBad::BadLength(5))),
        // the last address, and one further
        (&[0x9f, 0xff, 0xff, 0x00], None),
        (
            &[0x9f, 0xff, 0xff, 0x01],
            Some(AuxBad::BadAddress(0xf_ffff)),
        ),
        (&[0x9f, 0xff, 0xf0, 0x0f], None),
        (
            &[0x9f, 0xff, 0xf1, 0x0f],
            Some(AuxBad::BadAddress(0xf_fff1)),
        ),
        (&[0x8f, 0xff, 0xff, 0x00, 0xaa], None),
        (&[0x8f, 0xff, 0xfe, 0x01, 0xaa, 0xbb], None),
        (
            &[0x8f, 0xff, 0xff, 0x01, 0xaa, 0xbb],
            Some(AuxBad::BadAddress(0xf_ffff)),
        ),
    ];
    for (bytes, bad) in rows {
        assert_eq!(rt; read_request(bytes).err(), bad, "{bytes:?}");
    }
}

/// What a reply says; an acknowledgement is to bring all behind its first byte.
#[derive(Clone, Copy, Debug, PartialEq, Eq)]
enum Says {
    Ack,
    Nack(u8),
    Defer,
    Malformed,
}

/// The table of replies: to a read of 1 byte, to a read of 2, to a write of 2.
fn table(bytes: &[u8]) -> [Says; 3] {
    match bytes {
        [0x00] => [Says::Malformed, Says::Malformed, Says::Ack],
        [0x00, _] => [Says::Ack, Says::Malformed, Says::Malformed],
        [0x00, _, _] => [Says::Malformed, Says::Ack, Says::Malformed],
        [0x10] => [Says::Nack(0), Says::Nack(0), Says::Nack(0)],
        [0x10, 0] => [Says::Malformed, Says::Malformed, Says::Nack(0)],
        [0x10, 1] => [Says::Malformed, Says::Malformed, Says::Nack(1)],
        [0x20] => [Says::Defer, Says::Defer, Says::Defer],
        _ => [Says::Malformed, Says::Malformed, Says::Malformed],
    }
}

fn heard(rt: &impl Abort, request: &Request, bytes: &[u8]) -> Says
    requires { IsValid request.now }
{
    match read_reply(request, bytes) {
        Reply::Ack(payload) => {
            assert_eq!(rt; Some(payload.as_slice()), bytes.get(1..), "{bytes:?}");
            Says::Ack
        }
        Reply::Nack(taken) => Says::Nack(taken),
        Reply::Defer => Says::Defer,
        Reply::Malformed => Says::Malformed,
    }
}

fn reply_is_in_the_table(rt: &impl Abort, bytes: &[u8]) {
    let said = [
        heard(rt, &read(0, 1), bytes),
        heard(rt, &read(0, 2), bytes),
        heard(rt, &write(0, &[0xaa, 0xbb]), bytes),
    ];
    assert_eq!(rt; said, table(bytes), "{bytes:?}");
}

#[test]
fn short_replies_say_what_their_table_says(rt: HostRuntime) {
    reply_is_in_the_table(&rt, &[]);
    for code in [0x00, 0x10, 0x20, 0x30, 0x40, 0x80, 0xff] {
        reply_is_in_the_table(&rt, &[code]);
        for second in [0x00, 0x01, 0x02, 0x03, 0x10, 0x20, 0xff] {
            reply_is_in_the_table(&rt, &[code, second]);
            for third in [0x00, 0x01, 0x20] {
                reply_is_in_the_table(&rt, &[code, second, third]);
            }
        }
    }
}

/// Gives its answers in their order, and is silent behind them. Each ask has to have the same bytes.
#[derive(Drop)]
struct Script<'a> {
    answers: &'a [&'a [u8]],
    request: &'a [u8],
    same: bool,
    asked: u64,
}

impl AuxPort for Script<'_> {
    ghost use Rattle.std.specs.Prelude.{None};

    type Plan = ();

    ghost state = { λ p. record { asked = p.asked; history = None; plan = None; room = 0; asked_in_all = p.asked } };

    fn ask(&mut self, request: &[u8]) -> Answer {
        self.asked += 1;
        self.same = self.same && request == self.request;
        match self.answers {
            [first, rest @ ..] if first.len() <= 20 => {
                self.answers = rest;
                Answer::Bytes(Bytes20::from_slice(first))
            }
            _ => Answer::Silent,
        }
    }

    fn wait(&mut self, _micros: u32) {}

    fn asked(&self) -> u64 {
        self.asked
    }
}

/// The transaction of the request ends so, after so many asks.
fn ends(
    rt: &impl Abort,
    request: &Request,
    answers: &[&[u8]],
    end: Result<&[u8], AuxEnd>,
    asks: u64,
) -> Result<(), Fail>
    requires { IsValid request.now }
{
    let bytes = encode_request(request);
    let mut port = Script {
        answers,
        request: bytes.as_slice(),
        same: true,
        asked: 0,
    };
    match (transact(&mut port, request), end) {
        (Ok(brought), Ok(bytes)) => assert_eq!(rt; brought.as_slice(), bytes),
        (Err(given), Err(end)) => assert_eq!(rt; given, end),
        _ => return Err(Fail::new("the transaction ended otherwise")),
    }
    assert!(rt; port.same);
    assert_eq!(rt; port.asked(), asks);
    Ok(())
}

#[test]
fn transactions_end_by_an_answer_or_after_eight(rt: HostRuntime) -> Result<(), Fail> {
    const D: &[u8] = &[0x20];
    const ACK: &[u8] = &[0x00];
    let power = write(0x0_0600, &[0x01]);
    ends(&rt, &power, &[D, D, D, D, D, D, D, ACK], Ok(&[]), 8)?;
    let spent = |last| Err(AuxEnd::Spent {
        address: 0x0_0600,
        last,
    });
    ends(
        &rt,
        &power,
        &[D, D, D, D, D, D, D, D, ACK],
        spent(LastAnswer::Defer),
        8,
    )?;
    ends(
        &rt,
        &power,
        &[D, D, D, D, D, D, D, &[0x30]],
        spent(LastAnswer::Malformed),
        8,
    )?;
    let refused = Err(AuxEnd::Refused {
        address: 0x0_0107,
        taken: 1,
    });
    ends(
        &rt,
        &write(0x0_0107, &[0x00, 0x01]),
        &[D, &[0x10, 0x01], ACK],
        refused,
        2,
    )?;
    // a read of sixteen: refused, or answered by one byte
    let refused = Err(AuxEnd::Refused {
        address: 0,
        taken: 0,
    });
    ends(&rt, &read(0, 16), &[&[0x10]], refused, 1)?;
    let silent = Err(AuxEnd::Spent {
        address: 0,
        last: LastAnswer::Silent,
    });
    ends(&rt, &read(0, 16), &[&[0x00, 0x12]], silent, 8)?;
    ends(
        &rt,
        &read(0x0_0202, 2),
        &[&[0x00, 0x12], &[0x00, 0x34, 0x56]],
        Ok(&[0x34, 0x56]),
        2,
    )
}
