ghost use Rattle.std.specs.Prelude.{◌≡◌, ◌≤◌, length};
ghost use Rattle.dpx_aux.specs.Request.{IsValid};
ghost use Rattle.dpx_aux.specs.Reply.{read_reply, acknowledged, nacked};

use crate::request::{Data16, Request};

/// What a reply says (VESA DisplayPort 1.4a, AUX reply commands).
#[derive(Drop)]
pub enum Reply {
    /// The request was carried out; a read's reply brings its bytes.
    Ack(Data16),
    /// The request was refused. Of a write, so many bytes were taken before.
    Nack(u8),
    /// The sink is not ready.
    Defer,
    Malformed,
}

const ACK: u8 = 0x00;

const NACK: u8 = 0x10;

const DEFER: u8 = 0x20;

/// What the bytes of a reply say to the request. That an acknowledged read brings exactly the bytes
/// asked for is this project's own rule.
pub fn read_reply(request: &Request, bytes: &[u8]) -> Reply
    requires { IsValid request.now }
    ensures { result ≡ read_reply request.now bytes.now }
{
    match bytes {
        [ACK, payload @ ..] => acknowledged(request, payload),
        [NACK, count @ ..] => nacked(request, count),
        [DEFER] => Reply::Defer,
        _ => Reply::Malformed,
    }
}

fn acknowledged(request: &Request, payload: &[u8]) -> Reply
    requires { IsValid request.now }
    ensures { result ≡ acknowledged request.now payload.now }
{
    let expected = match request {
        Request::Read { length, .. } => usize::from(*length),
        Request::Write { .. } => 0,
    };
    if payload.len() == expected {
        Reply::Ack(Data16::from_slice(payload))
    } else {
        Reply::Malformed
    }
}

fn nacked(request: &Request, count: &[u8]) -> Reply
    ensures { result ≡ nacked request.now count.now }
{
    match (request, count) {
        (_, []) => Reply::Nack(0),
        (Request::Write { bytes, .. }, [taken]) if usize::from(*taken) < bytes.as_slice().len() => {
            Reply::Nack(*taken)
        }
        _ => Reply::Malformed,
    }
}
