ghost use Rattle.std.specs.Prelude.{◌≡◌, ◌*◌, ◌^◌, ◌<◌, ◌≤◌, ◌++◌, length, IfOk};
ghost use Rattle.dpx_aux.specs.declared.request.Request.{Request};
ghost use Rattle.dpx_aux.specs.Request.{IsValid, encode_request, read_request, header, address_of};

use arrayvec::ArrayVec;
use dpx_base::{BoundedList, Bytes20};

/// The bytes that one request brings, or that its reply brings.
pub type Data16 = BoundedList<u8, 0, 16>;

/// A native AUX request (VESA DisplayPort 1.4a, AUX transaction syntax). It is valid where it asks for
/// or brings 1 to 16 bytes that lie within the 20 bits of an address.
#[derive(Drop)]
pub enum Request {
    /// Asks for `length` bytes, from `address` on.
    Read { address: u32, length: u8 },
    /// Brings bytes for `address` and the addresses behind it.
    Write { address: u32, bytes: Data16 },
}

/// Why bytes are those of no valid request.
#[derive(Clone, Copy, Debug, PartialEq, Eq)]
pub enum AuxBad {
    /// So many bytes: fewer than four, or not the number that the length says, or the length is above
    /// sixteen.
    BadLength(usize),
    /// The first byte has neither command.
    BadCommand(u8),
    /// The bytes asked for or brought pass the last address.
    BadAddress(u32),
}

const WRITE: u8 = 8;

const READ: u8 = 9;

/// The bytes of the request on the AUX channel: command and address in three, the length less one, and
/// what a write brings.
pub fn encode_request(request: &Request) -> Bytes20
    requires { IsValid request.now }
    ensures { result ≡ encode_request request.now }
{
    match request {
        Request::Read { address, length } => encode(READ, *address, *length, &[]),
        Request::Write { address, bytes } => {
            let payload = bytes.as_slice();
            encode(WRITE, *address, payload.len() as u8, payload)
        }
    }
}

fn encode(command: u8, address: u32, count: u8, payload: &[u8]) -> Bytes20
    requires command { command < 16 }
    requires address { address < 2 ^ 20 }
    requires some { 0 < count }
    requires few { length payload.now ≤ 16 }
    ensures { result ≡ header command address count ++ payload.now }
{
    let mut bytes = ArrayVec::<u8, 20>::new();
    bytes.push(command * 16 + (address / 0x1_0000) as u8);
    bytes.push((address / 0x100 % 0x100) as u8);
    bytes.push((address % 0x100) as u8);
    bytes.push(count - 1);
    bytes.try_extend_from_slice(payload).unwrap();
    Bytes20::from_slice(bytes.as_slice())
}

/// The request that the bytes stand for. A refusal names the first fault: fewer than four bytes; the
/// command; the length; the address.
pub fn read_request(bytes: &[u8]) -> Result<Request, AuxBad>
    ensures exact { result ≡ read_request bytes.now }
    ensures valid { IfOk result IsValid }
    ensures reads { IfOk result (λ request. bytes.now ≡ encode_request request) }
    ensures all { (request : Request) → IsValid request → bytes.now ≡ encode_request request → result ≡ Ok request }
{
    let [first, middle, low, last, payload @ ..] = bytes else {
        return Err(AuxBad::BadLength(bytes.len()));
    };
    let command = first / 16;
    if command != WRITE && command != READ {
        return Err(AuxBad::BadCommand(*first));
    }
    let expected = if command == READ {
        0
    } else {
        usize::from(*last) + 1
    };
    if *last > 0x0f || payload.len() != expected {
        return Err(AuxBad::BadLength(bytes.len()));
    }
    let address = u32::from(first % 16) * 0x1_0000 + u32::from(*middle) * 0x100 + u32::from(*low);
    let length = last + 1;
    if address + u32::from(length) > 0x10_0000 {
        return Err(AuxBad::BadAddress(address));
    }
    if command == READ {
        Ok(Request::Read { address, length })
    } else {
        Ok(Request::Write {
            address,
            bytes: Data16::from_slice(payload),
        })
    }
}

/// The address that the request begins at.
pub(crate) fn address_of(request: &Request) -> u32
    ensures { result ≡ address_of request.now }
{
    match request {
        Request::Read { address, .. } | Request::Write { address, .. } => *address,
    }
}
