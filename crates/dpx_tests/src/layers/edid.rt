//! I2C over AUX, and what a base block says.

ghost use Rattle.std.specs.Prelude.{◌<◌, ◌≤◌};
ghost use Rattle.dpx_edid.specs.I2c.{IsValid};

use dpx_edid::{EdidBad, I2c, I2cReply, encode_i2c, read_edid, read_i2c_reply};
use std::process::Abort;

mod fetch;
mod in_use;
mod timing;

/// The block of a display of 1920 × 1080 pixels, with nothing else in it. Its bytes sum to 0.
pub(crate) fn display() -> [u8; 128] {
    let mut block = [0; 128];
    block[..8].copy_from_slice(&[0x00, 0xff, 0xff, 0xff, 0xff, 0xff, 0xff, 0x00]);
    block[18] = 0x01;
    block[19] = 0x04;
    block[54..72].copy_from_slice(&timing::FULL_HD);
    block[127] = 0xe7;
    block
}

fn encodes(rt: &impl Abort, request: &I2c, bytes: &[u8])
    requires { IsValid request.now }
{
    assert_eq!(rt; encode_i2c(request).as_slice(), bytes);
}

#[test]
fn requests_have_their_bytes(rt: HostRuntime) {
    encodes(&rt, &I2c::Start, &[0x40, 0x00, 0x50, 0x00, 0x00]);
    for length in 1..17 {
        encodes(
            &rt,
            &I2c::Read {
                length,
                last: false,
            },
            &[0x50, 0x00, 0x50, length - 1],
        );
        encodes(
            &rt,
            &I2c::Read { length, last: true },
            &[0x10, 0x00, 0x50, length - 1],
        );
    }
}

/// What a reply says; an acknowledgement is to bring all behind its first byte.
#[derive(Clone, Copy, Debug, PartialEq, Eq)]
enum Says {
    Ack,
    Nack,
    Defer,
    Malformed,
}

/// The table of replies: to the start, to a read of 2 bytes, to the last read, of 2 bytes.
fn table(bytes: &[u8]) -> [Says; 3] {
    match bytes {
        [0x00] => [Says::Ack, Says::Malformed, Says::Malformed],
        [0x00, _] => [Says::Malformed, Says::Ack, Says::Malformed],
        [0x00, _, _] => [Says::Malformed, Says::Ack, Says::Ack],
        [0x10] | [0x40] => [Says::Nack, Says::Nack, Says::Nack],
        [0x20] | [0x80] => [Says::Defer, Says::Defer, Says::Defer],
        _ => [Says::Malformed, Says::Malformed, Says::Malformed],
    }
}

fn heard(rt: &impl Abort, request: &I2c, bytes: &[u8]) -> Says
    requires { IsValid request.now }
{
    match read_i2c_reply(request, bytes) {
        I2cReply::Ack(payload) => {
            assert_eq!(rt; Some(payload.as_slice()), bytes.get(1..), "{bytes:?}");
            Says::Ack
        }
        I2cReply::Nack => Says::Nack,
        I2cReply::Defer => Says::Defer,
        I2cReply::Malformed => Says::Malformed,
    }
}

fn reply_is_in_the_table(rt: &impl Abort, bytes: &[u8]) {
    let said = [
        heard(rt, &I2c::Start, bytes),
        heard(
            rt,
            &I2c::Read {
                length: 2,
                last: false,
            },
            bytes,
        ),
        heard(
            rt,
            &I2c::Read {
                length: 2,
                last: true,
            },
            bytes,
        ),
    ];
    assert_eq!(rt; said, table(bytes), "{bytes:?}");
}

#[test]
fn replies_of_up_to_three_bytes_say_what_their_table_says(rt: HostRuntime) {
    reply_is_in_the_table(&rt, &[]);
    for code in [0x00, 0x10, 0x20, 0x40, 0x80, 0xff] {
        reply_is_in_the_table(&rt, &[code]);
        for second in 0..=255 {
            reply_is_in_the_table(&rt, &[code, second]);
            for third in 0..=255 {
                reply_is_in_the_table(&rt, &[code, second, third]);
            }
        }
    }
}

#[test]
fn a_read_may_bring_fewer_bytes_and_the_last_one_may_not(rt: HostRuntime) {
    let reply = [0; 20];
    for length in 1..17 {
        for count in 0..20 {
            let bytes = &reply[..count];
            let fits = 2 <= count && count <= usize::from(length) + 1;
            let any = heard(
                &rt,
                &I2c::Read {
                    length,
                    last: false,
                },
                bytes,
            );
            assert_eq!(rt; any == Says::Ack, fits, "{length} {count}");
            let last = heard(&rt, &I2c::Read { length, last: true }, bytes);
            assert_eq!(rt;
                last == Says::Ack,
                count == usize::from(length) + 1,
                "{length} {count}"
            );
        }
    }
}

fn refused(rt: &impl Abort, block: &[u8; 128], bad: Option<EdidBad>) {
    assert_eq!(rt; read_edid(block).err(), bad);
}

#[test]
fn the_first_fault_of_a_block_is_named(rt: HostRuntime) {
    refused(&rt, &display(), None);
    // each byte of the header, with all behind it wrong too
    for place in 0..8u8 {
        let mut block = display();
        for later in usize::from(place)..8 {
            block[later] = 0x55;
        }
        block[18] = 2;
        refused(&rt, &block, Some(EdidBad::Header(place)));
    }
    let mut block = display();
    block[127] = 0x00;
    refused(&rt, &block, Some(EdidBad::Sum(0x19)));
    block[18] = 2;
    refused(&rt, &block, Some(EdidBad::Sum(0x1a)));
    block[127] = 0xe6;
    refused(&rt, &block, Some(EdidBad::Version(2)));
    block[18] = 0;
    block[127] = 0xe8;
    refused(&rt, &block, Some(EdidBad::Version(0)));
}

/// The block with these bytes of a timing from this place on.
fn with_timing(block: [u8; 128], start: usize, bytes: &[u8; 18]) -> [u8; 128]
    requires { start ≤ 110 }
{
    let mut changed = block;
    changed[start..start + 18].copy_from_slice(bytes);
    changed
}

/// The block with the last byte that makes its sum 0.
fn balanced(block: [u8; 128]) -> [u8; 128] {
    let mut sum = 0u8;
    for byte in block {
        sum = sum.wrapping_add(byte);
    }
    let mut changed = block;
    changed[127] = changed[127].wrapping_sub(sum);
    changed
}

#[test]
fn version_and_slots_are_those_of_their_bytes(rt: HostRuntime) {
    let interlaced = with_timing(display(), 72, &timing::INTERLACED);
    let block = balanced(with_timing(interlaced, 108, &timing::FULL_HD));
    let edid = read_edid(&block).ok().expect(&rt, "a block");
    assert_eq!(rt; (edid.version, edid.revision), (1, 4));
    let [first, second, third, fourth] = edid.slots;
    timing::slot_says(&rt, &first, timing::Says::Mode(timing::FULL_HD_SAYS));
    timing::slot_says(&rt, &second, timing::Says::Interlaced);
    timing::slot_says(&rt, &third, timing::Says::Other);
    timing::slot_says(&rt, &fourth, timing::Says::Mode(timing::FULL_HD_SAYS));
}
