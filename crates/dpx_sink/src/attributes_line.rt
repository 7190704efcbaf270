ghost use Rattle.std.specs.Prelude.{◌≡◌, ◌≤◌, ◌<◌, ◌+◌, ◌*◌, ◌++◌, OnOk, OnErr, length, codes};
ghost use Rattle.std.specs.Fmt.{decimal};
ghost use Rattle.std.specs.Io.KnownBytes.{Appends};
ghost use Rattle.arrayvec.specs.ArrayVec.{array_vec_len};
ghost use Rattle.dpx_base.specs.Faults.{HasCause};
ghost use Rattle.dpx_base.specs.Mode.{depth_bits};
ghost use Rattle.dpx_base.specs.Transfer.{AppendsFront};
ghost use Rattle.dpx_reception.specs.Digits.{hex_digit, hex_byte};
ghost use Rattle.dpx_reception.specs.Due.{attributes_line, bit};

use arrayvec::ArrayVec;
use dpx_base::{Failed, Sink, write_whole};
use dpx_msa::Attributes;
use itoa::Buffer;

/// Room for the words of a line and for numbers of 32 bits between them.
type LineText = ArrayVec<u8, 256>;

fn push(line: &mut LineText, text: &[u8])
    requires { array_vec_len line.old + length text.now ≤ 256 }
    ensures items { line.new.items ≡ line.old.items ++ text.now }
    ensures len { array_vec_len line.new ≡ array_vec_len line.old + length text.now }
{
    for byte in text {
        line.push(*byte);
    }
}

/// A word, and a number behind it.
#[tactic(auto, using(crate::proofs::Texts::short))]
fn push_number(line: &mut LineText, word: &str, number: u32)
    requires { array_vec_len line.old + length word.now + 10 ≤ 256 }
    ensures items { line.new.items ≡ line.old.items ++ (word.now ++ decimal number) }
    ensures len { array_vec_len line.new ≤ array_vec_len line.old + length word.now + 10 }
{
    push(line, word.as_bytes());
    push(line, Buffer::new().format(number).as_bytes());
}

#[tactic(auto, unfolding(dpx_reception::specs::Digits::hex_digit))]
fn push_digit(line: &mut LineText, digit: u8)
    requires digit { digit < 16 }
    requires room { array_vec_len line.old + 1 ≤ 256 }
    ensures items { line.new.items ≡ line.old.items ++ hex_digit digit }
    ensures len { array_vec_len line.new ≡ array_vec_len line.old + 1 }
{
    let glyph = if digit < 10 {
        b'0' + digit
    } else {
        b'A' - 10 + digit
    };
    line.push(glyph);
}

/// A byte's two digits, in upper case.
#[tactic(auto, unfolding(dpx_reception::specs::Digits::hex_byte))]
fn push_byte(line: &mut LineText, byte: u8)
    requires { array_vec_len line.old + 2 ≤ 256 }
    ensures items { line.new.items ≡ line.old.items ++ hex_byte byte }
    ensures len { array_vec_len line.new ≡ array_vec_len line.old + 2 }
{
    push_digit(line, byte / 16);
    push_digit(line, byte % 16);
}

fn bit(b: bool) -> u32
    ensures { result ≡ bit b }
{
    u32::from(b)
}

/// The line that tells attributes.
fn attributes_line(a: &Attributes) -> LineText
    ensures { result.items ≡ attributes_line a.now }
{
    let mut line = ArrayVec::new();
    push_number(&mut line, "attributes width ", a.width as u32);
    push_number(&mut line, " height ", a.height as u32);
    push_number(&mut line, " total ", a.htotal as u32);
    push_number(&mut line, " ", a.vtotal as u32);
    push_number(&mut line, " start ", a.hstart as u32);
    push_number(&mut line, " ", a.vstart as u32);
    push_number(&mut line, " sync ", a.hsw as u32);
    push_number(&mut line, " ", a.vsw as u32);
    push_number(&mut line, " polarity ", bit(a.hsp));
    push_number(&mut line, " ", bit(a.vsp));
    push_number(&mut line, " mvid ", a.mvid);
    push_number(&mut line, " nvid ", a.nvid);
    push(&mut line, b" misc0 ");
    push_byte(&mut line, a.misc0);
    push_number(&mut line, " depth ", a.depth.bits() as u32);
    push(&mut line, b"\n");
    line
}

/// Writes the line. It stays a call, so that only attributes pay for the room of its text.
#[inline(never)]
pub(crate) fn write_attributes<O: Sink>(log: &mut O, a: &Attributes) -> Result<(), Failed>
    ensures whole { OnOk result (Appends (O.seen log.old).taken (O.seen log.new).taken (attributes_line a.now)) }
    ensures front { OnErr result (AppendsFront (O.seen log.old).taken (O.seen log.new).taken (attributes_line a.now)) }
    ensures cause { HasCause (O.seen log.old).faults (O.seen log.new).faults result }
{
    write_whole(log, attributes_line(a).as_slice())
}
