ghost use Rattle.std.specs.Prelude.{◌≡◌, ◌<◌, ◌^◌};
ghost use Rattle.dpx_base.specs.Attributes.{attributes_bytes, misc0_of, three_bytes, two_bytes, with_polarity};

use dpx_base::{Depth, Link, Mode};

/// The attributes of a mode: four columns of nine bytes, one after the other.
#[tactic(auto, unfolding(dpx_base::specs::Attributes::attributes_bytes))]
pub fn attributes_bytes(mode: &Mode, link: Link) -> [u8; 36]
    ensures { result ≡ attributes_bytes mode.now link }
{
    let [m2, m1, m0] = three_bytes(mode.clock_khz());
    let [n2, n1, n0] = three_bytes(link.rate.clock_khz());
    let [ht1, ht0] = two_bytes(mode.htotal());
    let [vt1, vt0] = two_bytes(mode.vtotal());
    let [hs1, hs0] = two_bytes(mode.hstart());
    let [vs1, vs0] = two_bytes(mode.vstart());
    let [hw1, hw0] = two_bytes(with_polarity(mode.hsp(), mode.hsw()));
    let [vw1, vw0] = two_bytes(with_polarity(mode.vsp(), mode.vsw()));
    let [w1, w0] = two_bytes(mode.width());
    let [h1, h0] = two_bytes(mode.height());
    let misc0 = misc0_of(mode.depth());
    [
        m2, m1, m0, ht1, ht0, vt1, vt0, hw1, hw0, m2, m1, m0, hs1, hs0, vs1, vs0, vw1, vw0, m2, m1,
        m0, w1, w0, h1, h0, 0, 0, m2, m1, m0, n2, n1, n0, misc0, 0, 0,
    ]
}

fn two_bytes(number: u16) -> [u8; 2]
    ensures { result ≡ two_bytes number }
{
    [(number / 256) as u8, (number % 256) as u8]
}

fn three_bytes(number: u32) -> [u8; 3]
    requires { number < 2 ^ 24 }
    ensures { result ≡ three_bytes number }
{
    [
        (number / 65536) as u8,
        (number / 256 % 256) as u8,
        (number % 256) as u8,
    ]
}

// A sync width, with its polarity in bit 15.
fn with_polarity(polarity: bool, width: u16) -> u16
    requires { width < 32768 }
    ensures { result ≡ with_polarity polarity width }
{
    if polarity { width + 32768 } else { width }
}

fn misc0_of(depth: Depth) -> u8
    ensures { result ≡ misc0_of depth }
{
    match depth {
        Depth::Six => 0x01,
        Depth::Eight => 0x21,
        Depth::Ten => 0x41,
        Depth::Twelve => 0x61,
        Depth::Sixteen => 0x81,
    }
}
