ghost use Rattle.std.specs.Prelude.{◌≡◌, ◌<◌, ◌≤◌, ◌^◌, true};
ghost use Rattle.dpx_base.specs.Mode.{depth_bits, IsLegal};
ghost use Rattle.dpx_base.specs.Unpacking.{InRange};
ghost use Rattle.dpx_files.specs.Generator.{smallest, vga, full_hd, ultra_hd, sample_of, gen_link, gen_shape};
ghost use Rattle.dpx_files.specs.Generator.{gen_component, gen_pixel};
ghost use Rattle.dpx_files.specs.Shape.{IsShape};

use crate::Shape;
use crate::mode_fields::legal_mode;
use dpx_base::{Depth, Lanes, Link, Mode, Pixel, Rate, RawMode};

/// What a number gives, but for its frames.
#[derive(Clone, Copy, Drop)]
pub(crate) struct Sample {
    link: Link,
    mode: Mode,
    unit: u8,
}

fn smallest() -> Sample
    ensures { result ≡ smallest }
{
    Sample {
        link: enhanced(Rate::Rbr, Lanes::Two),
        mode: legal_mode(RawMode {
            width: 16,
            height: 2,
            htotal: 28,
            vtotal: 4,
            hsw: 4,
            hstart: 8,
            vsw: 1,
            vstart: 2,
            hsp: false,
            vsp: false,
            clock_khz: 54_000,
            depth: Depth::Eight,
        }),
        unit: 32,
    }
}

fn vga() -> Sample
    ensures { result ≡ vga }
{
    Sample {
        link: enhanced(Rate::Rbr, Lanes::One),
        mode: legal_mode(RawMode {
            width: 640,
            height: 480,
            htotal: 800,
            vtotal: 525,
            hsw: 96,
            hstart: 144,
            vsw: 2,
            vstart: 35,
            hsp: false,
            vsp: false,
            clock_khz: 25_175,
            depth: Depth::Six,
        }),
        unit: 64,
    }
}

fn full_hd() -> Sample
    ensures { result ≡ full_hd }
{
    Sample {
        link: enhanced(Rate::Hbr, Lanes::Two),
        mode: legal_mode(RawMode {
            width: 1920,
            height: 1080,
            htotal: 2080,
            vtotal: 1111,
            hsw: 32,
            hstart: 112,
            vsw: 5,
            vstart: 28,
            hsp: false,
            vsp: false,
            clock_khz: 138_500,
            depth: Depth::Eight,
        }),
        unit: 64,
    }
}

fn ultra_hd() -> Sample
    ensures { result ≡ ultra_hd }
{
    Sample {
        link: enhanced(Rate::Hbr3, Lanes::Four),
        mode: legal_mode(RawMode {
            width: 3840,
            height: 2160,
            htotal: 4000,
            vtotal: 2222,
            hsw: 32,
            hstart: 112,
            vsw: 5,
            vstart: 59,
            hsp: false,
            vsp: false,
            clock_khz: 533_250,
            depth: Depth::Ten,
        }),
        unit: 64,
    }
}

fn enhanced(rate: Rate, lanes: Lanes) -> Link
    ensures { result ≡ record { rate = rate; lanes = lanes; enhanced = true } }
{
    Link {
        rate,
        lanes,
        enhanced: true,
    }
}

#[tactic(auto, unfolding(crate::specs::Generator::sample_of))]
fn sample_of(seed: u32) -> Sample
    ensures value { result ≡ sample_of seed }
    ensures legal { IsLegal result.mode }
    ensures unit { (32 ≤ result.unit) × (result.unit ≤ 64) }
{
    match seed % 4 {
        0 => smallest(),
        1 => vga(),
        2 => full_hd(),
        _ => ultra_hd(),
    }
}

/// The link of this number, and what is sent over it.
pub fn gen_shape(seed: u32) -> (Link, Shape)
    ensures link { result.0 ≡ gen_link seed }
    ensures shape { result.1 ≡ gen_shape seed }
    ensures range { IsShape result.1 }
{
    let sample = sample_of(seed);
    let shape = Shape {
        mode: sample.mode,
        frames: 1 + seed / 4 % 2,
        unit: sample.unit,
    };
    (sample.link, shape)
}

/// A pixel of this number's frames, counted from 0 over all of them.
pub fn gen_pixel(seed: u32, number: u64, depth: Depth) -> Pixel
    ensures value { result ≡ gen_pixel seed depth number }
    ensures range { InRange (depth_bits depth) result }
{
    Pixel {
        r: gen_component(seed, number, 0, depth),
        g: gen_component(seed, number, 1, depth),
        b: gen_component(seed, number, 2, depth),
    }
}

/// Only the low sixteen bits of each number count.
#[tactic(auto, unfolding(crate::specs::Generator::gen_component))]
fn gen_component(seed: u32, number: u64, place: u64, depth: Depth) -> u16
    requires { place ≤ 2 }
    ensures value { result ≡ gen_component seed depth number place }
    ensures range { result < 2 ^ depth_bits depth }
{
    let mixed = number % 65_536 * 40_503 + place * 25_717 + u64::from(seed) * 9_973;
    let whole = (mixed % 65_536) as u16;
    match depth {
        Depth::Six => whole / 1024,
        Depth::Eight => whole / 256,
        Depth::Ten => whole / 64,
        Depth::Twelve => whole / 16,
        Depth::Sixteen => whole,
    }
}
