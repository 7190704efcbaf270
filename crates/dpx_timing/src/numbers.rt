ghost use Rattle.std.specs.Prelude.{◌≡◌, ◌≤◌, ◌<◌, ◌+◌, ◌-◌, ◌*◌, ◌^◌};
ghost use Rattle.dpx_base.specs.Timing.{IsFit, n, m, symbols, symbols_of, unit_of, carried, delay, due, last_unit};
ghost use Rattle.dpx_base.specs.Timing.{line_end, gap, bound};
ghost use Rattle.dpx_base.specs.Plan.{timing_of, group_length, block_length};
ghost use Rattle.dpx_base.specs.Lanes.{lanes_count};
ghost use Rattle.dpx_base.specs.Mode.{IsLegal, pixel_bits};
ghost use Rattle.dpx_timing.specs.Numbers.{timing_in, clocks_of, IsSmall};

use crate::division::{ceil, floor};
use dpx_base::{Depth, Lanes, Link, Mode};

/// A line of a legal mode on a link, in numbers that are wide enough for every product.
#[derive(Clone, Copy, Drop)]
pub(crate) struct Numbers {
    width: u128,
    htotal: u128,
    pixel_clock: u128,
    symbol_clock: u128,
    lanes: u128,
    pub(crate) unit: u128,
    bits: u128,
}

/// The bits of a pixel.
fn pixel_bits(depth: Depth) -> u128
    ensures value { result ≡ pixel_bits depth }
    ensures few { result ≤ 48 }
{
    3 * u128::from(depth.bits())
}

/// The symbols on each lane of a line of `width` pixels: the last pixels' lanes are filled up, and the last byte.
pub fn symbols(width: u16, depth: Depth, lanes: Lanes) -> u32
    ensures { result ≡ symbols_of width (lanes_count lanes) (pixel_bits depth) }
{
    let groups = ceil(u128::from(width), u128::from(lanes.count()));
    ceil(groups * pixel_bits(depth), 8) as u32
}

impl Numbers {
    pub(crate) fn new(mode: &Mode, link: Link, unit: u8) -> Numbers
        requires { (32 ≤ unit) × (unit ≤ 64) }
        ensures value { timing_in result ≡ timing_of mode.now link unit }
        ensures small { IsSmall (timing_in result) }
        ensures legal { IsLegal mode.now }
    {
        Numbers {
            width: u128::from(mode.width()),
            htotal: u128::from(mode.htotal()),
            pixel_clock: u128::from(mode.clock_khz()),
            symbol_clock: u128::from(link.rate.clock_khz()),
            lanes: u128::from(link.lanes.count()),
            unit: u128::from(unit),
            bits: pixel_bits(mode.depth()),
        }
    }

    #[tactic(auto, unfolding(dpx_base::specs::Timing::n))]
    pub(crate) fn n(self) -> u128
        requires { IsSmall (timing_in self) }
        ensures value { result ≡ n (timing_in self) }
        ensures small { result ≤ 1440000 * 48 }
        ensures some { 0 < result }
    {
        self.pixel_clock * self.bits
    }

    #[tactic(auto, unfolding(dpx_base::specs::Timing::m))]
    pub(crate) fn m(self) -> u128
        requires { IsSmall (timing_in self) }
        ensures value { result ≡ m (timing_in self) }
        ensures small { result ≤ 8 * 4 * 810000 }
        ensures some { 0 < result }
    {
        8 * self.lanes * self.symbol_clock
    }

    #[tactic(auto, unfolding(dpx_base::specs::Timing::symbols))]
    pub(crate) fn symbols(self) -> u128
        requires { IsSmall (timing_in self) }
        ensures value { result ≡ symbols (timing_in self) }
        ensures small { result ≤ 8192 * 48 }
        ensures some { 0 < result }
    {
        ceil(ceil(self.width, self.lanes) * self.bits, 8)
    }

    /// The unit that carries a symbol.
    #[tactic(auto, unfolding(dpx_base::specs::Timing::unit_of))]
    fn unit_of(self, symbol: u128) -> u128
        requires small { IsSmall (timing_in self) }
        requires symbol { symbol ≤ 8192 * 48 }
        ensures value { result ≡ unit_of (timing_in self) symbol }
    {
        floor((symbol + 1) * self.m() - 1, self.unit * self.n())
    }

    /// The symbols that so many units carry.
    #[tactic(auto, unfolding(dpx_base::specs::Timing::carried))]
    fn carried(self, units: u128) -> u128
        requires small { IsSmall (timing_in self) }
        requires units { units ≤ 8192 * 48 }
        ensures value { result ≡ carried (timing_in self) units }
        ensures few { result ≤ symbols (timing_in self) }
    {
        self.symbols()
            .min(floor(units * self.unit * self.n(), self.m()))
    }

    #[tactic(auto, unfolding(dpx_base::specs::Timing::delay))]
    pub(crate) fn delay(self) -> u128
        requires small { IsSmall (timing_in self) }
        requires not_too_fast { n (timing_in self) ≤ m (timing_in self) }
        requires not_too_slow { m (timing_in self) ≤ self.unit * n (timing_in self) }
        ensures value { result ≡ delay (timing_in self) }
        ensures small { result ≤ 1024 }
    {
        let n = self.n();
        let m = self.m();
        1 + self.unit - floor(self.unit * n, m) + ceil((self.bits + 8) * m, 8 * n)
    }

    /// The clock in which a line's first pixel is due.
    #[tactic(auto, unfolding(dpx_base::specs::Timing::due, dpx_base::specs::Timing::first_tick))]
    fn due(self, line: u128) -> u128
        requires small { IsSmall (timing_in self) }
        requires line { line ≤ 65535 * 65535 }
        requires not_too_slow { m (timing_in self) ≤ self.unit * n (timing_in self) }
        ensures value { result ≡ due (timing_in self) line }
        ensures small { result ≤ 2 ^ 57 }
    {
        let first = line * self.htotal + (self.htotal - self.width);
        floor(first * self.symbol_clock, self.pixel_clock)
    }

    /// The last unit of a line that carries a symbol.
    #[tactic(auto, unfolding(dpx_base::specs::Timing::last_unit))]
    fn last_unit(self) -> u128
        requires small { IsSmall (timing_in self) }
        requires not_too_slow { m (timing_in self) ≤ self.unit * n (timing_in self) }
        ensures value { result ≡ last_unit (timing_in self) }
        ensures few { result < 8192 * 48 }
    {
        self.unit_of(self.symbols() - 1)
    }

    #[tactic(auto, unfolding(dpx_base::specs::Timing::line_end))]
    pub(crate) fn line_end(self) -> u128
        requires small { IsSmall (timing_in self) }
        requires not_too_slow { m (timing_in self) ≤ self.unit * n (timing_in self) }
        ensures value { result ≡ line_end (timing_in self) }
        ensures small { result ≤ 2 ^ 32 }
    {
        let last = self.last_unit();
        last * self.unit + self.symbols() - self.carried(last)
    }

    #[tactic(auto, unfolding(dpx_base::specs::Timing::gap))]
    pub(crate) fn gap(self) -> u128
        requires small { IsSmall (timing_in self) }
        requires not_too_slow { m (timing_in self) ≤ self.unit * n (timing_in self) }
        ensures value { result ≡ gap (timing_in self) }
        ensures small { result ≤ 2 ^ 32 }
    {
        floor(self.htotal * self.symbol_clock, self.pixel_clock)
    }

    #[tactic(auto, unfolding(dpx_base::specs::Timing::bound))]
    pub(crate) fn bound(self) -> u128
        requires { IsSmall (timing_in self) }
        ensures value { result ≡ bound (timing_in self) }
        ensures small { result ≤ 34 }
    {
        floor(self.unit + self.bits, 4) + 6
    }

    /// All clocks of so many lines.
    #[tactic(auto, unfolding(dpx_base::specs::Timing::start))]
    pub(crate) fn clocks(self, lines: u128, link: Link) -> u128
        requires small { IsSmall (timing_in self) }
        requires lines { (1 ≤ lines) × (lines ≤ 65535 * 65535) }
        requires fits { IsFit (timing_in self) }
        ensures value { result ≡ clocks_of (timing_in self) link lines }
        ensures small { result < 2 ^ 58 }
    {
        let start = self.due(lines - 1) + self.delay();
        start + self.line_end() + group_length(link) + block_length(link)
    }
}

/// Clocks of a header's group.
fn group_length(link: Link) -> u128
    ensures value { result ≡ group_length link }
    ensures small { result ≤ 4 }
{
    if link.enhanced { 4 } else { 1 }
}

/// Clocks of a VB-ID block.
fn block_length(link: Link) -> u128
    ensures value { result ≡ block_length link }
    ensures small { result ≤ 12 }
{
    match link.lanes {
        Lanes::One => 12,
        Lanes::Two => 6,
        Lanes::Four => 3,
    }
}
