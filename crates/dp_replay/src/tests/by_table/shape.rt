//! Frames and the numbers of their plan, each by its formula. A sum or product past 64 bits, which no shape here has,
//! stops at their end.

use super::super::sending::job;
use dpx_base::Pixel;
use std::alloc::Global;
use std::test::Fail;

/// A rate's name, its code in a capture, and its symbol clock in kHz.
pub(super) type Rate = (&'static str, u8, u64);

/// Frames, and the link that they are sent over. Sizes are in pixels and lines, the clock in kHz.
#[derive(Clone, Copy)]
pub(super) struct Shape {
    pub(super) rate: Rate,
    pub(super) lanes: u64,
    pub(super) enhanced: bool,
    pub(super) width: u64,
    pub(super) height: u64,
    pub(super) htotal: u64,
    pub(super) vtotal: u64,
    pub(super) hsw: u64,
    pub(super) hstart: u64,
    pub(super) vsw: u64,
    pub(super) vstart: u64,
    pub(super) hsp: bool,
    pub(super) vsp: bool,
    pub(super) clock: u64,
    pub(super) depth: u8,
    pub(super) unit: u64,
    pub(super) frames: u64,
}

/// floor(a * b / c).
pub(super) fn scaled(a: u64, b: u64, c: u64) -> u64 {
    a.saturating_mul(b).checked_div(c).unwrap_or(0)
}

/// ceil(a / b).
pub(super) fn ceil(a: u64, b: u64) -> u64 {
    let whole = scaled(a, 1, b);
    if whole.saturating_mul(b) < a {
        whole.saturating_add(1)
    } else {
        whole
    }
}

impl Shape {
    pub(super) fn depth(&self) -> u64 {
        u64::from(self.depth)
    }

    /// Of a pixel.
    pub(super) fn bits(&self) -> u64 {
        self.depth().saturating_mul(3)
    }

    /// Over all frames.
    pub(super) fn lines(&self) -> u64 {
        self.frames.saturating_mul(self.vtotal)
    }

    /// Red, green or blue of a pixel, counted over all frames.
    pub(super) fn component(&self, pixel: u64, color: u64) -> u16 {
        let mixed = (pixel % 65_536 * 40_503 + color % 3 * 25_717 + 29) % 65_536;
        (mixed >> (16 - self.depth().clamp(6, 16))) as u16
    }

    pub(super) fn pixels(&self, alloc: Global) -> Result<Vec<Pixel>, Fail> {
        let mut pixels = Vec::new(alloc);
        for pixel in 0..scaled(self.width.saturating_mul(self.height), self.frames, 1) {
            pixels.push(Pixel {
                r: self.component(pixel, 0),
                g: self.component(pixel, 1),
                b: self.component(pixel, 2),
            })?;
        }
        Ok(pixels)
    }

    /// The job of these frames.
    pub(super) fn job(&self, alloc: Global) -> Result<String, Fail> {
        let (rate, _, _) = self.rate;
        let lanes = self.lanes;
        let enhanced = u8::from(self.enhanced);
        let link = format!(in alloc;
            "\"rate\":\"{rate}\",\"lanes\":{lanes},\"enhanced\":{enhanced}"
        )?;
        let unit = self.unit;
        let mut mode = format!(in alloc; "\"unit\":{unit}")?;
        for (name, value) in self.members() {
            write!(mode, ",\"{name}\":{value}")?;
        }
        job(alloc, link.as_str(), mode.as_str(), self.depth)
    }

    fn members(&self) -> [(&'static str, u64); 12] {
        [
            ("width", self.width),
            ("height", self.height),
            ("htotal", self.htotal),
            ("vtotal", self.vtotal),
            ("hsw", self.hsw),
            ("hstart", self.hstart),
            ("vsw", self.vsw),
            ("vstart", self.vstart),
            ("hsp", u64::from(self.hsp)),
            ("vsp", u64::from(self.vsp)),
            ("clock", self.clock),
            ("frames", self.frames),
        ]
    }
}

/// A shape, and the numbers of its lines.
#[derive(Clone, Copy)]
pub(super) struct Plan {
    pub(super) shape: Shape,
    n: u64,
    m: u64,
    /// Of a line on a lane.
    pub(super) symbols: u64,
    delay: u64,
    /// Clocks from a line's start to the header behind it.
    pub(super) end: u64,
}

impl Plan {
    pub(super) fn of(shape: Shape) -> Plan {
        let n = shape.clock.saturating_mul(shape.bits());
        let m = shape.lanes.saturating_mul(8).saturating_mul(shape.rate.2);
        let groups = ceil(shape.width, shape.lanes);
        let waits = ceil(
            shape.bits().saturating_add(8).saturating_mul(m),
            n.saturating_mul(8),
        );
        let mut plan = Plan {
            shape,
            n,
            m,
            symbols: ceil(groups.saturating_mul(shape.bits()), 8),
            delay: shape
                .unit
                .saturating_add(1)
                .saturating_sub(scaled(shape.unit, n, m))
                .saturating_add(waits),
            end: 0,
        };
        plan.end = plan.line_end();
        plan
    }

    /// Symbols of a line before this unit.
    pub(super) fn symbols_before(&self, unit: u64) -> u64 {
        let clocks = unit.saturating_mul(self.shape.unit);
        self.symbols.min(scaled(clocks, self.n, self.m))
    }

    /// The last unit is the first with which all symbols have gone out.
    fn line_end(&self) -> u64 {
        for unit in 0..1000u64 {
            if self.symbols_before(unit + 1) == self.symbols {
                return unit
                    .saturating_mul(self.shape.unit)
                    .saturating_add(self.symbols)
                    .saturating_sub(self.symbols_before(unit));
            }
        }
        0
    }

    /// The clock at which a line, counted over all frames, starts.
    pub(super) fn start(&self, line: u64) -> u64 {
        let shape = &self.shape;
        let ticks = line
            .saturating_add(1)
            .saturating_mul(shape.htotal)
            .saturating_sub(shape.width);
        scaled(ticks, shape.rate.2, shape.clock).saturating_add(self.delay)
    }

    /// Of the group that begins a header, and of the block behind it.
    pub(super) fn header_clocks(&self) -> (u64, u64) {
        let group = if self.shape.enhanced { 4 } else { 1 };
        (group, scaled(12, 1, self.shape.lanes))
    }

    pub(super) fn clocks(&self) -> u64 {
        let (group, block) = self.header_clocks();
        self.start(self.shape.lines().saturating_sub(1))
            .saturating_add(self.end)
            .saturating_add(group)
            .saturating_add(block)
    }

    /// What is printed of a send.
    pub(super) fn report(&self, alloc: Global) -> Result<String, Fail> {
        let shape = &self.shape;
        let bound = (shape.unit.saturating_add(shape.bits()) / 4).saturating_add(6);
        let mut report = String::from_str(alloc, "plan")?;
        for (name, value) in [
            ("symbols", self.symbols),
            ("n", self.n),
            ("m", self.m),
            ("unit", shape.unit),
            ("delay", self.delay),
            ("end", self.end),
            ("bound", bound),
        ] {
            write!(report, " {name} {value}")?;
        }
        report.push_str("\nsent")?;
        for (name, value) in [
            ("frames", shape.frames),
            ("lines", shape.frames.saturating_mul(shape.height)),
            ("clocks", self.clocks()),
        ] {
            write!(report, " {name} {value}")?;
        }
        report.push_str("\n")?;
        Ok(report)
    }
}
