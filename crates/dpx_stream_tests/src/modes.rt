use dpx_base::{Depth, Mode, RawMode};
use std::process::Abort;

/// A mode of this width, height, htotal, vtotal and pixel clock, whose sync is one pixel and one line.
pub(crate) fn mode(rt: &impl Abort, sizes: [u32; 5], depth: Depth) -> Mode {
    let [width, height, htotal, vtotal, clock_khz] = sizes;
    let raw = RawMode {
        width,
        height,
        htotal,
        vtotal,
        hsw: 1,
        hstart: 1,
        vsw: 1,
        vstart: 1,
        hsp: false,
        vsp: false,
        clock_khz,
        depth,
    };
    Mode::read(&raw).expect(rt, "a legal mode")
}
