use dpx_base::Depth;

/// The attributes that a sink has read: clocks in kHz, sizes in pixels and lines.
#[derive(Clone, Copy, Debug, PartialEq, Eq)]
pub struct Attributes {
    /// The pixel clock.
    pub mvid: u32,
    /// The symbol clock, 1 or more.
    pub nvid: u32,
    pub htotal: u16,
    pub vtotal: u16,
    pub hstart: u16,
    pub vstart: u16,
    pub hsw: u16,
    pub vsw: u16,
    pub hsp: bool,
    pub vsp: bool,
    /// 16 to 8192.
    pub width: u16,
    /// 1 to 8192.
    pub height: u16,
    pub depth: Depth,
    /// The byte that the depth stands in, with the bits that are not tested.
    pub misc0: u8,
}
