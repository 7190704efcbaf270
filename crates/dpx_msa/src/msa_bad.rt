/// Why attributes have no reading, with the value at fault.
#[derive(Clone, Copy, Debug, PartialEq, Eq)]
pub enum MsaBad {
    /// MISC0 says another colour than RGB.
    Colour(u8),
    /// MISC0 has no code of a depth.
    DepthCode(u8),
    /// MISC1 is not 0.
    Misc1(u8),
    /// Not 16 to 8192.
    Width(u16),
    /// Not 1 to 8192.
    Height(u16),
    /// The symbol clock is 0.
    NvidZero,
}
