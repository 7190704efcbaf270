/// A pixel with a component that the depth has no room for.
#[derive(Clone, Copy, Debug, PartialEq, Eq)]
pub struct BadPixel {
    /// Its number over all frames, from 0.
    pub number: u64,
    /// Its first such component: red, green, blue.
    pub value: u16,
}
