/// What a receiver writes to.
#[derive(Clone, Copy, Debug, PartialEq, Eq)]
pub enum Output {
    /// The sink of pixel records.
    Pixels,
    /// The sink of lines of text.
    Log,
}
