/// What happens at the port of a link, as the supervisor of the link is told: this project's own.
#[derive(Clone, Copy, Debug, PartialEq, Eq)]
pub enum PortEvent {
    /// A sink was plugged in.
    Plug,
    /// The sink asks for attention: an interrupt on hot plug detect (HPD).
    Interrupt,
    /// The sink is gone.
    Loss,
    /// The source goes on after it slept.
    Resume,
}
