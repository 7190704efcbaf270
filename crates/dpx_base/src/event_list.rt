ghost use Rattle.std.specs.Prelude.{◌≡◌};

use crate::PortEvent;
use std::marker::Model;

/// Events of a port, seen as their list.
#[derive(Drop)]
pub struct EventList {
    events: Vec<PortEvent>,
}

impl Model for EventList {
    ghost use Rattle.std.specs.Prelude.{List};
    ghost use Rattle.dpx_base.specs.declared.port_event.PortEvent.{PortEvent};

    ghost Value = { List PortEvent };

    ghost view = { λ e. e.events.items };
}

impl EventList {
    /// Takes the events, first to last.
    pub fn from_vec(events: Vec<PortEvent>) -> EventList
        ensures { result ≡ events.items }
    {
        EventList { events }
    }

    /// The events, first to last.
    pub fn as_slice(&self) -> &[PortEvent]
        ensures { result.now ≡ self.now }
    {
        self.events.as_slice()
    }
}
