ghost use Rattle.std.specs.Prelude.{◌≡◌, ◌≤◌, IfOk, length};
ghost use Rattle.serde_json.specs.View.{view};
ghost use Rattle.dpx_files.specs.Events.{events_of, event_from, most_events};
ghost use Rattle.dpx_files.specs.Refusal.{GivesUnlessMemory, refused};

use crate::items::{Item, read_items};
use crate::{Field, JobBad};
use dpx_base::{EventList, PortEvent};
use serde_json::Value;
use std::alloc::Global;

/// How many events a job has at most.
const MOST_EVENTS: usize = 64;

/// The events of a job.
#[tactic(auto, unfolding(crate::specs::Events::events_of))]
pub(crate) fn read_events(alloc: Global, events: &Value) -> Result<EventList, JobBad>
    ensures exact { GivesUnlessMemory (refused (events_of (view events.now))) result }
    ensures few { IfOk result (λ events. length events ≤ most_events) }
{
    match read_items(alloc, Field::Events, MOST_EVENTS, events) {
        Ok(events) => Ok(EventList::from_vec(events)),
        Err(why) => Err(why),
    }
}

impl Item for PortEvent {
    ghost use Rattle.dpx_files.specs.Events.{event_of};

    ghost item_of = { event_of };

    fn read_item(value: &Value) -> Option<PortEvent> {
        value.as_str().and_then(event_from)
    }
}

fn event_from(text: &str) -> Option<PortEvent>
    ensures { result ≡ event_from text.now }
{
    match text {
        "plug" => Some(PortEvent::Plug),
        "interrupt" => Some(PortEvent::Interrupt),
        "loss" => Some(PortEvent::Loss),
        "resume" => Some(PortEvent::Resume),
        _ => None,
    }
}
