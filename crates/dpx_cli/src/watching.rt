ghost use Rattle.std.specs.Prelude.{◌≡◌, ◌*◌, ◌≤◌, length, IsSome};
ghost use Rattle.dpx_base.specs.Asks.{CanAsk, AsksAtMost};
ghost use Rattle.dpx_files.specs.Events.{most_events};
ghost use Rattle.dpx_watch.specs.Step.{step_asks, step_entries};
ghost use Rattle.dpx_cli.specs.Step.{◌⇒◌};
ghost use Rattle.dpx_cli.specs.Watching.{EventTaken, EventsAreTaken, EventsAreWatched};

use crate::report::Report;
use crate::watch_lines::push_event;
use dpx_base::{AuxPort, EventList, Link, PortEvent};
use dpx_dpcd::{LoadPort, SinkPlan};
use dpx_watch::{Watch, lists_are_bounded, only_good_links};
use std::alloc::AllocError;

/// Loads the plan, takes the events against it, one behind the other, and writes a line for each.
pub(crate) fn watch_events<P: LoadPort>(
    port: &mut P,
    link: Link,
    plan: SinkPlan,
    events: &EventList,
    report: &mut Report,
) -> Result<(), AllocError>
    requires few { length events.now ≤ most_events }
    ensures watched { EventsAreWatched link plan events.now (P.state port.old ⇒ P.state port.new)
        (report.old ⇒ report.new) result }
    ensures told { most_events * step_entries ≤ P.surely_told → IsSome (P.state port.new).history }
{
    port.load(plan);
    only_good_links(link);
    lists_are_bounded(link);
    take_events(port, link, events.as_slice(), report)
}

/// Takes the events, one behind the other from a link that is down, and writes a line for each.
fn take_events<P: AuxPort>(
    port: &mut P,
    link: Link,
    events: &[PortEvent],
    report: &mut Report,
) -> Result<(), AllocError>
    requires few { length events.now ≤ most_events }
    requires countable { CanAsk (most_events * step_asks) (P.state port.old) }
    ensures { EventsAreTaken link events.now (P.state port.old ⇒ P.state port.new) (report.old ⇒ report.new) result }
{
    let mut watch = Watch::new(link);
    for number in 0..events.len() {
        take_event(&mut watch, port, number, events[number], report)?;
    }
    Ok(())
}

fn take_event<P: AuxPort>(
    watch: &mut Watch,
    port: &mut P,
    number: usize,
    event: PortEvent,
    report: &mut Report,
) -> Result<(), AllocError>
    requires countable { CanAsk step_asks (P.state port.old) }
    ensures taken { EventTaken number event (watch.old ⇒ watch.new) (P.state port.old ⇒ P.state port.new)
        (report.old ⇒ report.new) result }
    ensures few { AsksAtMost step_asks (P.state port.old) (P.state port.new) }
{
    let stepped = watch.step(port, event);
    push_event(report, number, event, &stepped, watch.allows())
}
