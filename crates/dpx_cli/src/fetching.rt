ghost use Rattle.std.specs.Prelude.{◌≡◌, ◌≤◌, IsSome};
ghost use Rattle.dpx_link.specs.Training.{training_entries};
ghost use Rattle.dpx_cli.specs.Fetching.{FetchedWith, FetchStep};
ghost use Rattle.dpx_cli.specs.Step.{◌⇒◌};

use crate::printing::print_edid;
use crate::stop::Stop;
use dpx_base::Sink;
use dpx_dpcd::{LoadPort, SinkPlan};
use dpx_edid::{FetchEnd, Fetched, fetch_edid, is_bounded, is_caused, read_edid};
use std::alloc::Global;

/// Loads the plan, fetches the base block, and prints what it says.
pub(crate) fn report_block<P: LoadPort, O: Sink>(
    alloc: Global,
    port: &mut P,
    plan: SinkPlan,
    out: &mut O,
) -> Result<(), Stop>
    ensures step { FetchStep plan (P.state port.old ⇒ P.state port.new) (O.seen out.old ⇒ O.seen out.new) result }
    ensures told { training_entries ≤ P.surely_told → IsSome (P.state port.new).history }
{
    let fetched = match fetch_loaded(port, plan) {
        Ok(fetched) => fetched,
        Err(end) => return Err(Stop::Unfetched(end)),
    };
    match read_edid(&fetched.block) {
        Ok(edid) => print_edid(alloc, out, &edid, fetched.requests),
        Err(why) => Err(Stop::BadEdid {
            why,
            requests: fetched.requests,
        }),
    }
}

/// Loads the plan, and fetches the base block against it.
fn fetch_loaded<P: LoadPort>(port: &mut P, plan: SinkPlan) -> Result<Fetched, FetchEnd>
    ensures fetched { FetchedWith plan (P.state port.old ⇒ P.state port.new) result }
    ensures told { training_entries ≤ P.surely_told → IsSome (P.state port.new).history }
{
    port.load(plan);
    is_bounded();
    is_caused();
    fetch_edid(port)
}
