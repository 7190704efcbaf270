//! The machine, as far as it has refused nothing.

ghost use Rattle.std.specs.Prelude.{◌≡◌};
ghost use Rattle.dpx_parse.specs.State.{open_after};

use crate::counts::Counts;
use crate::kind::kind_of;
use crate::state::{State, next, unframed};
use crate::{Event, ParseWhy};
use dpx_base::{LaneSet, Lanes};

/// A machine that has refused nothing.
#[derive(Drop)]
pub(crate) struct Core {
    lanes: Lanes,
    enhanced: bool,
    state: State,
    counts: Counts,
    unended: u64,
}

/// The sets of an active part so far, its first one included.
fn open_after(state: State, unended: u64) -> u64
    ensures { result ≡ open_after state unended }
{
    match state {
        State::Active => unended.saturating_add(1),
        State::Fill => unended.saturating_add(1),
        _ => 0,
    }
}

impl Core {
    ghost use Rattle.std.specs.Prelude.{◌≡◌, ◌≤◌, length, Ok, Err, IfOk, IfErr, Result};
    ghost use Rattle.dpx_base.specs.Lanes.{lanes_count};
    ghost use Rattle.dpx_parse.specs.Core.{new_core, taken_by, Taken};
    ghost use Rattle.dpx_parse.specs.declared.bad.ParseWhy.{ParseWhy};

    pub(crate) fn new(lanes: Lanes, enhanced: bool) -> Core
        ensures { result ≡ new_core lanes enhanced }
    {
        Core {
            lanes,
            enhanced,
            state: State::Start,
            counts: Counts::new(),
            unended: 0,
        }
    }

    pub(crate) fn unended(&self) -> u64
        ensures { result ≡ self.now.unended }
    {
        self.unended
    }

    /// Takes the next set, or says why it may not stand there.
    pub(crate) fn take(&mut self, set: &LaneSet) -> Result<Event, ParseWhy>
        requires { length set.now ≡ lanes_count self.old.lanes }
        ensures lanes { self.new.lanes ≡ self.old.lanes }
        ensures enhanced { self.new.enhanced ≡ self.old.enhanced }
        ensures taken { IfOk result (λ event.
            taken_by self.old set.now ≡ Ok (record { core = self.new; event = event })) }
        ensures same { IfErr result (λ why. self.new ≡ self.old) }
        ensures refused { IfErr result (λ why.
            ◌≡◌ {A = Result Taken ParseWhy} (taken_by self.old set.now) (Err why)) }
    {
        let symbols = set.as_slice();
        let Some(kind) = kind_of(symbols) else {
            return Err(ParseWhy::Mixed);
        };
        let count = self.lanes.count();
        let Some((mark, state)) = next(self.enhanced, 12 / count, 36 / count, self.state, kind)
        else {
            return Err(unframed(self.state, kind));
        };
        if let Some(why) = self.counts.fault(self.lanes, mark, symbols) {
            return Err(why);
        }
        let event = self.counts.event(self.lanes, mark, set);
        self.counts.note(self.lanes, mark, symbols);
        self.unended = open_after(state, self.unended);
        self.state = state;
        Ok(event)
    }
}
