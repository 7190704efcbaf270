ghost use Rattle.std.specs.Prelude.{◌≡◌, ◌∷◌, []};
ghost use Rattle.serde_json.specs.View.{view};
ghost use Rattle.dpx_files.specs.Entries.{entries_of, request_of, asked_of};
ghost use Rattle.dpx_files.specs.Refusal.{GivesUnlessMemory, refused};

use crate::items::{Item, read_items};
use crate::members::{elements, read_number};
use crate::script::short_bytes;
use crate::{Field, JobBad};
use dpx_base::{Answer, Bytes20, Entry, EntryList};
use serde_json::Value;
use std::alloc::Global;

/// How many entries a recorded history has at most.
const MOST_ENTRIES: usize = 8192;

/// The recorded history of a job.
#[tactic(auto, unfolding(crate::specs::Entries::entries_of))]
pub(crate) fn read_entries(alloc: Global, entries: &Value) -> Result<EntryList, JobBad>
    ensures { GivesUnlessMemory (refused (entries_of (view entries.now))) result }
{
    match read_items(alloc, Field::Entries, MOST_ENTRIES, entries) {
        Ok(entries) => Ok(EntryList::from_vec(entries)),
        Err(why) => Err(why),
    }
}

impl Item for Entry {
    ghost use Rattle.dpx_files.specs.Entries.{entry_of};

    ghost item_of = { entry_of };

    fn read_item(value: &Value) -> Option<Entry> {
        match elements(value) {
            Some([request, answer]) => read_asked(request, answer),
            Some(_) => None,
            None => read_number(value, 0, u32::MAX).map(Entry::Waited),
        }
    }
}

/// A request and its answer.
fn read_asked(request: &Value, answer: &Value) -> Option<Entry>
    ensures { result ≡ asked_of (view request.now ∷ view answer.now ∷ []) }
{
    let Some(request) = read_request(request) else {
        return None;
    };
    match Answer::read_item(answer) {
        Some(answer) => Some(Entry::Asked { request, answer }),
        None => None,
    }
}

fn read_request(request: &Value) -> Option<Bytes20>
    ensures { result ≡ request_of (view request.now) }
{
    request.as_str().and_then(short_bytes)
}
