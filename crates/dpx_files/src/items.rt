ghost use Rattle.std.specs.Prelude.{◌≡◌, ◌≤◌, ◌⊎◌, Ok, Err, IfOk, MatchResult, length};
ghost use Rattle.serde_json.specs.View.{view};
ghost use Rattle.dpx_files.specs.declared.refusal.JobBad.TheVariants.{Memory};
ghost use Rattle.dpx_files.specs.Items.{items_of};
ghost use Rattle.dpx_files.specs.Refusal.{refused};

use crate::members::elements;
use crate::{Field, JobBad};
use serde_json::Value;
use std::alloc::Global;

/// What a list in a job is made of.
pub(crate) trait Item: Drop {
    ghost use Rattle.std.specs.Prelude.{Option};
    ghost use Rattle.serde_json.specs.Data.{Data};

    /// What a value says, if it is such an item.
    ghost item_of: { Data → Option Self };

    fn read_item(value: &Value) -> Option<Self>
        ensures { result ≡ item_of (view value.now) };
}

/// A field that is a list of at most so many items.
pub(crate) fn read_items<T: Item>(
    alloc: Global,
    field: Field,
    most: usize,
    list: &Value,
) -> Result<Vec<T>, JobBad>
    ensures exact { MatchResult result
        (λ items. refused (items_of field most T.item_of (view list.now)) ≡ Ok items.items)
        (λ bad. (bad ≡ Memory) ⊎ (refused (items_of field most T.item_of (view list.now)) ≡ Err bad)) }
    ensures few { IfOk result (λ items. length items.items ≤ most) }
{
    let Some(values) = elements(list) else {
        return Err(JobBad::Wrong(field));
    };
    if values.len() > most {
        return Err(JobBad::Wrong(field));
    }
    let mut items = Vec::new(alloc);
    for value in values {
        let Some(item) = T::read_item(value) else {
            return Err(JobBad::Wrong(field));
        };
        if items.push(item).is_err() {
            return Err(JobBad::Memory);
        }
    }
    Ok(items)
}
