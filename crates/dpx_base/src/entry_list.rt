ghost use Rattle.std.specs.Prelude.{◌≡◌};

use crate::Entry;
use std::marker::Model;

/// A recorded history of an AUX channel, seen as the list of its entries.
#[derive(Drop)]
pub struct EntryList {
    entries: Vec<Entry>,
}

impl Model for EntryList {
    ghost use Rattle.std.specs.Prelude.{List};
    ghost use Rattle.dpx_base.specs.declared.aux_port.Entry.{Entry};

    ghost Value = { List Entry };

    ghost view = { λ e. e.entries.items };
}

impl EntryList {
    /// Takes the entries, first to last.
    pub fn from_vec(entries: Vec<Entry>) -> EntryList
        ensures { result ≡ entries.items }
    {
        EntryList { entries }
    }

    /// The entries, first to last.
    pub fn as_slice(&self) -> &[Entry]
        ensures { result.now ≡ self.now }
    {
        self.entries.as_slice()
    }
}
