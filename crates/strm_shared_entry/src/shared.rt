//! The entry of a call, as its history and its receipt share it.
ghost use Rattle.std.specs.Prelude.{◌≡◌};

use crate::entry::Entry;
use std::marker::Model;
use strm_shared_once::Held;

/// The entry of a call, which the history has too: two words, and no copy. A contract sees the entry.
#[derive(Drop)]
pub struct SharedEntry<K> {
    held: Held<Entry<K>>,
}

impl<K> Model for SharedEntry<K> {
    ghost use Rattle.strm_shared_entry.specs.Entry.{Entry};

    ghost Value = { Entry K };

    ghost view = { λ shared. shared.held.value };
}

impl<K> SharedEntry<K> {
    /// An entry that is shared. Takes no memory.
    pub(crate) fn new(held: Held<Entry<K>>) -> SharedEntry<K>
        ensures { result ≡ held.value }
    {
        SharedEntry { held }
    }

    /// The entry.
    pub fn entry(&self) -> &Entry<K>
        ensures { result.now ≡ self.now }
    {
        self.held.get()
    }
}
