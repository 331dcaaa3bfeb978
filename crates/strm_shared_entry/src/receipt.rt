//! Receipts, which show a caller that its call is in the history.
ghost use Rattle.std.specs.Prelude.{◌≡◌};
ghost use Rattle.strm_shared_entry.specs.Receipt.{receipt_of};

use crate::entry::Entry;
use crate::shared::SharedEntry;
use std::marker::Model;
use strm_shared_once::Held;

/// The receipt that a caller has of a call that was made: the caller, the number of the call among that
/// caller's, and its entry. The entry is the history's own and not a copy of it.
///
/// Nothing of it takes memory or waits. It can be moved to another thread, and not shared by several.
#[derive(Drop)]
pub struct Receipt<K> {
    number: u64,
    held: Held<Entry<K>>,
}

impl<K> Model for Receipt<K> {
    ghost use Rattle.strm_shared_entry.specs.Receipt.{ReceiptValue, receipt_of};

    ghost Value = { ReceiptValue K };

    ghost view = { λ r. receipt_of r.held r.number };
}

impl<K> Receipt<K> {
    /// A receipt of a call of this number, whose caller is next to its entry.
    pub(crate) fn new(number: u64, held: Held<Entry<K>>) -> Receipt<K>
        ensures { result ≡ receipt_of held number }
    {
        Receipt { number, held }
    }

    /// The number of the caller.
    pub fn caller(&self) -> u32
        ensures { result ≡ self.now.caller }
    {
        self.held.owner().unwrap_or(0)
    }

    /// The number of the call among the caller's on the stream, counted from 1.
    pub fn number(&self) -> u64
        ensures { result ≡ self.now.number }
    {
        self.number
    }

    /// The entry of the call in the history: the request, and its outcome.
    pub fn entry(&self) -> &Entry<K>
        ensures { result.now ≡ self.now.entry }
    {
        self.held.get()
    }

    /// The entry without its caller, for users who keep the caller once for many. Takes no memory.
    pub fn into_entry(self) -> SharedEntry<K>
        ensures { result ≡ self.entry }
    {
        SharedEntry::new(self.held)
    }
}
