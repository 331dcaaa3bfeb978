//! The entries of a history as they are kept.
ghost use Rattle.std.specs.Prelude.{◌≡◌};
ghost use Rattle.strm_shared_entry.specs.Entry.{has_come_in};
ghost use Rattle.strm_shared_entry.specs.Kept.{TellsItsCaller};

use crate::entry::{Entry, Who};
use std::marker::Model;
use strm_head_calls::Event;
use strm_shared_once::Held;

/// An entry of a history, in its place, of two words. A contract sees the entry.
///
/// The entry of a call is in a cell, which the receipt of the call holds too. That of a message that came in
/// is by itself, and so is that of a call whose cell did not take it. The caller is next to the cell, so that
/// nobody need look at the entry for that.
#[derive(Drop)]
pub struct Kept<K> {
    held: Held<Entry<K>>,
}

impl<K> Model for Kept<K> {
    ghost use Rattle.strm_shared_entry.specs.Entry.{Entry};
    ghost use Rattle.strm_shared_entry.specs.Kept.{TellsItsCaller};

    ghost Value = { Entry K };

    ghost view = { λ k. k.held.value };

    ghost invariant = { λ k. TellsItsCaller k.held };
}

impl<K> Kept<K> {
    /// An entry that is by itself. Takes no memory.
    pub fn plain(entry: Box<Entry<K>>) -> Kept<K>
        ensures { result ≡ entry.value }
    {
        Kept {
            held: Held::alone(entry),
        }
    }

    /// An entry in its place. Where that is a cell, the entry is of a call, whose caller is next to the cell.
    /// Takes no memory.
    pub(crate) fn of(held: Held<Entry<K>>) -> Kept<K>
        requires { TellsItsCaller held }
        ensures { result ≡ held.value }
    {
        Kept { held }
    }

    /// The entry.
    pub fn entry(&self) -> &Entry<K>
        ensures { result.now ≡ self.now }
    {
        self.held.get()
    }

    /// The maker of the step. For an entry in a cell this is known without a look at it.
    pub fn who(&self) -> Who
        ensures { result ≡ self.now.who }
    {
        match self.held.owner() {
            Some(caller) => Who::Caller(caller),
            None => self.entry().who(),
        }
    }

    /// Whether the step is of a message that came in. For an entry in a cell this is known without a look at
    /// it.
    pub fn has_come_in(&self) -> bool
        ensures { result ≡ has_come_in self.now.event }
    {
        match self.held.owner() {
            Some(_) => false,
            None => matches!(self.entry().event(), Event::Arrived(_)),
        }
    }
}
