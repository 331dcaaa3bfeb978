//! Comparison of entries.
ghost use Rattle.std.specs.Prelude.{◌≡◌, ◌↔◌, true};

use crate::entry::Entry;
use strm_chain_ends::Place;
use strm_head_calls::{Event, SameKind, is_same_message, is_same_request};
use strm_module::BoxedShape;

/// Whether two events are the same.
fn is_same_event<K: SameKind + Drop>(
    one: &Event<BoxedShape<K>>,
    other: &Event<BoxedShape<K>>,
) -> bool
    ensures { result ≡ true ↔ one.now ≡ other.now }
{
    match (one, other) {
        (Event::Asked(one), Event::Asked(other)) => is_same_request(one, other),
        (Event::Arrived(one), Event::Arrived(other)) => { is_same_message(one, other) }
        _ => false,
    }
}

/// Whether two places are the same.
fn is_same_place(one: Place, other: Place) -> bool
    ensures { result ≡ true ↔ one ≡ other }
{
    one == other
}

/// Whether the same places moved, in the same order.
fn are_same_moves(one: &[Place], other: &[Place]) -> bool
    ensures { result ≡ true ↔ one.now ≡ other.now }
{
    if one.len() != other.len() {
        return false;
    }
    for i in 0..one.len() {
        if !is_same_place(one[i], other[i]) {
            return false;
        }
    }
    true
}

impl<K: SameKind + Drop> Entry<K> {
    /// Whether another entry is the same.
    pub fn is_same(&self, other: &Entry<K>) -> bool
        ensures { result ≡ true ↔ self.now ≡ other.now }
    {
        self.header().is_same(other.header())
            && self.answer().is_same(other.answer())
            && are_same_moves(self.moves().as_slice(), other.moves().as_slice())
            && is_same_event(self.event(), other.event())
    }
}
