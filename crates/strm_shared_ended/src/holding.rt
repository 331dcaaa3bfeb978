//! Comparison of a history with the receipts that callers have of its calls.
ghost use Rattle.std.specs.Prelude.{◌≡◌, ◌↔◌, true, All};
ghost use Rattle.strm_shared_ended.specs.Ended.{AreHeld};

use crate::ended::Ended;
use strm_head_calls::SameKind;
use strm_module::ModuleOf;
use strm_shared_entry::SharedEntry;

/// The receipts that one caller has of its calls on a stream, from the first call on, in order. Each is the
/// entry alone, a word: the caller is stored once, and the place is the number of the call.
#[derive(Drop)]
pub struct Receipts<K> {
    /// The number of the caller.
    pub caller: u32,
    /// The entries of its calls.
    pub entries: Vec<SharedEntry<K>>,
}

/// Whether the history has each of these calls. Each entry is dropped when it was compared.
fn holds_each<M: ModuleOf>(ended: &Ended<M>, receipts: Receipts<M::Kind>) -> bool
where
    M::Kind: SameKind,
    ensures { result ≡ true ↔ AreHeld ended.now.history receipts }
{
    let Receipts { caller, entries } = receipts;
    let mut number: u64 = 0;
    for own in entries {
        number += 1;
        if !ended.has(caller, number, own.entry()) {
            return false;
        }
    }
    true
}

/// Whether the history of a stream has each call of which one of its callers has a receipt.
pub fn holds_all<M: ModuleOf>(ended: &Ended<M>, receipts: Vec<Receipts<M::Kind>>) -> bool
where
    M::Kind: SameKind,
    ensures { result ≡ true ↔ All (λ mine. AreHeld ended.now.history mine) receipts.items }
{
    for mine in receipts {
        if !holds_each(ended, mine) {
            return false;
        }
    }
    true
}
