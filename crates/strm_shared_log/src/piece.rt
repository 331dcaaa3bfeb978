//! Pieces of a history, which a stream hands out while it goes on.
ghost use Rattle.std.specs.Prelude.{◌≡◌, ◌↔◌, true, option_copied};
ghost use Rattle.strm_shared_entry.specs.Own.{entry_at};
ghost use Rattle.strm_shared_log.specs.Piece.{HasCall, PiecesLeadOn};

use std::marker::Model;
use strm_head_calls::{SameKind, Setup};
use strm_module::ModuleOf;
use strm_shared_entry::{Entry, Kept, Receipt};

/// A piece of the history of a stream: entries that come one behind another, in order.
///
/// A contract sees the setup of the stream, the number of calls that each caller has made before the piece,
/// and the entries.
#[derive(Drop)]
pub struct Piece<K> {
    setup: Setup,
    before: Vec<u64>,
    entries: Vec<Kept<K>>,
}

impl<K> Model for Piece<K> {
    ghost use Rattle.strm_shared_log.specs.Piece.{PieceValue};

    ghost Value = { PieceValue K };

    ghost view = { λ p. record { setup = p.setup; before = p.before.items; entries = p.entries.items } };
}

/// States a law, and does nothing: a piece of a history leads by legal steps from the stream to which the
/// pieces before it have led.
pub fn a_piece_leads_on<M: ModuleOf>()
    ensures { PiecesLeadOn M.Kind.means }
{}

/// The entry of a caller's call of this number among these entries, counted from 1, if they have as many.
fn nth_call<K>(entries: &[Kept<K>], caller: u32, number: u64) -> Option<&Entry<K>>
    ensures { entry_at caller number entries.now ≡ option_copied result }
{
    let mut before = number.checked_sub(1)?;
    for at in 0..entries.len() {
        let kept = &entries[at];
        if kept.who().is_caller(caller) {
            if before == 0 {
                return Some(kept.entry());
            }
            before -= 1;
        }
    }
    None
}

impl<K: Drop> Piece<K> {
    /// A piece of a stream of this setup, before which each caller has made so many calls.
    pub(crate) fn new(setup: Setup, before: Vec<u64>, entries: Vec<Kept<K>>) -> Piece<K>
        ensures { result ≡ record { setup = setup; before = before.items; entries = entries.items } }
    {
        Piece {
            setup,
            before,
            entries,
        }
    }

    /// The setup of the stream.
    pub fn setup(&self) -> Setup
        ensures { result ≡ self.now.setup }
    {
        self.setup
    }

    /// The number of calls that each caller has made before, in the order of the callers' numbers, up to
    /// 2^64 - 1 each.
    pub fn before(&self) -> &[u64]
        ensures { result.now ≡ self.now.before }
    {
        self.before.as_slice()
    }

    /// The entries, in order.
    pub fn entries(&self) -> &[Kept<K>]
        ensures { result.now ≡ self.now.entries }
    {
        self.entries.as_slice()
    }

    /// Whether the piece has the entry of a receipt, as its caller's call of the receipt's number. A receipt
    /// of a call that is in another piece is not held, nor is that of a caller whose calls are not counted.
    /// Takes no memory.
    pub fn holds(&self, receipt: &Receipt<K>) -> bool
    where
        K: SameKind,
        ensures { result ≡ true ↔ HasCall self.now receipt.now }
    {
        let Some(before) = self.before.get(receipt.caller() as usize) else {
            return false;
        };
        let number = receipt.number().saturating_sub(*before);
        match nth_call(self.entries.as_slice(), receipt.caller(), number) {
            Some(entry) => entry.is_same(receipt.entry()),
            None => false,
        }
    }

    /// The entries.
    pub fn into_entries(self) -> Vec<Kept<K>>
        ensures { result.items ≡ self.entries }
    {
        let Piece {
            setup: _,
            before: _,
            entries,
        } = self;
        entries
    }
}
