//! The drain of a stream, which takes its history piece by piece.
ghost use Rattle.std.specs.Prelude.{◌≡◌, ◌++◌, [], List, IfOk, IfSome, IfNone, OnErr, length};
ghost use Rattle.rtrb.specs.Ring.{sent};
ghost use Rattle.strm_shared_entry.specs.Entry.{Entry};
ghost use Rattle.strm_shared_log.specs.Piece.{counted_by, fresh_drain, AreCounts, TakesNext};

use crate::part::Part;
use crate::piece::Piece;
use rtrb::{Consumer, Producer, Protocol, RingBuffer};
use std::alloc::Global;
use std::marker::{Model, PhantomData};
use strm_module::Kinds;
use strm_msg::NoMem;
use strm_shared_entry::{Kept, Who};

/// The number of pieces that wait to be taken, at most.
const MOST_PIECES: usize = 1;

/// The property of the parts of a history in a ring: each goes on where those before it end.
pub(crate) struct InOrder<K> {
    of: PhantomData<K>,
}

impl<K: Kinds> Protocol<Part<K>> for InOrder<K> {
    ghost use Rattle.strm_shared_log.specs.Piece.{GoesOn};

    ghost allows = { λ before part. GoesOn K.means before part };
}

/// Where a stream puts the parts of its history that it hands out.
pub(crate) type Outlet<K> = Producer<Part<K>, Global, InOrder<K>>;

/// Takes the history of a stream piece by piece, while the stream goes on. It counts the calls of the first
/// callers, so that a piece knows the numbers of its calls.
///
/// Whatever is between two pieces, all together are one history: the pieces so far, one behind another, lead
/// by legal steps from a stream that was just opened. A contract sees how many callers it counts, the setup,
/// once a piece has come, and the entries of all pieces so far.
#[derive(Drop)]
pub struct Drain<K: Kinds> {
    counts: Vec<u64>,
    ring: Consumer<Part<K>, Global, InOrder<K>>,
}

impl<K: Kinds> Model for Drain<K> {
    ghost use Rattle.std.specs.Prelude.{length};
    ghost use Rattle.rtrb.specs.Ring.{received};
    ghost use Rattle.strm_shared_log.specs.Piece.{entries_of, first_setup, AreCounts, DrainValue};

    ghost Value = { DrainValue K };

    ghost view = { λ d. record {
      callers = length d.counts.items;
      setup = first_setup (received d.ring);
      history = entries_of (received d.ring);
    } };

    ghost invariant = { λ d. AreCounts d.counts.items (entries_of (received d.ring)) };
}

/// Counts a call, if it is one of a caller who is counted.
fn count_call(counts: &mut Vec<u64>, who: Who)
    ensures { counts.new.items ≡ counted_by counts.old.items who }
{
    if let Who::Caller(caller) = who {
        if let Some(count) = counts.get_mut(caller as usize) {
            *count = count.saturating_add(1);
        }
    }
}

/// Counts the calls among these entries.
fn count_calls<K>(counts: &mut Vec<u64>, entries: &[Kept<K>])
    ensures many { length counts.new.items ≡ length counts.old.items }
    ensures counts { (before : List (Entry K)) → AreCounts counts.old.items before → AreCounts counts.new.items (before ++ entries.now) }
{
    for at in 0..entries.len() {
        count_call(counts, entries[at].who());
    }
}

impl<K: Kinds> Drain<K> {
    /// An outlet into which nothing was put, and its drain, which counts the calls of so many callers. Fails
    /// only when memory runs out.
    pub(crate) fn new(alloc: Global, callers: u32) -> Result<(Outlet<K>, Drain<K>), NoMem>
        ensures outlet { IfOk result (λ both. sent both.0 ≡ []) }
        ensures drain { IfOk result (λ both. both.1 ≡ fresh_drain callers) }
    {
        let counts = vec![in alloc; 0; callers as usize]?;
        let (outlet, ring) = RingBuffer::with_protocol::<Global, InOrder<K>>(alloc, MOST_PIECES)?;
        Ok((outlet, Drain { counts, ring }))
    }

    /// Takes the piece that was handed out, if one was. It goes on where the last one ended, and knows how
    /// many calls each caller has made before it. Where memory runs out, it stays to be taken.
    pub fn take(&mut self) -> Result<Option<Piece<K>>, NoMem>
        ensures next { IfOk result (λ found. IfSome found (λ piece. TakesNext K.means self.old piece self.new)) }
        ensures none { IfOk result (λ found. IfNone found (self.new ≡ self.old)) }
        ensures err { OnErr result (self.new ≡ self.old) }
    {
        if self.ring.is_empty() {
            return Ok(None);
        }
        let before = self.counts.clone()?;
        let Part { setup, entries } = self.ring.pop_known();
        count_calls(&mut self.counts, entries.as_slice());
        Ok(Some(Piece::new(setup, before, entries)))
    }
}
