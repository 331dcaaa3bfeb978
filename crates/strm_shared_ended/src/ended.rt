//! The end of a shared stream.
ghost use Rattle.std.specs.Prelude.{◌≡◌, ◌↔◌, true, [], Some, All, IfOk, length, option_copied};
ghost use Rattle.strm_shared_entry.specs.Own.{arrivals, entry_at, AreFromSeats};
ghost use Rattle.strm_shared_ended.specs.Ended.{IsIndex, HasEntryOf};

use std::alloc::Global;
use std::marker::Model;
use strm_head::Stream;
use strm_head_calls::SameKind;
use strm_module::ModuleOf;
use strm_msg::{Message, NoMem};
use strm_shared_entry::{Entry, Kept, Receipt, Who};

/// The end of a shared stream: its history, the stream to which it led, and the messages that were accepted
/// and had not come in.
#[derive(Drop)]
pub struct Ended<M: ModuleOf> {
    history: Vec<Kept<M::Kind>>,
    stream: Stream<M>,
    left: Vec<Message>,
    index: Index,
}

impl<M: ModuleOf> Model for Ended<M> {
    ghost use Rattle.strm_shared_ended.specs.Ended.{EndedValue, IsIndex};

    ghost Value = { EndedValue M.Kind };

    ghost view = { λ e. record { history = e.history.items; stream = e.stream; left = e.left.items } };

    ghost invariant = { λ e. IsIndex e.index e.history.items };
}

/// The places of the calls of each caller in a history, and the number of its steps that are of messages that
/// came in.
#[derive(Drop)]
struct Index {
    places: Vec<Vec<usize>>,
    arrival_count: u64,
}

/// A list of places for each caller, with none in it. It has room for as many of these calls as a caller has
/// where all callers have as many. Fails only when memory runs out.
fn empty_index(alloc: Global, callers: u32, calls: usize) -> Result<Vec<Vec<usize>>, NoMem>
    ensures many { IfOk result (λ all. length all.items ≡ callers) }
    ensures none { IfOk result (λ all. All (λ places. places.items ≡ []) all.items) }
{
    let share = calls.checked_div(callers as usize).unwrap_or(0);
    let mut all = Vec::new(alloc);
    for _ in 0..callers {
        let mut places = Vec::new(alloc);
        places.reserve(share)?;
        all.push(places)?;
    }
    Ok(all)
}

/// Makes the index of a history, which is looked through once. Fails only when memory runs out.
fn build_index<K>(alloc: Global, callers: u32, history: &[Kept<K>]) -> Result<Index, NoMem>
    requires { AreFromSeats callers history.now }
    ensures { IfOk result (λ index. IsIndex index history.now) }
{
    let mut places = empty_index(alloc, callers, history.len())?;
    let mut arrival_count = 0;
    for at in 0..history.len() {
        let kept = &history[at];
        arrival_count += u64::from(kept.has_come_in());
        match kept.who() {
            Who::Caller(caller) => places[caller as usize].push(at)?,
            Who::Line => {}
        }
    }
    Ok(Index {
        places,
        arrival_count,
    })
}

impl<M: ModuleOf> Ended<M> {
    /// The end of a stream with this many callers, each step of which was made by one of them or by the line.
    /// Fails only when memory runs out.
    pub fn new(
        alloc: Global,
        callers: u32,
        history: Vec<Kept<M::Kind>>,
        stream: Stream<M>,
        left: Vec<Message>,
    ) -> Result<Ended<M>, NoMem>
        requires { AreFromSeats callers history.items }
        ensures { IfOk result (λ e. e ≡ record { history = history.items; stream = stream; left = left.items }) }
    {
        let index = build_index(alloc, callers, history.as_slice())?;
        Ok(Ended {
            history,
            stream,
            left,
            index,
        })
    }

    /// The history: every step, in order.
    pub fn history(&self) -> &[Kept<M::Kind>]
        ensures { result.now ≡ self.now.history }
    {
        self.history.as_slice()
    }

    /// The stream to which they led.
    pub fn stream(&self) -> &Stream<M>
        ensures { result.now ≡ self.now.stream }
    {
        &self.stream
    }

    /// The messages that were accepted and had not come in, in order: the one that was held back, and those
    /// that the ring still held.
    pub fn left(&self) -> &[Message]
        ensures { result.now ≡ self.now.left }
    {
        self.left.as_slice()
    }

    /// The number of messages that came in.
    pub(crate) fn arrival_count(&self) -> u64
        ensures { result ≡ length (arrivals self.now.history) }
    {
        self.index.arrival_count
    }

    /// The entry of a caller's call of this number, counted from 1, if it has made as many. It is found
    /// without a look at the others.
    pub fn entry_at(&self, caller: u32, number: u64) -> Option<&Entry<M::Kind>>
        ensures { entry_at caller number self.now.history ≡ option_copied result }
    {
        let places = self.index.places.get(caller as usize)?;
        let before = number.checked_sub(1)?;
        let place = *places.get(before as usize)?;
        Some(self.history[place].entry())
    }

    /// Whether the receipt's entry is the one that the history has of its caller's call of its number. Takes
    /// no memory, and looks at that entry alone.
    pub fn holds(&self, receipt: &Receipt<M::Kind>) -> bool
    where
        M::Kind: SameKind,
        ensures { result ≡ true ↔ HasEntryOf self.now.history receipt.now }
    {
        self.has(receipt.caller(), receipt.number(), receipt.entry())
    }

    /// Whether an entry is the one that the history has of the caller's call of this number.
    pub(crate) fn has(&self, caller: u32, number: u64, own: &Entry<M::Kind>) -> bool
    where
        M::Kind: SameKind,
        ensures { result ≡ true ↔ entry_at caller number self.now.history ≡ Some own.now }
    {
        match self.entry_at(caller, number) {
            Some(entry) => entry.is_same(own),
            None => false,
        }
    }

    /// The history, the stream, and the messages that are left.
    pub fn into_parts(self) -> (Vec<Kept<M::Kind>>, Stream<M>, Vec<Message>)
        ensures { (result.0.items ≡ self.history) × (result.1 ≡ self.stream) × (result.2.items ≡ self.left) }
    {
        let Ended {
            history,
            stream,
            left,
            index: _,
        } = self;
        (history, stream, left)
    }
}
