//! Room for entries, found before there is something to enter.
ghost use Rattle.std.specs.Prelude.{◌≡◌, false, [], IfOk, IfSome};
ghost use Rattle.strm_head_calls.specs.declared.answer.Answer.TheVariants.{Broke, Done};
ghost use Rattle.strm_head_calls.specs.declared.answer.Reply.TheVariants as Replies;
ghost use Rattle.strm_shared_entry.specs.Entry.{out_in, with_outcome};
ghost use Rattle.strm_shared_entry.specs.Receipt.{arrival_entry, filled, may_take_out, call_room, filled_receipt};

use crate::entry::{Entry, Who};
use crate::kept::Kept;
use crate::receipt::Receipt;
use crate::service_info::{RemovedModules, ServiceInfo, room_for_taken_out};
use arrayvec::ArrayVec;
use std::alloc::Global;
use std::marker::Model;
use strm_chain::{Looks, Moves};
use strm_head_calls::{Answer, Call, Event, Reply, copy_request};
use strm_module::{BoxedModule, MOST_MODULES, ModuleOf};
use strm_msg::{BoxedMessage, End, Message, NoMem};
use strm_shared_once::Cell;

/// The cell into which the entry of a call is set, found before the call is made.
pub type EntryCell<K> = Cell<Entry<K>>;

/// Room for the entry of a call, found before the call is made: the entry, in its box, but for the outcome of
/// the call, and room for the header of one that may take modules out.
///
/// A contract sees the caller, the number of the call among that caller's, and the request.
#[derive(Drop)]
pub struct EntryRoom<K> {
    caller: u32,
    number: u64,
    entry: Box<Entry<K>>,
    taken_out: Option<Box<RemovedModules>>,
}

impl<K> Model for EntryRoom<K> {
    ghost use Rattle.std.specs.Prelude.{is_some};
    ghost use Rattle.strm_shared_entry.specs.Receipt.{EntryRoomValue, IsCallEntry};

    ghost Value = { EntryRoomValue K };

    ghost view = { λ r. record {
      caller = r.caller;
      number = r.number;
      end = r.entry.value.end;
      event = r.entry.value.event;
    } };

    ghost invariant = { λ r. IsCallEntry r.caller r.entry.value (is_some r.taken_out) };
}

/// Room for the entry of a call, which is this caller's call of this number on the stream, counted from 1.
/// Fails only when memory runs out.
pub fn room_for<M: ModuleOf>(
    alloc: Global,
    caller: u32,
    number: u64,
    call: &Call<BoxedModule<M>>,
) -> Result<EntryRoom<M::Kind>, NoMem>
    ensures { IfOk result (λ room. room ≡ call_room caller number call.now) }
{
    let taken_out = room_for_taken_out(alloc, &call.request)?;
    let event = Event::Asked(copy_request(alloc, &call.request)?);
    let entry = Entry::new(Who::Caller(caller), call.end, event, Answer::Broke);
    // A `?` would move the entry once more, as it comes back where there is no memory.
    match Box::new(alloc, entry) {
        Ok(entry) => Ok(EntryRoom {
            caller,
            number,
            entry,
            taken_out,
        }),
        Err(_) => Err(NoMem),
    }
}

/// Room for the entry of a message that comes in: the entry, in its box, as it is if the stream breaks. Fails
/// only when memory runs out.
pub fn room_for_arrival<K: Drop>(alloc: Global, m: &Message) -> Result<Box<Entry<K>>, NoMem>
    ensures { IfOk result (λ entry. entry.value ≡ arrival_entry m.now Broke [] 0) }
{
    let event = Event::Arrived(BoxedMessage::new(alloc, m.copy()?)?);
    let entry = Entry::new(Who::Line, End::A, event, Answer::Broke);
    match Box::new(alloc, entry) {
        Ok(entry) => Ok(entry),
        Err(_) => Err(NoMem),
    }
}

/// The entry of a message that came in, which was taken, and took no module out. Takes no memory.
pub fn taken<K: Drop>(mut entry: Box<Entry<K>>, moves: Moves, looks: Looks) -> Kept<K>
    ensures { result ≡ with_outcome entry.value (Done Replies.Line) moves looks (record { items = [] }) }
{
    entry.fill(Answer::Done(Reply::Line), moves, ServiceInfo::Looks(looks));
    Kept::plain(entry)
}

impl<K: Drop> EntryRoom<K> {
    /// Fills the entry of the call with its outcome and its modules that came back, with the serials of those
    /// that it took out, and sets it into a cell: as the history has it, and as the receipt shows it. There
    /// is no receipt where the cell did not take the entry. Takes no memory.
    pub fn fill<M: ModuleOf>(
        self,
        cell: EntryCell<K>,
        answer: Answer,
        moves: Moves,
        looks: Looks,
        back: &ArrayVec<Option<BoxedModule<M>>, MOST_MODULES>,
    ) -> (Kept<K>, Option<Receipt<K>>)
        requires { may_take_out self.event ≡ false → out_in answer back.now.items ≡ [] }
        ensures kept { result.0 ≡ filled self answer moves looks (out_in answer back.now.items) }
        ensures shown { IfSome result.1 (λ r. r ≡ filled_receipt self answer moves looks (out_in answer back.now.items)) }
    {
        let EntryRoom {
            caller,
            number,
            mut entry,
            taken_out,
        } = self;
        let service = ServiceInfo::new(looks, &answer, back, taken_out);
        entry.fill(answer, moves, service);
        let (held, other) = cell.set(caller, entry);
        let receipt = match other {
            Some(other) => Some(Receipt::new(number, other)),
            None => None,
        };
        (Kept::of(held), receipt)
    }
}
