//! A stream that keeps its history.
ghost use Rattle.std.specs.Prelude.{◌≡◌, ◌↔◌, ◌<◌, true, false, IfOk, OnOk, IsErrOf};
ghost use Rattle.strm_msg.specs.Kind.{is_from_line};
ghost use Rattle.strm_head_calls.specs.Setup.{is_fit};
ghost use Rattle.strm_shared_log.specs.History.{Legal};
ghost use Rattle.strm_shared_entry.specs.Called.{is_done};
ghost use Rattle.strm_shared_log.specs.Log.{CallsBy, Equals, HandsOutIf, IsSameLog, LeavesRoom, Lands, fresh_log};
ghost use Rattle.strm_shared_log.specs.Piece.{fresh_drain};
ghost use Rattle.strm_head_calls.specs.declared.event.Event.TheVariants.{Asked};
ghost use Rattle.strm_shared_log.specs.Serials.{AreAccounted};
ghost use Rattle.strm_shared_log.specs.Opened.{opened};

use crate::drain::{Drain, Outlet};
use crate::part::Part;
use arrayvec::ArrayVec;
use std::alloc::Global;
use std::marker::Model;
use std::mem;
use strm_head::{Arrived, NewFault, StepResult, Stream};
use strm_head_calls::{Call, ReplyAndCopy, ReplyForm, Setup};
use strm_module::{BoxedModule, ModuleOf};
use strm_msg::{Message, NoMem};
use strm_shared_entry::{
    Called, Entry, EntryCell, EntryRoom, Kept, Landed, room_for, room_for_arrival, taken,
};
use strm_shared_once::Cells;

/// A stream that keeps its history.
///
/// The history leads by legal steps from a stream that was just made by the setup to the stream as it
/// is. Each call that is made and each message that comes in is one step, with one entry. A log with a drain
/// can hand out its history while it goes on; then it keeps the entries behind those that it has handed out.
///
/// A contract sees the whole history, and the part of it that is kept.
#[derive(Drop)]
pub struct Log<M: ModuleOf> {
    setup: Setup,
    stream: Stream<M>,
    kept: Vec<Kept<M::Kind>>,
    cells: Cells<Entry<M::Kind>>,
    alloc: Global,
    outlet: Option<Outlet<M::Kind>>,
    is_whole: bool,
}

impl<M: ModuleOf> Model for Log<M> {
    ghost use Rattle.std.specs.Prelude.{◌-◌, ◌++◌, vec_len};
    ghost use Rattle.std.specs.Vec.{vec_capacity};
    ghost use Rattle.strm_shared_log.specs.Log.{LogValue};
    ghost use Rattle.strm_shared_log.specs.Outlet.{gone_of, IsLog};

    ghost Value = { LogValue M.Kind };

    ghost view = { λ s. record {
      setup = s.setup;
      image = s.stream;
      history = gone_of s.outlet ++ s.kept.items;
      kept = s.kept.items;
      room = vec_capacity s.kept - vec_len s.kept;
    } };

    ghost invariant = { λ s. IsLog M.Kind.means s.setup s.stream s.outlet s.kept.items s.is_whole };
}

impl<M: ModuleOf> Log<M> {
    /// A stream that was just made, with an empty history.
    ///
    /// Refused with `Marks` exactly where a low mark is not below its high one, and with `NoMem` when memory
    /// runs out.
    pub fn new(alloc: Global, setup: Setup) -> Result<Log<M>, NewFault>
        ensures ok { IfOk result (λ log. log ≡ fresh_log setup) }
        ensures marks { IsErrOf result NewFault.Marks ↔ (is_fit setup ≡ false) }
    {
        let stream = Stream::new(alloc, setup.driver, setup.head, setup.drv)?;
        let Ok(cells) = Cells::new(alloc) else {
            return Err(NewFault::NoMem);
        };
        Ok(Log {
            setup,
            stream,
            kept: Vec::new(alloc),
            cells,
            alloc,
            outlet: None,
            is_whole: true,
        })
    }

    /// A stream that was just made, with a drain to which it can hand out its history while it goes on
    /// (`hand_out`). The drain counts the calls of so many callers. Refused as `new` is.
    pub fn with_drain(
        alloc: Global,
        setup: Setup,
        callers: u32,
    ) -> Result<(Log<M>, Drain<M::Kind>), NewFault>
        ensures log { IfOk result (λ both. both.0 ≡ fresh_log setup) }
        ensures drain { IfOk result (λ both. both.1 ≡ fresh_drain callers) }
        ensures marks { IsErrOf result NewFault.Marks ↔ (is_fit setup ≡ false) }
    {
        let log = Log::new(alloc, setup)?;
        let Ok((outlet, drain)) = Drain::new(alloc, callers) else {
            drop(log);
            return Err(NewFault::NoMem);
        };
        let log = Log {
            outlet: Some(outlet),
            ..log
        };
        Ok((log, drain))
    }

    /// Makes one call of a caller, its call of this number: a step of the stream, and an entry of the history
    /// that has the caller, the call and its answer. The receipt shows this entry. The caller has an equal
    /// answer. The number is for the user to count.
    ///
    /// Room for the entry is found first, and the request is copied for it. Where memory runs out for that,
    /// the call comes back and nothing is changed.
    pub fn call(
        &mut self,
        caller: u32,
        number: u64,
        call: Call<BoxedModule<M>>,
    ) -> Called<BoxedModule<M>, M::Kind>
        ensures { CallsBy M.Kind.means Equals self.old caller number call result self.new }
    {
        let Ok(room) = room_for(self.alloc, caller, number, &call) else {
            return Called::NoRoom(call);
        };
        let Ok(cell) = self.reserve() else {
            drop(room);
            return Called::NoRoom(call);
        };
        self.enter::<ReplyAndCopy>(call, room, cell)
    }

    /// Finds a cell for the entry of a call, and room for it in the history. Messages that come in meanwhile
    /// leave that room there. Fails only when memory runs out.
    pub fn reserve(&mut self) -> Result<EntryCell<M::Kind>, NoMem>
        ensures same { IsSameLog self.old self.new }
        ensures room { OnOk result (0 < self.new.room) }
    {
        self.kept.reserve(1)?;
        Ok(self.cells.next(self.alloc)?)
    }

    /// Makes one call, as `call` makes it, with room that was found for its entry before, as where a lock is
    /// held for the call. With `ReplyAndCopy` the caller has an equal answer; with `Reply` it has none, and
    /// the answer is in the history alone.
    ///
    /// To be called with a cell, where the history has room for one entry more (`reserve`). The call is made,
    /// whatever its answer.
    pub fn enter<A: ReplyForm>(
        &mut self,
        call: Call<BoxedModule<M>>,
        room: EntryRoom<M::Kind>,
        cell: EntryCell<M::Kind>,
    ) -> Called<BoxedModule<M>, M::Kind, A::CallerCopy>
        requires asked { (room.end ≡ call.end) × (room.event ≡ Asked call.request) }
        requires room { 0 < self.old.room }
        ensures made { is_done result ≡ true }
        ensures call { CallsBy M.Kind.means A.Agrees self.old room.caller room.number call result self.new }
    {
        let Call { end, request } = call;
        let mut back = ArrayVec::new();
        let answered: StepResult<A> = self.stream.call(end, request, &mut back);
        let (answer, beside, settled) = answered.into_parts();
        let (kept, receipt) = room.fill(cell, answer, settled.moves, settled.looks, &back);
        self.kept.push_reserved(kept);
        Called::Done {
            answer: beside,
            back,
            receipt,
        }
    }

    /// Lets a message come in from a line: a step of the stream and an entry of the history. Or the message
    /// comes back and nothing is changed.
    ///
    /// To be called with a message of a kind that comes from a line (`Message::from_line`). One that cannot
    /// come in comes back as `Full`, whatever memory there is. Then room for the entry is found, in addition
    /// to that for a call (`reserve`), and the message is copied for it.
    #[inline(never)]
    pub fn arrive(&mut self, m: Message) -> Landed
        requires { is_from_line m.kind ≡ true }
        ensures landed { Lands M.Kind.means self.old m result self.new }
        ensures room { LeavesRoom self.old self.new }
    {
        if !self.stream.can_arrive(&m) {
            return Landed::Full(m);
        }
        let Ok(entry) = room_for_arrival(self.alloc, &m) else {
            return Landed::NoMem(m);
        };
        if self.kept.reserve(2).is_err() {
            drop(entry);
            return Landed::NoMem(m);
        }
        match self.stream.arrive(m) {
            Arrived::Taken { moves, looks } => {
                self.kept.push_reserved(taken(entry, moves, looks));
                Landed::Entered
            }
            Arrived::Broke => {
                self.kept.push_reserved(Kept::plain(entry));
                Landed::Entered
            }
            Arrived::Full(m) => {
                drop(entry);
                Landed::Full(m)
            }
            Arrived::NoMem(m) => {
                drop(entry);
                Landed::NoMem(m)
            }
        }
    }

    /// The setup of the stream.
    pub fn setup(&self) -> Setup
        ensures { result ≡ self.now.setup }
    {
        self.setup
    }

    /// The stream as it is.
    pub fn stream(&self) -> &Stream<M>
        ensures { result.now ≡ self.now.image }
    {
        &self.stream
    }

    /// The history of the stream as it is kept, in order: all of it, or the entries behind those that were
    /// handed out.
    pub fn history(&self) -> &[Kept<M::Kind>]
        ensures { result.now ≡ self.now.kept }
    {
        self.kept.as_slice()
    }

    /// Whether all of the history is kept, so that none was handed out.
    pub fn is_whole(&self) -> bool
        ensures { result ≡ true → self.now.kept ≡ self.now.history }
    {
        self.is_whole
    }

    /// Hands out the history as it is kept to the drain, as one piece, and returns whether it did. The stream
    /// goes on. Where nothing is kept there is nothing to hand out. Nothing is changed either where there is
    /// no drain, or where the drain has not taken the last piece. Takes no memory.
    pub fn hand_out(&mut self) -> bool
        ensures { HandsOutIf result self.old self.new }
    {
        if self.kept.is_empty() {
            return false;
        }
        let Some(outlet) = &mut self.outlet else {
            return false;
        };
        if outlet.is_full() {
            return false;
        }
        let entries = mem::replace(&mut self.kept, Vec::new(self.alloc));
        outlet.push_reserved(Part {
            setup: self.setup,
            entries,
        });
        self.is_whole = false;
        true
    }

    /// The history as it is kept, and the stream to which it leads. Each module that was put in was taken
    /// out, or is there.
    pub fn into_parts(self) -> (Vec<Kept<M::Kind>>, Stream<M>)
        ensures kept { result.0.items ≡ self.kept }
        ensures stream { result.1 ≡ self.image }
        ensures legal { Legal M.Kind.means (opened self.setup) self.history self.image }
        ensures accounts { AreAccounted (opened self.setup) self.history self.image }
    {
        let Log {
            setup: _,
            stream,
            kept,
            cells: _,
            alloc: _,
            outlet: _,
            is_whole: _,
        } = self;
        (kept, stream)
    }
}
