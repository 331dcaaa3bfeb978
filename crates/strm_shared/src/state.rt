//! The state under the lock of a shared stream.
ghost use Rattle.std.specs.Prelude.{◌≡◌, ◌↔◌, ◌+◌, ◌<◌, ◌^◌, true, false, IfOk, length};
ghost use Rattle.strm_module.specs.Driver.{is_line};
ghost use Rattle.strm_shared_entry.specs.Own.{arrivals};
ghost use Rattle.strm_shared_entry.specs.Called.{is_done};
ghost use Rattle.strm_shared_log.specs.Log.{fresh_log, HandsOutIf, LeavesRoom};
ghost use Rattle.strm_shared_ring.specs.Inlet.{fresh_inlet};
ghost use Rattle.strm_shared.specs.Ending.{room_of, Counted};
ghost use Rattle.strm_shared.specs.CallCounts.{fresh_counts, turned, IsNextCall, KeepsTurns, SeatsAgree};
ghost use Rattle.strm_shared.specs.Arrivals.{Intakes, SeatCalls, SeatCallsAfter, TakesAll};
ghost use Rattle.strm_shared.specs.Waiting.{has_memory, Foretells, HasNews, MustWait, NeedNotWait, WaitedFor};

use crate::call_counts::CallCounts;
use crate::news::has_news;
use crate::seat::Seat;
use std::alloc::Global;
use std::marker::Model;
use strm_head_calls::{Refusal, ReplyForm};
use strm_module::{BoxedModule, ModuleOf};
use strm_msg::NoMem;
use strm_shared_log::{Call, Called, EntryCell, EntryRoom, Landed, Log, Setup};
use strm_shared_ring::{Inlet, StreamRunName};

/// The state under the lock of a shared stream: the number of the stream, the stream with its history, the
/// number of calls that each caller has made there, and the inlet for the messages of a line.
///
/// While the calls are in turn, the counts are those of the history, and the calls of each caller are the
/// first of those that the run has for it. The messages that came in, as the history has them, are those that
/// have left the inlet.
///
/// A contract does not see whether somebody sleeps until the stream changes.
#[derive(Drop)]
pub(crate) struct SharedState<M: ModuleOf, N: StreamRunName<M::Kind>> {
    number: u32,
    log: Log<M>,
    turns: CallCounts,
    inlet: Inlet<M::Kind, N>,
    is_awaited: bool,
}

impl<M: ModuleOf, N: StreamRunName<M::Kind>> Model for SharedState<M, N> {
    ghost use Rattle.strm_shared.specs.CallCounts.{SharedStateValue, IsSharedState};

    ghost Value = { SharedStateValue M.Kind };

    ghost view = { λ s. record { number = s.number; log = s.log; turns = s.turns; inlet = s.inlet } };

    ghost invariant = { λ s. IsSharedState (N.calls s.number) s.number s.log s.turns s.inlet };
}

/// The outcome of the next message of a line.
#[derive(Clone, Copy)]
pub(crate) enum Intake {
    /// It came in.
    Entered,
    /// There is none, or it cannot come in yet, and is held back.
    HeldBack,
    /// Memory ran out for it, and it is held back.
    NoMem,
}

/// Whether a call can be made now, or its caller has to wait.
#[derive(Clone, Copy)]
pub(crate) enum Readiness {
    /// It need not wait.
    Ready,
    /// It must wait: it would be refused with EAGAIN.
    Waits,
    /// Memory ran out for a message of the line.
    NoMem,
}

impl<M: ModuleOf, N: StreamRunName<M::Kind>> SharedState<M, N> {
    /// A stream that was just made, on which no caller has made a call, with the inlet of its ring. Fails
    /// only when memory runs out.
    pub(crate) fn new(
        alloc: Global,
        number: u32,
        callers: u32,
        inlet: Inlet<M::Kind, N>,
        log: Log<M>,
    ) -> Result<SharedState<M, N>, NoMem>
        requires log { log ≡ fresh_log log.setup }
        requires inlet { inlet ≡ fresh_inlet number (is_line log.setup.driver) }
        ensures number { IfOk result (λ all. all.number ≡ number) }
        ensures log { IfOk result (λ all. all.log ≡ log) }
        ensures turns { IfOk result (λ all. all.turns ≡ fresh_counts callers) }
    {
        let turns = CallCounts::new(alloc, callers)?;
        Ok(SharedState {
            number,
            log,
            turns,
            inlet,
            is_awaited: false,
        })
    }

    /// Whether it is the state under the lock of the stream of this number and setup.
    pub(crate) fn is_of(&self, number: u32, setup: Setup) -> bool
        ensures { result ≡ true ↔ (self.now.number ≡ number) × (self.now.log.setup ≡ setup) }
    {
        self.number == number && self.log.setup() == setup
    }

    /// Whether all of the history is kept.
    pub(crate) fn is_whole(&self) -> bool
        ensures { result ≡ true → self.now.log.kept ≡ self.now.log.history }
    {
        self.log.is_whole()
    }

    /// Whether the calls are in turn, those of as many callers, and each seat counts as many as its caller
    /// has made.
    pub(crate) fn seats_agree(&self, callers: u32, seats: &[Seat]) -> bool
        ensures { result ≡ true ↔ SeatsAgree self.now.turns callers seats.now }
    {
        self.turns.seats_agree(callers, seats)
    }

    /// Lets the next message of the line come in, if there is one and it can. Else it is held back, and
    /// nothing is changed. Room for a call's entry stays.
    #[inline(never)]
    fn admit_next(&mut self) -> Intake
        ensures number { self.new.number ≡ self.old.number }
        ensures log { Intakes M.Kind.means self.old.log result self.new.log self.new.inlet.held }
        ensures room { LeavesRoom self.old.log self.new.log }
        ensures turns { self.new.turns ≡ self.old.turns }
    {
        let Some(m) = self.inlet.take() else {
            return Intake::HeldBack;
        };
        match self.log.arrive(m) {
            Landed::Entered => Intake::Entered,
            Landed::Full(m) => {
                self.inlet.hold(m);
                Intake::HeldBack
            }
            Landed::NoMem(m) => {
                self.inlet.hold(m);
                Intake::NoMem
            }
        }
    }

    /// Lets messages of the line come in, in order, as long as they can, at most as many as its ring holds,
    /// and returns whether there was memory for each. The first for which there was none is held back, and
    /// none comes in behind it. Room for a call's entry stays.
    fn admit_arrivals(&mut self) -> bool
        ensures number { self.new.number ≡ self.old.number }
        ensures log { TakesAll M.Kind.means self.old.log result self.new.log self.new.inlet.held }
        ensures room { LeavesRoom self.old.log self.new.log }
        ensures turns { self.new.turns ≡ self.old.turns }
    {
        if !self.log.setup().is_line() {
            return true;
        }
        for _at in 0..self.log.setup().ring {
            match self.admit_next() {
                Intake::Entered => {}
                Intake::HeldBack => return true,
                Intake::NoMem => return false,
            }
        }
        true
    }

    /// Makes one call of a seat, as `Log::enter` makes it. The seat counts it, and it is counted in its turn.
    /// There is room for its entry in the history.
    fn enter<A: ReplyForm>(
        &mut self,
        seat: &mut Seat,
        call: Call<BoxedModule<M>>,
        room: EntryRoom<M::Kind>,
        cell: EntryCell<M::Kind>,
    ) -> Called<BoxedModule<M>, M::Kind, A::CallerCopy>
        requires room { room ≡ room_of seat.old call }
        requires next { IsNextCall N.calls seat.old call }
        requires counts { seat.old.calls + 1 < 2 ^ 64 }
        requires reserved { 0 < self.old.log.room }
        ensures number { self.new.number ≡ self.old.number }
        ensures log { SeatCalls M.Kind.means A.Agrees self.old seat.old call result self.new }
        ensures made { is_done result ≡ true }
        ensures counts { Counted call seat.old result seat.new }
        ensures turns { self.new.turns ≡ turned self.old.number seat.old result self.old.turns }
        ensures inlet { self.new.inlet ≡ self.old.inlet }
    {
        let is_next = self.turns.is_next(self.number, seat);
        let called = self.log.enter::<A>(call, room, cell);
        seat.count(called.has_receipt());
        self.turns.count(is_next, seat);
        called
    }

    /// Makes one call of a seat, with room for its entry, after the messages of the line that can come in.
    /// Its place in the history is found first. Where memory runs out for that, the call comes back and
    /// nothing came in. Where memory runs out for a message, those before it came in, that one is held back,
    /// and the call comes back.
    ///
    /// To be called with the call that the run has next for the seat, which can count one more.
    pub(crate) fn call<A: ReplyForm>(
        &mut self,
        seat: &mut Seat,
        call: Call<BoxedModule<M>>,
        room: EntryRoom<M::Kind>,
    ) -> Called<BoxedModule<M>, M::Kind, A::CallerCopy>
        requires room { room ≡ room_of seat.old call }
        requires next { IsNextCall N.calls seat.old call }
        requires counts { seat.old.calls + 1 < 2 ^ 64 }
        ensures number { self.new.number ≡ self.old.number }
        ensures log { SeatCallsAfter M.Kind.means A.Agrees self.old seat.old call result self.new }
        ensures counts { Counted call seat.old result seat.new }
        ensures turns { self.new.turns ≡ turned self.old.number seat.old result self.old.turns }
    {
        let Ok(cell) = self.log.reserve() else {
            drop(room);
            return Called::NoRoom(call);
        };
        if !self.admit_arrivals() {
            drop(cell);
            drop(room);
            return Called::NoRoom(call);
        }
        self.enter::<A>(seat, call, room, cell)
    }

    /// Whether a call would have to wait, if it were made now.
    fn would_wait(&self, call: &Call<BoxedModule<M>>) -> bool
        ensures { result ≡ true ↔ MustWait M.Kind.means self.now.log.image call.now }
    {
        matches!(
            self.log.stream().refusal(call.end, &call.request),
            Some(Refusal::WouldWait)
        )
    }

    /// Lets in the messages of the line that can come in, and says whether a call can be made then. Where it
    /// must wait, its caller is taken for one who sleeps until the stream changes.
    pub(crate) fn readiness(&mut self, call: &Call<BoxedModule<M>>) -> Readiness
        ensures number { self.new.number ≡ self.old.number }
        ensures log { TakesAll M.Kind.means self.old.log (has_memory result) self.new.log self.new.inlet.held }
        ensures turns { self.new.turns ≡ self.old.turns }
        ensures readiness { Foretells M.Kind.means self.new.log.image call.now result }
    {
        if !self.admit_arrivals() {
            return Readiness::NoMem;
        }
        if self.would_wait(call) {
            self.is_awaited = true;
            return Readiness::Waits;
        }
        Readiness::Ready
    }

    /// Makes one call of a seat that is ready, so that its answer is not that it would have to wait. Its
    /// place in the history is found first. A call that is not ready comes back, and so does one for whose
    /// place memory runs out.
    ///
    /// To be called with the call that the run has next for the seat, which can count one more.
    pub(crate) fn call_if<A: ReplyForm>(
        &mut self,
        is_ready: bool,
        seat: &mut Seat,
        call: Call<BoxedModule<M>>,
        room: EntryRoom<M::Kind>,
    ) -> Called<BoxedModule<M>, M::Kind, A::CallerCopy>
        requires ready { is_ready ≡ true → NeedNotWait M.Kind.means self.old.log.image call }
        requires room { room ≡ room_of seat.old call }
        requires next { IsNextCall N.calls seat.old call }
        requires counts { seat.old.calls + 1 < 2 ^ 64 }
        ensures number { self.new.number ≡ self.old.number }
        ensures log { SeatCalls M.Kind.means A.Agrees self.old seat.old call result self.new }
        ensures waited { WaitedFor A.Agrees result }
        ensures counts { Counted call seat.old result seat.new }
        ensures turns { self.new.turns ≡ turned self.old.number seat.old result self.old.turns }
        ensures inlet { self.new.inlet ≡ self.old.inlet }
    {
        if !is_ready {
            drop(room);
            return Called::NoRoom(call);
        }
        match self.log.reserve() {
            Ok(cell) => self.enter::<A>(seat, call, room, cell),
            Err(_) => {
                drop(room);
                Called::NoRoom(call)
            }
        }
    }

    /// Makes one call, as `call` makes it, and says whether there is news: those who sleep until the stream
    /// changes, or who hear its bell, are to look again. With a bell and no news the stream is as it was.
    pub(crate) fn call_with_news<A: ReplyForm>(
        &mut self,
        has_bell: bool,
        seat: &mut Seat,
        call: Call<BoxedModule<M>>,
        room: EntryRoom<M::Kind>,
    ) -> (Called<BoxedModule<M>, M::Kind, A::CallerCopy>, bool)
        requires room { room ≡ room_of seat.old call }
        requires next { IsNextCall N.calls seat.old call }
        requires counts { seat.old.calls + 1 < 2 ^ 64 }
        ensures number { self.new.number ≡ self.old.number }
        ensures log { SeatCallsAfter M.Kind.means A.Agrees self.old seat.old call result.0 self.new }
        ensures counts { Counted call seat.old result.0 seat.new }
        ensures turns { self.new.turns ≡ turned self.old.number seat.old result.0 self.old.turns }
        ensures still { has_bell ≡ true → result.1 ≡ false → self.new.log.image ≡ self.old.log.image }
    {
        let before = self.count_entries();
        let called = self.call::<A>(seat, call, room);
        let is_news = self.take_news(before, has_bell);
        (called, is_news)
    }

    /// Hands out the history as it is kept, as `Log::hand_out` does.
    pub(crate) fn hand_out(&mut self) -> bool
        ensures number { self.new.number ≡ self.old.number }
        ensures log { HandsOutIf result self.old.log self.new.log }
        ensures turns { self.new.turns ≡ self.old.turns }
        ensures inlet { self.new.inlet ≡ self.old.inlet }
    {
        self.log.hand_out()
    }

    /// Whether somebody sleeps until the stream changes.
    pub(crate) fn is_awaited(&self) -> bool {
        self.is_awaited
    }

    /// The number of entries of the history as it is kept.
    pub(crate) fn count_entries(&self) -> usize
        ensures { result ≡ length self.now.log.kept }
    {
        self.log.history().len()
    }

    /// Whether those who sleep until the stream changes, or who hear its bell, are to look again: the stream
    /// may have changed since this many entries were kept. Where nobody sleeps and there is no bell,
    /// nobody is told. Who is told is not taken for a sleeper any longer.
    pub(crate) fn take_news(&mut self, before: usize, has_bell: bool) -> bool
        ensures same { self.new ≡ self.old }
        ensures news { has_bell ≡ true → (result ≡ true ↔ HasNews before self.old.log.kept) }
    {
        if !self.is_awaited && !has_bell {
            return false;
        }
        let is_news = has_news(self.log.history(), before);
        self.is_awaited = self.is_awaited && !is_news;
        is_news
    }

    /// Whether somebody sleeps until the stream changes, who is then not taken for a sleeper any longer.
    pub(crate) fn take_sleepers(&mut self) -> bool
        ensures { self.new ≡ self.old }
    {
        let is_awaited = self.is_awaited;
        self.is_awaited = false;
        is_awaited
    }

    /// The stream with its history, the counts, and the inlet.
    pub(crate) fn into_parts(self) -> (Log<M>, CallCounts, Inlet<M::Kind, N>)
        ensures log { result.0 ≡ self.log }
        ensures turns { result.1 ≡ self.turns }
        ensures inlet { result.2 ≡ self.inlet }
        ensures in_turn { KeepsTurns (N.calls self.number) self.turns self.log.history }
        ensures came_in { arrivals self.log.history ≡ self.inlet.came }
        ensures of { self.inlet.number ≡ self.number }
        ensures fed { self.inlet.is_fed ≡ is_line self.log.setup.driver }
    {
        let SharedState {
            number: _,
            log,
            turns,
            inlet,
            is_awaited: _,
        } = self;
        (log, turns, inlet)
    }
}
