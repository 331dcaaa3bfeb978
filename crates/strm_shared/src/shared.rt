//! A stream that several callers share.
ghost use Rattle.std.specs.Prelude.{◌≡◌, ◌↔◌, ◌+◌, ◌<◌, ◌^◌, true, IfOk, IfSome, IfNone, OnOk, OnErr, IsErrOf};
ghost use Rattle.std.specs.Sync.Mutex.{mutex_guard_value};
ghost use Rattle.strm_head_calls.specs.Setup.{is_fit};
ghost use Rattle.strm_shared_log.specs.Log.{fresh_log, Equals};
ghost use Rattle.strm_shared_log.specs.Piece.{fresh_drain, TakesNext};
ghost use Rattle.strm_shared_log.specs.Serials.{AreAccounted};
ghost use Rattle.strm_shared_log.specs.Opened.{opened};
ghost use Rattle.strm_shared_ring.specs.Feed.{fresh_feeder};
ghost use Rattle.strm_shared.specs.Ending.{fresh_seats, is_fed, AreSeats, AreShown, room_of, CountsAgree, Counted, HandsBack, Shows, LacksReceipt, IsLegalEnd, HasAccepted};
ghost use Rattle.strm_shared_entry.specs.Own.{AreFromSeats};
ghost use Rattle.strm_shared.specs.CallCounts.{FollowsCalls, IsNextCall};
ghost use Rattle.strm_shared.specs.Waiting.{NeedNotWait, WaitedFor};

use crate::bell::Bell;
use crate::ending::{have_ended, left_of};
use crate::fault::EndFault;
use crate::seat::Seat;
use crate::state::{Readiness, SharedState};
use std::alloc::Global;
use std::marker::Model;
use std::sync::{Arc, Condvar, Mutex, MutexGuard, Wait};
use strm_head_calls::{ReplyAndCopy, ReplyForm};
use strm_module::{BoxedModule, ModuleOf};
use strm_msg::NoMem;
use strm_shared_ended::Ended;
use strm_shared_log::{Call, Called, Drain, EntryRoom, Log, Piece, Setup, room_for};
use strm_shared_ring::{AnyCalls, FeedEnd, Feeder, Ring, StreamRunName};

/// A stream that several callers share.
///
/// A contract sees its number, its setup, and the number of its callers.
#[derive(Drop)]
pub struct Shared<M: ModuleOf, N: StreamRunName<M::Kind> = AnyCalls> {
    number: u32,
    setup: Setup,
    seats: u32,
    alloc: Global,
    locked: Mutex<SharedState<M, N>>,
    changed: Condvar,
    bell: Option<Arc<Bell, Global>>,
}

impl<M: ModuleOf, N: StreamRunName<M::Kind>> Model for Shared<M, N> {
    ghost use Rattle.strm_shared.specs.Ending.{SharedValue};

    ghost Value = { SharedValue };

    ghost view = { λ s. record { number = s.number; setup = s.setup; seats = s.seats } };
}

/// A seat for each caller, that has made no call. Fails only when memory runs out.
fn seats_of(alloc: Global, number: u32, callers: u32) -> Result<Vec<Seat>, NoMem>
    ensures { IfOk result (λ seats. seats.items ≡ fresh_seats number callers) }
{
    let mut seats = Vec::new(alloc);
    for caller in 0..callers {
        seats.push(Seat::new(number, caller))?;
    }
    Ok(seats)
}

impl<M: ModuleOf, N: StreamRunName<M::Kind>> Shared<M, N> {
    /// Makes a stream by the setup of its ring, with a seat for each of its callers, numbered from 0, and for
    /// a line a feeder. The number is the caller's to choose; seats and feeder have it too.
    ///
    /// To be called with marks of which each low one is below its high one, and with the ring that the run
    /// names at this number: `AnyCalls` has none, and so no lines. Fails only when memory runs out.
    pub fn new(
        alloc: Global,
        number: u32,
        seats: u32,
        ring: Ring,
    ) -> Result<(Shared<M, N>, Vec<Seat>, Option<Feeder<M::Kind, N>>), NoMem>
        requires marks { is_fit ring.setup ≡ true }
        requires name { ring.name ≡ N.ring number }
        ensures shared { IfOk result (λ all. all.0 ≡ record { number = number; setup = ring.setup; seats = seats }) }
        ensures seats { IfOk result (λ all. all.1.items ≡ fresh_seats number seats) }
        ensures feeder { IfOk result (λ all. all.2 ≡ fresh_feeder number ring.setup) }
    {
        let Ok(log) = Log::new(alloc, ring.setup()) else {
            drop(ring);
            return Err(NoMem);
        };
        Shared::of_log(alloc, number, seats, ring, log)
    }

    /// Makes a stream as `new` does, with a drain by which its history is taken while it goes on (`drain`).
    /// The drain counts the calls of each caller. Fails only when memory runs out.
    pub fn with_drain(
        alloc: Global,
        number: u32,
        seats: u32,
        ring: Ring,
    ) -> Result<
        (
            Shared<M, N>,
            Vec<Seat>,
            Option<Feeder<M::Kind, N>>,
            Drain<M::Kind>,
        ),
        NoMem,
    >
        requires marks { is_fit ring.setup ≡ true }
        requires name { ring.name ≡ N.ring number }
        ensures shared { IfOk result (λ all. all.0 ≡ record { number = number; setup = ring.setup; seats = seats }) }
        ensures seats { IfOk result (λ all. all.1.items ≡ fresh_seats number seats) }
        ensures feeder { IfOk result (λ all. all.2 ≡ fresh_feeder number ring.setup) }
        ensures drain { IfOk result (λ all. all.3 ≡ fresh_drain seats) }
    {
        let Ok((log, drain)) = Log::with_drain(alloc, ring.setup(), seats) else {
            drop(ring);
            return Err(NoMem);
        };
        let Ok((shared, all, feeder)) = Shared::of_log(alloc, number, seats, ring, log) else {
            drop(drain);
            return Err(NoMem);
        };
        Ok((shared, all, feeder, drain))
    }

    /// Makes a stream of a log that was just made by the setup of a ring.
    fn of_log(
        alloc: Global,
        number: u32,
        seats: u32,
        ring: Ring,
        log: Log<M>,
    ) -> Result<(Shared<M, N>, Vec<Seat>, Option<Feeder<M::Kind, N>>), NoMem>
        requires log { log ≡ fresh_log ring.setup }
        requires name { ring.name ≡ N.ring number }
        ensures shared { IfOk result (λ all. all.0 ≡ record { number = number; setup = ring.setup; seats = seats }) }
        ensures seats { IfOk result (λ all. all.1.items ≡ fresh_seats number seats) }
        ensures feeder { IfOk result (λ all. all.2 ≡ fresh_feeder number ring.setup) }
    {
        let setup = ring.setup();
        let (inlet, feeder) = ring.into_ends(number);
        let Ok(all) = seats_of(alloc, number, seats) else {
            drop(log);
            drop(inlet);
            drop(feeder);
            return Err(NoMem);
        };
        let Ok(locked) = SharedState::new(alloc, number, seats, inlet, log) else {
            drop(all);
            drop(feeder);
            return Err(NoMem);
        };
        let shared = Shared {
            number,
            setup,
            seats,
            alloc,
            locked: Mutex::new(locked),
            changed: Condvar::new(),
            bell: None,
        };
        Ok((shared, all, feeder))
    }

    /// The stream with a bell, in place of the one that it had. It rings the bell whenever it may have
    /// changed, after its lock was given back.
    ///
    /// Each call rings that let in messages of the line. So does each other call, but for two kinds. One was
    /// refused; the other only looks, as a poll, a peek and an I_NREAD do (streamio(7)). So a caller who
    /// tries or polls its streams in turn does not ring for itself.
    pub fn with_bell(self, bell: Arc<Bell, Global>) -> Shared<M, N>
        ensures { result ≡ self }
    {
        Shared {
            bell: Some(bell),
            ..self
        }
    }

    /// The number.
    pub fn number(&self) -> u32
        ensures { result ≡ self.now.number }
    {
        self.number
    }

    /// The setup of the stream.
    pub fn setup(&self) -> Setup
        ensures { result ≡ self.now.setup }
    {
        self.setup
    }

    /// Makes one call of a caller, under the lock. First the messages of the line come in that can, each a
    /// step of the stream and an entry of the history. Then the call is made: a step of the stream, and an
    /// entry of the history with the caller, the call and the answer. The seat counts it. Or the call comes
    /// back when memory runs out, for its entry or for a message of the line, or since the seat can count no
    /// more. Then the call has changed nothing.
    ///
    /// To be called with a seat of this number, and with the call that the run has next for it; in a run of
    /// `AnyCalls` any is. Modules that come back are the caller's, and are not dropped under the lock. The
    /// receipt is of the seat's next call: its entry is the one that the history has, with this caller, end,
    /// request and answer.
    pub fn call<R: Wait>(
        &self,
        rt: &R,
        seat: &mut Seat,
        call: Call<BoxedModule<M>>,
    ) -> Called<BoxedModule<M>, M::Kind>
        requires number { seat.old.number ≡ self.now.number }
        requires next { IsNextCall N.calls seat.old call }
        ensures counts { Counted call seat.old result seat.new }
        ensures back { HandsBack Equals call result }
        ensures shown { Shows Equals seat.old call result }
    {
        self.enter::<ReplyAndCopy, R>(rt, seat, call)
    }

    /// Makes one call of a caller, as `call` makes it. The caller has the copy that comes with the answer:
    /// with `ReplyAndCopy` an equal one; with `Reply` nothing, and the receipt shows the answer.
    pub fn enter<A: ReplyForm, R: Wait>(
        &self,
        rt: &R,
        seat: &mut Seat,
        call: Call<BoxedModule<M>>,
    ) -> Called<BoxedModule<M>, M::Kind, A::CallerCopy>
        requires number { seat.old.number ≡ self.now.number }
        requires next { IsNextCall N.calls seat.old call }
        ensures counts { Counted call seat.old result seat.new }
        ensures back { HandsBack A.Agrees call result }
        ensures shown { Shows A.Agrees seat.old call result }
    {
        let Ok(room) = self.room_for_next(seat, &call) else {
            return Called::NoRoom(call);
        };
        let mut locked = self.locked.lock(rt);
        if self.bell.is_some() || locked.is_awaited() {
            return self.call_and_tell::<A, R>(rt, locked, seat, call, room);
        }
        locked.call::<A>(seat, call, room)
    }

    /// Makes one call of a caller, as `enter` makes it, as soon as it need not wait. While it would be
    /// refused with EAGAIN, the caller sleeps. It looks again when the stream may have changed, or `wake` was
    /// called. So a getmsg(2) waits for a message, and a putmsg(2) or a write(2) for room. Any other refusal
    /// comes at once, such as that of an end that was hung up or closed meanwhile.
    ///
    /// Before each look the messages of the line come in that can. No other call comes between the last look
    /// and this one. The call comes back when memory runs out, for its entry or for a message of the line. It
    /// also comes back where the seat can count no more. Then it has changed nothing.
    ///
    /// It may sleep for ever. Nothing is said of who comes first, or that anybody does. An ioctl for which no
    /// id is left sleeps for good: ids do not come back (I_STR, streamio(7)). A feeder wakes nobody, so a
    /// program that feeds a line calls `wake`. A caller that is to stop is best woken by a hangup, or by a
    /// close of the end.
    pub fn call_waiting<A: ReplyForm, R: Wait>(
        &self,
        rt: &R,
        seat: &mut Seat,
        call: Call<BoxedModule<M>>,
    ) -> Called<BoxedModule<M>, M::Kind, A::CallerCopy>
        requires number { seat.old.number ≡ self.now.number }
        requires next { IsNextCall N.calls seat.old call }
        ensures counts { Counted call seat.old result seat.new }
        ensures back { HandsBack A.Agrees call result }
        ensures shown { Shows A.Agrees seat.old call result }
        ensures waited { WaitedFor A.Agrees result }
    {
        let Ok(room) = self.room_for_next(seat, &call) else {
            return Called::NoRoom(call);
        };
        let (mut locked, before, is_ready) = self.lock_when_ready(rt, &call);
        let called = locked.call_if::<A>(is_ready, seat, call, room);
        let is_news = locked.take_news(before, self.bell.is_some());
        drop(locked);
        self.tell(rt, is_news);
        called
    }

    /// Lets those who sleep on the stream look again, and rings its bell. To be called after a feeder has
    /// taken a message: a feeder takes no lock and wakes nobody.
    pub fn wake<R: Wait>(&self, rt: &R) {
        let is_awaited = self.locked.lock(rt).take_sleepers();
        self.tell(rt, is_awaited || self.bell.is_some());
    }

    /// Hands out the history so far to the stream's drain, in order, and takes it there as one piece; the
    /// stream goes on. `None` where nothing was entered since the last piece. The stream then keeps nothing of
    /// its history, so a stream that is drained now and then can go on for days.
    ///
    /// Whatever calls come in between, the pieces, one behind another, are one legal history. A call whose
    /// entry is in a piece has a receipt that this piece holds, and no other does (`Piece::holds`). Where memory
    /// runs out, the piece stays to be taken by the next call, and nothing is lost. To be called with the drain
    /// that came with the stream: that of another stream takes what that stream has handed out.
    pub fn drain<R: Wait>(
        &self,
        rt: &R,
        drain: &mut Drain<M::Kind>,
    ) -> Result<Option<Piece<M::Kind>>, NoMem>
        ensures next { IfOk result (λ found. IfSome found (λ piece. TakesNext M.Kind.means drain.old piece drain.new)) }
        ensures none { IfOk result (λ found. IfNone found (drain.new ≡ drain.old)) }
        ensures err { OnErr result (drain.new ≡ drain.old) }
    {
        let _ = self.locked.lock(rt).hand_out();
        drain.take()
    }

    /// Room for the entry of the seat's next call. Fails when memory runs out, and where the seat can count
    /// no more.
    #[inline(always)]
    fn room_for_next(
        &self,
        seat: &Seat,
        call: &Call<BoxedModule<M>>,
    ) -> Result<EntryRoom<M::Kind>, NoMem>
        ensures counts { IfOk result (λ room. seat.now.calls + 1 < 2 ^ 64) }
        ensures room { IfOk result (λ room. room ≡ room_of seat.now call.now) }
    {
        if seat.calls() == u64::MAX {
            return Err(NoMem);
        }
        room_for(self.alloc, seat.caller(), seat.calls() + 1, call)
    }

    /// Makes one call of a seat under the lock, gives it back, and tells those who wait if there is news.
    #[inline(never)]
    fn call_and_tell<A: ReplyForm, R: Wait>(
        &self,
        rt: &R,
        mut locked: MutexGuard<'_, SharedState<M, N>>,
        seat: &mut Seat,
        call: Call<BoxedModule<M>>,
        room: EntryRoom<M::Kind>,
    ) -> Called<BoxedModule<M>, M::Kind, A::CallerCopy>
        requires room { room ≡ room_of seat.old call }
        requires next { IsNextCall N.calls seat.old call }
        requires counts { seat.old.calls + 1 < 2 ^ 64 }
        ensures counts { Counted call seat.old result seat.new }
        ensures back { HandsBack A.Agrees call result }
        ensures shown { Shows A.Agrees seat.old call result }
    {
        let (called, is_news) = locked.call_with_news::<A>(self.bell.is_some(), seat, call, room);
        drop(locked);
        self.tell(rt, is_news);
        called
    }

    /// Takes the lock when a call need not wait, or when memory ran out for a message of the line. With it
    /// comes the number of entries that the history had before the last messages came in, and whether the
    /// call need not wait.
    fn lock_when_ready<R: Wait>(
        &self,
        rt: &R,
        call: &Call<BoxedModule<M>>,
    ) -> (MutexGuard<'_, SharedState<M, N>>, usize, bool)
        ensures { result.2 ≡ true → NeedNotWait M.Kind.means (mutex_guard_value result.0).log.image call.now }
    {
        let mut locked = self.locked.lock(rt);
        for _ in rt.forever() {
            let before = locked.count_entries();
            match locked.readiness(call) {
                Readiness::Ready => return (locked, before, true),
                Readiness::NoMem => return (locked, before, false),
                Readiness::Waits => locked = self.changed.wait(rt, locked),
            }
        }
        unreachable!()
    }

    /// Where there is news, wakes those who sleep on the stream, and rings its bell. To be called when the
    /// lock was given back.
    fn tell<R: Wait>(&self, rt: &R, is_news: bool) {
        if is_news {
            self.changed.notify_all();
            if let Some(bell) = &self.bell {
                bell.ring(rt);
            }
        }
    }

    /// Ends the stream, when no caller and no feeder has it any more: its whole history, the stream to which
    /// the history leads, and the messages that were accepted and had not come in.
    ///
    /// Refused, in this order. With `Seats` exactly where the seats are not those of this number, one for
    /// each caller, in any order. With `Unfinished` where a line's feeder is not shown to have ended, or the
    /// state under the lock does not agree: it has another number or setup, calls of a seat that is not of
    /// this stream, or another number of calls than a seat counts. With `NoReceipt` where a call that was
    /// made has no receipt. With `Drained` where a part of the history was handed out; such a stream is drained
    /// until nothing comes, and dropped. And with `NoMem` when memory runs out for the end of the stream. Then
    /// all is dropped.
    pub fn end(
        self,
        seats: Vec<Seat>,
        feed: Option<FeedEnd<M::Kind, N>>,
    ) -> Result<Ended<M>, EndFault>
        ensures legal { IfOk result (λ ended. IsLegalEnd M.Kind.means self.setup ended) }
        ensures accounts { IfOk result (λ ended. AreAccounted (opened self.setup) ended.history ended.stream) }
        ensures callers { IfOk result (λ ended. AreFromSeats self.seats ended.history) }
        ensures counts { IfOk result (λ ended. CountsAgree ended.history seats.items) }
        ensures first { IfOk result (λ ended. FollowsCalls (N.calls self.number) ended.history) }
        ensures arrived { IfOk result (λ ended. HasAccepted ended feed) }
        ensures fed { OnOk result (is_fed self.number self.setup feed ≡ true) }
        ensures seated { OnOk result (AreSeats self.number self.seats seats.items) }
        ensures shown { OnOk result (AreShown seats.items) }
        ensures seats { IsErrOf result EndFault.Seats ↔ (AreSeats self.number self.seats seats.items → ⊥) }
        ensures no_receipt { IsErrOf result EndFault.NoReceipt → LacksReceipt self seats.items feed }
        ensures drained { IsErrOf result EndFault.Drained → AreShown seats.items }
        ensures memory { IsErrOf result EndFault.NoMem → AreShown seats.items }
    {
        let Shared {
            number,
            setup,
            seats: callers,
            alloc,
            locked,
            changed: _,
            bell: _,
        } = self;
        let locked = locked.into_inner();
        match have_ended(number, setup, callers, &locked, seats.as_slice(), &feed) {
            Ok(()) => {}
            Err(fault) => {
                drop(locked);
                drop(feed);
                return Err(fault);
            }
        }
        left_of(alloc, callers, locked, feed)
    }
}
