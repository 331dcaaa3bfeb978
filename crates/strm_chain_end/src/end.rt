//! One end of a stream.
ghost use Rattle.std.specs.Prelude.{◌≡◌, ◌∷◌, [], ◌<◌, ◌≤◌, OnOk, OnErr, IfOk, IfErr, IfSome, IfNone, Some, true, drop, length, map, option_map, option_copied, slice_get, vec_capacity};
ghost use Rattle.strm_chain_end.specs.End.{KeepsRoom, shapes_of, pair_at, list_at, end_gets, end_serves, expired_at};
ghost use Rattle.strm_chain_end.specs.Modules.{SameEnd, IsFitEnd, HoldsCalm};
ghost use Rattle.strm_chain_end.specs.Offer.{offer_at, turn_at};
ghost use Rattle.strm_chain_end.specs.Change.{has_room, inserted, removed, closed, fresh_end, is_programs, with_queue};
ghost use Rattle.strm_queue.specs.Queue.{put_back_in};
ghost use Rattle.strm_chain_end.specs.Order.{some_answers};

use crate::offer::Offer;
use crate::pair::Pair;
use crate::record::Record;
use arrayvec::ArrayVec;
use std::alloc::Global;
use std::marker::Model;
use strm_module::{BoxedModule, MOST_MODULES, ModuleOf, Outs, Shape, Turn};
use strm_msg::{BoxedMessage, Message, NoMem, Prot, ReadMode, Side};
use strm_queue::{BandQueue, Marks};

mod canput;
mod driver;
mod head;

/// One end of a stream: the head's list and record, the modules with their queues, and the driver's
/// list. Modules are counted from 1, which is the topmost.
///
/// A contract sees its state, and the room of its two lists.
#[derive(Drop)]
pub struct StreamEnd<M: ModuleOf> {
    is_open: bool,
    head: BandQueue,
    state: Record,
    pairs: Vec<Pair<M>>,
    drv: BandQueue,
}

impl<M: ModuleOf> Model for StreamEnd<M> {
    ghost use Rattle.std.specs.Prelude.{◌≡◌, ◌<◌, ◌≤◌, true, length, vec_capacity};
    ghost use Rattle.strm_chain_end.specs.End.{EndValue};
    ghost use Rattle.strm_chain_end.specs.Inside.{IsEnd};

    ghost Value = { EndValue M.Kind };

    ghost view = { λ e. record { state = record { is_open = e.is_open; head_marks = e.head.marks; head = e.head.messages; state = e.state; modules = e.pairs.items; drv_marks = e.drv.marks; drv = e.drv.messages }; head_room = e.head.room; drv_room = e.drv.room } };

    ghost invariant = { λ e. IsEnd (vec_capacity e.pairs) e.pairs.items e.head.marks e.drv.marks e.drv.messages };
}

impl<M: ModuleOf> StreamEnd<M> {
    /// An end without modules and messages. Fails only when memory runs out, which the list of modules takes.
    pub fn new(alloc: Global, head: Marks, drv: Marks, is_open: bool) -> Result<Self, NoMem>
        ensures { IfOk result (λ e. e.state ≡ fresh_end is_open head drv) }
    {
        // The proof learns from marks that are read that the low ones are below the high ones.
        let _head_lo = head.lo;
        let _drv_lo = drv.lo;
        let pairs = Vec::with_capacity(alloc, MOST_MODULES)?;
        Ok(StreamEnd {
            is_open,
            head: BandQueue::new(alloc, head),
            state: Record::new(),
            pairs,
            drv: BandQueue::new(alloc, drv),
        })
    }

    /// Whether the end is open.
    pub fn is_open(&self) -> bool
        ensures { result ≡ self.now.state.is_open }
    {
        self.is_open
    }

    /// The number of modules. Their marks, and those of both lists, have the low one below the high one. No
    /// high message waits in a queue of theirs, and no flush or error in the driver's list.
    pub fn count(&self) -> usize
        ensures value { result ≡ length self.now.state.modules }
        ensures few { result ≤ MOST_MODULES }
        ensures fit { IsFitEnd self.now.state }
        ensures ordinary { HoldsCalm self.now.state }
    {
        self.pairs.len()
    }

    /// The shape of a module; `None` where there is none.
    pub fn shape(&self, i: u8) -> Option<&Shape<M::Kind>>
        ensures { option_copied result ≡ option_map (λ s. s.shape) (pair_at self.now.state.modules i) }
    {
        let i = usize::from(i);
        if i == 0 || i > self.pairs.len() {
            return None;
        }
        Some(self.pairs[i - 1].shape())
    }

    /// Whether another module may be pushed: the end is open and has fewer than `MOST_MODULES`.
    pub fn has_room(&self) -> bool
        ensures { result ≡ has_room self.now.state }
    {
        self.is_open && self.pairs.len() < MOST_MODULES
    }

    /// Puts a module just below the head, with empty queues. To be called where `has_room`. Takes no
    /// memory.
    pub fn insert(&mut self, alloc: Global, instance: BoxedModule<M>)
        requires { has_room self.old.state ≡ true }
        ensures { self.new ≡ record self.old { state = inserted self.old.state instance } }
    {
        match self.pairs.insert(0, Pair::new(alloc, instance)) {
            Ok(()) => {}
            Err(_) => unreachable!(),
        }
    }

    /// Takes the topmost module out, and drops the messages in its queues. Takes no memory.
    pub fn remove(&mut self) -> Option<BoxedModule<M>>
        ensures some { IfSome result (λ it. shapes_of self.old.state ≡ it ∷ shapes_of self.new.state) }
        ensures none { IfNone result (self.old.state.modules ≡ []) }
        ensures end { self.new ≡ record self.old { state = removed self.old.state } }
    {
        if self.pairs.is_empty() {
            return None;
        }
        Some(self.pairs.remove(0).into_instance())
    }

    /// Takes all modules out, topmost first, drops the messages in their queues and in the head's list, and
    /// an answer that is asked for later, and closes the end (close(2)). The driver's list stays. Takes no
    /// memory, and no list loses room.
    pub fn close(&mut self) -> ArrayVec<Option<BoxedModule<M>>, MOST_MODULES>
        ensures instances { result.items ≡ map (λ s. Some s.shape) self.old.state.modules }
        ensures state { self.new.state ≡ closed self.old.state }
        ensures head_room { KeepsRoom self.old.head_room self.new.head_room }
        ensures drv_room { self.new.drv_room ≡ self.old.drv_room }
    {
        let instances = take_modules(&mut self.pairs);
        empty_list(&mut self.head);
        drop(self.state.end_ask());
        self.is_open = false;
        instances
    }

    /// Puts a message that comes on a side to the module with this number; without one the message is
    /// dropped. Fails only when memory runs out: then nothing is changed.
    pub fn put_at(
        &mut self,
        alloc: Global,
        i: usize,
        side: Side,
        m: BoxedMessage,
    ) -> Result<Outs, NoMem>
        ensures outs { IfOk result (λ outs. outs.items ≡ (end_gets M.Kind.means self.old.state i side m).outs) }
        ensures state { OnOk result (self.new.state ≡ (end_gets M.Kind.means self.old.state i side m).state) }
        ensures err { OnErr result (self.new.state ≡ self.old.state) }
        ensures same { SameEnd self.old.state self.new.state }
    {
        if i == 0 || i > self.pairs.len() {
            return Ok(Outs::new());
        }
        self.pairs[i - 1].put(alloc, side, m)
    }

    /// Lets the module with this number serve the first message of its queue of a side; without one nothing
    /// is done. Fails only when memory runs out: then the message may be lost.
    pub fn serve_at(&mut self, alloc: Global, i: usize, side: Side) -> Result<Outs, NoMem>
        ensures outs { IfOk result (λ outs. outs.items ≡ (end_serves M.Kind.means self.old.state i side).outs) }
        ensures state { OnOk result (self.new.state ≡ (end_serves M.Kind.means self.old.state i side).state) }
        ensures same { SameEnd self.old.state self.new.state }
    {
        if i == 0 || i > self.pairs.len() {
            return Ok(Outs::new());
        }
        self.pairs[i - 1].serve(alloc, side)
    }

    /// Lets so many ticks pass for the module with this number, by which nothing is sent; without one nothing
    /// is done (timeout(9F)). No queue changes. Takes no memory.
    pub fn expire_at(&mut self, i: u8, ticks: u32)
        ensures state { self.new.state ≡ expired_at M.Kind.means self.old.state i ticks }
        ensures head_room { self.new.head_room ≡ self.old.head_room }
        ensures drv_room { self.new.drv_room ≡ self.old.drv_room }
        ensures same { SameEnd self.old.state self.new.state }
    {
        let i = usize::from(i);
        if i == 0 || i > self.pairs.len() {
            return;
        }
        self.pairs[i - 1].expire(ticks)
    }

    /// The number of messages in a module's queue of a side, 0 where it has none or is not there.
    pub fn len(&self, i: u8, side: Side) -> usize
        ensures { result ≡ length (list_at self.now.state i side) }
    {
        let i = usize::from(i);
        if i == 0 || i > self.pairs.len() {
            return 0;
        }
        self.pairs[i - 1].len(side)
    }

    /// The first message of a module's queue of a side.
    pub fn front(&self, i: u8, side: Side) -> Option<&Message>
        ensures { option_copied result ≡ slice_get (list_at self.now.state i side) 0 }
    {
        let i = usize::from(i);
        if i == 0 || i > self.pairs.len() {
            return None;
        }
        self.pairs[i - 1].front(side)
    }

    /// Whether the service procedures of a module are the program's, and it has a queue on a side.
    pub fn is_programs(&self, i: u8, side: Side) -> bool
        ensures { result ≡ is_programs self.now.state i side }
    {
        let i = usize::from(i);
        if i == 0 || i > self.pairs.len() {
            return false;
        }
        self.pairs[i - 1].is_programs(side)
    }

    /// Takes the first message of a module's queue of a side (getq(9F)). Takes no memory.
    pub fn take_queue(&mut self, i: u8, side: Side) -> Option<BoxedMessage>
        ensures first { result ≡ slice_get (list_at self.old.state i side) 0 }
        ensures state { self.new.state ≡ with_queue self.old.state i side (drop 1 (list_at self.old.state i side)) }
        ensures head_room { self.new.head_room ≡ self.old.head_room }
        ensures drv_room { self.new.drv_room ≡ self.old.drv_room }
        ensures same { SameEnd self.old.state self.new.state }
    {
        let i = usize::from(i);
        if i == 0 || i > self.pairs.len() {
            return None;
        }
        self.pairs[i - 1].take(side)
    }

    /// Puts a message back into a module's queue of a side, before those of its rank (putbq(9F)). It comes
    /// back only when memory runs out: then nothing is changed.
    pub fn put_back_queue(&mut self, i: u8, side: Side, m: BoxedMessage) -> Result<(), BoxedMessage>
        requires { is_programs self.old.state i side ≡ true }
        ensures ok { OnOk result (self.new.state ≡ with_queue self.old.state i side (put_back_in (list_at self.old.state i side) m)) }
        ensures err { OnErr result (self.new.state ≡ self.old.state) }
        ensures head_room { self.new.head_room ≡ self.old.head_room }
        ensures drv_room { self.new.drv_room ≡ self.old.drv_room }
        ensures back { IfErr result (λ same. same ≡ m) }
        ensures same { SameEnd self.old.state self.new.state }
    {
        let i = usize::from(i);
        if i == 0 || i > self.pairs.len() {
            return Err(m);
        }
        self.pairs[i - 1].put_back(side, m)
    }

    /// The turn of the service of a module's side, as things are now. One that is not there takes the
    /// messages that wait.
    pub fn turn(&self, i: u8, side: Side) -> Turn
        ensures { result ≡ turn_at M.Kind.means self.now.state i side }
    {
        let i = usize::from(i);
        if i == 0 || i > self.pairs.len() {
            return Turn::Serves;
        }
        self.pairs[i - 1].shape().turn(side)
    }

    /// The offer of the service of a module's side: the message that it would move now, or one of the
    /// module's own.
    pub fn offer(&self, i: u8, side: Side) -> Option<Offer>
        ensures { result ≡ offer_at M.Kind.means self.now.state i side }
    {
        let i = usize::from(i);
        if i == 0 || i > self.pairs.len() {
            return None;
        }
        self.pairs[i - 1].offer(side)
    }

    /// Whether one of the modules may answer ordinary messages of a side on the other side.
    pub fn answers(&self, side: Side) -> bool
        ensures { result ≡ some_answers M.Kind.means side self.now.state.modules }
    {
        some_answers(&self.pairs, side)
    }
}

/// Whether one of these modules may answer ordinary messages of a side on the other side.
fn some_answers<M: ModuleOf>(pairs: &[Pair<M>], side: Side) -> bool
    ensures { result ≡ some_answers M.Kind.means side pairs.now }
{
    pairs.iter().any(|pair| pair.shape().answers(side))
}

/// Takes all modules out, topmost first, and drops the messages in their queues.
fn take_modules<M: ModuleOf>(
    pairs: &mut Vec<Pair<M>>,
) -> ArrayVec<Option<BoxedModule<M>>, MOST_MODULES>
    requires { length pairs.old.items ≤ MOST_MODULES }
    ensures instances { result.items ≡ map (λ s. Some s.shape) pairs.old.items }
    ensures none { pairs.new.items ≡ [] }
    ensures capacity { vec_capacity pairs.new ≡ vec_capacity pairs.old }
{
    let mut instances = ArrayVec::new();
    while !pairs.is_empty() {
        let instance = pairs.remove(0).into_instance();
        instances.push(Some(instance));
    }
    instances
}

/// Drops all messages of a list.
fn empty_list(queue: &mut BandQueue)
    ensures messages { queue.new.messages ≡ [] }
    ensures marks { queue.new.marks ≡ queue.old.marks }
    ensures room { KeepsRoom queue.old.room queue.new.room }
{
    while let Some(_) = queue.get() {}
}
