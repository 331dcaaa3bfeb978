//! A module with its two queues.
ghost use Rattle.std.specs.Prelude.{◌≡◌, [], ◌∷◌, IfOk, IfErr, OnOk, OnErr, IsSome, IfSome, IfNone, MatchOption, true, drop, length, option_map, option_copied, slice_get};
ghost use Rattle.strm_msg.specs.declared.kind.MsgKind.TheVariants as Kinds;
ghost use Rattle.strm_queue.specs.Queue.{put_in, put_back_in};
ghost use Rattle.strm_module.specs.Shape.{queues_on};
ghost use Rattle.strm_chain_end.specs.Pair.{messages_in, marks_in, list_on, with_list, with_put, fresh_pair, is_served, flushed, flushed_if, flushed_pair, pair_gets, pair_front, pair_serves, expired_pair};
ghost use Rattle.strm_chain_end.specs.End.{KeepsRoom};
ghost use Rattle.strm_chain_end.specs.Modules.{identity_of, is_fit, is_fit_module, waits_well};
ghost use Rattle.strm_chain_end.specs.Canput.{fill_of, fill_on};
ghost use Rattle.strm_chain_end.specs.Change.{found_programs};
ghost use Rattle.strm_chain_end.specs.Offer.{first_offer, offer_on};

use crate::offer::Offer;
use std::alloc::Global;
use std::marker::Model;
use strm_module::{BoxedModule, ModuleOf, Outs, Put, Shape, Turn};
use strm_msg::{BoxedMessage, Message, MsgKind, NoMem, Side};
use strm_queue::{BandQueue, Marks};

/// A module with its two queues: one on each side for which its shape has marks.
#[derive(Drop)]
pub(crate) struct Pair<M: ModuleOf> {
    instance: BoxedModule<M>,
    rd: Option<BandQueue>,
    wr: Option<BandQueue>,
    /// Whether the stream serves the read queue: it is there, and its service procedure is not the program's.
    serves_rd: bool,
    /// The same of the write queue.
    serves_wr: bool,
}

impl<M: ModuleOf> Model for Pair<M> {
    ghost use Rattle.std.specs.Prelude.{◌≡◌};
    ghost use Rattle.strm_msg.specs.declared.words.Side.TheVariants.{Rd, Wr};
    ghost use Rattle.strm_chain_end.specs.Pair.{QueuePair, messages_in, marks_in, is_served};

    ghost Value = { QueuePair M.Kind };

    ghost view = { λ s. record { shape = s.instance; rd = messages_in s.rd; wr = messages_in s.wr } };

    ghost invariant = { λ s. (marks_in s.rd ≡ s.instance.rd) × (marks_in s.wr ≡ s.instance.wr) × (s.serves_rd ≡ is_served s.instance Rd) × (s.serves_wr ≡ is_served s.instance Wr) };
}

/// An empty queue, where there are marks for one.
fn queue_of(alloc: Global, marks: Option<Marks>) -> Option<BandQueue>
    ensures marks { marks_in result ≡ marks }
    ensures empty { messages_in result ≡ [] }
    ensures fit { is_fit marks ≡ true }
{
    match marks {
        Some(marks) => {
            // The proof learns from a mark that is read that the low one is below the high one.
            let _lo = marks.lo;
            Some(BandQueue::new(alloc, marks))
        }
        None => None,
    }
}

/// Flushes all bands of a queue, or the one that is named.
pub(crate) fn flush_bands(queue: &mut BandQueue, band: Option<u8>)
    ensures messages { queue.new.messages ≡ flushed band queue.old.messages }
    ensures marks { queue.new.marks ≡ queue.old.marks }
    ensures room { KeepsRoom queue.old.room queue.new.room }
{
    match band {
        Some(b) => queue.flush_band(b),
        None => queue.flush(),
    }
}

/// Flushes a queue that may be missing.
fn flush_queue(queue: &mut Option<BandQueue>, band: Option<u8>)
    ensures messages { messages_in queue.new ≡ flushed band (messages_in queue.old) }
    ensures marks { marks_in queue.new ≡ marks_in queue.old }
{
    if let Some(queue) = queue {
        flush_bands(queue, band);
    }
}

/// Puts a message into a queue that is there.
fn put_in_queue(queue: &mut Option<BandQueue>, m: BoxedMessage) -> Result<(), NoMem>
    requires { IsSome queue.old }
    ensures messages { OnOk result (messages_in queue.new ≡ put_in (messages_in queue.old) m) }
    ensures marks { marks_in queue.new ≡ marks_in queue.old }
    ensures err { OnErr result (messages_in queue.new ≡ messages_in queue.old) }
{
    match queue {
        Some(queue) => match queue.put(m) {
            Ok(()) => Ok(()),
            Err(_) => Err(NoMem),
        },
        None => unreachable!(),
    }
}

/// Puts a flush into a queue that is there, and which it passes first if it names it. Fails only when memory
/// runs out: then nothing is changed.
fn put_flush(
    queue: &mut Option<BandQueue>,
    is_named: bool,
    band: Option<u8>,
    m: BoxedMessage,
) -> Result<(), NoMem>
    requires { IsSome queue.old }
    ensures messages { OnOk result (messages_in queue.new ≡ put_in (flushed_if is_named band (messages_in queue.old)) m) }
    ensures marks { marks_in queue.new ≡ marks_in queue.old }
    ensures err { OnErr result (messages_in queue.new ≡ messages_in queue.old) }
{
    match queue {
        Some(queue) => {
            queue.make_room(m.rank())?;
            if is_named {
                flush_bands(queue, band);
            }
            match queue.put(m) {
                Ok(()) => Ok(()),
                Err(_) => unreachable!(),
            }
        }
        None => unreachable!(),
    }
}

/// Puts a message back into a queue that is there, before those of its rank. It comes back only when memory
/// runs out: then nothing is changed.
fn put_back_in_queue(queue: &mut Option<BandQueue>, m: BoxedMessage) -> Result<(), BoxedMessage>
    requires { IsSome queue.old }
    ensures messages { OnOk result (messages_in queue.new ≡ put_back_in (messages_in queue.old) m) }
    ensures marks { marks_in queue.new ≡ marks_in queue.old }
    ensures err { OnErr result (messages_in queue.new ≡ messages_in queue.old) }
    ensures back { IfErr result (λ same. same ≡ m) }
{
    match queue {
        Some(queue) => queue.put_back(m),
        None => unreachable!(),
    }
}

/// Takes the first message of a queue that may be missing.
fn take_front(queue: &mut Option<BandQueue>) -> Option<BoxedMessage>
    ensures some { IfSome result (λ m. messages_in queue.old ≡ m ∷ messages_in queue.new) }
    ensures none { IfNone result ((messages_in queue.old ≡ []) × (messages_in queue.new ≡ [])) }
    ensures marks { marks_in queue.new ≡ marks_in queue.old }
{
    match queue {
        Some(queue) => queue.get(),
        None => None,
    }
}

impl<M: ModuleOf> Pair<M> {
    /// A module with empty queues. Takes no memory.
    pub(crate) fn new(alloc: Global, instance: BoxedModule<M>) -> Pair<M>
        ensures value { result ≡ fresh_pair instance }
        ensures fit { is_fit_module (identity_of instance) ≡ true }
        ensures waits { waits_well result ≡ true }
    {
        let rd = queue_of(alloc, instance.shape().rd);
        let wr = queue_of(alloc, instance.shape().wr);
        let serves_rd = rd.is_some() && !instance.shape().noenable;
        let serves_wr = wr.is_some() && !instance.shape().noenable;
        Pair {
            instance,
            rd,
            wr,
            serves_rd,
            serves_wr,
        }
    }

    /// The shape of the module.
    pub(crate) fn shape(&self) -> &Shape<M::Kind>
        ensures { result.now ≡ self.now.shape }
    {
        self.instance.shape()
    }

    /// The module, without its queues.
    pub(crate) fn into_instance(self) -> BoxedModule<M>
        ensures { result ≡ self.shape }
    {
        let Pair {
            instance,
            rd: _,
            wr: _,
            serves_rd: _,
            serves_wr: _,
        } = self;
        instance
    }

    /// Empties the queues that the flags of a flush name.
    fn flush(&mut self, kind: MsgKind)
        ensures { self.new ≡ flushed_pair self.old kind }
    {
        if let MsgKind::MFlush { r, w, band } = kind {
            if r {
                flush_queue(&mut self.rd, band);
            }
            if w {
                flush_queue(&mut self.wr, band);
            }
        }
    }

    /// Puts a flush into the queue of a side, after it has emptied the queues that its flags name. Fails only
    /// when memory runs out: then nothing is changed.
    fn queue_flush(
        &mut self,
        side: Side,
        m: BoxedMessage,
        r: bool,
        w: bool,
        band: Option<u8>,
    ) -> Result<(), NoMem>
        requires queue { queues_on self.old.shape side ≡ true }
        requires kind { m.kind ≡ Kinds.MFlush r w band }
        ensures ok { OnOk result (self.new ≡ with_put (flushed_pair self.old m.kind) side m) }
        ensures err { OnErr result (self.new ≡ self.old) }
    {
        match side {
            Side::Rd => {
                put_flush(&mut self.rd, r, band, m)?;
                if w {
                    flush_queue(&mut self.wr, band);
                }
            }
            Side::Wr => {
                put_flush(&mut self.wr, w, band, m)?;
                if r {
                    flush_queue(&mut self.rd, band);
                }
            }
        }
        Ok(())
    }

    /// Puts a message that is no flush into the queue of a side. Fails only when memory runs out: then
    /// nothing is changed.
    fn queue_other(&mut self, side: Side, m: BoxedMessage) -> Result<(), NoMem>
        requires { queues_on self.old.shape side ≡ true }
        ensures ok { OnOk result (self.new ≡ with_put self.old side m) }
        ensures err { OnErr result (self.new ≡ self.old) }
    {
        match side {
            Side::Rd => put_in_queue(&mut self.rd, m),
            Side::Wr => put_in_queue(&mut self.wr, m),
        }
    }

    /// Puts a message into the queue of a side. A flush empties the queues that its flags name first. Fails
    /// only when memory runs out: then nothing is changed.
    fn queue_message(&mut self, side: Side, m: BoxedMessage) -> Result<(), NoMem>
        requires { queues_on self.old.shape side ≡ true }
        ensures ok { OnOk result (self.new ≡ with_put (flushed_pair self.old m.kind) side m) }
        ensures err { OnErr result (self.new ≡ self.old) }
    {
        match m.kind {
            MsgKind::MFlush { r, w, band } => self.queue_flush(side, m, r, w, band),
            _ => self.queue_other(side, m),
        }
    }

    /// Puts a message to the module. Its answer comes first, since it may be refused; a flush then empties
    /// the queues.
    pub(crate) fn put(&mut self, alloc: Global, side: Side, m: BoxedMessage) -> Result<Outs, NoMem>
        ensures outs { IfOk result (λ outs. outs.items ≡ (pair_gets M.Kind.means self.old side m).outs) }
        ensures pair { OnOk result (self.new ≡ (pair_gets M.Kind.means self.old side m).pair) }
        ensures err { OnErr result (self.new ≡ self.old) }
        ensures identity { identity_of self.new.shape ≡ identity_of self.old.shape }
        ensures waits { waits_well self.old ≡ true → waits_well self.new ≡ true }
    {
        let kind = m.kind;
        match self.instance.put(alloc, side, m)? {
            Put::Sent(outs) => {
                self.flush(kind);
                Ok(outs)
            }
            Put::Queue(m) => {
                self.queue_message(side, m)?;
                Ok(Outs::new())
            }
        }
    }

    /// Whether the module has a queue of a side.
    pub(crate) fn has_queue(&self, side: Side) -> bool
        ensures { result ≡ queues_on self.now.shape side }
    {
        match side {
            Side::Rd => self.rd.is_some(),
            Side::Wr => self.wr.is_some(),
        }
    }

    /// Whether the stream serves the queue of a side: it is there, and its service procedure is not the
    /// program's.
    fn serves(&self, side: Side) -> bool
        ensures { result ≡ is_served self.now.shape side }
    {
        match side {
            Side::Rd => self.serves_rd,
            Side::Wr => self.serves_wr,
        }
    }

    /// Whether the module has a queue of a side, and its service procedures are the program's (noenable(9F)).
    pub(crate) fn is_programs(&self, side: Side) -> bool
        ensures { result ≡ found_programs (Some self.now) side }
    {
        self.shape().noenable && self.has_queue(side)
    }

    /// The queue of a side, if there is one.
    pub(crate) fn queue(&self, side: Side) -> Option<&BandQueue>
        ensures { option_map fill_of (option_copied result) ≡ fill_on side self.now }
    {
        match side {
            Side::Rd => self.rd.as_ref(),
            Side::Wr => self.wr.as_ref(),
        }
    }

    /// The number of messages in the queue of a side.
    pub(crate) fn len(&self, side: Side) -> usize
        ensures { result ≡ length (list_on self.now side) }
    {
        let queue = match side {
            Side::Rd => &self.rd,
            Side::Wr => &self.wr,
        };
        match queue {
            Some(queue) => queue.len(),
            None => 0,
        }
    }

    /// The first message of the queue of a side.
    pub(crate) fn front(&self, side: Side) -> Option<&Message>
        ensures { option_copied result ≡ slice_get (list_on self.now side) 0 }
    {
        let queue = match side {
            Side::Rd => &self.rd,
            Side::Wr => &self.wr,
        };
        match queue {
            Some(queue) => queue.first(),
            None => None,
        }
    }

    /// Takes the first message of the queue of a side (getq(9F)). Takes no memory.
    pub(crate) fn take(&mut self, side: Side) -> Option<BoxedMessage>
        ensures first { MatchOption result (list_on self.old side ≡ []) (λ m. list_on self.old side ≡ m ∷ list_on self.new side) }
        ensures pair { self.new ≡ with_list self.old side (drop 1 (list_on self.old side)) }
        ensures identity { identity_of self.new.shape ≡ identity_of self.old.shape }
        ensures waits { waits_well self.old ≡ true → waits_well self.new ≡ true }
    {
        match side {
            Side::Rd => take_front(&mut self.rd),
            Side::Wr => take_front(&mut self.wr),
        }
    }

    /// Puts a message back into the queue of a side, before those of its rank (putbq(9F)). It comes back only
    /// when memory runs out: then nothing is changed.
    pub(crate) fn put_back(&mut self, side: Side, m: BoxedMessage) -> Result<(), BoxedMessage>
        requires queue { queues_on self.old.shape side ≡ true }
        requires program { self.old.shape.noenable ≡ true }
        ensures ok { OnOk result (self.new ≡ with_list self.old side (put_back_in (list_on self.old side) m)) }
        ensures err { OnErr result (self.new ≡ self.old) }
        ensures back { IfErr result (λ same. same ≡ m) }
        ensures identity { identity_of self.new.shape ≡ identity_of self.old.shape }
        ensures waits { waits_well self.old ≡ true → waits_well self.new ≡ true }
    {
        match side {
            Side::Rd => put_back_in_queue(&mut self.rd, m),
            Side::Wr => put_back_in_queue(&mut self.wr, m),
        }
    }

    /// Lets the module serve the first message of its queue of a side, if one waits.
    fn serve_first(&mut self, alloc: Global, side: Side) -> Result<Outs, NoMem>
        ensures outs { IfOk result (λ outs. outs.items ≡ (pair_front M.Kind.means self.old side (list_on self.old side)).outs) }
        ensures pair { OnOk result (self.new ≡ (pair_front M.Kind.means self.old side (list_on self.old side)).pair) }
        ensures identity { identity_of self.new.shape ≡ identity_of self.old.shape }
        ensures waits { waits_well self.old ≡ true → waits_well self.new ≡ true }
    {
        let front = match side {
            Side::Rd => take_front(&mut self.rd),
            Side::Wr => take_front(&mut self.wr),
        };
        match front {
            Some(m) => self.instance.serve(alloc, side, m),
            None => Ok(Outs::new()),
        }
    }

    /// Runs the service of a side, as its turn says. Nothing is done where it is the program's.
    pub(crate) fn serve(&mut self, alloc: Global, side: Side) -> Result<Outs, NoMem>
        ensures outs { IfOk result (λ outs. outs.items ≡ (pair_serves M.Kind.means self.old side).outs) }
        ensures pair { OnOk result (self.new ≡ (pair_serves M.Kind.means self.old side).pair) }
        ensures identity { identity_of self.new.shape ≡ identity_of self.old.shape }
        ensures waits { waits_well self.old ≡ true → waits_well self.new ≡ true }
    {
        if self.shape().noenable {
            return Ok(Outs::new());
        }
        match self.shape().turn(side) {
            Turn::Serves => self.serve_first(alloc, side),
            Turn::Shut => Ok(Outs::new()),
            Turn::Sends { .. } => self.instance.own(alloc, side),
        }
    }

    /// Lets so many ticks pass for the module. Its queues stay as they are. Takes no memory.
    pub(crate) fn expire(&mut self, ticks: u32)
        ensures pair { self.new ≡ expired_pair M.Kind.means self.old ticks }
        ensures identity { identity_of self.new.shape ≡ identity_of self.old.shape }
        ensures waits { waits_well self.old ≡ true → waits_well self.new ≡ true }
    {
        self.instance.expire(ticks)
    }

    /// The first message of the queue of a side, as flow control sees it.
    fn first_offer(&self, side: Side) -> Option<Offer>
        ensures { result ≡ first_offer (list_on self.now side) }
    {
        match self.front(side) {
            Some(m) => Some(Offer::of(m)),
            None => None,
        }
    }

    /// The offer of the service of a side: the message that it would move now, or one of the module's own.
    /// Where the service is the program's there is none.
    pub(crate) fn offer(&self, side: Side) -> Option<Offer>
        ensures { result ≡ offer_on M.Kind.means self.now side }
    {
        if !self.serves(side) {
            return None;
        }
        match self.instance.shape().turn(side) {
            Turn::Serves => self.first_offer(side),
            Turn::Shut => None,
            Turn::Sends { band } => Some(Offer::own(band)),
        }
    }
}
