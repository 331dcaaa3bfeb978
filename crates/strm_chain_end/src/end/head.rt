//! The stream head of an end.
ghost use Rattle.std.specs.Prelude.{◌≡◌, ◌∷◌, [], ◌<◌, OnOk, OnErr, IfOk, IfErr, IsOk, MatchOption, None, drop};
ghost use Rattle.strm_msg.specs.Message.{rank_of};
ghost use Rattle.strm_queue.specs.Queue.{put_in, put_back_in};
ghost use Rattle.strm_queue.specs.Room.{room_for};
ghost use Rattle.strm_chain_end.specs.End.{KeepsRoom, SpendsOne, in_head, in_state};
ghost use Rattle.strm_chain_end.specs.Modules.{SameEnd};
ghost use Rattle.strm_chain_end.specs.Head.{marks_set, with_options, flush_down, error_flush, put_at_head};
ghost use Rattle.strm_chain_end.specs.Change.{with_mode, awaiting_next, id_given_back, awaiting_none, asking_next, asked_given_back, asking_none};
ghost use Rattle.strm_chain_end.specs.Pair.{flushed_if};

use super::StreamEnd;
use crate::pair::flush_bands;
use crate::record::Record;
use std::alloc::Global;
use strm_module::ModuleOf;
use strm_msg::{BoxedMessage, Errno, Marks, Message, MsgKind, NoMem, Prot, ReadMode};
use strm_queue::BandQueue;

/// Flushes a whole list or one band of it, where the flush names the list.
pub(super) fn flush_list(queue: &mut BandQueue, is_named: bool, band: Option<u8>)
    ensures messages { queue.new.messages ≡ flushed_if is_named band queue.old.messages }
    ensures marks { queue.new.marks ≡ queue.old.marks }
{
    if is_named {
        flush_bands(queue, band);
    }
}

/// Puts a message into a list. Fails only when memory runs out: then nothing is changed.
pub(super) fn put_in_list(queue: &mut BandQueue, m: BoxedMessage) -> Result<(), NoMem>
    ensures ok { OnOk result (queue.new.messages ≡ put_in queue.old.messages m) }
    ensures err { OnErr result (queue.new.messages ≡ queue.old.messages) }
    ensures marks { queue.new.marks ≡ queue.old.marks }
{
    match queue.put(m) {
        Ok(()) => Ok(()),
        Err(m) => {
            drop(m);
            Err(NoMem)
        }
    }
}

/// Puts a message into the head's list, and sends nothing down. Fails only when memory runs out: then nothing
/// is changed.
fn queue_at_head(queue: &mut BandQueue, m: BoxedMessage) -> Result<Option<BoxedMessage>, NoMem>
    ensures ok { OnOk result (queue.new.messages ≡ put_in queue.old.messages m) }
    ensures sends { IfOk result (λ sends. sends ≡ None) }
    ensures err { OnErr result (queue.new.messages ≡ queue.old.messages) }
    ensures marks { queue.new.marks ≡ queue.old.marks }
{
    put_in_list(queue, m)?;
    Ok(None)
}

/// Sets the marks of a list, where they are given and the low one is below the high one.
fn set_fit_marks(queue: &mut BandQueue, marks: Option<(u32, u32)>)
    ensures { queue.new ≡ record queue.old { marks = marks_set queue.old.marks marks } }
{
    if let Some((hi, lo)) = marks {
        if let Some(marks) = Marks::new(hi, lo) {
            queue.set_marks(marks);
        }
    }
}

/// The rest of a flush that came up, for the write queues below, in its box.
fn flush_down(m: BoxedMessage, w: bool, band: Option<u8>) -> Option<BoxedMessage>
    ensures { result ≡ flush_down w band }
{
    if w {
        Some(m.becoming(Message::of_flush(false, true, band)))
    } else {
        None
    }
}

/// The flush that an error sends down, in its box: of the sides for which it is given.
fn error_flush(m: BoxedMessage, rd: Option<Errno>, wr: Option<Errno>) -> Option<BoxedMessage>
    ensures { result ≡ error_flush rd wr }
{
    if rd.is_none() && wr.is_none() {
        return None;
    }
    let flush = Message::of_flush(rd.is_some(), wr.is_some(), None);
    Some(m.becoming(flush))
}

impl<M: ModuleOf> StreamEnd<M> {
    /// Lets the head act on a message from below, and returns the message that it sends down (strrput). Fails
    /// only when memory runs out: then nothing is changed.
    #[inline(always)]
    pub fn put_at_head(&mut self, m: BoxedMessage) -> Result<Option<BoxedMessage>, NoMem>
        ensures state { OnOk result (self.new.state ≡ (put_at_head self.old.state m).state) }
        ensures sends { IfOk result (λ sends. sends ≡ (put_at_head self.old.state m).sends) }
        ensures err { OnErr result (self.new.state ≡ self.old.state) }
        ensures same { SameEnd self.old.state self.new.state }
    {
        if !self.is_open {
            drop(m);
            return Ok(None);
        }
        match m.kind {
            MsgKind::MData | MsgKind::MProto => queue_at_head(&mut self.head, m),
            MsgKind::MPcproto => {
                if !self.head.has_pcproto() {
                    return queue_at_head(&mut self.head, m);
                }
                drop(m);
                Ok(None)
            }
            MsgKind::MIocack { id, .. } | MsgKind::MIocnak { id, .. } => {
                self.state.keep(id, m);
                Ok(None)
            }
            MsgKind::MFlush { r, w, band } => {
                flush_list(&mut self.head, r, band);
                Ok(flush_down(m, w, band))
            }
            MsgKind::MHangup => {
                drop(m);
                self.state.hung = true;
                Ok(None)
            }
            MsgKind::MError { rd, wr } => {
                self.state.set_errors(rd, wr);
                Ok(error_flush(m, rd, wr))
            }
            MsgKind::MIoctl { .. } => {
                drop(m);
                Ok(None)
            }
            MsgKind::MSetopts { mode, prot, marks } => {
                drop(m);
                self.set_options(mode, prot, marks);
                Ok(None)
            }
        }
    }

    /// Sets the way in which the head reads and its water marks, as far as they are given. Marks of which the
    /// low one is not below the high one are not taken.
    fn set_options(&mut self, mode: Option<ReadMode>, prot: Option<Prot>, marks: Option<(u32, u32)>)
        ensures { self.new ≡ record self.old { state = with_options self.old.state mode prot marks } }
    {
        self.state.set_given(mode, prot);
        set_fit_marks(&mut self.head, marks);
    }

    /// The list of the head.
    pub fn head(&self) -> &BandQueue
        ensures messages { result.now.messages ≡ self.now.state.head }
        ensures marks { result.now.marks ≡ self.now.state.head_marks }
        ensures room { result.now.room ≡ self.now.head_room }
    {
        &self.head
    }

    /// Takes the first message of the head's list. Takes no memory, and no rank loses room.
    pub fn take_head(&mut self) -> Option<BoxedMessage>
        ensures first { MatchOption result (self.old.state.head ≡ []) (λ m. self.old.state.head ≡ m ∷ self.new.state.head) }
        ensures state { self.new.state ≡ in_head self.old.state (drop 1 self.old.state.head) }
        ensures head_room { KeepsRoom self.old.head_room self.new.head_room }
        ensures drv_room { self.new.drv_room ≡ self.old.drv_room }
    {
        self.head.get()
    }

    /// Makes room in the head's list, so that the next `put_back_head` of a message of this rank
    /// succeeds. Fails only when memory runs out, and not where the room is there. No rank loses
    /// room.
    pub fn head_room(&mut self, rank: u16) -> Result<(), NoMem>
        ensures room { OnOk result (0 < room_for self.new.head_room rank) }
        ensures enough { 0 < room_for self.old.head_room rank → IsOk result }
        ensures head_room { KeepsRoom self.old.head_room self.new.head_room }
        ensures drv_room { self.new.drv_room ≡ self.old.drv_room }
        ensures state { self.new.state ≡ self.old.state }
    {
        self.head.make_room(rank)
    }

    /// Puts a message back into the head's list, before those of its rank (putbq(9F)). That takes
    /// room for at most one message of each rank.
    ///
    /// Fails only when memory runs out: the message comes back, and nothing is changed.
    pub fn put_back_head(&mut self, m: BoxedMessage) -> Result<(), BoxedMessage>
        ensures ok { OnOk result (self.new.state ≡ in_head self.old.state (put_back_in self.old.state.head m)) }
        ensures err { OnErr result (self.new.state ≡ self.old.state) }
        ensures back { IfErr result (λ same. same ≡ m) }
        ensures enough { 0 < room_for self.old.head_room (rank_of m) → IsOk result }
        ensures spent { OnOk result (SpendsOne self.old.head_room self.new.head_room) }
        ensures unspent { OnErr result (KeepsRoom self.old.head_room self.new.head_room) }
        ensures drv_room { self.new.drv_room ≡ self.old.drv_room }
    {
        self.head.put_back(m)
    }

    /// The record of the head.
    pub fn state(&self) -> &Record
        ensures { result.now ≡ self.now.state.state }
    {
        &self.state
    }

    /// Sets the way in which reads treat messages (I_SRDOPT).
    pub fn set_mode(&mut self, mode: ReadMode, prot: Prot)
        ensures { self.new ≡ record self.old { state = in_state self.old.state (with_mode self.old.state.state mode prot) } }
    {
        self.state.set_mode(mode, prot)
    }

    /// Takes the next id for an ioctl, whose answer is awaited from then on (I_STR). `None`, with
    /// nothing changed, once the greatest id was given out.
    pub fn begin_ioctl(&mut self) -> Option<u64>
        ensures id { result ≡ self.old.state.state.next }
        ensures end { self.new ≡ record self.old { state = in_state self.old.state (awaiting_next self.old.state.state) } }
    {
        self.state.begin()
    }

    /// Gives back the id that was taken last, where its ioctl was not sent.
    pub fn undo_ioctl(&mut self)
        ensures { self.new ≡ record self.old { state = in_state self.old.state (id_given_back self.old.state.state) } }
    {
        self.state.undo()
    }

    /// Takes the answer to an ioctl, if one came, and awaits none any longer.
    pub fn end_ioctl(&mut self) -> Option<BoxedMessage>
        ensures answer { result ≡ self.old.state.state.kept }
        ensures end { self.new ≡ record self.old { state = in_state self.old.state (awaiting_none self.old.state.state) } }
    {
        self.state.end()
    }

    /// Takes the next id, whose answer is asked for later.
    pub fn ask_ioctl(&mut self) -> Option<u64>
        ensures id { result ≡ self.old.state.state.next }
        ensures end { self.new ≡ record self.old { state = in_state self.old.state (asking_next self.old.state.state) } }
    {
        self.state.ask()
    }

    /// Gives back the id that was taken last, of an ioctl whose answer was to be asked for later.
    pub fn undo_ask(&mut self)
        ensures { self.new ≡ record self.old { state = in_state self.old.state (asked_given_back self.old.state.state) } }
    {
        self.state.undo_ask()
    }

    /// Takes the answer that was asked for, and asks for none any longer.
    pub fn end_ask(&mut self) -> Option<BoxedMessage>
        ensures answer { result ≡ self.old.state.state.answer }
        ensures end { self.new ≡ record self.old { state = in_state self.old.state (asking_none self.old.state.state) } }
    {
        self.state.end_ask()
    }
}
