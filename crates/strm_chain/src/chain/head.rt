//! The heads of a chain, for the calls of a stream.
ghost use Rattle.std.specs.Prelude.{◌≡◌, ◌∷◌, [], ◌<◌, OnOk, OnErr, IfErr, IsOk, IsNone, IsSome, MatchOption, drop};
ghost use Rattle.strm_msg.specs.Message.{rank_of};
ghost use Rattle.strm_queue.specs.Queue.{put_back_in};
ghost use Rattle.strm_queue.specs.Room.{room_for};
ghost use Rattle.strm_chain_end.specs.End.{KeepsRoom, SpendsOne};
ghost use Rattle.strm_chain_end.specs.Change.{with_mode, awaiting_next, id_given_back, awaiting_none, asking_next, asked_given_back, asking_none};
ghost use Rattle.strm_chain_ends.specs.Image.{end_of, with_head, with_state, room_of, other_end, KeepsHeadRoom};

use super::Chain;
use strm_chain_end::Record;
use strm_chain_ends::NextQueue;
use strm_module::ModuleOf;
use strm_msg::{BoxedMessage, End, NoMem, Prot, ReadMode};
use strm_queue::BandQueue;

impl<M: ModuleOf> Chain<M> {
    /// The list of the head of an end.
    pub fn head(&self, end: End) -> &BandQueue
        ensures messages { result.now.messages ≡ (end_of self.now.image end).head }
        ensures marks { result.now.marks ≡ (end_of self.now.image end).head_marks }
        ensures room { result.now.room ≡ room_of self.now.rooms end }
    {
        self.ends.end(end).head()
    }

    /// Takes the first message of a head's list. Takes no memory, and no list loses room.
    pub fn take_head(&mut self, end: End) -> Option<BoxedMessage>
        ensures first { MatchOption result ((end_of self.old.image end).head ≡ []) (λ m. (end_of self.old.image end).head ≡ m ∷ (end_of self.new.image end).head) }
        ensures image { self.new.image ≡ with_head self.old.image end (drop 1 (end_of self.old.image end).head) }
        ensures room { KeepsHeadRoom self.old.rooms self.new.rooms }
        ensures line_room { self.new.rooms.line ≡ self.old.rooms.line }
    {
        let queue = NextQueue::Head { end };
        let before = self.ends.len(queue);
        let first = self.ends.end_mut(end).take_head();
        self.enabling.enable_by_change(&self.ends, queue, before);
        first
    }

    /// Makes room in a head's list, so that the next `put_back_head` of a message of this rank
    /// succeeds. Fails only when memory runs out, and not where the room is there. No list loses
    /// room.
    pub fn head_room(&mut self, end: End, rank: u16) -> Result<(), NoMem>
        ensures made { OnOk result (0 < room_for (room_of self.new.rooms end) rank) }
        ensures enough { 0 < room_for (room_of self.old.rooms end) rank → IsOk result }
        ensures image { self.new.image ≡ self.old.image }
        ensures room { KeepsHeadRoom self.old.rooms self.new.rooms }
        ensures line_room { self.new.rooms.line ≡ self.old.rooms.line }
    {
        self.ends.end_mut(end).head_room(rank)
    }

    /// Puts a message back into a head's list, before those of its rank (putbq(9F)). That takes room
    /// for at most one message of each rank, and the other lists keep theirs.
    ///
    /// Fails only when memory runs out: the message comes back, and nothing is changed.
    pub fn put_back_head(&mut self, end: End, m: BoxedMessage) -> Result<(), BoxedMessage>
        ensures ok { OnOk result (self.new.image ≡ with_head self.old.image end (put_back_in (end_of self.old.image end).head m)) }
        ensures err { OnErr result (self.new.image ≡ self.old.image) }
        ensures back { IfErr result (λ same. same ≡ m) }
        ensures enough { 0 < room_for (room_of self.old.rooms end) (rank_of m) → IsOk result }
        ensures spent { OnOk result (SpendsOne (room_of self.old.rooms end) (room_of self.new.rooms end)) }
        ensures unspent { OnErr result (KeepsRoom (room_of self.old.rooms end) (room_of self.new.rooms end)) }
        ensures room { room_of self.new.rooms (other_end end) ≡ room_of self.old.rooms (other_end end) }
        ensures line_room { self.new.rooms.line ≡ self.old.rooms.line }
    {
        let queue = NextQueue::Head { end };
        let before = self.ends.len(queue);
        let answer = self.ends.end_mut(end).put_back_head(m);
        self.enabling.enable_by_change(&self.ends, queue, before);
        answer
    }

    /// The record of the head of an end.
    pub fn state(&self, end: End) -> &Record
        ensures { result.now ≡ (end_of self.now.image end).state }
    {
        self.ends.end(end).state()
    }

    /// Sets the way in which reads at an end treat messages (I_SRDOPT). No list loses room.
    pub fn set_mode(&mut self, end: End, mode: ReadMode, prot: Prot)
        ensures { self.new ≡ record self.old { image = with_state self.old.image end (with_mode (end_of self.old.image end).state mode prot) } }
    {
        self.ends.end_mut(end).set_mode(mode, prot)
    }

    /// Takes the next id of an end for an ioctl, whose answer is awaited from then on (I_STR).
    /// `None`, with nothing changed, once the greatest id was given out. To be called where no
    /// answer is awaited. No list loses room.
    pub fn begin_ioctl(&mut self, end: End) -> Option<u64>
        requires { IsNone (end_of self.old.image end).state.pending }
        ensures id { result ≡ (end_of self.old.image end).state.next }
        ensures image { self.new ≡ record self.old { image = with_state self.old.image end (awaiting_next (end_of self.old.image end).state) } }
    {
        self.ends.end_mut(end).begin_ioctl()
    }

    /// Gives back the id that was taken last, where its ioctl was not sent. To be called where an answer is
    /// awaited and none has come. No list loses room.
    pub fn undo_ioctl(&mut self, end: End)
        requires pending { IsSome (end_of self.old.image end).state.pending }
        requires unanswered { IsNone (end_of self.old.image end).state.kept }
        ensures { self.new ≡ record self.old { image = with_state self.old.image end (id_given_back (end_of self.old.image end).state) } }
    {
        self.ends.end_mut(end).undo_ioctl()
    }

    /// Takes the answer to an ioctl, if one came, and awaits none any longer. No list loses room.
    pub fn end_ioctl(&mut self, end: End) -> Option<BoxedMessage>
        ensures answer { result ≡ (end_of self.old.image end).state.kept }
        ensures image { self.new ≡ record self.old { image = with_state self.old.image end (awaiting_none (end_of self.old.image end).state) } }
    {
        self.ends.end_mut(end).end_ioctl()
    }

    /// Takes the next id of an end, whose answer is asked for later.
    pub fn ask_ioctl(&mut self, end: End) -> Option<u64>
        ensures id { result ≡ (end_of self.old.image end).state.next }
        ensures image { self.new ≡ record self.old { image = with_state self.old.image end (asking_next (end_of self.old.image end).state) } }
    {
        self.ends.end_mut(end).ask_ioctl()
    }

    /// Gives back the id that was taken last, of an ioctl whose answer was to be asked for later.
    pub fn undo_ask(&mut self, end: End)
        ensures { self.new ≡ record self.old { image = with_state self.old.image end (asked_given_back (end_of self.old.image end).state) } }
    {
        self.ends.end_mut(end).undo_ask()
    }

    /// Takes the answer that was asked for, and asks for none any longer.
    pub fn end_ask(&mut self, end: End) -> Option<BoxedMessage>
        ensures answer { result ≡ (end_of self.old.image end).state.answer }
        ensures image { self.new ≡ record self.old { image = with_state self.old.image end (asking_none (end_of self.old.image end).state) } }
    {
        self.ends.end_mut(end).end_ask()
    }
}
