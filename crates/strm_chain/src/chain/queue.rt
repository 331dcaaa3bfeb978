//! The queues of modules, for the service procedures of a program.
ghost use Rattle.std.specs.Prelude.{◌≡◌, true, drop, length, option_copied, slice_get, IfErr, OnErr, OnOk};
ghost use Rattle.strm_queue.specs.Queue.{put_back_in};
ghost use Rattle.strm_chain_end.specs.End.{list_at};
ghost use Rattle.strm_chain_end.specs.Canput.{full_in};
ghost use Rattle.strm_chain_end.specs.Change.{is_programs, with_queue};
ghost use Rattle.strm_chain_ends.specs.Held.{module_place};
ghost use Rattle.strm_chain_ends.specs.Image.{end_of, with_end, KeepsHeadRoom};
ghost use Rattle.strm_chain_ends.specs.Path.{ahead};

use super::Chain;
use strm_chain_ends::{NextQueue, Place};
use strm_module::ModuleOf;
use strm_msg::{BoxedMessage, End, Message, Side};

/// The place of a module's queue of a side.
fn place_on(end: End, i: u8, side: Side) -> Place
    ensures { result ≡ module_place side end i }
{
    match side {
        Side::Rd => Place::Rd { end, i },
        Side::Wr => Place::Wr { end, i },
    }
}

impl<M: ModuleOf> Chain<M> {
    /// Whether a module has a queue on a side, and its service procedure there is the program's.
    pub fn is_programs(&self, end: End, i: u8, side: Side) -> bool
        ensures { result ≡ is_programs (end_of self.now.image end) i side }
    {
        self.ends.end(end).is_programs(i, side)
    }

    /// The first message of a module's queue of a side.
    pub fn first_of(&self, end: End, i: u8, side: Side) -> Option<&Message>
        ensures { option_copied result ≡ slice_get (list_at (end_of self.now.image end) i side) 0 }
    {
        self.ends.end(end).front(i, side)
    }

    /// The number of messages in a module's queue of a side, 0 where it has none or is not there (qsize(9F)).
    pub fn len_of(&self, end: End, i: u8, side: Side) -> usize
        ensures { result ≡ length (list_at (end_of self.now.image end) i side) }
    {
        self.ends.end(end).len(i, side)
    }

    /// Whether the queue that is next past a module on a side is full in a band, where bcanputnext(9F) would
    /// answer the opposite. Without one it is not.
    pub fn full_past(&self, end: End, i: u8, side: Side, band: u8) -> bool
        ensures { result ≡ full_in (ahead self.now.image (module_place side end i)) band }
    {
        self.ends.full_ahead_of(place_on(end, i, side), band)
    }

    /// Takes the first message of a module's queue of a side (getq(9F)), where its service procedure is the
    /// program's. Takes no memory, and no list loses room.
    pub fn take_queue(&mut self, end: End, i: u8, side: Side) -> Option<BoxedMessage>
        requires { is_programs (end_of self.old.image end) i side ≡ true }
        ensures first { result ≡ slice_get (list_at (end_of self.old.image end) i side) 0 }
        ensures image { self.new.image ≡ with_end self.old.image end (with_queue (end_of self.old.image end) i side (drop 1 (list_at (end_of self.old.image end) i side))) }
        ensures room { KeepsHeadRoom self.old.rooms self.new.rooms }
        ensures line_room { self.new.rooms.line ≡ self.old.rooms.line }
    {
        let queue = NextQueue::Of {
            place: place_on(end, i, side),
        };
        // The proof learns from the number of modules that theirs are at most eight.
        let _ = self.ends.end(end).count();
        let before = self.ends.len(queue);
        let first = self.ends.end_mut(end).take_queue(i, side);
        self.enabling.enable_by_change(&self.ends, queue, before);
        first
    }

    /// Puts a message back into a module's queue of a side, before those of its rank (putbq(9F)), where its
    /// service procedure is the program's. No list loses room.
    ///
    /// Fails only when memory runs out: the message comes back, and nothing is changed.
    pub fn put_back_queue(
        &mut self,
        end: End,
        i: u8,
        side: Side,
        m: BoxedMessage,
    ) -> Result<(), BoxedMessage>
        requires { is_programs (end_of self.old.image end) i side ≡ true }
        ensures ok { OnOk result (self.new.image ≡ with_end self.old.image end (with_queue (end_of self.old.image end) i side (put_back_in (list_at (end_of self.old.image end) i side) m))) }
        ensures err { OnErr result (self.new.image ≡ self.old.image) }
        ensures back { IfErr result (λ same. same ≡ m) }
        ensures room { KeepsHeadRoom self.old.rooms self.new.rooms }
        ensures line_room { self.new.rooms.line ≡ self.old.rooms.line }
    {
        let queue = NextQueue::Of {
            place: place_on(end, i, side),
        };
        // The proof learns from the number of modules that theirs are at most eight.
        let _ = self.ends.end(end).count();
        let before = self.ends.len(queue);
        let answer = self.ends.end_mut(end).put_back_queue(i, side, m);
        self.enabling.enable_by_change(&self.ends, queue, before);
        answer
    }
}
