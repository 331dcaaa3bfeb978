//! Messages that come in from a line, and those that go out of a wire.
ghost use Rattle.std.specs.Prelude.{◌≡◌, ◌∷◌, [], ◌<◌, true, false, IfSome, IfNone, OnOk, OnErr, IfErr, IsOk};
ghost use Rattle.strm_msg.specs.Kind.{is_high};
ghost use Rattle.strm_msg.specs.Message.{rank_of};
ghost use Rattle.strm_msg.specs.declared.words.End.TheVariants.{A};
ghost use Rattle.strm_queue.specs.Queue.{put_in, put_back_in, is_full};
ghost use Rattle.strm_queue.specs.Room.{room_for};
ghost use Rattle.strm_module.specs.Calm.{is_calm};
ghost use Rattle.strm_module.specs.Driver.{is_line, is_wire, input_end};
ghost use Rattle.strm_chain_end.specs.End.{KeepsRoom, SpendsOne};
ghost use Rattle.strm_chain_ends.specs.Image.{end_of, with_drv};
ghost use Rattle.strm_chain_ends.specs.Same.{SameModules};

use super::Chain;
use strm_chain_ends::{NextQueue, Place};
use strm_module::ModuleOf;
use strm_msg::{BoxedMessage, End, NoMem};
use strm_queue::BandQueue;

impl<M: ModuleOf> Chain<M> {
    /// Whether the list of messages that came in is full in a band, where bcanput(9F) would answer the
    /// opposite. To be called over a line or a wire.
    pub fn line_full(&self, band: u8) -> bool
        requires { is_line self.now.image.driver ≡ true }
        ensures { result ≡ is_full (end_of self.now.image (input_end self.now.image.driver)).drv_marks (end_of self.now.image (input_end self.now.image.driver)).drv band }
    {
        let end = self.ends.driver().input_end();
        self.ends.end(end).driver_list().full(band)
    }

    /// Makes room in the list of messages that came in, so that the next `line_put` of a message of this rank
    /// succeeds. To be called over a line or a wire. Fails only when memory runs out, and not where the room
    /// is there. No list loses room.
    pub fn line_room(&mut self, rank: u16) -> Result<(), NoMem>
        requires { is_line self.old.image.driver ≡ true }
        ensures made { OnOk result (0 < room_for self.new.rooms.line rank) }
        ensures enough { 0 < room_for self.old.rooms.line rank → IsOk result }
        ensures line_room { KeepsRoom self.old.rooms.line self.new.rooms.line }
        ensures rest { self.new ≡ record self.old { rooms = record self.old.rooms { line = self.new.rooms.line } } }
    {
        let end = self.ends.driver().input_end();
        self.ends.end_mut(end).driver_room(rank)
    }

    /// Puts an ordinary message that came in into the list of these (putq(9F)). A high one goes up at once,
    /// by `deliver`. To be called over a line or a wire. The heads' lists keep their room.
    ///
    /// Fails only when memory runs out, and not where that list has room: the message comes back, and nothing
    /// is changed.
    pub fn line_put(&mut self, m: BoxedMessage) -> Result<(), BoxedMessage>
        requires driver { is_line self.old.image.driver ≡ true }
        requires ordinary { is_high m.kind ≡ false }
        ensures ok { OnOk result (self.new.image ≡ with_drv self.old.image (input_end self.old.image.driver) (put_in (end_of self.old.image (input_end self.old.image.driver)).drv m)) }
        ensures err { OnErr result (self.new.image ≡ self.old.image) }
        ensures back { IfErr result (λ same. same ≡ m) }
        ensures enough { 0 < room_for self.old.rooms.line (rank_of m) → IsOk result }
        ensures spent { OnOk result (SpendsOne self.old.rooms.line self.new.rooms.line) }
        ensures unspent { OnErr result (KeepsRoom self.old.rooms.line self.new.rooms.line) }
        ensures room_a { self.new.rooms.a ≡ self.old.rooms.a }
        ensures room_b { self.new.rooms.b ≡ self.old.rooms.b }
    {
        let end = self.ends.driver().input_end();
        let queue = NextQueue::Of {
            place: Place::Drv { end },
        };
        let before = self.ends.len(queue);
        let answer = self.ends.end_mut(end).put_driver(m);
        self.enabling.enable_by_change(&self.ends, queue, before);
        answer
    }

    /// The driver's list of an end. Of a wire that of end A is its output, and that of end B holds the
    /// messages that came in.
    pub fn driver_list(&self, end: End) -> &BandQueue
        ensures { result.now.messages ≡ (end_of self.now.image end).drv }
    {
        self.ends.end(end).driver_list()
    }

    /// Takes the first message of the output of a wire, which then leaves the stream. To be called over a
    /// wire. Takes no memory.
    pub fn take_out(&mut self) -> Option<BoxedMessage>
        requires { is_wire self.old.image.driver ≡ true }
        ensures some { IfSome result (λ m. (self.old.image.a.drv ≡ m ∷ self.new.image.a.drv) × (self.new.image ≡ with_drv self.old.image A self.new.image.a.drv)) }
        ensures none { IfNone result ((self.old.image.a.drv ≡ []) × (self.new.image ≡ self.old.image)) }
        ensures same { SameModules self.old.image self.new.image }
    {
        self.take_driver(End::A)
    }

    /// Puts a message back into the output of a wire, before those of its rank (putbq(9F)). To be called over
    /// a wire, with no flush and no error.
    ///
    /// Fails only when memory runs out: the message comes back, and nothing is changed.
    pub fn put_back_out(&mut self, m: BoxedMessage) -> Result<(), BoxedMessage>
        requires wire { is_wire self.old.image.driver ≡ true }
        requires calm { is_calm m.kind ≡ true }
        ensures ok { OnOk result (self.new.image ≡ with_drv self.old.image A (put_back_in self.old.image.a.drv m)) }
        ensures err { OnErr result (self.new.image ≡ self.old.image) }
        ensures back { IfErr result (λ same. same ≡ m) }
        ensures room_a { self.new.rooms.a ≡ self.old.rooms.a }
        ensures room_b { self.new.rooms.b ≡ self.old.rooms.b }
        ensures line_room { self.new.rooms.line ≡ self.old.rooms.line }
    {
        let queue = NextQueue::Of {
            place: Place::Drv { end: End::A },
        };
        let before = self.ends.len(queue);
        let answer = self.ends.end_mut(End::A).put_back_driver(m);
        self.enabling.enable_by_change(&self.ends, queue, before);
        answer
    }
}
