//! The driver's list of an end.
ghost use Rattle.std.specs.Prelude.{◌≡◌, ◌∷◌, [], ◌<◌, false, true, OnOk, OnErr, IfOk, IfErr, IfSome, IfNone, IsOk};
ghost use Rattle.strm_msg.specs.Kind.{is_high};
ghost use Rattle.strm_msg.specs.Message.{bare, rank_of};
ghost use Rattle.strm_msg.specs.declared.kind.MsgKind.TheVariants.{MIocnak};
ghost use Rattle.strm_msg.specs.declared.errno.Errno.TheVariants.{EINVAL};
ghost use Rattle.strm_chain_end.specs.declared.driver.DriverSends.TheVariants as Sends;
ghost use Rattle.strm_msg.specs.Options.{options_asked};
ghost use Rattle.strm_queue.specs.Queue.{put_in, put_back_in};
ghost use Rattle.strm_queue.specs.Room.{room_for};
ghost use Rattle.strm_module.specs.Calm.{is_calm};
ghost use Rattle.strm_chain_end.specs.End.{KeepsRoom, SpendsOne, in_drv};
ghost use Rattle.strm_chain_end.specs.Modules.{SameEnd};
ghost use Rattle.strm_chain_end.specs.Pair.{flushed_if};
ghost use Rattle.strm_chain_end.specs.Driver.{flush_up, put_at_line, put_at_loop, options_up, put_at_echo, put_at_wire, driver_at};

use super::StreamEnd;
use super::head::{flush_list, put_in_list};
use crate::driver::DriverSends;
use strm_module::{Driver, ModuleOf};
use strm_msg::{BoxedMessage, Errno, Message, MsgKind, NoMem, SETOPTS, options_asked};
use strm_queue::BandQueue;

/// Sends a flush of read queues that came down back up, in its box.
fn flush_back(m: BoxedMessage, r: bool, band: Option<u8>) -> DriverSends
    ensures { result ≡ flush_up r band }
{
    if r {
        DriverSends::Reply(m.becoming(Message::of_flush(true, false, band)))
    } else {
        DriverSends::Nothing
    }
}

/// The answer to an ioctl that is not carried out: a nak with EINVAL, in its box.
fn refused(m: BoxedMessage, id: u64) -> DriverSends
    ensures { result ≡ Sends.Reply (bare (MIocnak id EINVAL)) }
{
    DriverSends::Reply(m.becoming(Message::of_nak(id, Errno::EINVAL)))
}

/// The answer to an ioctl by which options are asked for: they go up, or it is refused.
fn options_up(id: u64, m: BoxedMessage) -> DriverSends
    ensures { result ≡ options_up id (options_asked m.dat) }
{
    match options_asked(&m.dat) {
        Some(MsgKind::MSetopts { mode, prot, marks }) => DriverSends::Options {
            mode,
            prot,
            marks,
            id,
        },
        _ => refused(m, id),
    }
}

impl<M: ModuleOf> StreamEnd<M> {
    /// Flushes the driver's list, where the flush names it.
    pub fn flush_driver(&mut self, is_named: bool, band: Option<u8>)
        ensures state { self.new.state ≡ in_drv self.old.state (flushed_if is_named band self.old.state.drv) }
        ensures same { SameEnd self.old.state self.new.state }
    {
        flush_list(&mut self.drv, is_named, band)
    }

    /// Lets a line driver act on a message: it consumes data and protocol messages that are written, and its
    /// list is flushed as a read queue.
    fn put_at_line(&mut self, m: BoxedMessage) -> DriverSends
        ensures state { self.new.state ≡ (put_at_line self.old.state m.kind).state }
        ensures sends { result ≡ (put_at_line self.old.state m.kind).sends }
        ensures same { SameEnd self.old.state self.new.state }
    {
        match m.kind {
            MsgKind::MFlush { r, w: _, band } => {
                self.flush_driver(r, band);
                flush_back(m, r, band)
            }
            MsgKind::MIoctl { id, .. } => refused(m, id),
            _ => DriverSends::Nothing,
        }
    }

    /// Lets a loop act on a message: it keeps the messages that are written, and its list is flushed as a
    /// write queue. Fails only when memory runs out: then nothing is changed.
    #[inline(always)]
    fn put_at_loop(&mut self, m: BoxedMessage) -> Result<DriverSends, NoMem>
        ensures state { OnOk result (self.new.state ≡ (put_at_loop self.old.state m.kind m).state) }
        ensures sends { IfOk result (λ sends. sends ≡ (put_at_loop self.old.state m.kind m).sends) }
        ensures err { OnErr result (self.new.state ≡ self.old.state) }
        ensures same { SameEnd self.old.state self.new.state }
    {
        match m.kind {
            MsgKind::MFlush { r, w, band } => {
                self.flush_driver(w, band);
                Ok(flush_back(m, r, band))
            }
            MsgKind::MIoctl { id, .. } => Ok(refused(m, id)),
            MsgKind::MData | MsgKind::MProto => {
                put_in_list(&mut self.drv, m)?;
                Ok(DriverSends::Nothing)
            }
            MsgKind::MPcproto => Ok(DriverSends::Across(m)),
            _ => Ok(DriverSends::Nothing),
        }
    }

    /// Lets an echo act on a message: as a loop does, but an ioctl of command `SETOPTS` makes it send options
    /// up. Fails only when memory runs out: then nothing is changed.
    fn put_at_echo(&mut self, m: BoxedMessage) -> Result<DriverSends, NoMem>
        ensures state { OnOk result (self.new.state ≡ (put_at_echo self.old.state m.kind m).state) }
        ensures sends { IfOk result (λ sends. sends ≡ (put_at_echo self.old.state m.kind m).sends) }
        ensures err { OnErr result (self.new.state ≡ self.old.state) }
        ensures same { SameEnd self.old.state self.new.state }
    {
        match m.kind {
            MsgKind::MIoctl { id, cmd } if cmd == SETOPTS => Ok(options_up(id, m)),
            _ => self.put_at_loop(m),
        }
    }

    /// Lets a wire act on a message: as a loop does, but a high protocol message is kept too, before all
    /// others. Fails only when memory runs out: then nothing is changed.
    fn put_at_wire(&mut self, m: BoxedMessage) -> Result<DriverSends, NoMem>
        ensures state { OnOk result (self.new.state ≡ (put_at_wire self.old.state m.kind m).state) }
        ensures sends { IfOk result (λ sends. sends ≡ (put_at_wire self.old.state m.kind m).sends) }
        ensures err { OnErr result (self.new.state ≡ self.old.state) }
        ensures same { SameEnd self.old.state self.new.state }
    {
        match m.kind {
            MsgKind::MPcproto => {
                put_in_list(&mut self.drv, m)?;
                Ok(DriverSends::Nothing)
            }
            _ => self.put_at_loop(m),
        }
    }

    /// Lets a driver act on a message from above, and returns what it sends up. Fails only when memory runs
    /// out: then nothing is changed.
    pub fn put_at_driver(&mut self, driver: Driver, m: BoxedMessage) -> Result<DriverSends, NoMem>
        ensures state { OnOk result (self.new.state ≡ (driver_at driver self.old.state m).state) }
        ensures sends { IfOk result (λ sends. sends ≡ (driver_at driver self.old.state m).sends) }
        ensures err { OnErr result (self.new.state ≡ self.old.state) }
        ensures same { SameEnd self.old.state self.new.state }
    {
        match driver {
            Driver::Line => Ok(self.put_at_line(m)),
            Driver::Echo => self.put_at_echo(m),
            Driver::Loop => self.put_at_loop(m),
            Driver::Wire => self.put_at_wire(m),
        }
    }

    /// The driver's list.
    pub fn driver_list(&self) -> &BandQueue
        ensures messages { result.now.messages ≡ self.now.state.drv }
        ensures marks { result.now.marks ≡ self.now.state.drv_marks }
        ensures room { result.now.room ≡ self.now.drv_room }
    {
        &self.drv
    }

    /// Takes the first message of the driver's list (getq(9F)). Takes no memory.
    pub fn take_driver(&mut self) -> Option<BoxedMessage>
        ensures some { IfSome result (λ m. (self.old.state.drv ≡ m ∷ self.new.state.drv) × (self.new.state ≡ in_drv self.old.state self.new.state.drv)) }
        ensures none { IfNone result ((self.old.state.drv ≡ []) × (self.new.state ≡ self.old.state)) }
        ensures same { SameEnd self.old.state self.new.state }
    {
        self.drv.get()
    }

    /// Makes room in the driver's list, so that the next `put_driver` of a message of this rank
    /// succeeds. Fails only when memory runs out, and not where the room is there. No rank loses
    /// room.
    pub fn driver_room(&mut self, rank: u16) -> Result<(), NoMem>
        ensures room { OnOk result (0 < room_for self.new.drv_room rank) }
        ensures enough { 0 < room_for self.old.drv_room rank → IsOk result }
        ensures drv_room { KeepsRoom self.old.drv_room self.new.drv_room }
        ensures head_room { self.new.head_room ≡ self.old.head_room }
        ensures state { self.new.state ≡ self.old.state }
    {
        self.drv.make_room(rank)
    }

    /// Puts an ordinary message into the driver's list (putq(9F)). That takes room for at most one
    /// message of each rank.
    ///
    /// Fails only when memory runs out: the message comes back, and nothing is changed.
    pub fn put_driver(&mut self, m: BoxedMessage) -> Result<(), BoxedMessage>
        requires { is_high m.kind ≡ false }
        ensures ok { OnOk result (self.new.state ≡ in_drv self.old.state (put_in self.old.state.drv m)) }
        ensures err { OnErr result (self.new.state ≡ self.old.state) }
        ensures back { IfErr result (λ same. same ≡ m) }
        ensures enough { 0 < room_for self.old.drv_room (rank_of m) → IsOk result }
        ensures spent { OnOk result (SpendsOne self.old.drv_room self.new.drv_room) }
        ensures unspent { OnErr result (KeepsRoom self.old.drv_room self.new.drv_room) }
        ensures head_room { self.new.head_room ≡ self.old.head_room }
    {
        self.drv.put(m)
    }

    /// Puts a message back into the driver's list, before those of its rank (putbq(9F)). To be called with no
    /// flush and no error.
    ///
    /// Fails only when memory runs out: the message comes back, and nothing is changed.
    pub fn put_back_driver(&mut self, m: BoxedMessage) -> Result<(), BoxedMessage>
        requires { is_calm m.kind ≡ true }
        ensures ok { OnOk result (self.new.state ≡ in_drv self.old.state (put_back_in self.old.state.drv m)) }
        ensures err { OnErr result (self.new.state ≡ self.old.state) }
        ensures back { IfErr result (λ same. same ≡ m) }
        ensures spent { OnOk result (SpendsOne self.old.drv_room self.new.drv_room) }
        ensures unspent { OnErr result (KeepsRoom self.old.drv_room self.new.drv_room) }
        ensures head_room { self.new.head_room ≡ self.old.head_room }
    {
        self.drv.put_back(m)
    }
}
