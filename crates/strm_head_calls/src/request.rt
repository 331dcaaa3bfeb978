//! Requests of a stream.
ghost use Rattle.std.specs.Prelude.{◌≡◌, IfOk};
ghost use Rattle.strm_head_calls.specs.declared.request.Request.TheVariants as Requests;

use crate::name::Name;
use crate::parts::BoxedParts;
use crate::service::ServiceCall;
use std::alloc::Global;
use strm_msg::{Bytes, NoMem, Prot, ReadMode, Side};

/// The most bytes of control that a call sends; more is refused with ERANGE.
pub const MAX_CONTROL: usize = 1024;

/// The most bytes of data that a call sends; more is refused with ERANGE, and with EINVAL for an
/// ioctl.
pub const MAX_DATA: usize = 4096;

/// The priority of a message that putmsg sends, that getmsg took or that a peek showed (putmsg(2),
/// getmsg(2)).
#[derive(Clone, Copy, Debug, PartialEq, Eq)]
pub enum Priority {
    /// An ordinary message (0).
    Norm,
    /// A high-priority message (RS_HIPRI).
    Hipri,
}

/// The flag of a putpmsg (putpmsg(2)).
#[derive(Clone, Copy, Debug, PartialEq, Eq)]
pub enum PutFlag {
    /// No flag, which putpmsg does not take.
    Zero,
    /// An ordinary message of a band (MSG_BAND).
    Band,
    /// A high-priority message (MSG_HIPRI).
    Hipri,
}

/// The first message that a getmsg or a peek takes (getmsg(2), I_PEEK).
#[derive(Clone, Copy, Debug, PartialEq, Eq)]
pub enum Wanted {
    /// The first message, whichever it is (0).
    Any,
    /// A high-priority message alone (RS_HIPRI).
    Hipri,
}

/// The flag of a getpmsg: the first message that it takes (getpmsg(2)).
#[derive(Clone, Copy, Debug, PartialEq, Eq)]
pub enum GetFlag {
    /// No flag, which getpmsg does not take.
    Zero,
    /// The first message, whichever it is (MSG_ANY).
    Any,
    /// A message of at least the band that is asked for, or a high-priority one (MSG_BAND).
    Band,
    /// A high-priority message alone (MSG_HIPRI).
    Hipri,
}

/// One call on an end of a stream.
///
/// A push carries `P`: the module when the call is made, and the module's shape in a history. Small fields
/// are first in each call, so that a request has 32 bytes.
///
/// Each call but a close, a take, a service call and a poll has three refusals more than those that it names.
/// Its end is closed, the stream is broken, or an error came up for a side that it looks at. These three are
/// looked at first. Out of memory is looked at last: it refuses a call that has changed nothing yet, and else
/// breaks the stream. A tick looks at no error.
#[derive(Debug, Drop)]
pub enum Request<P> {
    /// Sends a message (putmsg(2)): `MProto` of band 0 with control, `MPcproto` with control and
    /// `Hipri`, `MData` of band 0 with data alone, and nothing without a part.
    ///
    /// Refused with EINVAL (`Hipri` without control), ERANGE (a part over its greatest size), ENXIO
    /// (hung up) and EAGAIN (an ordinary message, and the first write queue is full), in this order.
    Putmsg {
        /// The priority with which it is sent.
        flag: Priority,
        /// Its parts.
        parts: BoxedParts,
    },
    /// Sends a message of a band (putpmsg(2)): with `Band` an `MProto` or an `MData` of that band,
    /// and nothing without a part; with `Hipri` as putmsg does.
    ///
    /// Refused with EINVAL (`Zero`, and `Hipri` without control or with a band other than 0), ERANGE,
    /// ENXIO and EAGAIN as putmsg is, in this order.
    Putpmsg {
        /// The band of an ordinary message, and 0 for a high one.
        band: u8,
        /// The priority with which it is sent.
        flag: PutFlag,
        /// Its parts.
        parts: BoxedParts,
    },
    /// Takes the first message, or a part of it (getmsg(2)). Of an empty list at a hung up end it
    /// takes two parts of no bytes.
    ///
    /// Refused with EAGAIN where no message is there and the end is not hung up, or the first is not
    /// the one that is wanted.
    Getmsg {
        /// The most bytes of control to take; with `None` the control part stays.
        maxctl: Option<u16>,
        /// The most bytes of data to take; with `None` the data part stays.
        maxdat: Option<u16>,
        /// The message that is wanted.
        flag: Wanted,
    },
    /// Takes the first message, or a part of it, of some band (getpmsg(2)). Of an empty list at a
    /// hung up end it takes two parts of no bytes.
    ///
    /// Refused with EINVAL (`Zero`), and with EAGAIN as getmsg is, in this order.
    Getpmsg {
        /// The most bytes of control to take; with `None` the control part stays.
        maxctl: Option<u16>,
        /// The most bytes of data to take; with `None` the data part stays.
        maxdat: Option<u16>,
        /// With `Band`, the least band that is wanted.
        band: u8,
        /// The message that is wanted.
        flag: GetFlag,
    },
    /// Reads bytes (read(2)), as the read mode says. 0 bytes are read without a look at the messages that
    /// wait, and at a hung up end without messages there are none to read.
    ///
    /// Refused with EBADMSG where the first message has control and the mode has `Norm`, and with EAGAIN
    /// where no message is there and the end is not hung up, in this order.
    Read {
        /// The most bytes to read.
        max: u16,
    },
    /// Sends one `MData` of band 0, an empty one too (write(2)).
    ///
    /// Refused with ERANGE (over `MAX_DATA` bytes), ENXIO (hung up) and EAGAIN (the first write queue
    /// is full), in this order.
    Write {
        /// The bytes to send.
        dat: Bytes,
    },
    /// Puts a module in just below the head (I_PUSH).
    ///
    /// Refused with EINVAL (`MOST_MODULES` modules are there, or messages could go round a circle) and ENXIO
    /// (hung up), in this order. Messages could go round a circle with a module that answers messages that
    /// come up: over an echo, above a module that answers those that go down, or at one end of a loop where
    /// one at the other end answers those that come up too.
    Push {
        /// The module.
        instance: P,
    },
    /// Asks for the number of messages that wait at the head, and for the number of data bytes of the first
    /// (I_NREAD).
    Nread,
    /// Looks at the first message, as getmsg would take it, and leaves it there (I_PEEK).
    Peek {
        /// The most bytes of control to show; with `None` control is not shown.
        maxctl: Option<u16>,
        /// The most bytes of data to show; with `None` data is not shown.
        maxdat: Option<u16>,
        /// The message that is wanted.
        flag: Wanted,
    },
    /// Sets the way in which reads treat messages (I_SRDOPT).
    SetRead {
        /// The treatment of the bounds of messages.
        mode: ReadMode,
        /// The treatment of control.
        prot: Prot,
    },
    /// Asks for the way in which reads treat messages (I_GRDOPT).
    GetRead,
    /// Asks whether the first write queue has room for an ordinary message of a band (I_CANPUT). It looks at
    /// no hangup: at a hung up end it may say yes where a write gets ENXIO.
    Canput {
        /// The band.
        band: u8,
    },
    /// Asks whether an ordinary message of a band waits at the head (I_CKBAND).
    Ckband {
        /// The band.
        band: u8,
    },
    /// Asks for the band of the first message at the head (I_GETBAND).
    ///
    /// Refused with ENODATA where none is there.
    Getband,
    /// Takes the topmost module out, and drops the messages in its queues (I_POP).
    ///
    /// Refused with EINVAL (no module is there) and ENXIO (hung up), in this order.
    Pop,
    /// Asks for the name of the topmost module (I_LOOK).
    ///
    /// Refused with EINVAL where no module is there.
    Look,
    /// Asks for the names of the modules, topmost first, and then of the driver (I_LIST).
    List,
    /// Asks whether a module of some name is there (I_FIND). The driver is none.
    ///
    /// Refused with EINVAL where the name has no byte, or more than `LONGEST_NAME`.
    Find {
        /// The name.
        name: Bytes,
    },
    /// Sends an ioctl down, and returns its answer when no queue must move any longer (I_STR).
    ///
    /// Refused with EINVAL (over `MAX_DATA` bytes of data), ENXIO (hung up) and EAGAIN (the greatest id was
    /// given out), in this order.
    Str {
        /// The command, as the modules and the driver know it.
        cmd: u32,
        /// The data that goes with it, if any.
        dat: Option<Bytes>,
    },
    /// Sends an ioctl down, and returns its id. Its answer is asked for later by a strget.
    ///
    /// Refused with EINVAL (over `MAX_DATA` bytes of data), ENXIO (hung up) and EAGAIN (an answer is asked
    /// for or kept already, or the greatest id was given out), in this order.
    Strput {
        /// The command, as the modules and the driver know it.
        cmd: u32,
        /// The data that goes with it, if any.
        dat: Option<Bytes>,
    },
    /// Asks for the answer to the ioctl of a strput. It is then asked for no longer.
    ///
    /// Refused with EINVAL (no answer is asked for) and EAGAIN (none has come, and the ioctl is not dropped),
    /// in this order.
    Strget {
        /// Whether the ioctl is dropped where no answer has come.
        drops: bool,
    },
    /// Sends a flush of all bands down (I_FLUSH).
    ///
    /// Refused with EINVAL (neither side is to be flushed) and ENXIO (hung up), in this order.
    Flush {
        /// Whether read queues are flushed (FLUSHR).
        r: bool,
        /// Whether write queues are flushed (FLUSHW).
        w: bool,
    },
    /// Sends a flush of one band down (I_FLUSHBAND).
    ///
    /// Refused with EINVAL (neither side is to be flushed) and ENXIO (hung up), in this order.
    FlushBand {
        /// The band.
        band: u8,
        /// Whether read queues are flushed (FLUSHR).
        r: bool,
        /// Whether write queues are flushed (FLUSHW).
        w: bool,
    },
    /// Takes all modules out, topmost first, and closes the end (close(2)). Drops the messages that its
    /// modules' queues and its head hold; the driver's list stays. The other end of a loop is hung up.
    ///
    /// Refused where the end is closed, and for nothing else. On a broken stream no service follows.
    Close,
    /// Takes the first message that was sent down to a wire, as the device outside of it does. Of a closed
    /// wire it still takes the messages that were sent down before, and then it returns a hangup, as often as
    /// it is made, unless a message is put back.
    ///
    /// Refused with EBADF (the driver is no wire, and the end is closed), ENOSR (the stream is broken),
    /// EINVAL (the driver is no wire), EAGAIN (no message is there, and the end is open) and ENOSR (memory
    /// runs out for a copy), in this order; and by no error that came up.
    Take,
    /// Does a part of a service procedure that is the program's (srv(9E)), of the topmost module of a name
    /// that was pushed under noenable(9F). At the end of a wire the name `wire` means the output, if no such
    /// module has it: a getq of any message is then a take. It looks at no error and no hangup.
    ///
    /// Refused with EBADF (the end is closed, and the call is not made on an output), ENOSR (the stream is
    /// broken), EINVAL (the name means neither; the module has no queue on the side and the call needs one;
    /// or an output has no such call), EAGAIN, and ENOSR (memory runs out), in this order. EAGAIN is a getq
    /// where no message waits or the first is not the one that is wanted, but not of a closed wire that holds
    /// none, which returns a hangup; and a putnext of an ordinary message where the next queue is full in its
    /// band.
    Service {
        /// The name of the module.
        name: Name,
        /// The side of the queue, and for a putnext and a bcanputnext the one to which a message goes on.
        side: Side,
        /// The call.
        call: ServiceCall,
    },
    /// Lets ticks pass for the modules of the end, which come from outside (timeout(9F)). That changes what
    /// their kinds keep. What a kind then owes, its services send in the same event. It looks at no error and
    /// no hangup, and takes no memory before queues move. Kinds that ask for no ticks stay as they are.
    ///
    /// Refused with EINVAL where there are no ticks.
    Tick {
        /// The number of ticks that have passed since the last.
        ticks: u32,
    },
    /// Asks for the state of the end, as poll(2) reports it (Programmer's Guide: STREAMS, "Input and Output
    /// Polling"). Never refused, not even at a closed end or on a broken stream, and takes no memory.
    Poll,
}

impl<P> Request<P> {
    /// A putmsg of these parts. Fails only when memory runs out.
    pub fn putmsg(
        alloc: Global,
        ctl: Option<Bytes>,
        dat: Option<Bytes>,
        flag: Priority,
    ) -> Result<Self, NoMem>
        ensures { IfOk result (λ request. request ≡ Requests.Putmsg flag (record { ctl = ctl; dat = dat })) }
    {
        let parts = BoxedParts::new(alloc, ctl, dat)?;
        Ok(Request::Putmsg { flag, parts })
    }

    /// A putpmsg of these parts. Fails only when memory runs out.
    pub fn putpmsg(
        alloc: Global,
        ctl: Option<Bytes>,
        dat: Option<Bytes>,
        band: u8,
        flag: PutFlag,
    ) -> Result<Self, NoMem>
        ensures { IfOk result (λ request. request ≡ Requests.Putpmsg band flag (record { ctl = ctl; dat = dat })) }
    {
        let parts = BoxedParts::new(alloc, ctl, dat)?;
        Ok(Request::Putpmsg { band, flag, parts })
    }
}
