//! Answers of calls.
ghost use Rattle.std.specs.Prelude.{◌≡◌, false, IfOk, IsOk};
ghost use Rattle.strm_head_calls.specs.Polled.{is_in, is_rdnorm, is_rdband, is_pri};
ghost use Rattle.strm_head_calls.specs.Reply.{has_bytes, received_of};

use crate::name::Name;
use crate::name_list::NameList;
use crate::refusal::Refusal;
use crate::request::Priority;
use crate::service::Serviced;
use std::alloc::Global;
use strm_module::Driver;
use strm_msg::{BoxedMessage, Bytes, Errno, Message, NoMem, Prot, ReadMode};

/// The parts of a message that stay at the stream head, whether or not they were asked for.
#[derive(Clone, Copy, Debug, PartialEq, Eq)]
pub enum More {
    /// Nothing stays.
    Nothing,
    /// Control stays (MORECTL).
    Ctl,
    /// Data stays (MOREDATA).
    Data,
    /// Both stay.
    Both,
}

/// The priority of a message that getpmsg took (getpmsg(2)).
#[derive(Clone, Copy, Debug, PartialEq, Eq)]
pub enum Received {
    /// An ordinary message (MSG_BAND).
    Band {
        /// Its band.
        band: u8,
    },
    /// A high-priority message (MSG_HIPRI).
    Hipri,
}

impl Received {
    /// The priority of a message that is taken, and the band of an ordinary one.
    pub fn of(m: &Message) -> Received
        ensures { result ≡ received_of m.now }
    {
        if m.is_high() {
            Received::Hipri
        } else {
            Received::Band { band: m.band }
        }
    }
}

/// An end as poll(2) reports it (Programmer's Guide: STREAMS, "Input and Output Polling").
#[derive(Clone, Copy, Debug, PartialEq, Eq)]
pub struct Polled {
    /// The first message, where one waits and no error of the read side came up: an ordinary one (POLLIN) of
    /// band 0 (POLLRDNORM) or of a band above 0 (POLLRDBAND), or one of high priority (POLLPRI).
    pub first: Option<Received>,
    /// A message of band 0 could be sent (POLLOUT, POLLWRNORM).
    pub out: bool,
    /// A message could be sent of a band above 0 that has a message in the first write queue (POLLWRBAND).
    pub wrband: bool,
    /// An error came up, or the stream is broken (POLLERR).
    pub err: bool,
    /// The end is hung up (POLLHUP).
    pub hup: bool,
    /// The end is closed (POLLNVAL).
    pub nval: bool,
}

impl Polled {
    /// Whether an ordinary message is first (POLLIN).
    pub fn is_in(&self) -> bool
        ensures { result ≡ is_in self.now.first }
    {
        matches!(self.first, Some(Received::Band { .. }))
    }

    /// Whether an ordinary message of band 0 is first (POLLRDNORM).
    pub fn is_rdnorm(&self) -> bool
        ensures { result ≡ is_rdnorm self.now.first }
    {
        matches!(self.first, Some(Received::Band { band: 0 }))
    }

    /// Whether an ordinary message of a band above 0 is first (POLLRDBAND).
    pub fn is_rdband(&self) -> bool
        ensures { result ≡ is_rdband self.now.first }
    {
        self.is_in() && !self.is_rdnorm()
    }

    /// Whether a message of high priority is first (POLLPRI).
    pub fn is_pri(&self) -> bool
        ensures { result ≡ is_pri self.now.first }
    {
        matches!(self.first, Some(Received::Hipri))
    }
}

/// The view of a message that a peek returns.
#[derive(Debug, Drop, PartialEq, Eq)]
pub struct Peeked {
    /// Control, or none for length -1: there was none, or it was not asked for.
    pub ctl: Option<Bytes>,
    /// Data, or none for length -1: there was none, or it was not asked for.
    pub dat: Option<Bytes>,
    /// The priority of the message.
    pub flag: Priority,
}

/// The outcome of an ioctl that was sent down (I_STR).
#[derive(Debug, Drop, PartialEq, Eq)]
pub enum Acknowledged {
    /// It was done (M_IOCACK).
    Ack {
        /// The value that it gave.
        rval: u64,
        /// The data that it gave, or `None` for length -1.
        dat: Option<Bytes>,
    },
    /// It was refused (M_IOCNAK).
    Nak {
        /// The errno.
        errno: Errno,
    },
    /// Nothing has answered it (ETIME).
    Timeout,
}

/// The reply of a call that is done, by the call.
#[derive(Debug, Drop, PartialEq, Eq)]
pub enum Reply {
    /// The message was sent.
    Putmsg,
    /// The message was sent.
    Putpmsg,
    /// The parts that were taken of a message.
    Getmsg {
        /// Control, or `None` for length -1: there was none, or it was not asked for.
        ctl: Option<Bytes>,
        /// Data, or `None` for length -1: there was none, or it was not asked for.
        dat: Option<Bytes>,
        /// The priority of the message.
        flag: Priority,
        /// The parts that stay of it.
        more: More,
    },
    /// The parts that were taken of a message.
    Getpmsg {
        /// Control, or `None` for length -1: there was none, or it was not asked for.
        ctl: Option<Bytes>,
        /// Data, or `None` for length -1: there was none, or it was not asked for.
        dat: Option<Bytes>,
        /// The band or the priority of the message.
        flag: Received,
        /// The parts that stay of it.
        more: More,
    },
    /// The bytes that were read.
    Read {
        /// The bytes.
        dat: Bytes,
    },
    /// The bytes were sent.
    Write {
        /// Their number.
        len: u64,
    },
    /// The module was put in.
    Push,
    /// The messages that wait at the head.
    Nread {
        /// The number of messages.
        messages: u64,
        /// The number of data bytes of the first; 0 without one.
        bytes: u64,
    },
    /// The view of the first message; `None` where no message is there, or not the one that is wanted.
    Peek {
        /// The view of the message.
        found: Option<Peeked>,
    },
    /// Reads treat messages so from now on.
    SetRead,
    /// The way in which reads treat messages.
    GetRead {
        /// The treatment of the bounds of messages.
        mode: ReadMode,
        /// The treatment of control.
        prot: Prot,
    },
    /// Whether an ordinary message of the band could be sent.
    Canput {
        /// Whether it could.
        can: bool,
    },
    /// Whether an ordinary message of the band waits at the head.
    Ckband {
        /// Whether one does.
        waits: bool,
    },
    /// The band of the first message at the head, 0 for a high one.
    Getband {
        /// The band.
        band: u64,
    },
    /// The module was taken out.
    Pop {
        /// Its name.
        name: Name,
    },
    /// The topmost module.
    Look {
        /// Its name.
        name: Name,
    },
    /// The names of the modules and of the driver.
    List {
        /// The names of the modules, topmost first.
        names: NameList,
        /// The driver, whose name is the last.
        driver: Driver,
    },
    /// Whether a module of the name is there.
    Find {
        /// Whether one is.
        found: bool,
    },
    /// The ioctl was sent.
    Str {
        /// The outcome of it.
        answer: Acknowledged,
    },
    /// The ioctl was sent, and its answer is asked for later.
    Strput {
        /// The id of it.
        id: u64,
    },
    /// The flush was sent.
    Flush,
    /// The flush was sent.
    FlushBand,
    /// The end was closed.
    Close {
        /// The names of the modules that were there, topmost first.
        names: NameList,
    },
    /// A message that came in from a line was taken.
    Line,
    /// A message was taken: one that had been sent down to a wire, or the first of a queue that the program
    /// services.
    Message {
        /// The message.
        m: BoxedMessage,
    },
    /// A wire is closed, and all that had been sent down to it was taken.
    Hangup,
    /// A service call was done that takes no message.
    Service {
        /// The reply, by the call.
        told: Serviced,
    },
    /// The ticks have passed.
    Tick,
    /// The state of an end, as poll(2) reports it.
    Poll {
        /// The facts that hold.
        told: Polled,
    },
}

/// A copy of a part that may be missing, which shares the bytes. Takes no memory, and fails only where the
/// bytes have more owners than can be counted.
pub fn copy_part(part: &Option<Bytes>) -> Result<Option<Bytes>, NoMem>
    ensures { IfOk result (λ copy. copy ≡ part.now) }
{
    match part {
        Some(bytes) => Ok(Some(bytes.copy()?)),
        None => Ok(None),
    }
}

impl Peeked {
    /// An equal one, as `copy_part` makes its parts.
    pub fn copy(&self) -> Result<Peeked, NoMem>
        ensures { IfOk result (λ copy. copy ≡ self.now) }
    {
        Ok(Peeked {
            ctl: copy_part(&self.ctl)?,
            dat: copy_part(&self.dat)?,
            flag: self.flag,
        })
    }
}

impl Acknowledged {
    /// An equal one, as `copy_part` makes its data.
    pub fn copy(&self) -> Result<Acknowledged, NoMem>
        ensures { IfOk result (λ copy. copy ≡ self.now) }
    {
        match self {
            Acknowledged::Ack { rval, dat } => Ok(Acknowledged::Ack {
                rval: *rval,
                dat: copy_part(dat)?,
            }),
            Acknowledged::Nak { errno } => Ok(Acknowledged::Nak { errno: *errno }),
            Acknowledged::Timeout => Ok(Acknowledged::Timeout),
        }
    }
}

impl Reply {
    /// An equal one, which shares the bytes. Takes no memory but for a message in a box, and else fails only
    /// where bytes have more owners than can be counted.
    pub fn copy(&self, alloc: Global) -> Result<Reply, NoMem>
        ensures ok { IfOk result (λ copy. copy ≡ self.now) }
        ensures plain { has_bytes self.now ≡ false → IsOk result }
    {
        match self {
            Reply::Getmsg {
                ctl,
                dat,
                flag,
                more,
            } => Ok(Reply::Getmsg {
                ctl: copy_part(ctl)?,
                dat: copy_part(dat)?,
                flag: *flag,
                more: *more,
            }),
            Reply::Getpmsg {
                ctl,
                dat,
                flag,
                more,
            } => Ok(Reply::Getpmsg {
                ctl: copy_part(ctl)?,
                dat: copy_part(dat)?,
                flag: *flag,
                more: *more,
            }),
            Reply::Read { dat } => Ok(Reply::Read { dat: dat.copy()? }),
            Reply::Peek { found: Some(seen) } => Ok(Reply::Peek {
                found: Some(seen.copy()?),
            }),
            Reply::Str { answer } => Ok(Reply::Str {
                answer: answer.copy()?,
            }),
            Reply::Message { m } => Ok(Reply::Message { m: m.copy(alloc)? }),
            plain => Ok(plain.copy_plain()),
        }
    }

    /// An equal one, of a reply that has no bytes.
    pub(crate) fn copy_plain(&self) -> Reply
        requires { has_bytes self.now ≡ false }
        ensures { result ≡ self.now }
    {
        match self {
            Reply::Putmsg => Reply::Putmsg,
            Reply::Putpmsg => Reply::Putpmsg,
            Reply::Write { len } => Reply::Write { len: *len },
            Reply::Push => Reply::Push,
            Reply::Nread { messages, bytes } => Reply::Nread {
                messages: *messages,
                bytes: *bytes,
            },
            Reply::SetRead => Reply::SetRead,
            Reply::GetRead { mode, prot } => Reply::GetRead {
                mode: *mode,
                prot: *prot,
            },
            Reply::Canput { can } => Reply::Canput { can: *can },
            Reply::Ckband { waits } => Reply::Ckband { waits: *waits },
            Reply::Getband { band } => Reply::Getband { band: *band },
            Reply::Pop { name } => Reply::Pop { name: name.copy() },
            Reply::Look { name } => Reply::Look { name: name.copy() },
            Reply::List { names, driver } => Reply::List {
                names: names.copy(),
                driver: *driver,
            },
            Reply::Find { found } => Reply::Find { found: *found },
            Reply::Strput { id } => Reply::Strput { id: *id },
            Reply::Flush => Reply::Flush,
            Reply::FlushBand => Reply::FlushBand,
            Reply::Close { names } => Reply::Close {
                names: names.copy(),
            },
            Reply::Line => Reply::Line,
            Reply::Hangup => Reply::Hangup,
            Reply::Service { told } => Reply::Service { told: *told },
            Reply::Tick => Reply::Tick,
            Reply::Poll { told } => Reply::Poll { told: *told },
            Reply::Peek { .. } => Reply::Peek { found: None },
            Reply::Getmsg { .. }
            | Reply::Getpmsg { .. }
            | Reply::Read { .. }
            | Reply::Str { .. }
            | Reply::Message { .. } => unreachable!(),
        }
    }
}

/// The answer to a call, or to a message that came in from a line.
#[derive(Debug, Drop, PartialEq, Eq)]
pub enum Answer {
    /// The call was done.
    Done(Reply),
    /// The call was refused, and the stream is as it was.
    Refused(Refusal),
    /// Memory ran out after the call had changed the stream, which is broken from then on.
    Broke,
}
