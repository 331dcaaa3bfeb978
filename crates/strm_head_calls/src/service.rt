//! What a program does in the place of a module's service procedure.
ghost use Rattle.std.specs.Prelude.{◌≡◌, ◌↔◌, true, IfOk};
ghost use Rattle.strm_head_calls.specs.Service.{is_question, needs_queue};

use crate::request::Wanted;
use crate::same::is_same_message;
use std::alloc::Global;
use strm_msg::{BoxedMessage, NoMem};

/// A call of a service procedure that is the program's (srv(9E), noenable(9F)), on a queue of its module or
/// on the output of a wire.
#[derive(Debug, Drop)]
pub enum ServiceCall {
    /// Takes the first message of the queue (getq(9F)).
    Getq {
        /// The message that is wanted.
        flag: Wanted,
    },
    /// Puts a message back into the queue, before those of its rank (putbq(9F)). A full queue takes it too.
    Putbq {
        /// The message.
        m: BoxedMessage,
    },
    /// Sends a message on from the module, to the side of the call (putnext(9F); qreply(9F) where the message
    /// came on the other side).
    Putnext {
        /// The message.
        m: BoxedMessage,
    },
    /// Asks whether an ordinary message of a band could be sent on to the side of the call (bcanputnext(9F)).
    Bcanputnext {
        /// The band.
        band: u8,
    },
    /// Asks for the number of messages in the queue (qsize(9F)).
    Qsize,
}

/// The reply of a service call that takes no message. A getq has the message as its reply, or a hangup.
#[derive(Clone, Copy, Debug, PartialEq, Eq)]
pub enum Serviced {
    /// The message was put back.
    Putbq,
    /// The message was sent on.
    Putnext,
    /// Whether an ordinary message of the band could be sent on.
    Bcanputnext {
        /// Whether it could.
        can: bool,
    },
    /// The messages in the queue.
    Qsize {
        /// Their number.
        messages: u64,
    },
}

impl ServiceCall {
    /// Whether the call only asks, and changes no queue.
    pub fn is_question(&self) -> bool
        ensures { result ≡ is_question self.now }
    {
        matches!(self, ServiceCall::Bcanputnext { .. } | ServiceCall::Qsize)
    }

    /// Whether the module must have a queue on the side of the call. A message may be sent on from a side
    /// without one.
    pub fn needs_queue(&self) -> bool
        ensures { result ≡ needs_queue self.now }
    {
        !matches!(
            self,
            ServiceCall::Putnext { .. } | ServiceCall::Bcanputnext { .. }
        )
    }

    /// An equal one, whose message is a copy (dupmsg(9F)). Fails only when memory runs out.
    pub fn copy(&self, alloc: Global) -> Result<ServiceCall, NoMem>
        ensures { IfOk result (λ copy. copy ≡ self.now) }
    {
        match self {
            ServiceCall::Getq { flag } => Ok(ServiceCall::Getq { flag: *flag }),
            ServiceCall::Putbq { m } => Ok(ServiceCall::Putbq { m: m.copy(alloc)? }),
            ServiceCall::Putnext { m } => Ok(ServiceCall::Putnext { m: m.copy(alloc)? }),
            ServiceCall::Bcanputnext { band } => Ok(ServiceCall::Bcanputnext { band: *band }),
            ServiceCall::Qsize => Ok(ServiceCall::Qsize),
        }
    }

    /// Whether another is the same.
    pub fn is_same(&self, other: &ServiceCall) -> bool
        ensures { result ≡ true ↔ self.now ≡ other.now }
    {
        match (self, other) {
            (ServiceCall::Getq { flag }, ServiceCall::Getq { flag: f }) => flag == f,
            (ServiceCall::Putbq { m }, ServiceCall::Putbq { m: n }) => is_same_message(m, n),
            (ServiceCall::Putnext { m }, ServiceCall::Putnext { m: n }) => is_same_message(m, n),
            (ServiceCall::Bcanputnext { band }, ServiceCall::Bcanputnext { band: b }) => band == b,
            (ServiceCall::Qsize, ServiceCall::Qsize) => true,
            _ => false,
        }
    }
}

impl Serviced {
    /// Whether another is the same.
    pub(crate) fn is_same(self, other: Serviced) -> bool
        ensures { result ≡ true ↔ self ≡ other }
    {
        match (self, other) {
            (Serviced::Putbq, Serviced::Putbq) => true,
            (Serviced::Putnext, Serviced::Putnext) => true,
            (Serviced::Bcanputnext { can }, Serviced::Bcanputnext { can: c }) => can == c,
            (Serviced::Qsize { messages }, Serviced::Qsize { messages: m }) => messages == m,
            _ => false,
        }
    }
}
