//! A message in a box.
ghost use Rattle.std.specs.Prelude.{◌≡◌, IfOk, IfErr, IsTrue};
ghost use Rattle.strm_msg.specs.Message.{is_formed};
ghost use Rattle.strm_msg.specs.contracts.message.MessagePartialEq.TheImpl.Laws as message_equal;
ghost use Rattle.strm_msg.specs.contracts.message.MessageEq.TheImpl.Laws as message_same;

use crate::bytes::Bytes;
use crate::memory::NoMem;
use crate::message::Message;
use std::alloc::Global;
use std::marker::Model;
use std::mem;
use std::ops::Deref;

/// A message in a box. To hand it on moves a pointer, as STREAMS hand on an mblk. A contract sees the
/// message.
#[derive(Debug, Drop)]
pub struct BoxedMessage {
    m: Box<Message>,
}

impl Model for BoxedMessage {
    ghost use Rattle.strm_msg.specs.Message.{Msg};

    ghost Value = { Msg };

    ghost view = { λ b. b.m.value };
}

impl Deref for BoxedMessage {
    type Target = Message;

    ghost deref_gives = { λ b m. m ≡ b };

    fn deref(&self) -> &Message
        ensures { result.now ≡ self.now }
    {
        &self.m
    }
}

/// Equal where the messages are equal.
impl PartialEq for BoxedMessage {
    ghost eq = { ⟦<Message as PartialEq>⟧.eq };

    ghost laws = { message_equal.laws-law };

    fn eq(&self, other: &BoxedMessage) -> bool {
        *self.m == *other.m
    }
}

impl Eq for BoxedMessage {
    ghost laws = { message_same.laws-law };
}

impl BoxedMessage {
    /// A message in a box. It comes back only when memory runs out.
    pub fn try_new(alloc: Global, m: Message) -> Result<Self, Message>
        ensures ok { IfOk result (λ boxed. boxed ≡ m) }
        ensures back { IfErr result (λ same. same ≡ m) }
    {
        match Box::new(alloc, m) {
            Ok(m) => Ok(BoxedMessage { m }),
            Err(refused) => Err(refused.value),
        }
    }

    /// A message in a box. Fails only when memory runs out: then the message is dropped.
    pub fn new(alloc: Global, m: Message) -> Result<Self, NoMem>
        ensures { IfOk result (λ boxed. boxed ≡ m) }
    {
        match Box::new(alloc, m) {
            Ok(m) => Ok(BoxedMessage { m }),
            Err(_) => Err(NoMem),
        }
    }

    /// An equal message in a box of its own, which shares the bytes (dupmsg(9F)). Fails only when memory runs
    /// out.
    pub fn copy(&self, alloc: Global) -> Result<Self, NoMem>
        ensures { IfOk result (λ copy. copy ≡ self.now) }
    {
        BoxedMessage::new(alloc, self.m.copy()?)
    }

    /// The message without its box. Takes no memory.
    pub fn into_message(self) -> Message
        ensures { result ≡ self }
    {
        Box::into_inner(self.m)
    }

    /// Puts another message into this box, and drops the one that was there. Takes no memory.
    pub fn becoming(mut self, m: Message) -> Self
        ensures { result ≡ m }
    {
        *self.m = m;
        self
    }

    /// The message with this data part, or without one, in its box: kind, band and control part stay. To be
    /// called where the kind may have it. Takes no memory.
    pub fn with_dat(mut self, dat: Option<Bytes>) -> Self
        requires { IsTrue (is_formed self.kind self.band self.ctl dat) }
        ensures { result ≡ record self { dat = dat } }
    {
        let m = mem::take(&mut *self.m);
        self.becoming(Message { dat, ..m })
    }

    /// The message in another band, in its box: kind and parts stay. To be called where the kind may have it,
    /// as data and protocol messages alone are of a band other than 0. Takes no memory.
    pub fn with_band(mut self, band: u8) -> Self
        requires { IsTrue (is_formed self.kind band self.ctl self.dat) }
        ensures { result ≡ record self { band = band } }
    {
        let m = mem::take(&mut *self.m);
        self.becoming(Message { band, ..m })
    }
}
