//! A module's put and service procedures, as its shape says.
ghost use Rattle.std.specs.Prelude.{◌≡◌, IfOk, OnOk, OnErr, IsTrue};
ghost use Rattle.strm_msg.specs.declared.words.Side.TheVariants as Side;
ghost use Rattle.strm_module.specs.Kinds.{all_go_up};
ghost use Rattle.strm_module.specs.Shape.{IsSameModule};
ghost use Rattle.strm_module.specs.Module.{put_of, serve_of, own_of, expired, sends_up, waits_here};

use crate::outs::{Outs, Put};
use crate::shape::Shape;
use crate::turn::Turn;
use crate::vocabulary::Kinds;
use std::alloc::Global;
use strm_msg::{BoxedMessage, Message, NoMem, Side as Sides};

impl<K: Kinds> Shape<K> {
    /// Whether a message waits where there is a queue: an ordinary one does, and where the service procedures
    /// are the program's a high one too.
    fn waits(&self, m: &Message) -> bool
        ensures { result ≡ waits_here self.now m.now }
    {
        !m.is_high() || self.noenable
    }

    /// Puts a message that comes on a side to a module of this shape (put(9E)): an ordinary one is queued
    /// where the side has marks, and any other is served at once. Where the service procedures are the
    /// program's, a high one is queued too (`noenabled`).
    ///
    /// Fails only when memory runs out: then the shape is as before, and the message is dropped.
    pub fn put(&mut self, alloc: Global, side: Sides, m: BoxedMessage) -> Result<Put, NoMem>
        ensures answer { IfOk result (λ put. put ≡ (put_of K.means self.old side m).answer) }
        ensures after { OnOk result (self.new ≡ (put_of K.means self.old side m).shape) }
        ensures err { OnErr result (self.new ≡ self.old) }
        ensures same { IsSameModule self.old self.new }
        ensures upward { side ≡ Side.Rd → IfOk result (λ put. IsTrue (sends_up put)) }
    {
        if self.waits(&m) && self.queues(side) {
            return Ok(Put::Queue(m));
        }
        Ok(Put::Sent(self.serve(alloc, side, m)?))
    }

    /// Serves a message that was queued on a side of a module of this shape (srv(9E)).
    ///
    /// Fails only when memory runs out: then the shape is as before, and the message is dropped.
    pub fn serve(&mut self, alloc: Global, side: Sides, m: BoxedMessage) -> Result<Outs, NoMem>
        ensures outs { IfOk result (λ outs. outs.items ≡ (serve_of K.means self.old side m).outs) }
        ensures after { OnOk result (self.new ≡ (serve_of K.means self.old side m).shape) }
        ensures err { OnErr result (self.new ≡ self.old) }
        ensures same { IsSameModule self.old self.new }
        ensures upward { side ≡ Side.Rd → IfOk result (λ outs. IsTrue (all_go_up outs.items)) }
    {
        self.kind.process(alloc, side, m)
    }

    /// Sends something of its own on a side of a module of this shape (srv(9E)).
    ///
    /// Fails only when memory runs out: then the shape is as before.
    pub fn own(&mut self, alloc: Global, side: Sides) -> Result<Outs, NoMem>
        ensures outs { IfOk result (λ outs. outs.items ≡ (own_of K.means self.old side).outs) }
        ensures after { OnOk result (self.new ≡ (own_of K.means self.old side).shape) }
        ensures err { OnErr result (self.new ≡ self.old) }
        ensures same { IsSameModule self.old self.new }
        ensures upward { side ≡ Side.Rd → IfOk result (λ outs. IsTrue (all_go_up outs.items)) }
    {
        self.kind.own(alloc, side)
    }

    /// Lets so many ticks pass for a module of this shape, by which nothing is sent (timeout(9F)). Takes no
    /// memory.
    pub fn expire(&mut self, ticks: u32)
        ensures { self.new ≡ expired K.means self.old ticks }
    {
        self.kind.expire(ticks)
    }

    /// The turn of the service of a side, as things are now (srv(9E)).
    pub fn turn(&self, side: Sides) -> Turn
        ensures { result ≡ K.means.turn self.now.kind side }
    {
        self.kind.turn(side)
    }

    /// Whether a module of this shape may answer ordinary messages of a side on the other side.
    pub fn answers(&self, side: Sides) -> bool
        ensures { result ≡ K.means.answers self.now.kind side }
    {
        self.kind.answers(side)
    }
}
