//! The interface of a module.
ghost use Rattle.std.specs.Prelude.{◌≡◌, IfOk, OnOk, OnErr};
ghost use Rattle.strm_module.specs.Builtin.{builtin};
ghost use Rattle.strm_module.specs.Module.{put_of, serve_of, own_of};

use crate::kind::Kind;
use crate::outs::{Outs, Put};
use crate::shape::Shape;
use crate::vocabulary::Kinds;
use std::alloc::Global;
use strm_msg::{BoxedMessage, NoMem, Side};

/// A module's put and service procedures (qinit(9S)), for kinds of any vocabulary. Implement this for the
/// objects of a discipline that you port; for one of the built-in kinds implement `Module`, which may be
/// boxed.
///
/// # The object and its shape
///
/// A module is an object of a type that implements this trait, together with a `Shape`, which is plain data.
/// An `Instance` has both, and lends the shape to each call. The shape's kind decides which messages the
/// module sends for those that come, and holds all that this depends on, as a count or a partial line. The
/// shape's marks say on which sides the module has a queue. All else that the object keeps, as a tally or a
/// handle, is its private data. The framework never looks at it: no answer may depend on it, but for whether
/// memory runs out.
///
/// # Sides
///
/// `side` is the side on which a message came: `Wr` on its way down, from the head to the driver, and `Rd` on
/// its way up. Each message that leaves names its own side. A module may turn one round from the write side
/// to the read side, as the answer to an ioctl. A message that comes up is only sent further up.
///
/// # What they do
///
/// `put` is called for each message that comes. Queueing is an answer and no act: for an ordinary message of
/// a side with marks it is `Queue`, with the message unchanged, and the shape stays as it is. The caller then
/// puts the message into the queue of that side, which flow control is about. For every other message it is
/// `Sent`: high ones never wait, and neither do ordinary ones on a side without marks. A flush also empties
/// the module's queues, which is the caller's work.
///
/// `serve` is called with a message that was taken from the module's queue, once the queue ahead is not full
/// in the message's band. It sends the messages that the module makes of it.
///
/// `own` is called in the place of `serve` while the kind says that a side sends something of its own.
///
/// Ticks change the shape alone, and no object is called for them (`Instance::expire`).
///
/// All are called while another message is on its way, and none is handed anything to block on.
///
/// # What is asked
///
/// After `Ok` the answer and the shape are those that `put_of`, `serve_of` and `own_of` give for the shape
/// before: `Shape::put`, `Shape::serve` and `Shape::own` do just that, and so do the procedures where an
/// implementation leaves them out:
///
/// ```
/// impl ModuleOf for Terminal {
///     type Kind = Discipline;
/// }
/// ```
///
/// After `Err`, which is only when memory runs out, the shape is as before and the message is dropped. An
/// object that is lent the shape of another kind does what that shape says.
///
/// # Opening and closing
///
/// To make the object is the open routine. Its `Drop` is the close routine, which runs once, when the owner
/// that took the module out of the stream drops it.
pub trait ModuleOf: Send + Drop {
    /// The vocabulary that the module's kind is of.
    type Kind: Kinds;

    /// Puts a message to the module on a side (put(9E)).
    ///
    /// Fails only when memory runs out: then the shape is as before, and the message is dropped.
    fn put(
        &mut self,
        alloc: Global,
        shape: &mut Shape<Self::Kind>,
        side: Side,
        m: BoxedMessage,
    ) -> Result<Put, NoMem>
        ensures answer { IfOk result (λ put. put ≡ (put_of Self.Kind.means shape.old side m).answer) }
        ensures after { OnOk result (shape.new ≡ (put_of Self.Kind.means shape.old side m).shape) }
        ensures err { OnErr result (shape.new ≡ shape.old) }
    {
        shape.put(alloc, side, m)
    }

    /// Serves a message that was queued on a side (srv(9E)).
    ///
    /// Fails only when memory runs out: then the shape is as before, and the message is dropped.
    fn serve(
        &mut self,
        alloc: Global,
        shape: &mut Shape<Self::Kind>,
        side: Side,
        m: BoxedMessage,
    ) -> Result<Outs, NoMem>
        ensures outs { IfOk result (λ outs. outs.items ≡ (serve_of Self.Kind.means shape.old side m).outs) }
        ensures after { OnOk result (shape.new ≡ (serve_of Self.Kind.means shape.old side m).shape) }
        ensures err { OnErr result (shape.new ≡ shape.old) }
    {
        shape.serve(alloc, side, m)
    }

    /// Sends something of the module's own on a side (srv(9E)).
    ///
    /// Fails only when memory runs out: then the shape is as before.
    fn own(
        &mut self,
        alloc: Global,
        shape: &mut Shape<Self::Kind>,
        side: Side,
    ) -> Result<Outs, NoMem>
        ensures outs { IfOk result (λ outs. outs.items ≡ (own_of Self.Kind.means shape.old side).outs) }
        ensures after { OnOk result (shape.new ≡ (own_of Self.Kind.means shape.old side).shape) }
        ensures err { OnErr result (shape.new ≡ shape.old) }
    {
        shape.own(alloc, side)
    }
}

/// A module of the built-in kinds, which may be boxed. It is `ModuleOf` for the vocabulary `Kind`; `ModuleOf`
/// says all that both traits ask.
///
/// A module whose purpose is none of the kinds takes the kind by which it acts on messages, as `Pass` for one
/// that only watches them go by. It keeps its purpose in its private data.
pub trait Module: Send + Drop {
    /// Puts a message to the module on a side (put(9E)).
    ///
    /// Fails only when memory runs out: then the shape is as before, and the message is dropped.
    fn put(
        &mut self,
        alloc: Global,
        shape: &mut Shape,
        side: Side,
        m: BoxedMessage,
    ) -> Result<Put, NoMem>
        ensures answer { IfOk result (λ put. put ≡ (put_of builtin shape.old side m).answer) }
        ensures after { OnOk result (shape.new ≡ (put_of builtin shape.old side m).shape) }
        ensures err { OnErr result (shape.new ≡ shape.old) }
    {
        shape.put(alloc, side, m)
    }

    /// Serves a message that was queued on a side (srv(9E)).
    ///
    /// Fails only when memory runs out: then the shape is as before, and the message is dropped.
    fn serve(
        &mut self,
        alloc: Global,
        shape: &mut Shape,
        side: Side,
        m: BoxedMessage,
    ) -> Result<Outs, NoMem>
        ensures outs { IfOk result (λ outs. outs.items ≡ (serve_of builtin shape.old side m).outs) }
        ensures after { OnOk result (shape.new ≡ (serve_of builtin shape.old side m).shape) }
        ensures err { OnErr result (shape.new ≡ shape.old) }
    {
        shape.serve(alloc, side, m)
    }

    /// Sends something of the module's own on a side (srv(9E)).
    ///
    /// Fails only when memory runs out: then the shape is as before.
    fn own(&mut self, alloc: Global, shape: &mut Shape, side: Side) -> Result<Outs, NoMem>
        ensures outs { IfOk result (λ outs. outs.items ≡ (own_of builtin shape.old side).outs) }
        ensures after { OnOk result (shape.new ≡ (own_of builtin shape.old side).shape) }
        ensures err { OnErr result (shape.new ≡ shape.old) }
    {
        shape.own(alloc, side)
    }
}

/// A boxed module is a module: each call goes to the object in the box.
impl Module for Box<dyn Module> {
    fn put(
        &mut self,
        alloc: Global,
        shape: &mut Shape,
        side: Side,
        m: BoxedMessage,
    ) -> Result<Put, NoMem> {
        (**self).put(alloc, shape, side, m)
    }

    fn serve(
        &mut self,
        alloc: Global,
        shape: &mut Shape,
        side: Side,
        m: BoxedMessage,
    ) -> Result<Outs, NoMem> {
        (**self).serve(alloc, shape, side, m)
    }

    fn own(&mut self, alloc: Global, shape: &mut Shape, side: Side) -> Result<Outs, NoMem> {
        (**self).own(alloc, shape, side)
    }
}

/// A module of the built-in kinds is a module of that vocabulary.
impl<M: Module> ModuleOf for M {
    type Kind = Kind;

    fn put(
        &mut self,
        alloc: Global,
        shape: &mut Shape,
        side: Side,
        m: BoxedMessage,
    ) -> Result<Put, NoMem> {
        Module::put(self, alloc, shape, side, m)
    }

    fn serve(
        &mut self,
        alloc: Global,
        shape: &mut Shape,
        side: Side,
        m: BoxedMessage,
    ) -> Result<Outs, NoMem> {
        Module::serve(self, alloc, shape, side, m)
    }

    fn own(&mut self, alloc: Global, shape: &mut Shape, side: Side) -> Result<Outs, NoMem> {
        Module::own(self, alloc, shape, side)
    }
}
