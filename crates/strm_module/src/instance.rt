//! A module as one thing: its shape and its object.
ghost use Rattle.std.specs.Prelude.{◌≡◌, IfOk, OnOk, OnErr};
ghost use Rattle.strm_module.specs.Shape.{IsSameModule};
ghost use Rattle.strm_module.specs.Module.{put_of, serve_of, own_of, expired, IsQueued};

use crate::module::ModuleOf;
use crate::outs::{Outs, Put};
use crate::shape::Shape;
use std::alloc::Global;
use std::marker::Model;
use strm_msg::{BoxedMessage, NoMem, Side};

/// A module as it is handed to a stream: its shape, and the object that acts for it, which stay
/// together. A contract sees the shape.
///
/// `M` is the type of the objects of a stream: `Box<dyn Module>` where its modules are of several
/// types.
///
/// ```
/// let shape = Shape::new(1, b"pass", None, None, Kind::Pass)?;
/// let object: Box<dyn Module> = Box::new(alloc, Pass)?;
/// let module = Instance::new(shape, object);
/// ```
///
/// Box in the program or the test itself: the gate refuses a library function that makes a boxed
/// `dyn` value and hands it out.
#[derive(Drop)]
pub struct Instance<M: ModuleOf> {
    shape: Shape<M::Kind>,
    object: M,
}

impl<M: ModuleOf> Model for Instance<M> {
    ghost use Rattle.strm_module.specs.declared.shape.Shape.{Shape};

    ghost Value = { Shape M.Kind };

    ghost view = { λ i. i.shape };
}

impl<M: ModuleOf> Instance<M> {
    /// A module of this shape, for which this object acts. Takes no memory.
    pub fn new(shape: Shape<M::Kind>, object: M) -> Self
        ensures { result ≡ shape }
    {
        Instance { shape, object }
    }

    /// The shape of the module.
    pub fn shape(&self) -> &Shape<M::Kind>
        ensures { result.now ≡ self.now }
    {
        &self.shape
    }

    /// The object, for its private data. The shape is dropped.
    pub fn into_object(self) -> M {
        let Instance { shape: _, object } = self;
        object
    }

    /// Puts a message to the module on a side: the object's put procedure has it (put(9E)).
    ///
    /// Fails only when memory runs out: then the shape is as before, and the message is dropped.
    pub fn put(&mut self, alloc: Global, side: Side, m: BoxedMessage) -> Result<Put, NoMem>
        ensures answer { IfOk result (λ put. put ≡ (put_of M.Kind.means self.old side m).answer) }
        ensures after { OnOk result (self.new ≡ (put_of M.Kind.means self.old side m).shape) }
        ensures err { OnErr result (self.new ≡ self.old) }
        ensures same { IsSameModule self.old self.new }
        ensures queued { IfOk result (λ put. IsQueued put side m self.old self.new) }
    {
        self.object.put(alloc, &mut self.shape, side, m)
    }

    /// Serves a message that was queued on a side: the object's service procedure has it (srv(9E)).
    ///
    /// Fails only when memory runs out: then the shape is as before, and the message is dropped.
    pub fn serve(&mut self, alloc: Global, side: Side, m: BoxedMessage) -> Result<Outs, NoMem>
        ensures outs { IfOk result (λ outs. outs.items ≡ (serve_of M.Kind.means self.old side m).outs) }
        ensures after { OnOk result (self.new ≡ (serve_of M.Kind.means self.old side m).shape) }
        ensures err { OnErr result (self.new ≡ self.old) }
        ensures same { IsSameModule self.old self.new }
    {
        self.object.serve(alloc, &mut self.shape, side, m)
    }

    /// Sends something of the module's own on a side (srv(9E)). Fails only when memory runs out: then the
    /// shape is as before.
    pub fn own(&mut self, alloc: Global, side: Side) -> Result<Outs, NoMem>
        ensures outs { IfOk result (λ outs. outs.items ≡ (own_of M.Kind.means self.old side).outs) }
        ensures after { OnOk result (self.new ≡ (own_of M.Kind.means self.old side).shape) }
        ensures err { OnErr result (self.new ≡ self.old) }
        ensures same { IsSameModule self.old self.new }
    {
        self.object.own(alloc, &mut self.shape, side)
    }

    /// Lets so many ticks pass for the module, by which nothing is sent (timeout(9F)). The object is not
    /// asked: what time changes is in the shape. Takes no memory.
    pub fn expire(&mut self, ticks: u32)
        ensures { self.new ≡ expired M.Kind.means self.old ticks }
    {
        self.shape.expire(ticks)
    }
}
