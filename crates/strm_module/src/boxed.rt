//! A module in a box of its own, and the shape of a module in one.
ghost use Rattle.std.specs.Prelude.{◌≡◌, IfOk, OnOk, OnErr};
ghost use Rattle.strm_module.specs.Shape.{IsSameModule};
ghost use Rattle.strm_module.specs.Module.{put_of, serve_of, own_of, expired, IsQueued};

use crate::instance::Instance;
use crate::kind::Kind;
use crate::module::ModuleOf;
use crate::outs::{Outs, Put};
use crate::shape::Shape;
use std::alloc::Global;
use std::marker::Model;
use strm_msg::{BoxedMessage, NoMem, Side};

/// A module in a box. To hand it on moves a pointer. A contract sees the shape.
#[derive(Drop)]
pub struct BoxedModule<M: ModuleOf> {
    instance: Box<Instance<M>>,
}

impl<M: ModuleOf> Model for BoxedModule<M> {
    ghost use Rattle.strm_module.specs.declared.shape.Shape.{Shape};

    ghost Value = { Shape M.Kind };

    ghost view = { λ b. b.instance.value };
}

impl<M: ModuleOf> BoxedModule<M> {
    /// A module in a box. Fails only when memory runs out.
    pub fn new(alloc: Global, instance: Instance<M>) -> Result<Self, NoMem>
        ensures { IfOk result (λ boxed. boxed ≡ instance) }
    {
        match Box::new(alloc, instance) {
            Ok(instance) => Ok(BoxedModule { instance }),
            Err(_) => Err(NoMem),
        }
    }

    /// The shape of the module.
    pub fn shape(&self) -> &Shape<M::Kind>
        ensures { result.now ≡ self.now }
    {
        self.instance.shape()
    }

    /// The module itself.
    pub fn into_instance(self) -> Instance<M>
        ensures { result ≡ self }
    {
        Box::into_inner(self.instance)
    }

    /// Puts a message to the module on a side.
    pub fn put(&mut self, alloc: Global, side: Side, m: BoxedMessage) -> Result<Put, NoMem>
        ensures answer { IfOk result (λ put. put ≡ (put_of M.Kind.means self.old side m).answer) }
        ensures after { OnOk result (self.new ≡ (put_of M.Kind.means self.old side m).shape) }
        ensures err { OnErr result (self.new ≡ self.old) }
        ensures same { IsSameModule self.old self.new }
        ensures queued { IfOk result (λ put. IsQueued put side m self.old self.new) }
    {
        self.instance.put(alloc, side, m)
    }

    /// Serves a message that was queued on a side.
    pub fn serve(&mut self, alloc: Global, side: Side, m: BoxedMessage) -> Result<Outs, NoMem>
        ensures outs { IfOk result (λ outs. outs.items ≡ (serve_of M.Kind.means self.old side m).outs) }
        ensures after { OnOk result (self.new ≡ (serve_of M.Kind.means self.old side m).shape) }
        ensures err { OnErr result (self.new ≡ self.old) }
        ensures same { IsSameModule self.old self.new }
    {
        self.instance.serve(alloc, side, m)
    }

    /// Sends something of the module's own on a side (srv(9E)). Fails only when memory runs out: then the
    /// shape is as before.
    pub fn own(&mut self, alloc: Global, side: Side) -> Result<Outs, NoMem>
        ensures outs { IfOk result (λ outs. outs.items ≡ (own_of M.Kind.means self.old side).outs) }
        ensures after { OnOk result (self.new ≡ (own_of M.Kind.means self.old side).shape) }
        ensures err { OnErr result (self.new ≡ self.old) }
        ensures same { IsSameModule self.old self.new }
    {
        self.instance.own(alloc, side)
    }

    /// Lets so many ticks pass for the module, by which nothing is sent (timeout(9F)). Takes no memory.
    pub fn expire(&mut self, ticks: u32)
        ensures { self.new ≡ expired M.Kind.means self.old ticks }
    {
        self.instance.expire(ticks)
    }
}

/// The shape of a module, in a box. A history keeps it for a module, and a text declares it. A contract sees
/// the shape.
#[derive(Debug, Drop)]
pub struct BoxedShape<K = Kind> {
    shape: Box<Shape<K>>,
}

impl<K> Model for BoxedShape<K> {
    ghost use Rattle.strm_module.specs.declared.shape.Shape.{Shape};

    ghost Value = { Shape K };

    ghost view = { λ b. b.shape.value };
}

impl<K: Drop> BoxedShape<K> {
    /// A shape in a box. Fails only when memory runs out.
    pub fn new(alloc: Global, shape: Shape<K>) -> Result<Self, NoMem>
        ensures { IfOk result (λ boxed. boxed ≡ shape) }
    {
        match Box::new(alloc, shape) {
            Ok(shape) => Ok(BoxedShape { shape }),
            Err(_) => Err(NoMem),
        }
    }

    /// The shape in the box.
    pub fn shape(&self) -> &Shape<K>
        ensures { result.now ≡ self.now }
    {
        &self.shape
    }
}
