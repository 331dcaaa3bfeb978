//! Declarations of modules, by the lines that push them.
use std::alloc::Global;
use strm_head_calls::Call;
use strm_module::{BoxedModule, Module, ModuleOf, Outs, Put, Shape};
use strm_msg::{BoxedMessage, NoMem, Side};
use strm_script_words::PlayModule;

/// The object of a module that a script declares: none yet, or the one that a program made for it. A module
/// without one acts by its shape.
pub enum Object<M> {
    /// None yet.
    Unmade,
    /// The one that was made.
    Made(M),
}

impl<M: Drop> Drop for Object<M> {
    // In the loop that plays calls, this would be repeated for each way in which a module comes back.
    #[inline(never)]
    fn drop(self) {
        match self {
            Object::Unmade => {}
            Object::Made(object) => drop(object),
        }
    }
}

impl<M: ModuleOf> ModuleOf for Object<M> {
    type Kind = M::Kind;

    fn put(
        &mut self,
        alloc: Global,
        shape: &mut Shape<M::Kind>,
        side: Side,
        m: BoxedMessage,
    ) -> Result<Put, NoMem> {
        match self {
            Object::Unmade => shape.put(alloc, side, m),
            Object::Made(object) => object.put(alloc, shape, side, m),
        }
    }

    fn serve(
        &mut self,
        alloc: Global,
        shape: &mut Shape<M::Kind>,
        side: Side,
        m: BoxedMessage,
    ) -> Result<Outs, NoMem> {
        match self {
            Object::Unmade => shape.serve(alloc, side, m),
            Object::Made(object) => object.serve(alloc, shape, side, m),
        }
    }
}

impl<M: ModuleOf> PlayModule for Object<M> {
    fn object(_: Global, _: &Shape<M::Kind>) -> Result<Object<M>, NoMem> {
        Ok(Object::Unmade)
    }
}

/// The module that a push declares: its `shape` has the serial, the name, the marks of both sides and the
/// kind. Its object is of type `M`, once a program has made it.
pub type PushDecl<M = Box<dyn Module>> = BoxedModule<Object<M>>;

/// A call as a script declares it. If it is a push, `push` is the declaration of its module. `with_module`
/// and `plain` are the call itself, with another module and without one.
pub type CallDecl<M = Box<dyn Module>> = Call<PushDecl<M>>;
