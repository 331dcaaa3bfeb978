//! The module that an owner serves.
ghost use Rattle.std.specs.Prelude.{◌≡◌};

use std::alloc::Global;
use std::marker::Model;
use strm_head_calls::{Name, Request, ServiceCall};
use strm_msg::{End, Side};

/// A module that an owner serves: the end at which it is, and its name. It is the topmost one of that name
/// whose service procedures are the program's (noenable(9F)), or the output of a wire by the driver's name.
///
/// A contract sees the end and the name.
#[derive(Drop)]
pub struct ServedModule {
    end: End,
    name: Name,
    alloc: Global,
}

impl Model for ServedModule {
    ghost use Rattle.strm_owner.specs.Serves.{ServedModuleValue};

    ghost Value = { ServedModuleValue };

    ghost view = { λ served. record { at = served.end; name = served.name } };
}

impl ServedModule {
    /// The module of this name at this end. Copies of messages take their memory from `alloc`.
    pub fn new(alloc: Global, end: End, name: Name) -> ServedModule
        ensures { result ≡ record { at = end; name = name } }
    {
        ServedModule { end, name, alloc }
    }

    /// The end.
    pub fn end(&self) -> End
        ensures { result ≡ self.now.at }
    {
        self.end
    }

    /// The name.
    pub fn name(&self) -> &Name
        ensures { result.now ≡ self.now.name }
    {
        &self.name
    }

    /// The allocator for copies of messages.
    pub(crate) fn alloc(&self) -> Global {
        self.alloc
    }

    /// The request for a call on the module.
    pub(crate) fn request<P>(&self, side: Side, call: ServiceCall) -> Request<P>
        ensures { result ≡ Request.Service self.now.name side call }
    {
        Request::Service {
            name: self.name.copy(),
            side,
            call,
        }
    }
}
