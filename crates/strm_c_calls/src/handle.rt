//! A stream as a program in C holds it.
ghost use Rattle.std.specs.Prelude.{◌≡◌, Bool, true, false};
ghost use Rattle.strm_c_calls.specs.declared.held.Held.{Held};
ghost use Rattle.strm_c_calls.specs.Owned.{handle_owns, held_coded};

use crate::held::Held;
use crate::parts::Parts;
use std::alloc::Global;
use std::marker::Model;
use std::ptr;

/// A stream as a program in C holds it: one pointer. It leads to the stream while the handle is open, and
/// nowhere while it is closed.
///
/// No type that reaches a `Box` or an enum passes to C. So the pointer is to bytes, and the cast is inside
/// the three functions whose proofs are walks.
#[repr(C)]
#[derive(Drop)]
pub struct Handle {
    at: *mut u8,
    alloc: Global,
    pub ghost is_open: { Bool },
    pub ghost held: { Held } by { held_coded },
}

impl Model for Handle {
    ghost also_owns = { λ h. handle_owns h.is_open h.alloc h.at h.held };
}

impl Handle {
    /// A handle that leads nowhere. Its proof is a walk, written by hand.
    fn closed(alloc: Global) -> Handle
        ensures { result.is_open ≡ false }
    {
        Handle {
            at: ptr::null_mut(),
            alloc,
        }
    }

    /// An open handle that owns the stream of these parts. Its proof is a walk, written by hand.
    fn of_parts(parts: Parts<Held, Global>) -> Handle
        ensures { (result.is_open ≡ true) × (result.held ≡ parts.value) }
    {
        let Parts { ptr, alloc } = parts;
        Handle {
            at: ptr as *mut u8,
            alloc,
        }
    }

    /// The parts of the box to which an open handle leads. Its proof is a walk, written by hand.
    fn into_parts(self) -> Parts<Held, Global>
        requires { self.is_open ≡ true }
        ensures { result.value ≡ self.held }
    {
        let Handle { at, alloc } = self;
        Parts {
            ptr: at as *mut Held,
            alloc,
        }
    }

    /// Takes the stream out of an open handle, and closes the handle.
    pub fn take(&mut self, alloc: Global) -> Box<Held>
        requires { self.old.is_open ≡ true }
        ensures value { result.value ≡ self.old.held }
        ensures closed { self.new.is_open ≡ false }
    {
        std::mem::replace(self, Handle::closed(alloc))
            .into_parts()
            .into_box()
    }

    /// Puts a stream into a handle, and opens the handle.
    pub fn put(&mut self, held: Box<Held>)
        ensures open { self.new.is_open ≡ true }
        ensures value { self.new.held ≡ held.value }
    {
        *self = Handle::of_parts(Parts::of(held));
    }
}
