//! Both parts of a message that a call sends.
ghost use Rattle.std.specs.Prelude.{◌≡◌, ◌↔◌, true, IfOk};

use crate::answer::copy_part;
use crate::same::is_same_part;
use std::alloc::Global;
use std::marker::Model;
use std::ops::Deref;
use strm_msg::{Bytes, NoMem};

/// Control and data of a message that a call sends, of which each may be missing.
#[derive(Debug, Drop)]
pub struct Parts {
    /// The control part, if the message has one.
    pub ctl: Option<Bytes>,
    /// The data part, if the message has one.
    pub dat: Option<Bytes>,
}

/// Both parts in a box, so that a request is small. A contract sees the parts.
#[derive(Debug, Drop)]
pub struct BoxedParts {
    parts: Box<Parts>,
}

impl Model for BoxedParts {
    ghost use Rattle.strm_head_calls.specs.declared.parts.Parts.{Parts};

    ghost Value = { Parts };

    ghost view = { λ b. b.parts.value };
}

impl Deref for BoxedParts {
    type Target = Parts;

    ghost deref_gives = { λ b parts. parts ≡ b };

    fn deref(&self) -> &Parts
        ensures { result.now ≡ self.now }
    {
        &self.parts
    }
}

impl BoxedParts {
    /// These parts, in a box. Fails only when memory runs out.
    pub fn new(alloc: Global, ctl: Option<Bytes>, dat: Option<Bytes>) -> Result<Self, NoMem>
        ensures { IfOk result (λ parts. parts ≡ record { ctl = ctl; dat = dat }) }
    {
        match Box::new(alloc, Parts { ctl, dat }) {
            Ok(parts) => Ok(BoxedParts { parts }),
            Err(_) => Err(NoMem),
        }
    }

    /// The parts without their box. Takes no memory.
    pub fn into_parts(self) -> Parts
        ensures { result ≡ self }
    {
        Box::into_inner(self.parts)
    }

    /// Equal parts, in a box of their own. Fails only when memory runs out.
    pub fn copy(&self, alloc: Global) -> Result<Self, NoMem>
        ensures { IfOk result (λ copy. copy ≡ self.now) }
    {
        let ctl = copy_part(&self.ctl)?;
        let dat = copy_part(&self.dat)?;
        BoxedParts::new(alloc, ctl, dat)
    }

    /// Whether others are the same.
    pub fn is_same(&self, other: &BoxedParts) -> bool
        ensures { result ≡ true ↔ self.now ≡ other.now }
    {
        is_same_part(&self.ctl, &other.ctl) && is_same_part(&self.dat, &other.dat)
    }
}
