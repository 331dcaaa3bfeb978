//! The reason for which a stream was not made.
ghost use Rattle.std.specs.Prelude.{◌≡◌, Some};
ghost use Rattle.std.specs.Fmt.{padded};
ghost use Rattle.strm_head.specs.Fault.{new_fault_number, new_fault_text};

use std::fmt;
use thiserror::Error;

/// The reason for which a stream was not made.
#[derive(Clone, Copy, Debug, PartialEq, Eq, Error)]
pub enum NewFault {
    /// A low water mark is not below its high one. Looked at first.
    Marks,
    /// Out of memory.
    NoMem,
}

impl NewFault {
    /// The number of the fault: 1 for marks, 2 for out of memory.
    pub fn number(self) -> u8
        ensures { result ≡ new_fault_number self }
    {
        match self {
            NewFault::Marks => 1,
            NewFault::NoMem => 2,
        }
    }

    /// The text of the fault, as it is printed.
    pub fn text(self) -> &'static str
        ensures { result.now ≡ new_fault_text self }
    {
        match self {
            NewFault::Marks => "a low water mark is not below its high one",
            NewFault::NoMem => "no memory",
        }
    }
}

/// Printed by its text.
impl fmt::Display for NewFault {
    ghost output = { λ fault. Some (new_fault_text fault) };

    ghost styled_output = { λ fault spec. Some (padded spec (new_fault_text fault)) };

    fn fmt<W: fmt::Write>(&self, f: &mut fmt::Formatter<W>) -> fmt::Result {
        f.pad(self.text())
    }
}
