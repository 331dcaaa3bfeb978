//! The reason for which a ring was not made.
ghost use Rattle.std.specs.Prelude.{◌≡◌, Some};
ghost use Rattle.std.specs.Fmt.{padded};
ghost use Rattle.strm_shared_ring.specs.Fault.{ring_number, ring_text};

use std::fmt;
use thiserror::Error;

/// The reason for which a ring was not made.
#[derive(Clone, Copy, Debug, PartialEq, Eq, Error)]
pub enum RingFault {
    /// The ring of a line does not hold 1 to 4096 messages. Looked at first.
    Slots,
    /// Out of memory.
    NoMem,
}

impl RingFault {
    /// The number of the fault: 1 for the number of messages that it holds, 2 for out of memory.
    pub fn number(self) -> u8
        ensures { result ≡ ring_number self }
    {
        match self {
            RingFault::Slots => 1,
            RingFault::NoMem => 2,
        }
    }

    /// The text of the fault, as it is printed.
    pub fn text(self) -> &'static str
        ensures { result.now ≡ ring_text self }
    {
        match self {
            RingFault::Slots => "the ring of a line does not hold 1 to 4096 messages",
            RingFault::NoMem => "no memory",
        }
    }
}

/// Printed by its text.
impl fmt::Display for RingFault {
    ghost output = { λ fault. Some (ring_text fault) };

    ghost styled_output = { λ fault spec. Some (padded spec (ring_text fault)) };

    fn fmt<W: fmt::Write>(&self, f: &mut fmt::Formatter<W>) -> fmt::Result {
        f.pad(self.text())
    }
}
