//! The reason for which a chain refuses.
ghost use Rattle.std.specs.Prelude.{◌≡◌, Some};
ghost use Rattle.std.specs.Fmt.{padded};
ghost use Rattle.strm_chain.specs.Fault.{chain_fault_number, chain_fault_text};

use std::fmt;
use strm_msg::NoMem;
use thiserror::Error;

/// The reason for which a message was not delivered, or a place not served.
#[derive(Clone, Copy, Debug, PartialEq, Eq, Error)]
pub enum ChainFault {
    /// No memory, and nothing was changed.
    NoMem,
    /// Memory ran out after a change, now or earlier: the chain is broken, and refuses from then on.
    Broken,
}

impl ChainFault {
    /// The number of the fault: 1 for out of memory, 2 for a broken chain.
    pub fn number(self) -> u8
        ensures { result ≡ chain_fault_number self }
    {
        match self {
            ChainFault::NoMem => 1,
            ChainFault::Broken => 2,
        }
    }

    /// The text of the fault, as it is printed.
    pub fn text(self) -> &'static str
        ensures { result.now ≡ chain_fault_text self }
    {
        match self {
            ChainFault::NoMem => "no memory",
            ChainFault::Broken => "the chain is broken",
        }
    }
}

/// Printed by its text.
impl fmt::Display for ChainFault {
    ghost output = { λ fault. Some (chain_fault_text fault) };

    ghost styled_output = { λ fault spec. Some (padded spec (chain_fault_text fault)) };

    fn fmt<W: fmt::Write>(&self, f: &mut fmt::Formatter<W>) -> fmt::Result {
        f.pad(self.text())
    }
}

/// No memory, and nothing was changed.
impl From<NoMem> for ChainFault {
    ghost use Rattle.std.specs.Prelude.{◌≡◌};
    ghost use Rattle.strm_chain.specs.declared.fault.ChainFault.TheVariants as Faults;

    ghost from_gives = { λ _ fault. fault ≡ Faults.NoMem };

    fn from(_: NoMem) -> Self {
        ChainFault::NoMem
    }
}
