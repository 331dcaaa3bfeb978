//! The reasons for which a rule is not made.
ghost use Rattle.std.specs.Prelude.{◌≡◌, Some};
ghost use Rattle.std.specs.Fmt.{padded};
ghost use Rattle.strm_link.specs.Fault.{rule_fault_number, rule_fault_text};

use std::fmt;
use thiserror::Error;

/// The reason for which a rule was not made.
#[derive(Clone, Copy, Debug, PartialEq, Eq, Error)]
pub enum RuleFault {
    /// A pattern has no act, or more than 64.
    Acts,
    /// More than 256 of 256 draws lose, double or hold a message.
    Draws,
}

impl RuleFault {
    /// The number of the fault: 1 for the acts of a pattern, 2 for odds.
    pub fn number(self) -> u8
        ensures { result ≡ rule_fault_number self }
    {
        match self {
            RuleFault::Acts => 1,
            RuleFault::Draws => 2,
        }
    }

    /// The text of the fault, as it is printed.
    pub fn text(self) -> &'static str
        ensures { result.now ≡ rule_fault_text self }
    {
        match self {
            RuleFault::Acts => "the pattern of a link does not have 1 to 64 acts",
            RuleFault::Draws => "the odds of a link are together more than 256 of 256",
        }
    }
}

/// Printed by its text.
impl fmt::Display for RuleFault {
    ghost output = { λ fault. Some (rule_fault_text fault) };

    ghost styled_output = { λ fault spec. Some (padded spec (rule_fault_text fault)) };

    fn fmt<W: fmt::Write>(&self, f: &mut fmt::Formatter<W>) -> fmt::Result {
        f.pad(self.text())
    }
}
