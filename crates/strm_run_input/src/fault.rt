//! The reason for which a run gave no transcript.
ghost use Rattle.std.specs.Prelude.{◌≡◌, Some};
ghost use Rattle.std.specs.Fmt.{padded};
ghost use Rattle.strm_run_input.specs.Fault.{run_fault_number, run_fault_text};

use std::fmt;
use strm_msg::NoMem;
use thiserror::Error;

/// The reason for which a run gave no transcript.
#[derive(Clone, Copy, Debug, PartialEq, Eq, Error)]
pub enum RunFault {
    /// Not 1 to 64 workers. Looked at first, before a thread starts.
    Workers,
    /// A call on a stream or an end that is not there, a feed for no line, a second feed for the same line, or
    /// a link that cannot be made. Looked at second, before a thread starts.
    NoSuch,
    /// Out of memory, or no thread could be started.
    NoMem,
    /// A stream did not end: seats or a feeder do not agree with the state under its lock.
    Unfinished,
    /// A call has no receipt, or has one that the history does not hold, which no test has met. Looked at
    /// last.
    NoReceipt,
}

impl RunFault {
    /// The number of the fault: 1 for workers, 2 for names that are not there, 3 for out of memory or of a
    /// thread, 5 for unfinished, 6 for a call without a receipt that holds. There is no 4.
    pub fn number(self) -> u8
        ensures { result ≡ run_fault_number self }
    {
        match self {
            RunFault::Workers => 1,
            RunFault::NoSuch => 2,
            RunFault::NoMem => 3,
            RunFault::Unfinished => 5,
            RunFault::NoReceipt => 6,
        }
    }

    /// The text of the fault, as it is printed.
    pub fn text(self) -> &'static str
        ensures { result.now ≡ run_fault_text self }
    {
        match self {
            RunFault::Workers => "workers",
            RunFault::NoSuch => "no such stream or end",
            RunFault::NoMem => "no memory",
            RunFault::Unfinished => "unfinished",
            RunFault::NoReceipt => "no receipt",
        }
    }
}

/// Printed by its text.
impl fmt::Display for RunFault {
    ghost output = { λ fault. Some (run_fault_text fault) };

    ghost styled_output = { λ fault spec. Some (padded spec (run_fault_text fault)) };

    fn fmt<W: fmt::Write>(&self, f: &mut fmt::Formatter<W>) -> fmt::Result {
        f.pad(self.text())
    }
}

/// Out of memory is the third fault.
impl From<NoMem> for RunFault {
    ghost use Rattle.std.specs.Prelude.{◌≡◌};
    ghost use Rattle.strm_run_input.specs.declared.fault.RunFault.TheVariants as Faults;

    ghost from_gives = { λ _ fault. fault ≡ Faults.NoMem };

    fn from(_: NoMem) -> Self {
        RunFault::NoMem
    }
}
