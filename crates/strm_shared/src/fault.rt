//! The reason for which a shared stream was not ended.
ghost use Rattle.std.specs.Prelude.{◌≡◌, Some};
ghost use Rattle.std.specs.Fmt.{padded};
ghost use Rattle.strm_shared.specs.Fault.{end_number, end_text};

use std::fmt;
use thiserror::Error;

/// The reason for which a shared stream was not ended.
#[derive(Clone, Copy, Debug, PartialEq, Eq, Error)]
pub enum EndFault {
    /// The seats are not those of the stream, one for each caller. Looked at first.
    Seats,
    /// It is not shown that the line's feeder has ended, or the state under the lock does not agree with the
    /// seats. Looked at second.
    Unfinished,
    /// Out of memory for the end of the stream. Looked at last.
    NoMem,
    /// A call that was made has no receipt: its entry has no second holder, which no test has met. Looked at
    /// third.
    NoReceipt,
    /// A part of the history was handed out to the drain, so that what is kept is no whole history. Looked
    /// at fourth.
    Drained,
}

impl EndFault {
    /// The number of the fault: 1 for seats, 2 for unfinished, 3 for out of memory, 4 for a call without a
    /// receipt, 5 for drained.
    pub fn number(self) -> u8
        ensures { result ≡ end_number self }
    {
        match self {
            EndFault::Seats => 1,
            EndFault::Unfinished => 2,
            EndFault::NoMem => 3,
            EndFault::NoReceipt => 4,
            EndFault::Drained => 5,
        }
    }

    /// The text of the fault, as it is printed.
    pub fn text(self) -> &'static str
        ensures { result.now ≡ end_text self }
    {
        match self {
            EndFault::Seats => "not the seats of this stream, one for each caller",
            EndFault::Unfinished => "a caller or the feeder has not ended",
            EndFault::NoMem => "no memory",
            EndFault::NoReceipt => "a call has no receipt",
            EndFault::Drained => "a part of the history was handed out",
        }
    }
}

/// Printed by its text.
impl fmt::Display for EndFault {
    ghost output = { λ fault. Some (end_text fault) };

    ghost styled_output = { λ fault spec. Some (padded spec (end_text fault)) };

    fn fmt<W: fmt::Write>(&self, f: &mut fmt::Formatter<W>) -> fmt::Result {
        f.pad(self.text())
    }
}
