//! Refusals of calls.
ghost use Rattle.std.specs.Prelude.{◌≡◌, Some};
ghost use Rattle.std.specs.Fmt.{padded};
ghost use Rattle.strm_head_calls.specs.Refusal.{refusal_number, errno_of, refusal_text};

use std::fmt;
use strm_msg::Errno;
use thiserror::Error;

/// The reason for which a call was refused, in the order in which refusals are looked for. A call is refused
/// with the first that holds.
#[derive(Clone, Copy, Debug, PartialEq, Eq, Error)]
pub enum Refusal {
    /// The end is closed: EBADF.
    Closed,
    /// The stream is broken, as memory ran out after an earlier change: ENOSR.
    Broken,
    /// An error of the read side came up to the head earlier (M_ERROR).
    ReadError {
        /// The errno that it carried.
        errno: Errno,
    },
    /// An error of the write side came up to the head earlier (M_ERROR).
    WriteError {
        /// The errno that it carried.
        errno: Errno,
    },
    /// An argument that the call does not take: EINVAL.
    Invalid,
    /// A part over its greatest size: ERANGE.
    TooLong,
    /// The end is hung up: ENXIO.
    HungUp,
    /// The first message has control, which the read mode does not read: EBADMSG.
    BadMessage,
    /// No message is there to be asked about: ENODATA.
    NoMessage,
    /// The call would have to wait: EAGAIN.
    WouldWait,
    /// Out of memory before any change: ENOSR.
    NoMemory,
}

impl Refusal {
    /// The number of the refusal, 1 to 11. They are looked for in this order, but for 11, an error of the
    /// write side: it is looked for behind 3, that of the read side.
    pub fn number(self) -> u8
        ensures { result ≡ refusal_number self }
    {
        match self {
            Refusal::Closed => 1,
            Refusal::Broken => 2,
            Refusal::ReadError { .. } => 3,
            Refusal::WriteError { .. } => 11,
            Refusal::Invalid => 4,
            Refusal::TooLong => 5,
            Refusal::HungUp => 6,
            Refusal::BadMessage => 7,
            Refusal::NoMessage => 8,
            Refusal::WouldWait => 9,
            Refusal::NoMemory => 10,
        }
    }

    /// The errno of the refusal.
    pub fn errno(self) -> Errno
        ensures { result ≡ errno_of self }
    {
        match self {
            Refusal::Closed => Errno::EBADF,
            Refusal::Broken | Refusal::NoMemory => Errno::ENOSR,
            Refusal::ReadError { errno } | Refusal::WriteError { errno } => errno,
            Refusal::Invalid => Errno::EINVAL,
            Refusal::TooLong => Errno::ERANGE,
            Refusal::HungUp => Errno::ENXIO,
            Refusal::BadMessage => Errno::EBADMSG,
            Refusal::NoMessage => Errno::ENODATA,
            Refusal::WouldWait => Errno::EAGAIN,
        }
    }

    /// The text of the refusal, as it is printed.
    pub fn text(self) -> &'static str
        ensures { result.now ≡ refusal_text self }
    {
        match self {
            Refusal::Closed => "the end is closed",
            Refusal::Broken => "the stream is broken",
            Refusal::ReadError { .. } => "an error of the read side came up",
            Refusal::WriteError { .. } => "an error of the write side came up",
            Refusal::Invalid => "the call does not take an argument",
            Refusal::TooLong => "a part is too long",
            Refusal::HungUp => "the end is hung up",
            Refusal::BadMessage => "the first message has control",
            Refusal::NoMessage => "no message is there",
            Refusal::WouldWait => "the call would have to wait",
            Refusal::NoMemory => "no memory",
        }
    }
}

/// Printed by its text.
impl fmt::Display for Refusal {
    ghost output = { λ refusal. Some (refusal_text refusal) };

    ghost styled_output = { λ refusal spec. Some (padded spec (refusal_text refusal)) };

    fn fmt<W: fmt::Write>(&self, f: &mut fmt::Formatter<W>) -> fmt::Result {
        f.pad(self.text())
    }
}
