//! The reasons for which a line of a script cannot be read.
ghost use Rattle.std.specs.Prelude.{◌≡◌, Some};
ghost use Rattle.std.specs.Fmt.{padded};
ghost use Rattle.strm_script_words.specs.Fault.{cause_number, cause_text};

use std::alloc::{AllocError, AllocFailed};
use std::fmt;
use strm_msg::NoMem;
use thiserror::Error;

/// The cause of a fault of a script.
#[derive(Clone, Copy, Debug, PartialEq, Eq, Error)]
pub enum Cause {
    /// A line or a script that is longer than it may be.
    TooLong,
    /// A byte that may not be in a line.
    Byte,
    /// A word that names nothing, in the place of a line's first word, a kind of module, a flag or an errno.
    UnknownWord,
    /// Too few or too many fields.
    Fields,
    /// No number, or a number over its limit.
    Number,
    /// No part, a part that is too long, or bytes that a table cannot map.
    Part,
    /// A stream or an end that is not there.
    NoSuch,
    /// No name, or a name that is taken.
    Name,
    /// A low mark that is not below the high one.
    Marks,
    /// One thing more than there may be of its kind.
    TooMany,
    /// A line that may not be at its place.
    OutOfPlace,
    /// Out of memory. It says nothing of the script.
    NoMemory,
}

impl Cause {
    /// The number of the cause: 1 to 12, in the order of this list.
    pub fn number(self) -> u8
        ensures { result ≡ cause_number self }
    {
        match self {
            Cause::TooLong => 1,
            Cause::Byte => 2,
            Cause::UnknownWord => 3,
            Cause::Fields => 4,
            Cause::Number => 5,
            Cause::Part => 6,
            Cause::NoSuch => 7,
            Cause::Name => 8,
            Cause::Marks => 9,
            Cause::TooMany => 10,
            Cause::OutOfPlace => 11,
            Cause::NoMemory => 12,
        }
    }

    /// The text of the cause, as it is printed.
    pub fn text(self) -> &'static str
        ensures { result.now ≡ cause_text self }
    {
        match self {
            Cause::TooLong => "too long",
            Cause::Byte => "byte",
            Cause::UnknownWord => "unknown word",
            Cause::Fields => "fields",
            Cause::Number => "number",
            Cause::Part => "part",
            Cause::NoSuch => "no such stream or end",
            Cause::Name => "name",
            Cause::Marks => "marks",
            Cause::TooMany => "too many",
            Cause::OutOfPlace => "out of place",
            Cause::NoMemory => "no memory",
        }
    }
}

/// Printed by its text.
impl fmt::Display for Cause {
    ghost output = { λ cause. Some (cause_text cause) };

    ghost styled_output = { λ cause spec. Some (padded spec (cause_text cause)) };

    fn fmt<W: fmt::Write>(&self, f: &mut fmt::Formatter<W>) -> fmt::Result {
        f.pad(self.text())
    }
}

/// The reason for which a field was not read.
#[derive(Debug, Drop)]
pub enum ReadError {
    /// Out of memory. It says nothing of the text.
    Memory,
    /// The cause of the text's fault.
    Fault(Cause),
}

/// The fault of a text, by its cause.
impl From<Cause> for ReadError {
    ghost use Rattle.std.specs.Prelude.{◌≡◌};
    ghost use Rattle.strm_script_words.specs.declared.fault.ReadError.TheVariants as errors;

    ghost from_gives = { λ cause error. error ≡ errors.Fault cause };

    fn from(cause: Cause) -> Self {
        ReadError::Fault(cause)
    }
}

/// Out of memory.
impl From<AllocError> for ReadError {
    ghost use Rattle.std.specs.Prelude.{◌≡◌};
    ghost use Rattle.strm_script_words.specs.declared.fault.ReadError.TheVariants as errors;

    ghost from_gives = { λ _ error. error ≡ errors.Memory };

    fn from(_: AllocError) -> Self {
        ReadError::Memory
    }
}

/// Out of memory. Drops the value that could not be stored.
impl<T: Drop> From<AllocFailed<T>> for ReadError {
    ghost use Rattle.std.specs.Prelude.{◌≡◌};
    ghost use Rattle.strm_script_words.specs.declared.fault.ReadError.TheVariants as errors;

    ghost from_gives = { λ _ error. error ≡ errors.Memory };

    fn from(_: AllocFailed<T>) -> Self {
        ReadError::Memory
    }
}

/// Out of memory.
impl From<NoMem> for ReadError {
    ghost use Rattle.std.specs.Prelude.{◌≡◌};
    ghost use Rattle.strm_script_words.specs.declared.fault.ReadError.TheVariants as errors;

    ghost from_gives = { λ _ error. error ≡ errors.Memory };

    fn from(_: NoMem) -> Self {
        ReadError::Memory
    }
}
