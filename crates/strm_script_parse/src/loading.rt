//! The bytes of a script, read to their end.
ghost use Rattle.std.specs.Prelude.{◌≡◌, take, IfOk, IfSome, Some};
ghost use Rattle.std.specs.Fmt.{padded};
ghost use Rattle.strm_script_parse.specs.Load.{IsFaultOf, load_number, load_text};

use crate::parsing::LONGEST_SCRIPT;
use std::alloc::Global;
use std::fmt;
use std::io::{self, ErrorKind, Read};
use thiserror::Error;

/// The most bytes that are read: one more than a script may have, which shows that it is too long.
pub const MOST_READ: u64 = LONGEST_SCRIPT as u64 + 1;

/// The reason for which a script was not read.
#[derive(Clone, Copy, Debug, PartialEq, Eq, Error)]
pub enum LoadFault {
    /// The script could not be opened or read.
    Read,
    /// Out of memory.
    NoMem,
}

impl LoadFault {
    /// The number of the fault: 1 for a failed read, 2 for out of memory.
    pub fn number(self) -> u8
        ensures { result ≡ load_number self }
    {
        match self {
            LoadFault::Read => 1,
            LoadFault::NoMem => 2,
        }
    }

    /// The text of the fault, as it is printed.
    pub fn text(self) -> &'static str
        ensures { result.now ≡ load_text self }
    {
        match self {
            LoadFault::Read => "cannot read the script",
            LoadFault::NoMem => "no memory",
        }
    }
}

/// Printed by its text.
impl fmt::Display for LoadFault {
    ghost output = { λ fault. Some (load_text fault) };

    ghost styled_output = { λ fault spec. Some (padded spec (load_text fault)) };

    fn fmt<W: fmt::Write>(&self, f: &mut fmt::Formatter<W>) -> fmt::Result {
        f.pad(self.text())
    }
}

/// Keeps out of memory apart. Any other error is a failed read.
impl From<io::Error> for LoadFault {
    ghost from_gives = { λ error fault. IsFaultOf error fault };

    fn from(error: io::Error) -> Self {
        match error.kind() {
            ErrorKind::OutOfMemory => LoadFault::NoMem,
            _ => LoadFault::Read,
        }
    }
}

/// Reads the bytes of a reader to their end, or the first `MOST_READ` of them.
///
/// An interrupted read is repeated. A read of fewer bytes than were asked for is not the end. Refused with
/// `NoMem` when memory runs out, and with `Read` if a read fails otherwise.
pub fn load<R: Read + Drop>(alloc: Global, reader: R) -> Result<Vec<u8>, LoadFault>
    ensures { IfOk result (λ script. IfSome (R.remaining reader) (λ all. script.items ≡ take MOST_READ all)) }
{
    let mut script = Vec::new(alloc);
    reader.take(MOST_READ).read_to_end(&mut script)?;
    Ok(script)
}
