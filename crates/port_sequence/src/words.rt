//! The discipline in scripts: its word, its field, and its object.
use crate::kinds::{ByShape, Sequence};
use std::alloc::Global;
use std::io::{self, Write};
use strm_module::Shape;
use strm_msg::NoMem;
use strm_script::{Cause, PlayModule, PrintKind, ReadError, ReadKind, put_number, u8_at};

/// Reads `sequence FIRST`. FIRST, 0 to 255, is the number of the first message on its way down, and the one
/// that is expected on its way up.
impl ReadKind for Sequence {
    ghost use Rattle.port_sequence.specs.Words.{sequence_words};

    ghost words = { sequence_words };

    fn fields(word: &[u8]) -> Option<u8> {
        if word == b"sequence".as_slice() {
            return Some(1);
        }
        None
    }

    fn begins(_: Global, word: &[u8], texts: &[&[u8]]) -> Result<Sequence, ReadError> {
        if word != b"sequence".as_slice() {
            return Err(ReadError::Fault(Cause::UnknownWord));
        }
        let [first] = texts else {
            return Err(ReadError::Fault(Cause::Fields));
        };
        let first = u8_at(first)?;
        Ok(Sequence {
            down: first,
            up: first,
            lost: 0,
        })
    }
}

/// Prints the kind as it is read, with the number of the next message on its way down.
impl PrintKind for Sequence {
    ghost use Rattle.port_sequence.specs.Words.{sequence_spelling};

    ghost spelling = { sequence_spelling };

    fn word(&self) -> &'static [u8] {
        b"sequence"
    }

    fn put_fields<W: Write>(&self, w: &mut W) -> io::Result<()> {
        put_number(w, u64::from(self.down))
    }
}

/// The object has no state, so any new one will do.
impl PlayModule for ByShape {
    fn object(_: Global, _: &Shape<Sequence>) -> Result<ByShape, NoMem> {
        Ok(ByShape)
    }
}
