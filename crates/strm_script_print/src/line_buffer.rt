//! A buffer of printed text, which is written when it is full.
ghost use Rattle.std.specs.Prelude.{◌≡◌, None, Some, false, true, IfErr, IfSome, IsErrOf, IsOk};
ghost use Rattle.strm_script_print.specs.LineBuffer.{Adds, IsEmptyBuffer, IsFlushed, KeepsError};
ghost use Rattle.strm_script_print.specs.LineBuffer.{WritesGathered};

use arrayvec::ArrayVec;
use std::io::{self, Error, Write};

/// The number of bytes that are gathered before they are written.
const ROOM: usize = 256;

/// Bytes that are printed and not yet written, and the error of a writer that refused. After an error nothing
/// more is written.
#[derive(Drop)]
pub(crate) struct LineBuffer {
    bytes: ArrayVec<u8, ROOM>,
    refused: Option<Error>,
}

impl LineBuffer {
    /// A buffer in which nothing is gathered yet.
    pub(crate) fn new() -> Self
        ensures { IsEmptyBuffer result }
    {
        LineBuffer {
            bytes: ArrayVec::new(),
            refused: None,
        }
    }

    /// Keeps the error of a writer that refused.
    pub(crate) fn keep_error(&mut self, written: io::Result<()>)
        ensures bytes { self.new.bytes ≡ self.old.bytes }
        ensures ok { self.new.refused ≡ None → IsOk written }
        ensures error { IfErr written (λ error. self.new.refused ≡ Some error) }
    {
        if let Err(error) = written {
            self.refused = Some(error);
        }
    }

    /// Writes the gathered text, and returns whether the writer has refused nothing so far. Changes nothing
    /// if it has refused before.
    pub(crate) fn flush<W: Write>(&mut self, w: &mut W) -> bool
        ensures flushed { result ≡ true → IsFlushed (W.contents w.old) (W.contents w.new) self.old self.new }
        ensures refused { result ≡ false → self.new.refused ≡ None → ⊥ }
        ensures error { KeepsError self.old self.new }
    {
        if self.refused.is_some() {
            return false;
        }
        match w.write_all(self.bytes.as_slice()) {
            Ok(()) => {
                self.bytes.clear();
                true
            }
            Err(error) => {
                self.refused = Some(error);
                false
            }
        }
    }

    /// Writes the gathered text, and then these bytes. It is a function apart from `put`, so that the test
    /// for room is inlined.
    #[cold]
    #[inline(never)]
    fn flush_and_put<W: Write>(&mut self, w: &mut W, bytes: &[u8])
        ensures { Adds W.contents w.old w.new self.old self.new bytes.now }
    {
        if self.flush(w) {
            self.keep_error(w.write_all(bytes));
        }
    }

    /// Gathers bytes. If there is no room for them, all is written.
    #[inline(always)]
    pub(crate) fn put<W: Write>(&mut self, w: &mut W, bytes: &[u8])
        ensures { Adds W.contents w.old w.new self.old self.new bytes.now }
    {
        match self.bytes.try_extend_from_slice(bytes) {
            Ok(()) => {}
            Err(_) => self.flush_and_put(w, bytes),
        }
    }

    /// Writes the rest of the gathered text. Refused if the writer refuses, or did before, with its error.
    pub(crate) fn finish<W: Write>(self, w: &mut W) -> io::Result<()>
        ensures text { WritesGathered (W.contents w.old) (W.contents w.new) self result }
        ensures error { IfSome self.refused (λ error. IsErrOf result error) }
    {
        let LineBuffer { bytes, refused } = self;
        match refused {
            Some(error) => Err(error),
            None => w.write_all(bytes.as_slice()),
        }
    }
}
