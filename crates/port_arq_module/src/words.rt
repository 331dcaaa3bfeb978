//! The kinds in scripts: their words, their fields, and their object.
ghost use Rattle.std.specs.Prelude.{◌≡◌, ◌<◌, ◌≤◌, IfOk};
ghost use Rattle.strm_script_text.specs.Text.{texts_of};
ghost use Rattle.strm_script_words.specs.Fault.{Tells};
ghost use Rattle.port_arq_module.specs.Words as words;

use crate::arq::ByShape;
use crate::kinds::ArqKind;
use port_arq::{MOST_WINDOW, Peer};
use std::alloc::Global;
use std::io::{self, Write};
use strm_head_calls::SameKind;
use strm_module::{Kind, Shape};
use strm_msg::NoMem;
use strm_script_print::{PrintKind, put_number};
use strm_script_words::{Cause, PlayModule, ReadError, ReadKind, number_at};

/// The word of an end of an acknowledged link.
const WORD: &[u8] = b"arq";

/// A number from 1 up to `most`. Refused if the text is none.
fn one_upto(text: &[u8], most: u64) -> Result<u64, Cause>
    ensures value { Tells (λ n. n) result (words.one_upto most text.now) }
    ensures least { IfOk result (λ n. 0 < n) }
    ensures most { IfOk result (λ n. n ≤ most) }
{
    let n = number_at(text, most)?;
    if n == 0 || n > most {
        return Err(Cause::Number);
    }
    Ok(n)
}

/// The kind of WINDOW and INTERVAL. Refused if there are not these two fields, and for the first with a fault.
fn end_at(texts: &[&[u8]]) -> Result<ArqKind, Cause>
    ensures { Tells (λ kind. kind) result (words.end_at (texts_of texts.now)) }
{
    let [window, interval] = texts else {
        return Err(Cause::Fields);
    };
    let window = one_upto(window, MOST_WINDOW as u64)?;
    let interval = one_upto(interval, u64::from(u32::MAX))?;
    Ok(ArqKind::Arq {
        peer: Peer::new(window as usize, interval as u32),
    })
}

/// Reads `arq WINDOW INTERVAL`, and the built-in kinds by their words. WINDOW is 1 to 7, and INTERVAL 1 to
/// 4294967295.
impl ReadKind for ArqKind {
    ghost use Rattle.port_arq_module.specs.Words.{arq_words};

    ghost words = { arq_words };

    fn fields(word: &[u8]) -> Option<u8> {
        if word == WORD {
            return Some(2);
        }
        Kind::fields(word)
    }

    fn begins(alloc: Global, word: &[u8], texts: &[&[u8]]) -> Result<ArqKind, ReadError> {
        if word == WORD {
            return Ok(end_at(texts)?);
        }
        let kind = Kind::begins(alloc, word, texts)?;
        Ok(ArqKind::Builtin { kind })
    }
}

/// Prints an end of a link as it is read, whatever has happened there.
impl PrintKind for ArqKind {
    ghost use Rattle.port_arq_module.specs.Words.{arq_spelling};

    ghost spelling = { arq_spelling };

    fn word(&self) -> &'static [u8] {
        match self {
            ArqKind::Builtin { kind } => kind.word(),
            ArqKind::Arq { .. } => WORD,
        }
    }

    fn put_fields<W: Write>(&self, w: &mut W) -> io::Result<()> {
        match self {
            ArqKind::Builtin { kind } => kind.put_fields(w),
            ArqKind::Arq { peer } => {
                put_number(w, peer.window() as u64)?;
                put_number(w, u64::from(peer.interval()))
            }
        }
    }
}

/// Whether two kinds are the same. A run needs this, to compare a history with the answers of its callers.
impl SameKind for ArqKind {
    fn is_same(&self, other: &ArqKind) -> bool {
        match (self, other) {
            (ArqKind::Builtin { kind }, ArqKind::Builtin { kind: k }) => kind.is_same(k),
            (ArqKind::Arq { peer }, ArqKind::Arq { peer: p }) => peer.is_same(p),
            _ => false,
        }
    }
}

/// The object has no state, so any new one will do.
impl PlayModule for ByShape {
    fn object(_: Global, _: &Shape<ArqKind>) -> Result<ByShape, NoMem> {
        Ok(ByShape)
    }
}
