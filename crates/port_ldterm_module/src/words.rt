//! The kinds in scripts: their words, their fields, and the object.
ghost use Rattle.std.specs.Prelude.{◌≡◌};
ghost use Rattle.port_ldterm_module.specs.Words.{is_ldterm, ldterm_at};
ghost use Rattle.strm_script_text.specs.Text.{texts_of};
ghost use Rattle.strm_script_words.specs.Fault.{Tells};

use crate::by_shape::ByShape;
use crate::kinds::Discipline;
use crate::ldterm::{Ldterm, USUAL_MODES};
use std::alloc::Global;
use std::io::{self, Write};
use strm_head_calls::SameKind;
use strm_module::{Kind, Shape};
use strm_msg::NoMem;
use strm_script_parse::PlayModule;
use strm_script_print::PrintKind;
use strm_script_words::{Cause, ReadError, ReadKind};

/// Whether a word names a terminal.
fn is_ldterm(word: &[u8]) -> bool
    ensures { result ≡ is_ldterm word.now }
{
    word == b"ldterm".as_slice()
}

/// A terminal in its usual modes. Refused if there is a field.
fn ldterm_at(texts: &[&[u8]]) -> Result<Discipline, Cause>
    ensures { Tells (λ kind. kind) result (ldterm_at (texts_of texts.now)) }
{
    match texts {
        [] => Ok(Discipline::Terminal {
            ldterm: Ldterm::new(USUAL_MODES),
        }),
        _ => Err(Cause::Fields),
    }
}

/// Reads `ldterm`, which has no fields of its own and begins in its usual modes, and the words of the
/// built-in kinds.
impl ReadKind for Discipline {
    ghost use Rattle.port_ldterm_module.specs.Words.{discipline_words};

    ghost words = { discipline_words };

    fn fields(word: &[u8]) -> Option<u8> {
        if is_ldterm(word) {
            return Some(0);
        }
        Kind::fields(word)
    }

    fn begins(alloc: Global, word: &[u8], texts: &[&[u8]]) -> Result<Discipline, ReadError> {
        if !is_ldterm(word) {
            let kind = Kind::begins(alloc, word, texts)?;
            return Ok(Discipline::Builtin { kind });
        }
        Ok(ldterm_at(texts)?)
    }
}

/// Prints the kinds as they are read.
impl PrintKind for Discipline {
    ghost use Rattle.port_ldterm_module.specs.Words.{discipline_spelling};

    ghost spelling = { discipline_spelling };

    fn word(&self) -> &'static [u8] {
        match self {
            Discipline::Builtin { kind } => kind.word(),
            Discipline::Terminal { .. } => b"ldterm",
        }
    }

    fn put_fields<W: Write>(&self, w: &mut W) -> io::Result<()> {
        match self {
            Discipline::Builtin { kind } => kind.put_fields(w),
            Discipline::Terminal { .. } => Ok(()),
        }
    }
}

/// Whether two kinds are the same. A run needs this, to compare a history with the answers of its callers.
impl SameKind for Discipline {
    fn is_same(&self, other: &Discipline) -> bool {
        match (self, other) {
            (Discipline::Builtin { kind }, Discipline::Builtin { kind: k }) => kind.is_same(k),
            (Discipline::Terminal { ldterm }, Discipline::Terminal { ldterm: l }) => {
                ldterm.is_same(l)
            }
            _ => false,
        }
    }
}

/// The object has no state, so any new one will do.
impl PlayModule for ByShape {
    fn object(_: Global, _: &Shape<Discipline>) -> Result<ByShape, NoMem> {
        Ok(ByShape)
    }
}
