//! The printed modules of pushes.
ghost use Rattle.std.specs.Prelude.{◌≡◌, []};
ghost use Rattle.strm_script_text.specs.Writing.{Writes};
ghost use Rattle.strm_script_print.specs.Fields as text;
ghost use Rattle.strm_script_print.specs.Fields.{module_fields, noenable_fields, push_fields};
ghost use Rattle.strm_script_print.specs.LineBuffer.{AddsFields};

use crate::field::Field::{Pair, Word};
use crate::field::{Field, add_all, add_word, put_number, put_part};
use crate::line_buffer::LineBuffer;
use arrayvec::ArrayVec;
use std::io::{self, Write};
use strm_module::{Kind, Shape};
use strm_msg::Marks;
use strm_script_words::{Keyword, KindWord};

/// Kinds of module that a transcript can name: the built-in ones of `Kind`, or those of a program.
///
/// An implementation gives the answers of both functions as `spelling`. For a kind that has no fields of its
/// own, with the word `turn`:
///
/// ```
/// ghost spelling = { record { word = λ kind. codes "turn"; fields = λ kind. [] } };
/// ```
pub trait PrintKind {
    ghost use Rattle.strm_script_print.specs.Fields.{KindSpelling, spaced};

    ghost spelling: { KindSpelling Self };

    /// The word of the kind, by which a push names it.
    fn word(&self) -> &'static [u8]
        ensures { result.now ≡ spelling.word self.now };

    /// Writes the kind's own fields of a push, behind the marks: each field behind a space, as `put_number`,
    /// `put_part` and `put_word` write them.
    ///
    /// Refused if the writer refuses, with its error.
    fn put_fields<W: Write>(&self, w: &mut W) -> io::Result<()>
        ensures { Writes W.contents w.old w.new result (spaced (spelling.fields self.now)) };
}

/// The word of a built-in kind.
fn word_of(kind: &Kind) -> KindWord
    ensures { result ≡ text.word_of_kind kind.now }
{
    match kind {
        Kind::Pass => KindWord::Pass,
        Kind::Table { .. } => KindWord::Table,
        Kind::CrNl => KindWord::CrNl,
        Kind::Line { .. } => KindWord::Line,
        Kind::Count { .. } => KindWord::Count,
        Kind::Band { .. } => KindWord::Band,
        Kind::Tee => KindWord::Tee,
        Kind::Mute => KindWord::Mute,
        Kind::Split { .. } => KindWord::Split,
    }
}

/// The bytes that a table changes, ascending.
#[tactic(auto, using(crate::proofs::TableLemmas::one_changed, crate::proofs::TableLemmas::one_kept))]
fn changed(table: &[u8; 256]) -> ArrayVec<u8, 256>
    ensures { result.items ≡ text.changed table.now }
{
    let mut all = ArrayVec::new();
    for at in 0..256 {
        if table[at] != at as u8 {
            all.push(at as u8);
        }
    }
    all
}

/// The bytes that a table puts in the place of those that it changes.
#[tactic(auto, using(crate::proofs::TableLemmas::one_image, crate::proofs::TableLemmas::one_image_kept))]
fn images(table: &[u8; 256]) -> ArrayVec<u8, 256>
    ensures { result.items ≡ text.images table.now }
{
    let mut all = ArrayVec::new();
    for at in 0..256 {
        if table[at] != at as u8 {
            all.push(table[at]);
        }
    }
    all
}

/// Writes the own fields of a built-in kind, behind the marks.
#[tactic(auto, using(strm_script_text::proofs::WriteLemmas::appends_then))]
fn put_own<W: Write>(w: &mut W, kind: &Kind) -> io::Result<()>
    ensures { Writes W.contents w.old w.new result (text.spaced (text.own_fields kind.now)) }
{
    match kind {
        Kind::Table { map } => {
            put_part(w, changed(map).as_slice())?;
            put_part(w, images(map).as_slice())
        }
        Kind::Band { b } => put_number(w, u64::from(*b)),
        Kind::Split { n } => put_number(w, u64::from(*n)),
        Kind::Pass | Kind::CrNl | Kind::Line { .. } | Kind::Count { .. } | Kind::Tee | Kind::Mute =>
            Ok(()),
    }
}

/// The built-in kinds, by the words that scripts name them by.
impl PrintKind for Kind {
    ghost use Rattle.strm_script_print.specs.Fields.{builtin_spelling};

    ghost spelling = { builtin_spelling };

    fn word(&self) -> &'static [u8] {
        word_of(self).word()
    }

    fn put_fields<W: Write>(&self, w: &mut W) -> io::Result<()> {
        put_own(w, self)
    }
}

/// The marks of a side, or `-` if the module has no queue there.
fn side_field<'a>(side: Option<Marks>) -> Field<'a>
    ensures { text.said result ≡ text.side_field side }
{
    match side {
        None => Word(b"-"),
        Some(marks) => Pair(marks.hi, marks.lo),
    }
}

/// Adds the own fields of the kind of a module.
fn add_kind<W: Write, K: PrintKind>(w: &mut W, out: &mut LineBuffer, kind: &K)
    ensures { AddsFields W.contents w.old w.new out.old out.new (K.spelling.fields kind.now) }
{
    if out.flush(w) {
        out.keep_error(kind.put_fields(w));
    }
}

/// Adds that the service procedures of a module are the program's, where they are.
#[tactic(auto, using(crate::proofs::GatheredLemmas::puts_nothing))]
fn add_noenable<W: Write>(w: &mut W, out: &mut LineBuffer, noenable: bool)
    ensures { AddsFields W.contents w.old w.new out.old out.new (noenable_fields noenable) }
{
    if noenable {
        add_word(w, out, b"noenable");
    }
}

/// Adds a module: its kind, its name, the marks of its sides, and the fields of the kind.
#[tactic(auto, using(crate::proofs::GatheredLemmas::puts_on))]
fn add_shape<W: Write, K: PrintKind>(w: &mut W, out: &mut LineBuffer, shape: &Shape<K>)
    ensures { AddsFields W.contents w.old w.new out.old out.new (module_fields K.spelling shape.now) }
{
    let (kind, name) = (Word(shape.kind.word()), Word(shape.name.as_slice()));
    add_all(
        w,
        out,
        &[kind, name, side_field(shape.rd), side_field(shape.wr)],
    );
    add_kind(w, out, &shape.kind);
}

/// Adds the module of a push, which may be the program's to service.
#[tactic(auto, using(crate::proofs::GatheredLemmas::puts_on))]
pub(crate) fn add_module<W: Write, K: PrintKind>(w: &mut W, out: &mut LineBuffer, shape: &Shape<K>)
    ensures { AddsFields W.contents w.old w.new out.old out.new (push_fields K.spelling shape.now) }
{
    add_noenable(w, out, shape.noenable);
    add_shape(w, out, shape);
}
