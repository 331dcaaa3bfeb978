//! The kinds of module that a script can name, and the modules that it pushes.
ghost use Rattle.std.specs.Prelude.{◌≡◌, ◌≤◌, IfOk};
ghost use Rattle.strm_script_text.specs.Text.{name_of, name_text, texts_of};
ghost use Rattle.strm_script_words.specs.Fault.{Gives, Tells, or_fault};
ghost use Rattle.strm_script_words.specs.Naming as naming;

use crate::fault::{Cause, ReadError};
use crate::field::side_at;
use arrayvec::ArrayVec;
use std::alloc::Global;
use strm_module::{LONGEST_NAME, ModuleOf, Plain, Shape};
use strm_msg::NoMem;
use strm_script_text::name;

/// Objects of the modules that a script pushes: `Plain` for the built-in kinds, or those of a program.
pub trait PlayModule: ModuleOf {
    /// The object of a new module of this shape.
    ///
    /// Fails only when memory runs out.
    fn object(alloc: Global, shape: &Shape<Self::Kind>) -> Result<Self, NoMem>;
}

impl PlayModule for Plain {
    fn object(_: Global, _: &Shape) -> Result<Plain, NoMem> {
        Ok(Plain)
    }
}

/// Kinds of module that a script can name, each by a word: the built-in ones of `Kind`, or those of a
/// program. No kind is named `noenable`: a push has that word before the kind.
///
/// An implementation gives the results of both functions as `words`. For a vocabulary of one kind that has no
/// fields of its own, with the word `turn`:
///
/// ```
/// ghost words = { record {
///     fields = λ word. if bytes_eq word (codes "turn") then Some 0 else None;
///     begins = λ word texts. if bytes_eq word (codes "turn") then Ok turn else Err Cause.UnknownWord;
/// } };
/// ```
pub trait ReadKind: Drop {
    ghost use Rattle.strm_script_words.specs.Naming.{KindWords};

    ghost words: { KindWords Self };

    /// The number of fields of its own that the kind of this word has in a push, behind KIND NAME RD WR;
    /// nothing if no kind has the word.
    fn fields(word: &[u8]) -> Option<u8>
        ensures { result ≡ words.fields word.now };

    /// The kind with which a module begins, by its word and those fields. A script is read only if their
    /// number is that of `fields`.
    ///
    /// Refused if no kind has the word, and for the first field with a fault; and when memory runs out, which
    /// says nothing of the text.
    fn begins(alloc: Global, word: &[u8], texts: &[&[u8]]) -> Result<Self, ReadError>
        ensures { Gives (λ kind. kind) result (words.begins word.now (texts_of texts.now)) };
}

/// Whether a word leaves the service procedures of a module to the program.
fn is_noenable(word: &[u8]) -> bool
    ensures { result ≡ naming.is_noenable word.now }
{
    word == b"noenable".as_slice()
}

/// The number of the fields KIND NAME RD WR and those of the kind. Refused if the first field is missing, and
/// if it names no kind.
fn kind_arity<K: ReadKind>(texts: &[&[u8]]) -> Result<usize, Cause>
    ensures value { Tells (λ n. n) result (naming.kind_arity K.words (texts_of texts.now)) }
    ensures few { IfOk result (λ n. n ≤ 259) }
{
    let [kind, ..] = texts else {
        return Err(Cause::Fields);
    };
    match K::fields(kind) {
        Some(own) => Ok(usize::from(own) + 4),
        None => Err(Cause::UnknownWord),
    }
}

/// The number of fields of a push behind NAME:END. Refused if the first field is missing, and if the kind has
/// no such word.
pub(crate) fn push_arity<K: ReadKind>(texts: &[&[u8]]) -> Result<usize, Cause>
    ensures { Tells (λ n. n) result (naming.push_arity K.words (texts_of texts.now)) }
{
    let [first, behind @ ..] = texts else {
        return Err(Cause::Fields);
    };
    if is_noenable(first) {
        return Ok(kind_arity::<K>(behind)? + 1);
    }
    kind_arity::<K>(texts)
}

/// The name of a module. Refused if the text is none.
pub(crate) fn name_at(text: &[u8]) -> Result<ArrayVec<u8, LONGEST_NAME>, Cause>
    ensures { Tells name_text result (or_fault Cause.Name (name_of LONGEST_NAME text.now)) }
{
    match name(text) {
        Some(chosen) => Ok(chosen),
        None => Err(Cause::Name),
    }
}

/// The module of KIND NAME RD WR and the fields of its kind. Refused, from left to right, for the first field
/// with a fault.
fn kind_shape_at<K: ReadKind>(
    alloc: Global,
    serial: u64,
    texts: &[&[u8]],
) -> Result<Shape<K>, ReadError>
    ensures { Gives (λ shape. shape) result (naming.kind_shape_at K.words serial (texts_of texts.now)) }
{
    let [kind, chosen, rd, wr, own @ ..] = texts else {
        return Err(ReadError::Fault(Cause::Fields));
    };
    if K::fields(kind).is_none() {
        return Err(ReadError::Fault(Cause::UnknownWord));
    }
    let name = name_at(chosen)?;
    let rd = side_at(rd)?;
    let wr = side_at(wr)?;
    let kind = K::begins(alloc, kind, own)?;
    Ok(Shape {
        serial,
        name,
        rd,
        wr,
        noenable: false,
        kind,
    })
}

/// The module of a push: of KIND NAME RD WR and the fields of its kind, or with `noenable` before them.
/// Refused, from left to right, for the first field with a fault.
pub(crate) fn shape_at<K: ReadKind>(
    alloc: Global,
    serial: u64,
    texts: &[&[u8]],
) -> Result<Shape<K>, ReadError>
    ensures { Gives (λ shape. shape) result (naming.shape_at K.words serial (texts_of texts.now)) }
{
    let [first, behind @ ..] = texts else {
        return Err(ReadError::Fault(Cause::Fields));
    };
    if is_noenable(first) {
        let mut shape = kind_shape_at::<K>(alloc, serial, behind)?;
        shape.noenable = true;
        return Ok(shape);
    }
    kind_shape_at(alloc, serial, texts)
}
