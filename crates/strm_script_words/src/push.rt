//! The words of the built-in kinds.
ghost use Rattle.std.specs.Prelude.{◌≡◌, ◌==◌};
ghost use Rattle.std.specs.List.{list_any, position_or_len};
ghost use Rattle.strm_script_text.specs.Text.{texts_of};
ghost use Rattle.strm_script_words.specs.Fault.{Gives, Tells};
ghost use Rattle.strm_script_words.specs.Push as pushes;

use crate::fault::{Cause, ReadError};
use crate::field::{number_at, part_at, u8_at};
use crate::keyword::{Keyword, from_keyword};
use crate::kinds::ReadKind;
use std::alloc::Global;
use strm_module::{Kind, MOST_SPLIT};
use strm_msg::Bytes;

/// A built-in kind of module, by its word alone.
#[derive(Clone, Copy, Debug, PartialEq, Eq)]
pub enum KindWord {
    /// Passes each message on.
    Pass,
    /// Maps bytes of data.
    Table,
    /// Puts a CR before each LF, and takes it away in the other direction.
    CrNl,
    /// Keeps data until its line ends.
    Line,
    /// Counts data messages.
    Count,
    /// Puts messages into a band.
    Band,
    /// Sends a copy of data messages up.
    Tee,
    /// Drops data messages.
    Mute,
    /// Sends each data message on in two.
    Split,
}

impl KindWord {
    /// The number of the kind's own fields, behind KIND NAME RD WR.
    pub fn own_fields(self) -> u8
        ensures { result ≡ pushes.own_fields self }
    {
        match self {
            KindWord::Table => 2,
            KindWord::Band | KindWord::Split => 1,
            KindWord::Pass
            | KindWord::CrNl
            | KindWord::Line
            | KindWord::Count
            | KindWord::Tee
            | KindWord::Mute => 0,
        }
    }
}

impl Keyword for KindWord {
    ghost use Rattle.strm_script_words.specs.Push.{all_kinds, kind_word};

    ghost word = { kind_word };

    ghost all = { all_kinds };

    fn word(self) -> &'static [u8] {
        match self {
            KindWord::Pass => b"pass",
            KindWord::Table => b"table",
            KindWord::CrNl => b"crnl",
            KindWord::Line => b"line",
            KindWord::Count => b"count",
            KindWord::Band => b"band",
            KindWord::Tee => b"tee",
            KindWord::Mute => b"mute",
            KindWord::Split => b"split",
        }
    }

    fn all() -> &'static [KindWord] {
        &[
            KindWord::Pass,
            KindWord::Table,
            KindWord::CrNl,
            KindWord::Line,
            KindWord::Count,
            KindWord::Band,
            KindWord::Tee,
            KindWord::Mute,
            KindWord::Split,
        ]
    }
}

/// Whether a byte is one of these.
fn has_byte(bytes: &[u8], byte: u8) -> bool
    ensures { result ≡ list_any (λ other. other == byte) bytes.now }
{
    bytes.iter().any(|other| *other == byte)
}

/// Whether no byte is there twice.
fn are_distinct(bytes: &[u8]) -> bool
    ensures { result ≡ pushes.are_distinct bytes.now }
{
    let mut rest = bytes;
    while let Some((byte, after)) = rest.split_first() {
        if has_byte(after, *byte) {
            return false;
        }
        rest = after;
    }
    true
}

/// Whether a table can map these bytes to those.
fn is_mapping(from: &[u8], to: &[u8]) -> bool
    ensures { result ≡ pushes.is_mapping from.now to.now }
{
    from.len() == to.len() && are_distinct(from)
}

/// The index of a byte, or the number of bytes if it is absent.
fn place_of(bytes: &[u8], byte: u8) -> usize
    ensures { result ≡ position_or_len (λ other. other == byte) bytes.now }
{
    bytes
        .iter()
        .position(|other| *other == byte)
        .unwrap_or(bytes.len())
}

/// The byte that a table puts in the place of a byte: the one at the same index, or the byte itself.
fn image_of(from: &[u8], to: &[u8], byte: u8) -> u8
    ensures { result ≡ pushes.image_of from.now to.now byte }
{
    to.get(place_of(from, byte)).copied().unwrap_or(byte)
}

/// The table of all 256 bytes.
#[tactic(auto, unfolding(crate::specs::Push::table_of))]
fn table_of(from: &[u8], to: &[u8]) -> [u8; 256]
    ensures { result ≡ pushes.table_of from.now to.now }
{
    let mut table = [0; 256];
    for at in 0..256 {
        table[at] = image_of(from, to, at as u8);
    }
    table
}

/// The kind of FROM and TO. Refused if there are not these two fields, if one is no part, and if no table
/// maps the one to the other.
fn table_at(alloc: Global, texts: &[&[u8]]) -> Result<Kind, ReadError>
    ensures { Gives (λ kind. kind) result (pushes.table_at (texts_of texts.now)) }
{
    let [from, to] = texts else {
        return Err(ReadError::Fault(Cause::Fields));
    };
    let from = part_at(alloc, from)?;
    let to = part_at(alloc, to)?;
    if !is_mapping(from.as_slice(), to.as_slice()) {
        return Err(ReadError::Fault(Cause::Part));
    }
    Ok(Kind::Table {
        map: table_of(from.as_slice(), to.as_slice()),
    })
}

/// The kind of BAND. Refused if there is not this one field, and if it is no number up to `MOST_BAND`.
fn band_at(texts: &[&[u8]]) -> Result<Kind, Cause>
    ensures { Tells (λ kind. kind) result (pushes.band_at (texts_of texts.now)) }
{
    let [band] = texts else {
        return Err(Cause::Fields);
    };
    Ok(Kind::Band { b: u8_at(band)? })
}

/// The kind of N. Refused if there is not this one field, and if it is no number from 1 to `MOST_SPLIT`.
fn size_at(texts: &[&[u8]]) -> Result<Kind, Cause>
    ensures { Tells (λ kind. kind) result (pushes.size_at (texts_of texts.now)) }
{
    let [size] = texts else {
        return Err(Cause::Fields);
    };
    let n = number_at(size, u64::from(MOST_SPLIT))?;
    if n == 0 {
        return Err(Cause::Number);
    }
    Ok(Kind::Split { n: n as u16 })
}

/// A kind without fields of its own. Refused if there is a field.
fn alone(kind: Kind, texts: &[&[u8]]) -> Result<Kind, Cause>
    ensures { Tells (λ kind. kind) result (pushes.alone kind (texts_of texts.now)) }
{
    match texts {
        [] => Ok(kind),
        _ => Err(Cause::Fields),
    }
}

/// The kind with which a module begins, by its own fields. Refused for a wrong number of fields, and for a
/// field with a fault.
fn kind_at(alloc: Global, word: KindWord, texts: &[&[u8]]) -> Result<Kind, ReadError>
    ensures { Gives (λ kind. kind) result (pushes.kind_at word (texts_of texts.now)) }
{
    match word {
        KindWord::Pass => Ok(alone(Kind::Pass, texts)?),
        KindWord::Table => table_at(alloc, texts),
        KindWord::CrNl => Ok(alone(Kind::CrNl, texts)?),
        KindWord::Line => {
            let partial = Bytes::empty();
            Ok(alone(Kind::Line { partial }, texts)?)
        }
        KindWord::Count => Ok(alone(Kind::Count { n: 0 }, texts)?),
        KindWord::Band => Ok(band_at(texts)?),
        KindWord::Tee => Ok(alone(Kind::Tee, texts)?),
        KindWord::Mute => Ok(alone(Kind::Mute, texts)?),
        KindWord::Split => Ok(size_at(texts)?),
    }
}

/// The built-in kinds, by their words.
impl ReadKind for Kind {
    ghost use Rattle.strm_script_words.specs.Push.{builtin_words};

    ghost words = { builtin_words };

    fn fields(word: &[u8]) -> Option<u8> {
        let word = from_keyword::<KindWord>(word)?;
        Some(word.own_fields())
    }

    fn begins(alloc: Global, word: &[u8], texts: &[&[u8]]) -> Result<Kind, ReadError> {
        match from_keyword::<KindWord>(word) {
            Some(word) => kind_at(alloc, word, texts),
            None => Err(ReadError::Fault(Cause::UnknownWord)),
        }
    }
}
