//! Fields, each behind a space.
ghost use Rattle.std.specs.Prelude.{◌≡◌, ◌∷◌, [], map};
ghost use Rattle.std.specs.Fmt.{decimal};
ghost use Rattle.strm_script_text.specs.Spelling.{part_text};
ghost use Rattle.strm_script_text.specs.Writing.{Writes};
ghost use Rattle.strm_script_words.specs.Field as says;
ghost use Rattle.strm_script_print.specs.LineBuffer.{Adds, AddsFields};
ghost use Rattle.strm_script_print.specs.Fields.{said, spaced};
ghost use Rattle.strm_script_print.specs.ReadBack.{FieldsAreReadBack};
ghost use Rattle.strm_script_print.specs.Replies.{name_fields};

use crate::line_buffer::LineBuffer;
use itoa::Buffer;
use std::io::{self, Write};
use strm_head_calls::Name;
use strm_msg::Bytes;
use strm_script_text::{are_plain, write_part};

/// The most bytes of a part that are examined at once.
const SHORT: usize = 32;

/// A field of a line.
#[derive(Clone, Copy)]
pub(crate) enum Field<'a> {
    /// Bytes, as a PART.
    Bytes(&'a [u8]),
    /// A number.
    Number(u64),
    /// Two numbers with a stroke between them.
    Pair(u32, u32),
    /// A word.
    Word(&'a [u8]),
}

/// A part, or `-` if there is none.
pub(crate) fn part_field(part: &Option<Bytes>) -> Field<'_>
    ensures { said result ≡ says.part_field part.now }
{
    match part {
        None => Field::Word(b"-"),
        Some(part) => Field::Bytes(part.as_slice()),
    }
}

/// A maximum, or `-1` if there is none.
pub(crate) fn maximum_field<'a>(most: Option<u16>) -> Field<'a>
    ensures { said result ≡ says.maximum_field most }
{
    match most {
        None => Field::Word(b"-1"),
        Some(most) => Field::Number(u64::from(most)),
    }
}

/// Adds a field behind a space.
#[inline(always)]
fn add_field<W: Write>(w: &mut W, out: &mut LineBuffer, field: Field<'_>)
    ensures { AddsFields W.contents w.old w.new out.old out.new (said field.entry ∷ []) }
{
    match field {
        Field::Bytes(bytes) => add_part(w, out, bytes),
        Field::Number(n) => add_number(w, out, n),
        Field::Pair(high, low) => add_pair(w, out, high, low),
        Field::Word(word) => add_word(w, out, word),
    }
}

/// Adds fields, each behind a space.
#[tactic(auto, using(crate::proofs::GatheredLemmas::puts_nothing, crate::proofs::GatheredLemmas::field_put))]
#[inline(always)]
pub(crate) fn add_all<W: Write>(w: &mut W, out: &mut LineBuffer, fields: &[Field<'_>])
    ensures { AddsFields W.contents w.old w.new out.old out.new (map said fields.now) }
{
    for field in fields {
        add_field(w, out, *field);
    }
}

/// Adds a word behind a space.
#[tactic(auto, using(crate::proofs::GatheredLemmas::puts))]
pub(crate) fn add_word<W: Write>(w: &mut W, out: &mut LineBuffer, word: &[u8])
    ensures { AddsFields W.contents w.old w.new out.old out.new (says.Word word.now ∷ []) }
{
    out.put(w, b" ");
    out.put(w, word);
}

/// Writes bytes as a PART behind the gathered text.
fn add_long_part<W: Write>(w: &mut W, out: &mut LineBuffer, bytes: &[u8])
    ensures { Adds W.contents w.old w.new out.old out.new (part_text bytes.now) }
{
    if out.flush(w) {
        out.keep_error(write_part(w, bytes));
    }
}

/// Adds bytes as a PART behind a space.
#[tactic(auto, using(crate::proofs::GatheredLemmas::puts, strm_script_text::proofs::RunLemmas::plain_spelt))]
#[inline(always)]
pub(crate) fn add_part<W: Write>(w: &mut W, out: &mut LineBuffer, bytes: &[u8])
    ensures { AddsFields W.contents w.old w.new out.old out.new (says.Bytes bytes.now ∷ []) }
{
    if bytes.len() <= SHORT && are_plain(bytes) {
        out.put(w, b" =");
        out.put(w, bytes);
        return;
    }
    out.put(w, b" ");
    add_long_part(w, out, bytes);
}

/// Adds the digits of a number.
#[inline(always)]
fn add_digits<W: Write>(w: &mut W, out: &mut LineBuffer, n: u64)
    ensures { Adds W.contents w.old w.new out.old out.new (decimal n) }
{
    if n < 10 {
        return out.put(w, &[b'0' + n as u8]);
    }
    let mut digits = Buffer::new();
    out.put(w, digits.format(n).as_bytes());
}

/// Adds a number behind a space.
#[tactic(auto, using(crate::proofs::GatheredLemmas::puts))]
#[inline(always)]
pub(crate) fn add_number<W: Write>(w: &mut W, out: &mut LineBuffer, n: u64)
    ensures { AddsFields W.contents w.old w.new out.old out.new (says.Number n ∷ []) }
{
    out.put(w, b" ");
    add_digits(w, out, n);
}

/// Adds two numbers with a stroke between them.
#[tactic(auto, using(crate::proofs::GatheredLemmas::pair_put))]
fn add_pair<W: Write>(w: &mut W, out: &mut LineBuffer, high: u32, low: u32)
    ensures { AddsFields W.contents w.old w.new out.old out.new (says.Pair high low ∷ []) }
{
    add_number(w, out, u64::from(high));
    out.put(w, b"/");
    add_digits(w, out, u64::from(low));
}

/// Adds names, one after another.
#[tactic(auto, using(crate::proofs::GatheredLemmas::puts_nothing, crate::proofs::GatheredLemmas::name_put))]
pub(crate) fn add_names<W: Write>(w: &mut W, out: &mut LineBuffer, names: &[Name])
    ensures { AddsFields W.contents w.old w.new out.old out.new (name_fields names.now) }
{
    for name in names {
        add_word(w, out, name.as_slice());
    }
}

/// Writes a word behind a space. Refused if the writer refuses, with its error.
#[tactic(auto, using(strm_script_text::proofs::WriteLemmas::appends_then))]
pub fn put_word<W: Write>(w: &mut W, word: &[u8]) -> io::Result<()>
    ensures { Writes W.contents w.old w.new result (spaced (says.Word word.now ∷ [])) }
{
    w.write_all(b" ")?;
    w.write_all(word)
}

/// Writes bytes as a PART behind a space. Refused if the writer refuses, with its error.
#[tactic(auto, using(strm_script_text::proofs::WriteLemmas::appends_then))]
pub fn put_part<W: Write>(w: &mut W, bytes: &[u8]) -> io::Result<()>
    ensures { Writes W.contents w.old w.new result (spaced (says.Bytes bytes.now ∷ [])) }
{
    w.write_all(b" ")?;
    write_part(w, bytes)
}

/// Writes a number behind a space. Refused if the writer refuses, with its error.
#[tactic(auto, using(strm_script_text::proofs::WriteLemmas::appends_then))]
pub fn put_number<W: Write>(w: &mut W, n: u64) -> io::Result<()>
    ensures { Writes W.contents w.old w.new result (spaced (says.Number n ∷ [])) }
{
    let mut digits = Buffer::new();
    w.write_all(b" ")?;
    w.write_all(digits.format(n).as_bytes())
}

/// States a law, and does nothing: the printed text of a field is read back as that field.
pub fn fields_are_read_back()
    ensures { FieldsAreReadBack }
{}
