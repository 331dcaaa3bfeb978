//! The lines of a text, and their fields.
ghost use Rattle.std.specs.Prelude.{◌≡◌, ◌<◌, ◌∷◌, ◌++◌, length, IfOk, OnOk, IfSome};
ghost use Rattle.std.specs.Option.{option_map};
ghost use Rattle.std.specs.List.{list_all};
ghost use Rattle.std.specs.Str.Lines.{lines, strip_carriage_return};
ghost use Rattle.strm_script_text.specs.Bytes as bytes;
ghost use Rattle.strm_script_text.specs.Text.{field_in, fields_of, halves_of, place_of, texts_of};

use memchr::memchr;
use std::alloc::AllocError;

/// Whether a byte separates fields: a space or a tab.
fn is_blank(byte: u8) -> bool
    ensures { result ≡ bytes.is_blank byte }
{
    byte == b' ' || byte == b'\t'
}

/// Splits a text at the first of a byte, into the text before it and the text behind it; nothing if the byte
/// is absent.
pub fn split_once(text: &[u8], byte: u8) -> Option<(&[u8], &[u8])>
    ensures halves { option_map (λ halves. (halves.0.now, halves.1.now)) result ≡ halves_of byte text.now }
    ensures shorter { IfSome result (λ halves. length halves.1.now < length text.now) }
{
    let at = text.iter().position(|other| *other == byte)?;
    Some((&text[..at], &text[at + 1..]))
}

/// A line without the CR before its LF, if there is one.
fn without_return(line: &[u8]) -> &[u8]
    ensures { result.now ≡ strip_carriage_return line.now }
{
    match line {
        [text @ .., b'\r'] => text,
        _ => line,
    }
}

/// The place of the first LF; nothing if there is none.
#[inline(always)]
fn end_of_first(text: &[u8]) -> Option<usize>
    ensures place { result ≡ place_of 10 text.now }
    ensures within { IfSome result (λ at. at < length text.now) }
{
    memchr(b'\n', text)
}

/// The first line, without its LF and a CR before it, and the text behind it. The last LF may be missing.
#[inline(always)]
pub fn first_line(text: &[u8]) -> (&[u8], &[u8])
    requires { 0 < length text.now }
    ensures first { lines text.now ≡ result.0.now ∷ lines result.1.now }
    ensures shorter { length result.1.now < length text.now }
{
    match end_of_first(text) {
        Some(at) => (without_return(&text[..at]), &text[at + 1..]),
        None => (text, &[]),
    }
}

/// Whether a byte is part of a field: it may be in a line, and is no blank.
fn is_of_field(byte: u8) -> bool
    ensures { result ≡ bytes.is_within 33 126 byte }
{
    byte.is_ascii_graphic()
}

/// Appends a field, if it has a byte. Fails only when memory runs out.
#[inline]
fn add_field<'a>(fields: &mut Vec<&'a [u8]>, field: &'a [u8]) -> Result<(), AllocError>
    ensures { OnOk result (texts_of fields.new.items ≡ texts_of fields.old.items ++ field_in field.now) }
{
    if !field.is_empty() {
        fields.push(field)?;
    }
    Ok(())
}

/// Cuts a line into its fields, which spaces and tabs separate. Returns whether the line has no bytes but
/// tabs and 0x20 to 0x7e, as each line has that is no comment. The list then holds these fields and no
/// earlier ones. Fails only when memory runs out.
pub fn cut_fields<'a>(line: &'a [u8], fields: &mut Vec<&'a [u8]>) -> Result<bool, AllocError>
    ensures fields { OnOk result (texts_of fields.new.items ≡ fields_of line.now) }
    ensures allowed { IfOk result (λ allowed. allowed ≡ list_all bytes.is_allowed line.now) }
{
    fields.clear();
    let mut allowed = true;
    let mut start = 0;
    for (at, byte) in line.iter().enumerate() {
        if is_of_field(*byte) {
            continue;
        }
        if is_blank(*byte) {
            add_field(fields, &line[start..at])?;
            start = at + 1;
        } else {
            allowed = false;
        }
    }
    add_field(fields, &line[start..])?;
    Ok(allowed)
}
