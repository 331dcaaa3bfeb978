//! The text of an explanation.
ghost use Rattle.std.specs.Prelude.{◌≡◌, ◌≤◌, drop, length, map, replicate, take};
ghost use Rattle.strm_script_text.specs.Writing.{Writes};
ghost use Rattle.strm_script_explain.specs.Printing as text;

use crate::explaining::{Explanation, Shown};
use itoa::Buffer;
use std::io::{self, Write};

/// The most bytes of a line that are shown.
const WINDOW: usize = 72;

/// The bytes that are shown of a long line in front of the mark.
const BEFORE: usize = 36;

/// A byte as it is shown: a tab as a blank, and one that is no printable ASCII as `?`.
fn shown(byte: u8) -> u8
    ensures { result ≡ text.shown byte }
{
    match byte {
        b'\t' | b' ' => b' ',
        byte if byte.is_ascii_graphic() => byte,
        _ => b'?',
    }
}

/// Writes bytes as they are shown.
fn put_bytes<W: Write>(w: &mut W, bytes: &[u8]) -> io::Result<()>
    ensures { Writes W.contents w.old w.new result (map text.shown bytes.now) }
{
    for byte in bytes {
        w.write_all(&[shown(*byte)])?;
    }
    Ok(())
}

/// Writes a byte that many times.
fn put_times<W: Write>(w: &mut W, n: usize, byte: u8) -> io::Result<()>
    ensures { Writes W.contents w.old w.new result (replicate n byte) }
{
    for i in 0..n {
        w.write_all(&[byte])?;
    }
    Ok(())
}

/// Writes `:` and a number.
fn put_number<W: Write>(w: &mut W, n: u64) -> io::Result<()>
    ensures { Writes W.contents w.old w.new result (text.colon_number n) }
{
    let mut digits = Buffer::new();
    w.write_all(b":")?;
    w.write_all(digits.format(n).as_bytes())
}

/// The number of bytes in front of those that are shown of a line of this length, whose mark has `before`
/// bytes in front of it.
fn hidden(len: usize, before: usize) -> usize
    ensures value { result ≡ text.hidden len before }
    ensures within { result ≤ len }
{
    before
        .saturating_sub(BEFORE)
        .min(len.saturating_sub(WINDOW))
}

/// The first bytes of a text, as many as are shown of a line.
fn window(text: &[u8]) -> &[u8]
    ensures { result.now ≡ take WINDOW text.now }
{
    if text.len() > WINDOW {
        &text[..WINDOW]
    } else {
        text
    }
}

/// Writes the number of a line and the column of its mark, if a line is shown.
fn put_place<W: Write>(w: &mut W, shown: &Option<Shown>) -> io::Result<()>
    ensures { Writes W.contents w.old w.new result (text.place_text shown.now) }
{
    match shown {
        Some(shown) => {
            put_number(w, shown.number)?;
            put_number(w, shown.column as u64)
        }
        None => Ok(()),
    }
}

/// Writes a line as far as it is shown.
fn put_line<W: Write>(w: &mut W, line: &[u8], hidden: usize) -> io::Result<()>
    requires { hidden ≤ length line.now }
    ensures { Writes W.contents w.old w.new result (text.line_text line.now hidden) }
{
    w.write_all(b"  ")?;
    put_bytes(w, window(&line[hidden..]))?;
    w.write_all(b"\n")
}

/// Writes a mark of this width with `before` bytes in front of it.
fn put_mark<W: Write>(w: &mut W, before: usize, width: usize) -> io::Result<()>
    ensures { Writes W.contents w.old w.new result (text.mark_text before width) }
{
    let most = WINDOW.saturating_sub(before);
    w.write_all(b"  ")?;
    put_times(w, before, b' ')?;
    put_times(w, width.min(most).max(1), b'^')?;
    w.write_all(b"\n")
}

/// Writes a line, as far as it is shown, and the mark under it.
fn put_shown<W: Write>(w: &mut W, shown: &Shown) -> io::Result<()>
    ensures { Writes W.contents w.old w.new result (text.shown_text shown.now) }
{
    let before = shown.column.saturating_sub(1);
    let hidden = hidden(shown.line.len(), before);
    put_line(w, shown.line, hidden)?;
    put_mark(w, before.saturating_sub(hidden), shown.width)
}

/// Writes the line that is shown and the mark under it, if a line is shown.
fn put_below<W: Write>(w: &mut W, shown: &Option<Shown>) -> io::Result<()>
    ensures { Writes W.contents w.old w.new result (text.below_text shown.now) }
{
    match shown {
        Some(shown) => put_shown(w, shown),
        None => Ok(()),
    }
}

/// Writes an explanation of a fault in the script of this name: `NAME:LINE:COLUMN: WORDS`, and below it the
/// line and a mark, each behind two blanks. For a script as a whole it is `NAME: WORDS`.
///
/// Of a line, at most 72 bytes are shown, round the mark. Tabs are shown as blanks, and bytes that are no
/// printable ASCII as `?`.
///
/// Refused if the writer refuses, with its error.
pub fn put_explanation<W: Write>(
    w: &mut W,
    name: &[u8],
    explanation: &Explanation,
) -> io::Result<()>
    ensures { Writes W.contents w.old w.new result (text.explanation_text name.now explanation.now) }
{
    put_bytes(w, name)?;
    put_place(w, &explanation.shown)?;
    w.write_all(b": ")?;
    w.write_all(explanation.words.as_slice())?;
    w.write_all(b"\n")?;
    put_below(w, &explanation.shown)
}
