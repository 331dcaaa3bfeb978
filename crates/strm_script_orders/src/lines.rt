//! The first line in which two transcripts differ.
ghost use Rattle.std.specs.Prelude.{◌≡◌, []};
ghost use Rattle.strm_script_orders.specs.Difference.{difference, lines_of, section_at, takes_line};

use crate::pieces::Pieces;

/// The word with which a transcript begins the section of a stream, before its name.
const HEADING: &[u8] = b"stream ";

/// Takes off the next line, if there is one, and returns whether it is this one.
fn is_next(lines: &mut Pieces<'_>, line: &[u8]) -> bool
    ensures { (result, lines.new) ≡ takes_line line.now lines.old }
{
    match lines.next() {
        Some(other) => line == other,
        None => false,
    }
}

/// The name of the stream in whose section a line is: its own, if it begins one, else that of the line
/// before.
fn section_at<'a>(section: &'a [u8], line: &'a [u8]) -> &'a [u8]
    ensures { result.now ≡ section_at section.now line.now }
{
    if line.starts_with(HEADING) {
        return &line[HEADING.len()..];
    }
    section
}

/// The first line of a text that differs from that of another, behind the name of the stream in whose section
/// it is; no bytes, if the text ends before they differ.
pub(crate) fn difference<'a>(other: &[u8], text: &'a [u8]) -> (&'a [u8], &'a [u8])
    ensures { (result.0.now, result.1.now) ≡ difference [] (lines_of other.now) (lines_of text.now) }
{
    let mut others = Pieces::of(other, b'\n');
    let mut lines = Pieces::of(text, b'\n');
    let mut section = &text[..0];
    while let Some(line) = lines.next() {
        section = section_at(section, line);
        if !is_next(&mut others, line) {
            return (section, line);
        }
    }
    (section, &text[..0])
}
