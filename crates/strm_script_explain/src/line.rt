//! The line of a number in a script, and the lines to which it belongs.
ghost use Rattle.std.specs.Prelude.{◌≡◌, ◌<◌, ◌≤◌, IfSome, IsSome, length, slice_get};
ghost use Rattle.std.specs.Option.{option_map};
ghost use Rattle.std.specs.Str.Lines.{lines};
ghost use Rattle.strm_script_explain.specs.Shown.{IsLine};

use crate::mark::field_at;
use strm_script_text::first_line;

/// The lines to which a line belongs.
#[derive(Clone, Copy, Debug, PartialEq, Eq)]
pub(crate) enum Section {
    /// Neither a process nor a feed.
    Nowhere,
    /// Those of a process.
    Process,
    /// Those of a feed.
    Feed,
}

/// The first field of a line; no bytes if there is none, and for a comment.
fn first_word(line: &[u8]) -> &[u8] {
    match field_at(line, 0) {
        Some((start, width)) if line.first() != Some(&b'#') => &line[start..start + width],
        _ => b"",
    }
}

/// The section behind a line of some section.
fn section_after(section: Section, line: &[u8]) -> Section {
    match first_word(line) {
        b"stream" | b"link" => Section::Nowhere,
        b"process" => Section::Process,
        b"feed" => Section::Feed,
        _ => section,
    }
}

/// The line of this number, from 0, and the section that goes on there; nothing if there are fewer lines.
pub(crate) fn line_at(text: &[u8], number: u64) -> Option<(&[u8], Section)>
    ensures { option_map (λ found. found.0.now) result ≡ slice_get (lines text.now) number }
{
    let mut rest = text;
    let mut many = 0;
    let mut section = Section::Nowhere;
    while !rest.is_empty() {
        let (line, after) = first_line(rest);
        if many == number {
            return Some((line, section));
        }
        many += 1;
        section = section_after(section, line);
        rest = after;
    }
    None
}

/// The line of this number, from 1, and the section that goes on there; nothing if there is none.
pub(crate) fn numbered_line(text: &[u8], number: u64) -> Option<(&[u8], Section)>
    ensures line { IfSome result (λ found. IsLine text.now number found.0.now) }
    ensures some { 0 < number → number ≤ length (lines text.now) → IsSome result }
{
    line_at(text, number.checked_sub(1)?)
}
