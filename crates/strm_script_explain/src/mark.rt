//! The mark under a line.
ghost use Rattle.std.specs.Prelude.{◌≡◌, ◌≤◌, IfNone, IfSome, length};
ghost use Rattle.strm_script_text.specs.Bytes as bytes;
ghost use Rattle.strm_script_text.specs.Text.{fields_of};
ghost use Rattle.strm_script_explain.specs.Field.{IsField};
ghost use Rattle.strm_script_explain.specs.Mark.{IsMark};
ghost use Rattle.strm_script_explain.specs.Marked.{IsInside};

/// What is marked in a line.
#[derive(Clone, Copy, Debug, PartialEq, Eq)]
pub enum Marked {
    /// The field of this number, from 0.
    Field(usize),
    /// The byte of this number, from 0.
    Byte(usize),
    /// The end of the line, where something is missing.
    End,
}

/// A mark under a line.
#[derive(Clone, Copy, Debug, PartialEq, Eq)]
pub(crate) struct Mark {
    /// What is marked.
    pub(crate) marked: Marked,
    /// The column of the first byte that is marked, from 1.
    pub(crate) column: usize,
    /// The number of bytes that are marked; 0 at the end of the line.
    pub(crate) width: usize,
}

/// Whether a byte separates fields: a space or a tab.
pub(crate) fn is_blank(byte: u8) -> bool
    ensures { result ≡ bytes.is_blank byte }
{
    byte == b' ' || byte == b'\t'
}

/// The place of the first byte of the field of this number, and its length; nothing if the line has fewer
/// fields. Both numbers begin with 0.
pub(crate) fn field_at(line: &[u8], number: usize) -> Option<(usize, usize)>
    ensures field { IfSome result (λ found. IsField line.now number found.0 found.1) }
    ensures none { IfNone result (length (fields_of line.now) ≤ number) }
{
    let mut start = 0;
    let mut many = 0;
    for (at, byte) in line.iter().enumerate() {
        if !is_blank(*byte) {
            continue;
        }
        if start < at {
            if many == number {
                return Some((start, at - start));
            }
            many += 1;
        }
        start = at + 1;
    }
    if start < line.len() && many == number {
        return Some((start, line.len() - start));
    }
    None
}

/// The mark of the end of a line.
fn end_of(line: &[u8]) -> Mark
    ensures mark { IsMark line.now result.marked result.column result.width }
    ensures end { result.marked ≡ Marked.End }
{
    Mark {
        marked: Marked::End,
        column: line.len() + 1,
        width: 0,
    }
}

/// The mark of a field or a byte of a line, or of its end. It is the end of the line if there is no such
/// field or byte.
pub(crate) fn mark_of(line: &[u8], marked: Marked) -> Mark
    ensures mark { IsMark line.now result.marked result.column result.width }
    ensures same { IsInside line.now marked → result.marked ≡ marked }
{
    match marked {
        Marked::Field(number) => match field_at(line, number) {
            Some((start, width)) => Mark {
                marked,
                column: start + 1,
                width,
            },
            None => end_of(line),
        },
        Marked::Byte(at) => {
            if at >= line.len() {
                return end_of(line);
            }
            Mark {
                marked,
                column: at + 1,
                width: 1,
            }
        }
        Marked::End => end_of(line),
    }
}
