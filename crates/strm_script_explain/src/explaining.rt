//! The explanation of a script's fault.
ghost use Rattle.std.specs.Prelude.{◌≡◌, ◌≤◌, ◌<◌, IfOk, IfSome, IsSome, length};
ghost use Rattle.std.specs.Str.Lines.{lines};
ghost use Rattle.strm_script_explain.specs.Marked.{Suits};
ghost use Rattle.strm_script_explain.specs.Shown.{IsShown};

use crate::choosing::{Faulty, refused_byte};
use crate::line::{Section, numbered_line};
use crate::mark::{Mark, Marked, mark_of};
use crate::wording::{byte_words, length_words, words_of};
use std::alloc::Global;
use strm_msg::NoMem;
use strm_script_parse::{Cause, LONGEST_SCRIPT, ScriptFault};

/// The longest line, in bytes.
const LONGEST_LINE: usize = 16_384;

/// A line that is shown, and the mark under it.
#[derive(Drop)]
pub struct Shown<'a> {
    /// The number of the line, from 1.
    pub number: u64,
    /// The line, without its line end.
    pub line: &'a [u8],
    /// What is marked in it.
    pub marked: Marked,
    /// The column of the mark, in bytes, from 1.
    pub column: usize,
    /// The width of the mark, in bytes. It is 0 at the end of the line.
    pub width: usize,
}

/// A fault of a script, explained.
#[derive(Drop)]
pub struct Explanation<'a> {
    /// The line that has the fault; nothing for a fault of the script as a whole.
    pub shown: Option<Shown<'a>>,
    /// What is wanted at the mark, in words, in ASCII.
    pub words: Vec<u8>,
}

/// What is marked in a line, and what is wanted there. Fails only when memory runs out.
fn marked(
    alloc: Global,
    cause: Cause,
    section: Section,
    line: &[u8],
) -> Result<(Marked, Vec<u8>), NoMem>
    ensures { IfOk result (λ made. Suits cause line.now made.0) }
{
    match cause {
        Cause::TooLong => {
            let words = length_words(alloc, b"a line has at most ", LONGEST_LINE)?;
            Ok((Marked::Byte(LONGEST_LINE), words))
        }
        Cause::Byte => {
            let at = refused_byte(line);
            let byte = line.get(at).copied().unwrap_or(0);
            Ok((Marked::Byte(at), byte_words(alloc, byte)?))
        }
        _ => {
            let faulty = Faulty::new(alloc, cause, section, line)?;
            let marked = faulty.marked(alloc)?;
            let words = words_of(alloc, &faulty, marked)?;
            Ok((marked, words))
        }
    }
}

/// Explains the fault of a script that was read with the built-in kinds: `parse` found it in these bytes.
///
/// The line is the one of the fault. The mark is under the field that is refused. If a field is missing, it
/// is at the end of the line, or under the `:` or `|` before which the field is missing. If a byte is
/// refused, or the first one over the longest line, it is under that byte.
///
/// Fails when memory runs out, and for the fault of out of memory, which says nothing of the script.
pub fn explain<'a>(
    alloc: Global,
    bytes: &'a [u8],
    fault: &ScriptFault,
) -> Result<Explanation<'a>, NoMem>
    ensures shown { IfOk result (λ made. IfSome made.shown (IsShown bytes.now fault.now)) }
    ensures some { 0 < fault.now.line → fault.now.line ≤ length (lines bytes.now) → IfOk result (λ made. IsSome made.shown) }
{
    if fault.cause == Cause::NoMemory {
        return Err(NoMem);
    }
    let Some((line, section)) = numbered_line(bytes, fault.line) else {
        let words = length_words(alloc, b"a script has at most ", LONGEST_SCRIPT)?;
        return Ok(Explanation { shown: None, words });
    };
    let (marked, words) = marked(alloc, fault.cause, section, line)?;
    let Mark {
        marked,
        column,
        width,
    } = mark_of(line, marked);
    let shown = Some(Shown {
        number: fault.line,
        line,
        marked,
        column,
        width,
    });
    Ok(Explanation { shown, words })
}
