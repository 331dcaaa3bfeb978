//! A script that is read from left to right.
ghost use Rattle.std.specs.Prelude.{◌≡◌, ◌+◌, ◌<◌, ◌≤◌, All, length, take, IfErr, IfOk, IsErrOf, OnOk, Ok};
ghost use Rattle.strm_script_parse.specs.Draft.{IsAt};
ghost use Rattle.strm_script_parse.specs.Plan.{draft_view, plan_view};
ghost use Rattle.strm_script_parse.specs.Reading as reading;
ghost use Rattle.strm_script_parse.specs.Reading.{IsTooLong};
ghost use Rattle.strm_script_parse.specs.Section.{HasFault, HasLineFault, HasRead, HasReadLine};
ghost use Rattle.strm_script_parse.specs.Section.{IsSection, whole_lines, whole_text};
ghost use Rattle.strm_script_parse.specs.Sound.{IsSound};
ghost use Rattle.strm_script_parse.specs.Spelling.{IsNoMemory, Spells, fault_at, too_long};
ghost use Rattle.strm_script_words.specs.Push.{builtin_words};

use crate::draft::Draft;
use crate::fault::ScriptFault;
use crate::plan::Plan;
use crate::section::{Section, cut, read_sections};
use std::alloc::Global;
use std::thread::Threads;
use strm_module::BoxedModule;
use strm_script_text::first_line;
use strm_script_words::{Cause, PlayModule, ReadError, ReadKind};

/// The longest script, in bytes.
pub const LONGEST_SCRIPT: usize = 1_048_576;

/// The length of a script, in bytes, up to which one thread reads all its lines.
const SHORT: usize = 32_768;

/// Reads the plan that a script spells. Its pushes declare modules of the built-in kinds, which a program
/// makes with `with_modules`. The plan meets the conditions of a run on streams, processes and feeds.
///
/// Refused with the first fault: first a script that is too long, then the faults of the lines in order, and
/// those of one line from left to right. Out of memory is reported for line 0, since it says nothing of the
/// script. A script that is too long takes no memory.
pub fn parse(alloc: Global, bytes: &[u8]) -> Result<Plan, ScriptFault>
    ensures spells { Spells result (reading.spelt builtin_words bytes.now) }
    ensures length { LONGEST_SCRIPT < length bytes.now → IsErrOf result too_long }
    ensures sound { IfOk result (λ plan. IsSound (plan_view plan)) }
{
    parse_made(alloc, bytes)
}

/// The plan that a script spells, as `parse` reads it. Its pushes have modules of type `M`, of the kinds for
/// which its vocabulary has words. Each module is made with its object when its line is read. An `Object` is
/// not made then.
pub fn parse_made<M: PlayModule>(
    alloc: Global,
    bytes: &[u8],
) -> Result<Plan<BoxedModule<M>>, ScriptFault>
where
    M::Kind: ReadKind,
    ensures spells { Spells result (reading.spelt M.Kind.words bytes.now) }
    ensures length { LONGEST_SCRIPT < length bytes.now → IsErrOf result too_long }
    ensures sound { IfOk result (λ plan. IsSound (plan_view plan)) }
{
    if bytes.len() > LONGEST_SCRIPT {
        return Err(too_long());
    }
    parse_lines(alloc, bytes)
}

/// The plan that a script spells, as `parse_made` reads it, with its processes read in at most `threads`
/// threads.
///
/// A long script is cut before each line that begins with `process`. The calls behind such a line are read
/// apart, onto the streams that are declared before the first of these lines. They are read once more, line
/// after line, if something else is there, or if streams were declared in between. One thread reads all calls
/// of a process.
pub fn parse_parallel<M: PlayModule, R: Threads + Sync>(
    rt: &R,
    alloc: Global,
    bytes: &[u8],
    threads: usize,
) -> Result<Plan<BoxedModule<M>>, ScriptFault>
where
    M::Kind: ReadKind + Send + Sync,
    requires threads { 0 < threads }
    ensures spells { Spells result (reading.spelt M.Kind.words bytes.now) }
    ensures length { LONGEST_SCRIPT < length bytes.now → IsErrOf result too_long }
    ensures sound { IfOk result (λ plan. IsSound (plan_view plan)) }
{
    if bytes.len() > LONGEST_SCRIPT {
        return Err(too_long());
    }
    if threads == 1 || bytes.len() <= SHORT {
        return parse_lines(alloc, bytes);
    }
    let (head, rest) = cut(bytes);
    let mut draft = Draft::new(alloc);
    let before = read_lines(alloc, &mut draft, 0, head)?;
    let Ok(sections) = read_sections(rt, alloc, draft.streams(), rest, threads) else {
        return Err(no_memory());
    };
    add_sections(alloc, draft, before, sections)
}

/// Reads lines: their plan, or their first fault.
fn parse_lines<M: PlayModule>(
    alloc: Global,
    bytes: &[u8],
) -> Result<Plan<BoxedModule<M>>, ScriptFault>
where
    M::Kind: ReadKind,
    requires { length bytes.now ≤ LONGEST_SCRIPT }
    ensures { Spells result (reading.lines_spelt M.Kind.words bytes.now) }
{
    let mut draft = Draft::new(alloc);
    read_lines(alloc, &mut draft, 0, bytes)?;
    finished(draft)
}

/// Reads a line that has `before` lines in front of it.
fn read_line<'a, M: PlayModule>(
    alloc: Global,
    draft: &mut Draft<BoxedModule<M>>,
    before: u64,
    line: &'a [u8],
    texts: &mut Vec<&'a [u8]>,
) -> Result<(), ScriptFault>
where
    M::Kind: ReadKind,
    requires few { before < LONGEST_SCRIPT }
    requires at { IsAt before (draft_view draft.old) }
    ensures read { OnOk result (HasReadLine M.Kind.words before draft.old line.now draft.new) }
    ensures fault { IfErr result (HasLineFault M.Kind.words before draft.old line.now) }
    ensures length { IsTooLong line.now → IsErrOf result (fault_at (before + 1) Cause.TooLong) }
{
    let number = before + 1;
    match draft.line(alloc, number, line, texts) {
        Ok(()) => Ok(()),
        Err(ReadError::Memory) => Err(no_memory()),
        Err(ReadError::Fault(cause)) => Err(ScriptFault {
            line: number,
            cause,
        }),
    }
}

/// Reads lines that have `before` lines in front of them, and returns the number of all of them.
fn read_lines<M: PlayModule>(
    alloc: Global,
    draft: &mut Draft<BoxedModule<M>>,
    before: u64,
    text: &[u8],
) -> Result<u64, ScriptFault>
where
    M::Kind: ReadKind,
    requires few { before + length text.now ≤ LONGEST_SCRIPT }
    requires at { IsAt before (draft_view draft.old) }
    ensures read { IfOk result (HasRead M.Kind.words before draft.old text.now draft.new) }
    ensures fault { IfErr result (HasFault M.Kind.words before draft.old text.now) }
{
    let mut texts = Vec::new(alloc);
    let mut rest = text;
    let mut many = before;
    while !rest.is_empty() {
        let (line, after) = first_line(rest);
        read_line(alloc, draft, many, line, &mut texts)?;
        many += 1;
        rest = after;
    }
    Ok(many)
}

/// Adds a section that has `before` lines in front of it, and returns the number of all lines. The section
/// was read onto the first `streams` of the streams.
fn add_section<M: PlayModule>(
    alloc: Global,
    draft: &mut Draft<BoxedModule<M>>,
    before: u64,
    streams: usize,
    section: Section<BoxedModule<M>>,
) -> Result<u64, ScriptFault>
where
    M::Kind: ReadKind,
    requires few { before + length section.text.now ≤ LONGEST_SCRIPT }
    requires at { IsAt before (draft_view draft.old) }
    requires declared { streams ≤ length (draft_view draft.old).streams }
    requires section { IsSection M.Kind.words (take streams (draft_view draft.old).streams) section }
    ensures read { IfOk result (HasRead M.Kind.words before draft.old section.entry.text.now draft.new) }
    ensures fault { IfErr result (HasFault M.Kind.words before draft.old section.entry.text.now) }
{
    let Section { text, calls } = section;
    let mut texts = Vec::new(alloc);
    let (line, rest) = first_line(text);
    read_line(alloc, draft, before, line, &mut texts)?;
    if let Some(calls) = calls {
        if draft.streams().len() == streams && draft.takes(calls.calls.len()) {
            draft.set_calls(calls.calls);
            return Ok(before + 1 + calls.lines);
        }
    }
    read_lines(alloc, draft, before + 1, rest)
}

/// The plan of sections that have `before` lines in front of them. The draft has these lines, and the
/// sections were read onto the streams that it declares.
fn add_sections<M: PlayModule>(
    alloc: Global,
    mut draft: Draft<BoxedModule<M>>,
    before: u64,
    sections: Vec<Section<BoxedModule<M>>>,
) -> Result<Plan<BoxedModule<M>>, ScriptFault>
where
    M::Kind: ReadKind,
    requires few { before + length (whole_text sections.items) ≤ LONGEST_SCRIPT }
    requires at { IsAt before (draft_view draft) }
    requires sections { All (IsSection M.Kind.words (draft_view draft).streams) sections.items }
    ensures { Spells result
        (reading.lines_onto M.Kind.words before (draft_view draft) (whole_lines sections.entry.items)) }
{
    let streams = draft.streams().len();
    let mut many = before;
    for section in sections {
        many = add_section(alloc, &mut draft, many, streams, section)?;
    }
    finished(draft)
}

/// The plan of the lines that were read. Fails only when memory runs out.
fn finished<M: PlayModule>(
    draft: Draft<BoxedModule<M>>,
) -> Result<Plan<BoxedModule<M>>, ScriptFault>
where
    M::Kind: ReadKind,
    ensures { Spells result (Ok (reading.plan_of (draft_view draft))) }
{
    match draft.finish() {
        Ok(plan) => Ok(plan),
        Err(_) => Err(no_memory()),
    }
}

/// The fault of a script that is too long.
fn too_long() -> ScriptFault
    ensures { result ≡ too_long }
{
    ScriptFault {
        line: 0,
        cause: Cause::TooLong,
    }
}

/// The fault of out of memory.
fn no_memory() -> ScriptFault
    ensures { IsNoMemory result }
{
    ScriptFault {
        line: 0,
        cause: Cause::NoMemory,
    }
}
