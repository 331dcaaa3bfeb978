//! The sections of a script: a process line, and the lines behind it up to the next one. Each is read apart.
ghost use Rattle.std.specs.Prelude.{◌≡◌, ◌++◌, ◌<◌, ◌≤◌, All, IfOk, IfSome, length, map};
ghost use Rattle.std.specs.Str.Lines.{lines};
ghost use Rattle.strm_script_parse.specs.Last.{IsKnown};
ghost use Rattle.strm_script_parse.specs.Plan.{streams_of};
ghost use Rattle.strm_script_parse.specs.Reading.{fields_onto, line_onto, word_onto};
ghost use Rattle.strm_script_parse.specs.Section.{AreCalls, IsSection, Says, whole_lines, whole_text};
ghost use Rattle.strm_script_parse.specs.declared.draft.TheConstants.{MOST_STREAMS};
ghost use Rattle.strm_script_text.specs.Text.{texts_of};
ghost use Rattle.strm_script_words.specs.Table.{is_push};

use crate::call_line::call_at;
use crate::declared::Found;
use crate::draft::fields_in;
use crate::expected::cut_replies;
use crate::plan::Name;
use indexmap::IndexMap;
use memchr::memmem;
use std::alloc::Global;
use std::thread::Threads;
use strm_head_calls::Setup;
use strm_module::BoxedModule;
use strm_msg::NoMem;
use strm_run_input::{Script, ScriptCall};
use strm_run_threads::parallel_map;
use strm_script_text::first_line;
use strm_script_words::{PlayModule, ReadError, ReadKind, Verb, from_keyword};

/// The end of a line and the beginning of a process line.
const PROCESS: &[u8] = b"\nprocess";

/// The meaning of a line that is read apart.
#[derive(Drop)]
enum Said<P> {
    /// Nothing.
    Nothing,
    /// A call that is no push, and of which no reply is expected.
    Call(ScriptCall<P>),
    /// Another line, or one with a fault.
    Other,
}

/// The calls of lines that have nothing else.
#[derive(Drop)]
pub(crate) struct Calls<P> {
    /// The calls, in order.
    pub(crate) calls: Script<P>,
    /// The number of lines.
    pub(crate) lines: u64,
}

/// A section of a script.
#[derive(Drop)]
pub(crate) struct Section<'a, P> {
    /// Its lines.
    pub(crate) text: &'a [u8],
    /// The calls of the lines behind the first, if these have nothing else.
    pub(crate) calls: Option<Calls<P>>,
}

/// Cuts a text before its first line that begins with `process`, apart from the line at its beginning.
pub(crate) fn cut(text: &[u8]) -> (&[u8], &[u8])
    ensures whole { text.now ≡ result.0.now ++ result.1.now }
    ensures lines { lines text.now ≡ lines result.0.now ++ lines result.1.now }
    ensures some { 0 < length text.now → 0 < length result.0.now }
{
    match memmem::find(text, PROCESS) {
        Some(at) => (&text[..at + 1], &text[at + 1..]),
        None => (text, &[]),
    }
}

/// The sections of a text, in order. None of them is read yet. Fails only when memory runs out.
fn sections<P: Drop>(alloc: Global, text: &[u8]) -> Result<Vec<Section<'_, P>>, NoMem>
    ensures whole { IfOk result (λ all. whole_text all.items ≡ text.now) }
    ensures lines { IfOk result (λ all. whole_lines all.items ≡ lines text.now) }
    ensures some { IfOk result (λ all. All (λ section. 0 < length section.text.now) all.items) }
{
    let mut all = Vec::new(alloc);
    let mut rest = text;
    while !rest.is_empty() {
        let (text, after) = cut(rest);
        all.push(Section { text, calls: None })?;
        rest = after;
    }
    Ok(all)
}

/// Whether a call is a push.
fn is_push(verb: Verb) -> bool
    ensures { result ≡ is_push verb }
{
    matches!(verb, Verb::Push)
}

/// Reads a line by its word and the fields behind it, on these streams. Fails only when memory runs out.
fn word_said<M: PlayModule>(
    alloc: Global,
    streams: &IndexMap<Name, Setup>,
    last: &mut Option<Found>,
    word: &[u8],
    texts: &[&[u8]],
) -> Result<Said<BoxedModule<M>>, NoMem>
where
    M::Kind: ReadKind,
    requires few { length streams.now.entries ≤ MOST_STREAMS }
    requires known { IsKnown (streams_of streams.now) last.old }
    ensures known { IsKnown (streams_of streams.now) last.new }
    ensures said { IfOk result
        (Says (streams_of streams.now) (λ n d. word_onto M.Kind.words n d word.now (texts_of texts.now))) }
{
    let Some(verb) = from_keyword(word) else {
        return Ok(Said::Other);
    };
    if is_push(verb) {
        return Ok(Said::Other);
    }
    let (texts, None) = cut_replies(texts) else {
        return Ok(Said::Other);
    };
    match call_at(alloc, streams, last, 0, verb, texts, None) {
        Ok(call) => Ok(Said::Call(call)),
        Err(ReadError::Memory) => Err(NoMem),
        Err(ReadError::Fault(_)) => Ok(Said::Other),
    }
}

/// Reads a line by its fields, on these streams. Fails only when memory runs out.
fn fields_said<M: PlayModule>(
    alloc: Global,
    streams: &IndexMap<Name, Setup>,
    last: &mut Option<Found>,
    texts: &[&[u8]],
) -> Result<Said<BoxedModule<M>>, NoMem>
where
    M::Kind: ReadKind,
    requires few { length streams.now.entries ≤ MOST_STREAMS }
    requires known { IsKnown (streams_of streams.now) last.old }
    ensures known { IsKnown (streams_of streams.now) last.new }
    ensures said { IfOk result
        (Says (streams_of streams.now) (λ n d. fields_onto M.Kind.words n d (texts_of texts.now))) }
{
    match texts {
        [] => Ok(Said::Nothing),
        [word, texts @ ..] => word_said(alloc, streams, last, word, texts),
    }
}

/// Reads a line, on these streams. The list is for its fields. Fails only when memory runs out.
fn line_said<'a, M: PlayModule>(
    alloc: Global,
    streams: &IndexMap<Name, Setup>,
    last: &mut Option<Found>,
    line: &'a [u8],
    texts: &mut Vec<&'a [u8]>,
) -> Result<Said<BoxedModule<M>>, NoMem>
where
    M::Kind: ReadKind,
    requires few { length streams.now.entries ≤ MOST_STREAMS }
    requires known { IsKnown (streams_of streams.now) last.old }
    ensures known { IsKnown (streams_of streams.now) last.new }
    ensures said { IfOk result (Says (streams_of streams.now) (λ n d. line_onto M.Kind.words n d line.now)) }
{
    match fields_in(line, texts) {
        Ok(()) => fields_said(alloc, streams, last, texts.as_slice()),
        Err(ReadError::Memory) => Err(NoMem),
        Err(ReadError::Fault(_)) => Ok(Said::Other),
    }
}

/// The calls of a text, on these streams; nothing if a line has something else. Fails only when memory runs
/// out.
fn calls_in<M: PlayModule>(
    alloc: Global,
    streams: &IndexMap<Name, Setup>,
    text: &[u8],
) -> Result<Option<Calls<BoxedModule<M>>>, NoMem>
where
    M::Kind: ReadKind,
    requires { length streams.now.entries ≤ MOST_STREAMS }
    ensures { IfOk result (λ found. IfSome found (AreCalls M.Kind.words (streams_of streams.now) text.now)) }
{
    let mut calls = Script::new(alloc);
    let mut texts = Vec::new(alloc);
    let mut last = None;
    let mut rest = text;
    let mut lines = 0;
    while !rest.is_empty() {
        let (line, after) = first_line(rest);
        match line_said(alloc, streams, &mut last, line, &mut texts)? {
            Said::Nothing => {}
            Said::Call(call) => calls.push(alloc, call)?,
            Said::Other => return Ok(None),
        }
        lines += 1;
        rest = after;
    }
    Ok(Some(Calls { calls, lines }))
}

/// Reads a section onto these streams. Fails only when memory runs out.
fn read_section<'a, M: PlayModule>(
    alloc: Global,
    streams: &IndexMap<Name, Setup>,
    section: Section<'a, BoxedModule<M>>,
) -> Result<Section<'a, BoxedModule<M>>, NoMem>
where
    M::Kind: ReadKind,
    requires few { length streams.now.entries ≤ MOST_STREAMS }
    requires some { 0 < length section.text.now }
    ensures text { IfOk result (λ read. read.text.now ≡ section.entry.text.now) }
    ensures section { IfOk result (IsSection M.Kind.words (streams_of streams.now)) }
{
    let text = section.text;
    let (_, rest) = first_line(text);
    let calls = calls_in(alloc, streams, rest)?;
    Ok(Section { text, calls })
}

/// The values of all these results, unless memory ran out for one.
fn all_read<T: Drop>(alloc: Global, read: Vec<Result<T, NoMem>>) -> Result<Vec<T>, NoMem>
    ensures { IfOk result (λ all. map Ok all.items ≡ read.items) }
{
    let mut all = Vec::new(alloc);
    for one in read {
        all.push(one?)?;
    }
    Ok(all)
}

/// The sections of a text, each read onto these streams, in at most that many threads. Fails only when memory
/// runs out.
pub(crate) fn read_sections<'a, M: PlayModule, R: Threads + Sync>(
    rt: &R,
    alloc: Global,
    streams: &IndexMap<Name, Setup>,
    text: &'a [u8],
    threads: usize,
) -> Result<Vec<Section<'a, BoxedModule<M>>>, NoMem>
where
    M::Kind: ReadKind + Send + Sync,
    requires threads { 0 < threads }
    requires few { length streams.now.entries ≤ MOST_STREAMS }
    ensures whole { IfOk result (λ all. whole_text all.items ≡ text.now) }
    ensures lines { IfOk result (λ all. whole_lines all.items ≡ lines text.now) }
    ensures sections { IfOk result (λ all. All (IsSection M.Kind.words (streams_of streams.now)) all.items) }
{
    let jobs = sections(alloc, text)?;
    let read = parallel_map(
        rt,
        alloc,
        jobs,
        threads,
        &|job: Section<BoxedModule<M>>| -> Result<Section<BoxedModule<M>>, NoMem>
            requires few { length streams.now.entries ≤ MOST_STREAMS }
            requires some { 0 < length job.text.now }
            ensures text { IfOk result (λ read. read.text.now ≡ job.entry.text.now) }
            ensures section { IfOk result (IsSection M.Kind.words (streams_of streams.entry.now)) }
        { read_section(alloc, streams, job) },
    )?;
    all_read(alloc, read)
}
