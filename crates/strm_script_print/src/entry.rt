//! The lines of steps.
ghost use Rattle.std.specs.Prelude.{◌≡◌, ◌∷◌, []};
ghost use Rattle.strm_script_text.specs.Text.{name_texts};
ghost use Rattle.strm_script_text.specs.Writing.{Writes};
ghost use Rattle.strm_script_print.specs.LineBuffer.{Adds, AddsFields};
ghost use Rattle.strm_script_print.specs.Lines as text;
ghost use Rattle.strm_script_print.specs.Lines.{call_text, entries_text, entry_text, event_text};
ghost use Rattle.strm_script_print.specs.Lines.{target_field, who_text};

use crate::field::add_word;
use crate::line_buffer::LineBuffer;
use crate::message::add_message;
use crate::module::PrintKind;
use crate::reply::add_answer;
use crate::request::{add_fields, verb_of};
use std::io::{self, Write};
use strm_head_calls::{Event, Request};
use strm_module::BoxedShape;
use strm_msg::End;
use strm_script_parse::Name;
use strm_script_words::Keyword;
use strm_shared_entry::{Entry, Kept, Who};

/// The word of an end: `a` or `b`.
pub fn end_word(end: End) -> &'static [u8]
    ensures { result.now ≡ text.end_word end }
{
    match end {
        End::A => b"a",
        End::B => b"b",
    }
}

/// The name of the process of this number; nothing if there is no such process.
fn name_at(processes: &[Name], number: u32) -> &[u8]
    ensures { result.now ≡ text.name_at (name_texts processes.now) number }
{
    match processes.get(number as usize) {
        Some(name) => name.as_slice(),
        None => b"",
    }
}

/// Adds the maker of a step: the name of a process, or `line`.
fn add_who<W: Write>(w: &mut W, out: &mut LineBuffer, processes: &[Name], who: Who)
    ensures { Adds W.contents w.old w.new out.old out.new (who_text (name_texts processes.now) who) }
{
    match who {
        Who::Caller(number) => out.put(w, name_at(processes, number)),
        Who::Line => out.put(w, b"line"),
    }
}

/// Adds NAME:END.
#[tactic(auto, using(crate::proofs::GatheredLemmas::puts))]
fn add_target<W: Write>(w: &mut W, out: &mut LineBuffer, stream: &[u8], end: End)
    ensures { AddsFields W.contents w.old w.new out.old out.new (target_field stream.now end ∷ []) }
{
    out.put(w, b" ");
    out.put(w, stream);
    out.put(w, b":");
    out.put(w, end_word(end));
}

/// Adds a call: its word, NAME:END, and its fields.
fn add_call<W: Write, K: PrintKind + Drop>(
    w: &mut W,
    out: &mut LineBuffer,
    stream: &[u8],
    end: End,
    request: &Request<BoxedShape<K>>,
)
    ensures { Adds W.contents w.old w.new out.old out.new (call_text K.spelling stream.now end request.now) }
{
    add_word(w, out, verb_of(request).word());
    add_target(w, out, stream, end);
    add_fields(w, out, request);
}

/// Adds an event as a transcript has it: ` VERB NAME:END FIELDS` for a call, or ` MESSAGE` for a message that
/// came in.
#[inline(always)]
fn add_event<W: Write, K: PrintKind + Drop>(
    w: &mut W,
    out: &mut LineBuffer,
    stream: &[u8],
    end: End,
    event: &Event<BoxedShape<K>>,
)
    ensures { Adds W.contents w.old w.new out.old out.new (event_text K.spelling stream.now end event.now) }
{
    match event {
        Event::Asked(request) => add_call(w, out, stream, end, request),
        Event::Arrived(m) => add_message(w, out, m),
    }
}

/// Writes an event as a transcript has it: ` VERB NAME:END FIELDS` for a call, or ` MESSAGE` for a message
/// that came in.
///
/// Refused if the writer refuses, with its error.
pub fn put_event<W: Write, K: PrintKind + Drop>(
    w: &mut W,
    stream: &[u8],
    end: End,
    event: &Event<BoxedShape<K>>,
) -> io::Result<()>
    ensures { Writes W.contents w.old w.new result (event_text K.spelling stream.now end event.now) }
{
    let mut out = LineBuffer::new();
    add_event(w, &mut out, stream, end, event);
    out.finish(w)
}

/// Adds the line of a step.
#[tactic(auto, using(crate::proofs::GatheredLemmas::puts), unfolding(crate::specs::Lines::entry_text))]
fn add_entry<W: Write, K: PrintKind + Drop>(
    w: &mut W,
    out: &mut LineBuffer,
    processes: &[Name],
    stream: &[u8],
    entry: &Entry<K>,
)
    ensures { Adds W.contents w.old w.new out.old out.new
        (entry_text K.spelling (name_texts processes.now) stream.now entry.now) }
{
    add_who(w, out, processes, entry.who());
    add_event(w, out, stream, entry.end(), entry.event());
    add_answer(w, out, entry.answer());
}

/// Adds the lines of steps, one after another.
#[tactic(auto, using(crate::proofs::GatheredLemmas::puts_nothing, crate::proofs::GatheredLemmas::entry_put))]
fn add_entries<W: Write, K: PrintKind + Drop>(
    w: &mut W,
    out: &mut LineBuffer,
    processes: &[Name],
    stream: &[u8],
    entries: &[Kept<K>],
)
    ensures { Adds W.contents w.old w.new out.old out.new
        (entries_text K.spelling (name_texts processes.now) stream.now entries.now) }
{
    for kept in entries {
        add_entry(w, out, processes, stream, kept.entry());
    }
}

/// Writes the lines of steps, one after another.
pub(crate) fn put_entries<W: Write, K: PrintKind + Drop>(
    w: &mut W,
    processes: &[Name],
    stream: &[u8],
    entries: &[Kept<K>],
) -> io::Result<()>
    ensures { Writes W.contents w.old w.new result
        (entries_text K.spelling (name_texts processes.now) stream.now entries.now) }
{
    let mut out = LineBuffer::new();
    add_entries(w, &mut out, processes, stream, entries);
    out.finish(w)
}
