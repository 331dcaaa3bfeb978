//! The printed lines of links.
ghost use Rattle.std.specs.Prelude.{◌≡◌, ◌<◌, ◌^◌, is_some, length, map, slice_get};
ghost use Rattle.strm_link.specs.Passage.{held_count};
ghost use Rattle.strm_script_parse.specs.Plan.{link_view, streams_of};
ghost use Rattle.strm_script_print.specs.LineBuffer.{Adds, AddsFields};
ghost use Rattle.strm_script_print.specs.Links.{link_text, links_text, name_in, passage_fields, passage_text};
ghost use Rattle.strm_script_print.specs.Links.{taken_of, wire_fields};
ghost use Rattle.strm_script_text.specs.Writing.{Writes};
ghost use Rattle.strm_shared_entry.specs.Logs.{history_at};
ghost use Rattle.strm_shared_entry.specs.Own.{own};
ghost use Rattle.strm_shared_entry.specs.Taken as takes;
ghost use Rattle.strm_shared_entry.specs.Taken.{taken_by};

use crate::field::{Field, add_all};
use crate::line_buffer::LineBuffer;
use indexmap::IndexMap;
use std::io::{self, Write};
use strm_head_calls::{Answer, Event, Reply, Request, Setup};
use strm_link::Passage;
use strm_script_parse::{LinkDecl, Name};
use strm_shared_entry::{Kept, StreamLog};

/// Whether a call has taken a message, or a hangup, from a wire.
fn has_taken<P>(event: &Event<P>, answer: &Answer) -> bool
    ensures { result ≡ is_some (taken_by event.now answer.now) }
{
    match (event, answer) {
        (Event::Asked(Request::Take), Answer::Done(Reply::Message { m })) => m.from_line(),
        (Event::Asked(Request::Take), Answer::Done(Reply::Hangup)) => true,
        _ => false,
    }
}

/// The number of messages that a caller has taken from a wire.
fn many_taken<K>(history: &[Kept<K>], caller: u32) -> usize
    ensures many { result ≡ length (takes.taken (own caller history.now)) }
    ensures few { result < 2 ^ 63 }
{
    let mut many = 0;
    for kept in history {
        let entry = kept.entry();
        if entry.who().is_caller(caller) && has_taken(entry.event(), entry.answer()) {
            many += 1;
        }
    }
    many
}

/// The number of messages that the carrier of a link has taken; none where it has no carrier.
fn taken<K>(history: &[Kept<K>], by: Option<u32>) -> u64
    ensures many { result ≡ length (taken_of history.now by) }
    ensures few { result < 2 ^ 63 }
{
    match by {
        Some(caller) => many_taken(history, caller) as u64,
        None => 0,
    }
}

/// The history of the stream of this number; no steps if there is no such stream.
fn history_at<K>(logs: &[StreamLog<K>], number: u32) -> &[Kept<K>]
    ensures { result.now ≡ history_at logs.now number }
{
    match logs.get(number as usize) {
        Some(log) => log.history.as_slice(),
        None => &[],
    }
}

/// The name of the stream of this number; nothing if there is no such stream.
fn name_in(streams: &IndexMap<Name, Setup>, number: u32) -> &[u8]
    ensures { result.now ≡ name_in (slice_get (streams_of streams.now) number) }
{
    match streams.get_index(number as usize) {
        Some((name, _)) => name.as_slice(),
        None => b"",
    }
}

/// The number of messages that a link holds, by whether it holds one.
fn held_count(held: bool) -> u64
    ensures { result ≡ held_count held }
{
    if held { 1 } else { 0 }
}

/// Adds the name of a link, and those of the wires from and to which it leads.
fn add_wires<'a, W: Write>(
    w: &mut W,
    out: &mut LineBuffer,
    streams: &'a IndexMap<Name, Setup>,
    link: &'a LinkDecl,
)
    ensures { AddsFields W.contents w.old w.new out.old out.new
        (wire_fields (streams_of streams.now) (link_view link.now)) }
{
    let fields = [
        Field::Word(link.name.as_slice()),
        Field::Word(name_in(streams, link.from)),
        Field::Word(name_in(streams, link.to)),
    ];
    add_all(w, out, &fields);
}

/// Adds the number of messages that a carrier has taken, and how far its link is.
fn add_passage<W: Write>(w: &mut W, out: &mut LineBuffer, many: u64, passage: Passage)
    ensures { AddsFields W.contents w.old w.new out.old out.new (passage_fields many passage) }
{
    let fields = [
        Field::Word(b"taken"),
        Field::Number(many),
        Field::Word(b"given"),
        Field::Number(passage.given),
        Field::Word(b"held"),
        Field::Number(held_count(passage.held)),
    ];
    add_all(w, out, &fields);
}

/// Adds the line of a link of which that many messages were taken, and which is so far.
fn add_link<W: Write>(
    w: &mut W,
    out: &mut LineBuffer,
    streams: &IndexMap<Name, Setup>,
    link: &LinkDecl,
    many: u64,
    passage: Passage,
)
    ensures { Adds W.contents w.old w.new out.old out.new
        (passage_text (streams_of streams.now) (link_view link.now) many passage) }
{
    out.put(w, b"link");
    add_wires(w, out, streams, link);
    add_passage(w, out, many, passage);
    out.put(w, b"\n");
}

/// Writes the line of a link.
fn put_link<W: Write, K>(
    w: &mut W,
    streams: &IndexMap<Name, Setup>,
    logs: &[StreamLog<K>],
    link: &LinkDecl,
) -> io::Result<()>
    ensures { Writes W.contents w.old w.new result
        (link_text (streams_of streams.now) logs.now (link_view link.now)) }
{
    let many = taken(history_at(logs, link.from), link.by);
    let passage = link.rule.passage(many);
    let mut out = LineBuffer::new();
    add_link(w, &mut out, streams, link, many, passage);
    out.finish(w)
}

/// Writes the lines of links, one after another.
#[tactic(auto, using(strm_script_text::proofs::WriteLemmas::appends_then))]
pub(crate) fn put_links<W: Write, K>(
    w: &mut W,
    streams: &IndexMap<Name, Setup>,
    logs: &[StreamLog<K>],
    links: &[LinkDecl],
) -> io::Result<()>
    ensures { Writes W.contents w.old w.new result
        (links_text (streams_of streams.now) logs.now (map link_view links.now)) }
{
    for link in links {
        put_link(w, streams, logs, link)?;
    }
    Ok(())
}
