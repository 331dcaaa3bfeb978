//! The printed lines of a stream.
ghost use Rattle.strm_script_text.specs.Text.{name_texts};
ghost use Rattle.strm_script_text.specs.Writing.{Writes};
ghost use Rattle.strm_script_print.specs.LineBuffer.{Adds};
ghost use Rattle.strm_script_print.specs.Lines as text;

use crate::entry::{end_word, put_entries};
use crate::field::{Field, add_all, add_names, add_word, put_word};
use crate::line_buffer::LineBuffer;
use crate::module::PrintKind;
use arrayvec::ArrayVec;
use std::io::{self, Write};
use strm_head_calls::{Name, Setup};
use strm_module::{Driver, MOST_MODULES};
use strm_msg::End;
use strm_shared_entry::StreamLog;

/// Adds the line of an end: open, with the names of its modules, topmost first, or closed.
#[tactic(auto, using(crate::proofs::GatheredLemmas::puts), unfolding(crate::specs::Lines::end_text))]
fn add_end<W: Write>(
    w: &mut W,
    out: &mut LineBuffer,
    end: End,
    names: &Option<ArrayVec<Name, MOST_MODULES>>,
)
    ensures { Adds W.contents w.old w.new out.old out.new (text.end_text end names.now) }
{
    match names {
        None => {
            out.put(w, b"closed");
            add_word(w, out, end_word(end));
            out.put(w, b"\n");
        }
        Some(names) => {
            out.put(w, b"open");
            add_word(w, out, end_word(end));
            add_names(w, out, names.as_slice());
            out.put(w, b"\n");
        }
    }
}

/// Writes the line of an end: open, with the names of its modules, topmost first, or closed.
///
/// Refused if the writer refuses, with its error.
pub fn put_end<W: Write>(
    w: &mut W,
    end: End,
    names: &Option<ArrayVec<Name, MOST_MODULES>>,
) -> io::Result<()>
    ensures { Writes W.contents w.old w.new result (text.end_text end names.now) }
{
    let mut out = LineBuffer::new();
    add_end(w, &mut out, end, names);
    out.finish(w)
}

/// Writes the line of end B of a loop; nothing for the other drivers.
///
/// Refused if the writer refuses, with its error.
pub fn put_far_end<W: Write>(
    w: &mut W,
    driver: Driver,
    names: &Option<ArrayVec<Name, MOST_MODULES>>,
) -> io::Result<()>
    ensures { Writes W.contents w.old w.new result (text.far_end_text driver names.now) }
{
    match driver {
        Driver::Loop => put_end(w, End::B, names),
        Driver::Echo | Driver::Line | Driver::Wire => Ok(()),
    }
}

/// Adds the numbers of messages of a feed that were accepted, that came in, and that were handed back.
#[tactic(auto, using(crate::proofs::GatheredLemmas::puts), unfolding(crate::specs::Lines::counts_text))]
fn add_counts<W: Write, K>(w: &mut W, out: &mut LineBuffer, log: &StreamLog<K>)
    ensures { Adds W.contents w.old w.new out.old out.new (text.counts_text log.now) }
{
    let fields = [
        Field::Word(b"accepted"),
        Field::Number(log.accepted),
        Field::Word(b"arrived"),
        Field::Number(log.arrived),
        Field::Word(b"overrun"),
        Field::Number(log.overrun),
    ];
    add_all(w, out, &fields);
}

/// Adds the line of the outcome of a feed, for a line or a wire; nothing for the other drivers.
#[tactic(auto, using(crate::proofs::GatheredLemmas::puts), unfolding(crate::specs::Lines::feed_text))]
fn add_feed<W: Write, K>(w: &mut W, out: &mut LineBuffer, driver: Driver, log: &StreamLog<K>)
    ensures { Adds W.contents w.old w.new out.old out.new (text.feed_text driver log.now) }
{
    if driver.is_line() {
        out.put(w, b"feed");
        add_counts(w, out, log);
        out.put(w, b"\n");
    }
}

/// Writes the line of the outcome of a feed, for a line or a wire; nothing for the other drivers.
///
/// Refused if the writer refuses, with its error.
pub fn put_feed<W: Write, K>(w: &mut W, driver: Driver, log: &StreamLog<K>) -> io::Result<()>
    ensures { Writes W.contents w.old w.new result (text.feed_text driver log.now) }
{
    let mut out = LineBuffer::new();
    add_feed(w, &mut out, driver, log);
    out.finish(w)
}

/// Writes the line with a stream's name, `stream NAME`.
///
/// Refused if the writer refuses, with its error.
#[tactic(auto, using(strm_script_text::proofs::WriteLemmas::appends_then))]
pub fn put_heading<W: Write>(w: &mut W, name: &[u8]) -> io::Result<()>
    ensures { Writes W.contents w.old w.new result (text.heading_text name.now) }
{
    w.write_all(b"stream")?;
    put_word(w, name)?;
    w.write_all(b"\n")
}

/// Writes the lines of a stream: its name, its steps, its ends, and the outcome of its feed.
#[tactic(auto, using(strm_script_text::proofs::WriteLemmas::appends_then), unfolding(crate::specs::Lines::stream_text))]
pub(crate) fn put_stream<W: Write, K: PrintKind + Drop>(
    w: &mut W,
    processes: &[strm_script_parse::Name],
    name: &[u8],
    setup: &Setup,
    log: &StreamLog<K>,
) -> io::Result<()>
    ensures { Writes W.contents w.old w.new result
        (text.stream_text K.spelling (name_texts processes.now) name.now setup.now log.now) }
{
    put_heading(w, name)?;
    put_entries(w, processes, name, log.history.as_slice())?;
    put_end(w, End::A, &log.a)?;
    put_far_end(w, setup.driver, &log.b)?;
    put_feed(w, setup.driver, log)
}
