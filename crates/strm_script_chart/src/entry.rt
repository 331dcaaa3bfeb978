//! The rows of the steps.
ghost use Rattle.strm_script_text.specs.Writing.{Writes};
ghost use Rattle.strm_script_chart.specs.Chart as text;

use crate::columns::{put_arrow, put_arrow_back};
use crate::moved::put_moved;
use std::io::{self, Write};
use strm_module::Driver;
use strm_script_print::{PrintKind, put_answer, put_event};
use strm_shared_entry::{Entry, Kept};

/// Writes the row of a step's maker and its event.
#[tactic(auto, using(strm_script_text::proofs::WriteLemmas::appends_then), unfolding(crate::specs::Chart::event_row))]
fn put_event_row<W: Write, K: PrintKind + Drop>(
    w: &mut W,
    n: usize,
    driver: Driver,
    stream: &[u8],
    entry: &Entry<K>,
) -> io::Result<()>
    ensures { Writes W.contents w.old w.new result (text.event_row K.spelling n driver stream.now entry.now) }
{
    put_arrow(w, n, driver, entry.who())?;
    put_event(w, stream, entry.end(), entry.event())?;
    w.write_all(b"\n")
}

/// Writes the row of a step's answer.
#[tactic(auto, using(strm_script_text::proofs::WriteLemmas::appends_then), unfolding(crate::specs::Chart::answer_row))]
fn put_answer_row<W: Write, K>(
    w: &mut W,
    n: usize,
    driver: Driver,
    entry: &Entry<K>,
) -> io::Result<()>
    ensures { Writes W.contents w.old w.new result (text.answer_row n driver entry.now) }
{
    put_arrow_back(w, n, driver, entry.who())?;
    put_answer(w, entry.answer())
}

/// Writes the rows of a step: the event, the moves, and the answer.
#[tactic(auto, using(strm_script_text::proofs::WriteLemmas::appends_then), unfolding(crate::specs::Chart::entry_rows))]
fn put_entry<W: Write, K: PrintKind + Drop>(
    w: &mut W,
    n: usize,
    driver: Driver,
    stream: &[u8],
    entry: &Entry<K>,
) -> io::Result<()>
    ensures { Writes W.contents w.old w.new result (text.entry_rows K.spelling n driver stream.now entry.now) }
{
    put_event_row(w, n, driver, stream, entry)?;
    put_moved(w, n, driver, entry.moves().as_slice())?;
    put_answer_row(w, n, driver, entry)
}

/// Writes the rows of steps, one after another.
#[tactic(auto, using(strm_script_text::proofs::WriteLemmas::appends_then))]
pub(crate) fn put_entries<W: Write, K: PrintKind + Drop>(
    w: &mut W,
    n: usize,
    driver: Driver,
    stream: &[u8],
    entries: &[Kept<K>],
) -> io::Result<()>
    ensures { Writes W.contents w.old w.new result (text.entries_rows K.spelling n driver stream.now entries.now) }
{
    for kept in entries {
        put_entry(w, n, driver, stream, kept.entry())?;
    }
    Ok(())
}
