//! The chart of a stream.
ghost use Rattle.strm_script_text.specs.Text.{name_texts};
ghost use Rattle.strm_script_text.specs.Writing.{Writes};
ghost use Rattle.strm_script_chart.specs.Chart as text;

use crate::columns::{put_all_bars, put_name};
use crate::entry::put_entries;
use std::io::{self, Write};
use strm_head_calls::Setup;
use strm_module::Driver;
use strm_msg::End;
use strm_script_parse::Name;
use strm_script_print::{PrintKind, put_end, put_far_end, put_feed, put_heading};
use strm_shared_entry::StreamLog;

/// Writes the names of the processes, each above its column.
#[tactic(auto, using(crate::proofs::NameLemmas::name_written))]
fn put_processes<W: Write>(w: &mut W, processes: &[Name]) -> io::Result<()>
    ensures { Writes W.contents w.old w.new result (text.process_names (name_texts processes.now)) }
{
    for (left, name) in processes.iter().enumerate() {
        put_name(w, left, name.as_slice())?;
    }
    Ok(())
}

/// Writes `line` above the column of the line. Only lines and wires have this column.
fn put_line_name<W: Write>(w: &mut W, left: usize, driver: Driver) -> io::Result<()>
    ensures { Writes W.contents w.old w.new result (text.line_name left driver) }
{
    if driver.is_line() {
        return put_name(w, left, b"line");
    }
    Ok(())
}

/// Writes the names of all columns, each above its own column, and a row of their bars.
#[tactic(auto, using(strm_script_text::proofs::WriteLemmas::appends_then), unfolding(crate::specs::Chart::names_text))]
fn put_names<W: Write>(w: &mut W, processes: &[Name], name: &[u8], driver: Driver) -> io::Result<()>
    ensures { Writes W.contents w.old w.new result (text.names_text (name_texts processes.now) name.now driver) }
{
    let n = processes.len();
    put_processes(w, processes)?;
    put_name(w, n, name)?;
    put_line_name(w, n + 1, driver)?;
    put_all_bars(w, n, driver)?;
    w.write_all(b"\n")
}

/// Writes the end of a stream: the state of its ends, and the outcome of its feed.
#[tactic(auto, using(strm_script_text::proofs::WriteLemmas::appends_then), unfolding(crate::specs::Chart::left_text))]
fn put_left<W: Write, K>(w: &mut W, driver: Driver, log: &StreamLog<K>) -> io::Result<()>
    ensures { Writes W.contents w.old w.new result (text.left_text driver log.now) }
{
    put_end(w, End::A, &log.a)?;
    put_far_end(w, driver, &log.b)?;
    put_feed(w, driver, log)
}

/// Writes the chart of a stream: its name, the names of the columns, its steps, and its end.
#[tactic(auto, using(strm_script_text::proofs::WriteLemmas::appends_then), unfolding(crate::specs::Chart::stream_chart))]
pub(crate) fn put_stream<W: Write, K: PrintKind + Drop>(
    w: &mut W,
    processes: &[Name],
    name: &[u8],
    setup: &Setup,
    log: &StreamLog<K>,
) -> io::Result<()>
    ensures { Writes W.contents w.old w.new result
        (text.stream_chart K.spelling (name_texts processes.now) name.now setup.now log.now) }
{
    put_heading(w, name)?;
    put_names(w, processes, name, setup.driver)?;
    put_entries(
        w,
        processes.len(),
        setup.driver,
        name,
        log.history.as_slice(),
    )?;
    put_left(w, setup.driver, log)
}
