//! The columns of a chart.
ghost use Rattle.std.specs.List.{repeat};
ghost use Rattle.strm_script_text.specs.Writing.{Writes};
ghost use Rattle.strm_script_chart.specs.Columns as text;

use std::io::{self, Write};
use strm_module::Driver;
use strm_shared_entry::Who;

/// Writes a text n times.
#[tactic(auto, using(crate::proofs::ColumnLemmas::one_more_written))]
fn put_times<W: Write>(w: &mut W, n: usize, part: &[u8]) -> io::Result<()>
    ensures { Writes W.contents w.old w.new result (repeat n part.now) }
{
    for i in 0..n {
        w.write_all(part)?;
    }
    Ok(())
}

/// Writes the bars of n columns, with the room behind each.
fn put_bars<W: Write>(w: &mut W, n: usize) -> io::Result<()>
    ensures { Writes W.contents w.old w.new result (text.bars n) }
{
    put_times(w, n, b"|   ")
}

/// Writes the bar of the column of the line. Only lines and wires have this column.
fn put_line_bar<W: Write>(w: &mut W, driver: Driver) -> io::Result<()>
    ensures { Writes W.contents w.old w.new result (text.line_bar driver) }
{
    if driver.is_line() {
        return w.write_all(b"   |");
    }
    Ok(())
}

/// Writes the bars of all columns: those of n processes, that of the stream, and that of the line.
#[tactic(auto, using(strm_script_text::proofs::WriteLemmas::appends_then), unfolding(crate::specs::Columns::all_bars))]
pub(crate) fn put_all_bars<W: Write>(w: &mut W, n: usize, driver: Driver) -> io::Result<()>
    ensures { Writes W.contents w.old w.new result (text.all_bars n driver) }
{
    put_bars(w, n)?;
    w.write_all(b"|")?;
    put_line_bar(w, driver)
}

/// Writes the name of a column, behind the bars of the columns to its left.
#[tactic(auto, using(strm_script_text::proofs::WriteLemmas::appends_then), unfolding(crate::specs::Columns::name_row))]
pub(crate) fn put_name<W: Write>(w: &mut W, left: usize, name: &[u8]) -> io::Result<()>
    ensures { Writes W.contents w.old w.new result (text.name_row left name.now) }
{
    put_bars(w, left)?;
    w.write_all(name)?;
    w.write_all(b"\n")
}

/// Writes the shaft of an arrow, from a caller's column across the columns between it and the stream's.
#[tactic(auto, using(strm_script_text::proofs::WriteLemmas::appends_then), unfolding(crate::specs::Columns::shaft))]
fn put_shaft<W: Write>(
    w: &mut W,
    n: usize,
    caller: u32,
    begins: &[u8],
    across: &[u8],
) -> io::Result<()>
    ensures { Writes W.contents w.old w.new result (text.shaft n caller begins.now across.now) }
{
    put_bars(w, caller as usize)?;
    w.write_all(begins)?;
    put_times(w, n.saturating_sub(caller as usize + 1), across)
}

/// Writes an arrow from a caller's column to the stream's.
#[tactic(auto, using(strm_script_text::proofs::WriteLemmas::appends_then), unfolding(crate::specs::Columns::call_arrow))]
fn put_call_arrow<W: Write>(w: &mut W, n: usize, driver: Driver, caller: u32) -> io::Result<()>
    ensures { Writes W.contents w.old w.new result (text.call_arrow n driver caller) }
{
    put_shaft(w, n, caller, b"|", b"---+")?;
    w.write_all(b"-->|")?;
    put_line_bar(w, driver)
}

/// Writes an arrow from the stream's column back to a caller's.
#[tactic(auto, using(strm_script_text::proofs::WriteLemmas::appends_then), unfolding(crate::specs::Columns::answer_arrow))]
fn put_answer_arrow<W: Write>(w: &mut W, n: usize, driver: Driver, caller: u32) -> io::Result<()>
    ensures { Writes W.contents w.old w.new result (text.answer_arrow n driver caller) }
{
    put_shaft(w, n, caller, b"|<--", b"+---")?;
    w.write_all(b"|")?;
    put_line_bar(w, driver)
}

/// Writes an arrow from the line's column to the stream's.
#[tactic(auto, using(strm_script_text::proofs::WriteLemmas::appends_then), unfolding(crate::specs::Columns::line_arrow))]
fn put_line_arrow<W: Write>(w: &mut W, n: usize) -> io::Result<()>
    ensures { Writes W.contents w.old w.new result (text.line_arrow n) }
{
    put_bars(w, n)?;
    w.write_all(b"|<--|")
}

/// Writes an arrow from the column of a step's maker to the stream's.
pub(crate) fn put_arrow<W: Write>(w: &mut W, n: usize, driver: Driver, who: Who) -> io::Result<()>
    ensures { Writes W.contents w.old w.new result (text.arrow n driver who) }
{
    match who {
        Who::Caller(caller) => put_call_arrow(w, n, driver, caller),
        Who::Line => put_line_arrow(w, n),
    }
}

/// Writes an arrow from the stream's column back to the caller's. Nothing goes back to a line, which has the
/// bars alone.
pub(crate) fn put_arrow_back<W: Write>(
    w: &mut W,
    n: usize,
    driver: Driver,
    who: Who,
) -> io::Result<()>
    ensures { Writes W.contents w.old w.new result (text.arrow_back n driver who) }
{
    match who {
        Who::Caller(caller) => put_answer_arrow(w, n, driver, caller),
        Who::Line => put_all_bars(w, n, driver),
    }
}
