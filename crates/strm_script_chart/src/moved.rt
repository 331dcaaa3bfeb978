//! The row of the moves of a step.
ghost use Rattle.std.specs.Prelude.{◌∷◌};
ghost use Rattle.strm_script_text.specs.Writing.{Writes};
ghost use Rattle.strm_script_chart.specs.Columns as text;

use crate::columns::put_all_bars;
use std::io::{self, Write};
use strm_chain_ends::Place;
use strm_module::Driver;
use strm_msg::End;
use strm_script_print::end_word;

/// Writes a queue of a module: its end, its side, and the number of its module.
#[tactic(auto, using(strm_script_text::proofs::WriteLemmas::appends_then), unfolding(crate::specs::Columns::queue_word))]
fn put_queue<W: Write>(w: &mut W, end: End, side: &[u8], i: u8) -> io::Result<()>
    ensures { Writes W.contents w.old w.new result (text.queue_word end side.now i) }
{
    w.write_all(end_word(end))?;
    w.write_all(side)?;
    write!(w, "{i}")
}

/// Writes the queue of the driver for an end.
#[tactic(auto, using(strm_script_text::proofs::WriteLemmas::appends_then), unfolding(crate::specs::Columns::driver_word))]
fn put_driver<W: Write>(w: &mut W, end: End) -> io::Result<()>
    ensures { Writes W.contents w.old w.new result (text.driver_word end) }
{
    w.write_all(end_word(end))?;
    w.write_all(b":driver")
}

/// Writes a place.
fn put_place<W: Write>(w: &mut W, place: Place) -> io::Result<()>
    ensures { Writes W.contents w.old w.new result (text.place_word place) }
{
    match place {
        Place::Wr { end, i } => put_queue(w, end, b":wr:", i),
        Place::Drv { end } => put_driver(w, end),
        Place::Rd { end, i } => put_queue(w, end, b":rd:", i),
    }
}

/// Writes a place behind a space.
#[tactic(auto, using(strm_script_text::proofs::WriteLemmas::appends_then))]
fn put_spaced<W: Write>(w: &mut W, place: Place) -> io::Result<()>
    ensures { Writes W.contents w.old w.new result (32 ∷ text.place_word place) }
{
    w.write_all(b" ")?;
    put_place(w, place)
}

/// Writes places, each behind a space.
#[tactic(auto, using(strm_script_text::proofs::WriteLemmas::appends_then))]
fn put_places<W: Write>(w: &mut W, places: &[Place]) -> io::Result<()>
    ensures { Writes W.contents w.old w.new result (text.places_text places.now) }
{
    for place in places {
        put_spaced(w, *place)?;
    }
    Ok(())
}

/// Writes the row of the places that moved.
#[tactic(auto, using(strm_script_text::proofs::WriteLemmas::appends_then), unfolding(crate::specs::Columns::moved_row))]
fn put_moved_row<W: Write>(w: &mut W, n: usize, driver: Driver, places: &[Place]) -> io::Result<()>
    ensures { Writes W.contents w.old w.new result (text.moved_row n driver places.now) }
{
    put_all_bars(w, n, driver)?;
    w.write_all(b" moved")?;
    put_places(w, places)?;
    w.write_all(b"\n")
}

/// Writes the row of the places that moved; nothing if none did.
pub(crate) fn put_moved<W: Write>(
    w: &mut W,
    n: usize,
    driver: Driver,
    places: &[Place],
) -> io::Result<()>
    ensures { Writes W.contents w.old w.new result (text.moved_text n driver places.now) }
{
    match places {
        [] => Ok(()),
        [..] => put_moved_row(w, n, driver, places),
    }
}
