//! The lines of a tally.
ghost use Rattle.std.specs.Prelude.{◌≡◌, []};
ghost use Rattle.std.specs.Fmt.{decimal};
ghost use Rattle.strm_script_text.specs.Writing.{Writes};
ghost use Rattle.strm_script_orders.specs.Difference.{difference, lines_of};
ghost use Rattle.strm_script_orders.specs.Telling.{difference_text, many_text, plays_text};

use crate::lines::difference;
use crate::tally::MOST_KEPT;
use itoa::Buffer;
use std::io::{self, Write};

/// Writes a number.
pub(crate) fn put_number<W: Write>(w: &mut W, n: u64) -> io::Result<()>
    ensures { Writes W.contents w.old w.new result (decimal n) }
{
    let mut digits = Buffer::new();
    w.write_all(digits.format(n).as_bytes())
}

/// Writes how many orders gave a transcript: `order S plays M`.
pub(crate) fn put_plays<W: Write>(w: &mut W, label: &[u8], plays: u64) -> io::Result<()>
    ensures { Writes W.contents w.old w.new result (plays_text label.now plays) }
{
    w.write_all(b"order ")?;
    w.write_all(label)?;
    w.write_all(b" plays ")?;
    put_number(w, plays)?;
    w.write_all(b"\n")
}

/// Writes the first line in which a transcript differs from that of the first order: `differs STREAM: LINE`.
pub(crate) fn put_difference<W: Write>(w: &mut W, first: &[u8], text: &[u8]) -> io::Result<()>
    ensures { Writes W.contents w.old w.new result
        (difference_text (difference [] (lines_of first.now) (lines_of text.now))) }
{
    let (section, line) = difference(first, text);
    w.write_all(b"differs ")?;
    w.write_all(section)?;
    w.write_all(b": ")?;
    w.write_all(line)?;
    w.write_all(b"\n")
}

/// Writes how many transcripts there are: a number, or `over 64`.
pub(crate) fn put_many<W: Write>(w: &mut W, kept: usize, others: u64) -> io::Result<()>
    ensures { Writes W.contents w.old w.new result (many_text kept others) }
{
    if others == 0 {
        return put_number(w, kept as u64);
    }
    w.write_all(b"over ")?;
    put_number(w, MOST_KEPT as u64)
}
