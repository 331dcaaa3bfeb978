//! The text of an expected reply that was not met.
ghost use Rattle.std.specs.Prelude.{◌≡◌};
ghost use Rattle.strm_script_text.specs.Writing.{Writes};
ghost use Rattle.strm_script_parse.specs.Plan.{texts_in};
ghost use Rattle.strm_script_expect.specs.Unmet.{choices_text, more_choices_text, missed_text, missed_view};

use crate::judging::Missed;
use std::io::{self, Write};
use strm_script_print::put_number;

/// Writes choices, each behind a bar.
fn put_more<W: Write>(w: &mut W, choices: &[Vec<u8>]) -> io::Result<()>
    ensures { Writes W.contents w.old w.new result (more_choices_text (texts_in choices.now)) }
{
    for choice in choices {
        w.write_all(b" |")?;
        w.write_all(choice.as_slice())?;
    }
    Ok(())
}

/// Writes choices, with a bar between two.
fn put_choices<W: Write>(w: &mut W, choices: &[Vec<u8>]) -> io::Result<()>
    ensures { Writes W.contents w.old w.new result (choices_text (texts_in choices.now)) }
{
    match choices {
        [] => Ok(()),
        [choice, choices @ ..] => {
            w.write_all(choice.as_slice())?;
            put_more(w, choices)
        }
    }
}

/// Writes the text of an expected reply that was not met: `line L: expected REPLY, was REPLY`, with the
/// number of the script's line. It has no line end.
///
/// Refused if the writer refuses, with its error.
pub fn put_missed<W: Write>(w: &mut W, missed: &Missed) -> io::Result<()>
    ensures { Writes W.contents w.old w.new result (missed_text (missed_view missed.now)) }
{
    w.write_all(b"line")?;
    put_number(w, missed.expected.line)?;
    w.write_all(b": expected")?;
    put_choices(w, missed.expected.choices.as_slice())?;
    w.write_all(b", was")?;
    w.write_all(missed.was.as_slice())
}
