//! The transcript of a run, as text.
ghost use Rattle.strm_script_text.specs.Text.{name_texts};
ghost use Rattle.strm_script_text.specs.Writing.{Writes};
ghost use Rattle.strm_script_parse.specs.Plan.{names_view, streams_of};
ghost use Rattle.strm_script_print.specs.Lines.{numbered_text, streams_text, transcript_text};

use crate::link::put_links;
use crate::module::PrintKind;
use crate::stream::put_stream;
use std::io::{self, Write};
use strm_script_parse::Names;
use strm_shared_entry::{StreamLog, Transcript};

/// Writes the lines of the stream of this number; nothing if there is no such stream.
pub(crate) fn put_numbered<W: Write, K: PrintKind + Drop>(
    w: &mut W,
    names: &Names,
    number: usize,
    log: &StreamLog<K>,
) -> io::Result<()>
    ensures { Writes W.contents w.old w.new result (numbered_text K.spelling (names_view names.now) number log.now) }
{
    match names.streams.get_index(number) {
        Some((name, setup)) => {
            put_stream(w, names.processes.as_slice(), name.as_slice(), setup, log)
        }
        None => Ok(()),
    }
}

/// Writes the lines of streams, one after another.
#[tactic(auto, using(crate::proofs::LineLemmas::one_more_written, crate::proofs::LineLemmas::none_written))]
fn put_streams<W: Write, K: PrintKind + Drop>(
    w: &mut W,
    names: &Names,
    logs: &[StreamLog<K>],
) -> io::Result<()>
    ensures { Writes W.contents w.old w.new result
        (streams_text K.spelling (name_texts names.now.processes.items) (streams_of names.now.streams) logs.now) }
{
    for (number, log) in logs.iter().enumerate() {
        put_numbered(w, names, number, log)?;
    }
    Ok(())
}

/// Prints a transcript to a writer: stream after stream, each with its name, and each call with the name of
/// its process. Behind them come the links.
///
/// A stream has these lines: its name, each step in order with its maker and its answer, end A, and end B of
/// a loop. A line or a wire also has the numbers of a feed's messages that were accepted, that came in, and
/// that were handed back. Streams without a log are not printed, nor logs without a stream. A link has one line:
/// its name, those of its wires, and the numbers of messages that were taken, passed on and are held.
///
/// Refused only if the writer refuses, with its error, after the text that could be written. Takes no memory.
#[tactic(auto, using(strm_script_text::proofs::WriteLemmas::appends_then))]
pub fn print<W: Write, K: PrintKind + Drop>(
    transcript: &Transcript<K>,
    names: &Names,
    w: &mut W,
) -> io::Result<()>
    ensures text { Writes W.contents w.old w.new result
        (transcript_text K.spelling (names_view names.now) transcript.now.streams.items) }
{
    let logs = transcript.streams.as_slice();
    put_streams(w, names, logs)?;
    put_links(w, &names.streams, logs, names.links.as_slice())
}
