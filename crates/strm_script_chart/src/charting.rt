//! The chart of a run's transcript.
ghost use Rattle.strm_script_text.specs.Writing.{Writes};
ghost use Rattle.strm_script_parse.specs.Plan.{names_view};
ghost use Rattle.strm_script_chart.specs.Chart.{chart_text, numbered_chart};

use crate::stream::put_stream;
use std::io::{self, Write};
use strm_script_parse::Names;
use strm_script_print::PrintKind;
use strm_shared_entry::{StreamLog, Transcript};

/// Writes the chart of the stream of this number; nothing if there is no such stream.
fn put_numbered<W: Write, K: PrintKind + Drop>(
    w: &mut W,
    names: &Names,
    number: usize,
    log: &StreamLog<K>,
) -> io::Result<()>
    ensures { Writes W.contents w.old w.new result (numbered_chart K.spelling (names_view names.now) number log.now) }
{
    match names.streams.get_index(number) {
        Some((name, setup)) => {
            put_stream(w, names.processes.as_slice(), name.as_slice(), setup, log)
        }
        None => Ok(()),
    }
}

/// Draws the transcript of a plan's run to a writer, as a chart: stream after stream, each with the name by
/// which the plan declares it.
///
/// The chart of a stream has its name, the names of its columns, each step of its history in order, and its
/// end. A step has a row with an arrow from its maker to the stream, and the event as a transcript has it;
/// then a row with the places that moved, if any did; then a row with an arrow back, and the answer. Streams
/// without a log are not drawn, nor logs without a stream. A caller that is no process of the plan has no
/// column, and its arrows begin as far to the right as its number says.
///
/// Refused only if the writer refuses, with its error, after the text that could be written. Takes no memory.
#[tactic(auto, using(crate::proofs::ChartLemmas::one_more_written, crate::proofs::ChartLemmas::none_written))]
pub fn chart<W: Write, K: PrintKind + Drop>(
    transcript: &Transcript<K>,
    names: &Names,
    w: &mut W,
) -> io::Result<()>
    ensures text { Writes W.contents w.old w.new result
        (chart_text K.spelling (names_view names.now) transcript.now.streams.items) }
{
    for (number, log) in transcript.streams.iter().enumerate() {
        put_numbered(w, names, number, log)?;
    }
    Ok(())
}
