//! The transcript of a run, as text that several threads make.
ghost use Rattle.std.specs.Prelude.{◌≡◌, ◌<◌, IfOk, OnOk, length, map};
ghost use Rattle.std.specs.IoError.{error_kind};
ghost use Rattle.std.specs.declared.io.ErrorKind.TheVariants.{OutOfMemory};
ghost use Rattle.strm_script_text.specs.Writing.{Writes};
ghost use Rattle.strm_script_parse.specs.Plan.{names_view};
ghost use Rattle.strm_script_print.specs.Lines.{transcript_text};
ghost use Rattle.strm_script_print.specs.Sharing.{AreLines, AreLinesOf, AreNumbered, joined};

use crate::link::put_links;
use crate::module::PrintKind;
use crate::printing::{print, put_numbered};
use std::alloc::Global;
use std::io::{self, BufWriter, ErrorKind, Write};
use std::mem;
use std::thread::Threads;
use strm_msg::NoMem;
use strm_run_threads::parallel_map;
use strm_script_parse::Names;
use strm_shared_entry::{StreamLog, Transcript};

/// The number of bytes of a stream's lines that are gathered before they are added to the others of that
/// stream.
const GATHERED: usize = 65_536;

/// The lines of the stream of this number; none if there is no such stream. Fails only when memory runs out.
fn lines<K: PrintKind + Drop>(
    alloc: Global,
    names: &Names,
    number: usize,
    log: &StreamLog<K>,
) -> Result<Vec<u8>, NoMem>
    ensures { IfOk result (AreLinesOf K.spelling (names_view names.now) number log.now) }
{
    let Ok(mut out) = BufWriter::with_capacity(alloc, GATHERED, Vec::new(alloc)) else {
        return Err(NoMem);
    };
    let Ok(()) = put_numbered(&mut out, names, number, log) else {
        return Err(NoMem);
    };
    match out.into_inner() {
        Ok(text) => Ok(text),
        Err(_) => Err(NoMem),
    }
}

/// Pairs each log with the number of its stream. Fails only when memory runs out.
fn numbered<K: Drop>(
    alloc: Global,
    logs: Vec<StreamLog<K>>,
) -> Result<Vec<(usize, StreamLog<K>)>, NoMem>
    ensures { IfOk result (λ all. AreNumbered logs.items all.items) }
{
    let mut all = Vec::new(alloc);
    let mut number: usize = 0;
    for log in logs {
        all.push((number, log))?;
        number += 1;
    }
    Ok(all)
}

/// The lines and the logs in lists of their own, unless memory ran out for one.
fn all_made<T: Drop, L: Drop>(
    alloc: Global,
    made: Vec<(Result<T, NoMem>, L)>,
) -> Result<(Vec<T>, Vec<L>), NoMem>
    ensures made { IfOk result (λ all. map Ok all.0.items ≡ map (λ one. one.0) made.items) }
    ensures again { IfOk result (λ all. all.1.items ≡ map (λ one. one.1) made.items) }
{
    let mut all = Vec::new(alloc);
    let mut again = Vec::new(alloc);
    for (one, other) in made {
        all.push(one?)?;
        again.push(other)?;
    }
    Ok((all, again))
}

/// The lines of each stream, made in at most that many threads, and the logs. Fails only when memory runs
/// out. Then the logs are dropped.
fn all_lines<R: Threads + Sync, K: PrintKind + Drop + Send + Sync>(
    rt: &R,
    alloc: Global,
    names: &Names,
    logs: Vec<StreamLog<K>>,
    threads: usize,
) -> Result<(Vec<Vec<u8>>, Vec<StreamLog<K>>), NoMem>
    requires { 0 < threads }
    ensures lines { IfOk result (λ all. AreLines K.spelling (names_view names.now) logs.items all.0.items) }
    ensures logs { IfOk result (λ all. all.1.items ≡ logs.items) }
{
    let jobs = numbered(alloc, logs)?;
    let made = parallel_map(
        rt,
        alloc,
        jobs,
        threads,
        &|job: (usize, StreamLog<K>)| -> (Result<Vec<u8>, NoMem>, StreamLog<K>)
            ensures text { IfOk result.0 (AreLinesOf K.spelling (names_view names.entry.now) job.0 job.1) }
            ensures log { result.1 ≡ job.1 }
        { (lines(alloc, names, job.0, &job.1), job.1) },
    )?;
    all_made(alloc, made)
}

/// Writes texts, one after another.
#[tactic(auto, using(strm_script_text::proofs::WriteLemmas::appends_then))]
fn put_texts<W: Write>(w: &mut W, texts: &[Vec<u8>]) -> io::Result<()>
    ensures { Writes W.contents w.old w.new result (joined texts.now) }
{
    for text in texts {
        w.write_all(text.as_slice())?;
    }
    Ok(())
}

/// Writes the lines of all streams, which were made before, and behind them those of the links.
#[tactic(auto, using(strm_script_text::proofs::WriteLemmas::appends_then, crate::proofs::SharingLemmas::all_printed))]
fn put_all<W: Write, K: PrintKind>(
    w: &mut W,
    names: &Names,
    texts: &[Vec<u8>],
    logs: &[StreamLog<K>],
) -> io::Result<()>
    requires { AreLines K.spelling (names_view names.now) logs.now texts.now }
    ensures { Writes W.contents w.old w.new result (transcript_text K.spelling (names_view names.now) logs.now) }
{
    put_texts(w, texts)?;
    put_links(w, &names.streams, logs, names.links.as_slice())
}

/// The error of a printing for which memory runs out.
fn no_memory() -> io::Error
    ensures { error_kind result ≡ OutOfMemory }
{
    io::Error::from(ErrorKind::OutOfMemory)
}

/// Prints a transcript to a writer as `print` does, with the lines of its streams made in at most that many
/// threads.
///
/// With one thread, or for a single stream, the lines are written as they are made, and no memory is taken.
/// Otherwise the lines of all streams are made before the first is written. The transcript is as it was.
///
/// Fails when memory runs out, with an error of kind `OutOfMemory`. Then nothing was written, and the
/// transcript has no streams any more. Fails also if the writer refuses, with its error, after the text that
/// could be written.
pub fn print_parallel<R: Threads + Sync, W: Write, K: PrintKind + Drop + Send + Sync>(
    rt: &R,
    alloc: Global,
    transcript: &mut Transcript<K>,
    names: &Names,
    threads: usize,
    w: &mut W,
) -> io::Result<()>
    requires threads { 0 < threads }
    ensures text { Writes W.contents w.old w.new result
        (transcript_text K.spelling (names_view names.now) transcript.old.streams.items) }
    ensures kept { OnOk result (transcript.new.streams.items ≡ transcript.old.streams.items) }
    ensures one { threads ≡ 1 → transcript.new ≡ transcript.old }
    ensures single { length transcript.old.streams.items < 2 → transcript.new ≡ transcript.old }
{
    if threads == 1 || transcript.streams.len() < 2 {
        return print(transcript, names, w);
    }
    let logs = mem::replace(&mut transcript.streams, Vec::new(alloc));
    let Ok((texts, logs)) = all_lines(rt, alloc, names, logs, threads) else {
        return Err(no_memory());
    };
    transcript.streams = logs;
    put_all(w, names, texts.as_slice(), transcript.streams.as_slice())
}
