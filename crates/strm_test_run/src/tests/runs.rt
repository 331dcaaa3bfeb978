//! Runs: the history of each stream, whatever the threads do, and the refusals of runs.
ghost use Rattle.std.specs.Prelude.{◌<◌, length};
ghost use Rattle.std.specs.Mem.{FitsInMemory};
ghost use denote.Plain.{Nothing};
ghost use Rattle.strm_module.specs.contracts.boxed.BoxedModule as boxed_type;
ghost use Rattle.strm_shared_entry.specs.contracts.call.Called as called_type;

use super::write;
use std::alloc::Global;
use std::process::Abort;
use std::sync::{OnceLock, Wait};
use std::thread;
use std::thread::Threads;
use strm_head::Request;
use strm_module::{BoxedModule, Kind, Module, ModuleOf, Plain};
use strm_msg::{End, Message};
use strm_run::{
    Feed, Gate, RunFault, Script, ScriptCall, Transcript, are_from_line, can_open_all, run,
};
use strm_shared_log::{Call, SameKind, Setup};

mod across;
mod crews;
mod faults;
mod feeds;
mod gates;
mod long;
mod order;
mod steps;
mod streams;
mod together;
mod want;

/// The number of times that a gate or a module checks the event that it waits for.
const TURNS: u32 = 10_000_000;

/// A gate that does nothing.
struct Open;

impl Gate for Open {
    fn before(&self, _: u32, _: u64) {}

    fn after(&self, _: u32, _: u64) {}
}

/// Waits until an event is there, but not for ever. Then it is noted that it came too late.
fn wait_for(done: &OnceLock<()>, late: &OnceLock<()>) {
    for _ in 0..TURNS {
        if done.get().is_some() {
            return;
        }
        thread::yield_now();
    }
    let _ = late.try_set(());
}

/// The request of a caller, as a table has it.
#[derive(Clone, Copy, Drop)]
enum Ask {
    Write(&'static [u8]),
    /// Reads at most that many bytes.
    Read(u16),
    Pop,
}

/// A call of a caller: the stream, the end, and the request.
type Row = (u32, End, Ask);

/// The feed of a line: the stream, and the data of each message.
type Fed = (u32, &'static [&'static [u8]]);

/// A call by which a caller makes this request at an end.
fn script_call<M: ModuleOf>(
    stream: u32,
    end: End,
    request: Request<BoxedModule<M>>,
) -> ScriptCall<BoxedModule<M>> {
    ScriptCall {
        stream,
        call: Call { end, request },
    }
}

fn request_of<M: ModuleOf>(rt: &impl Abort, alloc: Global, ask: Ask) -> Request<BoxedModule<M>> {
    match ask {
        Ask::Write(dat) => write(rt, alloc, dat),
        Ask::Read(max) => Request::Read { max },
        Ask::Pop => Request::Pop,
    }
}

/// The script of a caller with these calls.
fn script_of<M: ModuleOf>(rt: &impl Abort, alloc: Global, rows: &[Row]) -> Script<BoxedModule<M>> {
    more(rt, alloc, vec![in alloc].expect(rt, "no memory"), rows)
}

/// The script of a caller that puts a module in first.
fn pushing<M: Module>(
    rt: &impl Abort,
    alloc: Global,
    stream: u32,
    instance: BoxedModule<M>,
    rows: &[Row],
) -> Script<BoxedModule<M>> {
    let push = script_call(stream, End::A, Request::Push { instance });
    more(
        rt,
        alloc,
        vec![in alloc; push].expect(rt, "no memory"),
        rows,
    )
}

/// A script of these calls, with more behind them.
fn more<M: ModuleOf>(
    rt: &impl Abort,
    alloc: Global,
    calls: Vec<ScriptCall<BoxedModule<M>>>,
    rows: &[Row],
) -> Script<BoxedModule<M>> {
    let mut calls = calls;
    for (stream, end, asked) in rows {
        let request = request_of(rt, alloc, *asked);
        calls
            .push(script_call(*stream, *end, request))
            .expect(rt, "no memory");
    }
    Script::of(alloc, calls)
}

/// A script for each caller.
fn scripts_of<M: ModuleOf>(
    rt: &impl Abort,
    alloc: Global,
    scripts: &[&[Row]],
) -> Vec<Script<BoxedModule<M>>> {
    let mut all = vec![in alloc].expect(rt, "no memory");
    for rows in scripts {
        all.push(script_of(rt, alloc, rows)).expect(rt, "no memory");
    }
    all
}

fn feed_of(rt: &impl Abort, alloc: Global, stream: u32, rows: &[&[u8]]) -> Feed {
    let mut messages = vec![in alloc].expect(rt, "no memory");
    for dat in rows {
        let m = Message::of_data(alloc, 0, dat).expect(rt, "no memory");
        messages.push(m).expect(rt, "no memory");
    }
    Feed { stream, messages }
}

fn feeds_of(rt: &impl Abort, alloc: Global, feeds: &[Fed]) -> Vec<Feed> {
    let mut all = vec![in alloc].expect(rt, "no memory");
    for (stream, rows) in feeds {
        all.push(feed_of(rt, alloc, *stream, rows))
            .expect(rt, "no memory");
    }
    all
}

/// The scripts of two callers.
fn two<M: ModuleOf>(
    rt: &impl Abort,
    alloc: Global,
    first: Script<BoxedModule<M>>,
    second: Script<BoxedModule<M>>,
) -> Vec<Script<BoxedModule<M>>> {
    let mut all = vec![in alloc].expect(rt, "no memory");
    all.push(first).expect(rt, "no memory");
    all.push(second).expect(rt, "no memory");
    all
}

/// A run on streams that can be opened, with feeds that come from lines. The outcome of a call on such
/// modules fits into memory.
fn run_of<M: ModuleOf, G: Gate, R: Abort + Threads + Wait + Sync>(
    rt: &R,
    alloc: Global,
    setups: &[Setup],
    scripts: Vec<Script<BoxedModule<M>>>,
    feeds: &[Fed],
    workers: u32,
    gate: &G,
) -> Result<Transcript<M::Kind>, RunFault>
where
    M::Kind: SameKind + Send + Sync,
    requires { FitsInMemory (called_type.the_row (boxed_type.the_row M.row M.Kind.row M.Kind.Kinds) M.Kind.row Nothing) }
{
    let setups = Vec::from_slice(alloc, setups).expect(rt, "no memory");
    let feeds = feeds_of(rt, alloc, feeds);
    assert!(rt; can_open_all(setups.as_slice()) && are_from_line(feeds.as_slice()));
    assert!(rt; setups.len() < 1000 && scripts.len() < 1000);
    let links = Vec::new(alloc);
    run(rt, alloc, setups, scripts, feeds, links, workers, gate)
}

/// The expected result of a run.
#[derive(Clone, Copy, Drop)]
enum Left<'a> {
    /// These streams have that many entries.
    Entries(&'a [(usize, usize)]),
    /// One stream has no entry.
    Fresh,
    /// Each caller has the calls that it made.
    Calls,
    /// Of two lines, one was not fed, and one had a ring without room for all its messages.
    Overrun,
    /// A line was fed while a caller read.
    Fed,
    /// Each call of a long script has its answer.
    Answers,
    /// An echo has these writes, in order, and no other calls: the writer, the first byte, and the length.
    Writes(&'a [(u32, u8, u64)]),
}

fn is_left(transcript: &Transcript<Kind>, left: Left<'_>) -> bool {
    match left {
        Left::Entries(rows) => have_entries(transcript, rows),
        Left::Fresh => crews::is_fresh(transcript),
        Left::Calls => crews::are_played(transcript),
        Left::Overrun => feeds::is_overrun(transcript),
        Left::Fed => feeds::is_fed(transcript),
        Left::Answers => long::are_answered(transcript),
        Left::Writes(writes) => order::is_written(transcript, writes),
    }
}

/// Whether these streams have that many entries.
fn have_entries(transcript: &Transcript<Kind>, rows: &[(usize, usize)]) -> bool {
    let mut are_so = true;
    for (number, entries) in rows {
        are_so &= has_entries(transcript, *number, *entries);
    }
    are_so
}

fn has_entries(transcript: &Transcript<Kind>, number: usize, entries: usize) -> bool {
    match transcript.streams.get(number) {
        Some(log) => log.history.len() == entries,
        None => false,
    }
}

/// Whether a run was not refused, and has this result.
fn leaves(ran: Result<Transcript<Kind>, RunFault>, left: Left<'_>) -> bool {
    match ran {
        Ok(transcript) => {
            let is_so = is_left(&transcript, left);
            drop(transcript);
            is_so
        }
        Err(_) => false,
    }
}

/// The streams, feeds and workers of a run, and the expected result.
#[derive(Clone, Copy, Drop)]
struct Run<'a> {
    setups: &'a [Setup],
    feeds: &'a [Fed],
    workers: u32,
    left: Left<'a>,
}

/// Plays scripts of these rows, and returns whether the run has the expected result.
fn plays<G: Gate, R: Abort + Threads + Wait + Sync>(
    rt: &R,
    alloc: Global,
    scripts: &[&[Row]],
    played: Run<'_>,
    gate: &G,
) -> bool {
    let scripts: Vec<Script<BoxedModule<Plain>>> = scripts_of(rt, alloc, scripts);
    let ran = run_of(
        rt,
        alloc,
        played.setups,
        scripts,
        played.feeds,
        played.workers,
        gate,
    );
    leaves(ran, played.left)
}
