//! The cost of reading, playing and printing a script, and facts that its transcript does not show.
ghost use Rattle.std.specs.Prelude.{◌<◌, IfOk};

use std::alloc::Global;
use std::fs;
use std::rt::{Clock, Files};
use std::sync::Wait;
use std::thread::Threads;
use std::time::Instant;
use strm_module::{Kind, Plain};
use strm_script::{LoadFault, Outcome, load, parse_parallel, play, print_parallel};
use strm_shared_log::Transcript;

/// The bytes of the script at a path.
pub fn script<R: Files>(rt: &R, alloc: Global, path: &str) -> Result<Vec<u8>, LoadFault> {
    load(alloc, fs::open(rt, path)?)
}

/// The milliseconds that it takes to read a script, in as many threads as there are workers.
fn time_to_read<R: Clock + Threads + Sync>(
    rt: &R,
    alloc: Global,
    bytes: &[u8],
    workers: u32,
) -> anyhow::Result<u128>
    requires { 0 < workers }
{
    let start = Instant::now(rt)?;
    let plan = parse_parallel::<Plain, R>(rt, alloc, bytes, workers as usize)?;
    let read = start.elapsed(rt);
    drop(plan);
    Ok(read?.as_millis())
}

/// The milliseconds that it takes to print a transcript, in as many threads as there were workers, and to
/// drop it.
fn time_to_print<R: Clock + Threads + Sync>(
    rt: &R,
    alloc: Global,
    outcome: Outcome,
    workers: u32,
) -> anyhow::Result<u128>
    requires { 0 < workers }
{
    let Outcome {
        names,
        mut transcript,
        expected: _,
    } = outcome;
    let start = Instant::now(rt)?;
    let mut text = Vec::new(alloc);
    print_parallel(
        rt,
        alloc,
        &mut transcript,
        &names,
        workers as usize,
        &mut text,
    )?;
    drop(transcript);
    Ok(start.elapsed(rt)?.as_millis())
}

/// The milliseconds that it takes to play a script, and those that it takes to print its transcript and to
/// drop it.
fn time_to_play<R: Clock + Threads + Wait + Sync>(
    rt: &R,
    alloc: Global,
    bytes: &[u8],
    workers: u32,
) -> anyhow::Result<(u128, u128)>
    ensures { IfOk result (λ _. 0 < workers) }
{
    let start = Instant::now(rt)?;
    let outcome = play::<Plain, R>(rt, alloc, bytes, workers)?;
    let played = start.elapsed(rt);
    let printed = time_to_print(rt, alloc, outcome, workers)?;
    Ok((played?.as_millis(), printed))
}

/// Reads, plays and prints a script, and prints the time of each, in milliseconds.
pub fn measure<R: Files + Print + Clock + Threads + Wait + AllocGlobal + Sync>(
    rt: &R,
    path: &str,
    workers: u32,
) -> anyhow::Result<()> {
    let alloc: Global = rt.alloc();
    let bytes = script(rt, alloc, path)?;
    let (played, printed) = time_to_play(rt, alloc, bytes.as_slice(), workers)?;
    let read = time_to_read(rt, alloc, bytes.as_slice(), workers)?;
    let played = played.saturating_sub(read);
    println!(rt; "{path}, {} bytes, {workers} workers:", bytes.len())?;
    println!(rt; "read {read} ms, played {played} ms, printed {printed} ms")?;
    Ok(())
}

/// Prints a line for each event: the number of queues that moved after it, and of places at which service
/// looked.
fn tell_moves(rt: &impl Print, transcript: &Transcript<Kind>) -> anyhow::Result<()> {
    for log in &transcript.streams {
        for kept in &log.history {
            let entry = kept.entry();
            println!(rt; "{} {}", entry.moves().len(), entry.looks())?;
        }
    }
    Ok(())
}

/// Plays a script with one worker, and prints a line for each event, stream by stream and in order: the
/// number of queues that moved after it, and of places at which service looked.
pub fn moves<R: Files + Print + Threads + Wait + AllocGlobal + Sync>(
    rt: &R,
    path: &str,
) -> anyhow::Result<()> {
    let alloc: Global = rt.alloc();
    let bytes = script(rt, alloc, path)?;
    let outcome = play::<Plain, R>(rt, alloc, bytes.as_slice(), 1)?;
    tell_moves(rt, &outcome.transcript)
}
