//! The threads of a run.
ghost use Rattle.strm_run_callers.specs.Play.{CallsDoFit};

use std::alloc::Global;
use std::sync::Wait;
use std::thread::Threads;
use strm_module::ModuleOf;
use strm_msg::NoMem;
use strm_run_callers::{
    Feeding, Gate, Offered, OfferedFeeds, Played, Player, RunName, Streams, play_each,
};
use strm_run_threads::run_alongside;

/// The scripts of the only worker that has some, or those of each that has some, where they are several.
fn with_scripts<P: Drop>(
    alloc: Global,
    crews: Vec<Vec<P>>,
) -> Result<(Vec<P>, Vec<Vec<P>>), NoMem> {
    let mut busy = Vec::new(alloc);
    for crew in crews {
        if !crew.is_empty() {
            busy.push(crew)?;
        }
    }
    if busy.len() > 1 {
        return Ok((Vec::new(alloc), busy));
    }
    let alone = busy.pop().unwrap_or(Vec::new(alloc));
    Ok((alone, busy))
}

/// The results of workers, one behind the other; out of memory, where one of them met it.
fn joined<T: Drop>(
    first: Result<Vec<T>, NoMem>,
    others: Vec<Result<Vec<T>, NoMem>>,
) -> Result<Vec<T>, NoMem> {
    let mut all = first?;
    for other in others {
        all.append(&mut other?)?;
    }
    Ok(all)
}

/// Plays the scripts of each worker that has some in a thread of its own, or here, if it is the only one.
fn play_all<M: ModuleOf, N: RunName<M::Kind> + Send + Sync, R: Threads + Wait + Sync, G: Gate>(
    rt: &R,
    alloc: Global,
    streams: &Streams<M, N>,
    crews: Vec<Vec<Player<M, N>>>,
    gate: &G,
) -> Result<Vec<Played<M::Kind, N>>, NoMem>
where
    M::Kind: Send + Sync,
    requires { CallsDoFit M.row M.Kind.row M.Kind.Kinds }
{
    let (alone, several) = with_scripts(alloc, crews)?;
    let (left, mine) = run_alongside(
        rt,
        alloc,
        several,
        &|crew: Vec<Player<M, N>>| -> Result<Vec<Played<M::Kind, N>>, NoMem>
            requires { CallsDoFit M.row M.Kind.row M.Kind.Kinds }
        { play_each(rt, alloc, streams, crew, gate) },
        || -> Result<Vec<Played<M::Kind, N>>, NoMem>
            requires { CallsDoFit M.row M.Kind.row M.Kind.Kinds }
        { play_each(rt, alloc, streams, alone, gate) },
    )?;
    joined(mine, left)
}

/// Adds the result of a feeder to those of others.
pub(crate) fn keep<T: Drop>(all: &mut Vec<T>, one: Option<T>) -> Result<(), NoMem> {
    if let Some(one) = one {
        all.push(one)?;
    }
    Ok(())
}

/// The feeders that have messages, and apart from them the feeds of those that have none.
fn with_messages<K: Drop, N: RunName<K>, R: Wait>(
    rt: &R,
    alloc: Global,
    feeds: &OfferedFeeds,
    feedings: Vec<Feeding<K, N>>,
) -> Result<(Vec<Feeding<K, N>>, Vec<Offered<K, N>>), NoMem> {
    let mut feeders = Vec::new(alloc);
    let mut offered = Vec::new(alloc);
    for feeding in feedings {
        if feeding.is_empty() {
            keep(&mut offered, feeding.offer(rt, feeds))?;
        } else {
            feeders.push(feeding)?;
        }
    }
    Ok((feeders, offered))
}

/// Plays scripts while each feeder that has messages offers them in a thread of its own, and waits for all.
pub(crate) fn play_out<
    M: ModuleOf,
    N: RunName<M::Kind> + Send + Sync,
    R: Threads + Wait + Sync,
    G: Gate,
>(
    rt: &R,
    alloc: Global,
    streams: &Streams<M, N>,
    crews: Vec<Vec<Player<M, N>>>,
    feedings: Vec<Feeding<M::Kind, N>>,
    gate: &G,
) -> Result<(Vec<Played<M::Kind, N>>, Vec<Offered<M::Kind, N>>), NoMem>
where
    M::Kind: Send + Sync,
    requires { CallsDoFit M.row M.Kind.row M.Kind.Kinds }
{
    let feeds = streams.offered();
    let (feeders, mut offered) = with_messages(rt, alloc, feeds, feedings)?;
    let (left, played) = run_alongside(
        rt,
        alloc,
        feeders,
        &|feeding: Feeding<M::Kind, N>| feeding.offer(rt, feeds),
        || -> Result<Vec<Played<M::Kind, N>>, NoMem>
            requires { CallsDoFit M.row M.Kind.row M.Kind.Kinds }
        { play_all(rt, alloc, streams, crews, gate) },
    )?;
    for one in left {
        keep(&mut offered, one)?;
    }
    Ok((played?, offered))
}
