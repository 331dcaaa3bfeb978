//! A run that one thread plays step by step, in an order.
ghost use Rattle.std.specs.Prelude.{◌≡◌, ◌+◌, ◌<◌, ◌^◌, All, IfOk, OnOk, length, map};
ghost use Rattle.strm_run_callers.specs.Play.{CallsDoFit};
ghost use Rattle.strm_run_callers.specs.Steps.{caller_of};

use crate::threads::keep;
use std::alloc::Global;
use std::sync::Wait;
use strm_module::ModuleOf;
use strm_msg::NoMem;
use strm_run_callers::{
    Feeding, Gate, Offered, OfferedFeeds, Played, Player, RunName, Stepped, Streams,
};
use strm_run_input::Order;

/// The callers of a run before their first step. Fails only when memory runs out.
fn begun<M: ModuleOf, N: RunName<M::Kind>>(
    alloc: Global,
    players: Vec<Player<M, N>>,
) -> Result<Vec<Stepped<M, N>>, NoMem>
    ensures { IfOk result (λ callers. map caller_of callers.items ≡ players.items) }
{
    let mut callers = Vec::new(alloc);
    for player in players {
        callers.push(player.begin())?;
    }
    Ok(callers)
}

/// The number of calls that are left to callers, at most 2^64 - 1.
fn calls_left<M: ModuleOf, N: RunName<M::Kind>>(callers: &[Stepped<M, N>]) -> u64 {
    let mut left: u64 = 0;
    for caller in callers {
        left = left.saturating_add(caller.calls_left() as u64);
    }
    left
}

/// The number of messages that are left to feeders, at most 2^64 - 1.
fn messages_left<K, N: RunName<K>>(feeders: &[Feeding<K, N>]) -> u64 {
    let mut left: u64 = 0;
    for feeder in feeders {
        left = left.saturating_add(feeder.len() as u64);
    }
    left
}

/// Lists the places of the callers that may go next. Fails only when memory runs out.
fn list_callers<M: ModuleOf, N: RunName<M::Kind>, R: Wait>(
    rt: &R,
    feeds: &OfferedFeeds,
    callers: &[Stepped<M, N>],
    ready: &mut Vec<usize>,
) -> Result<(), NoMem>
    ensures { OnOk result (All (λ turn. turn < length callers.now) ready.new.items) }
{
    ready.clear();
    for at in 0..callers.len() {
        if callers[at].may_go(rt, feeds) {
            ready.push(at)?;
        }
    }
    Ok(())
}

/// Lists the places of the feeders that have a message left, counted on from this number, behind those that
/// are listed. Fails only when memory runs out.
fn list_feeders<K, N: RunName<K>>(
    first: usize,
    feeders: &[Feeding<K, N>],
    ready: &mut Vec<usize>,
) -> Result<(), NoMem>
    requires few { first + length feeders.now < 2 ^ 64 }
    requires listed { All (λ turn. turn < first) ready.old.items }
    ensures { OnOk result (All (λ turn. turn < first + length feeders.now) ready.new.items) }
{
    for at in 0..feeders.len() {
        if !feeders[at].is_empty() {
            ready.push(first + at)?;
        }
    }
    Ok(())
}

/// Lets the caller at this place make a step. Fails only when memory runs out.
fn step_caller<M: ModuleOf, N: RunName<M::Kind>, R: Wait, G: Gate>(
    rt: &R,
    streams: &Streams<M, N>,
    callers: &mut Vec<Stepped<M, N>>,
    at: usize,
    gate: &G,
) -> Result<(), NoMem>
    requires fits { CallsDoFit M.row M.Kind.row M.Kind.Kinds }
    requires there { at < length callers.old.items }
    ensures { OnOk result (map caller_of callers.new.items ≡ map caller_of callers.old.items) }
{
    let after = callers.remove(at).step(rt, streams, gate)?;
    callers.insert(at, after)?;
    Ok(())
}

/// Lets a feeder offer its next message, and notes it where that was the last one.
fn step_feeder<K, N: RunName<K>, R: Wait>(
    rt: &R,
    feeds: &OfferedFeeds,
    feeder: &mut Feeding<K, N>,
) {
    feeder.step();
    if feeder.is_empty() {
        feeds.note(rt, feeder.number());
    }
}

/// The results of callers, which play what is left to them. Fails only when memory runs out.
fn played<M: ModuleOf, N: RunName<M::Kind>, R: Wait, G: Gate>(
    rt: &R,
    alloc: Global,
    streams: &Streams<M, N>,
    callers: Vec<Stepped<M, N>>,
    gate: &G,
) -> Result<Vec<Played<M::Kind, N>>, NoMem>
    requires { CallsDoFit M.row M.Kind.row M.Kind.Kinds }
    ensures { IfOk result (λ all. all.items ≡ map caller_of callers.items) }
{
    let mut all = Vec::new(alloc);
    for caller in callers {
        all.push(caller.play(rt, streams, gate)?)?;
    }
    Ok(all)
}

/// The feeds of feeders, which offer what is left to them. Fails only when memory runs out.
fn offered<K: Drop, N: RunName<K>, R: Wait>(
    rt: &R,
    alloc: Global,
    feeds: &OfferedFeeds,
    feeders: Vec<Feeding<K, N>>,
) -> Result<Vec<Offered<K, N>>, NoMem> {
    let mut all = Vec::new(alloc);
    for feeder in feeders {
        keep(&mut all, feeder.offer(rt, feeds))?;
    }
    Ok(all)
}

/// Plays scripts and offers feeds in this thread alone, step by step, until none is left.
pub(crate) fn play_in_order<M: ModuleOf, N: RunName<M::Kind>, R: Wait, O: Order, G: Gate>(
    rt: &R,
    alloc: Global,
    streams: &Streams<M, N>,
    players: Vec<Player<M, N>>,
    mut feeders: Vec<Feeding<M::Kind, N>>,
    order: &mut O,
    gate: &G,
) -> Result<(Vec<Played<M::Kind, N>>, Vec<Offered<M::Kind, N>>), NoMem>
    requires { CallsDoFit M.row M.Kind.row M.Kind.Kinds }
    ensures { IfOk result (λ out. out.0.items ≡ players.items) }
{
    let feeds = streams.offered();
    let mut callers = begun(alloc, players)?;
    let steps = calls_left(callers.as_slice()).saturating_add(messages_left(feeders.as_slice()));
    let mut ready = Vec::new(alloc);
    for _ in 0..steps {
        list_callers(rt, feeds, callers.as_slice(), &mut ready)?;
        list_feeders(callers.len(), feeders.as_slice(), &mut ready)?;
        if ready.is_empty() {
            break;
        }
        let turn = ready[order.next(ready.len())];
        match turn.checked_sub(callers.len()) {
            None => step_caller(rt, streams, &mut callers, turn, gate)?,
            Some(at) => step_feeder(rt, feeds, &mut feeders[at]),
        }
    }
    let played = played(rt, alloc, streams, callers, gate)?;
    let offered = offered(rt, alloc, feeds, feeders)?;
    Ok((played, offered))
}
