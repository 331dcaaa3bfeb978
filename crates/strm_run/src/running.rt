//! A run.
ghost use Rattle.std.specs.Prelude.{◌≡◌, ◌↔◌, ◌<◌, ◌^◌, ℕ, true, false, None, Some, length, get_or, map, All, IfOk, IfErr, IsErrOf};
ghost use Rattle.strm_shared_entry.specs.Own.{own};
ghost use Rattle.strm_shared_entry.specs.Entry.{asked_of};
ghost use Rattle.strm_run_input.specs.Scripts.{calls_on, script_of, feed_of, link_to};
ghost use Rattle.strm_run_input.specs.Resolve.{is_worker_count, is_setup, AreFromLine, NamesResolve};
ghost use Rattle.strm_run_callers.specs.Run.{CallsFit};
ghost use Rattle.strm_run_callers.specs.Transcript.{carried_on, AreLogs, IsFed, IsLegal};
ghost use Rattle.strm_run_callers.specs.Play.{CallsDoFit};
ghost use Rattle.strm_run.specs.Inside.Ending.{IsLate};
ghost use Rattle.strm_run.specs.Inside.Opening.{IsInput};

use crate::cast::{Cast, open_run};
use crate::ending::finish;
use crate::opening::rings_of;
use crate::steps::play_in_order;
use crate::threads::play_out;
use std::alloc::Global;
use std::marker::Brand;
use std::sync::Wait;
use std::thread::Threads;
use strm_module::{BoxedModule, ModuleOf};
use strm_run_callers::{Gate, RunName, deal};
use strm_run_input::{Feed, Order, RunFault, RunLink, Script, is_worker_count, names_resolve};
use strm_shared::Ring;
use strm_shared_log::{SameKind, Setup, Transcript};

/// Plays a run of which all is there, under its name.
fn run_named<M: ModuleOf, N: RunName<M::Kind> + Send + Sync, R: Threads + Wait + Sync, G: Gate>(
    rt: &R,
    alloc: Global,
    setups: Vec<Setup>,
    scripts: Vec<Script<BoxedModule<M>>>,
    feeds: Vec<Feed>,
    links: Vec<RunLink>,
    rings: Vec<Ring>,
    workers: u32,
    gate: &G,
) -> Result<Transcript<M::Kind>, RunFault>
where
    M::Kind: SameKind + Send + Sync,
    requires fits { CallsDoFit M.row M.Kind.row M.Kind.Kinds }
    requires input { IsInput N.run N.rings setups.items scripts.items feeds.items links.items rings.items }
    requires crew { is_worker_count workers ≡ true }
    ensures logs { IfOk result (λ transcript. AreLogs M.Kind.means N.run transcript.streams.items) }
    ensures late { IfErr result (λ fault. IsLate fault) }
{
    let many = setups.len();
    let Cast {
        streams,
        players,
        feedings,
    } = open_run::<M, N>(alloc, setups, scripts, feeds, links, rings)?;
    let crews = deal(alloc, players, workers)?;
    let (played, offered) = play_out(rt, alloc, &streams, crews, feedings, gate)?;
    finish(rt, alloc, streams, played, offered, many, workers as usize)
}

/// Plays a run of which all is there, under its name, in an order.
fn run_named_in_order<
    M: ModuleOf,
    N: RunName<M::Kind> + Send + Sync,
    R: Threads + Wait + Sync,
    O: Order,
    G: Gate,
>(
    rt: &R,
    alloc: Global,
    setups: Vec<Setup>,
    scripts: Vec<Script<BoxedModule<M>>>,
    feeds: Vec<Feed>,
    links: Vec<RunLink>,
    rings: Vec<Ring>,
    order: &mut O,
    gate: &G,
) -> Result<Transcript<M::Kind>, RunFault>
where
    M::Kind: SameKind + Send + Sync,
    requires fits { CallsDoFit M.row M.Kind.row M.Kind.Kinds }
    requires input { IsInput N.run N.rings setups.items scripts.items feeds.items links.items rings.items }
    ensures logs { IfOk result (λ transcript. AreLogs M.Kind.means N.run transcript.streams.items) }
    ensures late { IfErr result (λ fault. IsLate fault) }
{
    let many = setups.len();
    let Cast {
        streams,
        players,
        feedings,
    } = open_run::<M, N>(alloc, setups, scripts, feeds, links, rings)?;
    let (played, offered) = play_in_order(rt, alloc, &streams, players, feedings, order, gate)?;
    finish(rt, alloc, streams, played, offered, many, 1)
}

/// Plays scripts on streams that all callers share, and returns the log of each stream.
///
/// Streams are numbered from 0 in the order of their setups, callers in that of their scripts. Caller `i` is
/// played by worker `i` modulo `workers`, and the callers of a worker one after another. Each worker that has
/// a caller is a thread of its own, or, where it is the only one, the thread that calls. Each feed has a
/// thread of its own too, which is started before the workers and offers each message once. All that a caller
/// takes of a wire from which it carries goes over that link, and it offers what the link passes on at once:
/// after the call, outside of the lock. Round each call the gate is called. Modules that come back from a call are dropped after it, outside of the lock. When all
/// have played, the streams are ended in at most as many threads as there are workers.
///
/// To be called with setups of which each can be made (`can_open_all`), with messages that come from lines
/// (`are_from_line`), and with fewer than 2^32 of streams and of scripts. The outcome of a call must fit into
/// memory for its modules and kinds, as it does for each type that can be compiled. It returns when all
/// threads have ended; a module or a gate that waits for ever keeps it.
///
/// Refused, in this order: with `Workers` exactly where there are not 1 to 64 workers; with `NoSuch` exactly
/// where a call is on a stream or an end that is not there, a feed is for no line or for one that has another,
/// or a link cannot be made (`links_resolve`). Both are looked for before anything is made. Then, over all streams, with `NoMem` when memory
/// runs out or no thread can be started; else with `Unfinished` where some stream did not end; and else with
/// `NoReceipt`, where a call has no receipt or one that its stream's history does not hold. Then all modules
/// are dropped.
pub fn run<M: ModuleOf, R: Threads + Wait + Sync, G: Gate>(
    rt: &R,
    alloc: Global,
    setups: Vec<Setup>,
    scripts: Vec<Script<BoxedModule<M>>>,
    feeds: Vec<Feed>,
    links: Vec<RunLink>,
    workers: u32,
    gate: &G,
) -> Result<Transcript<M::Kind>, RunFault>
where
    M::Kind: SameKind + Send + Sync,
    requires fits { CallsFit M.row M.Kind.row M.Kind.Kinds }
    requires few { (length setups.items < 2 ^ 32) × (length scripts.items < 2 ^ 32) }
    requires setups { All (λ setup. is_setup setup ≡ true) setups.items }
    requires feeds { AreFromLine feeds.items }
    ensures workers { IsErrOf result RunFault.Workers ↔ (is_worker_count workers ≡ false) }
    ensures no_such { IsErrOf result RunFault.NoSuch ↔ ((is_worker_count workers ≡ true) × (NamesResolve setups.items scripts.items feeds.items links.items → ⊥)) }
    ensures many { IfOk result (λ transcript. length transcript.streams.items ≡ length setups.items) }
    ensures legal { IfOk result (λ transcript. (k : ℕ) (setup : _) (log : _) → k < length setups.items → IsLegal M.Kind.means (get_or setups.items k setup) (get_or transcript.streams.items k log)) }
    ensures calls { IfOk result (λ transcript. (k caller : ℕ) (log : _) → k < length setups.items → map asked_of (own caller (get_or transcript.streams.items k log).history.items) ≡ calls_on k (script_of scripts.items caller)) }
    ensures arrivals { IfOk result (λ transcript. (k : ℕ) (log : _) → k < length setups.items → link_to links.items k ≡ None → IsFed (feed_of feeds.items k) (get_or transcript.streams.items k log)) }
    ensures links { IfOk result (λ transcript. (k : ℕ) (link : _) (log : _) → k < length setups.items → link_to links.items k ≡ Some link → IsFed (carried_on link transcript.streams.items) (get_or transcript.streams.items k log)) }
{
    if !is_worker_count(workers) {
        return Err(RunFault::Workers);
    }
    if !names_resolve(
        setups.as_slice(),
        scripts.as_slice(),
        feeds.as_slice(),
        links.as_slice(),
    ) {
        return Err(RunFault::NoSuch);
    }
    let rings = rings_of(alloc, setups.as_slice())?;
    run_named::<M, Brand, R, G>(
        rt, alloc, setups, scripts, feeds, links, rings, workers, gate,
    )
}

/// Plays scripts as `run` does, but in the calling thread alone, one step after another: a call of a caller,
/// or the offer of one message of a feed. `order` chooses who makes the next step.
///
/// Those that may go next are counted from 0: first the callers that have a call left, in order, and then the
/// feeds that have a message left, in order of their streams. A caller that awaits a feed is left out until
/// the feed was offered.
///
/// To be called as `run` is. Refused as `run` is, but for `Workers`, which is never the fault.
pub fn run_in_order<M: ModuleOf, R: Threads + Wait + Sync, O: Order, G: Gate>(
    rt: &R,
    alloc: Global,
    setups: Vec<Setup>,
    scripts: Vec<Script<BoxedModule<M>>>,
    feeds: Vec<Feed>,
    links: Vec<RunLink>,
    order: &mut O,
    gate: &G,
) -> Result<Transcript<M::Kind>, RunFault>
where
    M::Kind: SameKind + Send + Sync,
    requires fits { CallsFit M.row M.Kind.row M.Kind.Kinds }
    requires few { (length setups.items < 2 ^ 32) × (length scripts.items < 2 ^ 32) }
    requires setups { All (λ setup. is_setup setup ≡ true) setups.items }
    requires feeds { AreFromLine feeds.items }
    ensures workers { IsErrOf result RunFault.Workers → ⊥ }
    ensures no_such { IsErrOf result RunFault.NoSuch ↔ (NamesResolve setups.items scripts.items feeds.items links.items → ⊥) }
    ensures many { IfOk result (λ transcript. length transcript.streams.items ≡ length setups.items) }
    ensures legal { IfOk result (λ transcript. (k : ℕ) (setup : _) (log : _) → k < length setups.items → IsLegal M.Kind.means (get_or setups.items k setup) (get_or transcript.streams.items k log)) }
    ensures calls { IfOk result (λ transcript. (k caller : ℕ) (log : _) → k < length setups.items → map asked_of (own caller (get_or transcript.streams.items k log).history.items) ≡ calls_on k (script_of scripts.items caller)) }
    ensures arrivals { IfOk result (λ transcript. (k : ℕ) (log : _) → k < length setups.items → link_to links.items k ≡ None → IsFed (feed_of feeds.items k) (get_or transcript.streams.items k log)) }
    ensures links { IfOk result (λ transcript. (k : ℕ) (link : _) (log : _) → k < length setups.items → link_to links.items k ≡ Some link → IsFed (carried_on link transcript.streams.items) (get_or transcript.streams.items k log)) }
{
    if !names_resolve(
        setups.as_slice(),
        scripts.as_slice(),
        feeds.as_slice(),
        links.as_slice(),
    ) {
        return Err(RunFault::NoSuch);
    }
    let rings = rings_of(alloc, setups.as_slice())?;
    run_named_in_order::<M, Brand, R, O, G>(
        rt, alloc, setups, scripts, feeds, links, rings, order, gate,
    )
}
