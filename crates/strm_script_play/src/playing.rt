//! The playing of scripts and of plans.
ghost use Rattle.std.specs.Prelude.{◌≡◌, ◌<◌, true, length, IfOk, IfErr, IsErrOf};
ghost use Rattle.strm_run_callers.specs.Run.{CallsFit};
ghost use Rattle.strm_run_input.specs.Resolve.{is_worker_count};
ghost use Rattle.strm_script_parse.specs.Plan.{plan_view};
ghost use Rattle.strm_script_parse.specs.Sound.{IsSound};
ghost use Rattle.strm_script_parse.specs.Spelling.{too_long};
ghost use Rattle.strm_script_parse.specs.declared.parsing.TheConstants.{LONGEST_SCRIPT};
ghost use Rattle.strm_script_play.specs.Played.{IsPlayed, IsPlayedPlan, IsFaultOf, may_have};

use std::alloc::Global;
use std::sync::Wait;
use std::thread::Threads;
use strm_module::{BoxedModule, Kind, ModuleOf};
use strm_run::{Gate, Order, RunFault, Transcript, run, run_in_order};
use strm_run_input::is_worker_count;
use strm_script_parse::{
    Names, Plan, PlayFault, PlayModule, ReadKind, Replies, RunInput, into_run_input, parse_parallel,
};
use strm_shared_log::SameKind;

/// The outcome of a script that was played.
#[derive(Drop)]
pub struct Outcome<K = Kind> {
    /// The names of its streams and processes, and its links.
    pub names: Names,
    /// The log of each stream.
    pub transcript: Transcript<K>,
    /// The replies that are expected of the calls of each process, in order.
    pub expected: Vec<Replies>,
}

/// A gate at which nobody waits.
struct Open;

impl Gate for Open {
    fn before(&self, _: u32, _: u64) {}

    fn after(&self, _: u32, _: u64) {}
}

/// Plays a plan that was read with `parse`, as `play` plays a script. So the text need not be kept meanwhile.
///
/// Refused as a run is: with `Workers` exactly if their number is not from 1 to `MOST_WORKERS`, unless memory
/// runs out before; never with `NoSuch`.
pub fn play_plan<M: ModuleOf, R: Threads + Wait + Sync>(
    rt: &R,
    alloc: Global,
    plan: Plan<BoxedModule<M>>,
    workers: u32,
) -> Result<Outcome<M::Kind>, RunFault>
where
    M::Kind: SameKind + Send + Sync,
    requires fits { CallsFit M.row M.Kind.row M.Kind.Kinds }
    requires sound { IsSound (plan_view plan) }
    ensures played { IfOk result (λ outcome. IsPlayedPlan M.Kind.means plan outcome) }
    ensures workers { IfOk result (λ _. is_worker_count workers ≡ true) }
    ensures fault { IfErr result (λ fault. may_have workers fault ≡ true) }
{
    let RunInput {
        names,
        setups,
        scripts,
        feeds,
        links,
        expected,
    } = into_run_input(alloc, plan)?;
    let transcript = run(rt, alloc, setups, scripts, feeds, links, workers, &Open)?;
    Ok(Outcome {
        names,
        transcript,
        expected,
    })
}

/// Plays a plan that was read with `parse` in the calling thread alone, step by step in an order
/// (`run_in_order`).
///
/// Refused as a run is: when memory runs out, with `Unfinished` and with `NoReceipt`; never with `Workers` or
/// `NoSuch`.
pub fn play_plan_in_order<M: ModuleOf, R: Threads + Wait + Sync, O: Order>(
    rt: &R,
    alloc: Global,
    plan: Plan<BoxedModule<M>>,
    order: &mut O,
) -> Result<Outcome<M::Kind>, RunFault>
where
    M::Kind: SameKind + Send + Sync,
    requires fits { CallsFit M.row M.Kind.row M.Kind.Kinds }
    requires sound { IsSound (plan_view plan) }
    ensures played { IfOk result (λ outcome. IsPlayedPlan M.Kind.means plan outcome) }
    ensures fault { IfErr result (λ fault. may_have 1 fault ≡ true) }
{
    let RunInput {
        names,
        setups,
        scripts,
        feeds,
        links,
        expected,
    } = into_run_input(alloc, plan)?;
    let transcript = run_in_order(rt, alloc, setups, scripts, feeds, links, order, &Open)?;
    Ok(Outcome {
        names,
        transcript,
        expected,
    })
}

/// The number of threads that read a script: that of the workers, if a run may have that many, else one.
fn readers(workers: u32) -> usize
    ensures { 0 < result }
{
    if is_worker_count(workers) {
        workers as usize
    } else {
        1
    }
}

/// Plays a script with as many workers as are asked for, 1 to `MOST_WORKERS`. Its streams are opened, the
/// calls of its processes are made on them, and its feeds come in at the same time. Returns when all threads
/// have ended.
///
/// The modules are of type `M`, and of the kinds for which its vocabulary has words. `play::<Plain, _>` plays
/// the scripts of `strsh`. A program plays scripts with kinds of its own by a type of its own.
///
/// Refused with `Script` and the first fault, if the text is no script. Otherwise refused with `Run`: when
/// memory runs out before the run, and then as a run is, with `Workers` exactly if their number is not from 1
/// to `MOST_WORKERS`. Never refused with `NoSuch`, since a script names no stream and no end that it has not
/// declared.
pub fn play<M: PlayModule, R: Threads + Wait + Sync>(
    rt: &R,
    alloc: Global,
    bytes: &[u8],
    workers: u32,
) -> Result<Outcome<M::Kind>, PlayFault>
where
    M::Kind: ReadKind + SameKind + Send + Sync,
    requires fits { CallsFit M.row M.Kind.row M.Kind.Kinds }
    ensures played { IfOk result (λ outcome. IsPlayed M.Kind.means M.Kind.words bytes.now outcome) }
    ensures workers { IfOk result (λ _. is_worker_count workers ≡ true) }
    ensures fault { IfErr result (λ fault. IsFaultOf M.Kind.words bytes.now workers fault) }
    ensures length { LONGEST_SCRIPT < length bytes.now → IsErrOf result (PlayFault.Script too_long) }
{
    let plan = parse_parallel::<M, R>(rt, alloc, bytes, readers(workers))?;
    Ok(play_plan::<M, R>(rt, alloc, plan, workers)?)
}
