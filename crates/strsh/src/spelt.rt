//! The playing of a script by steps that are spelt.
ghost use Rattle.std.specs.Prelude.{◌<◌};

use crate::lanes::lanes_of;
use crate::orders::no_memory;
use crate::playing::{print_outcome, script, shown_name};
use crate::refusal::Refusal;
use std::alloc::Global;
use std::rt::Files;
use std::sync::Wait;
use std::thread::Threads;
use strm_module::{BoxedModule, Plain};
use strm_script::{Plan, parse_made, play_plan_in_order};
use strm_script_orders::{ListedOrder, spelt_order};
use strsh_options::{Fault, Options};

/// The order of a script, whose plan this is, that a text spells. Refused if it spells no order of the
/// script.
fn order_of(
    alloc: Global,
    plan: Plan<BoxedModule<Plain>>,
    steps: &str,
) -> Result<ListedOrder, Fault> {
    let mut lanes = lanes_of(alloc, plan).map_err(no_memory)?;
    Ok(spelt_order(alloc, &mut lanes, steps.as_bytes())?)
}

/// Plays a script, whose plan this is, by these steps, and prints the outcome. Returns the exit status.
fn play_steps<R: Print + Threads + Wait + Sync>(
    rt: &R,
    alloc: Global,
    bytes: &[u8],
    plan: Plan<BoxedModule<Plain>>,
    steps: &str,
    options: &Options,
) -> Result<u8, Fault>
    requires { 0 < options.now.workers }
{
    let mut order = order_of(alloc, plan, steps)?;
    let plan = parse_made::<Plain>(alloc, bytes)?;
    let outcome = play_plan_in_order::<Plain, R, ListedOrder>(rt, alloc, plan, &mut order)?;
    print_outcome(rt, alloc, outcome, options)
}

/// Plays the script at a path by these steps, and prints the outcome. Returns the exit status. The fault of a
/// script is explained; steps that are no order of the script are refused.
pub(crate) fn play_spelt<R: Files + Input + Print + Threads + Wait + Sync>(
    rt: &R,
    alloc: Global,
    path: &str,
    steps: &str,
    options: &Options,
) -> Result<u8, Refusal>
    requires { 0 < options.now.workers }
{
    let bytes = script(rt, alloc, path).map_err(Fault::from)?;
    match parse_made::<Plain>(alloc, bytes.as_slice()) {
        Ok(plan) => Ok(play_steps(rt, alloc, bytes.as_slice(), plan, steps, options)?),
        Err(fault) => Err(Refusal::of_script(alloc, shown_name(path), bytes.as_slice(), fault)),
    }
}
