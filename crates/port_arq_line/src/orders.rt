//! A longer exchange, in many orders of its calls.
ghost use Rattle.strm_run_callers.specs.Run.{CallsFit};

use crate::reading::read_in;
use port_arq_module::ByShape;
use std::alloc::Global;
use std::sync::Wait;
use std::thread::Threads;
use strm_head_calls::SameKind;
use strm_script::{PlayModule, ReadKind, parse_made, play_plan_in_order};
use strm_script_orders::DrawnOrder;

/// The number of orders.
const ORDERS: u64 = 1_000;

/// How often each process makes the calls of its round. In each of the orders the messages have arrived after
/// half of the rounds.
const ROUNDS: usize = 150;

/// Two hosts with a wire each, and a link each way. Of 256 frames a link loses 64, doubles 32 and holds 64
/// behind the next one.
const HOSTS: &str = "\
stream near wire 64/16 64/16 8
stream far wire 64/16 64/16 8
link out near far seed 5 64 32 64
link back far near seed 8 64 32 64
";

/// The process of the near host. It is the carrier of what comes in, so that nothing comes before its module
/// is there.
const NEAR: &str = "\
process near
push near:a arq end - 64/16 3 4
write near:a =a
write near:a =b
write near:a =c
write near:a =d
write near:a =e
write near:a =f
write near:a =g
write near:a =h
";

const NEAR_ROUND: &str = "\
carry back
read near:a 64
";

/// The process of the far host.
const FAR: &str = "\
process far
push far:a arq end - 64/16 3 4
write far:a =A
write far:a =B
write far:a =C
write far:a =D
write far:a =E
write far:a =F
write far:a =G
write far:a =H
";

const FAR_ROUND: &str = "\
carry out
read far:a 64
";

/// The process by which time passes.
const CLOCK: &str = "\
process clock
";

const CLOCK_ROUND: &str = "\
tick near:a 1
tick far:a 1
";

/// All that is written at the near host, and at the far one.
const FROM_NEAR: &[u8] = b"abcdefgh";

const FROM_FAR: &[u8] = b"ABCDEFGH";

/// The script of the exchange.
fn exchange(alloc: Global) -> Option<String> {
    let near = NEAR_ROUND.repeat(alloc, ROUNDS).ok()?;
    let far = FAR_ROUND.repeat(alloc, ROUNDS).ok()?;
    let clock = CLOCK_ROUND.repeat(alloc, ROUNDS).ok()?;
    format!(in alloc; "{HOSTS}{NEAR}{near}{FAR}{far}{CLOCK}{clock}").ok()
}

/// Plays a script in the order of a seed. Whether each host has read all that was written at the other one, in
/// order, once each.
fn all_was_read<M: PlayModule, R: Threads + Wait + Sync>(
    rt: &R,
    alloc: Global,
    script: &str,
    seed: u64,
) -> Option<bool>
where
    M::Kind: ReadKind + SameKind + Send + Sync,
    requires { CallsFit M.row M.Kind.row M.Kind.Kinds }
{
    let plan = parse_made::<M>(alloc, script.as_bytes()).ok()?;
    let mut order = DrawnOrder::new(seed);
    let outcome = play_plan_in_order::<M, R, DrawnOrder>(rt, alloc, plan, &mut order).ok()?;
    let [near, far] = outcome.transcript.streams.as_slice() else {
        return None;
    };
    let at_near = read_in(alloc, near).ok()?;
    let at_far = read_in(alloc, far).ok()?;
    Some(at_near.as_slice() == FROM_FAR && at_far.as_slice() == FROM_NEAR)
}

/// The seeds of the orders in which not all was read.
fn failed<M: PlayModule, R: Threads + Wait + Sync>(
    rt: &R,
    alloc: Global,
    script: &str,
) -> Option<Vec<u64>>
where
    M::Kind: ReadKind + SameKind + Send + Sync,
    requires { CallsFit M.row M.Kind.row M.Kind.Kinds }
{
    let mut seeds = Vec::new(alloc);
    for seed in 0..ORDERS {
        if !all_was_read::<M, R>(rt, alloc, script, seed)? {
            seeds.push(seed).ok()?;
        }
    }
    Some(seeds)
}

/// Plays the longer exchange in the first orders that are drawn, and prints whether all was read in each.
pub fn play_orders<R: Print + Threads + Wait + Sync>(rt: &R, alloc: Global) -> Option<()> {
    let script = exchange(alloc)?;
    let failed = failed::<ByShape, R>(rt, alloc, script.as_str())?;
    match failed.first() {
        None => println!(rt; "{ORDERS} orders: everything was read in order in each").ok(),
        Some(seed) => {
            let many = failed.len();
            let _ = println!(rt; "{ORDERS} orders: not in {many}, first with seed {seed}");
            None
        }
    }
}
