//! The playing of a script in many orders.
ghost use Rattle.std.specs.Prelude.{◌<◌, ◌^◌};

use crate::lanes::lanes_of;
use crate::playing::{BUFFER, UNMET, missed, not_put, script, shown_name};
use crate::progress::Progress;
use crate::refusal::Refusal;
use std::alloc::Global;
use std::io::{self, BufWriter, IsTerminal, Write};
use std::rt::{Clock, Files};
use std::sync::Wait;
use std::thread::Threads;
use strm_module::{BoxedModule, Plain};
use strm_msg::NoMem;
use strm_run_input::Order;
use strm_script::{Plan, parse_made, play_plan_in_order, print};
use strm_script_orders::{DrawnOrder, Lanes, ListedOrder, Tally, count};
use strsh_options::{Fault, Orders};

/// The most orders that are played where each order is asked for.
const MOST_LISTED: u64 = 100_000;

/// The status if there are more orders than are played.
const TOO_MANY: u8 = 1;

/// The fault of out of memory.
pub(crate) fn no_memory(_: NoMem) -> Fault {
    Fault::no_memory()
}

/// The text of a script's transcript in one order, and whether it has an expected reply that was not met.
fn text_in<R: Threads + Wait + Sync, O: Order>(
    rt: &R,
    alloc: Global,
    bytes: &[u8],
    order: &mut O,
) -> Result<(Vec<u8>, bool), Fault> {
    let plan = parse_made::<Plain>(alloc, bytes)?;
    let mut outcome = play_plan_in_order::<Plain, R, O>(rt, alloc, plan, order)?;
    let missed = missed(alloc, &mut outcome)?;
    let mut text = Vec::new(alloc);
    print(&outcome.transcript, &outcome.names, &mut text).map_err(not_put)?;
    Ok((text, !missed.is_empty()))
}

/// Plays a script in the first orders that are drawn, `many` of them: that of each seed from 0 on.
fn tally_drawn<R: Threads + Wait + Clock + Sync, E: Print + IsTerminal>(
    rt: &R,
    alloc: Global,
    bytes: &[u8],
    many: u32,
    progress: &mut Progress<'_, E>,
) -> Result<Tally, Fault> {
    let mut tally = Tally::new(alloc);
    for seed in 0..u64::from(many) {
        let mut order = DrawnOrder::new(seed);
        let (text, is_unmet) = text_in(rt, alloc, bytes, &mut order)?;
        let label = format!(in alloc; "{seed}")?.into_bytes();
        tally.add(alloc, label, text, is_unmet).map_err(no_memory)?;
        progress.show(rt, tally.orders());
    }
    Ok(tally)
}

/// Plays a script in each of its orders once: `many` of them, which these lanes take.
fn tally_listed<R: Threads + Wait + Clock + Sync, E: Print + IsTerminal>(
    rt: &R,
    alloc: Global,
    bytes: &[u8],
    lanes: &mut Lanes,
    many: u64,
    progress: &mut Progress<'_, E>,
) -> Result<Tally, Fault>
    requires { many < 2 ^ 63 }
{
    let mut order = ListedOrder::new(alloc, lanes.steps_left()).map_err(no_memory)?;
    let mut tally = Tally::new(alloc);
    for _ in 0..many {
        let (text, is_unmet) = text_in(rt, alloc, bytes, &mut order)?;
        let label = lanes.spell(alloc, order.choices()).map_err(no_memory)?;
        tally.add(alloc, label, text, is_unmet).map_err(no_memory)?;
        progress.show(rt, tally.orders());
        let _ = order.advance();
    }
    Ok(tally)
}

/// Prints a tally, to the last byte, and returns the exit status: 3 if an order had an expected reply that was
/// not met, else 0.
fn put_tally<R: Print>(rt: &R, alloc: Global, tally: &Tally) -> Result<u8, Fault> {
    let Ok(mut out) = BufWriter::with_capacity(alloc, BUFFER, io::writer(rt)) else {
        return Err(Fault::no_memory());
    };
    tally.put(&mut out).map_err(not_put)?;
    out.flush().map_err(not_put)?;
    Ok(if tally.unmet() == 0 { 0 } else { UNMET })
}

/// Prints that there are more orders than are played, and how many there are, if that is known and below
/// 2^64 - 1. Returns the exit status 1.
fn put_too_many<R: Print>(rt: &R, number: Option<u64>) -> Result<u8, Fault> {
    let put = match number {
        Some(number) if number < u64::MAX => {
            print!(rt; "strsh: {number} orders, more than {MOST_LISTED}\n")
        }
        _ => print!(rt; "strsh: more than {MOST_LISTED} orders\n"),
    };
    match put {
        Ok(()) => Ok(TOO_MANY),
        Err(_) => Err(Fault::Write),
    }
}

/// Plays a script, whose plan this is, in each order once, and prints which transcripts they gave. None is
/// played where there are more than `MOST_LISTED`. Returns the exit status.
fn play_all<R: Print + Threads + Wait + Clock + Sync, E: Print + IsTerminal>(
    rt: &R,
    errors: &E,
    alloc: Global,
    bytes: &[u8],
    plan: Plan<BoxedModule<Plain>>,
) -> Result<u8, Fault> {
    let mut lanes = lanes_of(alloc, plan).map_err(no_memory)?;
    let many = count(alloc, &mut lanes, MOST_LISTED).map_err(no_memory)?;
    lanes.start_again();
    if many > MOST_LISTED {
        return put_too_many(rt, lanes.free_count());
    }
    let mut progress = Progress::new(rt, errors, many);
    let tally = tally_listed(rt, alloc, bytes, &mut lanes, many, &mut progress);
    progress.erase();
    let tally = tally?;
    put_tally(rt, alloc, &tally)
}

/// Plays a script in the first orders that are drawn, and prints which transcripts they gave. Returns the exit
/// status.
fn play_drawn<R: Print + Threads + Wait + Clock + Sync, E: Print + IsTerminal>(
    rt: &R,
    errors: &E,
    alloc: Global,
    bytes: &[u8],
    many: u32,
) -> Result<u8, Fault> {
    let mut progress = Progress::new(rt, errors, u64::from(many));
    let tally = tally_drawn(rt, alloc, bytes, many, &mut progress);
    progress.erase();
    let tally = tally?;
    put_tally(rt, alloc, &tally)
}

/// Plays a script, whose plan this is, in many orders, and prints which transcripts they gave. Returns the
/// exit status: 3 if an order had an expected reply that was not met; 1 if each order was asked for and there
/// are more than `MOST_LISTED`, which is printed; else 0.
fn play_each<R: Print + Threads + Wait + Clock + Sync, E: Print + IsTerminal>(
    rt: &R,
    errors: &E,
    alloc: Global,
    bytes: &[u8],
    plan: Plan<BoxedModule<Plain>>,
    orders: Orders,
) -> Result<u8, Fault> {
    match orders {
        Orders::First(many) => {
            drop(plan);
            play_drawn(rt, errors, alloc, bytes, many)
        }
        Orders::All => play_all(rt, errors, alloc, bytes, plan),
    }
}

/// Plays the script at a path in many orders, and prints which transcripts they gave. Returns the exit status.
/// The fault of a script is explained. Where `errors` is a terminal, it shows how many orders were played.
pub(crate) fn play_orders<
    R: Files + Input + Print + Threads + Wait + Clock + Sync,
    E: Print + IsTerminal,
>(rt: &R, errors: &E, alloc: Global, path: &str, orders: Orders) -> Result<u8, Refusal> {
    let bytes = script(rt, alloc, path).map_err(Fault::from)?;
    match parse_made::<Plain>(alloc, bytes.as_slice()) {
        Ok(plan) => Ok(play_each(rt, errors, alloc, bytes.as_slice(), plan, orders)?),
        Err(fault) => Err(Refusal::of_script(alloc, shown_name(path), bytes.as_slice(), fault)),
    }
}
