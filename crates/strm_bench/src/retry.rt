//! The calls of a script, made one after another by calls of the library. A call for which memory runs out is
//! made again. The history of the stream must then have all receipts.
ghost use Rattle.std.specs.Prelude.{◌≡◌, ℕ, true, None};
ghost use Rattle.strm_head_calls.specs.Setup.{is_fit};

use crate::script::script;
use std::alloc::Global;
use std::marker::Brand;
use std::rt::Files;
use std::sync::Wait;
use std::{io, vec};
use strm_head::{Answer, Refusal};
use strm_module::{BoxedModule, Kind, ModuleOf, Plain};
use strm_msg::{Message, NoMem};
use strm_run_callers::log_of;
use strm_run_input::{Feed, Script, ScriptCall};
use strm_script::{Names, RunInput, into_run_input, parse_made, print};
use strm_shared::{EndFault, Ended, Feeder, Ring, Seat, Shared, StreamRunName};
use strm_shared_log::{Call, Called, Receipt, Setup, StreamLog, Transcript};

/// The work on a stream.
#[derive(Drop)]
struct Work<'a> {
    /// The calls, in order.
    calls: Vec<ScriptCall<BoxedModule<Plain>>>,
    /// The same calls once more, for those that are made again.
    same: Vec<ScriptCall<BoxedModule<Plain>>>,
    /// The feed of the stream, if it is a line or a wire.
    messages: Vec<Message>,
    /// The number of messages that are offered before each call, as a digit for each; none if there is no
    /// digit.
    offers: &'a str,
}

/// The outcome of a call.
fn called<M: ModuleOf, N: StreamRunName<M::Kind>, R: Wait>(
    rt: &R,
    shared: &Shared<M, N>,
    seat: &mut Seat,
    call: Call<BoxedModule<M>>,
) -> Called<BoxedModule<M>, M::Kind>
    requires number { seat.old.number ≡ shared.now.number }
    requires calls { (number caller : ℕ) → N.calls number caller ≡ None }
{
    shared.call(rt, seat, call)
}

/// Keeps a receipt, if there is memory for it.
fn keep(receipts: &mut Vec<Receipt<Kind>>, receipt: Option<Receipt<Kind>>) {
    if let Some(receipt) = receipt {
        if let Err(failed) = receipts.push(receipt) {
            drop(failed);
        }
    }
}

/// Whether memory ran out for a call that was made; or the call, if it came back. Keeps its receipt.
fn told(
    called: Called<BoxedModule<Plain>, Kind>,
    receipts: &mut Vec<Receipt<Kind>>,
) -> Result<bool, Call<BoxedModule<Plain>>> {
    match called {
        Called::Done {
            answer,
            back,
            receipt,
        } => {
            drop(back);
            keep(receipts, receipt);
            let is_wanting = is_wanting(&answer);
            drop(answer);
            Ok(is_wanting)
        }
        Called::NoRoom(call) => Err(call),
    }
}

/// Whether a call was refused because memory ran out.
fn is_wanting(answer: &Answer) -> bool {
    match answer {
        Answer::Refused(Refusal::NoMemory) => true,
        _ => false,
    }
}

/// Makes a call. Returns whether it was refused because memory ran out, or the call, if it came back.
fn ask<N: StreamRunName<Kind>, R: Wait>(
    rt: &R,
    shared: &Shared<Plain, N>,
    seat: &mut Seat,
    call: Call<BoxedModule<Plain>>,
    receipts: &mut Vec<Receipt<Kind>>,
) -> Result<bool, Call<BoxedModule<Plain>>>
    requires { (number caller : ℕ) → N.calls number caller ≡ None }
{
    if seat.number() != shared.number() {
        return Err(call);
    }
    told(called(rt, shared, seat, call), receipts)
}

/// Makes a call, and makes it again if it comes back, which is printed. Returns whether it was refused
/// because memory ran out.
fn ask_twice<N: StreamRunName<Kind>, R: Print + Wait>(
    rt: &R,
    shared: &Shared<Plain, N>,
    seat: &mut Seat,
    call: Call<BoxedModule<Plain>>,
    receipts: &mut Vec<Receipt<Kind>>,
) -> anyhow::Result<bool>
    requires { (number caller : ℕ) → N.calls number caller ≡ None }
{
    let call = match ask(rt, shared, seat, call, receipts) {
        Ok(is_wanting) => return Ok(is_wanting),
        Err(call) => call,
    };
    let second = ask(rt, shared, seat, call, receipts).ok();
    println!(rt; "no room")?;
    let Some(is_wanting) = second else {
        println!(rt; "no room")?;
        anyhow::bail!("no room twice")
    };
    Ok(is_wanting)
}

/// Makes a call, and makes it again if it is refused because memory ran out.
fn ask_again<N: StreamRunName<Kind>, R: Print + Wait>(
    rt: &R,
    shared: &Shared<Plain, N>,
    seat: &mut Seat,
    call: ScriptCall<BoxedModule<Plain>>,
    same: Option<ScriptCall<BoxedModule<Plain>>>,
    receipts: &mut Vec<Receipt<Kind>>,
) -> anyhow::Result<bool>
    requires { (number caller : ℕ) → N.calls number caller ≡ None }
{
    match ask_twice(rt, shared, seat, call.call, receipts) {
        Ok(true) => match same {
            Some(same) => ask_twice(rt, shared, seat, same.call, receipts),
            None => Ok(true),
        },
        asked => {
            drop(same);
            asked
        }
    }
}

/// Whether a message is accepted.
fn accepts<N: StreamRunName<Kind>>(feeder: &mut Feeder<Kind, N>, m: Message) -> bool
    requires { (number : ℕ) → N.feed number ≡ None }
{
    if !m.from_line() {
        drop(m);
        return false;
    }
    match feeder.arrive(m) {
        Ok(()) => true,
        Err(m) => {
            drop(m);
            false
        }
    }
}

/// Offers the next messages to a line or a wire, at most that many, and returns the number that came back.
fn offer<N: StreamRunName<Kind>>(
    feeder: &mut Option<Feeder<Kind, N>>,
    messages: &mut vec::IntoIter<Message>,
    many: usize,
) -> u64
    requires { (number : ℕ) → N.feed number ≡ None }
{
    let Some(feeder) = feeder.as_mut() else {
        return 0;
    };
    let mut overrun: u64 = 0;
    for _ in 0..many {
        if let Some(m) = messages.next() {
            overrun = overrun.saturating_add(u64::from(!accepts(feeder, m)));
        }
    }
    overrun
}

/// The number of messages that are offered before a call.
fn offers_before(offers: &str, at: usize) -> usize {
    match offers.as_bytes().get(at) {
        Some(digit) => usize::from(digit.saturating_sub(b'0')),
        None => 0,
    }
}

/// Makes the calls on a stream, keeps their receipts, and returns the number of messages of its feed that
/// came back.
fn make_calls<N: StreamRunName<Kind>, R: Print + Wait>(
    rt: &R,
    shared: &Shared<Plain, N>,
    seats: &mut [Seat],
    feeder: &mut Option<Feeder<Kind, N>>,
    work: Work<'_>,
    receipts: &mut Vec<Receipt<Kind>>,
) -> anyhow::Result<u64>
    requires calls { (number caller : ℕ) → N.calls number caller ≡ None }
    requires feed { (number : ℕ) → N.feed number ≡ None }
{
    let Work {
        calls,
        same,
        messages,
        offers,
    } = work;
    let Some(seat) = seats.first_mut() else {
        anyhow::bail!("no seat")
    };
    let mut messages = messages.into_iter();
    let mut same = same.into_iter();
    let mut overrun: u64 = 0;
    let mut at: usize = 0;
    for call in calls {
        let back = offer(feeder, &mut messages, offers_before(offers, at));
        overrun = overrun.saturating_add(back);
        at = at.saturating_add(1);
        ask_again(rt, shared, seat, call, same.next(), receipts)?;
    }
    Ok(overrun)
}

/// A stream with this ring, with one seat, and with its feeder if it is a line or a wire.
fn opened<M: ModuleOf, N: StreamRunName<M::Kind>>(
    alloc: Global,
    ring: Ring,
) -> Result<(Shared<M, N>, Vec<Seat>, Option<Feeder<M::Kind, N>>), NoMem>
    requires marks { is_fit ring.setup ≡ true }
    requires name { ring.name ≡ N.ring 0 }
{
    Shared::new(alloc, 0, 1, ring)
}

/// The end of a stream.
fn ended<M: ModuleOf, N: StreamRunName<M::Kind>>(
    shared: Shared<M, N>,
    seats: Vec<Seat>,
    feeder: Option<Feeder<M::Kind, N>>,
) -> Result<Ended<M>, EndFault> {
    let feed = match feeder {
        Some(feeder) => feeder.finish(),
        None => None,
    };
    shared.end(seats, feed)
}

/// Whether the history of a stream has each receipt.
fn holds_each(ended: &Ended<Plain>, receipts: &[Receipt<Kind>]) -> bool {
    receipts.iter().all(|receipt| ended.holds(receipt))
}

/// The log of a stream that has ended. Refused if its history does not have each receipt.
fn log_of_end(
    ended: Result<Ended<Plain>, EndFault>,
    overrun: u64,
    receipts: &[Receipt<Kind>],
) -> anyhow::Result<StreamLog<Kind>> {
    let ended = ended?;
    if !holds_each(&ended, receipts) {
        drop(ended);
        anyhow::bail!("a receipt that the history does not hold")
    }
    Ok(log_of(ended, overrun))
}

/// The log of a stream on which this work is done.
fn done<N: StreamRunName<Kind>, R: Print + Wait>(
    rt: &R,
    alloc: Global,
    ring: Ring,
    work: Work<'_>,
) -> anyhow::Result<StreamLog<Kind>>
    requires marks { is_fit ring.setup ≡ true }
    requires name { ring.name ≡ N.ring 0 }
    requires calls { (number caller : ℕ) → N.calls number caller ≡ None }
    requires feed { (number : ℕ) → N.feed number ≡ None }
{
    let (shared, mut seats, mut feeder) = opened::<Plain, N>(alloc, ring)?;
    let mut receipts = Vec::new(alloc);
    match make_calls(
        rt,
        &shared,
        seats.as_mut_slice(),
        &mut feeder,
        work,
        &mut receipts,
    ) {
        Ok(overrun) => log_of_end(ended(shared, seats, feeder), overrun, receipts.as_slice()),
        Err(fault) => {
            drop(shared);
            drop(seats);
            drop(feeder);
            Err(fault)
        }
    }
}

/// The input of a run of a script.
fn handed(alloc: Global, bytes: &[u8]) -> anyhow::Result<RunInput<BoxedModule<Plain>>> {
    let plan = parse_made::<Plain>(alloc, bytes)?;
    Ok(into_run_input(alloc, plan)?)
}

/// The calls of the last process of a script; none if it has no process.
fn calls_of(
    alloc: Global,
    scripts: Vec<Script<BoxedModule<Plain>>>,
) -> anyhow::Result<Vec<ScriptCall<BoxedModule<Plain>>>> {
    let mut scripts = scripts;
    let Some(script) = scripts.pop() else {
        return Ok(Vec::new(alloc));
    };
    let (blocks, last) = script.into_blocks();
    let mut calls = Vec::new(alloc);
    for block in blocks {
        calls.extend(block)?;
    }
    calls.extend(last)?;
    Ok(calls)
}

/// The messages of the last feed of a script; none if it has no feed.
fn messages_of(alloc: Global, feeds: Vec<Feed>) -> Vec<Message> {
    let mut feeds = feeds;
    match feeds.pop() {
        Some(
            Feed {
                stream: _,
                messages,
            },
        ) => messages,
        None => Vec::new(alloc),
    }
}

/// The calls of a script.
fn calls(alloc: Global, bytes: &[u8]) -> anyhow::Result<Vec<ScriptCall<BoxedModule<Plain>>>> {
    let RunInput {
        names,
        setups: _,
        scripts,
        feeds,
        links: _,
        expected: _,
    } = handed(alloc, bytes)?;
    drop(names);
    drop(feeds);
    calls_of(alloc, scripts)
}

/// The log of a stream of this setup, on which this work is done.
fn log<R: Print + Wait>(
    rt: &R,
    alloc: Global,
    setup: Setup,
    work: Work<'_>,
) -> anyhow::Result<StreamLog<Kind>> {
    if !setup.is_fit() {
        drop(work);
        anyhow::bail!("no marks")
    }
    match Ring::new(alloc, setup) {
        Ok(ring) => done::<Brand, R>(rt, alloc, ring, work),
        Err(fault) => {
            drop(work);
            Err(fault.into())
        }
    }
}

/// Prints the log of a stream.
fn tell(rt: &impl Print, alloc: Global, names: &Names, log: StreamLog<Kind>) -> anyhow::Result<()> {
    let mut streams = Vec::new(alloc);
    streams.push(log)?;
    print(&Transcript { streams }, names, &mut io::writer(rt))?;
    Ok(())
}

/// Plays the input of a run.
fn play_out<R: Print + Wait>(
    rt: &R,
    alloc: Global,
    handed: RunInput<BoxedModule<Plain>>,
    same: Vec<ScriptCall<BoxedModule<Plain>>>,
    offers: &str,
) -> anyhow::Result<()> {
    let RunInput {
        names,
        mut setups,
        scripts,
        feeds,
        links: _,
        expected: _,
    } = handed;
    let has_process = !scripts.is_empty();
    let work = Work {
        calls: calls_of(alloc, scripts)?,
        same,
        messages: messages_of(alloc, feeds),
        offers,
    };
    let log = match setups.pop() {
        Some(setup) if has_process => log(rt, alloc, setup, work),
        _ => {
            drop(work);
            Err(anyhow::anyhow!("no stream, or no process"))
        }
    };
    let told = match log {
        Ok(log) => tell(rt, alloc, &names, log),
        Err(fault) => Err(fault),
    };
    drop(names);
    told
}

/// Plays the one process of a script on its one stream, and prints the transcript. Before that it prints
/// `no room` for each call that came back because memory ran out. Such a call is made again, and so is one
/// that was refused for it.
pub fn play<R: Files + Print + Wait + AllocGlobal>(
    rt: &R,
    path: &str,
    offers: &str,
) -> anyhow::Result<()> {
    let alloc: Global = rt.alloc();
    let bytes = script(rt, alloc, path)?;
    let same = calls(alloc, bytes.as_slice())?;
    match handed(alloc, bytes.as_slice()) {
        Ok(handed) => play_out(rt, alloc, handed, same, offers),
        Err(fault) => {
            drop(same);
            Err(fault)
        }
    }
}
