//! The streams of a run, as they end.
ghost use Rattle.std.specs.Prelude.{◌≡◌, ◌<◌, length, map, All, IfErr, IfOk, IfSome, OnOk, Ok, Err};
ghost use Rattle.std.specs.List.{list_any};
ghost use Rattle.strm_run_callers.specs.Transcript.{AreLogs};
ghost use Rattle.strm_run_callers.specs.Play.{ArePlayed};
ghost use Rattle.strm_run.specs.Inside.Ending.{feed_of_result, first_fault, is_fault, overrun_of, seats_of};
ghost use Rattle.strm_run.specs.Inside.Ending.{AddsCarried, AreLinesFed, AreLinesLinked, AreLinksThere};
ghost use Rattle.strm_run.specs.Inside.Ending.{AreParted, AreResults};
ghost use Rattle.strm_run.specs.Inside.Ending.{AreSeatsPlayed, HasLeft, HaveLeft, HaveSameItems, IsLate, IsOfAccounts, Leaves};

use crate::feeds::results_by_number;
use crate::finished::{FinishedStream, finished_streams};
use crate::table::transposed;
use std::alloc::Global;
use std::thread::Threads;
use strm_module::ModuleOf;
use strm_msg::NoMem;
use strm_run_callers::{
    Account, FeedResult, Of, Offered, Played, Receipts, RunName, Streams, holds_all, log_of,
};
use strm_run_input::RunFault;
use strm_run_threads::parallel_map;
use strm_shared::{EndFault, Ended, FeedEnd, Seat};
use strm_shared_log::{SameKind, StreamLog, Transcript};

/// The end of the feed of a stream, and the number of its messages that came back; nothing where it has no
/// feeder.
fn feed_parts<K, N: RunName<K>>(fed: Option<FeedResult<K, N>>) -> (Option<FeedEnd<K, Of<N>>>, u64)
    ensures feed { result.0 ≡ feed_of_result fed }
    ensures overrun { result.1 ≡ overrun_of fed }
{
    match fed {
        Some(ended) => {
            let (end, overrun) = ended.into_parts();
            (Some(end), overrun)
        }
        None => (None, 0),
    }
}

/// The log of a stream, where it ended, and its history holds each receipt.
///
/// Refused with `NoReceipt` where a call has none or the history does not hold it, and else as the end of the
/// stream was.
fn log_or_fault<M: ModuleOf>(
    ended: Result<Ended<M>, EndFault>,
    receipts: Vec<Receipts<M::Kind>>,
    overrun: u64,
) -> Result<StreamLog<M::Kind>, RunFault>
where
    M::Kind: SameKind,
    ensures { Leaves ended receipts.items overrun result }
{
    match ended {
        Ok(ended) => {
            if holds_all(&ended, receipts) {
                Ok(log_of(ended, overrun))
            } else {
                Err(RunFault::NoReceipt)
            }
        }
        Err(EndFault::NoReceipt) => Err(RunFault::NoReceipt),
        Err(EndFault::NoMem) => Err(RunFault::NoMem),
        Err(EndFault::Seats | EndFault::Unfinished | EndFault::Drained) => {
            Err(RunFault::Unfinished)
        }
    }
}

/// Splits accounts into seats, and apart from them the receipts of the calls from each, in order. Fails only
/// when memory runs out.
fn split_receipts<K: Drop, N: RunName<K>>(
    alloc: Global,
    accounts: Vec<Account<K, N>>,
) -> Result<(Vec<Seat>, Vec<Receipts<K>>), NoMem>
    ensures seats { IfOk result (λ all. all.0.items ≡ seats_of accounts.items) }
    ensures receipts { IfOk result (λ all. AreParted N.run accounts.items all.1.items) }
{
    let mut seats = Vec::new(alloc);
    let mut receipts = Vec::new(alloc);
    for account in accounts {
        let (seat, mine) = account.into_parts();
        seats.push(seat)?;
        receipts.push(mine)?;
    }
    Ok((seats, receipts))
}

/// Ends one stream of a run, and returns its log, where its history holds the receipts of all callers.
fn end_one<M: ModuleOf, N: RunName<M::Kind>>(
    alloc: Global,
    due: FinishedStream<M, N>,
) -> Result<StreamLog<M::Kind>, RunFault>
where
    M::Kind: SameKind,
    ensures left { IfOk result (λ log. HasLeft M.Kind.means N.run due log) }
    ensures late { IfErr result (λ fault. IsLate fault) }
{
    let (shared, accounts, fed) = due.into_parts();
    let (feed, overrun) = feed_parts(fed);
    let (seats, receipts) = split_receipts(alloc, accounts)?;
    log_or_fault(shared.end(seats, feed), receipts, overrun)
}

/// Whether a stream ended with this fault.
fn is_fault<K>(one: &Result<StreamLog<K>, RunFault>, fault: RunFault) -> bool
    ensures { result ≡ is_fault fault one.now }
{
    match one {
        Ok(_) => false,
        Err(other) => other.number() == fault.number(),
    }
}

/// Whether one of these streams ended with this fault.
fn has_fault<K>(ended: &[Result<StreamLog<K>, RunFault>], fault: RunFault) -> bool
    ensures { result ≡ list_any (λ one. is_fault fault one) ended.now }
{
    ended.iter().any(|one| is_fault(one, fault))
}

/// The fault of a run whose streams ended so, if one of them has a fault: the first of all in the order of a
/// run, whichever stream has it.
fn first_fault<K>(ended: &[Result<StreamLog<K>, RunFault>]) -> Option<RunFault>
    ensures { result ≡ first_fault ended.now }
{
    if has_fault(ended, RunFault::NoMem) {
        Some(RunFault::NoMem)
    } else if has_fault(ended, RunFault::Unfinished) {
        Some(RunFault::Unfinished)
    } else if has_fault(ended, RunFault::NoReceipt) {
        Some(RunFault::NoReceipt)
    } else {
        None
    }
}

/// The logs, where each stream has left one; else the fault of a stream, which may be out of memory.
fn all_logs<K: Drop>(
    alloc: Global,
    ended: Vec<Result<StreamLog<K>, RunFault>>,
) -> Result<Vec<StreamLog<K>>, RunFault>
    requires late { All (λ one. IfErr one (λ fault. IsLate fault)) ended.items }
    ensures logs { IfOk result (λ logs. map Ok logs.items ≡ ended.items) }
    ensures late { IfErr result (λ fault. IsLate fault) }
{
    let mut all = Vec::new(alloc);
    for one in ended {
        let log = one?;
        let Ok(()) = all.push(log) else {
            return Err(RunFault::NoMem);
        };
    }
    Ok(all)
}

/// The logs that streams have left. Where one has a fault the run is refused with the first of them in the
/// order of a run. Where none has, it may be refused when memory runs out.
fn logs_of<K: Drop>(
    alloc: Global,
    ended: Vec<Result<StreamLog<K>, RunFault>>,
) -> Result<Vec<StreamLog<K>>, RunFault>
    requires late { All (λ one. IfErr one (λ fault. IsLate fault)) ended.items }
    ensures first { IfSome (first_fault ended.items) (λ fault. result ≡ Err fault) }
    ensures logs { IfOk result (λ logs. map Ok logs.items ≡ ended.items) }
    ensures late { IfErr result (λ fault. IsLate fault) }
{
    match first_fault(ended.as_slice()) {
        Some(fault) => Err(fault),
        None => all_logs(alloc, ended),
    }
}

/// Ends the streams of a run, in at most `threads` threads, each whatever the outcome of the others. Refused
/// as `logs_of` is.
fn end_all<M: ModuleOf, N: RunName<M::Kind> + Send + Sync, R: Threads + Sync>(
    rt: &R,
    alloc: Global,
    due: Vec<FinishedStream<M, N>>,
    threads: usize,
) -> Result<Vec<StreamLog<M::Kind>>, RunFault>
where
    M::Kind: SameKind + Send + Sync,
    requires { 0 < threads }
    ensures left { IfOk result (λ logs. HaveLeft M.Kind.means N.run due.items logs.items) }
    ensures late { IfErr result (λ fault. IsLate fault) }
{
    let ended = parallel_map(
        rt,
        alloc,
        due,
        threads,
        &|due: FinishedStream<M, N>| -> Result<StreamLog<M::Kind>, RunFault>
            ensures left { IfOk result (λ log. HasLeft M.Kind.means N.run due log) }
            ensures late { IfErr result (λ fault. IsLate fault) }
        { end_one(alloc, due) },
    )?;
    logs_of(alloc, ended)
}

/// The seats that callers leave, with their receipts, in order of the callers' numbers. Fails only when
/// memory runs out.
fn accounts_by_caller<K: Drop, N: RunName<K>>(
    alloc: Global,
    mut played: Vec<Played<K, N>>,
) -> Result<Vec<Vec<Account<K, N>>>, NoMem>
    ensures { IfOk result (λ all. All (λ accounts. ArePlayed N.run accounts.items) all.items) }
{
    played.sort_unstable_by_key(|one| one.caller());
    let mut all = Vec::new(alloc);
    for one in played {
        all.push(one.into_accounts())?;
    }
    Ok(all)
}

/// Ends the feeds of the links on which callers carry from a stream, and adds their results behind others.
/// Fails only when memory runs out.
fn end_carriers<K: Drop, N: RunName<K>>(
    accounts: &mut [Account<K, N>],
    carried: &mut Vec<FeedResult<K, N>>,
) -> Result<(), NoMem>
    ensures same { OnOk result (accounts.new ≡ accounts.old) }
    ensures carried { OnOk result (AddsCarried N.run accounts.old carried.old.items carried.new.items) }
{
    for account in accounts.iter_mut() {
        if let Some(ended) = account.end_carrier() {
            carried.push(ended)?;
        }
    }
    Ok(())
}

/// Ends the feeds of all links on which callers carry, and returns their results. Fails only when memory runs
/// out.
fn end_all_carriers<K: Drop, N: RunName<K>>(
    alloc: Global,
    rows: &mut [Vec<Account<K, N>>],
) -> Result<Vec<FeedResult<K, N>>, NoMem>
    ensures same { OnOk result (HaveSameItems rows.old rows.new) }
    ensures carried { IfOk result (λ all. All (λ ended. IsOfAccounts N.run rows.old ended) all.items) }
{
    let mut carried = Vec::new(alloc);
    for row in rows.iter_mut() {
        end_carriers(row.as_mut_slice(), &mut carried)?;
    }
    Ok(carried)
}

/// The seats that callers leave, in order of the streams, the results of the feeds that their links have made,
/// and those of all feeds, in order of the streams. Fails only when memory runs out.
fn results_by_stream<K: Drop, N: RunName<K>>(
    alloc: Global,
    played: Vec<Played<K, N>>,
    offered: Vec<Offered<K, N>>,
    many: usize,
) -> Result<(Vec<Vec<Account<K, N>>>, Vec<Option<FeedResult<K, N>>>), NoMem>
    requires many { length N.run.setups ≡ many }
    requires there { AreLinksThere N.run }
    ensures seats { IfOk result (λ all. AreSeatsPlayed N.run all.0.items) }
    ensures many { IfOk result (λ all. length all.1.items ≡ many) }
    ensures results { IfOk result (λ all. AreResults N.run all.0.items all.1.items) }
{
    let columns = accounts_by_caller(alloc, played)?;
    let mut accounts = transposed(alloc, columns, many)?;
    let carried = end_all_carriers(alloc, accounts.as_mut_slice())?;
    let results = results_by_number(alloc, offered, carried, many)?;
    Ok((accounts, results))
}

/// Ends a run, and returns the transcript, where each stream ended, and its history holds each receipt.
/// Streams are ended in at most `threads` threads.
pub(crate) fn finish<M: ModuleOf, N: RunName<M::Kind> + Send + Sync, R: Threads + Sync>(
    rt: &R,
    alloc: Global,
    streams: Streams<M, N>,
    played: Vec<Played<M::Kind, N>>,
    offered: Vec<Offered<M::Kind, N>>,
    many: usize,
    threads: usize,
) -> Result<Transcript<M::Kind>, RunFault>
where
    M::Kind: SameKind + Send + Sync,
    requires threads { 0 < threads }
    requires many { length N.run.setups ≡ many }
    requires lines { AreLinesFed N.run }
    requires linked { AreLinesLinked N.run }
    requires there { AreLinksThere N.run }
    ensures logs { IfOk result (λ transcript. AreLogs M.Kind.means N.run transcript.streams.items) }
    ensures late { IfErr result (λ fault. IsLate fault) }
{
    let Ok((accounts, results)) = results_by_stream(alloc, played, offered, many) else {
        drop(streams);
        return Err(RunFault::NoMem);
    };
    let due = finished_streams(alloc, streams, accounts, results)?;
    let logs = end_all(rt, alloc, due, threads)?;
    Ok(Transcript { streams: logs })
}
