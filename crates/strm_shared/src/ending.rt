//! Conditions under which a shared stream has ended.
ghost use Rattle.std.specs.Prelude.{◌≡◌, ◌↔◌, ◌<◌, true, Any, IfErr, IfOk, OnOk, IsErrOf, length};
ghost use Rattle.strm_shared.specs.Ending.{is_fed, AreSeats, AreShown, HasEachCaller, IsUnfinished, IsUnshown, IsLegalEnd, HasAccepted};
ghost use Rattle.strm_shared.specs.CallCounts.{AreInTurn, SeatsAgree};

use crate::fault::EndFault;
use crate::seat::Seat;
use crate::state::SharedState;
use std::alloc::Global;
use strm_module::ModuleOf;
use strm_shared_ended::Ended;
use strm_shared_log::Setup;
use strm_shared_ring::{FeedEnd, StreamRunName};

/// Whether a caller has a seat among these.
fn is_seated(caller: u32, seats: &[Seat]) -> bool
    ensures { result ≡ true ↔ Any (λ s. s.caller ≡ caller) seats.now }
{
    seats.iter().any(|s| s.caller() == caller)
}

/// Whether each caller has a seat among these.
fn are_seated(callers: u32, seats: &[Seat]) -> bool
    ensures { result ≡ true ↔ HasEachCaller callers seats.now }
{
    for caller in 0..callers {
        if !is_seated(caller, seats) {
            return false;
        }
    }
    true
}

/// Whether these are the seats of a stream, one for each caller.
fn are_seats(number: u32, callers: u32, seats: &[Seat]) -> bool
    ensures { result ≡ true ↔ AreSeats number callers seats.now }
{
    seats.len() == callers as usize
        && seats.iter().all(|s| s.number() == number)
        && are_seated(callers, seats)
}

/// Whether each call that was made from these seats has a receipt.
fn are_shown(seats: &[Seat]) -> bool
    ensures { result ≡ true ↔ AreShown seats.now }
{
    seats.iter().all(|s| s.is_shown())
}

/// Whether a line's feeder has ended; the other drivers have none.
fn is_fed<K, N: StreamRunName<K>>(number: u32, setup: Setup, feed: &Option<FeedEnd<K, N>>) -> bool
    ensures { result ≡ is_fed number setup feed.now }
{
    match feed {
        Some(feed) => feed.number() == number,
        None => !setup.is_line(),
    }
}

/// Whether a shared stream has ended, by the state under its lock, its seats and its feed; or the refusal of
/// that, but for out of memory.
pub(crate) fn have_ended<M: ModuleOf, N: StreamRunName<M::Kind>>(
    number: u32,
    setup: Setup,
    callers: u32,
    locked: &SharedState<M, N>,
    seats: &[Seat],
    feed: &Option<FeedEnd<M::Kind, N>>,
) -> Result<(), EndFault>
    ensures of { OnOk result ((locked.now.number ≡ number) × (locked.now.log.setup ≡ setup)) }
    ensures agree { OnOk result (SeatsAgree locked.now.turns callers seats.now) }
    ensures fed { OnOk result (is_fed number setup feed.now ≡ true) }
    ensures seated { OnOk result (AreSeats number callers seats.now) }
    ensures shown { OnOk result (AreShown seats.now) }
    ensures whole { OnOk result (locked.now.log.kept ≡ locked.now.log.history) }
    ensures seats { IsErrOf result EndFault.Seats ↔ (AreSeats number callers seats.now → ⊥) }
    ensures unfinished { IsErrOf result EndFault.Unfinished → IsUnfinished number setup callers locked.now seats.now feed.now }
    ensures no_receipt { IsErrOf result EndFault.NoReceipt → IsUnshown number setup callers locked.now seats.now feed.now }
    ensures drained { IsErrOf result EndFault.Drained → AreShown seats.now }
    ensures memory { IsErrOf result EndFault.NoMem → ⊥ }
{
    if !are_seats(number, callers, seats) {
        return Err(EndFault::Seats);
    }
    if !locked.is_of(number, setup) || !is_fed(number, setup, feed) {
        return Err(EndFault::Unfinished);
    }
    if !locked.seats_agree(callers, seats) {
        return Err(EndFault::Unfinished);
    }
    if !are_shown(seats) {
        return Err(EndFault::NoReceipt);
    }
    if !locked.is_whole() {
        return Err(EndFault::Drained);
    }
    Ok(())
}

/// The end of a shared stream that has ended, with its whole history. Fails only when memory runs out.
pub(crate) fn left_of<M: ModuleOf, N: StreamRunName<M::Kind>>(
    alloc: Global,
    callers: u32,
    locked: SharedState<M, N>,
    feed: Option<FeedEnd<M::Kind, N>>,
) -> Result<Ended<M>, EndFault>
    requires in_turn { locked.turns.in_turn ≡ true }
    requires counts { length locked.turns.counts ≡ callers }
    requires fed { is_fed locked.number locked.log.setup feed ≡ true }
    requires whole { locked.log.kept ≡ locked.log.history }
    ensures legal { IfOk result (λ ended. IsLegalEnd M.Kind.means locked.log.setup ended) }
    ensures in_turn { IfOk result (λ ended. AreInTurn (N.calls locked.number) locked.turns.counts ended.history) }
    ensures arrived { IfOk result (λ ended. HasAccepted ended feed) }
    ensures memory { IfErr result (λ fault. fault ≡ EndFault.NoMem) }
{
    let (log, turns, inlet) = locked.into_parts();
    drop(turns);
    let Ok(left) = inlet.drain(alloc, feed) else {
        drop(log);
        return Err(EndFault::NoMem);
    };
    let (history, stream) = log.into_parts();
    match Ended::new(alloc, callers, history, stream, left) {
        Ok(ended) => Ok(ended),
        Err(_) => Err(EndFault::NoMem),
    }
}
