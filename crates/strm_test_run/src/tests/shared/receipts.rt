//! Receipts: the entries that they show, and whether a history holds them.
use super::{call, echo, ended};
use crate::tests::{push, write, wrote};
use std::alloc::Global;
use std::process::Abort;
use std::sync::Wait;
use strm_head::{Answer, Event, Refusal, Reply, Request};
use strm_module::{BoxedModule, Kind, Plain};
use strm_msg::End;
use strm_shared::{EndFault, Ended, Seat, Shared};
use strm_shared_log::{Called, Entry, Kept, Receipt, Who};

/// The receipt of a call on end A.
pub(super) fn receipt<R: Abort + Wait>(
    rt: &R,
    shared: &Shared<Plain>,
    seat: &mut Seat,
    request: Request<BoxedModule<Plain>>,
) -> Receipt<Kind> {
    match call(rt, shared, seat, End::A, request) {
        Called::Done { receipt, .. } => receipt.expect(rt, "a receipt"),
        Called::NoRoom(_) => panic!(rt; "no room"),
    }
}

/// The last of the seats, taken out.
fn last(rt: &impl Abort, seats: &mut Vec<Seat>) -> Seat {
    seats.pop().expect(rt, "a seat")
}

/// Whether this is the entry of the caller's write of these bytes.
fn is_write(entry: &Entry<Kind>, caller: u32, bytes: &[u8]) -> bool {
    match (entry.event(), entry.answer()) {
        (Event::Asked(Request::Write { dat }), Answer::Done(Reply::Write { len })) => {
            entry.who() == Who::Caller(caller)
                && entry.end() == End::A
                && dat.as_slice() == bytes
                && *len == bytes.len() as u64
        }
        _ => false,
    }
}

/// The receipt of caller 0 for a call on another stream with this number, which has that many seats.
fn of_another_stream<R: Abort + Wait>(
    rt: &R,
    alloc: Global,
    seats: u32,
    request: Request<BoxedModule<Plain>>,
) -> Receipt<Kind> {
    let (shared, mut seats) = echo(rt, alloc, 0, seats);
    seats.as_mut_slice().reverse();
    let mut seat = last(rt, &mut seats);
    receipt(rt, &shared, &mut seat, request)
}

/// Whether a receipt is of this caller's first call, which wrote these bytes.
fn is_of_write(receipt: &Receipt<Kind>, caller: u32, bytes: &[u8]) -> bool {
    receipt.caller() == caller && receipt.number() == 1 && is_write(receipt.entry(), caller, bytes)
}

/// Whether a history has two entries, first that of `of_q` and then that of `of_p`.
fn are_entries(history: &[Kept<Kind>], of_q: &Receipt<Kind>, of_p: &Receipt<Kind>) -> bool {
    match history {
        [first, second] => {
            first.entry().is_same(of_q.entry())
                && second.entry().is_same(of_p.entry())
                && !first.entry().is_same(of_p.entry())
        }
        _ => false,
    }
}

/// Whether the first call of caller 0 and that of caller 1 have entries, and no other call.
fn has_no_other(end: &Ended<Plain>) -> bool {
    end.entry_at(1, 2).is_none() && end.entry_at(0, 0).is_none() && end.entry_at(2, 1).is_none()
}

/// Whether the history has these two entries and no other, and holds both receipts.
fn has_both(end: &Ended<Plain>, of_q: &Receipt<Kind>, of_p: &Receipt<Kind>) -> bool {
    are_entries(end.history(), of_q, of_p)
        && end.holds(of_q)
        && end.holds(of_p)
        && has_no_other(end)
}

/// Whether a receipt is of a call that was refused as invalid.
fn is_invalid(receipt: &Receipt<Kind>) -> bool {
    matches!(receipt.entry().answer(), Answer::Refused(Refusal::Invalid))
}

/// Whether a stream on which caller 1 wrote `q1` and then caller 0 `p1` has ended, and its history holds
/// their receipts, but not a strange one.
fn holds_both(
    ended: Result<Ended<Plain>, EndFault>,
    (of_q, of_p): (&Receipt<Kind>, &Receipt<Kind>),
    strange: &Receipt<Kind>,
) -> bool {
    match ended {
        Ok(end) => {
            let is_so = has_both(&end, of_q, of_p) && !end.holds(strange);
            drop(end);
            is_so
        }
        Err(_) => false,
    }
}

/// Whether the history of two calls on a stream holds their receipts, but not a strange one.
fn are_held<R: Abort + Wait>(rt: &R, alloc: Global, strange: &Receipt<Kind>) -> bool {
    let (shared, mut seats) = echo(rt, alloc, 0, 2);
    let mut q = last(rt, &mut seats);
    let mut p = last(rt, &mut seats);
    let of_q = receipt(rt, &shared, &mut q, write(rt, alloc, b"q1"));
    let of_p = receipt(rt, &shared, &mut p, write(rt, alloc, b"p1"));
    assert!(rt; p.is_shown() && q.is_shown());
    seats.push(p).expect(rt, "no memory");
    seats.push(q).expect(rt, "no memory");
    assert!(rt; is_of_write(&of_q, 1, b"q1") && is_of_write(&of_p, 0, b"p1"));
    let is_so = holds_both(ended(shared, seats, None), (&of_q, &of_p), strange);
    drop(of_q);
    drop(of_p);
    is_so
}

#[test]
fn a_receipt_shows_the_entry_that_the_history_holds(rt: HostRuntime) {
    let strange = of_another_stream(&rt, rt.alloc(), 2, Request::Look);
    assert!(rt; is_invalid(&strange) && are_held(&rt, rt.alloc(), &strange));
}

/// A call that puts in a module that gives messages this band.
fn push_band(rt: &impl Abort, alloc: Global, b: u8) -> Request<BoxedModule<Plain>> {
    push(rt, alloc, (7, b"m", Kind::Band { b }))
}

/// Whether a stream that has ended holds a receipt.
fn holds(ended: Result<Ended<Plain>, EndFault>, receipt: &Receipt<Kind>) -> Option<bool> {
    match ended {
        Ok(end) => {
            let is_held = end.holds(receipt);
            drop(end);
            Some(is_held)
        }
        Err(_) => None,
    }
}

/// Whether a stream holds the receipt of another push, when a module was put in that gives messages this
/// band.
fn is_held_by_band<R: Abort + Wait>(
    rt: &R,
    alloc: Global,
    b: u8,
    pushed: &Receipt<Kind>,
) -> Option<bool> {
    let (shared, mut seats) = echo(rt, alloc, 0, 1);
    let mut seat = last(rt, &mut seats);
    drop(receipt(rt, &shared, &mut seat, push_band(rt, alloc, b)));
    seats.push(seat).expect(rt, "no memory");
    holds(ended(shared, seats, None), pushed)
}

#[test]
fn a_receipt_tells_kinds_of_module_apart(rt: HostRuntime) {
    let pushed = of_another_stream(&rt, rt.alloc(), 1, push_band(&rt, rt.alloc(), 3));
    for (b, is_held) in [(3, true), (4, false)] {
        assert!(rt; is_held_by_band(&rt, rt.alloc(), b, &pushed) == Some(is_held));
    }
}
