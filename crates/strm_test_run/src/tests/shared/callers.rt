//! Several callers of one stream.
use super::{Left, answer, called, echo, ended, leaves};
use crate::tests::{check, push, write};
use std::alloc::Global;
use std::process::Abort;
use std::sync::Wait;
use strm_head::{Answer, Refusal, Reply, Request};
use strm_module::{BoxedModule, Kind, Plain};
use strm_msg::End;
use strm_shared::{Ended, Seat, Shared};

/// The callers that write, and their bytes.
const WRITES: &[(u32, &[u8])] = &[(1, b"one"), (0, b"four"), (1, b"x")];

/// The writers, with the first byte and the length of their bytes, as the history has them.
const WRITTEN: &[(u32, u8, u64)] = &[(1, b'o', 3), (0, b'f', 4), (1, b'x', 1)];

fn write_all<R: Abort + Wait>(
    rt: &R,
    alloc: Global,
    shared: &Shared<Plain>,
    seats: &mut Vec<Seat>,
) {
    for (caller, dat) in WRITES {
        let seat = seats.get_mut(*caller as usize).expect(rt, "a seat");
        drop(answer(rt, shared, seat, write(rt, alloc, dat)));
    }
}

/// The number of calls that a caller made.
fn calls_of(seats: &Vec<Seat>, caller: usize) -> u64 {
    match seats.get(caller) {
        Some(seat) => seat.calls(),
        None => 0,
    }
}

#[test]
fn the_history_has_each_call_in_order_with_its_caller(rt: HostRuntime) {
    let alloc: Global = rt.alloc();
    let (shared, mut seats) = echo(&rt, alloc, 3, 2);
    write_all(&rt, alloc, &shared, &mut seats);
    assert!(rt; calls_of(&seats, 0) == 1 && calls_of(&seats, 1) == 2);
    seats.as_mut_slice().reverse();
    assert!(rt; leaves(ended(shared, seats, None), Left::Writes(WRITTEN)));
}

/// A call on the module stack of an end.
#[derive(Clone, Copy, Drop)]
enum Ask {
    /// A module of this serial is put in, and stays.
    Push(u64),
    /// A module of this serial is refused, since the end is closed.
    Refused(u64),
    Close,
}

/// The calls of one caller, and the serials of the modules that come back.
const CALLS: &[(End, Ask, &[u64])] = &[
    (End::A, Ask::Push(5), &[]),
    (End::A, Ask::Push(6), &[]),
    (End::B, Ask::Refused(7), &[7]),
    (End::A, Ask::Close, &[6, 5]),
];

fn request_of(rt: &impl Abort, alloc: Global, ask: Ask) -> Request<BoxedModule<Plain>> {
    match ask {
        Ask::Push(serial) | Ask::Refused(serial) => {
            push(rt, alloc, (serial, b"pass", Kind::Pass))
        }
        Ask::Close => Request::Close,
    }
}

fn is_answer(answer: &Answer, ask: Ask) -> bool {
    match (answer, ask) {
        (Answer::Done(Reply::Push), Ask::Push(_)) => true,
        (Answer::Refused(Refusal::Closed), Ask::Refused(_)) => true,
        (Answer::Done(Reply::Close { .. }), Ask::Close) => true,
        _ => false,
    }
}

/// Whether a call has the expected answer, and these modules come back.
fn comes_back<R: Abort + Wait>(
    rt: &R,
    alloc: Global,
    shared: &Shared<Plain>,
    seat: &mut Seat,
    (end, ask, back): (End, Ask, &[u64]),
) -> bool {
    let request = request_of(rt, alloc, ask);
    let (answer, is_back) = called(rt, shared, seat, end, request, back);
    let is_so = is_answer(&answer, ask);
    drop(answer);
    is_so && is_back
}

/// Whether the last entry took these modules out, and end A is closed.
pub(super) fn is_closed(end: &Ended<Plain>, out: &[u64]) -> bool {
    let Some(last) = end.history().last() else {
        return false;
    };
    last.entry().out() == out && !end.stream().is_open(End::A)
}

#[test]
fn modules_come_back_to_their_caller(rt: HostRuntime) {
    let (shared, mut seats) = echo(&rt, rt.alloc(), 0, 1);
    let mut seat = seats.pop().expect(&rt, "a seat");
    for (at, call) in CALLS.iter().enumerate() {
        let is_so = comes_back(&rt, rt.alloc(), &shared, &mut seat, *call);
        check(&rt, ("calls", at), is_so);
    }
    assert!(rt; seats.push(seat).is_ok());
    assert!(rt; leaves(ended(shared, seats, None), Left::Closed(&[6, 5])));
}
