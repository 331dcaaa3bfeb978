//! Shared streams, which end when all seats are back.
use super::{Left, answer, echo, ended, leaves};
use crate::tests::{ECHO, line, write};
use std::alloc::Global;
use std::process::Abort;
use std::sync::Wait;
use strm_head::{Answer, Reply, Request};
use strm_module::{BoxedModule, Plain};
use strm_shared::{EndFault, Ring, RingFault, Seat, Shared};
use strm_shared_log::Setup;

/// A number of messages, and whether a ring for that many is made for a line.
const RINGS: &[(u16, bool)] = &[(0, false), (1, true), (4096, true), (4097, false)];

/// Whether a ring has this setup, or is refused if none is expected.
fn is_ring(made: Result<Ring, RingFault>, setup: Setup, is_made: bool) -> bool {
    match made {
        Ok(ring) => is_made && ring.setup() == setup,
        Err(fault) => !is_made && fault == RingFault::Slots && fault.number() == 1,
    }
}

#[test]
fn the_ring_of_a_line_holds_1_to_4096_messages(rt: HostRuntime) {
    for (ring, is_made) in RINGS {
        let setup = line((16, 4), *ring);
        assert!(rt; is_ring(Ring::new(rt.alloc(), setup), setup, *is_made));
    }
    let setup = Setup { ring: 0, ..ECHO };
    assert!(rt; is_ring(Ring::new(rt.alloc(), setup), setup, true));
}

/// The fault for which a shared echo does not end, if it does not.
fn fault_of(shared: Shared<Plain>, seats: Vec<Seat>) -> Option<EndFault> {
    ended(shared, seats, None).err()
}

/// The seats of another shared echo.
fn seats_of_another(rt: &impl Abort, alloc: Global, number: u32, seats: u32) -> Vec<Seat> {
    let (shared, seats) = echo(rt, alloc, number, seats);
    drop(shared);
    seats
}

/// The fault for which a shared echo for one caller does not end with these seats in place of its own.
fn fault_with(rt: &impl Abort, alloc: Global, seats: Vec<Seat>) -> Option<EndFault> {
    let (shared, own) = echo(rt, alloc, 0, 1);
    drop(own);
    fault_of(shared, seats)
}

#[test]
fn its_own_seat_for_each_caller_is_wanted(rt: HostRuntime) {
    let alloc: Global = rt.alloc();
    assert!(rt; fault_with(&rt, alloc, Vec::new(alloc)) == Some(EndFault::Seats));
    let others = seats_of_another(&rt, alloc, 1, 1);
    assert!(rt; fault_with(&rt, alloc, others) == Some(EndFault::Seats));
}

#[test]
fn seats_come_back_in_any_order(rt: HostRuntime) {
    let (shared, mut seats) = echo(&rt, rt.alloc(), 7, 3);
    assert!(rt; shared.number() == 7 && shared.setup() == ECHO && seats.len() == 3);
    seats.as_mut_slice().reverse();
    assert!(rt; leaves(ended(shared, seats, None), Left::Nothing));
}

/// A call.
#[derive(Clone, Copy, Drop)]
enum Ask {
    /// A write of one byte.
    Write,
    /// A question for the number of messages, which is none.
    Nread,
}

fn request_of(rt: &impl Abort, alloc: Global, ask: Ask) -> Request<BoxedModule<Plain>> {
    match ask {
        Ask::Write => write(rt, alloc, b"x"),
        Ask::Nread => Request::Nread,
    }
}

/// Whether a call has the expected answer.
fn is_answered(answer: Answer, ask: Ask) -> bool {
    let is_so = match (&answer, ask) {
        (Answer::Done(Reply::Write { len }), Ask::Write) => *len == 1,
        (Answer::Done(Reply::Nread { messages, bytes }), Ask::Nread) => {
            *messages == 0 && *bytes == 0
        }
        _ => false,
    };
    drop(answer);
    is_so
}

/// The fault for which a shared echo with one caller does not end, once the last caller of another echo has
/// made a call on it. The other echo has the same number, and `many` callers.
fn fault_after<R: Abort + Wait>(rt: &R, alloc: Global, many: u32, ask: Ask) -> Option<EndFault> {
    let (shared, seats) = echo(rt, alloc, 0, 1);
    let mut others = seats_of_another(rt, alloc, 0, many);
    let mut other = others.pop().expect(rt, "a seat");
    assert!(rt; other.caller() == many.saturating_sub(1));
    let answer = answer(rt, &shared, &mut other, request_of(rt, alloc, ask));
    assert!(rt; is_answered(answer, ask));
    fault_of(shared, seats)
}

#[test]
fn a_call_by_a_twin_of_the_seat_or_without_a_seat_is_found(rt: HostRuntime) {
    for (many, ask) in [(1, Ask::Write), (2, Ask::Nread)] {
        assert!(rt; fault_after(&rt, rt.alloc(), many, ask) == Some(EndFault::Unfinished));
    }
}
