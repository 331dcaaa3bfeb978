//! Streams whose history is drained while they go on.
ghost use Rattle.std.specs.Thread.{IsSend, IsSync};
ghost use Rattle.strm_head_calls.specs.Setup.{is_fit};

use super::receipts::receipt;
use super::{answer, ended};
use crate::tests::{ECHO, write};
use std::alloc::Global;
use std::process::Abort;
use std::sync::Wait;
use std::thread;
use std::thread::Threads;
use strm_head::Request;
use strm_module::{BoxedModule, Kind, Plain};
use strm_shared::{Drain, EndFault, Piece, Ring, Seat, Shared};
use strm_shared_log::Receipt;

/// The number of calls that each of two callers makes while a third thread drains.
const CALLS: u32 = 2_000;

/// A shared echo, its seats and its drain.
fn drained(rt: &impl Abort, alloc: Global, seats: u32) -> (Shared<Plain>, Vec<Seat>, Drain<Kind>) {
    let ring = Ring::new(alloc, ECHO).ok().expect(rt, "a ring");
    assert!(rt; ECHO.is_fit());
    match Shared::with_drain(alloc, 0, seats, ring) {
        Ok((shared, seats, _, drain)) => (shared, seats, drain),
        Err(_) => panic!(rt; "no memory"),
    }
}

/// The next piece, of this many entries.
fn piece<R: Abort + Wait>(
    rt: &R,
    shared: &Shared<Plain>,
    drain: &mut Drain<Kind>,
    many: usize,
) -> Piece<Kind> {
    let piece = shared
        .drain(rt, drain)
        .expect(rt, "no memory")
        .expect(rt, "a piece");
    assert!(rt; piece.setup() == ECHO && piece.entries().len() == many);
    piece
}

/// Whether a piece holds these receipts, of two callers, one call each.
fn holds(piece: &Piece<Kind>, (of_q, of_p): (&Receipt<Kind>, &Receipt<Kind>)) -> (bool, bool) {
    (piece.holds(of_q), piece.holds(of_p))
}

/// The receipts of a call by each of two callers, `q` first.
fn both_call<R: Abort + Wait>(
    rt: &R,
    alloc: Global,
    shared: &Shared<Plain>,
    (p, q): (&mut Seat, &mut Seat),
) -> (Receipt<Kind>, Receipt<Kind>) {
    let of_q = receipt(rt, shared, q, write(rt, alloc, b"same"));
    let of_p = receipt(rt, shared, p, Request::Read { max: 4 });
    (of_q, of_p)
}

/// Drains a stream behind each two calls. Each piece has just these, and holds their receipts and no others,
/// though the calls of both pieces are the same.
fn drain_twice<R: Abort + Wait>(rt: &R, alloc: Global) -> Option<EndFault> {
    let (shared, mut seats, mut drain) = drained(rt, alloc, 2);
    let mut q = seats.pop().expect(rt, "a seat");
    let mut p = seats.pop().expect(rt, "a seat");
    let first = both_call(rt, alloc, &shared, (&mut p, &mut q));
    let one = piece(rt, &shared, &mut drain, 2);
    let second = both_call(rt, alloc, &shared, (&mut p, &mut q));
    let other = piece(rt, &shared, &mut drain, 2);
    assert!(rt; one.before() == [0, 0].as_slice() && other.before() == [1, 1].as_slice());
    assert!(rt; holds(&one, (&first.0, &first.1)) == (true, true));
    assert!(rt; holds(&one, (&second.0, &second.1)) == (false, false));
    assert!(rt; holds(&other, (&first.0, &first.1)) == (false, false));
    assert!(rt; holds(&other, (&second.0, &second.1)) == (true, true));
    assert!(rt;
        shared
            .drain(rt, &mut drain)
            .expect(rt, "no memory")
            .is_none()
    );
    seats.push(p).expect(rt, "no memory");
    seats.push(q).expect(rt, "no memory");
    ended(shared, seats, None).err()
}

#[test]
fn a_piece_holds_the_receipts_of_its_own_calls(rt: HostRuntime) {
    assert!(rt; drain_twice(&rt, rt.alloc()) == Some(EndFault::Drained));
}

/// Makes the calls of one caller, and returns how many it made.
fn call_all<R: Abort + Wait>(rt: &R, shared: &Shared<Plain>, seat: Seat) -> u64 {
    let mut seat = seat;
    for _ in 0..CALLS {
        drop(answer(rt, shared, &mut seat, Request::Nread));
        thread::yield_now();
    }
    seat.calls()
}

/// Drains a stream until its pieces have so many entries, and returns how many they have.
fn drain_all<R: Abort + Wait>(
    rt: &R,
    shared: &Shared<Plain>,
    drain: &mut Drain<Kind>,
    all: u64,
) -> u64 {
    let mut many: u64 = 0;
    for _ in rt.forever() {
        if many >= all {
            break;
        }
        if let Some(piece) = shared.drain(rt, drain).expect(rt, "no memory") {
            many = many.saturating_add(piece.entries().len() as u64);
            drop(piece);
        }
        thread::yield_now();
    }
    many
}

/// The number of entries of all pieces, where two callers make their calls while a thread drains.
fn drained_meanwhile<R: Abort + Threads + Wait + Sync>(rt: &R, alloc: Global) -> u64 {
    let (shared, mut seats, mut drain) = drained(rt, alloc, 2);
    let q = seats.pop().expect(rt, "a seat");
    let p = seats.pop().expect(rt, "a seat");
    let stream = &shared;
    thread::scope(
        thread::scope_env(),
        rt,
        |scope| -> u64
            requires { IsSync R.row }
        {
            let one = scope
                .spawn(move || -> u64 { call_all(rt, stream, p) })
                .ok()
                .expect(rt, "a thread");
            let other = scope
                .spawn(move || -> u64 { call_all(rt, stream, q) })
                .ok()
                .expect(rt, "a thread");
            let many = drain_all(rt, stream, &mut drain, 2 * u64::from(CALLS));
            assert!(rt; one.join(rt) == u64::from(CALLS) && other.join(rt) == u64::from(CALLS));
            many
        },
    )
}

#[test]
fn no_entry_is_lost_while_a_thread_drains(rt: HostRuntime) {
    assert!(rt; drained_meanwhile(&rt, rt.alloc()) == 2 * u64::from(CALLS));
}
