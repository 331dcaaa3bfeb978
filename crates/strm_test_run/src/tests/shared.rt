//! Streams that several callers share: the answer of each call, its entry in the history, and the end of a
//! shared stream.
ghost use Rattle.std.specs.Prelude.{◌≡◌, ℕ, true, None};
ghost use Rattle.strm_head_calls.specs.Setup.{is_fit};

use super::{ECHO, are_writes, told};
use std::alloc::Global;
use std::process::Abort;
use std::sync::Wait;
use strm_head::{Answer, Request};
use strm_module::{BoxedModule, Kind, ModuleOf, Plain};
use strm_msg::End;
use strm_shared::{AnyCalls, EndFault, Ended, FeedEnd, Feeder, Ring, Seat, Shared, StreamRunName};
use strm_shared_log::{Call, Called};

mod callers;
mod draining;
mod ending;
mod lines;
mod many;
mod receipts;
mod waiting;

/// A shared stream, its seats, and the feeder of a line.
type Made<M, N> = (
    Shared<M, N>,
    Vec<Seat>,
    Option<Feeder<<M as ModuleOf>::Kind, N>>,
);

/// A shared stream of this number with this ring, which the run names.
fn made<M: ModuleOf, N: StreamRunName<M::Kind>>(
    rt: &impl Abort,
    alloc: Global,
    number: u32,
    seats: u32,
    ring: Ring,
) -> Made<M, N>
    requires marks { is_fit ring.setup ≡ true }
    requires name { ring.name ≡ N.ring number }
{
    match Shared::new(alloc, number, seats, ring) {
        Ok(made) => made,
        Err(_) => panic!(rt; "no memory"),
    }
}

/// A shared echo of this number, and its seats.
fn echo(rt: &impl Abort, alloc: Global, number: u32, seats: u32) -> (Shared<Plain>, Vec<Seat>) {
    let ring = Ring::new(alloc, ECHO).ok().expect(rt, "a ring");
    let (shared, seats, _) = made::<Plain, AnyCalls>(rt, alloc, number, seats, ring);
    (shared, seats)
}

/// The end of a shared stream.
fn ended<M: ModuleOf, N: StreamRunName<M::Kind>>(
    shared: Shared<M, N>,
    seats: Vec<Seat>,
    feed: Option<FeedEnd<M::Kind, N>>,
) -> Result<Ended<M>, EndFault> {
    shared.end(seats, feed)
}

/// The expected end of a shared stream.
#[derive(Clone, Copy, Drop)]
enum Left {
    /// No call was made.
    Nothing,
    /// These writes, in order, and nothing else: the writer, the first byte, and the length.
    Writes(&'static [(u32, u8, u64)]),
    /// The last call took the modules of these serials out of end A and closed it.
    Closed(&'static [u64]),
    /// For each entry the data of a message that came in, or nothing for a call; and the data of the messages
    /// that did not come in.
    Line(&'static [Option<&'static [u8]>], &'static [&'static [u8]]),
    /// This many messages, numbered from 0, in order: those that came in, and behind them those that did not.
    Numbered(u32),
}

fn is_left(end: &Ended<Plain>, left: Left) -> bool {
    match left {
        Left::Nothing => end.history().is_empty() && end.left().is_empty(),
        Left::Writes(writes) => are_writes(end.history(), writes),
        Left::Closed(out) => callers::is_closed(end, out),
        Left::Line(history, left) => lines::is_line(end, history, left),
        Left::Numbered(many) => many::count_in_order(end) == Some(many),
    }
}

/// Whether a shared stream has ended, and this is its end.
fn leaves(ended: Result<Ended<Plain>, EndFault>, left: Left) -> bool {
    match ended {
        Ok(end) => {
            let is_so = is_left(&end, left);
            drop(end);
            is_so
        }
        Err(_) => false,
    }
}

/// The outcome of a call on an end.
fn call<M: ModuleOf, N: StreamRunName<M::Kind>, R: Abort + Wait>(
    rt: &R,
    shared: &Shared<M, N>,
    seat: &mut Seat,
    end: End,
    request: Request<BoxedModule<M>>,
) -> Called<BoxedModule<M>, M::Kind>
    requires { (number caller : ℕ) → N.calls number caller ≡ None }
{
    assert!(rt; seat.number() == shared.number());
    shared.call(rt, seat, Call { end, request })
}

/// The answer of a call on an end, and whether modules of these serials come back.
fn called<N: StreamRunName<Kind>, R: Abort + Wait>(
    rt: &R,
    shared: &Shared<Plain, N>,
    seat: &mut Seat,
    end: End,
    request: Request<BoxedModule<Plain>>,
    back: &[u64],
) -> (Answer, bool)
    requires { (number caller : ℕ) → N.calls number caller ≡ None }
{
    told(call(rt, shared, seat, end, request), back).expect(rt, "room")
}

/// The answer of a call on end A.
fn answer<N: StreamRunName<Kind>, R: Abort + Wait>(
    rt: &R,
    shared: &Shared<Plain, N>,
    seat: &mut Seat,
    request: Request<BoxedModule<Plain>>,
) -> Answer
    requires { (number caller : ℕ) → N.calls number caller ≡ None }
{
    called(rt, shared, seat, End::A, request, &[]).0
}
