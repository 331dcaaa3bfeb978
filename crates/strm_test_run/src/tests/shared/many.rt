//! A million numbered messages go through a small ring, while four callers read.
ghost use Rattle.std.specs.Prelude.{◌≡◌, ℕ, true, None, IfSome};
ghost use Rattle.std.specs.Thread.{IsSend, IsSync};
ghost use Rattle.strm_msg.specs.Kind.{is_from_line};
ghost use Rattle.strm_head_calls.specs.Setup.{is_fit};

use super::{Left, answer, ended, leaves, made};
use crate::tests::line;
use std::alloc::Global;
use std::marker::Brand;
use std::process::Abort;
use std::sync::{OnceLock, Wait};
use std::thread;
use std::thread::Threads;
use strm_head::{Event, Request};
use strm_module::{Kind, Plain};
use strm_msg::Message;
use strm_shared::{Ended, Feeder, Ring, Seat, Shared, StreamRunName};

/// The number of messages.
const MESSAGES: u32 = 1_000_000;

/// The number of callers that read.
const CALLERS: u32 = 4;

/// Offers a message. It comes back if the ring has no room.
fn offer<N: StreamRunName<Kind>>(feeder: &mut Feeder<Kind, N>, m: Message) -> Option<Message>
    requires line { is_from_line m.kind ≡ true }
    requires feed { (number : ℕ) → N.feed number ≡ None }
    ensures { IfSome result (λ same. is_from_line same.kind ≡ true) }
{
    feeder.arrive(m).err()
}

/// Offers a message until the ring has room for it.
fn send<N: StreamRunName<Kind>, R: Wait>(rt: &R, feeder: &mut Feeder<Kind, N>, m: Message)
    requires line { is_from_line m.kind ≡ true }
    requires feed { (number : ℕ) → N.feed number ≡ None }
{
    let mut offered = m;
    for _ in rt.forever() {
        let Some(same) = offer(feeder, offered) else {
            return;
        };
        offered = same;
        thread::yield_now();
    }
}

/// Offers all messages, numbered from 0, and notes the end of it.
fn send_all<N: StreamRunName<Kind>, R: Abort + Wait>(
    rt: &R,
    alloc: Global,
    feeder: &mut Feeder<Kind, N>,
    is_done: &OnceLock<()>,
)
    requires { (number : ℕ) → N.feed number ≡ None }
{
    for number in 0..MESSAGES {
        let m = Message::of_data(alloc, 0, &number.to_le_bytes()).expect(rt, "no memory");
        assert!(rt; m.from_line());
        send(rt, feeder, m);
    }
    assert!(rt; is_done.try_set(()).is_ok());
}

/// Reads the messages that are there, over and over, until all were offered.
fn read_all<N: StreamRunName<Kind>, R: Abort + Wait>(
    rt: &R,
    shared: &Shared<Plain, N>,
    seat: Seat,
    is_done: &OnceLock<()>,
) -> Seat
    requires { (number caller : ℕ) → N.calls number caller ≡ None }
{
    let mut seat = seat;
    for _ in rt.forever() {
        if is_done.get().is_some() {
            break;
        }
        drop(answer(rt, shared, &mut seat, Request::Read { max: 65_535 }));
        thread::yield_now();
    }
    seat
}

/// Whether the message that came in with an entry has the next number.
fn is_number(m: &Message, next: u32) -> bool {
    match &m.dat {
        Some(dat) => dat.as_slice() == next.to_le_bytes().as_slice(),
        None => false,
    }
}

/// The number of messages that came in, and behind them those that did not, if their numbers are in order,
/// once each.
pub(super) fn count_in_order(ended: &Ended<Plain>) -> Option<u32> {
    let mut next: u32 = 0;
    for kept in ended.history() {
        if let Event::Arrived(m) = kept.entry().event() {
            if !is_number(m, next) {
                return None;
            }
            next = next.saturating_add(1);
        }
    }
    for m in ended.left() {
        if !is_number(m, next) {
            return None;
        }
        next = next.saturating_add(1);
    }
    Some(next)
}

/// Lets callers read while a line is fed, and returns the seats.
fn read_while_fed<N: StreamRunName<Kind> + Send + Sync, R: Abort + Threads + Wait + Sync>(
    rt: &R,
    alloc: Global,
    shared: &Shared<Plain, N>,
    seats: Vec<Seat>,
    feeder: &mut Feeder<Kind, N>,
) -> Vec<Seat>
    requires calls { (number caller : ℕ) → N.calls number caller ≡ None }
    requires feed { (number : ℕ) → N.feed number ≡ None }
{
    let is_done = OnceLock::new();
    let done = &is_done;
    thread::scope(
        thread::scope_env(),
        rt,
        |scope| -> Vec<Seat>
            requires { IsSync R.row × IsSend N.row × IsSync N.row × ((number caller : ℕ) → N.calls number caller ≡ None) × ((number : ℕ) → N.feed number ≡ None) }
        {
            let mut handles = Vec::new(alloc);
            for seat in seats {
                let handle = scope
                    .spawn(
                        move || -> Seat
                            requires { (number caller : ℕ) → N.calls number caller ≡ None }
                        { read_all(rt, shared, seat, done) },
                    )
                    .ok()
                    .expect(rt, "a thread");
                handles.push(handle).ok().expect(rt, "no memory");
            }
            send_all(rt, alloc, feeder, done);
            let mut all = Vec::new(alloc);
            for handle in handles {
                all.push(handle.join(rt)).expect(rt, "no memory");
            }
            all
        },
    )
}

/// Whether all messages came in, or were still in the ring at the end, in order, once each.
fn have_come<N: StreamRunName<Kind> + Send + Sync, R: Abort + Threads + Wait + Sync>(
    rt: &R,
    alloc: Global,
    ring: Ring,
) -> bool
    requires marks { is_fit ring.setup ≡ true }
    requires name { ring.name ≡ N.ring 0 }
    requires calls { (number caller : ℕ) → N.calls number caller ≡ None }
    requires feed { (number : ℕ) → N.feed number ≡ None }
{
    let (shared, seats, feeder) = made::<Plain, N>(rt, alloc, 0, CALLERS, ring);
    let mut feeder = feeder.expect(rt, "a feeder");
    let seats = read_while_fed(rt, alloc, &shared, seats, &mut feeder);
    leaves(
        ended(shared, seats, feeder.finish()),
        Left::Numbered(MESSAGES),
    )
}

/// The same, on a line whose queues are never full, under the name of a ring of its own for 16 messages.
fn all_have_come<R: Abort + Threads + Wait + Sync>(rt: &R, alloc: Global) -> bool {
    let setup = line((4_294_967_295, 1), 16);
    let ring = Ring::new(alloc, setup).ok().expect(rt, "a ring");
    assert!(rt; setup.is_fit());
    have_come::<Brand, R>(rt, alloc, ring)
}

#[test]
fn each_of_a_million_messages_comes_in_once_and_in_order(rt: HostRuntime) {
    assert!(rt; all_have_come(&rt, rt.alloc()));
}
