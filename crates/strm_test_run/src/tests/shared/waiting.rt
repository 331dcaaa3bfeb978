//! Callers that wait: producers for room and consumers for messages on one narrow echo, and a caller that
//! waits until one of two streams is ready.
ghost use Rattle.std.specs.Thread.{IsSync};

use super::{ended, made};
use crate::tests::write;
use std::alloc::Global;
use std::process::Abort;
use std::sync::{Arc, Wait};
use std::thread;
use std::thread::Threads;
use strm_head::{Answer, Driver, Reply, Request, Wanted};
use strm_module::{BoxedModule, Kind, Plain};
use strm_msg::End;
use strm_shared::{AnyCalls, Bell, EndFault, Ended, Ring, Seat, Shared};
use strm_shared_log::{Call, Called, Kept, Setup};

/// An echo whose queues are full at 5 bytes.
const NARROW: Setup = Setup {
    driver: Driver::Echo,
    head: (5, 4),
    drv: (5, 4),
    ring: 1,
};

/// The number of producers, and that of consumers.
const PRODUCERS: u32 = 4;

/// The number of messages of each producer.
const EACH: u32 = 25_000;

/// The number of messages of each of two streams.
const EACH_OF_TWO: u32 = 10_000;

/// A narrow echo of this number, and its seats.
fn narrow<R: Abort>(rt: &R, alloc: Global, number: u32, seats: u32) -> (Shared<Plain>, Vec<Seat>) {
    let ring = Ring::new(alloc, NARROW).ok().expect(rt, "a ring");
    let (shared, seats, _) = made::<Plain, AnyCalls>(rt, alloc, number, seats, ring);
    (shared, seats)
}

/// Whether a call was made and was not refused.
fn is_done(called: Called<BoxedModule<Plain>, Kind>) -> bool {
    match called {
        Called::Done {
            answer,
            back,
            receipt,
        } => {
            drop(receipt);
            drop(back);
            matches!(&answer, Answer::Done(_))
        }
        Called::NoRoom(_) => false,
    }
}

/// A call that takes the data of a message, 4 bytes of it at most.
fn getmsg() -> Request<BoxedModule<Plain>> {
    Request::Getmsg {
        maxctl: None,
        maxdat: Some(4),
        flag: Wanted::Any,
    }
}

/// Makes a call on end A as soon as it need not wait, and returns whether it was done.
fn waits<R: Abort + Wait>(
    rt: &R,
    shared: &Shared<Plain>,
    seat: &mut Seat,
    request: Request<BoxedModule<Plain>>,
) -> bool {
    assert!(rt; seat.number() == shared.number());
    let call = Call {
        end: End::A,
        request,
    };
    is_done(shared.call_waiting::<strm_head::ReplyAndCopy, R>(rt, seat, call))
}

/// Makes a call on end A, and returns whether it was done.
fn tries<R: Abort + Wait>(
    rt: &R,
    shared: &Shared<Plain>,
    seat: &mut Seat,
    request: Request<BoxedModule<Plain>>,
) -> bool {
    assert!(rt; seat.number() == shared.number());
    let call = Call {
        end: End::A,
        request,
    };
    is_done(shared.call(rt, seat, call))
}

/// Writes messages in order, each with its number and that of its producer.
fn write_all<R: Abort + Wait>(
    rt: &R,
    alloc: Global,
    shared: &Shared<Plain>,
    seat: Seat,
    many: u32,
) -> Seat {
    let mut seat = seat;
    for number in 0..many {
        let tag = number.wrapping_mul(PRODUCERS).wrapping_add(seat.caller());
        let request = write(rt, alloc, &tag.to_le_bytes());
        assert!(rt; waits(rt, shared, &mut seat, request));
    }
    seat
}

/// Takes messages.
fn take_all<R: Abort + Wait>(rt: &R, shared: &Shared<Plain>, seat: Seat, many: u32) -> Seat {
    let mut seat = seat;
    for _ in 0..many {
        assert!(rt; waits(rt, shared, &mut seat, getmsg()));
    }
    seat
}

/// The work of a producer, or that of a consumer.
fn work<R: Abort + Wait>(rt: &R, alloc: Global, shared: &Shared<Plain>, seat: Seat) -> Seat {
    if seat.caller() < PRODUCERS {
        write_all(rt, alloc, shared, seat, EACH)
    } else {
        take_all(rt, shared, seat, EACH)
    }
}

/// Lets each caller work in a thread of its own, and returns the seats.
fn work_all<R: Abort + Threads + Wait + Sync>(
    rt: &R,
    alloc: Global,
    shared: &Shared<Plain>,
    seats: Vec<Seat>,
) -> Vec<Seat> {
    thread::scope(
        thread::scope_env(),
        rt,
        |scope| -> Vec<Seat>
            requires { IsSync R.row }
        {
            let mut handles = Vec::new(alloc);
            for seat in seats {
                let handle = scope
                    .spawn(move || work(rt, alloc, shared, seat))
                    .ok()
                    .expect(rt, "a thread");
                handles.push(handle).ok().expect(rt, "no memory");
            }
            let mut all = Vec::new(alloc);
            for handle in handles {
                all.push(handle.join(rt)).expect(rt, "no memory");
            }
            all
        },
    )
}

/// The number of a message that a call took; nothing for the entry of another call.
fn taken(kept: &Kept<Kind>) -> Option<u32> {
    let Answer::Done(Reply::Getmsg { dat: Some(dat), .. }) = kept.entry().answer() else {
        return None;
    };
    match dat.as_slice() {
        [a, b, c, d] => Some(u32::from_le_bytes([*a, *b, *c, *d])),
        _ => None,
    }
}

/// Whether the messages of one producer were taken in its order, each once, and that many.
fn are_in_order(history: &[Kept<Kind>], producer: u32, many: u32) -> bool {
    let mut next: u32 = 0;
    for kept in history {
        if let Some(tag) = taken(kept) {
            if tag % PRODUCERS == producer {
                if tag / PRODUCERS != next {
                    return false;
                }
                next = next.saturating_add(1);
            }
        }
    }
    next == many
}

/// Whether a stream has ended, and the messages of each producer were taken in its order, each once.
fn are_taken(ended: Result<Ended<Plain>, EndFault>, producers: u32, many: u32) -> bool {
    match ended {
        Ok(end) => {
            let are_so = (0..producers).all(|producer| are_in_order(end.history(), producer, many));
            drop(end);
            are_so
        }
        Err(_) => false,
    }
}

fn all_were_taken<R: Abort + Threads + Wait + Sync>(rt: &R, alloc: Global) -> bool {
    let (shared, seats) = narrow(rt, alloc, 0, 8);
    let seats = work_all(rt, alloc, &shared, seats);
    are_taken(ended(shared, seats, None), PRODUCERS, EACH)
}

#[test]
fn each_message_is_taken_once_and_in_order_by_callers_that_wait(rt: HostRuntime) {
    assert!(rt; all_were_taken(&rt, rt.alloc()));
}

/// A stream with the bell, and the seats of its producer and of its consumer.
#[derive(Drop)]
struct Belled {
    shared: Shared<Plain>,
    producer: Seat,
    consumer: Seat,
}

/// A narrow echo with this bell.
fn make_belled<R: Abort>(rt: &R, alloc: Global, number: u32, bell: &Arc<Bell, Global>) -> Belled {
    let (shared, mut seats) = narrow(rt, alloc, number, 2);
    let consumer = seats.pop().expect(rt, "a seat");
    let producer = seats.pop().expect(rt, "a seat");
    let bell = Arc::try_clone(bell).expect(rt, "one holder more");
    Belled {
        shared: shared.with_bell(bell),
        producer,
        consumer,
    }
}

/// Takes messages of either stream as they come, and sleeps where neither has one.
fn take_either<R: Abort + Wait>(
    rt: &R,
    bell: &Bell,
    one: (&Shared<Plain>, &mut Seat),
    two: (&Shared<Plain>, &mut Seat),
    many: u32,
) {
    let mut left = many;
    for _ in rt.forever() {
        if left == 0 {
            break;
        }
        let seen = bell.count(rt);
        if tries(rt, one.0, one.1, getmsg()) || tries(rt, two.0, two.1, getmsg()) {
            left = left.saturating_sub(1);
        } else {
            bell.wait_past(rt, seen);
        }
    }
}

/// Lets two producers write on a stream each, while one caller takes from either.
fn hear<R: Abort + Threads + Wait + Sync>(
    rt: &R,
    alloc: Global,
    bell: &Bell,
    one: Belled,
    two: Belled,
) -> bool {
    let Belled {
        shared: first,
        producer: p,
        consumer: mut c,
    } = one;
    let Belled {
        shared: second,
        producer: q,
        consumer: mut d,
    } = two;
    let (a, b) = (&first, &second);
    let (p, q) = thread::scope(
        thread::scope_env(),
        rt,
        |scope| -> (Seat, Seat)
            requires { IsSync R.row }
        {
            let p = scope
                .spawn(move || write_all(rt, alloc, a, p, EACH_OF_TWO))
                .ok()
                .expect(rt, "a thread");
            let q = scope
                .spawn(move || write_all(rt, alloc, b, q, EACH_OF_TWO))
                .ok()
                .expect(rt, "a thread");
            take_either(rt, bell, (a, &mut c), (b, &mut d), 2 * EACH_OF_TWO);
            (p.join(rt), q.join(rt))
        },
    );
    let ends_one = ended_with(rt, alloc, first, p, c);
    let ends_two = ended_with(rt, alloc, second, q, d);
    are_taken(ends_one, 1, EACH_OF_TWO) && are_taken(ends_two, 1, EACH_OF_TWO)
}

/// The end of a stream with these two seats.
fn ended_with<R: Abort>(
    rt: &R,
    alloc: Global,
    shared: Shared<Plain>,
    producer: Seat,
    consumer: Seat,
) -> Result<Ended<Plain>, EndFault> {
    let mut seats = Vec::new(alloc);
    seats.push(producer).expect(rt, "no memory");
    seats.push(consumer).expect(rt, "no memory");
    ended(shared, seats, None)
}

fn both_were_heard<R: Abort + Threads + Wait + Sync>(rt: &R, alloc: Global) -> bool {
    let bell = Arc::new(alloc, Bell::new()).expect(rt, "a bell");
    let one = make_belled(rt, alloc, 0, &bell);
    let two = make_belled(rt, alloc, 1, &bell);
    hear(rt, alloc, &bell, one, two)
}

#[test]
fn a_caller_waits_until_one_of_two_streams_is_ready(rt: HostRuntime) {
    assert!(rt; both_were_heard(&rt, rt.alloc()));
}
