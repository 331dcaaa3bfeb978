//! The cost of offering a message to the ring of a line, compared with a bare push into such a ring.
ghost use Rattle.std.specs.Prelude.{◌≡◌, ℕ, None};

use rtrb::{Consumer, Producer, PushError, RingBuffer};
use std::alloc::Global;
use std::io;
use std::marker::Brand;
use std::rt::Clock;
use std::time::Instant;
use strm_head::Driver;
use strm_module::Kind;
use strm_msg::Message;
use strm_shared::{Feeder, Inlet, Ring, StreamRunName};
use strm_shared_log::Setup;

/// The number of messages that the ring holds.
const SIZE: u16 = 4096;

/// The number of times that the ring is filled and emptied.
const ROUNDS: u32 = 100;

/// The line that is fed.
const LINE: Setup = Setup {
    driver: Driver::Line,
    head: (16, 4),
    drv: (16, 4),
    ring: SIZE,
};

/// The number of messages that went through, and the nanoseconds that it took to hand them in.
struct Taken {
    many: u64,
    nanos: u128,
}

/// Whether a message that is offered is accepted.
fn is_accepted<N: StreamRunName<Kind>>(feeder: &mut Feeder<Kind, N>) -> bool
    requires { (number : ℕ) → N.feed number ≡ None }
{
    match feeder.arrive(Message::of_hangup()) {
        Ok(()) => true,
        Err(m) => {
            drop(m);
            false
        }
    }
}

/// Offers as many messages as the ring holds, and returns the number that were accepted.
fn offer<N: StreamRunName<Kind>>(feeder: &mut Feeder<Kind, N>) -> u64
    requires { (number : ℕ) → N.feed number ≡ None }
{
    let mut accepted: u64 = 0;
    for _ in 0..SIZE {
        accepted = accepted.saturating_add(u64::from(is_accepted(feeder)));
    }
    accepted
}

/// Takes as many messages as the ring holds.
fn take_all<N: StreamRunName<Kind>>(inlet: &mut Inlet<Kind, N>) {
    for _ in 0..SIZE {
        inlet.take();
    }
}

/// Whether there was room for a message that is pushed.
fn has_room(producer: &mut Producer<Message>) -> bool {
    match producer.push(Message::of_hangup()) {
        Ok(()) => true,
        Err(PushError::Full(m)) => {
            drop(m);
            false
        }
    }
}

/// Pushes as many messages as the ring holds, and returns the number for which there was room.
fn push(producer: &mut Producer<Message>) -> u64 {
    let mut pushed: u64 = 0;
    for _ in 0..SIZE {
        pushed = pushed.saturating_add(u64::from(has_room(producer)));
    }
    pushed
}

/// Pops as many messages as the ring holds.
fn pop_all(consumer: &mut Consumer<Message>) {
    for _ in 0..SIZE {
        let _ = consumer.pop();
    }
}

/// Prints the number of messages that went through. If they are timed, also prints the cost of handing one
/// in.
fn tell(rt: &impl Print, what: &str, taken: Taken, is_timed: bool) -> anyhow::Result<()> {
    let Taken { many, nanos } = taken;
    print!(rt; "{what}: {many} messages, {SIZE} at a time")?;
    if is_timed {
        print!(rt;
            ", {} ns each",
            nanos / (u128::from(ROUNDS) * u128::from(SIZE))
        )?;
    }
    println!(rt; "")?;
    Ok(())
}

/// Fills and empties a ring over and over by a feeder and an inlet.
fn feed<N: StreamRunName<Kind>>(
    rt: &impl Clock,
    feeder: &mut Feeder<Kind, N>,
    inlet: &mut Inlet<Kind, N>,
) -> io::Result<Taken>
    requires { (number : ℕ) → N.feed number ≡ None }
{
    let mut many: u64 = 0;
    let mut nanos: u128 = 0;
    for _ in 0..ROUNDS {
        let start = Instant::now(rt)?;
        many = many.saturating_add(offer(feeder));
        nanos = nanos.saturating_add(start.elapsed(rt)?.as_nanos());
        take_all(inlet);
    }
    Ok(Taken { many, nanos })
}

/// Fills and empties a ring over and over by its bare ends.
fn push_bare(
    rt: &impl Clock,
    producer: &mut Producer<Message>,
    consumer: &mut Consumer<Message>,
) -> io::Result<Taken> {
    let mut many: u64 = 0;
    let mut nanos: u128 = 0;
    for _ in 0..ROUNDS {
        let start = Instant::now(rt)?;
        many = many.saturating_add(push(producer));
        nanos = nanos.saturating_add(start.elapsed(rt)?.as_nanos());
        pop_all(consumer);
    }
    Ok(Taken { many, nanos })
}

/// The time and the number of messages through a ring, by a feeder and an inlet; nothing if the ring has no
/// feeder.
fn fed<N: StreamRunName<Kind>, R: Clock>(rt: &R, ring: Ring) -> Option<io::Result<Taken>>
    requires name { ring.name ≡ N.ring 0 }
    requires any { (number : ℕ) → N.feed number ≡ None }
{
    let (mut inlet, feeder) = ring.into_ends::<Kind, N>(0);
    let mut feeder = feeder?;
    Some(feed(rt, &mut feeder, &mut inlet))
}

/// The time and the number of messages through a bare ring.
fn pushed(rt: &impl Clock, alloc: Global) -> io::Result<Taken> {
    let (mut producer, mut consumer) = RingBuffer::new(alloc, usize::from(SIZE))?;
    push_bare(rt, &mut producer, &mut consumer)
}

/// Prints the number of messages that go through rings. If they are timed, also prints the cost of handing
/// one in.
pub fn measure<R: Print + Clock + AllocGlobal>(rt: &R, is_timed: bool) -> anyhow::Result<()> {
    let ring = Ring::new(rt.alloc(), LINE)?;
    let Some(taken) = fed::<Brand, R>(rt, ring) else {
        anyhow::bail!("no feeder")
    };
    tell(rt, "a feeder", taken?, is_timed)?;
    tell(rt, "a bare ring", pushed(rt, rt.alloc())?, is_timed)
}
