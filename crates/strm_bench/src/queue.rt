//! The cost of a put and a get while messages wait in a queue.
use std::alloc::Global;
use std::rt::Clock;
use std::time::Instant;
use strm_msg::{BoxedMessage, Message, NoMem};
use strm_queue::{BandQueue, Marks};

/// The number of messages that wait, in turn.
const WAITING: [u32; 3] = [10, 1_000, 100_000];

/// The number of times that a message is put and one is taken.
const ROUNDS: u32 = 100_000;

/// The number of bands of the messages.
const BANDS: u32 = 8;

/// Puts a message of one byte. Its band depends on its number.
fn put(alloc: Global, queue: &mut BandQueue, number: u32) -> Result<(), NoMem> {
    let band = (number % BANDS) as u8;
    let m = BoxedMessage::new(alloc, Message::of_data(alloc, band, b"x")?)?;
    match queue.put(m) {
        Ok(()) => Ok(()),
        Err(m) => {
            drop(m);
            Err(NoMem)
        }
    }
}

/// A queue in which that many messages wait.
fn filled(alloc: Global, waiting: u32) -> Result<BandQueue, NoMem> {
    let mut queue = BandQueue::new(alloc, Marks::new(16, 4).unwrap());
    for number in 0..waiting {
        put(alloc, &mut queue, number)?;
    }
    Ok(queue)
}

/// Puts a message and takes one, over and over.
fn turn(alloc: Global, queue: &mut BandQueue) -> Result<(), NoMem> {
    for number in 0..ROUNDS {
        put(alloc, queue, number)?;
        queue.get();
    }
    Ok(())
}

/// Prints the number of messages that go through queues in which few and many messages wait. If they are
/// timed, also prints the time that it takes.
pub fn measure<R: Print + Clock + AllocGlobal>(rt: &R, is_timed: bool) -> anyhow::Result<()> {
    let alloc: Global = rt.alloc();
    for waiting in WAITING {
        let mut queue = filled(alloc, waiting)?;
        let start = Instant::now(rt)?;
        turn(alloc, &mut queue)?;
        let taken = start.elapsed(rt)?;
        print!(rt; "{waiting} wait: {ROUNDS} times a put and a get")?;
        if is_timed {
            print!(rt; ", {} ns each", taken.as_nanos() / u128::from(ROUNDS))?;
        }
        println!(rt; "")?;
    }
    Ok(())
}
