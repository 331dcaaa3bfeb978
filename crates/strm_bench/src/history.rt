//! The cost of calls on a stream that keeps its history, behind few and many earlier calls.
use std::alloc::Global;
use std::rt::Clock;
use std::time::Instant;
use strm_head::{Driver, Request};
use strm_head_calls::Call;
use strm_module::{BoxedModule, Plain};
use strm_msg::{Bytes, End, NoMem};
use strm_shared_log::{Log, Setup};

/// The number of calls that were made before, in turn.
const MADE: [u64; 3] = [10_000, 100_000, 1_000_000];

/// The number of calls that are timed then.
const TIMED: u64 = 10_000;

/// The request of the call behind `before` others: a write of a byte, or a read that takes it.
fn request(alloc: Global, before: u64) -> Result<Request<BoxedModule<Plain>>, NoMem> {
    if before % 2 == 1 {
        return Ok(Request::Read { max: 1 });
    }
    let dat = Bytes::from_slice(alloc, b"x")?;
    Ok(Request::Write { dat })
}

/// An echo.
const ECHO: Setup = Setup {
    driver: Driver::Echo,
    head: (16, 4),
    drv: (16, 4),
    ring: 1,
};

/// Makes the calls whose numbers are at least `from` and below `to`.
fn make(alloc: Global, log: &mut Log<Plain>, from: u64, to: u64) -> Result<(), NoMem> {
    for before in from..to {
        let request = request(alloc, before)?;
        let end = End::A;
        log.call(0, before.saturating_add(1), Call { end, request });
    }
    Ok(())
}

/// Prints the number of calls that are made on a stream that keeps its history, and of the calls before them.
/// If they are timed, also prints the time of a write and a read.
pub fn measure<R: Print + Clock + AllocGlobal>(rt: &R, is_timed: bool) -> anyhow::Result<()> {
    let alloc: Global = rt.alloc();
    let mut log: Log<Plain> = Log::new(alloc, ECHO)?;
    let mut made = 0;
    for before in MADE {
        make(alloc, &mut log, made, before)?;
        made = before.saturating_add(TIMED);
        let start = Instant::now(rt)?;
        make(alloc, &mut log, before, made)?;
        let taken = start.elapsed(rt)?;
        print!(rt; "behind {before} calls: {TIMED} calls, a write and a read in turn")?;
        if is_timed {
            print!(rt; ", {} ns a pair", taken.as_nanos() / u128::from(TIMED / 2))?;
        }
        println!(rt; "")?;
    }
    Ok(())
}

/// Makes so many calls, so many times, and takes the history behind each time. Prints how many pieces came
/// and how many entries they had.
pub fn drain<R: Print + AllocGlobal>(rt: &R, times: u64, calls: u64) -> anyhow::Result<()> {
    let alloc: Global = rt.alloc();
    let (mut log, mut drain) = Log::<Plain>::with_drain(alloc, ECHO, 1)?;
    let mut pieces: u64 = 0;
    let mut entries: u64 = 0;
    for time in 0..times {
        let from = time.saturating_mul(calls);
        make(alloc, &mut log, from, from.saturating_add(calls))?;
        log.hand_out();
        if let Some(piece) = drain.take()? {
            pieces = pieces.saturating_add(1);
            entries = entries.saturating_add(piece.entries().len() as u64);
        }
    }
    println!(rt; "{times} times {calls} calls: {entries} entries in {pieces} pieces")?;
    Ok(())
}
