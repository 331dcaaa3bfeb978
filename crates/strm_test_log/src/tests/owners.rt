//! Boxed modules are handed in and come back, and each is closed once.
use super::{apply, boxed, came_back, check, stream_over};
use std::alloc::Global;
use std::process::Abort;
use std::sync::Arc;
use std::sync::atomic::{AtomicU64, Ordering};
use strm_head::{Answer, Driver, Refusal, Request, Stream};
use strm_module::{BoxedModule, Kind, Module, ModuleOf};

type Boxes = Stream<Box<dyn Module>>;

/// The numbers of the objects that were closed, in order, a digit for each.
type Log = Arc<AtomicU64, Global>;

/// An object that writes its number on the log when it is closed.
struct Told {
    number: u64,
    log: Log,
}

impl Drop for Told {
    fn drop(self) {
        let before = self.log.load(Ordering::SeqCst).saturating_mul(10);
        self.log
            .store(before.saturating_add(self.number), Ordering::SeqCst);
        let Told { number: _, log: _ } = self;
    }
}

impl Module for Told {}

fn new_log(rt: &impl Abort, alloc: Global) -> Log {
    Arc::new(alloc, AtomicU64::new(0)).expect(rt, "no memory for a log")
}

/// The number on the log.
fn logged(log: &Log) -> u64 {
    log.load(Ordering::SeqCst)
}

/// A call on end A.
#[derive(Clone, Copy, Drop)]
enum Call {
    /// The object of this number is pushed in a box. Its number is also the module's serial.
    Push(u64),
    Pop,
    Close,
}

/// A call, whether it is refused because the end is closed, the serials of the modules that come back, and
/// the number on the log before and after they are dropped.
type Row = (Call, bool, &'static [u64], u64, u64);

/// The topmost of three modules is popped and dropped, and then the end is closed. The other two come back,
/// and are closed from top to bottom when they are dropped.
const CLOSE: &[Row] = &[
    (Call::Push(1), false, &[], 0, 0),
    (Call::Push(2), false, &[], 0, 0),
    (Call::Push(3), false, &[], 0, 0),
    (Call::Pop, false, &[3], 0, 3),
    (Call::Close, false, &[2, 1], 3, 321),
];

/// A push at a closed end hands its module back. The module is closed when the caller drops it.
const REFUSED_PUSH: &[Row] = &[
    (Call::Close, false, &[], 0, 0),
    (Call::Push(4), true, &[4], 0, 4),
];

fn boxed_told(
    rt: &impl Abort,
    alloc: Global,
    log: &Log,
    number: u64,
) -> BoxedModule<Box<dyn Module>> {
    let told = Told {
        number,
        log: Arc::try_clone(log).expect(rt, "the log has few owners"),
    };
    let object: Box<dyn Module> = Box::new(alloc, told).expect(rt, "no memory for a box");
    boxed(rt, alloc, (number, b"m", Kind::Pass), object)
}

fn request_of(
    rt: &impl Abort,
    alloc: Global,
    log: &Log,
    call: Call,
) -> Request<BoxedModule<Box<dyn Module>>> {
    match call {
        Call::Push(number) => Request::Push {
            instance: boxed_told(rt, alloc, log, number),
        },
        Call::Pop => Request::Pop,
        Call::Close => Request::Close,
    }
}

/// Makes a call, and returns whether these modules come back and are closed when they are dropped.
fn happens<M: ModuleOf>(
    stream: &mut Stream<M>,
    request: Request<BoxedModule<M>>,
    log: &Log,
    (_, is_refused, serials, before, after): Row,
) -> bool {
    let outcome = apply(stream, request);
    let is_answered = matches!(outcome.answer, Answer::Refused(Refusal::Closed)) == is_refused;
    let is_back = came_back(outcome.back.as_slice(), serials) && logged(log) == before;
    drop(outcome);
    is_answered && is_back && logged(log) == after
}

/// Makes calls on a stream, and checks that nothing is closed a second time with it.
fn play(rt: &impl Abort, alloc: Global, rows: &[Row], last: u64) {
    let log = new_log(rt, alloc);
    let mut stream: Boxes = stream_over(rt, alloc, Driver::Loop);
    for (at, row) in rows.iter().enumerate() {
        let request = request_of(rt, alloc, &log, row.0);
        check(rt, ("calls", at), happens(&mut stream, request, &log, *row));
    }
    drop(stream);
    assert!(rt; logged(&log) == last);
}

#[test]
fn boxes_of_a_close_are_closed_once_each(rt: HostRuntime) {
    play(&rt, rt.alloc(), CLOSE, 321);
}

#[test]
fn box_of_a_refused_push_comes_back(rt: HostRuntime) {
    play(&rt, rt.alloc(), REFUSED_PUSH, 4);
}
