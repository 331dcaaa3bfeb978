//! A module for which memory runs out once. Before a change, the call is refused and can be made again. After
//! a change, the stream is broken.
use super::{apply, boxed, bytes, check, serial_at, stream_over};
use std::alloc::Global;
use std::process::Abort;
use strm_head::{Answer, Driver, Outcome, Refusal, Reply, Request, Stream};
use strm_module::{BoxedModule, Kind, Module, ModuleOf, Put, Shape};
use strm_msg::{BoxedMessage, NoMem, Side};

type Boxes = Stream<Box<dyn Module>>;

/// An object that passes everything on, but answers one put with out of memory.
#[derive(Drop)]
struct Wants {
    /// The number of puts before that one.
    before: u64,
}

impl Module for Wants {
    fn put(
        &mut self,
        alloc: Global,
        shape: &mut Shape,
        side: Side,
        m: BoxedMessage,
    ) -> Result<Put, NoMem> {
        let is_wanting = self.before == 0;
        self.before = self.before.wrapping_sub(1);
        if is_wanting {
            return Err(NoMem);
        }
        shape.put(alloc, side, m)
    }
}

/// A call.
#[derive(Clone, Copy, Drop)]
enum Asked {
    /// Writes the byte x.
    Write,
    /// Reads at most 8 bytes.
    Read,
    Look,
    Close,
}

/// The answer of a call.
#[derive(Clone, Copy, Drop)]
enum Want {
    /// The module was put in.
    Pushed,
    /// The byte was written.
    Written,
    /// The byte was read.
    Read,
    /// The end was closed, and the module came out.
    Closed,
    Refused(Refusal),
    Broke,
}

// An echo with one module, a pass without queues. A write is put to it on its way down, and comes back
// through it. Out of memory at the first put is before a change, and at the second one after a change.
const FIRST_PUT: &[(Asked, Want)] = &[
    (Asked::Write, Want::Refused(Refusal::NoMemory)),
    (Asked::Read, Want::Refused(Refusal::WouldWait)),
    (Asked::Write, Want::Written),
    (Asked::Read, Want::Read),
];

const SECOND_PUT: &[(Asked, Want)] = &[
    (Asked::Write, Want::Broke),
    (Asked::Read, Want::Refused(Refusal::Broken)),
    (Asked::Look, Want::Refused(Refusal::Broken)),
    (Asked::Close, Want::Closed),
    (Asked::Read, Want::Refused(Refusal::Closed)),
];

fn request_of<M: ModuleOf>(
    rt: &impl Abort,
    alloc: Global,
    asked: Asked,
) -> Request<BoxedModule<M>> {
    match asked {
        Asked::Write => Request::Write {
            dat: bytes(rt, alloc, b"x"),
        },
        Asked::Read => Request::Read { max: 8 },
        Asked::Look => Request::Look,
        Asked::Close => Request::Close,
    }
}

/// Whether the module came out.
fn has_come_out<M: ModuleOf>(outcome: &Outcome<M>) -> bool {
    serial_at(outcome.back.as_slice(), 0) == Some(7)
}

/// Whether a call has this answer.
fn is_answered<M: ModuleOf>(outcome: &Outcome<M>, want: Want) -> bool {
    match (&outcome.answer, want) {
        (Answer::Done(Reply::Push), Want::Pushed) => true,
        (Answer::Done(Reply::Write { len }), Want::Written) => *len == 1,
        (Answer::Done(Reply::Read { dat }), Want::Read) => dat.as_slice() == b"x".as_slice(),
        (Answer::Done(Reply::Close { .. }), Want::Closed) => has_come_out(outcome),
        (Answer::Refused(refusal), Want::Refused(wanted)) => *refusal == wanted,
        (Answer::Broke, Want::Broke) => true,
        _ => false,
    }
}

/// Makes a call, and returns whether it has this answer.
fn answers<M: ModuleOf>(
    stream: &mut Stream<M>,
    request: Request<BoxedModule<M>>,
    want: Want,
) -> bool {
    let outcome = apply(stream, request);
    let is_so = is_answered(&outcome, want);
    drop(outcome);
    is_so
}

/// A module for which memory runs out at the put behind `before` others.
fn wanting(rt: &impl Abort, alloc: Global, before: u64) -> BoxedModule<Box<dyn Module>> {
    let object: Box<dyn Module> = Box::new(alloc, Wants { before }).expect(rt, "no memory");
    boxed(rt, alloc, (7, b"t", Kind::Pass), object)
}

fn play(rt: &impl Abort, alloc: Global, before: u64, calls: &[(Asked, Want)]) {
    let mut stream: Boxes = stream_over(rt, alloc, Driver::Echo);
    let instance = wanting(rt, alloc, before);
    assert!(rt; answers(&mut stream, Request::Push { instance }, Want::Pushed));
    for (at, (asked, want)) in calls.iter().enumerate() {
        let request = request_of(rt, alloc, *asked);
        check(rt, ("calls", at), answers(&mut stream, request, *want));
    }
    drop(stream);
}

#[test]
fn a_module_that_wants_memory_refuses_or_breaks(rt: HostRuntime) {
    play(&rt, rt.alloc(), 0, FIRST_PUT);
    play(&rt, rt.alloc(), 1, SECOND_PUT);
}
