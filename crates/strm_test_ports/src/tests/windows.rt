//! Tests of a module over a loop whose other end has none: what the module sends is read there, and what is
//! written there comes up at the module. The frames are worked out by hand from `docs/ARQ.md`.
use port_arq::Peer;
use port_arq_module::{ArqKind, ByShape};
use std::alloc::Global;
use std::process::Abort;
use strm_chain::{Chain, Driver, Spot};
use strm_module::{BoxedModule, Instance, Kind, Kinds, MakeFault, ModuleOf};
use strm_msg::{Bytes, End, Marks, Message, NoMem};

/// A step, or what has come of the steps before it.
#[derive(Clone, Copy, Drop)]
enum Step {
    /// Data comes from above.
    Writes(&'static [u8]),
    /// Data comes up from below.
    Hears(&'static [u8]),
    /// Ticks pass.
    Ticks(u32),
    /// A flush of both sides comes from above.
    Flushes,
    /// Of what was sent down this is next, or nothing is left.
    Sent(Option<&'static [u8]>),
    /// Of what went up this is next, or nothing is left.
    Raised(Option<&'static [u8]>),
}

use Step::{Flushes, Hears, Raised, Sent, Ticks, Writes};

/// The messages A, B and C of an end that has heard nothing.
const FIRST: &[u8] = &[1, 0, 0, 0, 0, 0, 0, 0, 0, 65];

const SECOND: &[u8] = &[1, 0, 0, 0, 0, 0, 0, 0, 1, 66];

const THIRD: &[u8] = &[1, 0, 0, 0, 0, 0, 0, 0, 2, 67];

/// Acknowledgements of the messages before this number.
const ONE_CAME: &[u8] = &[0, 0, 0, 0, 1];

const TWO_CAME: &[u8] = &[0, 0, 0, 0, 2];

/// The window has room for two messages. The third waits above it.
const WINDOW: &[Step] = &[
    Writes(b"A"),
    Writes(b"B"),
    Writes(b"C"),
    Sent(Some(FIRST)),
    Sent(Some(SECOND)),
    Sent(None),
    Hears(ONE_CAME),
    Sent(Some(THIRD)),
    Sent(None),
    Raised(None),
];

/// A message that comes goes up once, and is acknowledged each time.
const HEARD: &[Step] = &[
    Hears(SECOND),
    Sent(Some(&[0, 0, 0, 0, 0])),
    Hears(FIRST),
    Sent(Some(ONE_CAME)),
    Hears(FIRST),
    Sent(Some(ONE_CAME)),
    Writes(b""),
    Sent(Some(&[1, 0, 0, 0, 1, 0, 0, 0, 0])),
    Sent(None),
    Raised(Some(b"A")),
    Raised(None),
];

/// Three ticks after it was sent a message is sent again, until it is acknowledged.
const TIMER: &[Step] = &[
    Writes(b"A"),
    Sent(Some(FIRST)),
    Ticks(2),
    Sent(None),
    Ticks(1),
    Sent(Some(FIRST)),
    Hears(ONE_CAME),
    Ticks(3),
    Sent(None),
];

/// Data that is no frame is dropped.
const NO_FRAMES: &[Step] = &[
    Hears(b"A"),
    Hears(b""),
    Raised(None),
    Sent(None),
    Writes(b"A"),
    Sent(Some(FIRST)),
];

/// A flush drops data that waits above the window. The end keeps its messages.
const FLUSHED: &[Step] = &[
    Writes(b"A"),
    Writes(b"B"),
    Writes(b"C"),
    Flushes,
    Sent(Some(FIRST)),
    Sent(Some(SECOND)),
    Ticks(3),
    Sent(Some(FIRST)),
    Sent(Some(SECOND)),
    Hears(TWO_CAME),
    Sent(None),
    Writes(b"C"),
    Sent(Some(THIRD)),
];

fn data(rt: &impl Abort, alloc: Global, bytes: &[u8]) -> Message {
    Message::of_data(alloc, 0, bytes).expect(rt, "no memory for data")
}

/// Puts the value that was made into a box.
fn in_box<T: Drop>(rt: &impl Abort, alloc: Global, made: Result<T, NoMem>) -> Box<T> {
    let value = made.expect(rt, "no memory for what a box holds");
    Box::new(alloc, value).expect(rt, "no memory for a box")
}

/// A loop without modules. It is in a box, since a function that holds all of a chain takes long to prove.
fn bare<M: ModuleOf>(rt: &impl Abort, alloc: Global) -> Box<Chain<M>> {
    let marks = Marks::new(5000, 4000).expect(rt, "the low mark is below the high one");
    in_box(rt, alloc, Chain::new(alloc, Driver::Loop, marks, marks))
}

/// A module, as a chain takes it.
fn boxed<M: ModuleOf>(
    rt: &impl Abort,
    alloc: Global,
    made: Result<Instance<M>, MakeFault>,
) -> BoxedModule<M> {
    let module = made.expect(rt, "a good name and good marks");
    BoxedModule::new(alloc, module).expect(rt, "no memory for a box")
}

/// Puts a module in at end A.
fn inserts<M: ModuleOf>(chain: &mut Chain<M>, instance: BoxedModule<M>) -> bool {
    chain.insert(End::A, instance).is_ok()
}

/// A loop with the module at end A, above one that passes everything on.
fn looped(rt: &impl Abort, alloc: Global) -> Box<Chain<ByShape>> {
    let mut chain = bare(rt, alloc);
    let pass = ByShape::builtin(1, b"pass", None, None, Kind::Pass);
    assert!(rt; inserts(&mut chain, boxed(rt, alloc, pass)));
    let arq = ByShape::arq(2, b"arq", None, Some((64, 16)), 2, 3);
    assert!(rt; inserts(&mut chain, boxed(rt, alloc, arq)));
    chain
}

/// Hands a message in from the head of an end. Memory must not run out.
fn hands_in<M: ModuleOf>(rt: &impl Abort, chain: &mut Chain<M>, end: End, m: Message) {
    let spot = Spot::top(end);
    assert!(rt; chain.has_spot(spot));
    let delivered = chain.deliver(spot, m);
    assert!(rt; delivered.is_ok());
    let settled = chain.settle();
    assert!(rt; settled.is_ok());
}

/// Lets ticks pass at end A.
fn ticks<M: ModuleOf>(rt: &impl Abort, chain: &mut Chain<M>, count: u32) {
    chain.tick(End::A, count);
    let settled = chain.settle();
    assert!(rt; settled.is_ok());
}

/// Whether this message is next at the head of an end, or none if none is expected.
fn is_next<M: ModuleOf>(chain: &mut Chain<M>, end: End, want: Option<Message>) -> bool {
    let found = chain.take_head(end);
    let is_so = match (&found, &want) {
        (Some(m), Some(n)) => **m == *n,
        (None, None) => true,
        _ => false,
    };
    drop(found);
    drop(want);
    is_so
}

/// Whether data with these bytes is next at the head of an end, or nothing.
fn comes<M: ModuleOf>(
    rt: &impl Abort,
    alloc: Global,
    chain: &mut Chain<M>,
    end: End,
    want: Option<&[u8]>,
) -> bool {
    match want {
        Some(bytes) => is_next(chain, end, Some(data(rt, alloc, bytes))),
        None => is_next(chain, end, None),
    }
}

/// Makes a step, and says whether what has come of the others is as it is to be.
fn plays<M: ModuleOf>(rt: &impl Abort, alloc: Global, chain: &mut Chain<M>, step: Step) -> bool {
    match step {
        Writes(bytes) => hands_in(rt, chain, End::A, data(rt, alloc, bytes)),
        Hears(bytes) => hands_in(rt, chain, End::B, data(rt, alloc, bytes)),
        Ticks(count) => ticks(rt, chain, count),
        Flushes => hands_in(rt, chain, End::A, Message::of_flush(true, true, None)),
        Sent(want) => return comes(rt, alloc, chain, End::B, want),
        Raised(want) => return comes(rt, alloc, chain, End::A, want),
    }
    true
}

#[test]
fn worked_exchanges(rt: HostRuntime) {
    for (number, exchange) in [WINDOW, HEARD, TIMER, NO_FRAMES, FLUSHED]
        .iter()
        .enumerate()
    {
        let mut chain = looped(&rt, rt.alloc());
        for (at, step) in exchange.iter().enumerate() {
            let is_so = plays(&rt, rt.alloc(), &mut chain, *step);
            assert!(rt; is_so, "exchange {number}, step {at}");
        }
    }
}

/// Checks that a copy of a kind whose end keeps a message is equal to it.
#[test]
fn kinds_are_copied(rt: HostRuntime) {
    let bytes = Bytes::from_slice(rt.alloc(), b"A").expect(&rt, "no memory for bytes");
    let mut peer = Peer::new(2, 3);
    assert!(rt; peer.hand_down(bytes).is_ok());
    let kind = ArqKind::Arq { peer };
    let copy = kind.copy(rt.alloc()).expect(&rt, "no memory for a copy");
    assert!(rt; copy == kind);
    assert!(rt;
        copy != ArqKind::Arq {
            peer: Peer::new(2, 3)
        }
    );
}
