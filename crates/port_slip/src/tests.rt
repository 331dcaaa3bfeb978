//! Tests of SLIP over a loop. The bytes of the frames are worked out by hand from RFC 1055.
use crate::{ByShape, SlipKind, first_datagram, frame, send};
use std::alloc::Global;
use std::process::Abort;
use strm_chain::{Chain, Driver, Spot};
use strm_module::{BoxedModule, Instance, Kind, Kinds, MakeFault, ModuleOf};
use strm_msg::{Bytes, End, Marks, Message, NoMem};

/// A step in a loop.
#[derive(Clone, Copy, Drop)]
enum Step {
    /// Data is sent down at end A.
    Write(&'static [u8]),
    /// The driver flushes the read side of end B.
    Flush,
    /// The driver hangs up at end B.
    Hangup,
}

use Step::{Flush, Hangup, Write};

/// Some steps, and the datagrams that come up at end B.
type Row = (&'static [Step], &'static [&'static [u8]]);

/// The spot from the driver to the one module of end B.
const FROM_DRIVER: Spot = Spot::Up { end: End::B, i: 1 };

fn data(rt: &impl Abort, alloc: Global, bytes: &[u8]) -> Message {
    Message::of_data(alloc, 0, bytes).expect(rt, "no memory for data")
}

/// Puts the value that was made into a box.
fn in_box<T: Drop>(rt: &impl Abort, alloc: Global, made: Result<T, NoMem>) -> Box<T> {
    let value = made.expect(rt, "no memory for what a box holds");
    Box::new(alloc, value).expect(rt, "no memory for a box")
}

/// A loop without modules. It is in a box, since a function that holds all of a chain takes long to prove.
fn bare<M: ModuleOf>(rt: &impl Abort, alloc: Global) -> Box<Chain<M>> {
    let marks = Marks::new(5000, 4000).expect(rt, "the low mark is below the high one");
    in_box(rt, alloc, Chain::new(alloc, Driver::Loop, marks, marks))
}

/// A module, as a chain takes it.
fn boxed<M: ModuleOf>(
    rt: &impl Abort,
    alloc: Global,
    made: Result<Instance<M>, MakeFault>,
) -> BoxedModule<M> {
    let module = made.expect(rt, "a good name and good marks");
    BoxedModule::new(alloc, module).expect(rt, "no memory for a box")
}

/// Puts a module in at an end.
fn inserts<M: ModuleOf>(chain: &mut Chain<M>, end: End, instance: BoxedModule<M>) -> bool {
    chain.insert(end, instance).is_ok()
}

/// SLIP with a write queue, or a module that passes everything on.
fn near(alloc: Global, is_slip: bool) -> Result<Instance<ByShape>, MakeFault> {
    if is_slip {
        ByShape::slip(alloc, 2, b"slip", None, Some((50, 40)))
    } else {
        ByShape::builtin(2, b"pass", None, None, Kind::Pass)
    }
}

/// The modules of a loop: whether end A has SLIP, or else a module that passes everything on, and whether
/// SLIP at end B has a read queue.
type Stands = (bool, bool);

/// A loop with SLIP at end B. At end A is SLIP with a write queue, or a module that passes everything on.
fn looped(rt: &impl Abort, alloc: Global, (slip_at_a, queued): Stands) -> Box<Chain<ByShape>> {
    let mut chain = bare(rt, alloc);
    let marks = if queued { Some((50, 40)) } else { None };
    let far = ByShape::slip(alloc, 1, b"slip", marks, None);
    assert!(rt; inserts(&mut chain, End::B, boxed(rt, alloc, far)));
    let near = near(alloc, slip_at_a);
    assert!(rt; inserts(&mut chain, End::A, boxed(rt, alloc, near)));
    chain
}

/// Hands a message in. Memory must not run out.
fn hands_in(rt: &impl Abort, chain: &mut Chain<ByShape>, spot: Spot, m: Message) {
    assert!(rt; chain.has_spot(spot));
    let sent = send(chain, spot, m);
    assert!(rt; sent.is_ok());
}

fn plays(rt: &impl Abort, alloc: Global, chain: &mut Chain<ByShape>, step: Step) {
    match step {
        Write(bytes) => hands_in(rt, chain, Spot::top(End::A), data(rt, alloc, bytes)),
        Flush => hands_in(rt, chain, FROM_DRIVER, Message::of_flush(true, false, None)),
        Hangup => hands_in(rt, chain, FROM_DRIVER, Message::of_hangup()),
    }
}

/// Whether this message comes up at end B, or none if none is expected.
fn comes_up<M: ModuleOf>(chain: &mut Chain<M>, want: Option<Message>) -> bool {
    let found = chain.take_head(End::B);
    let is_so = match (&found, &want) {
        (Some(m), Some(n)) => **m == *n,
        (None, None) => true,
        _ => false,
    };
    drop(found);
    drop(want);
    is_so
}

/// Checks that the steps of each row, in a new loop, bring up these datagrams and no others.
fn holds(rt: &impl Abort, alloc: Global, stands: Stands, rows: &[Row]) {
    for (steps, want) in rows {
        let mut chain = looped(rt, alloc, stands);
        for step in *steps {
            plays(rt, alloc, &mut chain, *step);
        }
        for bytes in *want {
            assert!(rt; comes_up(&mut chain, Some(data(rt, alloc, bytes))));
        }
        assert!(rt; comes_up(&mut chain, None));
    }
}

const DATAGRAMS: &[Row] = &[
    (&[Write(b"plain"), Write(b"text")], &[b"plain", b"text"]),
    (&[Write(&[192, 219, 192])], &[&[192, 219, 192]]),
    // An empty datagram is none, and the bytes that follow an ESC in a frame are plain bytes of a datagram.
    (
        &[Write(&[]), Write(&[220, 221, 219, 220])],
        &[&[220, 221, 219, 220]],
    ),
];

const FRAMES: &[Row] = &[
    // Two frames in one message, with one END between them.
    (&[Write(&[192, 1, 192, 2, 192])], &[&[1], &[2]]),
    // A frame in three messages, one of which ends within an escape.
    (
        &[Write(&[192, 1, 219]), Write(&[220, 2]), Write(&[192])],
        &[&[1, 192, 2]],
    ),
    // Of three frames in one message, the third waits for more data if the module has no read queue.
    (&[Write(&[1, 192, 2, 192, 3, 192])], &[&[1], &[2]]),
    (
        &[Write(&[1, 192, 2, 192, 3, 192]), Write(&[4, 192])],
        &[&[1], &[2], &[3], &[4]],
    ),
    // An ESC before a byte other than 220 and 221, and an ESC before the END.
    (&[Write(&[219, 7, 192, 8, 219, 192])], &[&[7], &[8, 219]]),
];

// With a read queue, all frames of a message go up at once, two by two, before the data that comes next.
const WHOLE: &[Row] = &[
    (&[Write(&[1, 192, 2, 192, 3, 192])], &[&[1], &[2], &[3]]),
    (
        &[
            Write(&[1, 192, 2, 192, 3, 192, 4, 192, 5, 192, 6]),
            Write(&[192, 7, 192]),
        ],
        &[&[1], &[2], &[3], &[4], &[5], &[6], &[7]],
    ),
    (&[Write(&[192, 1, 192, 2, 192])], &[&[1], &[2]]),
];

const LONG: &[u8] = &[7; 3000];

const NOISE: &[Row] = &[
    (&[Write(b"noise"), Write(&[192, 1, 192])], &[b"noise", &[1]]),
    (&[Write(b"half"), Flush, Write(&[1, 192])], &[&[1]]),
    (&[Write(b"half"), Hangup, Write(&[1, 192])], &[&[1]]),
    // Of a datagram over 1006 bytes, the first 1006 go up.
    (&[Write(LONG), Write(LONG), Write(&[192])], &[&[7; 1006]]),
];

#[test]
fn datagrams_come_up_as_they_were(rt: HostRuntime) {
    holds(&rt, rt.alloc(), (true, false), DATAGRAMS);
    holds(&rt, rt.alloc(), (true, true), DATAGRAMS);
}

#[test]
fn frames_come_up_as_datagrams(rt: HostRuntime) {
    holds(&rt, rt.alloc(), (false, false), FRAMES);
    holds(&rt, rt.alloc(), (false, true), WHOLE);
}

#[test]
fn noise_is_apart_and_what_is_kept_is_dropped(rt: HostRuntime) {
    holds(&rt, rt.alloc(), (false, false), NOISE);
    holds(&rt, rt.alloc(), (false, true), NOISE);
}

/// A datagram. Its frame is below.
const DATAGRAM: &[u8] = &[1, 192, 219];

const FRAMED: &[u8] = &[192, 1, 219, 220, 219, 221, 192];

fn is_first(datagram: Vec<u8>, behind: &[u8], want: &[u8]) -> bool {
    let is_so = datagram.as_slice() == want && behind.is_empty();
    drop(datagram);
    is_so
}

/// Whether the first datagram of these bytes is this one, with nothing behind its frame.
fn is_read(alloc: Global, bytes: &[u8], want: &[u8]) -> bool {
    match first_datagram(alloc, bytes) {
        Ok(Some((datagram, behind))) => is_first(datagram, behind, want),
        _ => false,
    }
}

/// Whether a copy of a kind that keeps these bytes is equal to it.
fn is_copied(rt: &impl Abort, alloc: Global, kept: Vec<u8>) -> bool {
    let kind = SlipKind::Slip {
        kept: Bytes::from_vec(alloc, kept).expect(rt, "no memory for bytes"),
        band: 3,
    };
    let copy = kind.copy(alloc).expect(rt, "no memory for a copy");
    let is_so = copy == kind;
    drop(copy);
    drop(kind);
    is_so
}

/// Checks that the calls that take memory answer if there is memory.
#[test]
fn frames_are_made_and_read(rt: HostRuntime) {
    let framed = frame(rt.alloc(), DATAGRAM).expect(&rt, "no memory");
    assert!(rt; framed.as_slice() == FRAMED && is_read(rt.alloc(), FRAMED, DATAGRAM));
    assert!(rt; is_copied(&rt, rt.alloc(), framed));
}
