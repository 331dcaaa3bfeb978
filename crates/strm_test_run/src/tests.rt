//! Worked examples that no script can show, by the public calls alone. The expected answers are worked out by
//! hand from the rules.
use std::alloc::Global;
use std::process::Abort;
use strm_head::{Answer, Driver, Event, Reply, Request};
use strm_module::{BoxedModule, Instance, Kind, Module, ModuleOf, Plain, Shape};
use strm_msg::{Bytes, Message};
use strm_shared_log::{Called, Kept, Setup, Who};

mod runs;
mod shared;
mod sizes;

/// An echo whose queues are full at 16 bytes.
const ECHO: Setup = Setup {
    driver: Driver::Echo,
    head: (16, 4),
    drv: (16, 4),
    ring: 1,
};

/// A line with these marks, and a ring for that many messages.
const fn line(marks: (u32, u32), ring: u16) -> Setup {
    Setup {
        driver: Driver::Line,
        head: marks,
        drv: marks,
        ring,
    }
}

/// Stops the test if a row of a table does not hold. It prints the name of the table and the number of the
/// row, counted from 0.
fn check(rt: &impl Abort, (name, at): (&str, usize), is_so: bool) {
    assert!(rt; is_so, "{name}: row {at}");
}

fn bytes(rt: &impl Abort, alloc: Global, bytes: &[u8]) -> Bytes {
    Bytes::from_slice(alloc, bytes).expect(rt, "no memory")
}

/// A call that writes these bytes.
fn write<M: ModuleOf>(rt: &impl Abort, alloc: Global, dat: &[u8]) -> Request<BoxedModule<M>> {
    Request::Write {
        dat: bytes(rt, alloc, dat),
    }
}

/// A module of this serial, name and kind, without queues of its own.
fn boxed<M: Module>(
    rt: &impl Abort,
    alloc: Global,
    (serial, name, kind): (u64, &[u8], Kind),
    object: M,
) -> BoxedModule<M> {
    let shape = Shape::new(serial, name, None, None, kind).expect(rt, "a good name");
    BoxedModule::new(alloc, Instance::new(shape, object)).expect(rt, "no memory")
}

/// A call that puts in a module of this serial, name and kind.
fn push(rt: &impl Abort, alloc: Global, made: (u64, &[u8], Kind)) -> Request<BoxedModule<Plain>> {
    Request::Push {
        instance: boxed(rt, alloc, made, Plain),
    }
}

/// The serial of a module that came back.
fn serial_at<M: ModuleOf>(back: &[Option<BoxedModule<M>>], i: usize) -> Option<u64> {
    match back.get(i) {
        Some(Some(instance)) => Some(instance.shape().serial),
        _ => None,
    }
}

/// Whether the modules that came back have these serials, topmost first, and no others came back.
fn came_back<M: ModuleOf>(back: &[Option<BoxedModule<M>>], serials: &[u64]) -> bool {
    for (i, serial) in serials.iter().enumerate() {
        if serial_at(back, i) != Some(*serial) {
            return false;
        }
    }
    back.len() == serials.len()
}

/// The answer of a call, and whether the modules that came back have these serials; nothing for a call that
/// found no room.
fn told<M: ModuleOf>(
    called: Called<BoxedModule<M>, M::Kind>,
    serials: &[u64],
) -> Option<(Answer, bool)> {
    match called {
        Called::Done {
            answer,
            back,
            receipt,
        } => {
            let is_back = came_back(back.as_slice(), serials);
            drop(receipt);
            drop(back);
            Some((answer, is_back))
        }
        Called::NoRoom(_) => None,
    }
}

/// The writer of an entry, and the first byte and the length of its bytes; nothing for the entry of another
/// call.
fn wrote(kept: &Kept<Kind>) -> Option<(u32, u8, u64)> {
    let entry = kept.entry();
    match (entry.who(), entry.event(), entry.answer()) {
        (
            Who::Caller(caller),
            Event::Asked(Request::Write { dat }),
            Answer::Done(Reply::Write { len }),
        ) => Some((caller, *dat.as_slice().first()?, *len)),
        _ => None,
    }
}

/// Whether a history has these writes, in order, and nothing else: the writer, the first byte, and the
/// length.
fn are_writes(history: &[Kept<Kind>], wanted: &[(u32, u8, u64)]) -> bool {
    for (at, entry) in history.iter().enumerate() {
        if wrote(entry) != wanted.get(at).copied() {
            return false;
        }
    }
    history.len() == wanted.len()
}

/// The data of the message that came in with an entry; nothing for a call.
fn came(kept: &Kept<Kind>) -> Option<&[u8]> {
    let entry = kept.entry();
    match (entry.who(), entry.event()) {
        (Who::Line, Event::Arrived(m)) => Some(data_of(m)),
        _ => None,
    }
}

/// The data of a message; no bytes if it has none.
fn data_of(m: &Message) -> &[u8] {
    match &m.dat {
        Some(dat) => dat.as_slice(),
        None => b"",
    }
}
