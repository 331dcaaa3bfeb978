//! The calls of one caller on several streams.
use super::gates::note;
use super::{Ask, Left, Row, leaves, more, run_of, script_call};
use crate::tests::{ECHO, boxed, line};
use std::alloc::Global;
use std::process::Abort;
use std::sync::Wait;
use std::sync::atomic::{AtomicU64, Ordering};
use std::thread::Threads;
use strm_head::{Driver, Request};
use strm_module::{BoxedModule, Kind, Module, Put, Shape};
use strm_msg::End::A;
use strm_msg::{BoxedMessage, NoMem, Side};
use strm_run::{Gate, ScriptCall};
use strm_shared_log::Setup;

/// A gate that notes the number of each call before it is made.
#[derive(Drop)]
struct Counting<'a> {
    done: &'a AtomicU64,
}

impl Gate for Counting<'_> {
    fn before(&self, _: u32, number: u64) {
        note(self.done, 10, number);
    }

    fn after(&self, _: u32, _: u64) {}
}

/// A module that notes a digit for its stream when a message goes down.
#[derive(Drop)]
struct Marking<'a> {
    digit: u64,
    done: &'a AtomicU64,
}

impl Module for Marking<'_> {
    fn put(
        &mut self,
        alloc: Global,
        shape: &mut Shape,
        side: Side,
        m: BoxedMessage,
    ) -> Result<Put, NoMem> {
        if side == Side::Wr {
            note(self.done, 10, self.digit);
        }
        shape.put(alloc, side, m)
    }
}

/// A call that puts a module in on a stream. The module notes 8 on the first stream and 9 on the second.
fn marked<'a>(
    rt: &impl Abort,
    alloc: Global,
    stream: u32,
    done: &'a AtomicU64,
) -> ScriptCall<BoxedModule<Marking<'a>>> {
    let digit = if stream == 0 { 8 } else { 9 };
    let instance = boxed(rt, alloc, (1, b"mark", Kind::Pass), Marking { digit, done });
    script_call(stream, A, Request::Push { instance })
}

/// The calls of the caller once its modules are in.
const WRITES: &[Row] = &[
    (1, A, Ask::Write(b"a")),
    (0, A, Ask::Write(b"b")),
    (0, A, Ask::Write(b"c")),
    (1, A, Ask::Write(b"d")),
    (0, A, Ask::Write(b"e")),
];

/// The notes when one caller plays its script on two streams of this setup; nothing if another number of
/// calls was made.
fn noted<R: Abort + Threads + Wait + Sync>(rt: &R, alloc: Global, setup: Setup) -> Option<u64> {
    let done = AtomicU64::new(0);
    let pushes = vec![in alloc; marked(rt, alloc, 0, &done), marked(rt, alloc, 1, &done)].expect(
        rt,
        "no memory",
    );
    let script = more(rt, alloc, pushes, WRITES);
    let scripts = vec![in alloc; script].expect(rt, "no memory");
    let gate = Counting { done: &done };
    let ran = run_of(rt, alloc, &[setup, setup], scripts, &[], 1, &gate);
    if leaves(ran, Left::Entries(&[(0, 4), (1, 3)])) {
        Some(done.load(Ordering::SeqCst))
    } else {
        None
    }
}

const LOOP: Setup = Setup {
    driver: Driver::Loop,
    head: (16, 4),
    drv: (16, 4),
    ring: 1,
};

#[test]
fn calls_on_two_streams_are_made_in_the_order_of_the_script(rt: HostRuntime) {
    for setup in [ECHO, LOOP, line((16, 4), 1)] {
        assert!(rt; noted(&rt, rt.alloc(), setup) == Some(123_948_586_978));
    }
}
