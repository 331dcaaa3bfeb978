//! Runs that one thread plays step by step, in an order, and callers that await feeds.
ghost use Rattle.std.specs.Mem.{FitsInMemory};
ghost use denote.Plain.{Nothing};
ghost use Rattle.strm_module.specs.contracts.boxed.BoxedModule as boxed_type;
ghost use Rattle.strm_shared_entry.specs.contracts.call.Called as called_type;

use super::{Ask, Fed, Left, Open, Row, feeds_of, leaves, run_of, scripts_of};
use crate::tests::{ECHO, line};
use std::alloc::Global;
use std::process::Abort;
use std::sync::Wait;
use std::thread::Threads;
use strm_module::{BoxedModule, ModuleOf, Plain};
use strm_msg::End::A;
use strm_run::{
    Await, Order, RunFault, Script, Transcript, are_from_line, can_open_all, run_in_order,
};
use strm_shared_log::{Kept, SameKind, Setup};

/// The last of those that may go is next.
#[derive(Drop)]
struct LastFirst;

impl Order for LastFirst {
    fn next(&mut self, many: usize) -> usize {
        many - 1
    }
}

/// The first of those that may go is next.
#[derive(Drop)]
struct FirstFirst;

impl Order for FirstFirst {
    fn next(&mut self, _: usize) -> usize {
        0
    }
}

/// Those that may go take turns.
#[derive(Drop)]
struct InTurn {
    steps: usize,
}

impl Order for InTurn {
    fn next(&mut self, many: usize) -> usize {
        let turn = self.steps % many;
        self.steps = self.steps.wrapping_add(1);
        turn
    }
}

/// A run in an order.
fn run_by<M: ModuleOf, O: Order, R: Abort + Threads + Wait + Sync>(
    rt: &R,
    alloc: Global,
    setups: &[Setup],
    scripts: Vec<Script<BoxedModule<M>>>,
    feeds: &[Fed],
    order: &mut O,
) -> Result<Transcript<M::Kind>, RunFault>
where
    M::Kind: SameKind + Send + Sync,
    requires { FitsInMemory (called_type.the_row (boxed_type.the_row M.row M.Kind.row M.Kind.Kinds) M.Kind.row Nothing) }
{
    let setups = Vec::from_slice(alloc, setups).expect(rt, "no memory");
    let feeds = feeds_of(rt, alloc, feeds);
    assert!(rt; can_open_all(setups.as_slice()) && are_from_line(feeds.as_slice()));
    assert!(rt; setups.len() < 1000 && scripts.len() < 1000);
    let links = Vec::new(alloc);
    run_in_order(rt, alloc, setups, scripts, feeds, links, order, &Open)
}

const TWO_EACH: &[&[Row]] = &[
    &[(0, A, Ask::Write(b"p1")), (0, A, Ask::Write(b"r"))],
    &[(0, A, Ask::Write(b"q12")), (0, A, Ask::Write(b"s"))],
];

/// The writes of an echo whose two callers have gone in an order.
fn are_left<O: Order, R: Abort + Threads + Wait + Sync>(
    rt: &R,
    order: &mut O,
    writes: &[(u32, u8, u64)],
) -> bool
where
    R: AllocGlobal,
{
    let alloc = rt.alloc();
    let scripts: Vec<Script<BoxedModule<Plain>>> = scripts_of(rt, alloc, TWO_EACH);
    let ran = run_by(rt, alloc, &[ECHO], scripts, &[], order);
    leaves(ran, Left::Writes(writes))
}

#[test]
fn the_last_caller_goes_first(rt: HostRuntime) {
    assert!(rt;
        are_left(
            &rt,
            &mut LastFirst,
            &[(1, b'q', 3), (1, b's', 1), (0, b'p', 2), (0, b'r', 1)]
        )
    );
}

#[test]
fn the_first_caller_goes_first(rt: HostRuntime) {
    assert!(rt;
        are_left(
            &rt,
            &mut FirstFirst,
            &[(0, b'p', 2), (0, b'r', 1), (1, b'q', 3), (1, b's', 1)]
        )
    );
}

#[test]
fn callers_take_turns(rt: HostRuntime) {
    let mut turns = InTurn { steps: 0 };
    assert!(rt;
        are_left(
            &rt,
            &mut turns,
            &[(0, b'p', 2), (1, b'q', 3), (0, b'r', 1), (1, b's', 1)]
        )
    );
}

const FED: &[Fed] = &[(0, &[b"a", b"b", b"c"])];

/// Two reads of a line; the second takes all that the feed has.
const READS: &[&[Row]] = &[&[(0, A, Ask::Read(8)), (0, A, Ask::Read(8))]];

/// The scripts of a caller that awaits the feed before its second read.
fn awaiting<M: ModuleOf>(rt: &impl Abort, alloc: Global) -> Vec<Script<BoxedModule<M>>> {
    let mut scripts = scripts_of(rt, alloc, READS);
    let awaits = vec![in alloc; Await { call: 1, stream: 0 }].expect(rt, "no memory");
    scripts.get_mut(0).expect(rt, "a caller").set_awaits(awaits);
    scripts
}

/// The number of messages that came in before the second call of a history that has two.
fn came_before<K>(history: &[Kept<K>]) -> usize {
    history.len().saturating_sub(2)
}

/// Whether the feed came in whole.
fn is_awaited<K: Drop>(ran: Result<Transcript<K>, RunFault>) -> bool {
    match ran {
        Ok(transcript) => {
            let came = match transcript.streams.as_slice() {
                [only] => came_before(only.history.as_slice()),
                _ => 0,
            };
            drop(transcript);
            came == 3
        }
        Err(_) => false,
    }
}

#[test]
fn a_caller_is_left_out_while_it_awaits_a_feed(rt: HostRuntime) {
    let alloc = rt.alloc();
    let scripts: Vec<Script<BoxedModule<Plain>>> = awaiting(&rt, alloc);
    let ran = run_by(
        &rt,
        alloc,
        &[line((16, 4), 8)],
        scripts,
        FED,
        &mut FirstFirst,
    );
    assert!(rt; is_awaited(ran));
}

#[test]
fn a_caller_waits_for_the_feed_that_it_awaits(rt: HostRuntime) {
    let alloc = rt.alloc();
    let scripts: Vec<Script<BoxedModule<Plain>>> = awaiting(&rt, alloc);
    let ran = run_of(&rt, alloc, &[line((16, 4), 8)], scripts, FED, 1, &Open);
    assert!(rt; is_awaited(ran));
}
