//! A run for which no thread can be started.
use super::faults::fault_in;
use super::{Ask, Left, Open, Row, leaves, run_of, scripts_of};
use crate::tests::ECHO;
use std::alloc::Global;
use std::process::Abort;
use std::sync::Wait;
use std::thread::Threads;
use strm_module::{BoxedModule, Kind, Plain};
use strm_msg::End::A;
use strm_run::{RunFault, Script, Transcript};

/// The most pieces in which the address space is taken, and the sizes of the greatest and of the smallest, in
/// bytes. The smallest is less than a thread's stack.
const PIECES: usize = 60_000;

const GREATEST: usize = 1 << 40;

const SMALLEST: usize = 1 << 18;

/// Takes the free address space, apart from less than the smallest piece. Writes nothing there.
fn fill(rt: &impl Abort, alloc: Global) -> Vec<Vec<u8>> {
    let mut taken = Vec::with_capacity(alloc, PIECES).expect(rt, "no memory");
    let mut size = GREATEST;
    for _ in 0..PIECES {
        match Vec::with_capacity(alloc, size) {
            Ok(piece) => taken.push(piece).expect(rt, "no memory"),
            Err(_) => size /= 2,
        }
        if size < SMALLEST {
            break;
        }
    }
    assert!(rt; size < SMALLEST);
    taken
}

const WRITE: &[Row] = &[(0, A, Ask::Write(b"x"))];

/// A run of two writes. The second one is made by a thread.
fn run_two<R: Abort + Threads + Wait + Sync>(
    rt: &R,
    alloc: Global,
    scripts: Vec<Script<BoxedModule<Plain>>>,
) -> Result<Transcript<Kind>, RunFault> {
    run_of(rt, alloc, &[ECHO], scripts, &[], 2, &Open)
}

#[test]
fn want_of_a_thread_is_want_of_memory(rt: HostRuntime) {
    let alloc: Global = rt.alloc();
    let scripts = scripts_of(&rt, alloc, &[WRITE, WRITE]);
    let scripts_again = scripts_of(&rt, alloc, &[WRITE, WRITE]);
    let spare: Vec<u8> = Vec::with_capacity(alloc, 100_000).expect(&rt, "no memory");
    let taken = fill(&rt, alloc);
    drop(spare);
    let refused = fault_in(run_two(&rt, alloc, scripts));
    let small: Vec<u8> = Vec::with_capacity(alloc, 10_000).expect(&rt, "memory that is small");
    drop(taken);
    assert!(rt; refused == Some(RunFault::NoMem) && small.is_empty());
    assert!(rt; leaves(run_two(&rt, alloc, scripts_again), Left::Entries(&[(0, 2)])));
}
