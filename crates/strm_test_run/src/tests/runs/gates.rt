//! The calls of a gate.
use super::{Ask, Left, Row, leaves, pushing, run_of, script_of, two};
use crate::tests::{ECHO, boxed};
use std::alloc::Global;
use std::process::Abort;
use std::sync::Wait;
use std::sync::atomic::{AtomicU64, Ordering};
use std::thread::Threads;
use strm_module::{Kind, Module};
use strm_msg::End::A;
use strm_run::Gate;

/// Appends digits to those that are there. `shift` is the power of ten that makes room for them.
pub(super) fn note(done: &AtomicU64, shift: u64, digits: u64) {
    let before = done.load(Ordering::SeqCst).saturating_mul(shift);
    done.store(before.saturating_add(digits), Ordering::SeqCst);
}

/// A gate that notes 1, the caller and the number before a call, and 2 and both after it.
#[derive(Drop)]
struct Noting<'a> {
    done: &'a AtomicU64,
}

impl Noting<'_> {
    fn notes(&self, what: u64, caller: u32, number: u64) {
        let tens = (caller as u64).saturating_mul(10);
        let digits = what.saturating_add(tens).saturating_add(number);
        note(self.done, 1000, digits);
    }
}

impl Gate for Noting<'_> {
    fn before(&self, caller: u32, number: u64) {
        self.notes(100, caller, number);
    }

    fn after(&self, caller: u32, number: u64) {
        self.notes(200, caller, number);
    }
}

/// A module that notes 4 when it is closed.
struct Watched<'a> {
    done: &'a AtomicU64,
}

impl Drop for Watched<'_> {
    fn drop(self) {
        note(self.done, 10, 4);
        let Watched { done: _ } = self;
    }
}

impl Module for Watched<'_> {}

/// The calls of caller 1.
const CALLS: &[Row] = &[(1, A, Ask::Write(b"q")), (0, A, Ask::Pop)];

/// Whether these are the notes of a run in which caller 0 pushes the module, and caller 1 writes on another
/// stream and pops the module.
fn is_noted<R: Abort + Threads + Wait + Sync>(rt: &R, alloc: Global, noted: u64) -> bool {
    let done = AtomicU64::new(0);
    let object = Watched { done: &done };
    let instance = boxed(rt, alloc, (1, b"note", Kind::Pass), object);
    let p = pushing(rt, alloc, 0, instance, &[]);
    let scripts = two(rt, alloc, p, script_of(rt, alloc, CALLS));
    let gate = Noting { done: &done };
    let ran = run_of(rt, alloc, &[ECHO, ECHO], scripts, &[], 1, &gate);
    leaves(ran, Left::Entries(&[(0, 2)])) && done.load(Ordering::SeqCst) == noted
}

#[test]
fn a_gate_is_called_round_each_call_and_what_comes_back_is_dropped_within(rt: HostRuntime) {
    assert!(rt; is_noted(&rt, rt.alloc(), 1_012_011_112_111_124_212));
}
