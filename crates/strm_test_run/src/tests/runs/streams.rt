//! Streams with a lock for each.
use super::{Ask, Left, leaves, pushing, run_of, script_of, two, wait_for};
use crate::tests::{ECHO, boxed};
use std::alloc::Global;
use std::process::Abort;
use std::sync::{OnceLock, Wait};
use std::thread::Threads;
use strm_module::{Kind, Module, Put, Shape};
use strm_msg::End::A;
use strm_msg::{BoxedMessage, NoMem, Side};
use strm_run::Gate;

/// The progress of a run of two callers: the first is in its module, the second has its answer, and one that
/// waited for either did so in vain.
#[derive(Drop)]
struct Done {
    inside: OnceLock<()>,
    answered: OnceLock<()>,
    late: OnceLock<()>,
}

/// A module that waits, when a message comes, until the call on the other stream is answered.
#[derive(Drop)]
struct Waiting<'a> {
    done: &'a Done,
}

impl Module for Waiting<'_> {
    fn put(
        &mut self,
        alloc: Global,
        shape: &mut Shape,
        side: Side,
        m: BoxedMessage,
    ) -> Result<Put, NoMem> {
        let _ = self.done.inside.try_set(());
        wait_for(&self.done.answered, &self.done.late);
        shape.put(alloc, side, m)
    }
}

/// A gate that lets caller 1 begin once caller 0 is in its module.
impl Gate for Done {
    fn before(&self, caller: u32, _: u64) {
        if caller == 1 {
            wait_for(&self.inside, &self.late);
        }
    }

    fn after(&self, caller: u32, _: u64) {
        if caller == 1 {
            let _ = self.answered.try_set(());
        }
    }
}

/// Whether a call on one stream is answered while another stream is locked by a call.
fn is_apart<R: Abort + Threads + Wait + Sync>(rt: &R, alloc: Global, one: u32, other: u32) -> bool {
    let done = Done {
        inside: OnceLock::new(),
        answered: OnceLock::new(),
        late: OnceLock::new(),
    };
    let object = Waiting { done: &done };
    let instance = boxed(rt, alloc, (1, b"wait", Kind::Pass), object);
    let first = pushing(rt, alloc, one, instance, &[(one, A, Ask::Write(b"x"))]);
    let second = script_of(rt, alloc, &[(other, A, Ask::Write(b"y"))]);
    let scripts = two(rt, alloc, first, second);
    let ran = run_of(rt, alloc, &[ECHO, ECHO, ECHO], scripts, &[], 2, &done);
    let entries = [(one as usize, 2), (other as usize, 1)];
    leaves(ran, Left::Entries(&entries))
        && done.answered.get().is_some()
        && done.late.get().is_none()
}

#[test]
fn a_stream_does_not_wait_for_another(rt: HostRuntime) {
    let alloc: Global = rt.alloc();
    for (one, other) in [(0, 1), (0, 2), (1, 0), (1, 2), (2, 0), (2, 1)] {
        assert!(rt; is_apart(&rt, alloc, one, other));
    }
}
