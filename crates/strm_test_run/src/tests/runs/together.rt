//! Workers that all run at once.
use super::{Ask, Left, Row, Run, plays, wait_for};
use crate::tests::ECHO;
use std::alloc::Global;
use std::sync::OnceLock;
use strm_msg::End::A;
use strm_run::Gate;

/// The greatest number of workers of a run.
const MOST: u32 = 64;

const WRITES: &[Row] = &[(0, A, Ask::Write(b"x"))];

/// A script for each worker.
const SCRIPTS: &[&[Row]] = &[WRITES; 64];

/// A gate that lets callers go on once all have come to it.
#[derive(Drop)]
struct Together<'a> {
    come: &'a [OnceLock<()>],
    late: &'a OnceLock<()>,
}

impl Gate for Together<'_> {
    fn before(&self, caller: u32, _: u64) {
        if let Some(own) = self.come.get(caller as usize) {
            let _ = own.try_set(());
        }
        for one in self.come {
            if self.late.get().is_none() {
                wait_for(one, self.late);
            }
        }
    }

    fn after(&self, _: u32, _: u64) {}
}

const TOGETHER: Run<'static> = Run {
    setups: &[ECHO],
    feeds: &[],
    workers: MOST,
    left: Left::Entries(&[(0, 64)]),
};

#[test]
fn as_many_workers_as_there_may_be_run_at_once(rt: HostRuntime) {
    let alloc: Global = rt.alloc();
    let mut come = vec![in alloc].expect(&rt, "no memory");
    for _ in 0..MOST {
        come.push(OnceLock::new()).expect(&rt, "no memory");
    }
    let late = OnceLock::new();
    let gate = Together {
        come: come.as_slice(),
        late: &late,
    };
    assert!(rt; plays(&rt, alloc, SCRIPTS, TOGETHER, &gate) && late.get().is_none());
}
