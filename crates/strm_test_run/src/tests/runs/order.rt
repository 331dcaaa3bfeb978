//! The order of calls of several callers.
use super::{Ask, Left, Open, Row, Run, plays, wait_for};
use crate::tests::{ECHO, are_writes};
use std::sync::OnceLock;
use strm_module::Kind;
use strm_msg::End::A;
use strm_run::{Gate, StreamLog, Transcript};

/// A gate that makes the first call of caller 0 wait until caller 1 has its first answer.
#[derive(Drop)]
struct SecondFirst<'a> {
    second: &'a OnceLock<()>,
    late: &'a OnceLock<()>,
}

impl Gate for SecondFirst<'_> {
    fn before(&self, caller: u32, number: u64) {
        if caller == 0 && number == 1 {
            wait_for(self.second, self.late);
        }
    }

    fn after(&self, caller: u32, number: u64) {
        if caller == 1 && number == 1 {
            let _ = self.second.try_set(());
        }
    }
}

const ONE_EACH: &[&[Row]] = &[&[(0, A, Ask::Write(b"p1"))], &[(0, A, Ask::Write(b"q1"))]];

const OVERTAKEN: Run<'static> = Run {
    setups: &[ECHO],
    feeds: &[],
    workers: 2,
    left: Left::Writes(&[(1, b'q', 2), (0, b'p', 2)]),
};

#[test]
fn a_caller_that_waits_is_overtaken(rt: HostRuntime) {
    let (second, late) = (OnceLock::new(), OnceLock::new());
    let gate = SecondFirst {
        second: &second,
        late: &late,
    };
    assert!(rt; plays(&rt, rt.alloc(), ONE_EACH, OVERTAKEN, &gate) && late.get().is_none());
}

const TWO_AND_ONE: &[&[Row]] = &[
    &[(0, A, Ask::Write(b"p1")), (0, A, Ask::Write(b"r"))],
    &[(0, A, Ask::Write(b"q12"))],
];

const IN_TURN: Run<'static> = Run {
    setups: &[ECHO],
    feeds: &[],
    workers: 1,
    left: Left::Writes(&[(0, b'p', 2), (0, b'r', 1), (1, b'q', 3)]),
};

/// Whether this is the log of an echo with these writes.
fn has_writes(log: &StreamLog<Kind>, writes: &[(u32, u8, u64)]) -> bool {
    are_writes(log.history.as_slice(), writes)
        && log.a.is_some()
        && log.b.is_none()
        && (log.accepted, log.arrived, log.overrun) == (0, 0, 0)
}

/// The same for the only stream of a run.
pub(super) fn is_written(transcript: &Transcript<Kind>, writes: &[(u32, u8, u64)]) -> bool {
    match transcript.streams.as_slice() {
        [only] => has_writes(only, writes),
        _ => false,
    }
}

#[test]
fn one_worker_plays_scripts_one_after_another(rt: HostRuntime) {
    assert!(rt; plays(&rt, rt.alloc(), TWO_AND_ONE, IN_TURN, &Open));
}
