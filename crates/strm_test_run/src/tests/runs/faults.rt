//! Runs that are refused before a thread starts.
use super::{Ask, Fed, Open, Row, run_of, scripts_of};
use crate::tests::{ECHO, line};
use std::alloc::Global;
use std::process::Abort;
use std::sync::Wait;
use std::thread::Threads;
use strm_module::{BoxedModule, Kind, Plain};
use strm_msg::End;
use strm_msg::End::{A, B};
use strm_run::{RunFault, Script, Transcript};

/// The fault of a run of one script with one write, on an echo and a line whose queues are full at 5 bytes,
/// with feeds for these streams.
fn fault<R: Abort + Threads + Wait + Sync>(
    rt: &R,
    alloc: Global,
    workers: u32,
    (stream, end): (u32, End),
    fed: &[Fed],
) -> Option<RunFault> {
    let row: Row = (stream, end, Ask::Write(b"x"));
    let scripts: Vec<Script<BoxedModule<Plain>>> = scripts_of(rt, alloc, &[&[row]]);
    fault_in(run_of(
        rt,
        alloc,
        &[ECHO, line((5, 4), 2)],
        scripts,
        fed,
        workers,
        &Open,
    ))
}

/// The fault of a run, if it has one.
pub(super) fn fault_in(ran: Result<Transcript<Kind>, RunFault>) -> Option<RunFault> {
    ran.err()
}

/// Runs with that many workers, with a write at an end of a stream and with feeds, and the refusal of each.
/// The number of workers is checked first, and then whether everything that is named is there.
const RUNS: &[(u32, (u32, End), &[Fed], Option<RunFault>)] = &[
    (0, (0, A), &[], Some(RunFault::Workers)),
    (1, (0, A), &[], None),
    (64, (0, A), &[], None),
    (65, (0, A), &[], Some(RunFault::Workers)),
    (4_294_967_295, (0, A), &[], Some(RunFault::Workers)),
    (1, (2, A), &[], Some(RunFault::NoSuch)),
    (1, (0, B), &[], Some(RunFault::NoSuch)),
    (1, (1, B), &[], Some(RunFault::NoSuch)),
    (1, (1, A), &[(0, &[])], Some(RunFault::NoSuch)),
    (1, (1, A), &[(2, &[])], Some(RunFault::NoSuch)),
    (1, (1, A), &[(1, &[]), (1, &[])], Some(RunFault::NoSuch)),
    (1, (1, A), &[(1, &[])], None),
    (0, (9, A), &[(0, &[])], Some(RunFault::Workers)),
];

#[test]
fn a_run_has_1_to_64_workers_and_all_that_is_named(rt: HostRuntime) {
    for (workers, at, fed, refused) in RUNS {
        assert!(rt; fault(&rt, rt.alloc(), *workers, *at, fed) == *refused);
    }
}

/// A fault, its number, and its text.
const WORDS: &[(RunFault, u8, &str)] = &[
    (RunFault::Workers, 1, "workers"),
    (RunFault::NoSuch, 2, "no such stream or end"),
    (RunFault::NoMem, 3, "no memory"),
    (RunFault::Unfinished, 5, "unfinished"),
    (RunFault::NoReceipt, 6, "no receipt"),
];

#[test]
fn faults_have_numbers_and_words(rt: HostRuntime) {
    for (fault, number, text) in WORDS {
        assert!(rt; fault.number() == *number && fault.text() == *text);
    }
}
