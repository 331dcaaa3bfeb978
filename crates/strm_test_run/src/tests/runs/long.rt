//! A long script.
use super::{Ask, Left, Open, Row, Run, plays};
use crate::tests::ECHO;
use std::alloc::Global;
use std::process::Abort;
use strm_head::{Answer, Reply};
use strm_module::Kind;
use strm_msg::End::A;
use strm_run::Transcript;
use strm_shared_log::Kept;

/// The number of calls of the script.
const CALLS: usize = 65_536;

/// A script that writes and reads in turn.
fn long_script(rt: &impl Abort, alloc: Global) -> Vec<Row> {
    let mut rows = vec![in alloc].expect(rt, "no memory");
    for _ in 0..CALLS / 2 {
        rows.push((0, A, Ask::Write(b"abc")))
            .expect(rt, "no memory");
        rows.push((0, A, Ask::Read(8))).expect(rt, "no memory");
    }
    rows
}

/// Whether an even call wrote three bytes, and an odd one read them.
fn is_answered(kept: &Kept<Kind>, at: usize) -> bool {
    match kept.entry().answer() {
        Answer::Done(Reply::Write { len }) => at % 2 == 0 && *len == 3,
        Answer::Done(Reply::Read { dat }) => at % 2 == 1 && dat.as_slice() == b"abc".as_slice(),
        _ => false,
    }
}

fn are_each_answered(history: &[Kept<Kind>]) -> bool {
    for (at, kept) in history.iter().enumerate() {
        if !is_answered(kept, at) {
            return false;
        }
    }
    history.len() == CALLS
}

/// Whether each call of a run's only stream has this answer.
pub(super) fn are_answered(transcript: &Transcript<Kind>) -> bool {
    match transcript.streams.as_slice() {
        [only] => are_each_answered(only.history.as_slice()),
        _ => false,
    }
}

const LONG: Run<'static> = Run {
    setups: &[ECHO],
    feeds: &[],
    workers: 2,
    left: Left::Answers,
};

#[test]
fn a_script_of_65536_calls_ends_well(rt: HostRuntime) {
    let rows = long_script(&rt, rt.alloc());
    // Both workers have a caller, so each is a thread of its own.
    let all = rows.as_slice();
    let scripts: &[&[Row]] = &[&all[..0], all];
    assert!(rt; plays(&rt, rt.alloc(), scripts, LONG, &Open));
}
