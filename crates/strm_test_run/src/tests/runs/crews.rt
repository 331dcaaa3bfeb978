//! Many callers, played by one worker and by many.
use super::{Ask, Left, Open, Row, Run, plays};
use crate::tests::{ECHO, wrote};
use strm_module::Kind;
use strm_msg::End::A;
use strm_run::Transcript;
use strm_shared_log::{Kept, Setup};

const SETUPS: &[Setup] = &[ECHO, ECHO, ECHO];

/// The calls that each caller makes.
const CALLS: &[Row] = &[
    (0, A, Ask::Write(b"a")),
    (1, A, Ask::Write(b"bb")),
    (1, A, Ask::Write(b"c")),
    (0, A, Ask::Write(b"dd")),
    (1, A, Ask::Write(b"e")),
];

const SCRIPTS: &[&[Row]] = &[CALLS, CALLS, CALLS, CALLS];

/// The first byte and the length of the writes of each caller on the first stream, and on the second.
const FIRST: &[(u8, u64)] = &[(b'a', 1), (b'd', 2)];

const SECOND: &[(u8, u64)] = &[(b'b', 2), (b'c', 1), (b'e', 1)];

/// Whether a history has writes alone, and these of this caller, in order, and no others of it.
fn has_calls(history: &[Kept<Kind>], caller: u32, wanted: &[(u8, u64)]) -> bool {
    let mut at: usize = 0;
    for entry in history {
        let Some((who, first, len)) = wrote(entry) else {
            return false;
        };
        if who == caller {
            if wanted.get(at) != Some(&(first, len)) {
                return false;
            }
            at = at.saturating_add(1);
        }
    }
    at == wanted.len()
}

/// Whether each stream has the calls of each caller that it made there, and no others.
pub(super) fn are_played(transcript: &Transcript<Kind>) -> bool {
    let [first, second, third] = transcript.streams.as_slice() else {
        return false;
    };
    let mut are_so = first.history.len() == 8 && second.history.len() == 12;
    for caller in 0..4 {
        are_so &= has_calls(first.history.as_slice(), caller, FIRST);
        are_so &= has_calls(second.history.as_slice(), caller, SECOND);
    }
    are_so && third.history.is_empty()
}

/// A run of all scripts.
const PLAYED: Run<'static> = Run {
    setups: SETUPS,
    feeds: &[],
    workers: 1,
    left: Left::Calls,
};

#[test]
fn each_number_of_workers_plays_all_scripts(rt: HostRuntime) {
    for workers in [1, 2, 3, 64] {
        assert!(rt; plays(&rt, rt.alloc(), SCRIPTS, Run { workers, ..PLAYED }, &Open));
    }
}

/// Whether there is one stream without an entry.
pub(super) fn is_fresh(transcript: &Transcript<Kind>) -> bool {
    match transcript.streams.as_slice() {
        [only] => only.history.is_empty(),
        _ => false,
    }
}

const NOTHING: Run<'static> = Run {
    setups: &[ECHO],
    feeds: &[],
    workers: 3,
    left: Left::Fresh,
};

#[test]
fn nothing_to_play_leaves_fresh_streams(rt: HostRuntime) {
    assert!(rt; plays(&rt, rt.alloc(), &[], NOTHING, &Open));
}
