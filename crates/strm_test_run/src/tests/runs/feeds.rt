//! Lines that are fed while callers play.
use super::{Ask, Fed, Left, Open, Row, Run, plays};
use crate::tests::{came, line};
use strm_head::{Answer, Reply};
use strm_module::Kind;
use strm_msg::End::A;
use strm_run::{StreamLog, Transcript};
use strm_shared_log::Kept;

/// The first byte of data that came in with an entry.
fn first_of(kept: &Kept<Kind>) -> Option<u8> {
    match came(kept) {
        Some(dat) => dat.first().copied(),
        None => None,
    }
}

/// The number of bytes that a read took, if an entry is one.
fn read(kept: &Kept<Kind>) -> Option<usize> {
    match kept.entry().answer() {
        Answer::Done(Reply::Read { dat }) => Some(dat.len()),
        _ => None,
    }
}

const SECOND_FED: &[Fed] = &[(1, &[b"a", b"b", b"c"])];

/// The numbers of messages that were accepted, that came in, and that found no room.
fn counts(log: &StreamLog<Kind>) -> (u64, u64, u64) {
    (log.accepted, log.arrived, log.overrun)
}

/// Whether the first of two lines was not fed, and of the messages for the second two are in the ring and one
/// found no room.
pub(super) fn is_overrun(transcript: &Transcript<Kind>) -> bool {
    match transcript.streams.as_slice() {
        [unfed, fed] => {
            counts(unfed) == (0, 0, 0) && counts(fed) == (2, 0, 1) && fed.history.is_empty()
        }
        _ => false,
    }
}

#[test]
fn what_the_ring_has_no_room_for_is_handed_back_and_counted(rt: HostRuntime) {
    let overrun = Run {
        setups: &[line((16, 4), 2), line((16, 4), 2)],
        feeds: SECOND_FED,
        workers: 1,
        left: Left::Overrun,
    };
    assert!(rt; plays(&rt, rt.alloc(), &[], overrun, &Open));
}

const FED: &[Fed] = &[(0, &[b"a", b"b", b"c"])];

const READ: Row = (0, A, Ask::Read(8));

const READS: &[&[Row]] = &[&[READ, READ, READ]];

/// The number of messages that came in, if they are `a`, `b` and so on, and have no fewer bytes than were
/// read.
fn arrived_in_order(history: &[Kept<Kind>]) -> Option<u64> {
    let mut next = b'a';
    let mut arrived: u64 = 0;
    let mut taken: usize = 0;
    for kept in history {
        if let Some(first) = first_of(kept) {
            if first != next {
                return None;
            }
            next = next.saturating_add(1);
            arrived = arrived.saturating_add(1);
        }
        taken = taken.saturating_add(read(kept).unwrap_or(0));
    }
    if taken as u64 <= arrived {
        Some(arrived)
    } else {
        None
    }
}

/// Whether a line's three messages were accepted, those that came in are in order, and each of three reads is
/// there.
fn is_line_fed(log: &StreamLog<Kind>) -> bool {
    let (accepted, arrived, overrun) = counts(log);
    (accepted, overrun) == (3, 0)
        && arrived <= 3
        && arrived_in_order(log.history.as_slice()) == Some(arrived)
        && log.history.len() as u64 == arrived.saturating_add(3)
}

/// The same for the only line of a run.
pub(super) fn is_fed(transcript: &Transcript<Kind>) -> bool {
    match transcript.streams.as_slice() {
        [only] => is_line_fed(only),
        _ => false,
    }
}

#[test]
fn a_line_is_fed_while_a_caller_reads(rt: HostRuntime) {
    let read_while_fed = Run {
        setups: &[line((16, 4), 3)],
        feeds: FED,
        workers: 2,
        left: Left::Fed,
    };
    assert!(rt; plays(&rt, rt.alloc(), READS, read_while_fed, &Open));
}
