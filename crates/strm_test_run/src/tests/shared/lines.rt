//! Lines that are fed through a ring: the messages that are offered, the calls, and the history of both.
ghost use Rattle.std.specs.Prelude.{◌≡◌, ℕ, true, None};
ghost use Rattle.strm_head_calls.specs.Setup.{is_fit};

use super::{Left, answer, ended, leaves, made};
use crate::tests::{bytes, came, data_of, line};
use std::alloc::Global;
use std::marker::Brand;
use std::process::Abort;
use std::sync::Wait;
use strm_head::{Answer, Priority, Refusal, Reply, Request, Wanted};
use strm_module::{BoxedModule, Kind, Plain};
use strm_msg::{Errno, Message, Prot, ReadMode};
use strm_shared::{EndFault, Ended, Feeder, Ring, Seat, Shared, StreamRunName};
use strm_shared_log::Kept;

/// A step, and its outcome.
#[derive(Clone, Copy, Drop)]
enum Step {
    /// Data is offered, and is accepted or not.
    Data(&'static [u8], bool),
    /// A hangup is offered, and accepted.
    Hangup,
    /// An error for reading and one for writing are offered, and accepted.
    Errors(Option<Errno>, Option<Errno>),
    /// A read mode for the head is offered, and accepted.
    Options(ReadMode),
    /// This data of a message is taken.
    Getmsg(&'static [u8]),
    /// At most that many bytes are read, and are these.
    Read(u16, &'static [u8]),
    /// The number of messages, and the number of bytes of the first, are asked for.
    Nread(u64, u64),
    /// The treatment of message bounds by reads is asked for.
    GetRead(ReadMode),
    /// The end is closed.
    Close,
    /// A call is refused.
    Refused(Ask, Refusal),
}

/// A call that is refused.
#[derive(Clone, Copy, Drop)]
enum Ask {
    Read,
    Look,
    Putmsg,
    Canput,
    Write,
}

/// A line with its marks and its ring, the steps on it, its history then, and the messages that did not come
/// in. The history has the data of each message that came in, and nothing for a call.
#[derive(Clone, Copy, Drop)]
struct Row {
    marks: (u32, u32),
    ring: u16,
    steps: &'static [Step],
    history: &'static [Option<&'static [u8]>],
    left: &'static [&'static [u8]],
}

const EIO: Refusal = Refusal::ReadError { errno: Errno::EIO };

const EPROTO: Refusal = Refusal::WriteError {
    errno: Errno::EPROTO,
};

/// A message that does not fit the ring comes back, messages that came in are taken in order, and a hangup is
/// the end.
const FULL_RING: Row = Row {
    marks: (16, 4),
    ring: 2,
    steps: &[
        Step::Data(b"a1", true),
        Step::Data(b"a2", true),
        Step::Data(b"a3", false),
        Step::Getmsg(b"a1"),
        Step::Getmsg(b"a2"),
        Step::Hangup,
        Step::Read(8, b""),
    ],
    history: &[Some(b"a1"), Some(b"a2"), None, None, Some(b""), None],
    left: &[],
};

/// After an error from the line all calls but a close are refused.
const ERROR: Row = Row {
    marks: (16, 4),
    ring: 2,
    steps: &[
        Step::Data(b"x", true),
        Step::Errors(Some(Errno::EIO), Some(Errno::EIO)),
        Step::Refused(Ask::Read, EIO),
        Step::Refused(Ask::Look, EIO),
        Step::Close,
        Step::Refused(Ask::Look, Refusal::Closed),
    ],
    history: &[Some(b"x"), Some(b""), None, None, None, None],
    left: &[],
};

/// An error for writing does not change that for reading, and one for reading does not end that for writing.
const ERRORS: Row = Row {
    marks: (16, 4),
    ring: 4,
    steps: &[
        Step::Data(b"x", true),
        Step::Errors(None, Some(Errno::EPROTO)),
        Step::Refused(Ask::Putmsg, EPROTO),
        Step::Refused(Ask::Canput, EPROTO),
        Step::Refused(Ask::Look, EPROTO),
        Step::Read(8, b"x"),
        Step::Errors(Some(Errno::EIO), None),
        Step::Refused(Ask::Read, EIO),
        Step::Refused(Ask::Look, EIO),
        Step::Refused(Ask::Write, EPROTO),
        Step::Close,
    ],
    history: &[
        Some(b"x"),
        Some(b""),
        None,
        None,
        None,
        None,
        Some(b""),
        None,
        None,
        None,
        None,
    ],
    left: &[],
};

/// Options come in as data does, and hold before the call that follows.
const OPTIONS: Row = Row {
    marks: (16, 4),
    ring: 2,
    steps: &[
        Step::Options(ReadMode::Rmsgn),
        Step::Data(b"xy", true),
        Step::Read(1, b"x"),
        Step::Read(9, b"y"),
        Step::GetRead(ReadMode::Rmsgn),
    ],
    history: &[Some(b""), Some(b"xy"), None, None, None],
    left: &[],
};

/// A message that finds the line's queue full is held back, and none comes in before it.
const HELD_BACK: Row = Row {
    marks: (5, 4),
    ring: 4,
    steps: &[
        Step::Data(b"aaaaa", true),
        Step::Data(b"bbbbb", true),
        Step::Data(b"ccccc", true),
        Step::Data(b"d", true),
        Step::Nread(1, 5),
        Step::Read(8, b"aaaaa"),
        Step::Read(8, b"bbbbb"),
    ],
    history: &[
        Some(b"aaaaa"),
        Some(b"bbbbb"),
        None,
        None,
        Some(b"ccccc"),
        None,
    ],
    left: &[b"d"],
};

/// Without a call no message comes in.
const NO_CALL: Row = Row {
    marks: (16, 4),
    ring: 2,
    steps: &[Step::Data(b"a1", true)],
    history: &[],
    left: &[b"a1"],
};

/// The message that is held back comes before those in the ring, among those that did not come in.
const ALL_LEFT: Row = Row {
    marks: (5, 4),
    ring: 4,
    steps: &[
        Step::Data(b"aaaaa", true),
        Step::Data(b"bbbbb", true),
        Step::Data(b"ccccc", true),
        Step::Data(b"d", true),
        Step::Nread(1, 5),
        Step::Data(b"e", true),
    ],
    history: &[Some(b"aaaaa"), Some(b"bbbbb"), None],
    left: &[b"ccccc", b"d", b"e"],
};

const ROWS: &[Row] = &[
    FULL_RING, ERROR, ERRORS, OPTIONS, HELD_BACK, NO_CALL, ALL_LEFT,
];

/// Whether a message is accepted.
fn offers<N: StreamRunName<Kind>>(rt: &impl Abort, feeder: &mut Feeder<Kind, N>, m: Message) -> bool
    requires { (number : ℕ) → N.feed number ≡ None }
{
    assert!(rt; m.from_line());
    feeder.arrive(m).is_ok()
}

/// A call that is expected to be refused.
fn refused_of(rt: &impl Abort, alloc: Global, ask: Ask) -> Request<BoxedModule<Plain>> {
    match ask {
        Ask::Read => Request::Read { max: 8 },
        Ask::Look => Request::Look,
        Ask::Putmsg => {
            let dat = bytes(rt, alloc, b"y");
            Request::putmsg(alloc, None, Some(dat), Priority::Norm).expect(rt, "no memory")
        }
        Ask::Canput => Request::Canput { band: 0 },
        Ask::Write => Request::Write {
            dat: bytes(rt, alloc, b"z"),
        },
    }
}

/// The request of a step, if it makes one.
fn request_of(rt: &impl Abort, alloc: Global, step: Step) -> Option<Request<BoxedModule<Plain>>> {
    match step {
        Step::Data(_, _) | Step::Hangup | Step::Errors(_, _) | Step::Options(_) => None,
        Step::Getmsg(_) => Some(Request::Getmsg {
            maxctl: Some(64),
            maxdat: Some(64),
            flag: Wanted::Any,
        }),
        Step::Read(max, _) => Some(Request::Read { max }),
        Step::Nread(_, _) => Some(Request::Nread),
        Step::GetRead(_) => Some(Request::GetRead),
        Step::Close => Some(Request::Close),
        Step::Refused(ask, _) => Some(refused_of(rt, alloc, ask)),
    }
}

/// Whether this is the answer of a step.
fn is_answer(step: Step, answer: Answer) -> bool {
    let is_so = match (step, &answer) {
        (Step::Getmsg(wanted), Answer::Done(Reply::Getmsg { dat: Some(dat), .. })) => {
            dat.as_slice() == wanted
        }
        (Step::Read(_, wanted), Answer::Done(Reply::Read { dat })) => dat.as_slice() == wanted,
        (Step::Nread(many, size), Answer::Done(Reply::Nread { messages, bytes })) => {
            *messages == many && *bytes == size
        }
        (Step::GetRead(wanted), Answer::Done(Reply::GetRead { mode, prot })) => {
            *mode == wanted && *prot == Prot::Norm
        }
        (Step::Close, Answer::Done(Reply::Close { .. })) => true,
        (Step::Refused(_, wanted), Answer::Refused(refusal)) => *refusal == wanted,
        _ => false,
    };
    drop(answer);
    is_so
}

/// Makes the call of a step, if it is one, and returns whether it has this answer.
fn asks<N: StreamRunName<Kind>, R: Abort + Wait>(
    rt: &R,
    alloc: Global,
    shared: &Shared<Plain, N>,
    seat: &mut Seat,
    step: Step,
) -> bool
    requires { (number caller : ℕ) → N.calls number caller ≡ None }
{
    match request_of(rt, alloc, step) {
        Some(request) => is_answer(step, answer(rt, shared, seat, request)),
        None => false,
    }
}

fn data(rt: &impl Abort, alloc: Global, dat: &[u8]) -> Message {
    Message::of_data(alloc, 0, dat).expect(rt, "no memory")
}

/// Whether a step has its outcome.
fn goes<N: StreamRunName<Kind>, R: Abort + Wait>(
    rt: &R,
    alloc: Global,
    shared: &Shared<Plain, N>,
    seat: &mut Seat,
    feeder: &mut Feeder<Kind, N>,
    step: Step,
) -> bool
    requires calls { (number caller : ℕ) → N.calls number caller ≡ None }
    requires feed { (number : ℕ) → N.feed number ≡ None }
{
    match step {
        Step::Data(dat, is_accepted) => offers(rt, feeder, data(rt, alloc, dat)) == is_accepted,
        Step::Hangup => offers(rt, feeder, Message::of_hangup()),
        Step::Errors(rd, wr) => offers(rt, feeder, Message::of_error2(rd, wr)),
        Step::Options(mode) => offers(rt, feeder, Message::of_setopts(Some(mode), None, None)),
        _ => asks(rt, alloc, shared, seat, step),
    }
}

/// Whether this is the expected history.
fn is_history(history: &[Kept<Kind>], wanted: &[Option<&'static [u8]>]) -> bool {
    for (at, entry) in history.iter().enumerate() {
        if wanted.get(at) != Some(&came(entry)) {
            return false;
        }
    }
    history.len() == wanted.len()
}

/// Whether messages have this data.
fn are_data(left: &[Message], wanted: &[&'static [u8]]) -> bool {
    for (at, m) in left.iter().enumerate() {
        if wanted.get(at) != Some(&data_of(m)) {
            return false;
        }
    }
    left.len() == wanted.len()
}

/// Whether a line has this history, and these messages that did not come in.
pub(super) fn is_line(
    end: &Ended<Plain>,
    history: &[Option<&'static [u8]>],
    left: &[&'static [u8]],
) -> bool {
    is_history(end.history(), history) && are_data(end.left(), left)
}

/// Whether all steps have their outcomes on a line with this ring, which the run names.
fn plays<N: StreamRunName<Kind>, R: Abort + Wait>(
    rt: &R,
    alloc: Global,
    ring: Ring,
    row: Row,
) -> bool
    requires marks { is_fit ring.setup ≡ true }
    requires name { ring.name ≡ N.ring 0 }
    requires calls { (number caller : ℕ) → N.calls number caller ≡ None }
    requires feed { (number : ℕ) → N.feed number ≡ None }
{
    let (shared, mut seats, feeder) = made::<Plain, N>(rt, alloc, 0, 1, ring);
    let mut feeder = feeder.expect(rt, "a feeder");
    let mut seat = seats.pop().expect(rt, "a seat");
    for step in row.steps {
        assert!(rt; goes(rt, alloc, &shared, &mut seat, &mut feeder, *step));
    }
    seats.push(seat).expect(rt, "no memory");
    let left = Left::Line(row.history, row.left);
    leaves(ended(shared, seats, feeder.finish()), left)
}

/// Whether all steps of a row have their outcomes.
fn holds<R: Abort + Wait>(rt: &R, alloc: Global, row: Row) -> bool {
    let setup = line(row.marks, row.ring);
    let ring = Ring::new(alloc, setup).ok().expect(rt, "a ring");
    setup.is_fit() && plays::<Brand, R>(rt, alloc, ring, row)
}

#[test]
fn messages_come_in_before_a_call(rt: HostRuntime) {
    for row in ROWS {
        assert!(rt; holds(&rt, rt.alloc(), *row));
    }
}

/// The fault for which a line does not end whose feeder was dropped, with its seat or without.
fn fault_of<N: StreamRunName<Kind>>(
    rt: &impl Abort,
    alloc: Global,
    ring: Ring,
    has_seat: bool,
) -> Option<EndFault>
    requires marks { is_fit ring.setup ≡ true }
    requires name { ring.name ≡ N.ring 0 }
{
    let (shared, seats, feeder) = made::<Plain, N>(rt, alloc, 0, 1, ring);
    drop(feeder);
    let seats = if has_seat { seats } else { Vec::new(alloc) };
    ended(shared, seats, None).err()
}

/// The same, for a line of its own.
fn fault(rt: &impl Abort, alloc: Global, has_seat: bool) -> Option<EndFault> {
    let setup = line((16, 4), 2);
    let ring = Ring::new(alloc, setup).ok().expect(rt, "a ring");
    assert!(rt; setup.is_fit());
    fault_of::<Brand>(rt, alloc, ring, has_seat)
}

#[test]
fn a_line_ends_after_its_feeder(rt: HostRuntime) {
    assert!(rt; fault(&rt, rt.alloc(), true) == Some(EndFault::Unfinished));
    assert!(rt; fault(&rt, rt.alloc(), false) == Some(EndFault::Seats));
}
