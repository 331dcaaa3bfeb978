//! Events on streams, and their outcomes.
use super::{Call, Comes, Happens, Pushes, Row, Want};
use strm_head::{Driver, Refusal};
use strm_msg::End::{A, B};
use strm_msg::Errno;

const EIO: Want = Want::Refused(Refusal::ReadError { errno: Errno::EIO });

const EPROTO: Want = Want::Refused(Refusal::ReadError {
    errno: Errno::EPROTO,
});

const CLOSED: Want = Want::Refused(Refusal::Closed);

const HUNG_UP: Want = Want::Refused(Refusal::HungUp);

const INVALID: Want = Want::Refused(Refusal::Invalid);

/// The events on a new line.
pub(super) const LINES: &[&[Row]] = &[ERROR, ERRORS, HANGUP, FULL, CLOSED_END];

/// The events on a new echo.
pub(super) const ECHOES: &[&[Row]] = &[NO_LINE, NO_FAR_END, NINE];

// The line's place is looked at before x moves, and when it is empty. An error goes up at once, and its flush
// leaves no place with a message: nothing is looked at. The error refuses all calls but a close.
const ERROR: &[Row] = &[
    (A, Happens::Taken(Comes::Data(0, b"x"), 1, 2)),
    (A, Happens::Taken(Comes::Error(Errno::EIO), 0, 0)),
    (A, Happens::Asked(Call::Read(8), EIO, 0, &[])),
    (A, Happens::Asked(Call::Look, EIO, 0, &[])),
    (A, Happens::Asked(Call::Close, Want::Closed(&[]), 0, &[])),
    (A, Happens::Asked(Call::Look, CLOSED, 0, &[])),
];

// A later error replaces an earlier one.
const ERRORS: &[Row] = &[
    (A, Happens::Taken(Comes::Error(Errno::EIO), 0, 0)),
    (A, Happens::Asked(Call::Nread, EIO, 0, &[])),
    (A, Happens::Taken(Comes::Error(Errno::EPROTO), 0, 0)),
    (A, Happens::Asked(Call::Nread, EPROTO, 0, &[])),
];

// A line that is hung up gives no bytes once all are read.
const HANGUP: &[Row] = &[
    (A, Happens::Taken(Comes::Data(0, b"x"), 1, 2)),
    (A, Happens::Taken(Comes::Hangup, 0, 0)),
    (A, Happens::Asked(Call::Read(8), Want::Bytes(b"x"), 0, &[])),
    (A, Happens::Asked(Call::Read(8), Want::Bytes(b""), 0, &[])),
    (A, Happens::Asked(Call::Write(b"x"), HUNG_UP, 0, &[])),
];

// The head holds 16 bytes of band 0, and so does the line's queue. A high message goes up past both, and so
// does a message of another band, which is full nowhere. One look finds that the b cannot move. None is made
// for the high message. One is made before d moves, and one more finds that the b still cannot.
const FULL: &[Row] = &[
    (A, Happens::Taken(Comes::Data(0, b"aaaaaaaaaaaaaaaa"), 1, 2)),
    (A, Happens::Taken(Comes::Data(0, b"bbbbbbbbbbbbbbbb"), 0, 1)),
    (A, Happens::Left(Comes::Data(0, b"c"))),
    (A, Happens::Taken(Comes::High(b"h"), 0, 0)),
    (A, Happens::Taken(Comes::Data(1, b"d"), 1, 2)),
    (A, Happens::Asked(Call::Get, Want::Control(b"h"), 0, &[])),
    (
        A,
        Happens::Asked(Call::GetOf, Want::DataOf(1, b"d"), 0, &[]),
    ),
    (
        A,
        Happens::Asked(Call::Read(16), Want::Bytes(b"aaaaaaaaaaaaaaaa"), 1, &[]),
    ),
    (A, Happens::Taken(Comes::Data(0, b"c"), 0, 1)),
];

// Nothing comes in to a closed end.
const CLOSED_END: &[Row] = &[
    (A, Happens::Asked(Call::Close, Want::Closed(&[]), 0, &[])),
    (A, Happens::Left(Comes::Data(0, b"x"))),
    (A, Happens::Left(Comes::High(b"h"))),
];

// Nothing comes in but from a line.
const NO_LINE: &[Row] = &[
    (A, Happens::Left(Comes::Data(0, b"x"))),
    (A, Happens::Left(Comes::Hangup)),
    (A, Happens::Asked(Call::Nread, Want::Waiting(0, 0), 0, &[])),
];

// An echo has no far end.
const NO_FAR_END: &[Row] = &[(
    B,
    Happens::Asked(Call::Push(Pushes::Pass, b"m"), CLOSED, 0, &[0]),
)];

// The ninth module comes back, and the others stay until the end is closed.
const NINE: &[Row] = &[
    (
        A,
        Happens::Asked(Call::Push(Pushes::Pass, b"m1"), Want::Pushed, 0, &[]),
    ),
    (
        A,
        Happens::Asked(Call::Push(Pushes::Pass, b"m2"), Want::Pushed, 0, &[]),
    ),
    (
        A,
        Happens::Asked(Call::Push(Pushes::Pass, b"m3"), Want::Pushed, 0, &[]),
    ),
    (
        A,
        Happens::Asked(Call::Push(Pushes::Pass, b"m4"), Want::Pushed, 0, &[]),
    ),
    (
        A,
        Happens::Asked(Call::Push(Pushes::Pass, b"m5"), Want::Pushed, 0, &[]),
    ),
    (
        A,
        Happens::Asked(Call::Push(Pushes::Pass, b"m6"), Want::Pushed, 0, &[]),
    ),
    (
        A,
        Happens::Asked(Call::Push(Pushes::Pass, b"m7"), Want::Pushed, 0, &[]),
    ),
    (
        A,
        Happens::Asked(Call::Push(Pushes::Pass, b"m8"), Want::Pushed, 0, &[]),
    ),
    (
        A,
        Happens::Asked(Call::Push(Pushes::Pass, b"m9"), INVALID, 0, &[8]),
    ),
    (
        A,
        Happens::Asked(
            Call::Close,
            Want::Closed(&[b"m8", b"m7", b"m6", b"m5", b"m4", b"m3", b"m2", b"m1"]),
            0,
            &[7, 6, 5, 4, 3, 2, 1, 0],
        ),
    ),
];

// The line has one end, and nothing comes in once that is closed.
pub(super) const MIXED: &[Row] = &[
    (
        A,
        Happens::Asked(Call::Push(Pushes::Pass, b"m0"), Want::Pushed, 0, &[]),
    ),
    (
        A,
        Happens::Asked(Call::Push(Pushes::Tee, b"m1"), Want::Pushed, 0, &[]),
    ),
    (A, Happens::Taken(Comes::Data(0, b"hi"), 1, 2)),
    (A, Happens::Asked(Call::Read(8), Want::Bytes(b"hi"), 0, &[])),
    (A, Happens::Asked(Call::Pop, Want::Popped(b"m1"), 0, &[1])),
    (
        A,
        Happens::Asked(Call::Push(Pushes::CrNl, b"m5"), Want::Pushed, 0, &[]),
    ),
    (A, Happens::Asked(Call::Nread, Want::Waiting(0, 0), 0, &[])),
    (
        B,
        Happens::Asked(Call::Push(Pushes::Mute, b"m7"), CLOSED, 0, &[7]),
    ),
    (A, Happens::Taken(Comes::High(b"h"), 0, 0)),
    (
        A,
        Happens::Asked(
            Call::List,
            Want::Listed(&[b"m5", b"m0"], Driver::Line),
            0,
            &[],
        ),
    ),
    (
        A,
        Happens::Asked(Call::Close, Want::Closed(&[b"m5", b"m0"]), 0, &[5, 0]),
    ),
    (A, Happens::Left(Comes::Data(0, b"y"))),
    (A, Happens::Asked(Call::Pop, CLOSED, 0, &[])),
];
