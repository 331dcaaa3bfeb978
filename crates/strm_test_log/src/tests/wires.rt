//! Events on wires. Data that is written waits until it is taken from outside, and a poll reports the
//! conditions that calls would find.
use super::{Call, Comes, Happens, Pushes, Row, Want};
use strm_head::{Polled, Received, Refusal};
use strm_msg::End::A;
use strm_msg::Errno;

/// The events on a new wire.
pub(super) const WIRES: &[&[Row]] = &[
    FLUSHES,
    HANGUP,
    ERROR,
    WRITE_ERROR,
    BANDS,
    CLOSED_END,
    IOCTL,
];

const AGAIN: Want = Want::Refused(Refusal::WouldWait);

const HUNG_UP: Want = Want::Refused(Refusal::HungUp);

const SIXTEEN: &[u8] = b"aaaaaaaaaaaaaaaa";

/// No condition holds.
const NOTHING: Polled = Polled {
    first: None,
    out: false,
    wrband: false,
    err: false,
    hup: false,
    nval: false,
};

/// There is room to write, and no message.
const ROOM: Polled = Polled {
    out: true,
    ..NOTHING
};

// A flush of the write side empties the output, and nothing goes up. A flush of the read side empties the
// messages that came in, and goes up to the head. One look finds that the first c goes up, and one more that
// nothing is left. One look finds that the next c cannot go up.
const FLUSHES: &[Row] = &[
    (A, Happens::Asked(Call::Poll, Want::Told(ROOM), 0, &[])),
    (
        A,
        Happens::Asked(Call::Write(SIXTEEN), Want::Written(16), 0, &[]),
    ),
    (A, Happens::Asked(Call::Write(b"b"), AGAIN, 0, &[])),
    (A, Happens::Asked(Call::Poll, Want::Told(NOTHING), 0, &[])),
    (
        A,
        Happens::Asked(Call::Flush(false, true), Want::Flushed, 0, &[]),
    ),
    (A, Happens::Asked(Call::Take, AGAIN, 0, &[])),
    (A, Happens::Taken(Comes::Data(0, b"cccccccccccccccc"), 1, 2)),
    (A, Happens::Taken(Comes::Data(0, b"cccccccccccccccc"), 0, 1)),
    (A, Happens::Left(Comes::Data(0, b"e"))),
    (
        A,
        Happens::Asked(Call::Write(b"x"), Want::Written(1), 0, &[]),
    ),
    (
        A,
        Happens::Asked(Call::Flush(true, false), Want::Flushed, 0, &[]),
    ),
    (A, Happens::Asked(Call::Nread, Want::Waiting(0, 0), 0, &[])),
    (A, Happens::Taken(Comes::Data(0, b"e"), 1, 2)),
    (
        A,
        Happens::Asked(Call::Take, Want::Message(Comes::Data(0, b"x")), 0, &[]),
    ),
    (A, Happens::Asked(Call::Take, AGAIN, 0, &[])),
];

// A wire that is hung up is not closed: the messages there can be taken, and then a take would wait. The
// reply of a closed wire is a hangup.
const HANGUP: &[Row] = &[
    (
        A,
        Happens::Asked(Call::Write(b"w"), Want::Written(1), 0, &[]),
    ),
    (A, Happens::Taken(Comes::Hangup, 0, 0)),
    (
        A,
        Happens::Asked(
            Call::Poll,
            Want::Told(Polled {
                hup: true,
                ..NOTHING
            }),
            0,
            &[],
        ),
    ),
    (A, Happens::Asked(Call::Write(b"x"), HUNG_UP, 0, &[])),
    (A, Happens::Asked(Call::Read(8), Want::Bytes(b""), 0, &[])),
    (
        A,
        Happens::Asked(Call::Take, Want::Message(Comes::Data(0, b"w")), 0, &[]),
    ),
    (A, Happens::Asked(Call::Take, AGAIN, 0, &[])),
    (A, Happens::Asked(Call::Close, Want::Closed(&[]), 0, &[])),
    (A, Happens::Asked(Call::Take, Want::Hangup, 0, &[])),
    (A, Happens::Asked(Call::Take, Want::Hangup, 0, &[])),
];

// An error of both sides empties both queues, and refuses all calls but a take, a poll and a close.
const ERROR: &[Row] = &[
    (
        A,
        Happens::Asked(Call::Write(b"x"), Want::Written(1), 0, &[]),
    ),
    (A, Happens::Taken(Comes::Error(Errno::EIO), 0, 0)),
    (
        A,
        Happens::Asked(
            Call::Poll,
            Want::Told(Polled {
                err: true,
                ..NOTHING
            }),
            0,
            &[],
        ),
    ),
    (
        A,
        Happens::Asked(
            Call::Write(b"y"),
            Want::Refused(Refusal::WriteError { errno: Errno::EIO }),
            0,
            &[],
        ),
    ),
    (A, Happens::Asked(Call::Take, AGAIN, 0, &[])),
    (A, Happens::Asked(Call::Close, Want::Closed(&[]), 0, &[])),
    (A, Happens::Asked(Call::Take, Want::Hangup, 0, &[])),
];

// An error of the write side alone hides no message.
const WRITE_ERROR: &[Row] = &[
    (A, Happens::Taken(Comes::Data(0, b"r"), 1, 2)),
    (
        A,
        Happens::Asked(Call::Write(b"x"), Want::Written(1), 0, &[]),
    ),
    (A, Happens::Taken(Comes::WriteError(Errno::EPROTO), 0, 0)),
    (
        A,
        Happens::Asked(
            Call::Poll,
            Want::Told(Polled {
                first: Some(Received::Band { band: 0 }),
                err: true,
                ..NOTHING
            }),
            0,
            &[],
        ),
    ),
    (A, Happens::Asked(Call::Take, AGAIN, 0, &[])),
    (A, Happens::Asked(Call::Read(8), Want::Bytes(b"r"), 0, &[])),
];

// Bands above 0 come first, and count by themselves: band 255 can be written if it has a message and is not
// full. A high message is taken before all others, and a flush of one band leaves the other bands.
const BANDS: &[Row] = &[
    (A, Happens::Taken(Comes::Data(0, b"r"), 1, 2)),
    (
        A,
        Happens::Asked(Call::Write(SIXTEEN), Want::Written(16), 0, &[]),
    ),
    (A, Happens::Asked(Call::Send(255, b"p"), Want::Sent, 0, &[])),
    (
        A,
        Happens::Asked(
            Call::Poll,
            Want::Told(Polled {
                first: Some(Received::Band { band: 0 }),
                wrband: true,
                ..NOTHING
            }),
            0,
            &[],
        ),
    ),
    (
        A,
        Happens::Asked(Call::Send(255, b"ppppppppppppppp"), Want::Sent, 0, &[]),
    ),
    (A, Happens::Taken(Comes::Data(7, b"s"), 1, 2)),
    (
        A,
        Happens::Asked(
            Call::Poll,
            Want::Told(Polled {
                first: Some(Received::Band { band: 7 }),
                ..NOTHING
            }),
            0,
            &[],
        ),
    ),
    (A, Happens::Taken(Comes::High(b"h"), 0, 0)),
    (
        A,
        Happens::Asked(
            Call::Poll,
            Want::Told(Polled {
                first: Some(Received::Hipri),
                ..NOTHING
            }),
            0,
            &[],
        ),
    ),
    (
        A,
        Happens::Asked(Call::SendHigh(b"H"), Want::HighSent, 0, &[]),
    ),
    (
        A,
        Happens::Asked(Call::Take, Want::Message(Comes::High(b"H")), 0, &[]),
    ),
    (
        A,
        Happens::Asked(Call::Take, Want::Message(Comes::Data(255, b"p")), 0, &[]),
    ),
    (
        A,
        Happens::Asked(Call::FlushBand(255), Want::BandFlushed, 0, &[]),
    ),
    (
        A,
        Happens::Asked(Call::Take, Want::Message(Comes::Data(0, SIXTEEN)), 0, &[]),
    ),
    (A, Happens::Asked(Call::Take, AGAIN, 0, &[])),
];

// Data that was written before a close is still taken, and then a hangup, as often as it is asked for. Only a
// poll reports a closed end.
const CLOSED_END: &[Row] = &[
    (
        A,
        Happens::Asked(Call::Push(Pushes::Pass, b"m"), Want::Pushed, 0, &[]),
    ),
    (
        A,
        Happens::Asked(Call::Write(b"bye"), Want::Written(3), 0, &[]),
    ),
    (
        A,
        Happens::Asked(Call::Close, Want::Closed(&[b"m"]), 0, &[0]),
    ),
    (
        A,
        Happens::Asked(
            Call::Poll,
            Want::Told(Polled {
                nval: true,
                ..NOTHING
            }),
            0,
            &[],
        ),
    ),
    (A, Happens::Left(Comes::Data(0, b"x"))),
    (
        A,
        Happens::Asked(Call::Take, Want::Message(Comes::Data(0, b"bye")), 0, &[]),
    ),
    (A, Happens::Asked(Call::Take, Want::Hangup, 0, &[])),
    (A, Happens::Asked(Call::Take, Want::Hangup, 0, &[])),
    (
        A,
        Happens::Asked(Call::Write(b"x"), Want::Refused(Refusal::Closed), 0, &[]),
    ),
];

// A wire refuses an ioctl, and puts nothing of it into its output.
const IOCTL: &[Row] = &[
    (
        A,
        Happens::Asked(Call::Str(1), Want::Nak(Errno::EINVAL), 0, &[]),
    ),
    (A, Happens::Asked(Call::Take, AGAIN, 0, &[])),
];
