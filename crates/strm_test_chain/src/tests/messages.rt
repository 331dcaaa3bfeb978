//! The messages: their fields, the facts of their kinds, and their equality.
use super::Sample::{Ack, Data, Error, Error2, Flush, Hangup, Ioctl, Nak, Options, Pcproto, Proto};
use super::{Part, Sample, bytes, check, message};
use std::alloc::Global;
use std::process::Abort;
use strm_msg::Class::{High, Ordinary};
use strm_msg::MsgKind::{
    MData, MError, MFlush, MHangup, MIocack, MIocnak, MIoctl, MPcproto, MProto, MSetopts,
};
use strm_msg::{Bytes, Class, Errno, Message, MsgKind, ReadMode};

/// A message and its kind; its band, control part and data part; its class, rank and weight; and whether its
/// kind can have data, and whether it comes in from a line.
type Facts = (
    Sample,
    MsgKind,
    (u8, Part, Part),
    (Class, u16, u128),
    (bool, bool),
);

const X: Part = Some(b"x");

const C: Part = Some(b"c");

/// Band 0, without parts.
const BARE: (u8, Part, Part) = (0, None, None);

const READ_AND_MARKS: MsgKind = MSetopts {
    mode: Some(ReadMode::Rmsgn),
    prot: None,
    marks: Some((4, 9)),
};

const MARKS: MsgKind = MSetopts {
    mode: None,
    prot: None,
    marks: Some((16, 4)),
};

const NO_OPTIONS: MsgKind = MSetopts {
    mode: None,
    prot: None,
    marks: None,
};

const READ_AND_EQUAL_MARKS: MsgKind = MSetopts {
    mode: Some(ReadMode::Rmsgd),
    prot: None,
    marks: Some((4, 4)),
};

const INVALID_3: MsgKind = MIocnak {
    id: 3,
    errno: Errno::EINVAL,
};

const INVALID_1: MsgKind = MIocnak {
    id: 1,
    errno: Errno::EINVAL,
};

const IO_1: MsgKind = MIocnak {
    id: 1,
    errno: Errno::EIO,
};

const READ_9: MsgKind = MFlush {
    r: true,
    w: false,
    band: Some(9),
};

const BOTH_9: MsgKind = MFlush {
    r: true,
    w: true,
    band: Some(9),
};

const BOTH: MsgKind = MFlush {
    r: true,
    w: true,
    band: None,
};

const WRITTEN: MsgKind = MFlush {
    r: false,
    w: true,
    band: None,
};

const IO: MsgKind = MError {
    rd: Some(Errno::EIO),
    wr: Some(Errno::EIO),
};

const PROTOCOL: MsgKind = MError {
    rd: Some(Errno::EPROTO),
    wr: Some(Errno::EPROTO),
};

const WRITE_PROTOCOL: MsgKind = MError {
    rd: None,
    wr: Some(Errno::EPROTO),
};

// The fields are those that the table of kinds has for each kind: its parts, and band 0 for all but data and
// protocol messages.
//
// The rest is worked out by hand from the rules. Only data, protocol messages, ioctls and options are
// ordinary. An ordinary message has its band as rank, a high one 256. The weight is the bytes of control and
// data together, and 1 if there is none. Five kinds can have data. Ioctls and their answers never come in
// from a line.
const ORDINARY: &[Facts] = &[
    (
        Data(7, b"wxyz"),
        MData,
        (7, None, Some(b"wxyz")),
        (Ordinary, 7, 4),
        (true, true),
    ),
    (
        Data(255, b""),
        MData,
        (255, None, Some(b"")),
        (Ordinary, 255, 1),
        (true, true),
    ),
    (
        Data(7, b"x"),
        MData,
        (7, None, X),
        (Ordinary, 7, 1),
        (true, true),
    ),
    (
        Proto(255, b"ab", Some(b"")),
        MProto,
        (255, Some(b"ab"), Some(b"")),
        (Ordinary, 255, 2),
        (true, true),
    ),
    (
        Proto(255, b"ab", None),
        MProto,
        (255, Some(b"ab"), None),
        (Ordinary, 255, 2),
        (true, true),
    ),
    (
        Proto(3, b"c", Some(b"d")),
        MProto,
        (3, C, Some(b"d")),
        (Ordinary, 3, 2),
        (true, true),
    ),
    (
        Proto(0, b"abc", None),
        MProto,
        (0, Some(b"abc"), None),
        (Ordinary, 0, 3),
        (true, true),
    ),
    (
        Proto(3, b"c", None),
        MProto,
        (3, C, None),
        (Ordinary, 3, 1),
        (true, true),
    ),
    (
        Proto(3, b"", None),
        MProto,
        (3, Some(b""), None),
        (Ordinary, 3, 1),
        (true, true),
    ),
    (
        Ioctl(3, 16, X),
        MIoctl { id: 3, cmd: 16 },
        (0, None, X),
        (Ordinary, 0, 1),
        (true, false),
    ),
    (
        Ioctl(1, 9, Some(b"xy")),
        MIoctl { id: 1, cmd: 9 },
        (0, None, Some(b"xy")),
        (Ordinary, 0, 2),
        (true, false),
    ),
    (
        Ioctl(1, 9, None),
        MIoctl { id: 1, cmd: 9 },
        (0, None, None),
        (Ordinary, 0, 1),
        (true, false),
    ),
    (
        Options(Some(ReadMode::Rmsgn), Some((4, 9))),
        READ_AND_MARKS,
        BARE,
        (Ordinary, 0, 1),
        (false, true),
    ),
    (
        Options(None, Some((16, 4))),
        MARKS,
        BARE,
        (Ordinary, 0, 1),
        (false, true),
    ),
    (
        Options(None, None),
        NO_OPTIONS,
        BARE,
        (Ordinary, 0, 1),
        (false, true),
    ),
    (
        Options(Some(ReadMode::Rmsgd), Some((4, 4))),
        READ_AND_EQUAL_MARKS,
        BARE,
        (Ordinary, 0, 1),
        (false, true),
    ),
];

const HIGH: &[Facts] = &[
    (
        Pcproto(b"hi", Some(b"data")),
        MPcproto,
        (0, Some(b"hi"), Some(b"data")),
        (High, 256, 6),
        (true, true),
    ),
    (
        Pcproto(b"", None),
        MPcproto,
        (0, Some(b""), None),
        (High, 256, 1),
        (true, true),
    ),
    (
        Pcproto(b"c", None),
        MPcproto,
        (0, C, None),
        (High, 256, 1),
        (true, true),
    ),
    (
        Pcproto(b"hi", Some(b"")),
        MPcproto,
        (0, Some(b"hi"), Some(b"")),
        (High, 256, 2),
        (true, true),
    ),
    (
        Ack(3, 4, X),
        MIocack { id: 3, rval: 4 },
        (0, None, X),
        (High, 256, 1),
        (true, false),
    ),
    (
        Ack(1, 9, Some(b"xyz")),
        MIocack { id: 1, rval: 9 },
        (0, None, Some(b"xyz")),
        (High, 256, 3),
        (true, false),
    ),
    (
        Ack(1, 9, None),
        MIocack { id: 1, rval: 9 },
        (0, None, None),
        (High, 256, 1),
        (true, false),
    ),
    (
        Nak(3, Errno::EINVAL),
        INVALID_3,
        BARE,
        (High, 256, 1),
        (false, false),
    ),
    (
        Nak(1, Errno::EINVAL),
        INVALID_1,
        BARE,
        (High, 256, 1),
        (false, false),
    ),
    (
        Nak(1, Errno::EIO),
        IO_1,
        BARE,
        (High, 256, 1),
        (false, false),
    ),
    (
        Flush(true, false, Some(9)),
        READ_9,
        BARE,
        (High, 256, 1),
        (false, true),
    ),
    (
        Flush(true, true, Some(9)),
        BOTH_9,
        BARE,
        (High, 256, 1),
        (false, true),
    ),
    (
        Flush(true, true, None),
        BOTH,
        BARE,
        (High, 256, 1),
        (false, true),
    ),
    (
        Flush(false, true, None),
        WRITTEN,
        BARE,
        (High, 256, 1),
        (false, true),
    ),
    (Hangup, MHangup, BARE, (High, 256, 1), (false, true)),
    (Error(Errno::EIO), IO, BARE, (High, 256, 1), (false, true)),
    (
        Error(Errno::EPROTO),
        PROTOCOL,
        BARE,
        (High, 256, 1),
        (false, true),
    ),
    (
        Error2(None, Some(Errno::EPROTO)),
        WRITE_PROTOCOL,
        BARE,
        (High, 256, 1),
        (false, true),
    ),
];

fn is_part(found: &Option<Bytes>, want: Part) -> bool {
    match (found, want) {
        (Some(found), Some(want)) => found.as_slice() == want,
        (None, None) => true,
        _ => false,
    }
}

fn has_fields(m: &Message, (_, kind, (band, ctl, dat), _, _): &Facts) -> bool {
    m.kind == *kind && m.band == *band && is_part(&m.ctl, *ctl) && is_part(&m.dat, *dat)
}

/// Whether a message, and its kind, have these facts.
fn has_facts(m: &Message, (_, kind, _, (class, rank, weight), (takes, comes)): &Facts) -> bool {
    m.class() == *class
        && kind.class() == *class
        && m.is_high() == (*class == High)
        && m.rank() == *rank
        && m.weight() == *weight
        && kind.takes_data() == *takes
        && m.from_line() == *comes
}

/// Whether two messages are equal. They are dropped by name, which is one call each.
fn is_same(found: Message, want: Message) -> bool {
    let is_so = found == want;
    drop(found);
    drop(want);
    is_so
}

/// Whether a message has the facts of its row, and is equal to its copy.
fn is_as_told(rt: &impl Abort, alloc: Global, row: &Facts) -> bool {
    let m = message(rt, alloc, row.0);
    let copy = m.copy().expect(rt, "no memory for a copy");
    let is_so = has_fields(&m, row) && has_facts(&m, row);
    is_same(m, copy) && is_so
}

fn are_as_told(rt: &impl Abort, alloc: Global, rows: &[Facts], name: &str) {
    for (i, row) in rows.iter().enumerate() {
        check(rt, (name, i), is_as_told(rt, alloc, row));
    }
}

#[test]
fn each_message_has_its_fields_and_facts_and_an_equal_copy(rt: HostRuntime) {
    are_as_told(&rt, rt.alloc(), ORDINARY, "ordinary messages");
    are_as_told(&rt, rt.alloc(), HIGH, "high messages");
}

/// Two messages.
type Two = (Sample, Sample);

// By hand: the new data is in the place of the old data, and everything else is as before.
const WITH_NEW: &[Two] = &[
    (Data(7, b"old"), Data(7, b"new")),
    (Proto(3, b"c", None), Proto(3, b"c", Some(b"new"))),
    (Ack(1, 9, None), Ack(1, 9, Some(b"new"))),
];

fn is_with_new(rt: &impl Abort, alloc: Global, (old, new): Two) -> bool {
    let m = message(rt, alloc, old);
    assert!(rt; m.kind.takes_data());
    let found = m.with_data(bytes(rt, alloc, b"new"));
    is_same(found, message(rt, alloc, new))
}

#[test]
fn data_are_replaced(rt: HostRuntime) {
    for row in WITH_NEW {
        assert!(rt; is_with_new(&rt, rt.alloc(), *row));
    }
}

// By hand: each pair differs in one field, and a part of no bytes is not a missing part.
const UNEQUAL: &[Two] = &[
    (Pcproto(b"c", None), Proto(0, b"c", None)),
    (Proto(4, b"c", None), Proto(3, b"c", None)),
    (Proto(3, b"d", None), Proto(3, b"c", None)),
    (Proto(3, b"c", Some(b"")), Proto(3, b"c", None)),
    (Flush(true, false, None), Flush(false, true, None)),
    (Flush(true, true, None), Flush(true, true, Some(0))),
];

fn are_equal(rt: &impl Abort, alloc: Global, (one, other): Two) -> bool {
    let one = message(rt, alloc, one);
    is_same(one, message(rt, alloc, other))
}

#[test]
fn messages_that_differ_in_one_field_are_unequal(rt: HostRuntime) {
    for row in UNEQUAL {
        assert!(rt; !are_equal(&rt, rt.alloc(), *row));
    }
}
