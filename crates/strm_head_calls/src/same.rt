//! Comparison of answers, for users who rely on their being the same or not.
ghost use Rattle.std.specs.Prelude.{◌≡◌, ◌↔◌, true};

use crate::answer::{Acknowledged, Answer, Peeked, Polled, Received, Reply};
use crate::name::Name;
use crate::refusal::Refusal;
use strm_msg::{Bytes, Message, MsgKind};

/// Whether two parts that may be missing are the same.
pub fn is_same_part(one: &Option<Bytes>, other: &Option<Bytes>) -> bool
    ensures { result ≡ true ↔ one.now ≡ other.now }
{
    match (one, other) {
        (Some(one), Some(other)) => one.as_slice() == other.as_slice(),
        (None, None) => true,
        _ => false,
    }
}

/// Whether two names are the same.
fn is_same_name(one: &Name, other: &Name) -> bool
    ensures { result ≡ true ↔ one.now ≡ other.now }
{
    one.as_slice() == other.as_slice()
}

/// Whether two lists of names are the same.
fn are_same_names(one: &[Name], other: &[Name]) -> bool
    ensures { result ≡ true ↔ one.now ≡ other.now }
{
    match (one.split_first(), other.split_first()) {
        (Some((first, one)), Some((name, other))) => {
            is_same_name(first, name) && are_same_names(one, other)
        }
        (None, None) => true,
        _ => false,
    }
}

/// Whether two bands or priorities are the same.
fn is_same_received(one: Received, other: Received) -> bool
    ensures { result ≡ true ↔ one ≡ other }
{
    match (one, other) {
        (Received::Band { band }, Received::Band { band: b }) => band == b,
        (Received::Hipri, Received::Hipri) => true,
        _ => false,
    }
}

/// Whether two refusals are the same.
fn is_same_refusal(one: Refusal, other: Refusal) -> bool
    ensures { result ≡ true ↔ one ≡ other }
{
    one == other
}

impl Peeked {
    /// Whether another is the same.
    fn is_same(&self, other: &Peeked) -> bool
        ensures { result ≡ true ↔ self.now ≡ other.now }
    {
        is_same_part(&self.ctl, &other.ctl)
            && is_same_part(&self.dat, &other.dat)
            && self.flag == other.flag
    }
}

/// Whether the views of two first messages are the same.
fn is_same_peek(one: &Option<Peeked>, other: &Option<Peeked>) -> bool
    ensures { result ≡ true ↔ one.now ≡ other.now }
{
    match (one, other) {
        (Some(one), Some(other)) => one.is_same(other),
        (None, None) => true,
        _ => false,
    }
}

impl Acknowledged {
    /// Whether another is the same.
    fn is_same(&self, other: &Acknowledged) -> bool
        ensures { result ≡ true ↔ self.now ≡ other.now }
    {
        match (self, other) {
            (Acknowledged::Ack { rval, dat }, Acknowledged::Ack { rval: r, dat: d }) => {
                rval == r && is_same_part(dat, d)
            }
            (Acknowledged::Nak { errno }, Acknowledged::Nak { errno: e }) => errno == e,
            (Acknowledged::Timeout, Acknowledged::Timeout) => true,
            _ => false,
        }
    }
}

/// Whether two kinds of message are the same.
fn is_same_kind(one: MsgKind, other: MsgKind) -> bool
    ensures { result ≡ true ↔ one ≡ other }
{
    match (one, other) {
        (MsgKind::MData, MsgKind::MData) => true,
        (MsgKind::MProto, MsgKind::MProto) => true,
        (MsgKind::MPcproto, MsgKind::MPcproto) => true,
        (MsgKind::MIoctl { id, cmd }, MsgKind::MIoctl { id: i, cmd: c }) => id == i && cmd == c,
        (
            MsgKind::MSetopts { mode, prot, marks },
            MsgKind::MSetopts {
                mode: m,
                prot: p,
                marks: n,
            },
        ) => mode == m && prot == p && marks == n,
        (MsgKind::MIocack { id, rval }, MsgKind::MIocack { id: i, rval: r }) => {
            id == i && rval == r
        }
        (MsgKind::MIocnak { id, errno }, MsgKind::MIocnak { id: i, errno: e }) => {
            id == i && errno == e
        }
        (
            MsgKind::MFlush { r, w, band },
            MsgKind::MFlush {
                r: read,
                w: write,
                band: b,
            },
        ) => r == read && w == write && band == b,
        (MsgKind::MHangup, MsgKind::MHangup) => true,
        (MsgKind::MError { rd, wr }, MsgKind::MError { rd: r, wr: w }) => rd == r && wr == w,
        _ => false,
    }
}

/// Whether two messages are the same.
pub fn is_same_message(one: &Message, other: &Message) -> bool
    ensures { result ≡ true ↔ one.now ≡ other.now }
{
    is_same_kind(one.kind, other.kind)
        && one.band == other.band
        && is_same_part(&one.ctl, &other.ctl)
        && is_same_part(&one.dat, &other.dat)
}

/// Whether the same message is first.
fn is_same_first(one: Option<Received>, other: Option<Received>) -> bool
    ensures { result ≡ true ↔ one ≡ other }
{
    match (one, other) {
        (Some(one), Some(other)) => is_same_received(one, other),
        (None, None) => true,
        _ => false,
    }
}

/// Whether poll(2) says the same.
fn is_same_poll(one: Polled, other: Polled) -> bool
    ensures { result ≡ true ↔ one ≡ other }
{
    is_same_first(one.first, other.first)
        && one.out == other.out
        && one.wrband == other.wrband
        && one.err == other.err
        && one.hup == other.hup
        && one.nval == other.nval
}

impl Reply {
    /// Whether another is the same.
    pub fn is_same(&self, other: &Reply) -> bool
        ensures { result ≡ true ↔ self.now ≡ other.now }
    {
        match self {
            Reply::Putmsg => matches!(other, Reply::Putmsg),
            Reply::Putpmsg => matches!(other, Reply::Putpmsg),
            Reply::Getmsg {
                ctl,
                dat,
                flag,
                more,
            } => match other {
                Reply::Getmsg {
                    ctl: c,
                    dat: d,
                    flag: f,
                    more: m,
                } => is_same_part(ctl, c) && is_same_part(dat, d) && flag == f && more == m,
                _ => false,
            },
            Reply::Getpmsg {
                ctl,
                dat,
                flag,
                more,
            } => match other {
                Reply::Getpmsg {
                    ctl: c,
                    dat: d,
                    flag: f,
                    more: m,
                } => {
                    is_same_part(ctl, c)
                        && is_same_part(dat, d)
                        && is_same_received(*flag, *f)
                        && more == m
                }
                _ => false,
            },
            Reply::Read { dat } => match other {
                Reply::Read { dat: d } => dat.as_slice() == d.as_slice(),
                _ => false,
            },
            Reply::Write { len } => match other {
                Reply::Write { len: l } => len == l,
                _ => false,
            },
            Reply::Push => matches!(other, Reply::Push),
            Reply::Nread { messages, bytes } => match other {
                Reply::Nread {
                    messages: m,
                    bytes: b,
                } => messages == m && bytes == b,
                _ => false,
            },
            Reply::Peek { found } => match other {
                Reply::Peek { found: f } => is_same_peek(found, f),
                _ => false,
            },
            Reply::SetRead => matches!(other, Reply::SetRead),
            Reply::GetRead { mode, prot } => match other {
                Reply::GetRead { mode: m, prot: p } => mode == m && prot == p,
                _ => false,
            },
            Reply::Canput { can } => match other {
                Reply::Canput { can: c } => can == c,
                _ => false,
            },
            Reply::Ckband { waits } => match other {
                Reply::Ckband { waits: w } => waits == w,
                _ => false,
            },
            Reply::Getband { band } => match other {
                Reply::Getband { band: b } => band == b,
                _ => false,
            },
            Reply::Pop { name } => match other {
                Reply::Pop { name: n } => is_same_name(name, n),
                _ => false,
            },
            Reply::Look { name } => match other {
                Reply::Look { name: n } => is_same_name(name, n),
                _ => false,
            },
            Reply::List { names, driver } => match other {
                Reply::List {
                    names: n,
                    driver: d,
                } => are_same_names(names.as_slice(), n.as_slice()) && driver == d,
                _ => false,
            },
            Reply::Find { found } => match other {
                Reply::Find { found: f } => found == f,
                _ => false,
            },
            Reply::Str { answer } => match other {
                Reply::Str { answer: a } => answer.is_same(a),
                _ => false,
            },
            Reply::Strput { id } => match other {
                Reply::Strput { id: i } => id == i,
                _ => false,
            },
            Reply::Flush => matches!(other, Reply::Flush),
            Reply::FlushBand => matches!(other, Reply::FlushBand),
            Reply::Close { names } => match other {
                Reply::Close { names: n } => are_same_names(names.as_slice(), n.as_slice()),
                _ => false,
            },
            Reply::Line => matches!(other, Reply::Line),
            Reply::Message { m } => match other {
                Reply::Message { m: n } => is_same_message(m, n),
                _ => false,
            },
            Reply::Hangup => matches!(other, Reply::Hangup),
            Reply::Service { told } => match other {
                Reply::Service { told: t } => told.is_same(*t),
                _ => false,
            },
            Reply::Tick => matches!(other, Reply::Tick),
            Reply::Poll { told } => match other {
                Reply::Poll { told: t } => is_same_poll(*told, *t),
                _ => false,
            },
        }
    }
}

impl Answer {
    /// Whether another is the same.
    pub fn is_same(&self, other: &Answer) -> bool
        ensures { result ≡ true ↔ self.now ≡ other.now }
    {
        match (self, other) {
            (Answer::Done(reply), Answer::Done(other)) => reply.is_same(other),
            (Answer::Refused(refusal), Answer::Refused(other)) => {
                is_same_refusal(*refusal, *other)
            }
            (Answer::Broke, Answer::Broke) => true,
            _ => false,
        }
    }
}
