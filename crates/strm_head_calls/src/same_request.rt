//! Comparison of requests, for users who rely on their being the same or not.
ghost use Rattle.std.specs.Prelude.{◌≡◌, ◌↔◌, true};
ghost use Rattle.strm_head_calls.specs.declared.request.Request.TheVariants as Requests;
ghost use Rattle.strm_head_calls.specs.Request.{changes_no_queue};

use crate::name::Name;
use crate::parts::BoxedParts;
use crate::request::{GetFlag, Priority, PutFlag, Request, Wanted};
use crate::same::is_same_part;
use crate::service::ServiceCall;
use strm_module::{BoxedShape, Kind, Shape};
use strm_msg::{Bytes, Marks, Side};

/// Comparison of kinds of module, as they must be compared where the entry of a push is compared with a
/// receipt's.
pub trait SameKind {
    /// Whether another kind is the same, and keeps the same.
    fn is_same(&self, other: &Self) -> bool
        ensures { result ≡ true ↔ self.now ≡ other.now };
}

impl SameKind for Kind {
    fn is_same(&self, other: &Kind) -> bool {
        match (self, other) {
            (Kind::Pass, Kind::Pass) => true,
            (Kind::Table { map }, Kind::Table { map: m }) => map == m,
            (Kind::CrNl, Kind::CrNl) => true,
            (Kind::Line { partial }, Kind::Line { partial: p }) => {
                partial.as_slice() == p.as_slice()
            }
            (Kind::Count { n }, Kind::Count { n: m }) => n == m,
            (Kind::Band { b }, Kind::Band { b: c }) => b == c,
            (Kind::Tee, Kind::Tee) => true,
            (Kind::Mute, Kind::Mute) => true,
            (Kind::Split { n }, Kind::Split { n: m }) => n == m,
            _ => false,
        }
    }
}

/// Whether two pairs of marks, which may be missing, are the same.
fn are_same_marks(one: &Option<Marks>, other: &Option<Marks>) -> bool
    ensures { result ≡ true ↔ one.now ≡ other.now }
{
    match (one, other) {
        (Some(one), Some(other)) => one.hi == other.hi && one.lo == other.lo,
        (None, None) => true,
        _ => false,
    }
}

/// Whether two modules are the same, and keep the same.
fn is_same_shape<K: SameKind>(one: &Shape<K>, other: &Shape<K>) -> bool
    ensures { result ≡ true ↔ one.now ≡ other.now }
{
    one.serial == other.serial
        && one.name.as_slice() == other.name.as_slice()
        && are_same_marks(&one.rd, &other.rd)
        && are_same_marks(&one.wr, &other.wr)
        && one.noenable == other.noenable
        && one.kind.is_same(&other.kind)
}

/// Whether the bounds of control are the same, and those of data.
fn are_same_bounds(
    ctl: &Option<u16>,
    other_ctl: &Option<u16>,
    dat: &Option<u16>,
    other_dat: &Option<u16>,
) -> bool
    ensures { result ≡ true ↔ (ctl.now ≡ other_ctl.now) × (dat.now ≡ other_dat.now) }
{
    ctl == other_ctl && dat == other_dat
}

/// Whether a request is a putmsg of these parts.
fn is_putmsg<P>(request: &Request<P>, flag: Priority, parts: &BoxedParts) -> bool
    ensures { result ≡ true ↔ Requests.Putmsg flag parts.now ≡ request.now }
{
    match request {
        Request::Putmsg { flag: f, parts: p } => flag == *f && parts.is_same(p),
        _ => false,
    }
}

/// Whether a request is a putpmsg of these parts.
fn is_putpmsg<P>(request: &Request<P>, band: u8, flag: PutFlag, parts: &BoxedParts) -> bool
    ensures { result ≡ true ↔ Requests.Putpmsg band flag parts.now ≡ request.now }
{
    match request {
        Request::Putpmsg {
            band: b,
            flag: f,
            parts: p,
        } => band == *b && flag == *f && parts.is_same(p),
        _ => false,
    }
}

/// Whether a request is a getmsg with these bounds.
fn is_getmsg<P>(
    request: &Request<P>,
    maxctl: &Option<u16>,
    maxdat: &Option<u16>,
    flag: Wanted,
) -> bool
    ensures { result ≡ true ↔ Requests.Getmsg maxctl.now maxdat.now flag ≡ request.now }
{
    match request {
        Request::Getmsg {
            maxctl: c,
            maxdat: d,
            flag: f,
        } => are_same_bounds(maxctl, c, maxdat, d) && flag == *f,
        _ => false,
    }
}

/// Whether a request is a getpmsg with these bounds.
fn is_getpmsg<P>(
    request: &Request<P>,
    maxctl: &Option<u16>,
    maxdat: &Option<u16>,
    band: u8,
    flag: GetFlag,
) -> bool
    ensures { result ≡ true ↔ Requests.Getpmsg maxctl.now maxdat.now band flag ≡ request.now }
{
    match request {
        Request::Getpmsg {
            maxctl: c,
            maxdat: d,
            band: b,
            flag: f,
        } => are_same_bounds(maxctl, c, maxdat, d) && band == *b && flag == *f,
        _ => false,
    }
}

/// Whether a request is an ioctl of this command and data.
fn is_str<P>(request: &Request<P>, cmd: u32, dat: &Option<Bytes>) -> bool
    ensures { result ≡ true ↔ Requests.Str cmd dat.now ≡ request.now }
{
    match request {
        Request::Str { cmd: c, dat: d } => cmd == *c && is_same_part(dat, d),
        _ => false,
    }
}

/// Whether a request is an ioctl of this command and data, whose answer is asked for later.
fn is_strput<P>(request: &Request<P>, cmd: u32, dat: &Option<Bytes>) -> bool
    ensures { result ≡ true ↔ Requests.Strput cmd dat.now ≡ request.now }
{
    match request {
        Request::Strput { cmd: c, dat: d } => cmd == *c && is_same_part(dat, d),
        _ => false,
    }
}

/// Whether a request is a flush of these sides.
fn is_flush<P>(request: &Request<P>, r: bool, w: bool) -> bool
    ensures { result ≡ true ↔ Requests.Flush r w ≡ request.now }
{
    match request {
        Request::Flush { r: read, w: write } => r == *read && w == *write,
        _ => false,
    }
}

/// Whether a request is a flush of this band on these sides.
fn is_flush_band<P>(request: &Request<P>, band: u8, r: bool, w: bool) -> bool
    ensures { result ≡ true ↔ Requests.FlushBand band r w ≡ request.now }
{
    match request {
        Request::FlushBand {
            band: b,
            r: read,
            w: write,
        } => band == *b && r == *read && w == *write,
        _ => false,
    }
}

/// Whether a request is this call of a service procedure.
fn is_service<P>(request: &Request<P>, name: &Name, side: Side, call: &ServiceCall) -> bool
    ensures { result ≡ true ↔ Requests.Service name.now side call.now ≡ request.now }
{
    match request {
        Request::Service {
            name: n,
            side: s,
            call: c,
        } => name.as_slice() == n.as_slice() && side == *s && call.is_same(c),
        _ => false,
    }
}

/// Whether another request is the same as one that changes no queue.
fn is_same_query<K: SameKind + Drop>(
    one: &Request<BoxedShape<K>>,
    other: &Request<BoxedShape<K>>,
) -> bool
    requires { changes_no_queue one.now ≡ true }
    ensures { result ≡ true ↔ one.now ≡ other.now }
{
    match one {
        Request::Nread => matches!(other, Request::Nread),
        Request::Peek {
            maxctl,
            maxdat,
            flag,
        } => match other {
            Request::Peek {
                maxctl: c,
                maxdat: d,
                flag: f,
            } => are_same_bounds(maxctl, c, maxdat, d) && flag == f,
            _ => false,
        },
        Request::SetRead { mode, prot } => match other {
            Request::SetRead { mode: m, prot: p } => mode == m && prot == p,
            _ => false,
        },
        Request::GetRead => matches!(other, Request::GetRead),
        Request::Canput { band } => match other {
            Request::Canput { band: b } => band == b,
            _ => false,
        },
        Request::Ckband { band } => match other {
            Request::Ckband { band: b } => band == b,
            _ => false,
        },
        Request::Getband => matches!(other, Request::Getband),
        Request::Poll => matches!(other, Request::Poll),
        Request::Look => matches!(other, Request::Look),
        Request::List => matches!(other, Request::List),
        Request::Find { name } => match other {
            Request::Find { name: n } => name.as_slice() == n.as_slice(),
            _ => false,
        },
        Request::Strget { drops } => match other {
            Request::Strget { drops: d } => drops == d,
            _ => false,
        },
        Request::Service { name, side, call } => is_service(other, name, *side, call),
        _ => false,
    }
}

/// Whether two requests are the same.
pub fn is_same_request<K: SameKind + Drop>(
    one: &Request<BoxedShape<K>>,
    other: &Request<BoxedShape<K>>,
) -> bool
    ensures { result ≡ true ↔ one.now ≡ other.now }
{
    match one {
        Request::Putmsg { flag, parts } => is_putmsg(other, *flag, parts),
        Request::Putpmsg { band, flag, parts } => is_putpmsg(other, *band, *flag, parts),
        Request::Getmsg {
            maxctl,
            maxdat,
            flag,
        } => is_getmsg(other, maxctl, maxdat, *flag),
        Request::Getpmsg {
            maxctl,
            maxdat,
            band,
            flag,
        } => is_getpmsg(other, maxctl, maxdat, *band, *flag),
        Request::Read { max } => match other {
            Request::Read { max: m } => max == m,
            _ => false,
        },
        Request::Write { dat } => match other {
            Request::Write { dat: d } => dat.as_slice() == d.as_slice(),
            _ => false,
        },
        Request::Push { instance } => match other {
            Request::Push { instance: i } => is_same_shape(instance.shape(), i.shape()),
            _ => false,
        },
        Request::Pop => matches!(other, Request::Pop),
        Request::Str { cmd, dat } => is_str(other, *cmd, dat),
        Request::Strput { cmd, dat } => is_strput(other, *cmd, dat),
        Request::Flush { r, w } => is_flush(other, *r, *w),
        Request::FlushBand { band, r, w } => is_flush_band(other, *band, *r, *w),
        Request::Close => matches!(other, Request::Close),
        Request::Take => matches!(other, Request::Take),
        Request::Tick { ticks } => match other {
            Request::Tick { ticks: t } => ticks == t,
            _ => false,
        },
        Request::Service { name, side, call } => is_service(other, name, *side, call),
        Request::Nread
        | Request::Peek { .. }
        | Request::SetRead { .. }
        | Request::GetRead
        | Request::Canput { .. }
        | Request::Ckband { .. }
        | Request::Getband
        | Request::Poll
        | Request::Look
        | Request::List
        | Request::Strget { .. }
        | Request::Find { .. } => is_same_query(one, other),
    }
}
