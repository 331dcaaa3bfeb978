//! A call on an end of a stream.
ghost use Rattle.std.specs.Prelude.{◌≡◌, true, is_some, option_copied, None, Some};
ghost use Rattle.strm_head_calls.specs.Calls.{plain_of, pushed_of};

use crate::request::Request;
use strm_msg::End;

/// A call on an end of a stream. A push carries `P`: the module, or its declaration.
#[derive(Drop)]
pub struct Call<P> {
    /// The end.
    pub end: End,
    /// The request.
    pub request: Request<P>,
}

impl<P: Drop> Call<P> {
    /// The module of a push; nothing where the call is no push.
    pub fn push(&self) -> Option<&P>
        ensures { option_copied result ≡ pushed_of self.now.request }
    {
        match &self.request {
            Request::Push { instance } => Some(instance),
            _ => None,
        }
    }

    /// The push, with this module in place of its own.
    pub fn with_module<Q>(self, instance: Q) -> Call<Q>
        requires { is_some (pushed_of self.request) ≡ true }
        ensures end { result.end ≡ self.end }
        ensures request { result.request ≡ Request.Push instance }
    {
        Call {
            end: self.end,
            request: Request::Push { instance },
        }
    }

    /// The call, which is no push, where pushes carry something else.
    pub fn plain<Q>(self) -> Call<Q>
        requires { pushed_of self.request ≡ None }
        ensures end { result.end ≡ self.end }
        ensures request { Some result.request ≡ plain_of self.request }
    {
        Call {
            end: self.end,
            request: plain_request(self.request),
        }
    }
}

/// A request that is no push, where pushes carry something else.
fn plain_request<P: Drop, Q>(request: Request<P>) -> Request<Q>
    requires { pushed_of request ≡ None }
    ensures { Some result ≡ plain_of request }
{
    match request {
        Request::Putmsg { flag, parts } => Request::Putmsg { flag, parts },
        Request::Putpmsg { band, flag, parts } => Request::Putpmsg { band, flag, parts },
        Request::Getmsg {
            maxctl,
            maxdat,
            flag,
        } => Request::Getmsg {
            maxctl,
            maxdat,
            flag,
        },
        Request::Getpmsg {
            maxctl,
            maxdat,
            band,
            flag,
        } => Request::Getpmsg {
            maxctl,
            maxdat,
            band,
            flag,
        },
        Request::Read { max } => Request::Read { max },
        Request::Write { dat } => Request::Write { dat },
        Request::Push { instance: _ } => unreachable!(),
        Request::Nread => Request::Nread,
        Request::Peek {
            maxctl,
            maxdat,
            flag,
        } => Request::Peek {
            maxctl,
            maxdat,
            flag,
        },
        Request::SetRead { mode, prot } => Request::SetRead { mode, prot },
        Request::GetRead => Request::GetRead,
        Request::Canput { band } => Request::Canput { band },
        Request::Ckband { band } => Request::Ckband { band },
        Request::Getband => Request::Getband,
        Request::Pop => Request::Pop,
        Request::Look => Request::Look,
        Request::List => Request::List,
        Request::Find { name } => Request::Find { name },
        Request::Str { cmd, dat } => Request::Str { cmd, dat },
        Request::Strput { cmd, dat } => Request::Strput { cmd, dat },
        Request::Strget { drops } => Request::Strget { drops },
        Request::Flush { r, w } => Request::Flush { r, w },
        Request::FlushBand { band, r, w } => Request::FlushBand { band, r, w },
        Request::Close => Request::Close,
        Request::Take => Request::Take,
        Request::Service { name, side, call } => Request::Service { name, side, call },
        Request::Tick { ticks } => Request::Tick { ticks },
        Request::Poll => Request::Poll,
    }
}
