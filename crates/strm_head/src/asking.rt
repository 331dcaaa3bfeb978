//! The refusals of a call that is not made yet, and of which some is known: its parts, or that it is a push.
ghost use Rattle.std.specs.Prelude.{◌≡◌};
ghost use Rattle.strm_head_calls.specs.declared.request.Request.TheVariants as Requests;
ghost use Rattle.strm_head.specs.Effects.{refusal_of};

use crate::call::common_refusal;
use strm_chain::Chain;
use strm_head_calls::{Parts, Priority, PutFlag, Refusal, Request};
use strm_head_ioctl::push_refusal;
use strm_head_msg::{putmsg_refusal, putpmsg_refusal};
use strm_module::{ModuleOf, Shape};
use strm_msg::End;

/// The refusal of a putmsg. A canput shares the refusals that are not a putmsg's own.
pub(crate) fn refusal_of_putmsg<M: ModuleOf>(
    chain: &Chain<M>,
    end: End,
    parts: &Parts,
    flag: Priority,
) -> Option<Refusal>
    ensures { result ≡ refusal_of M.Kind.means chain.now.image end (Requests.Putmsg flag parts.now) }
{
    let common = common_refusal(chain, end, &Request::Canput { band: 0 });
    common.or(putmsg_refusal(chain, end, parts, flag))
}

/// The refusal of a putpmsg. A canput shares the refusals that are not a putpmsg's own.
pub(crate) fn refusal_of_putpmsg<M: ModuleOf>(
    chain: &Chain<M>,
    end: End,
    parts: &Parts,
    band: u8,
    flag: PutFlag,
) -> Option<Refusal>
    ensures { result ≡ refusal_of M.Kind.means chain.now.image end (Requests.Putpmsg band flag parts.now) }
{
    let common = common_refusal(chain, end, &Request::Canput { band: 0 });
    common.or(putpmsg_refusal(chain, end, parts, band, flag))
}

/// The refusal of a push of a module of this shape. A getread shares the refusals that are not a push's own.
pub(crate) fn refusal_of_push<M: ModuleOf>(
    chain: &Chain<M>,
    end: End,
    shape: &Shape<M::Kind>,
) -> Option<Refusal>
    ensures { result ≡ refusal_of M.Kind.means chain.now.image end (Requests.Push shape.now) }
{
    let common = common_refusal(chain, end, &Request::GetRead);
    common.or(push_refusal(chain, end, shape))
}
