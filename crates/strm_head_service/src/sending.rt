//! The refusal of a call that sends a message on or puts it back, before the call is made.
ghost use Rattle.std.specs.Prelude.{◌≡◌};
ghost use Rattle.strm_head_calls.specs.declared.service.ServiceCall.TheVariants as Calls;
ghost use Rattle.strm_head_calls.specs.Refusal.{first_that_holds};
ghost use Rattle.strm_head_service.specs.Serve.{service_refusals};

use crate::served::{Served, is_output, served_at};
use crate::serving::{goes_out, has_no_room, service_refusal};
use strm_chain::Chain;
use strm_head_calls::{Name, Refusal, ServiceCall};
use strm_module::ModuleOf;
use strm_msg::{End, Message, Side};

/// The refusal that a putnext of a message would have, as `service_refusal`. It looks at the kind and the
/// band of the message alone. A bcanputnext shares the refusals before that for want of room.
pub fn putnext_refusal<M: ModuleOf>(
    chain: &Chain<M>,
    end: End,
    name: &Name,
    side: Side,
    m: &Message,
) -> Option<Refusal>
    ensures { result ≡ first_that_holds (service_refusals chain.now.image end name.now.items side (Calls.Putnext m.now)) }
{
    let asks = ServiceCall::Bcanputnext { band: m.band };
    if let Some(refusal) = service_refusal(chain, end, name, side, &asks) {
        return Some(refusal);
    }
    match served_at(chain, end, name) {
        Some(Served::Module { i }) if has_no_room(chain, end, i, side, m) => {
            Some(Refusal::WouldWait)
        }
        _ => None,
    }
}

/// The refusal that a putbq of a message would have, as `service_refusal`. It looks at the kind of the
/// message alone. A qsize shares the refusals that do not depend on it.
pub fn putbq_refusal<M: ModuleOf>(
    chain: &Chain<M>,
    end: End,
    name: &Name,
    side: Side,
    m: &Message,
) -> Option<Refusal>
    ensures { result ≡ first_that_holds (service_refusals chain.now.image end name.now.items side (Calls.Putbq m.now)) }
{
    let asks = ServiceCall::Qsize;
    if let Some(refusal) = service_refusal(chain, end, name, side, &asks) {
        return Some(refusal);
    }
    if is_output(served_at(chain, end, name)) && !goes_out(m.kind) {
        return Some(Refusal::Invalid);
    }
    None
}
