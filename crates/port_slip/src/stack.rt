//! A chain of SLIP modules and built-in ones.
ghost use Rattle.std.specs.Prelude.{◌≡◌, true, IfOk, IfErr, OnOk};
ghost use Rattle.strm_chain.specs.Deliver.{deliver, is_there};
ghost use Rattle.strm_chain_ends.specs.Flow.{IsQuiet};
ghost use Rattle.strm_chain.specs.Service.{Leads};
ghost use Rattle.port_slip.specs.Slip.{slip};
ghost use Rattle.port_slip.specs.Stack.{Stops};

use crate::slip::ByShape;
use strm_chain::{Chain, ChainFault, Settled, Spot};
use strm_msg::Message;

/// Hands a message in at a spot, which is there, and lets the chain settle. The message goes where the
/// meaning of SLIP and of the built-in kinds takes it. By the moves that are returned, the chain comes to a
/// state in which no queue is due.
///
/// Fails only when memory runs out, or if the chain was broken before. If the settling is refused, the
/// message stays delivered.
pub fn send(chain: &mut Chain<ByShape>, spot: Spot, m: Message) -> Result<Settled, ChainFault>
    requires { is_there chain.old.image spot ≡ true }
    ensures leads { IfOk result (λ settled. Leads slip (deliver slip chain.old.image spot m) settled.moves chain.new.image) }
    ensures quiet { OnOk result (IsQuiet slip chain.new.image) }
    ensures refused { IfErr result (λ fault. Stops fault chain.old.image spot m chain.new.image) }
{
    chain.deliver(spot, m)?;
    chain.settle()
}
