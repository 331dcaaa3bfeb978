//! A message of a call is carried to its end.
ghost use Rattle.std.specs.Prelude.{◌≡◌, true, false, OnOk, IfErr};
ghost use Rattle.strm_chain.specs.Deliver.{deliver, is_there};
ghost use Rattle.strm_chain.specs.Fault.{Fails};

use crate::chain::Chain;
use crate::fault::ChainFault;
use crate::spot::Spot;
use strm_module::ModuleOf;
use strm_msg::Message;

/// Hands a message in at a spot, and carries it and the messages that come of it to their end (putnext(9F)).
///
/// To be called where the spot is there, and the chain is not broken. Fails only when memory runs out: with
/// `NoMem` nothing is changed, and with `Broken` the chain is broken, with the ends and the modules that the
/// message would have left.
pub fn deliver<M: ModuleOf>(chain: &mut Chain<M>, spot: Spot, m: Message) -> Result<(), ChainFault>
    requires there { is_there chain.old.image spot ≡ true }
    requires whole { chain.old.image.broken ≡ false }
    ensures image { OnOk result (chain.new.image ≡ deliver M.Kind.means chain.old.image spot m) }
    ensures failed { IfErr result (λ fault. Fails fault chain.old.image (deliver M.Kind.means chain.old.image spot m) chain.new.image) }
{
    chain.deliver(spot, m)
}
