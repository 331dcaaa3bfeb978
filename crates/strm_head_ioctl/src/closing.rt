//! An end is closed.
ghost use Rattle.std.specs.Prelude.{◌≡◌, false, map, Some, IsOk, OnErr, IfOk, IfErr};
ghost use Rattle.strm_msg.specs.declared.words.End.{End};
ghost use Rattle.strm_module.specs.Driver.{partner};
ghost use Rattle.strm_chain_ends.specs.Image.{end_of};
ghost use Rattle.strm_chain.specs.declared.fault.ChainFault.TheVariants as ChainFaults;
ghost use Rattle.strm_head_ioctl.specs.Close.{hangs_up, hung_up, close_effect, other_hung_up, HasItsEnd, HasItsEnds};
ghost use Rattle.strm_head_ioctl.specs.Outcome.{FailsIn, EndsIn, BreaksIn};

use crate::names::names_of;
use arrayvec::ArrayVec;
use strm_chain::{Chain, ChainFault, MOST_MODULES, Spot, deliver};
use strm_head_calls::{NameList, Reply};
use strm_module::{BoxedModule, ModuleOf};
use strm_msg::{End, Message};

/// Sends a hangup up from the driver, to the head of an end, unless that is closed.
fn hang_up<M: ModuleOf>(chain: &mut Chain<M>, end: End) -> Result<(), ChainFault>
    requires there { HasItsEnd chain.old.image end }
    requires whole { chain.old.image.broken ≡ false }
    ensures image { EndsIn result (hung_up M.Kind.means chain.old.image end) chain.new }
    ensures failed { FailsIn result chain.old (hung_up M.Kind.means chain.old.image end) chain.new }
    ensures nothing { (end_of chain.old.image end).is_open ≡ false → IsOk result }
{
    if !chain.is_open(end) {
        return Ok(());
    }
    let i = chain.count(end) as u8;
    deliver(chain, Spot::Up { end, i }, Message::of_hangup())
}

/// Hangs the other end of a loop up after an end was closed, on a chain that is not broken.
fn after_close<M: ModuleOf>(chain: &mut Chain<M>, end: End) -> Result<(), ChainFault>
    requires there { HasItsEnd chain.old.image (partner chain.old.image.driver end) }
    ensures image { EndsIn result (other_hung_up M.Kind.means chain.old.image end) chain.new }
    ensures fault { IfErr result (λ fault. fault ≡ ChainFaults.Broken) }
    ensures broken { BreaksIn result (other_hung_up M.Kind.means chain.old.image end) chain.new }
    ensures whole { OnErr result (chain.old.image.broken ≡ false) }
    ensures nothing { (end_of chain.old.image (partner chain.old.image.driver end)).is_open ≡ false → IsOk result }
{
    if chain.is_broken() {
        return Ok(());
    }
    match hang_up(chain, chain.driver().partner_of(end)) {
        Ok(()) => Ok(()),
        Err(ChainFault::NoMem) => {
            chain.break_off();
            Err(ChainFault::Broken)
        }
        Err(ChainFault::Broken) => Err(ChainFault::Broken),
    }
}

/// Takes all modules out, topmost first, drops the messages in their queues and in the head's list, and
/// closes the end. Then the other end of a loop is hung up. On a broken chain nothing follows (close(2)).
///
/// The modules are handed out in `back`, each as `Some`, and the end is closed, also where memory runs out
/// for the hangup: then the chain breaks. Nothing else is refused, and nothing where no other end is hung up.
pub fn close<M: ModuleOf>(
    chain: &mut Chain<M>,
    end: End,
    back: &mut ArrayVec<Option<BoxedModule<M>>, MOST_MODULES>,
) -> Result<Reply, ChainFault>
    requires ends { HasItsEnds chain.old.image }
    ensures back { back.new.items ≡ map (λ s. Some s) (close_effect M.Kind.means chain.old.image end).out }
    ensures reply { IfOk result (λ it. it ≡ (close_effect M.Kind.means chain.old.image end).reply) }
    ensures image { EndsIn result (close_effect M.Kind.means chain.old.image end).image chain.new }
    ensures fault { IfErr result (λ fault. fault ≡ ChainFaults.Broken) }
    ensures broken { BreaksIn result (close_effect M.Kind.means chain.old.image end).image chain.new }
    ensures whole { OnErr result (chain.old.image.broken ≡ false) }
    ensures nothing { hangs_up chain.old.image end ≡ false → IsOk result }
{
    let names = NameList::new(names_of(chain, end).as_slice());
    *back = chain.dismantle(end);
    match after_close(chain, end) {
        Ok(()) => Ok(Reply::Close { names }),
        Err(fault) => Err(fault),
    }
}
