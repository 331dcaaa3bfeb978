//! Flushes are sent down, of all bands and of one.
ghost use Rattle.std.specs.Prelude.{◌≡◌, true, false, None};
ghost use Rattle.strm_chain.specs.Deliver.{is_there};
ghost use Rattle.strm_chain.specs.declared.spot.Spot.TheVariants as Spots;
ghost use Rattle.strm_chain.specs.Fault.{Fails};
ghost use Rattle.strm_head_calls.specs.Refusal.{first_that_holds};
ghost use Rattle.strm_head_ioctl.specs.Flush.{flush_refusals, flushed_of};
ghost use Rattle.strm_head_ioctl.specs.Outcome.{FailsIn, EndsIn};

use strm_chain::{Chain, ChainFault, Spot, deliver};
use strm_head_calls::Refusal;
use strm_module::ModuleOf;
use strm_msg::{End, Message};

/// The first of a flush's own refusals that holds, of all bands or of one: EINVAL where neither side
/// is to be flushed, and ENXIO for an end that is hung up (streamio(7): I_FLUSH, I_FLUSHBAND).
pub fn flush_refusal<M: ModuleOf>(chain: &Chain<M>, end: End, r: bool, w: bool) -> Option<Refusal>
    ensures { result ≡ first_that_holds (flush_refusals chain.now.image end r w) }
{
    if !r && !w {
        return Some(Refusal::Invalid);
    }
    if chain.state(end).hung {
        return Some(Refusal::HungUp);
    }
    None
}

/// Sends a flush down, of all bands or of one (streamio(7): I_FLUSH, I_FLUSHBAND).
///
/// To be called where the end is there, and the chain is not broken. Fails only when memory runs out: nothing
/// is changed, or the chain breaks.
pub fn flush<M: ModuleOf>(
    chain: &mut Chain<M>,
    end: End,
    r: bool,
    w: bool,
    band: Option<u8>,
) -> Result<(), ChainFault>
    requires there { is_there chain.old.image (Spots.Down end 1) ≡ true }
    requires whole { chain.old.image.broken ≡ false }
    ensures image { EndsIn result (flushed_of M.Kind.means chain.old.image end r w band) chain.new }
    ensures failed { FailsIn result chain.old (flushed_of M.Kind.means chain.old.image end r w band) chain.new }
{
    deliver(chain, Spot::top(end), Message::of_flush(r, w, band))
}
