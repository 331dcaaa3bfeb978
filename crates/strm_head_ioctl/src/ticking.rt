//! Tick: ticks pass for the modules of an end.
ghost use Rattle.std.specs.Prelude.{◌≡◌};
ghost use Rattle.strm_head_calls.specs.Refusal.{first_that_holds};
ghost use Rattle.strm_head_ioctl.specs.Tick.{tick_refusals, tick_effect};

use strm_chain::Chain;
use strm_head_calls::{Refusal, Reply};
use strm_module::ModuleOf;
use strm_msg::End;

/// A tick's own refusal: EINVAL where there are no ticks.
pub fn tick_refusal(ticks: u32) -> Option<Refusal>
    ensures { result ≡ first_that_holds (tick_refusals ticks) }
{
    if ticks == 0 {
        return Some(Refusal::Invalid);
    }
    None
}

/// Lets ticks pass for the modules of an end (timeout(9F)). Nothing is sent yet. Takes no memory.
pub fn tick<M: ModuleOf>(chain: &mut Chain<M>, end: End, ticks: u32) -> Reply
    ensures reply { result ≡ (tick_effect M.Kind.means chain.old.image end ticks).reply }
    ensures image { chain.new.image ≡ (tick_effect M.Kind.means chain.old.image end ticks).image }
{
    chain.tick(end, ticks);
    Reply::Tick
}
