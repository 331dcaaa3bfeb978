//! The way in which reads treat messages: asked and set, without memory.
ghost use Rattle.std.specs.Prelude.{◌≡◌};
ghost use Rattle.strm_head_ioctl.specs.Options.{set_read_effect, get_read_effect};

use strm_chain::Chain;
use strm_head_calls::Reply;
use strm_module::ModuleOf;
use strm_msg::{End, Prot, ReadMode};

/// Sets the way in which reads at an end treat the bounds of messages, and control (streamio(7), I_SRDOPT).
pub fn set_read<M: ModuleOf>(chain: &mut Chain<M>, end: End, mode: ReadMode, prot: Prot) -> Reply
    ensures reply { result ≡ (set_read_effect chain.old.image end mode prot).reply }
    ensures image { chain.new.image ≡ (set_read_effect chain.old.image end mode prot).image }
{
    chain.set_mode(end, mode, prot);
    Reply::SetRead
}

/// Returns the way in which reads at an end treat the bounds of messages, and control (streamio(7),
/// I_GRDOPT).
pub fn get_read<M: ModuleOf>(chain: &Chain<M>, end: End) -> Reply
    ensures { result ≡ (get_read_effect chain.now.image end).reply }
{
    let state = chain.state(end);
    Reply::GetRead {
        mode: state.mode,
        prot: state.prot,
    }
}
