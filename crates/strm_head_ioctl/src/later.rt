//! An ioctl of a program's own whose answer is asked for later.
ghost use Rattle.std.specs.Prelude.{is_none, ◌≡◌, true, false, None, IfOk, IsNone, IsOk, OnErr, OnOk};
ghost use Rattle.strm_chain.specs.Deliver.{is_there};
ghost use Rattle.strm_chain_ends.specs.Image.{end_of};
ghost use Rattle.strm_chain.specs.declared.spot.Spot.TheVariants as Spots;
ghost use Rattle.strm_chain.specs.Fault.{Fails};
ghost use Rattle.strm_head_calls.specs.Refusal.{first_that_holds};
ghost use Rattle.strm_head_ioctl.specs.Later.{strput_refusals, strput_effect, strget_refusals, strget_effect};
ghost use Rattle.strm_head_ioctl.specs.Outcome.{FailsIn, EndsIn};

use crate::ioctl::{acknowledged, acknowledged_copy};
use strm_chain::{Chain, ChainFault, Spot, deliver};
use strm_head_calls::{MAX_DATA, Refusal, Reply, ReplyForm};
use strm_module::ModuleOf;
use strm_msg::{BoxedMessage, Bytes, End, Message, MsgKind, NoMem};

/// The first of a strput's own refusals that holds: EINVAL for data over its greatest size, ENXIO for an end
/// that is hung up, and EAGAIN where an answer is asked for or kept already, or the greatest id was given
/// out.
pub fn strput_refusal<M: ModuleOf>(
    chain: &Chain<M>,
    end: End,
    dat: &Option<Bytes>,
) -> Option<Refusal>
    ensures { result ≡ first_that_holds (strput_refusals chain.now.image end dat.now) }
{
    let state = chain.state(end);
    match dat {
        Some(dat) if dat.len() > MAX_DATA => Some(Refusal::Invalid),
        _ if state.hung => Some(Refusal::HungUp),
        _ if state.asked.is_some() || state.answer.is_some() || state.next.is_none() => {
            Some(Refusal::WouldWait)
        }
        _ => None,
    }
}

/// The first of a strget's own refusals that holds: EINVAL where no answer is asked for, and EAGAIN where
/// none has come and the ioctl is not dropped.
pub fn strget_refusal<M: ModuleOf>(chain: &Chain<M>, end: End, drops: bool) -> Option<Refusal>
    ensures { result ≡ first_that_holds (strget_refusals chain.now.image end drops) }
{
    let state = chain.state(end);
    if state.asked.is_none() {
        return Some(Refusal::Invalid);
    }
    if !drops && state.answer.is_none() {
        return Some(Refusal::WouldWait);
    }
    None
}

/// Takes the next id, sends an ioctl of it down, and returns the id. Its answer is asked for later.
///
/// To be called where the end is there, none of the call's refusals holds, and the chain is not broken. Fails
/// only when memory runs out: nothing is changed, or the chain breaks.
pub fn strput<M: ModuleOf>(
    chain: &mut Chain<M>,
    end: End,
    cmd: u32,
    dat: Option<Bytes>,
) -> Result<Reply, ChainFault>
    requires there { is_there chain.old.image (Spots.Down end 1) ≡ true }
    requires whole { chain.old.image.broken ≡ false }
    requires own { first_that_holds (strput_refusals chain.old.image end dat) ≡ None }
    ensures reply { IfOk result (λ reply. reply ≡ (strput_effect M.Kind.means chain.old.image end cmd dat).reply) }
    ensures image { EndsIn result (strput_effect M.Kind.means chain.old.image end cmd dat).image chain.new }
    ensures failed { FailsIn result chain.old (strput_effect M.Kind.means chain.old.image end cmd dat).image chain.new }
{
    let id = chain.ask_ioctl(end).unwrap();
    let m = Message {
        kind: MsgKind::MIoctl { id, cmd },
        band: 0,
        ctl: None,
        dat,
    };
    match deliver(chain, Spot::top(end), m) {
        Ok(()) => Ok(Reply::Strput { id }),
        Err(ChainFault::NoMem) => {
            chain.undo_ask(end);
            Err(ChainFault::NoMem)
        }
        Err(ChainFault::Broken) => Err(ChainFault::Broken),
    }
}

/// Takes the answer that was asked for, which is asked for no longer. To be called where none of the call's
/// refusals holds. Fails only where a copy of the answer does, and not without one: then nothing is changed.
pub fn strget<M: ModuleOf, A: ReplyForm>(chain: &mut Chain<M>, end: End) -> Result<A, NoMem>
    ensures reply { IfOk result (λ made. A.says made ≡ (strget_effect chain.old.image end).reply) }
    ensures image { OnOk result (chain.new.image ≡ (strget_effect chain.old.image end).image) }
    ensures err { OnErr result (chain.new.image ≡ chain.old.image) }
    ensures nothing { is_none (end_of chain.old.image end).state.answer ≡ true → IsOk result }
{
    let twin = acknowledged_copy(&chain.state(end).answer)?;
    let answer = acknowledged(chain.end_ask(end).map(BoxedMessage::into_message));
    Ok(A::new(Reply::Str { answer }, Reply::Str { answer: twin }))
}
