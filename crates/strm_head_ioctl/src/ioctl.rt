//! An ioctl of a program's own: it is sent down, and its answer comes up.
ghost use Rattle.std.specs.Prelude.{◌≡◌, true, false, is_none, IfOk, IsNone, IsOk, IsSome};
ghost use Rattle.strm_chain.specs.Deliver.{is_there};
ghost use Rattle.strm_chain_ends.specs.Image.{end_of};
ghost use Rattle.strm_chain.specs.declared.spot.Spot.TheVariants as Spots;
ghost use Rattle.strm_chain.specs.Fault.{Fails};
ghost use Rattle.strm_head_calls.specs.Reply.{acknowledged};
ghost use Rattle.strm_head_calls.specs.Refusal.{first_that_holds};
ghost use Rattle.strm_head_ioctl.specs.Ioctl.{str_refusals, str_effect};
ghost use Rattle.strm_head_ioctl.specs.Outcome.{FailsIn, EndsIn};

use strm_chain::{Chain, ChainFault, Spot, deliver};
use strm_head_calls::{Acknowledged, MAX_DATA, Refusal};
use strm_module::ModuleOf;
use strm_msg::{BoxedMessage, Bytes, End, Message, MsgKind, NoMem};

/// The first of an ioctl's own refusals that holds: EINVAL for data over its greatest size, ENXIO for
/// an end that is hung up, and EAGAIN where the greatest id was given out (streamio(7), I_STR).
pub fn str_refusal<M: ModuleOf>(chain: &Chain<M>, end: End, dat: &Option<Bytes>) -> Option<Refusal>
    ensures { result ≡ first_that_holds (str_refusals chain.now.image end dat.now) }
{
    let state = chain.state(end);
    match dat {
        Some(dat) if dat.len() > MAX_DATA => Some(Refusal::Invalid),
        _ if state.hung => Some(Refusal::HungUp),
        _ if state.next.is_none() => Some(Refusal::WouldWait),
        _ => None,
    }
}

/// Takes the next id, whose answer is then awaited, and sends an ioctl of it down (streamio(7),
/// I_STR).
///
/// To be called where the end is there, an id is left, none is awaited and no answer is kept, and the
/// chain is not broken. Fails only when memory runs out: nothing is changed, or the chain breaks.
pub fn send_ioctl<M: ModuleOf>(
    chain: &mut Chain<M>,
    end: End,
    cmd: u32,
    dat: Option<Bytes>,
) -> Result<(), ChainFault>
    requires there { is_there chain.old.image (Spots.Down end 1) ≡ true }
    requires whole { chain.old.image.broken ≡ false }
    requires next { IsSome (end_of chain.old.image end).state.next }
    requires idle { IsNone (end_of chain.old.image end).state.pending }
    requires unanswered { IsNone (end_of chain.old.image end).state.kept }
    ensures image { EndsIn result (str_effect M.Kind.means chain.old.image end cmd dat).image chain.new }
    ensures failed { FailsIn result chain.old (str_effect M.Kind.means chain.old.image end cmd dat).image chain.new }
{
    let id = chain.begin_ioctl(end).unwrap();
    let m = Message {
        kind: MsgKind::MIoctl { id, cmd },
        band: 0,
        ctl: None,
        dat,
    };
    match deliver(chain, Spot::top(end), m) {
        Ok(()) => Ok(()),
        Err(ChainFault::NoMem) => {
            chain.undo_ioctl(end);
            Err(ChainFault::NoMem)
        }
        Err(ChainFault::Broken) => Err(ChainFault::Broken),
    }
}

/// The outcome of an ioctl, by the answer that its head has kept (M_IOCACK, M_IOCNAK).
pub fn acknowledged(kept: Option<Message>) -> Acknowledged
    ensures { result ≡ acknowledged kept }
{
    let Some(m) = kept else {
        return Acknowledged::Timeout;
    };
    match m.kind {
        MsgKind::MIocack { rval, .. } => Acknowledged::Ack { rval, dat: m.dat },
        MsgKind::MIocnak { errno, .. } => Acknowledged::Nak { errno },
        _ => Acknowledged::Timeout,
    }
}

/// The outcome of an ioctl, by a copy of the answer that its head has kept. Fails only where the copy does,
/// and not without an answer.
pub fn acknowledged_copy(kept: &Option<BoxedMessage>) -> Result<Acknowledged, NoMem>
    ensures answer { IfOk result (λ answer. answer ≡ acknowledged kept.now) }
    ensures none { is_none kept.now ≡ true → IsOk result }
{
    match kept {
        Some(m) => Ok(acknowledged(Some(Message::copy(m)?))),
        None => Ok(Acknowledged::Timeout),
    }
}
