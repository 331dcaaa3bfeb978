//! A service call: its refusals, and its effect before any queue moves.
ghost use Rattle.std.specs.Prelude.{◌≡◌, true, false, None, Some, drop, is_some, option_copied, IfOk, IfErr, IsOk, OnOk, OnErr};
ghost use Rattle.strm_module.specs.Driver.{has_end};
ghost use Rattle.strm_queue.specs.Queue.{put_back_in};
ghost use Rattle.strm_chain_end.specs.End.{list_at};
ghost use Rattle.strm_chain_end.specs.First.{first_message};
ghost use Rattle.strm_chain_end.specs.Change.{is_programs};
ghost use Rattle.strm_chain_ends.specs.Image.{end_of, with_drv};
ghost use Rattle.strm_chain.specs.declared.fault.ChainFault.TheVariants as Faults;
ghost use Rattle.strm_head_calls.specs.Refusal.{first_that_holds};
ghost use Rattle.strm_head_calls.specs.Reply.{has_bytes};
ghost use Rattle.strm_head_calls.specs.Service.{is_question};
ghost use Rattle.strm_head_ioctl.specs.Close.{HasItsEnds};
ghost use Rattle.strm_head_ioctl.specs.Outcome.{EndsIn, FailsIn};
ghost use Rattle.strm_head_ioctl.specs.Outside.{has_output};
ghost use Rattle.strm_head_service.specs.declared.served.Served.TheVariants as Found;
ghost use Rattle.strm_head_service.specs.Served.{IsThere};
ghost use Rattle.strm_head_service.specs.Take.{GetqIsTake};
ghost use Rattle.strm_head_service.specs.Serve.{takes_first, has_no_room, goes_out, suits_output, lacks_queue, module_waits, output_waits, must_wait, takes_none, finds_nothing, service_refusals, service_effect, sends_on, got, with_messages, module_reply, module_served, output_reply, output_served};

use crate::served::{Served, is_output, served_at, spot_past};
use strm_chain::{Chain, ChainFault, deliver};
use strm_head_calls::{Name, Refusal, Reply, ReplyForm, ServiceCall, Serviced, Wanted};
use strm_head_ioctl::take;
use strm_head_msg::matches_getmsg;
use strm_module::ModuleOf;
use strm_msg::{BoxedMessage, End, Message, MsgKind, NoMem, Side};

/// States a law, and does nothing: at the end of a wire, where no module of the program has the driver's
/// name, a getq of any message by that name is refused as a take is, and has its effect.
pub fn getq_is_take<M: ModuleOf>()
    ensures { GetqIsTake M.Kind.means }
{}

/// Whether a getq takes the message that is first.
fn takes_first(flag: Wanted, first: Option<&Message>) -> bool
    ensures { result ≡ takes_first flag (option_copied first.entry) }
{
    match first {
        Some(m) => matches_getmsg(flag, m),
        None => false,
    }
}

/// Whether the queue that is next past a module on a side has no room for a message.
pub(crate) fn has_no_room<M: ModuleOf>(
    chain: &Chain<M>,
    end: End,
    i: u8,
    side: Side,
    m: &Message,
) -> bool
    ensures { result ≡ has_no_room chain.now.image end i side m.now }
{
    !m.is_high() && chain.full_past(end, i, side, m.band)
}

/// Whether a service call on a module would have to wait: for a message, or for room.
fn module_waits<M: ModuleOf>(
    chain: &Chain<M>,
    end: End,
    i: u8,
    side: Side,
    call: &ServiceCall,
) -> bool
    ensures { result ≡ module_waits chain.now.image end i side call.now }
{
    match call {
        ServiceCall::Getq { flag } => !takes_first(*flag, chain.first_of(end, i, side)),
        ServiceCall::Putnext { m } => has_no_room(chain, end, i, side, m),
        _ => false,
    }
}

/// Whether a service call on the output of a wire would have to wait for a message.
fn output_waits<M: ModuleOf>(chain: &Chain<M>, end: End, call: &ServiceCall) -> bool
    ensures { result ≡ output_waits (end_of chain.now.image end) call.now }
{
    let list = chain.driver_list(end);
    let is_drained = list.is_empty() && !chain.is_open(end);
    match call {
        ServiceCall::Getq { flag } => !is_drained && !takes_first(*flag, list.first()),
        _ => false,
    }
}

/// Whether a service call would have to wait: for a message, or for room.
fn must_wait<M: ModuleOf>(
    chain: &Chain<M>,
    end: End,
    found: Option<Served>,
    side: Side,
    call: &ServiceCall,
) -> bool
    ensures { result ≡ must_wait chain.now.image end found side call.now }
{
    match found {
        Some(Served::Module { i }) => module_waits(chain, end, i, side, call),
        Some(Served::Output) => output_waits(chain, end, call),
        None => false,
    }
}

/// Whether a wire keeps messages of a kind for its output.
pub(crate) fn goes_out(kind: MsgKind) -> bool
    ensures { result ≡ goes_out kind }
{
    matches!(kind, MsgKind::MData | MsgKind::MProto | MsgKind::MPcproto)
}

/// Whether a call can be made on the output of a wire.
fn suits_output(side: Side, call: &ServiceCall) -> bool
    ensures { result ≡ suits_output side call.now }
{
    match (side, call) {
        (Side::Wr, ServiceCall::Getq { .. } | ServiceCall::Qsize) => true,
        (Side::Wr, ServiceCall::Putbq { m }) => goes_out(m.kind),
        _ => false,
    }
}

/// Whether a name means nothing that the program serves, or a call needs a queue that is not there.
fn lacks_queue<M: ModuleOf>(
    chain: &Chain<M>,
    end: End,
    found: Option<Served>,
    side: Side,
    call: &ServiceCall,
) -> bool
    ensures { result ≡ lacks_queue chain.now.image end found side call.now }
{
    match found {
        Some(Served::Module { i }) => call.needs_queue() && !chain.is_programs(end, i, side),
        Some(Served::Output) => !suits_output(side, call),
        None => true,
    }
}

/// The first refusal of a service call that holds: EBADF where the end is closed and the name is not that of
/// a wire; ENOSR on a broken stream; EINVAL where the name means nothing that the program serves, or the call
/// needs a queue that is not there; and EAGAIN where the call would have to wait, for a message or for room.
pub fn service_refusal<M: ModuleOf>(
    chain: &Chain<M>,
    end: End,
    name: &Name,
    side: Side,
    call: &ServiceCall,
) -> Option<Refusal>
    ensures { result ≡ first_that_holds (service_refusals chain.now.image end name.now.items side call.now) }
{
    let found = served_at(chain, end, name);
    if !is_output(found) && !chain.is_open(end) {
        return Some(Refusal::Closed);
    }
    if chain.is_broken() {
        return Some(Refusal::Broken);
    }
    if lacks_queue(chain, end, found, side, call) {
        return Some(Refusal::Invalid);
    }
    if must_wait(chain, end, found, side, call) {
        return Some(Refusal::WouldWait);
    }
    None
}

/// Whether a call is a getq of an output that holds nothing.
fn takes_none<M: ModuleOf>(chain: &Chain<M>, end: End, call: &ServiceCall) -> bool
    ensures { result ≡ takes_none (end_of chain.now.image end) call.now }
{
    matches!(call, ServiceCall::Getq { .. }) && chain.driver_list(end).is_empty()
}

/// Whether a service call is a getq of an output that holds nothing. Where it is not refused, the wire is
/// closed.
pub fn finds_nothing<M: ModuleOf>(
    chain: &Chain<M>,
    end: End,
    name: &Name,
    call: &ServiceCall,
) -> bool
    ensures { result ≡ finds_nothing chain.now.image end name.now.items call.now }
{
    takes_none(chain, end, call) && is_output(served_at(chain, end, name))
}

/// The reply of a service call that only asks. To be called where no refusal of the call holds.
pub fn ask<M: ModuleOf>(
    chain: &Chain<M>,
    end: End,
    name: &Name,
    side: Side,
    call: &ServiceCall,
) -> Reply
    requires asks { is_question call.now ≡ true }
    requires own { first_that_holds (service_refusals chain.now.image end name.now.items side call.now) ≡ None }
    ensures reply { result ≡ (service_effect M.Kind.means chain.now.image end name.now.items side call.now).reply }
    ensures bare { has_bytes result ≡ false }
{
    let told = match (call, served_at(chain, end, name).unwrap()) {
        (ServiceCall::Bcanputnext { band }, Served::Module { i }) => Serviced::Bcanputnext {
            can: !chain.full_past(end, i, side, *band),
        },
        (ServiceCall::Qsize, Served::Module { i }) => Serviced::Qsize {
            messages: chain.len_of(end, i, side) as u64,
        },
        (ServiceCall::Qsize, Served::Output) => Serviced::Qsize {
            messages: chain.driver_list(end).len() as u64,
        },
        _ => unreachable!(),
    };
    Reply::Service { told }
}

/// Takes the first message of a queue that the program services (getq(9F)). To be called where one waits. It
/// fails only when memory runs out for a copy of the message, where the reply is made twice: then nothing is
/// changed.
fn get<M: ModuleOf, A: ReplyForm>(
    chain: &mut Chain<M>,
    end: End,
    i: u8,
    side: Side,
) -> Result<A, NoMem>
    requires program { is_programs (end_of chain.old.image end) i side ≡ true }
    requires waits { is_some (first_message (list_at (end_of chain.old.image end) i side)) ≡ true }
    ensures reply { IfOk result (λ made. A.says made ≡ got (first_message (list_at (end_of chain.old.image end) i side))) }
    ensures image { OnOk result (chain.new.image ≡ with_messages chain.old.image end i side (drop 1 (list_at (end_of chain.old.image end) i side))) }
    ensures err { OnErr result (chain.new.image ≡ chain.old.image) }
{
    let alloc = chain.alloc();
    if A::is_alone() {
        let m = chain.take_queue(end, i, side).unwrap();
        return A::of(alloc, Reply::Message { m });
    }
    let twin = chain.first_of(end, i, side).unwrap().copy()?;
    let twin = BoxedMessage::new(alloc, twin)?;
    let m = chain.take_queue(end, i, side).unwrap();
    Ok(A::new(Reply::Message { m }, Reply::Message { m: twin }))
}

/// Puts a message back into a queue that the program services (putbq(9F)). Fails only when memory runs out:
/// then nothing is changed.
fn put_back<M: ModuleOf>(
    chain: &mut Chain<M>,
    end: End,
    i: u8,
    side: Side,
    m: BoxedMessage,
) -> Result<(), NoMem>
    requires { is_programs (end_of chain.old.image end) i side ≡ true }
    ensures ok { OnOk result (chain.new.image ≡ with_messages chain.old.image end i side (put_back_in (list_at (end_of chain.old.image end) i side) m)) }
    ensures err { OnErr result (chain.new.image ≡ chain.old.image) }
{
    match chain.put_back_queue(end, i, side, m) {
        Ok(()) => Ok(()),
        Err(_) => Err(NoMem),
    }
}

/// Puts a message back into the output of a wire. Fails only when memory runs out: then nothing is changed.
fn put_back_out<M: ModuleOf>(chain: &mut Chain<M>, end: End, m: BoxedMessage) -> Result<(), NoMem>
    requires output { has_output chain.old.image end ≡ true }
    requires kind { goes_out m.kind ≡ true }
    ensures ok { OnOk result (chain.new.image ≡ with_drv chain.old.image end (put_back_in (end_of chain.old.image end).drv m)) }
    ensures err { OnErr result (chain.new.image ≡ chain.old.image) }
{
    match chain.put_back_out(m) {
        Ok(()) => Ok(()),
        Err(_) => Err(NoMem),
    }
}

/// Does a service call that changes the queue of a module, or sends a message on from it. To be called where
/// no refusal of the call holds, at an end that the driver has.
///
/// Fails only when memory runs out: nothing is changed, or the chain breaks, which only a putnext can do.
fn serve_module<M: ModuleOf, A: ReplyForm>(
    chain: &mut Chain<M>,
    end: End,
    i: u8,
    side: Side,
    call: ServiceCall,
) -> Result<A, ChainFault>
    requires ends { has_end chain.old.image.driver end ≡ true }
    requires opened { (end_of chain.old.image end).is_open ≡ true }
    requires whole { chain.old.image.broken ≡ false }
    requires there { IsThere chain.old.image end (Found.Module i) }
    requires changes { is_question call ≡ false }
    requires has { lacks_queue chain.old.image end (Some (Found.Module i)) side call ≡ false }
    requires can { must_wait chain.old.image end (Some (Found.Module i)) side call ≡ false }
    ensures reply { IfOk result (λ made. A.says made ≡ module_reply chain.old.image end i side call) }
    ensures image { EndsIn result (module_served M.Kind.means chain.old.image end i side call) chain.new }
    ensures failed { FailsIn result chain.old (module_served M.Kind.means chain.old.image end i side call) chain.new }
    ensures breaks { IfErr result (λ fault. fault ≡ Faults.Broken → sends_on call ≡ true) }
{
    match call {
        ServiceCall::Getq { .. } => Ok(get(chain, end, i, side)?),
        ServiceCall::Putbq { m } => {
            put_back(chain, end, i, side, m)?;
            Ok(A::plain(Reply::Service {
                told: Serviced::Putbq,
            }))
        }
        ServiceCall::Putnext { m } => {
            deliver(chain, spot_past(end, i, side), m.into_message())?;
            Ok(A::plain(Reply::Service {
                told: Serviced::Putnext,
            }))
        }
        ServiceCall::Bcanputnext { .. } | ServiceCall::Qsize => unreachable!(),
    }
}

/// Does a service call that changes the output of a wire: a getq is a take. To be called where no refusal of
/// the call holds. Fails only when memory runs out: then nothing is changed. A getq takes none where the
/// output holds nothing.
fn serve_output<M: ModuleOf, A: ReplyForm>(
    chain: &mut Chain<M>,
    end: End,
    side: Side,
    call: ServiceCall,
) -> Result<A, NoMem>
    requires whole { chain.old.image.broken ≡ false }
    requires there { IsThere chain.old.image end Found.Output }
    requires changes { is_question call ≡ false }
    requires has { lacks_queue chain.old.image end (Some Found.Output) side call ≡ false }
    requires can { must_wait chain.old.image end (Some Found.Output) side call ≡ false }
    ensures reply { IfOk result (λ made. A.says made ≡ output_reply chain.old.image end call) }
    ensures image { OnOk result (chain.new.image ≡ output_served chain.old.image end call) }
    ensures err { OnErr result (chain.new.image ≡ chain.old.image) }
    ensures nothing { takes_none (end_of chain.old.image end) call ≡ true → IsOk result }
{
    match call {
        ServiceCall::Getq { .. } => take(chain, end),
        ServiceCall::Putbq { m } => {
            put_back_out(chain, end, m)?;
            Ok(A::plain(Reply::Service {
                told: Serviced::Putbq,
            }))
        }
        _ => unreachable!(),
    }
}

/// Does a service call that changes queues, on what its name means. To be called where no refusal of the call
/// holds, where the ends that are open are among the driver's.
///
/// Fails only when memory runs out: nothing is changed, or the chain breaks, which only a putnext can do. A
/// getq of an output that holds nothing takes none.
pub fn serve<M: ModuleOf, A: ReplyForm>(
    chain: &mut Chain<M>,
    end: End,
    name: &Name,
    side: Side,
    call: ServiceCall,
) -> Result<A, ChainFault>
    requires ends { HasItsEnds chain.old.image }
    requires changes { is_question call ≡ false }
    requires own { first_that_holds (service_refusals chain.old.image end name.now.items side call) ≡ None }
    ensures reply { IfOk result (λ made. A.says made ≡ (service_effect M.Kind.means chain.old.image end name.now.items side call).reply) }
    ensures image { EndsIn result (service_effect M.Kind.means chain.old.image end name.now.items side call).image chain.new }
    ensures failed { FailsIn result chain.old (service_effect M.Kind.means chain.old.image end name.now.items side call).image chain.new }
    ensures breaks { IfErr result (λ fault. fault ≡ Faults.Broken → sends_on call ≡ true) }
    ensures nothing { finds_nothing chain.old.image end name.now.items call ≡ true → IsOk result }
{
    match served_at(chain, end, name).unwrap() {
        Served::Module { i } => serve_module(chain, end, i, side, call),
        Served::Output => Ok(serve_output(chain, end, side, call)?),
    }
}
