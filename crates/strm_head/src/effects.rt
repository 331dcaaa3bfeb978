//! The effect of a call before any queue moves.
//!
//! Each call begins in a function that is not inlined. Where the replies of all calls are made in one
//! function, the compiler moves each of them in the pieces that any of them has.
ghost use Rattle.std.specs.Prelude.{◌≡◌, true, false, [], None, Ok, IfOk, IsOk};
ghost use Rattle.strm_head_calls.specs.declared.answer.Reply.{Reply};
ghost use Rattle.strm_head_calls.specs.declared.answer.Reply.TheVariants as Replies;
ghost use Rattle.strm_head_calls.specs.declared.answer.Acknowledged.TheVariants as Acknowledged;
ghost use Rattle.strm_head_calls.specs.declared.request.Request.TheVariants as Requests;
ghost use Rattle.strm_head_calls.specs.Reply.{has_bytes};
ghost use Rattle.strm_head_calls.specs.ReplyForm.{said};
ghost use Rattle.strm_head.specs.Effects.{effect_of, takes_no_memory, begun_of, HasNoOwnRefusal, handed_by};
ghost use Rattle.strm_head.specs.TakesEffect.{CanSend, MayBegin, taken_or, done_or, Begins};
ghost use Rattle.strm_head_ioctl.specs.Close.{HasItsEnds};

use crate::call::Back;
use std::alloc::Global;
use strm_chain::{Chain, ChainFault};
use strm_head_calls::{
    Acknowledged, BoxedParts, GetFlag, Name, Priority, PutFlag, Reply, ReplyForm, Request,
    ServiceCall, Wanted,
};
use strm_head_ioctl::{
    canput, ckband, close, find, flush, get_read, getband, list, look, nread, poll, pop, push,
    send_ioctl, set_read, strget, strput, take, tick,
};
use strm_head_msg::{getmsg, getpmsg, peek, putmsg, putpmsg, write};
use strm_head_read::read;
use strm_head_service::{ask, serve};
use strm_module::{BoxedModule, ModuleOf};
use strm_msg::{Bytes, End, NoMem, Side};

/// The reply to an ioctl that nothing answers.
fn no_answer<A: ReplyForm>() -> A
    ensures { A.says result ≡ Replies.Str Acknowledged.Timeout }
{
    A::new(
        Reply::Str {
            answer: Acknowledged::Timeout,
        },
        Reply::Str {
            answer: Acknowledged::Timeout,
        },
    )
}

/// The reply of a call that sends, unless memory ran out.
fn sent_reply<A: ReplyForm>(reply: Result<Reply, ChainFault>) -> Result<A, ChainFault>
    requires { IfOk reply (λ reply. has_bytes reply ≡ false) }
    ensures { said A.says result ≡ reply }
{
    match reply {
        Ok(reply) => Ok(A::plain(reply)),
        Err(fault) => Err(fault),
    }
}

/// The reply of a call that takes, unless memory ran out.
fn taken_reply<A: ReplyForm>(reply: Result<A, NoMem>) -> Result<A, ChainFault>
    ensures { said A.says result ≡ taken_or (said A.says reply) }
{
    match reply {
        Ok(reply) => Ok(reply),
        Err(_) => Err(ChainFault::NoMem),
    }
}

/// The reply of a call that shows, unless memory runs out.
fn peeked_reply<A: ReplyForm>(alloc: Global, reply: Result<Reply, NoMem>) -> Result<A, NoMem>
    ensures shown { IfOk (said A.says result) (λ shown. reply ≡ Ok shown) }
    ensures bare { (shown : Reply) → reply ≡ Ok shown → has_bytes shown ≡ false → IsOk result }
{
    match reply {
        Ok(reply) => A::of(alloc, reply),
        Err(wanting) => Err(wanting),
    }
}

/// The reply of a call that only sends a message down, unless memory ran out.
fn reply_of_sending<A: ReplyForm>(
    sending: Result<(), ChainFault>,
    reply: A,
) -> Result<A, ChainFault>
    ensures { said A.says result ≡ done_or sending (A.says reply) }
{
    match sending {
        Ok(()) => Ok(reply),
        Err(fault) => {
            drop(reply);
            Err(fault)
        }
    }
}

/// Begins a pop. The module is handed out.
#[inline(never)]
fn begin_pop<M: ModuleOf, A: ReplyForm>(
    chain: &mut Chain<M>,
    end: End,
    back: &mut Back<M>,
) -> Result<A, ChainFault>
    requires own { HasNoOwnRefusal M.Kind.means chain.old.image end Requests.Pop }
    requires empty { back.old.items ≡ [] }
    ensures begins { Begins M.Kind.means A.says chain.old end Requests.Pop result chain.new }
    ensures back { back.new.items ≡ handed_by M.Kind.means chain.old.image end Requests.Pop }
{
    let (reply, instance) = pop(chain, end);
    back.push(Some(instance));
    Ok(A::plain(reply))
}

/// Begins a close. The modules are handed out, also where memory runs out afterwards.
#[inline(never)]
fn begin_close<M: ModuleOf, A: ReplyForm>(
    chain: &mut Chain<M>,
    end: End,
    back: &mut Back<M>,
) -> Result<A, ChainFault>
    requires ends { HasItsEnds chain.old.image }
    requires empty { back.old.items ≡ [] }
    ensures begins { Begins M.Kind.means A.says chain.old end Requests.Close result chain.new }
    ensures back { back.new.items ≡ handed_by M.Kind.means chain.old.image end Requests.Close }
{
    let reply = close(chain, end, back)?;
    Ok(A::plain(reply))
}

/// Begins a putmsg.
#[inline(never)]
fn begin_putmsg<M: ModuleOf, A: ReplyForm>(
    chain: &mut Chain<M>,
    end: End,
    parts: BoxedParts,
    flag: Priority,
) -> Result<A, ChainFault>
    requires { CanSend chain.old.image end }
    ensures { Begins M.Kind.means A.says chain.old end (Requests.Putmsg flag parts) result chain.new }
{
    sent_reply(putmsg(chain, end, parts.into_parts(), flag))
}

/// Begins a putpmsg.
#[inline(never)]
fn begin_putpmsg<M: ModuleOf, A: ReplyForm>(
    chain: &mut Chain<M>,
    end: End,
    parts: BoxedParts,
    band: u8,
    flag: PutFlag,
) -> Result<A, ChainFault>
    requires { CanSend chain.old.image end }
    ensures { Begins M.Kind.means A.says chain.old end (Requests.Putpmsg band flag parts) result chain.new }
{
    sent_reply(putpmsg(chain, end, parts.into_parts(), band, flag))
}

/// Begins a write.
#[inline(never)]
fn begin_write<M: ModuleOf, A: ReplyForm>(
    chain: &mut Chain<M>,
    end: End,
    dat: Bytes,
) -> Result<A, ChainFault>
    requires { CanSend chain.old.image end }
    ensures { Begins M.Kind.means A.says chain.old end (Requests.Write dat) result chain.new }
{
    sent_reply(write(chain, end, dat))
}

/// Begins a getmsg.
#[inline(never)]
fn begin_getmsg<M: ModuleOf, A: ReplyForm>(
    chain: &mut Chain<M>,
    end: End,
    maxctl: Option<u16>,
    maxdat: Option<u16>,
    flag: Wanted,
) -> Result<A, ChainFault>
    requires { CanSend chain.old.image end }
    ensures { Begins M.Kind.means A.says chain.old end (Requests.Getmsg maxctl maxdat flag) result chain.new }
{
    taken_reply(getmsg(chain, end, maxctl, maxdat))
}

/// Begins a getpmsg.
#[inline(never)]
fn begin_getpmsg<M: ModuleOf, A: ReplyForm>(
    chain: &mut Chain<M>,
    end: End,
    maxctl: Option<u16>,
    maxdat: Option<u16>,
    band: u8,
    flag: GetFlag,
) -> Result<A, ChainFault>
    requires { CanSend chain.old.image end }
    ensures { Begins M.Kind.means A.says chain.old end (Requests.Getpmsg maxctl maxdat band flag) result chain.new }
{
    taken_reply(getpmsg(chain, end, maxctl, maxdat))
}

/// Begins a read.
#[inline(never)]
fn begin_read<M: ModuleOf, A: ReplyForm>(
    chain: &mut Chain<M>,
    end: End,
    max: u16,
) -> Result<A, ChainFault>
    requires { CanSend chain.old.image end }
    ensures { Begins M.Kind.means A.says chain.old end (Requests.Read max) result chain.new }
{
    taken_reply(read(chain, end, max))
}

/// Begins a peek.
#[inline(never)]
fn begin_peek<M: ModuleOf, A: ReplyForm>(
    chain: &mut Chain<M>,
    end: End,
    maxctl: Option<u16>,
    maxdat: Option<u16>,
    flag: Wanted,
) -> Result<A, ChainFault>
    requires { CanSend chain.old.image end }
    ensures { Begins M.Kind.means A.says chain.old end (Requests.Peek maxctl maxdat flag) result chain.new }
{
    let alloc = chain.alloc();
    taken_reply(peeked_reply(alloc, peek(chain, end, maxctl, maxdat, flag)))
}

/// Begins a take.
#[inline(never)]
fn begin_take<M: ModuleOf, A: ReplyForm>(chain: &mut Chain<M>, end: End) -> Result<A, ChainFault>
    requires { HasNoOwnRefusal M.Kind.means chain.old.image end Requests.Take }
    ensures { Begins M.Kind.means A.says chain.old end Requests.Take result chain.new }
{
    taken_reply(take(chain, end))
}

/// Begins an ioctl.
#[inline(never)]
fn begin_str<M: ModuleOf, A: ReplyForm>(
    chain: &mut Chain<M>,
    end: End,
    cmd: u32,
    dat: Option<Bytes>,
) -> Result<A, ChainFault>
    requires ready { CanSend chain.old.image end }
    requires own { HasNoOwnRefusal M.Kind.means chain.old.image end (Requests.Str cmd dat) }
    ensures { Begins M.Kind.means A.says chain.old end (Requests.Str cmd dat) result chain.new }
{
    reply_of_sending(send_ioctl(chain, end, cmd, dat), no_answer())
}

/// Begins an ioctl whose answer is asked for later.
#[inline(never)]
fn begin_strput<M: ModuleOf, A: ReplyForm>(
    chain: &mut Chain<M>,
    end: End,
    cmd: u32,
    dat: Option<Bytes>,
) -> Result<A, ChainFault>
    requires ready { CanSend chain.old.image end }
    requires own { HasNoOwnRefusal M.Kind.means chain.old.image end (Requests.Strput cmd dat) }
    ensures { Begins M.Kind.means A.says chain.old end (Requests.Strput cmd dat) result chain.new }
{
    sent_reply(strput(chain, end, cmd, dat))
}

/// Begins to ask for the answer to an ioctl.
#[inline(never)]
fn begin_strget<M: ModuleOf, A: ReplyForm>(
    chain: &mut Chain<M>,
    end: End,
    drops: bool,
) -> Result<A, ChainFault>
    requires ready { CanSend chain.old.image end }
    requires own { HasNoOwnRefusal M.Kind.means chain.old.image end (Requests.Strget drops) }
    ensures { Begins M.Kind.means A.says chain.old end (Requests.Strget drops) result chain.new }
{
    taken_reply(strget(chain, end))
}

/// Begins a flush.
#[inline(never)]
fn begin_flush<M: ModuleOf, A: ReplyForm>(
    chain: &mut Chain<M>,
    end: End,
    r: bool,
    w: bool,
) -> Result<A, ChainFault>
    requires { CanSend chain.old.image end }
    ensures { Begins M.Kind.means A.says chain.old end (Requests.Flush r w) result chain.new }
{
    reply_of_sending(flush(chain, end, r, w, None), A::plain(Reply::Flush))
}

/// Begins a flush of one band.
#[inline(never)]
fn begin_flush_band<M: ModuleOf, A: ReplyForm>(
    chain: &mut Chain<M>,
    end: End,
    band: u8,
    r: bool,
    w: bool,
) -> Result<A, ChainFault>
    requires { CanSend chain.old.image end }
    ensures { Begins M.Kind.means A.says chain.old end (Requests.FlushBand band r w) result chain.new }
{
    reply_of_sending(
        flush(chain, end, r, w, Some(band)),
        A::plain(Reply::FlushBand),
    )
}

/// The reply of a call that only says or sets something.
#[inline(never)]
fn query_reply<M: ModuleOf>(
    chain: &mut Chain<M>,
    end: End,
    request: &Request<BoxedModule<M>>,
) -> Reply
    requires tells { takes_no_memory request.now ≡ true }
    requires own { HasNoOwnRefusal M.Kind.means chain.old.image end request.now }
    ensures reply { result ≡ (effect_of M.Kind.means chain.old.image end request.now).reply }
    ensures image { chain.new.image ≡ begun_of M.Kind.means chain.old.image end request.now }
    ensures bare { has_bytes result ≡ false }
{
    match request {
        Request::Nread => nread(chain, end),
        Request::SetRead { mode, prot } => set_read(chain, end, *mode, *prot),
        Request::GetRead => get_read(chain, end),
        Request::Canput { band } => canput(chain, end, *band),
        Request::Ckband { band } => ckband(chain, end, *band),
        Request::Getband => getband(chain, end),
        Request::Poll => poll(chain, end),
        Request::Look => look(chain, end),
        Request::List => list(chain, end),
        Request::Find { name } => find(chain, end, name),
        Request::Service { name, side, call } => ask(chain, end, name, *side, call),
        _ => unreachable!(),
    }
}

/// Begins a call that only says or sets something.
#[inline(never)]
fn begin_query<M: ModuleOf, A: ReplyForm>(
    chain: &mut Chain<M>,
    end: End,
    request: Request<BoxedModule<M>>,
) -> Result<A, ChainFault>
    requires tells { takes_no_memory request ≡ true }
    requires own { HasNoOwnRefusal M.Kind.means chain.old.image end request }
    ensures begins { Begins M.Kind.means A.says chain.old end request result chain.new }
{
    let reply = query_reply(chain, end, &request);
    drop(request);
    Ok(A::plain(reply))
}

/// Begins a service call.
#[inline(never)]
fn begin_service<M: ModuleOf, A: ReplyForm>(
    chain: &mut Chain<M>,
    end: End,
    name: Name,
    side: Side,
    call: ServiceCall,
) -> Result<A, ChainFault>
    requires ends { HasItsEnds chain.old.image }
    requires own { HasNoOwnRefusal M.Kind.means chain.old.image end (Requests.Service name side call) }
    ensures begins { Begins M.Kind.means A.says chain.old end (Requests.Service name side call) result chain.new }
{
    if call.is_question() {
        return begin_query(chain, end, Request::Service { name, side, call });
    }
    serve(chain, end, &name, side, call)
}

/// Takes the effect of a call, before any queue moves. The modules that it takes out are handed out, also
/// where memory runs out afterwards.
pub(crate) fn begin<M: ModuleOf, A: ReplyForm>(
    chain: &mut Chain<M>,
    end: End,
    request: Request<BoxedModule<M>>,
    back: &mut Back<M>,
) -> Result<A, ChainFault>
    requires may { MayBegin chain.old.image end request }
    requires own { HasNoOwnRefusal M.Kind.means chain.old.image end request }
    requires empty { back.old.items ≡ [] }
    ensures begins { Begins M.Kind.means A.says chain.old end request result chain.new }
    ensures back { back.new.items ≡ handed_by M.Kind.means chain.old.image end request }
{
    match request {
        Request::Putmsg { flag, parts } => begin_putmsg(chain, end, parts, flag),
        Request::Putpmsg { band, flag, parts } => begin_putpmsg(chain, end, parts, band, flag),
        Request::Getmsg {
            maxctl,
            maxdat,
            flag,
        } => begin_getmsg(chain, end, maxctl, maxdat, flag),
        Request::Getpmsg {
            maxctl,
            maxdat,
            band,
            flag,
        } => begin_getpmsg(chain, end, maxctl, maxdat, band, flag),
        Request::Read { max } => begin_read(chain, end, max),
        Request::Write { dat } => begin_write(chain, end, dat),
        Request::Push { instance } => Ok(A::plain(push(chain, end, instance))),
        Request::Peek {
            maxctl,
            maxdat,
            flag,
        } => begin_peek(chain, end, maxctl, maxdat, flag),
        Request::Pop => begin_pop(chain, end, back),
        Request::Str { cmd, dat } => begin_str(chain, end, cmd, dat),
        Request::Strput { cmd, dat } => begin_strput(chain, end, cmd, dat),
        Request::Strget { drops } => begin_strget(chain, end, drops),
        Request::Flush { r, w } => begin_flush(chain, end, r, w),
        Request::FlushBand { band, r, w } => begin_flush_band(chain, end, band, r, w),
        Request::Close => begin_close(chain, end, back),
        Request::Take => begin_take(chain, end),
        Request::Tick { ticks } => Ok(A::plain(tick(chain, end, ticks))),
        Request::Service { name, side, call } => begin_service(chain, end, name, side, call),
        other => begin_query(chain, end, other),
    }
}
