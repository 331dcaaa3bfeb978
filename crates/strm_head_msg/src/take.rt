//! Getmsg, getpmsg and peek: the first message at the head is taken in part or whole, or looked at.
ghost use Rattle.std.specs.Prelude.{◌≡◌, ◌<◌, true, [], OnOk, OnErr, IfOk, IsOk, Some, drop};
ghost use Rattle.strm_chain_ends.specs.Image.{end_of};
ghost use Rattle.strm_head_calls.specs.declared.answer.Reply.TheVariants as Replies;
ghost use Rattle.strm_head_calls.specs.declared.answer.Received.TheVariants as Receivers;
ghost use Rattle.strm_head_calls.specs.declared.answer.More.TheVariants as Mores;
ghost use Rattle.strm_head_calls.specs.declared.request.Priority.TheVariants as Priorities;
ghost use Rattle.strm_head_calls.specs.Refusal.{first_that_holds};
ghost use Rattle.strm_head_calls.specs.Cut.{cut_of};
ghost use Rattle.strm_head_msg.specs.Take.{shows_nothing, matches_getmsg, matches_getpmsg, getmsg_refusals, getpmsg_refusals, priority_of, getmsg_reply, getpmsg_reply, getmsg_effect, getpmsg_effect, peek_effect, with_first_cut};

use std::alloc::Global;
use strm_chain::Chain;
use strm_head_calls::{
    Cut, GetFlag, More, Peeked, Priority, Received, Refusal, Reply, ReplyForm, Wanted,
};
use strm_module::ModuleOf;
use strm_msg::{BoxedMessage, Bytes, End, Message, NoMem};

/// The reply that gives a first message, in its form, and the rest of the message.
#[derive(Drop)]
struct Taken<A> {
    reply: A,
    rest: Option<Message>,
}

/// Whether a getmsg, a peek or a getq wants a message.
pub fn matches_getmsg(flag: Wanted, m: &Message) -> bool
    ensures { result ≡ matches_getmsg flag m.now }
{
    match flag {
        Wanted::Any => true,
        Wanted::Hipri => m.is_high(),
    }
}

/// Whether a getpmsg wants a message.
fn matches_getpmsg(flag: GetFlag, band: u8, m: &Message) -> bool
    ensures { result ≡ matches_getpmsg flag band m.now }
{
    match flag {
        GetFlag::Zero => false,
        GetFlag::Any => true,
        GetFlag::Band => m.is_high() || m.band >= band,
        GetFlag::Hipri => m.is_high(),
    }
}

fn priority_of(m: &Message) -> Priority
    ensures { result ≡ priority_of m.now }
{
    if m.is_high() {
        Priority::Hipri
    } else {
        Priority::Norm
    }
}

/// The reply of a getmsg at a hung up end without messages. Takes no memory.
fn empty_getmsg_reply() -> Reply
    ensures { result ≡ Replies.Getmsg (Some []) (Some []) Priorities.Norm Mores.Nothing }
{
    Reply::Getmsg {
        ctl: Some(Bytes::empty()),
        dat: Some(Bytes::empty()),
        flag: Priority::Norm,
        more: More::Nothing,
    }
}

/// The reply of a getpmsg at a hung up end without messages. Takes no memory.
fn empty_getpmsg_reply() -> Reply
    ensures { result ≡ Replies.Getpmsg (Some []) (Some []) (Receivers.Band 0) Mores.Nothing }
{
    Reply::Getpmsg {
        ctl: Some(Bytes::empty()),
        dat: Some(Bytes::empty()),
        flag: Received::Band { band: 0 },
        more: More::Nothing,
    }
}

/// The reply and the rest of a message of which a getmsg takes. Fails only when memory runs out.
fn cut_of_first<A: ReplyForm>(
    alloc: Global,
    first: &Message,
    maxctl: Option<u16>,
    maxdat: Option<u16>,
) -> Result<Taken<A>, NoMem>
    ensures reply { IfOk result (λ taken. A.says taken.reply ≡ getmsg_reply (Some first.now) maxctl maxdat) }
    ensures rest { IfOk result (λ taken. taken.rest ≡ (cut_of first.now maxctl maxdat).rest) }
{
    let flag = priority_of(first);
    let Cut {
        ctl,
        dat,
        more,
        rest,
    } = Cut::of(alloc, first, maxctl, maxdat)?;
    let reply = Reply::Getmsg {
        ctl,
        dat,
        flag,
        more,
    };
    let reply = A::of(alloc, reply)?;
    Ok(Taken { reply, rest })
}

/// The reply and the rest of a message of which a getpmsg takes. Fails only when memory runs out.
fn cut_with_band<A: ReplyForm>(
    alloc: Global,
    first: &Message,
    maxctl: Option<u16>,
    maxdat: Option<u16>,
) -> Result<Taken<A>, NoMem>
    ensures reply { IfOk result (λ taken. A.says taken.reply ≡ getpmsg_reply (Some first.now) maxctl maxdat) }
    ensures rest { IfOk result (λ taken. taken.rest ≡ (cut_of first.now maxctl maxdat).rest) }
{
    let flag = Received::of(first);
    let Cut {
        ctl,
        dat,
        more,
        rest,
    } = Cut::of(alloc, first, maxctl, maxdat)?;
    let reply = Reply::Getpmsg {
        ctl,
        dat,
        flag,
        more,
    };
    let reply = A::of(alloc, reply)?;
    Ok(Taken { reply, rest })
}

/// Takes the first message away from a head, and puts its rest back.
fn replace_first<M: ModuleOf>(
    chain: &mut Chain<M>,
    end: End,
    rest: Option<Message>,
) -> Result<(), NoMem>
    ensures ok { OnOk result (chain.new.image ≡ with_first_cut chain.old.image end rest) }
    ensures err { OnErr result (chain.new.image ≡ chain.old.image) }
{
    let Some(rest) = rest else {
        drop(chain.take_head(end));
        return Ok(());
    };
    let rest = BoxedMessage::new(chain.alloc(), rest)?;
    if let Err(wanting) = chain.head_room(end, rest.rank()) {
        drop(rest);
        return Err(wanting);
    }
    drop(chain.take_head(end));
    chain.put_back_head(end, rest).unwrap();
    Ok(())
}

/// Takes the first message away from a head, puts its rest back, and returns the reply.
fn take_first<M: ModuleOf, A: ReplyForm>(
    chain: &mut Chain<M>,
    end: End,
    taken: Taken<A>,
) -> Result<A, NoMem>
    ensures reply { IfOk result (λ reply. reply ≡ taken.reply) }
    ensures image { OnOk result (chain.new.image ≡ with_first_cut chain.old.image end taken.rest) }
    ensures err { OnErr result (chain.new.image ≡ chain.old.image) }
{
    let Taken { reply, rest } = taken;
    match replace_first(chain, end, rest) {
        Ok(()) => Ok(reply),
        Err(wanting) => {
            drop(reply);
            Err(wanting)
        }
    }
}

/// The refusal of a getmsg's own: EAGAIN where no message is there and the end is not hung up, or
/// the first is not the one that is wanted (getmsg(2)).
pub fn getmsg_refusal<M: ModuleOf>(chain: &Chain<M>, end: End, flag: Wanted) -> Option<Refusal>
    ensures { result ≡ first_that_holds (getmsg_refusals chain.now.image end flag) }
{
    let is_there = match chain.head(end).first() {
        Some(m) => matches_getmsg(flag, m),
        None => chain.state(end).hung,
    };
    if is_there {
        None
    } else {
        Some(Refusal::WouldWait)
    }
}

/// The first of a getpmsg's own refusals that holds: EINVAL without a flag, and EAGAIN where no
/// message is there and the end is not hung up, or the first is not the one that is wanted
/// (getpmsg(2)).
pub fn getpmsg_refusal<M: ModuleOf>(
    chain: &Chain<M>,
    end: End,
    band: u8,
    flag: GetFlag,
) -> Option<Refusal>
    ensures { result ≡ first_that_holds (getpmsg_refusals chain.now.image end band flag) }
{
    if flag == GetFlag::Zero {
        return Some(Refusal::Invalid);
    }
    let is_there = match chain.head(end).first() {
        Some(m) => matches_getpmsg(flag, band, m),
        None => chain.state(end).hung,
    };
    if is_there {
        None
    } else {
        Some(Refusal::WouldWait)
    }
}

/// Takes the parts that a getmsg asks for of the first message, and puts the rest back before its equals. Of
/// a hung up end without messages it takes two parts of no bytes (getmsg(2)).
///
/// Fails only when memory runs out, which is not met where no message is there. Then nothing is changed.
pub fn getmsg<M: ModuleOf, A: ReplyForm>(
    chain: &mut Chain<M>,
    end: End,
    maxctl: Option<u16>,
    maxdat: Option<u16>,
) -> Result<A, NoMem>
    ensures reply { IfOk result (λ it. A.says it ≡ (getmsg_effect chain.old.image end maxctl maxdat).reply) }
    ensures image { OnOk result (chain.new.image ≡ (getmsg_effect chain.old.image end maxctl maxdat).image) }
    ensures err { OnErr result (chain.new.image ≡ chain.old.image) }
    ensures empty { (end_of chain.old.image end).head ≡ [] → IsOk result }
{
    let alloc = chain.alloc();
    let Some(first) = chain.head(end).first() else {
        return Ok(A::new(empty_getmsg_reply(), empty_getmsg_reply()));
    };
    let taken = cut_of_first(alloc, first, maxctl, maxdat)?;
    take_first(chain, end, taken)
}

/// Takes the parts that a getpmsg asks for of the first message, as `getmsg` does, and returns its band too
/// (getpmsg(2)).
///
/// Fails only when memory runs out, which is not met where no message is there. Then nothing is changed.
pub fn getpmsg<M: ModuleOf, A: ReplyForm>(
    chain: &mut Chain<M>,
    end: End,
    maxctl: Option<u16>,
    maxdat: Option<u16>,
) -> Result<A, NoMem>
    ensures reply { IfOk result (λ it. A.says it ≡ (getpmsg_effect chain.old.image end maxctl maxdat).reply) }
    ensures image { OnOk result (chain.new.image ≡ (getpmsg_effect chain.old.image end maxctl maxdat).image) }
    ensures err { OnErr result (chain.new.image ≡ chain.old.image) }
    ensures empty { (end_of chain.old.image end).head ≡ [] → IsOk result }
{
    let alloc = chain.alloc();
    let Some(first) = chain.head(end).first() else {
        return Ok(A::new(empty_getpmsg_reply(), empty_getpmsg_reply()));
    };
    let taken = cut_with_band(alloc, first, maxctl, maxdat)?;
    take_first(chain, end, taken)
}

/// Shows the parts that a getmsg would take of the first message, if it is the one that is wanted, and takes
/// nothing away (streamio(7), I_PEEK).
///
/// Fails only when memory runs out, which is not met where nothing is shown.
pub fn peek<M: ModuleOf>(
    chain: &Chain<M>,
    end: End,
    maxctl: Option<u16>,
    maxdat: Option<u16>,
    flag: Wanted,
) -> Result<Reply, NoMem>
    ensures reply { IfOk result (λ it. it ≡ (peek_effect chain.now.image end maxctl maxdat flag).reply) }
    ensures unseen { shows_nothing chain.now.image end maxctl maxdat flag ≡ true → IsOk result }
{
    let found = match chain.head(end).first() {
        Some(first) if matches_getmsg(flag, first) => {
            let alloc = chain.alloc();
            let taken = Cut::of(alloc, first, maxctl, maxdat)?;
            Some(Peeked {
                ctl: taken.ctl,
                dat: taken.dat,
                flag: priority_of(first),
            })
        }
        _ => None,
    };
    Ok(Reply::Peek { found })
}
