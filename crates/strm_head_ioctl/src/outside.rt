//! Take: a message is taken from outside of a wire.
ghost use Rattle.std.specs.Prelude.{◌≡◌, ◌∷◌, [], true, None, is_some, option_copied, slice_get, IfOk, OnOk, OnErr, IsOk};
ghost use Rattle.strm_msg.specs.declared.words.End.TheVariants.{A};
ghost use Rattle.strm_module.specs.Driver.{is_wire};
ghost use Rattle.strm_chain_ends.specs.Image.{end_of, with_drv};
ghost use Rattle.strm_head_calls.specs.Refusal.{first_that_holds};
ghost use Rattle.strm_head_ioctl.specs.Outside.{has_output, first_output, take_refusals, take_effect};

use std::alloc::Global;
use strm_chain::Chain;
use strm_head_calls::{Refusal, Reply, ReplyForm};
use strm_module::ModuleOf;
use strm_msg::{BoxedMessage, End, Message, NoMem};

/// Whether an end is that of a wire, whose list in the driver is its output.
pub fn has_output<M: ModuleOf>(chain: &Chain<M>, end: End) -> bool
    ensures { result ≡ has_output chain.now.image end }
{
    chain.driver().is_wire() && chain.driver().has_end(end)
}

/// The first message of the output of a wire, which is taken next. At an end that is none of a wire there is
/// none.
pub fn first_output<M: ModuleOf>(chain: &Chain<M>, end: End) -> Option<&Message>
    ensures { option_copied result ≡ first_output chain.now.image end }
{
    if has_output(chain, end) {
        chain.driver_list(end).first()
    } else {
        None
    }
}

/// The first refusal of a take that holds. It is EBADF where the driver is no wire and the end is closed;
/// ENOSR on a broken stream; EINVAL where the driver is no wire; and EAGAIN where no message is there and the
/// end is open.
pub fn take_refusal<M: ModuleOf>(chain: &Chain<M>, end: End) -> Option<Refusal>
    ensures { result ≡ first_that_holds (take_refusals chain.now.image end) }
{
    let is_open = chain.is_open(end);
    let has_output = has_output(chain, end);
    if !has_output && !is_open {
        return Some(Refusal::Closed);
    }
    if chain.is_broken() {
        return Some(Refusal::Broken);
    }
    if !has_output {
        return Some(Refusal::Invalid);
    }
    if is_open && chain.driver_list(end).is_empty() {
        return Some(Refusal::WouldWait);
    }
    None
}

/// A copy of a message in a box. Fails only when memory runs out.
fn copy_of(alloc: Global, m: &Message) -> Result<BoxedMessage, NoMem>
    ensures { IfOk result (λ copy. copy ≡ m.now) }
{
    BoxedMessage::new(alloc, m.copy()?)
}

/// Takes the first message of the output of a wire, where one is.
fn take_first<M: ModuleOf>(chain: &mut Chain<M>) -> BoxedMessage
    requires wire { is_wire chain.old.image.driver ≡ true }
    requires holds { is_some (slice_get chain.old.image.a.drv 0) ≡ true }
    ensures first { chain.old.image.a.drv ≡ result ∷ chain.new.image.a.drv }
    ensures image { chain.new.image ≡ with_drv chain.old.image A chain.new.image.a.drv }
{
    match chain.take_out() {
        Some(m) => m,
        None => unreachable!(),
    }
}

/// Takes the first message of the output of a wire. To be called where no refusal of a take holds. Fails only
/// when memory runs out for a copy of the message, where the reply is made twice: then nothing is changed. It
/// takes no memory where no message is there, at a closed end.
pub fn take<M: ModuleOf, A: ReplyForm>(chain: &mut Chain<M>, end: End) -> Result<A, NoMem>
    requires { first_that_holds (take_refusals chain.old.image end) ≡ None }
    ensures reply { IfOk result (λ made. A.says made ≡ (take_effect chain.old.image end).reply) }
    ensures image { OnOk result (chain.new.image ≡ (take_effect chain.old.image end).image) }
    ensures err { OnErr result (chain.new.image ≡ chain.old.image) }
    ensures empty { (end_of chain.old.image end).drv ≡ [] → IsOk result }
{
    let alloc = chain.alloc();
    let Some(first) = chain.driver_list(end).first() else {
        return Ok(A::plain(Reply::Hangup));
    };
    if A::is_alone() {
        let m = take_first(chain);
        return A::of(alloc, Reply::Message { m });
    }
    let twin = copy_of(alloc, first)?;
    let m = take_first(chain);
    Ok(A::new(Reply::Message { m }, Reply::Message { m: twin }))
}
