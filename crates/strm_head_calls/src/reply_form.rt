//! The form in which a call returns its reply.
ghost use Rattle.std.specs.Prelude.{◌≡◌, true, false, IfOk, IsOk};
ghost use Rattle.strm_head_calls.specs.Reply.{has_bytes};
ghost use Rattle.strm_head_calls.specs.declared.answer.Answer.TheVariants as Answers;

use crate::answer::{Answer, Reply};
use crate::refusal::Refusal;
use crate::reply_and_copy::ReplyAndCopy;
use std::alloc::Global;
use strm_msg::NoMem;

/// The form in which a call returns its reply. It is the reply alone, as `Reply`, for a user who needs the
/// answer once. Or it is the reply and an equal one, as `ReplyAndCopy`, for a caller and a record of the
/// call. A call that takes bytes away has made it before it changes anything.
pub trait ReplyForm: Drop {
    ghost use Rattle.std.specs.Prelude.{Bool};
    ghost use Rattle.strm_head_calls.specs.declared.answer.Reply.{Reply};
    ghost use Rattle.strm_head_calls.specs.declared.answer.Answer.{Answer};

    /// The copy of an answer that comes with the answer: an equal one, or nothing.
    type CallerCopy: Drop;

    // The reply.
    ghost says: { Self → Reply };

    // It is the reply alone.
    ghost is_alone: { Bool };

    // The copy that comes with an answer agrees with it.
    ghost Agrees: { Self.CallerCopy → Answer → Type 0 };

    /// Whether it is the reply alone, which takes no memory.
    fn is_alone() -> bool
        ensures { result ≡ is_alone };

    /// Makes the form of two equal replies.
    fn new(reply: Reply, twin: Reply) -> Self
        requires { twin ≡ reply }
        ensures { says result ≡ reply };

    /// Makes the form of a reply. Fails only when memory runs out, which neither the reply alone nor a reply
    /// without bytes meets.
    fn of(alloc: Global, reply: Reply) -> Result<Self, NoMem>
        ensures ok { IfOk result (λ made. says made ≡ reply) }
        ensures alone { is_alone ≡ true → IsOk result }
        ensures plain { has_bytes reply ≡ false → IsOk result };

    /// Makes the form of a reply without bytes. Takes no memory.
    fn plain(reply: Reply) -> Self
        requires { has_bytes reply ≡ false }
        ensures { says result ≡ reply };

    /// The answer of a call that was done.
    fn into_done(self) -> (Answer, Self::CallerCopy)
        ensures answer { result.0 ≡ Answers.Done (says self) }
        ensures beside { Agrees result.1 (Answers.Done (says self)) };

    /// The copy that comes with the answer of a call that was refused.
    fn refused(refusal: Refusal) -> Self::CallerCopy
        ensures { Agrees result (Answers.Refused refusal) };

    /// The copy that comes with the answer of a call after whose change memory ran out.
    fn broke() -> Self::CallerCopy
        ensures { Agrees result Answers.Broke };
}

impl ReplyForm for Reply {
    ghost use Rattle.std.specs.Prelude.{true, ⊤};

    type CallerCopy = ();

    ghost says = { λ reply. reply };

    ghost is_alone = { true };

    ghost Agrees = { λ nothing answer. ⊤ };

    fn is_alone() -> bool {
        true
    }

    #[inline(always)]
    fn new(reply: Reply, twin: Reply) -> Reply {
        drop(twin);
        reply
    }

    #[inline(always)]
    fn of(_alloc: Global, reply: Reply) -> Result<Reply, NoMem> {
        Ok(reply)
    }

    #[inline(always)]
    fn plain(reply: Reply) -> Reply {
        reply
    }

    #[inline(always)]
    fn into_done(self) -> (Answer, ()) {
        (Answer::Done(self), ())
    }

    fn refused(_refusal: Refusal) {}

    fn broke() {}
}

impl ReplyForm for ReplyAndCopy {
    ghost use Rattle.std.specs.Prelude.{◌≡◌, false};

    type CallerCopy = Answer;

    ghost says = { λ twins. twins };

    ghost is_alone = { false };

    ghost Agrees = { λ twin answer. twin ≡ answer };

    fn is_alone() -> bool {
        false
    }

    fn new(reply: Reply, twin: Reply) -> ReplyAndCopy {
        ReplyAndCopy { reply, twin }
    }

    fn of(alloc: Global, reply: Reply) -> Result<ReplyAndCopy, NoMem> {
        let twin = reply.copy(alloc)?;
        Ok(ReplyAndCopy { reply, twin })
    }

    fn plain(reply: Reply) -> ReplyAndCopy {
        let twin = reply.copy_plain();
        ReplyAndCopy { reply, twin }
    }

    fn into_done(self) -> (Answer, Answer) {
        let ReplyAndCopy { reply, twin } = self;
        (Answer::Done(reply), Answer::Done(twin))
    }

    fn refused(refusal: Refusal) -> Answer {
        Answer::Refused(refusal)
    }

    fn broke() -> Answer {
        Answer::Broke
    }
}
