//! A reply, and an equal one.
use crate::answer::Reply;
use std::marker::Model;

/// A reply and an equal one: the one is for a record of the call, the other for its caller. A contract sees
/// the one reply.
#[derive(Drop)]
pub struct ReplyAndCopy {
    pub(crate) reply: Reply,
    pub(crate) twin: Reply,
}

impl Model for ReplyAndCopy {
    ghost use Rattle.std.specs.Prelude.{◌≡◌};
    ghost use Rattle.strm_head_calls.specs.declared.answer.Reply.{Reply};

    ghost Value = { Reply };

    ghost view = { λ twins. twins.reply };

    ghost invariant = { λ twins. twins.twin ≡ twins.reply };
}
