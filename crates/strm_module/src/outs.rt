//! The answer of a module, and the messages that it sends.
ghost use Rattle.std.specs.Prelude.{◌≡◌, [], ◌∷◌};
ghost use Rattle.strm_msg.specs.declared.words.Side.TheVariants as Side;
ghost use Rattle.strm_module.specs.Outs.{AreInOrder, leaving};

use std::marker::Model;
use strm_msg::{BoxedMessage, Side as Sides};

/// The messages that a module sends: at most two, in the order in which they leave, each with its side. `Wr`
/// goes down, to the next module or the driver, and `Rd` goes up, to the next module or the head.
/// `Outs::new()` sends nothing; `pass_on`, `reply` and `both` make one. A contract sees a list, `items`.
#[derive(Debug, Drop, PartialEq, Eq)]
pub struct Outs {
    first: Option<(Sides, BoxedMessage)>,
    second: Option<(Sides, BoxedMessage)>,
}

impl Model for Outs {
    ghost use Rattle.std.specs.Prelude.{slice_get};
    ghost use Rattle.std.proofs.Common.{ap};
    ghost use Rattle.strm_module.specs.Kinds.{Sends};
    ghost use Rattle.strm_module.specs.Outs.{AreInOrder, leaving, tells_both};

    ghost Value = { Sends };

    ghost invariant = { λ outs. AreInOrder outs.first outs.second };

    ghost view = { λ outs. record { items = leaving outs.first outs.second } };

    ghost inverse = { λ sends. record { first = slice_get sends.items 0; second = slice_get sends.items 1 } };

    ghost inverse_ok = { λ outs is. ap (λ parts. record { first = parts.0; second = parts.1 }) (tells_both outs.first outs.second is) };
}

impl Outs {
    /// No messages.
    pub fn new() -> Self
        ensures { result.items ≡ [] }
    {
        Outs {
            first: None,
            second: None,
        }
    }

    /// The messages, each with its side, in the order in which they leave.
    pub fn into_parts(self) -> (Option<(Sides, BoxedMessage)>, Option<(Sides, BoxedMessage)>)
        ensures items { leaving result.0 result.1 ≡ self.items }
        ensures order { AreInOrder result.0 result.1 }
    {
        let Outs { first, second } = self;
        (first, second)
    }
}

/// The answer of a module to a message that comes to it.
#[derive(Debug, Drop, PartialEq, Eq)]
pub enum Put {
    /// The message waits in the module's queue of the side on which it came. It is handed to
    /// `serve` once the queue ahead has room.
    Queue(BoxedMessage),
    /// This is sent at once, and nothing waits.
    Sent(Outs),
}

/// One message, on along a side (putnext(9F)).
pub fn pass_on(side: Sides, m: BoxedMessage) -> Outs
    ensures { result.items ≡ (side, m) ∷ [] }
{
    Outs {
        first: Some((side, m)),
        second: None,
    }
}

/// One message, back up: the answer to one that came down (qreply(9F)).
pub fn reply(m: BoxedMessage) -> Outs
    ensures { result.items ≡ (Side.Rd, m) ∷ [] }
{
    pass_on(Sides::Rd, m)
}

/// Two messages, in this order.
pub fn both(first: (Sides, BoxedMessage), second: (Sides, BoxedMessage)) -> Outs
    ensures { result.items ≡ first ∷ (second ∷ []) }
{
    Outs {
        first: Some(first),
        second: Some(second),
    }
}
