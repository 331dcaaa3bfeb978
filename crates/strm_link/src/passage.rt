//! How far a link is: the number of messages that it has passed on.
ghost use Rattle.std.specs.Prelude.{◌≡◌, ◌≤◌, ◌<◌, ◌+◌, ◌-◌, ◌^◌};
ghost use Rattle.strm_link.specs.Passage.{held_count, nothing_yet, passage_after, seen};

use crate::act::Act;

/// How far a link is behind some messages: how many it has passed on, and whether it holds one.
#[derive(Clone, Copy, Debug, PartialEq, Eq)]
pub struct Passage {
    /// The number of messages that it has passed on, each of a double among them.
    pub given: u64,
    /// Whether it holds a message.
    pub held: bool,
}

/// The number of messages that are held: one or none.
fn held_count(held: bool) -> u64
    ensures { result ≡ held_count held }
{
    if held { 1 } else { 0 }
}

impl Passage {
    /// A link before its first message.
    pub(crate) fn new() -> Passage
        ensures { result ≡ nothing_yet }
    {
        Passage {
            given: 0,
            held: false,
        }
    }

    /// The link behind one more message, by its act.
    pub(crate) fn after(self, act: Act) -> Passage
        requires { seen self < 2 ^ 64 - 2 }
        ensures passage { result ≡ passage_after act self }
        ensures few { seen result ≤ seen self + 2 }
    {
        let held = held_count(self.held);
        match act {
            Act::Keep => Passage {
                given: self.given + 1 + held,
                held: false,
            },
            Act::Lose => self,
            Act::Double => Passage {
                given: self.given + 2 + held,
                held: false,
            },
            Act::Hold => Passage {
                given: self.given + held,
                held: true,
            },
        }
    }
}
