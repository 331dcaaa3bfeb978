//! A vocabulary of kinds, each with its meaning.
ghost use Rattle.std.specs.Prelude.{◌≡◌, IfOk, OnOk, OnErr, IsTrue};
ghost use Rattle.strm_module.specs.Kinds.{all_go_up};

use crate::outs::Outs;
use crate::turn::Turn;
use std::alloc::Global;
use strm_msg::{BoxedMessage, NoMem, Side};

/// The kinds of module that a program has: plain data with a meaning. `Kind` has those that are built in; a
/// type of your own has the disciplines that you port.
///
/// In every vocabulary an ordinary message of a side with marks waits in the module's queue, and a high one
/// never does. A flush empties the queues that it names. A module keeps its serial, its name and its marks.
/// Five things are left to a kind. They are the processing of a message that does not wait (the state
/// afterwards, and the messages that leave), the turn of the service of a side, the messages that it sends of
/// its own, whether messages of a side may be answered on the other, and what time changes in it.
///
/// An implementation gives that meaning as `means`, and `process`, `turn`, `own`, `answers` and `expire` are
/// proved to do it. Most kinds always serve the messages that wait, send nothing of their own and ask for no
/// ticks. For one that turns each message round, and so answers those that go down, it is
///
/// ```
/// ghost means = { serving (λ kind side m. replied kind m) (λ kind side. not (is_up side)) };
/// ```
pub trait Kinds: Drop {
    ghost use Rattle.strm_module.specs.Kinds.{Meaning};

    ghost means: { Meaning Self };

    /// Processes a message: one that came and is not queued, or one that was queued and has its turn. `side`
    /// is the side on which it came. A message that comes up is only sent further up. The message comes in
    /// its box, in which the result can go on without memory.
    ///
    /// Fails only when memory runs out: then the kind is as before, and the message is dropped.
    fn process(&mut self, alloc: Global, side: Side, m: BoxedMessage) -> Result<Outs, NoMem>
        ensures outs { IfOk result (λ outs. outs.items ≡ (means.acts self.old side m).outs) }
        ensures kept { OnOk result (self.new ≡ (means.acts self.old side m).kind) }
        ensures err { OnErr result (self.new ≡ self.old) }
        ensures upward { side ≡ Side.Rd → IfOk result (λ outs. IsTrue (all_go_up outs.items)) };

    /// The turn of the service of a side, as things are now. Where a message, or something that was sent, has
    /// changed it, the side's service is enabled (qenable(9F)): so an acknowledgement that comes up opens a
    /// window on the way down.
    fn turn(&self, side: Side) -> Turn
        ensures { result ≡ means.turn self.now side };

    /// Sends something of the kind's own on a side, where its turn says that it sends: an acknowledgement, an
    /// echo, a frame once more. It goes ahead of the messages that wait in the queue. Messages that the read
    /// side sends go up.
    ///
    /// Fails only when memory runs out: then the kind is as before.
    fn own(&mut self, alloc: Global, side: Side) -> Result<Outs, NoMem>
        ensures outs { IfOk result (λ outs. outs.items ≡ (means.own self.old side).outs) }
        ensures kept { OnOk result (self.new ≡ (means.own self.old side).kind) }
        ensures err { OnErr result (self.new ≡ self.old) }
        ensures upward { side ≡ Side.Rd → IfOk result (λ outs. IsTrue (all_go_up outs.items)) };

    /// Whether ordinary messages of a side may be answered on the other side. A message that comes up is
    /// answered by something that is sent down, as an echo or an acknowledgement. A message that goes down is
    /// answered by something ordinary that is sent up, as the copy that a tee makes. It makes no difference
    /// that the answer is kept for a while, and goes of the kind's own. Answers to ioctls and to other high
    /// messages do not count.
    ///
    /// It is asked where a module is pushed: one that answers messages that come up is refused where its
    /// answers could come up to it again (streamio(7), I_PUSH). So a kind that may answer at some time says
    /// so from the first on, whatever it keeps (`AnswersStay`).
    fn answers(&self, side: Side) -> bool
        ensures { result ≡ means.answers self.now side };

    /// Lets so many ticks pass, which come from outside (timeout(9F)). That changes the state of the kind
    /// alone: nothing is sent. What the kind then owes, its turns say, and `own` sends it in the same event.
    /// Takes no memory. A kind that asks for no ticks stays as it is.
    ///
    /// Two ticks of one need not be one of two: what is due after the first is sent before the second.
    fn expire(&mut self, ticks: u32)
        ensures { self.new ≡ means.expire self.old ticks };

    /// An equal kind. Fails only when memory runs out.
    fn copy(&self, alloc: Global) -> Result<Self, NoMem>
        ensures { IfOk result (λ copy. copy ≡ self.now) };
}
