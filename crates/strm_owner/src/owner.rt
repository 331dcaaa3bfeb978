//! Owners, and what they hear.
use strm_head_calls::{Refusal, Reply, ServiceCall};
use strm_msg::Side;

/// The answer of a service call, as its owner hears it.
#[derive(Drop)]
pub enum Told {
    /// The call was made.
    Done {
        /// The reply: of a getq the message that was first, or a hangup where no more comes.
        reply: Reply,
    },
    /// The call was refused, and has changed nothing.
    Refused {
        /// The refusal. `WouldWait` (EAGAIN) is that of a getq that finds no message, and of a putnext that
        /// finds no room.
        refusal: Refusal,
        /// The call again, with its message.
        call: ServiceCall,
    },
    /// Memory ran out after the change that the call has made: the stream is broken from then on.
    Broke,
}

/// The service procedures of a module of the program, as what they do: which call they make next, and what
/// they make of its answer (srv(9E)).
///
/// A proof of an owner says by `Asks` and `Hears` what it does. Where nothing is to be proved, both hold of
/// everything.
pub trait Owner {
    ghost use Rattle.std.specs.Prelude.{Option};
    ghost use Rattle.strm_msg.specs.declared.words.Side.{Side};
    ghost use Rattle.strm_head_calls.specs.declared.service.ServiceCall.{ServiceCall};
    ghost use Rattle.strm_owner.specs.declared.owner.Told.{Told};

    // The owner, before and after it has said which call it wants.
    ghost Asks: { Self → Option (Side × ServiceCall) → Self → Type 0 };

    // The owner, before and after it has heard an answer.
    ghost Hears: { Self → Told → Self → Type 0 };

    /// The next call that the owner wants, and its side. `None` where it has nothing to do before something
    /// comes to its module.
    fn next_call(&mut self) -> Option<(Side, ServiceCall)>
        ensures { Asks self.old result self.new };

    /// Hears the answer of the call that `next_call` has said last.
    fn hear(&mut self, told: Told)
        ensures { Hears self.old told self.new };
}
