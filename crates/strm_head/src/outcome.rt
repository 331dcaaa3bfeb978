//! The outcome of a call, and of a message that comes in.
ghost use Rattle.std.specs.Prelude.{◌≡◌};
ghost use Rattle.strm_head.specs.Effects.{pushed_of};

use crate::call::Back;
use crate::step_result::StepResult;
use arrayvec::ArrayVec;
use strm_chain::{Looks, MOST_MODULES, Moves};
use strm_head_calls::{Answer, ReplyForm, Request};
use strm_module::{BoxedModule, ModuleOf};
use strm_msg::Message;

/// The outcome of a call.
#[derive(Drop)]
pub struct Outcome<M: ModuleOf> {
    /// The answer.
    pub answer: Answer,
    /// The modules that come back, each as `Some`: that of a push that was refused, or those that a
    /// pop or a close has taken out, topmost first, also where the stream then broke.
    pub back: ArrayVec<Option<BoxedModule<M>>, MOST_MODULES>,
    /// The places that moved before the stream was quiet again. Only a call that is done has any.
    pub moves: Moves,
    /// The number of places that service looked at, each taken out of the run queue: u64::MAX if more, and 0
    /// where the call is not done.
    pub looks: u64,
}

/// The outcome of a message that came in from a line.
#[derive(Drop)]
pub enum Arrived {
    /// It was taken.
    Taken {
        /// The places that moved before the stream was quiet again.
        moves: Moves,
        /// The number of places that service looked at.
        looks: Looks,
    },
    /// It was not taken, and nothing was changed: the driver is neither line nor wire, the end is closed, the
    /// stream is broken, or the list of messages that came in is full in the band of an ordinary message.
    /// Here it is again.
    Full(Message),
    /// It was not taken, as memory ran out, and nothing was changed. Here it is again.
    NoMem(Message),
    /// It was taken, and then memory ran out: the stream is broken from then on.
    Broke,
}

/// The module of a push, if this is one.
pub(crate) fn pushed<M: ModuleOf>(request: Request<BoxedModule<M>>) -> Back<M>
    ensures { result.items ≡ pushed_of request }
{
    let mut back = ArrayVec::new();
    match request {
        Request::Push { instance } => {
            back.push(Some(instance));
        }
        other => drop(other),
    }
    back
}

impl<M: ModuleOf> Outcome<M> {
    /// The outcome of a call from its answer and the modules that come back, and the copy that comes with the
    /// answer.
    pub(crate) fn of<A: ReplyForm>(
        answered: StepResult<A>,
        back: Back<M>,
    ) -> (Outcome<M>, A::CallerCopy)
        ensures answer { result.0.answer ≡ answered.answer }
        ensures beside { A.Agrees result.1 answered.answer }
        ensures moves { result.0.moves ≡ answered.moves }
        ensures back { result.0.back ≡ back }
        ensures looks { result.0.looks ≡ answered.looks }
    {
        let (answer, beside, settled) = answered.into_parts();
        let outcome = Outcome {
            answer,
            back,
            moves: settled.moves,
            looks: settled.looks.count(),
        };
        (outcome, beside)
    }
}
