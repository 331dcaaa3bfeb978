//! The answer of a call, without the modules that come back of it.
ghost use Rattle.std.specs.Prelude.{◌≡◌, []};
ghost use Rattle.strm_head_calls.specs.declared.answer.Answer.TheVariants as Answers;

use std::marker::Model;
use strm_chain::Settled;
use strm_head_calls::{Answer, Refusal, Reply, ReplyForm};

/// The answer of a call, the moves and looks of its service, and an equal answer, if its reply was made as
/// `ReplyAndCopy`. A contract sees the answer, the moves, and the number of looks.
#[derive(Drop)]
pub struct StepResult<A: ReplyForm = Reply> {
    answer: Answer,
    beside: A::CallerCopy,
    settled: Settled,
}

impl<A: ReplyForm> Model for StepResult<A> {
    ghost use Rattle.strm_head.specs.StepResult.{StepValue};

    ghost Value = { StepValue };

    ghost view = { λ a. record { answer = a.answer; moves = a.settled.moves; looks = a.settled.looks } };

    ghost invariant = { λ a. A.Agrees a.beside a.answer };
}

impl<A: ReplyForm> StepResult<A> {
    /// A call that was done.
    pub(crate) fn done(reply: A, settled: Settled) -> StepResult<A>
        ensures answer { result.answer ≡ Answers.Done (A.says reply) }
        ensures moves { result.moves ≡ settled.moves }
        ensures looks { result.looks ≡ settled.looks }
    {
        let (answer, beside) = reply.into_done();
        StepResult {
            answer,
            beside,
            settled,
        }
    }

    /// A call that was refused.
    pub(crate) fn refused(refusal: Refusal) -> StepResult<A>
        ensures answer { result.answer ≡ Answers.Refused refusal }
        ensures moves { result.moves ≡ [] }
        ensures looks { result.looks ≡ 0 }
    {
        StepResult {
            answer: Answer::Refused(refusal),
            beside: A::refused(refusal),
            settled: Settled::none(),
        }
    }

    /// A call after whose change memory ran out.
    pub(crate) fn broke() -> StepResult<A>
        ensures answer { result.answer ≡ Answers.Broke }
        ensures moves { result.moves ≡ [] }
        ensures looks { result.looks ≡ 0 }
    {
        StepResult {
            answer: Answer::Broke,
            beside: A::broke(),
            settled: Settled::none(),
        }
    }

    /// Returns the answer, the equal one, if there is one, and the moves and looks of the service.
    pub fn into_parts(self) -> (Answer, A::CallerCopy, Settled)
        ensures answer { result.0 ≡ self.answer }
        ensures beside { A.Agrees result.1 self.answer }
        ensures moves { result.2.moves ≡ self.moves }
        ensures looks { result.2.looks ≡ self.looks }
    {
        let StepResult {
            answer,
            beside,
            settled,
        } = self;
        (answer, beside, settled)
    }
}
