//! A stream, and the calls on it.
ghost use Rattle.std.specs.Prelude.{◌≡◌, ◌↔◌, ◌<◌, true, false, [], option_map, option_copied, IsOk, IsErrOf, IfOk, OnErr};
ghost use Rattle.strm_msg.specs.Kind.{is_from_line};
ghost use Rattle.strm_msg.specs.declared.words.End.TheVariants as Ends;
ghost use Rattle.strm_chain_end.specs.End.{pair_at};
ghost use Rattle.strm_chain_ends.specs.Image.{end_of, fresh};
ghost use Rattle.strm_chain_ends.specs.Order.{IsOrdered};
ghost use Rattle.strm_head_calls.specs.Setup.{are_marks};
ghost use Rattle.strm_head_ioctl.specs.Names.{names_of};
ghost use Rattle.strm_head_ioctl.specs.Outside.{first_output};
ghost use Rattle.strm_head_service.specs.First.{first_served};
ghost use Rattle.strm_head_calls.specs.declared.request.Request.TheVariants as Requests;
ghost use Rattle.strm_head_calls.specs.declared.service.ServiceCall.TheVariants as ServiceCalls;
ghost use Rattle.strm_head.specs.Effects.{refusal_of, back_of, BreaksNone, begun_of, HasItsMemory};
ghost use Rattle.strm_module.specs.Calm.{IsCalm};
ghost use Rattle.strm_module.specs.Kinds.{AnswersStay};
ghost use Rattle.strm_head.specs.StepResult.{IsLooked, IsBounded, IsAnswered, IsCallStep, CallLooksAtFew};
ghost use Rattle.strm_head.specs.Step.{can_arrive};
ghost use Rattle.strm_head.specs.Arrive.{Arrives};

use crate::arriving::{arrive, can_arrive};
use crate::asking::{refusal_of_push, refusal_of_putmsg, refusal_of_putpmsg};
use crate::call::{answer, first_refusal};
use crate::fault::NewFault;
use crate::outcome::{Arrived, Outcome};
use crate::step_result::StepResult;
use arrayvec::ArrayVec;
use std::alloc::Global;
use std::marker::Model;
use strm_chain::{Chain, Driver, MOST_MODULES};
use strm_head_calls::{
    Answer, Name, Parts, Priority, PutFlag, Refusal, ReplyAndCopy, ReplyForm, Request,
};
use strm_head_ioctl::{first_output, names_of};
use strm_head_service::{first_served, putbq_refusal, putnext_refusal};
use strm_module::{BoxedModule, ModuleOf, Shape};
use strm_msg::{End, Marks, Message, Side};

/// A stream: a driver with its ends, the modules on each of them, and the stream heads.
///
/// A contract sees its image: the driver, whether the stream is broken, and the state of each end. That is
/// whether the end is open, its lists with their marks, the record of its head, and its modules as shapes
/// with two lists. Between calls no queue must move, unless the stream is broken.
#[derive(Drop)]
pub struct Stream<M: ModuleOf> {
    chain: Box<Chain<M>>,
}

impl<M: ModuleOf> Model for Stream<M> {
    ghost use Rattle.strm_chain_ends.specs.Image.{Image};
    ghost use Rattle.strm_head.specs.Inside.{IsWholeStream};

    ghost Value = { Image M.Kind };

    ghost view = { λ s. s.chain.value.image };

    ghost invariant = { λ s. IsWholeStream M.Kind.means s.chain.value.image };
}

/// The marks, from the high one and the low one.
fn marks_of(pair: (u32, u32)) -> Result<Marks, NewFault>
    ensures ok { IfOk result (λ marks. marks ≡ record { hi = pair.0; lo = pair.1 }) }
    ensures variant { IsOk result ↔ (pair.1 < pair.0) }
    ensures fault { OnErr result (result ≡ Err NewFault.Marks) }
{
    match Marks::new(pair.0, pair.1) {
        Some(marks) => Ok(marks),
        None => Err(NewFault::Marks),
    }
}

impl<M: ModuleOf> Stream<M> {
    /// A stream that was just opened, with the marks of its heads and of its driver's lists as `(high, low)`,
    /// in bytes. It has no modules, and each end that the driver has is open.
    ///
    /// Refused with `Marks` exactly where a low mark is not below its high one, which is looked at first, and
    /// with `NoMem` when memory runs out.
    pub fn new(
        alloc: Global,
        driver: Driver,
        head: (u32, u32),
        drv: (u32, u32),
    ) -> Result<Stream<M>, NewFault>
        ensures ok { IfOk result (λ it. it ≡ fresh driver (record { hi = head.0; lo = head.1 }) (record { hi = drv.0; lo = drv.1 })) }
        ensures marks { IsErrOf result NewFault.Marks ↔ (are_marks head drv ≡ false) }
    {
        let head = marks_of(head)?;
        let drv = marks_of(drv)?;
        let Ok(chain) = Chain::new(alloc, driver, head, drv) else {
            return Err(NewFault::NoMem);
        };
        match Box::new(alloc, chain) {
            Ok(chain) => Ok(Stream { chain }),
            Err(chain) => {
                drop(chain);
                Err(NewFault::NoMem)
            }
        }
    }

    /// Whether an end is open. One that the driver lacks never is.
    pub fn is_open(&self, end: End) -> bool
        ensures { result ≡ (end_of self.now end).is_open }
    {
        self.chain.is_open(end)
    }

    /// Whether memory ran out after a change, so that every later call but a close and a poll is refused.
    /// Where it did not, no message goes round a circle, if no message changes on which sides the kinds
    /// answer.
    pub fn is_broken(&self) -> bool
        ensures value { result ≡ self.now.broken }
        ensures ordered { result ≡ false → AnswersStay M.Kind.means → IsOrdered M.Kind.means self.now }
    {
        self.chain.is_broken()
    }

    /// The driver, at the bottom.
    pub fn driver(&self) -> Driver
        ensures { result ≡ self.now.driver }
    {
        self.chain.driver()
    }

    /// The first message that was sent down to a wire. The next take gives it. None where the driver is no
    /// wire.
    pub fn first_output(&self, end: End) -> Option<&Message>
        ensures { option_copied result ≡ first_output self.now end }
    {
        first_output(&self.chain, end)
    }

    /// The first message of a queue that the program serves, of the module of this name that is the
    /// program's, or of the output of a wire by the driver's name. A getq of any message takes it. None where
    /// no message waits, and where the name means neither.
    pub fn first_served(&self, end: End, name: &Name, side: Side) -> Option<&Message>
        ensures { option_copied result ≡ first_served self.now end name.now.items side }
    {
        first_served(&self.chain, end, name, side)
    }

    /// The answer that has come to the ioctl whose answer is asked for later. A strget gives it. None where
    /// none has come.
    pub fn answer(&self, end: End) -> Option<&Message>
        ensures { option_copied result ≡ (end_of self.now end).state.answer }
    {
        match &self.chain.state(end).answer {
            Some(answer) => Some(answer),
            None => None,
        }
    }

    /// The refusal that the call would have if it were made now: the first that holds, but for out of memory.
    /// Nothing is done, and no memory is taken.
    pub fn refusal(&self, end: End, request: &Request<BoxedModule<M>>) -> Option<Refusal>
        ensures { result ≡ refusal_of M.Kind.means self.now end request.now }
    {
        first_refusal(&self.chain, end, request)
    }

    /// The refusal that a putmsg of these parts would have, as `refusal`. It looks at their lengths alone.
    pub fn putmsg_refusal(&self, end: End, parts: &Parts, flag: Priority) -> Option<Refusal>
        ensures { result ≡ refusal_of M.Kind.means self.now end (Requests.Putmsg flag parts.now) }
    {
        refusal_of_putmsg(&self.chain, end, parts, flag)
    }

    /// The refusal that a putpmsg of these parts would have, as `putmsg_refusal`.
    pub fn putpmsg_refusal(
        &self,
        end: End,
        parts: &Parts,
        band: u8,
        flag: PutFlag,
    ) -> Option<Refusal>
        ensures { result ≡ refusal_of M.Kind.means self.now end (Requests.Putpmsg band flag parts.now) }
    {
        refusal_of_putpmsg(&self.chain, end, parts, band, flag)
    }

    /// The refusal that a putnext of this message would have, as `refusal`. It looks at its kind and its band
    /// alone.
    pub fn putnext_refusal(&self, end: End, name: &Name, side: Side, m: &Message) -> Option<Refusal>
        ensures { result ≡ refusal_of M.Kind.means self.now end (Requests.Service name.now side (ServiceCalls.Putnext m.now)) }
    {
        putnext_refusal(&self.chain, end, name, side, m)
    }

    /// The refusal that a putbq of this message would have, as `refusal`. It looks at its kind alone.
    pub fn putbq_refusal(&self, end: End, name: &Name, side: Side, m: &Message) -> Option<Refusal>
        ensures { result ≡ refusal_of M.Kind.means self.now end (Requests.Service name.now side (ServiceCalls.Putbq m.now)) }
    {
        putbq_refusal(&self.chain, end, name, side, m)
    }

    /// The refusal that a push of a module of this shape would have, as `refusal`.
    pub fn push_refusal(&self, end: End, shape: &Shape<M::Kind>) -> Option<Refusal>
        ensures { result ≡ refusal_of M.Kind.means self.now end (Requests.Push shape.now) }
    {
        refusal_of_push(&self.chain, end, shape)
    }

    /// The shape of a module, counted from 1 for the topmost; `None` where there is none. A stream that
    /// is broken shows its modules too.
    pub fn shape(&self, end: End, i: u8) -> Option<&Shape<M::Kind>>
        ensures { option_copied result ≡ option_map (λ s. s.shape) (pair_at (end_of self.now end).modules i) }
    {
        self.chain.shape(end, i)
    }

    /// The names of the modules on an end, topmost first; none where there are none. A stream that is
    /// broken shows its modules too. Takes no memory.
    pub fn names(&self, end: End) -> ArrayVec<Name, MOST_MODULES>
        ensures { result.items ≡ names_of (end_of self.now end) }
    {
        names_of(&self.chain, end)
    }

    /// Makes one call on an end: a step of the stream. The outcome has its answer, the moves that it made,
    /// and the modules that come back.
    ///
    /// A refusal is the first that holds, in the order of `Refusal`, and leaves the stream as it was. An end
    /// that the driver lacks is never open. Calls that change no queue make no move. Those of them that only
    /// say or set something never run out of memory. Nor do calls that have nothing to do, as a read of no
    /// bytes, and a peek that shows nothing. Where no place may move once a call has begun, one that sends no
    /// message breaks nothing. A push, a pop and a close put in or take out their modules before memory can
    /// run out.
    pub fn apply(&mut self, end: End, request: Request<BoxedModule<M>>) -> Outcome<M>
        ensures step { IsAnswered M.Kind.means self.old end request result.answer result.moves self.new }
        ensures back { result.back.items ≡ back_of M.Kind.means self.old end request result.answer }
        ensures looks { IsLooked result.answer result.moves result.looks }
        ensures bound { IsCalm M.Kind.means
            → IsBounded (begun_of M.Kind.means self.old end request) result.answer result.moves result.looks self.new }
        ensures memory { HasItsMemory self.old end request result.answer }
        ensures still { BreaksNone M.Kind.means self.old end request result.answer }
    {
        let mut back = ArrayVec::new();
        let answered: StepResult = self.call(end, request, &mut back);
        let (outcome, ()) = Outcome::of(answered, back);
        outcome
    }

    /// Makes one call on an end, as `apply` makes it, and returns an equal answer too, as for a record of the
    /// call. It shares the bytes of the other, and is made before the call changes anything; for an ioctl,
    /// when its answer has come.
    pub fn apply_with_twin(
        &mut self,
        end: End,
        request: Request<BoxedModule<M>>,
    ) -> (Outcome<M>, Answer)
        ensures step { IsAnswered M.Kind.means self.old end request result.0.answer result.0.moves self.new }
        ensures twin { result.1 ≡ result.0.answer }
        ensures back { result.0.back.items ≡ back_of M.Kind.means self.old end request result.0.answer }
        ensures looks { IsLooked result.0.answer result.0.moves result.0.looks }
        ensures bound { IsCalm M.Kind.means
            → IsBounded (begun_of M.Kind.means self.old end request) result.0.answer result.0.moves result.0.looks self.new }
        ensures memory { HasItsMemory self.old end request result.0.answer }
        ensures still { BreaksNone M.Kind.means self.old end request result.0.answer }
    {
        let mut back = ArrayVec::new();
        let answered: StepResult<ReplyAndCopy> = self.call(end, request, &mut back);
        Outcome::of(answered, back)
    }

    /// Makes one call on an end, as `apply` makes it. Its modules come back in `back`: each as `Some`,
    /// topmost first. With `ReplyAndCopy` there is an equal answer too, as for a record of the call. Its
    /// memory was found before the call changed anything; for an ioctl, when its answer had come.
    pub fn call<A: ReplyForm>(
        &mut self,
        end: End,
        request: Request<BoxedModule<M>>,
        back: &mut ArrayVec<Option<BoxedModule<M>>, MOST_MODULES>,
    ) -> StepResult<A>
        requires { back.old.items ≡ [] }
        ensures step { IsCallStep M.Kind.means self.old end request result self.new }
        ensures back { back.new.items ≡ back_of M.Kind.means self.old end request result.answer }
        ensures looks { IsLooked result.answer result.moves result.looks }
        ensures bound { CallLooksAtFew M.Kind.means self.old end request result self.new }
        ensures memory { HasItsMemory self.old end request result.answer }
        ensures still { BreaksNone M.Kind.means self.old end request result.answer }
    {
        answer(&mut self.chain, end, request, back)
    }

    /// Whether a message can come in from a line now, at end A: the driver is a line or a wire, the end is
    /// open, the stream is not broken, and an ordinary message finds its band not full in the list of
    /// messages that came in.
    pub fn can_arrive(&self, m: &Message) -> bool
        ensures { result ≡ can_arrive self.now Ends.A m.now }
    {
        can_arrive(&self.chain, m)
    }

    /// Lets a message come in from a line, at end A: a step of the stream, unless it comes back. An ordinary
    /// message waits in the list of messages that came in, a high one goes up at once. To be called with a
    /// message of a kind that comes from a line (`Message::from_line`).
    pub fn arrive(&mut self, m: Message) -> Arrived
        requires { is_from_line m.kind ≡ true }
        ensures { Arrives M.Kind.means self.old m result self.new }
    {
        arrive(&mut self.chain, m)
    }
}
