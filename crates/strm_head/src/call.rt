//! A call on a chain: the first refusal that holds, the effect of the call, and the services after it.
ghost use Rattle.std.specs.Prelude.{◌≡◌, ◌≢◌, ◌||◌, true, false, [], None};
ghost use Rattle.strm_head_calls.specs.declared.answer.Answer.TheVariants as Answer;
ghost use Rattle.strm_head_calls.specs.Refusal.{first_that_holds};
ghost use Rattle.strm_head_calls.specs.Request.{changes_no_queue};
ghost use Rattle.strm_chain_ends.specs.Flow.{NoneMay};
ghost use Rattle.strm_head.specs.Effects.{AreRefusalsInOrder, own_refusals, closed_refusals, errors_looked_at, error_refusals, common_refusals, refusal_of, awaits_answer, has_nothing_to_do, back_of, BreaksNone, HasItsMemory};
ghost use Rattle.strm_head.specs.TakesEffect.{needs_no_service, FinishesWith, FinishesIoctl, HasLooks};
ghost use Rattle.strm_head.specs.Polls.{PollTells};
ghost use Rattle.strm_head.specs.StepResult.{AreGiven, IsLooked, IsCallStep, LooksAtFew, CallLooksAtFew};
ghost use Rattle.strm_head.specs.Inside.{IsWholeStream};

use crate::effects::begin;
use crate::outcome::pushed;
use crate::step_result::StepResult;
use arrayvec::ArrayVec;
use strm_chain::{Chain, ChainFault, MOST_MODULES, Settled};
use strm_head_calls::{Refusal, Reply, ReplyForm, Request};
use strm_head_ioctl::{
    acknowledged, acknowledged_copy, find_refusal, flush_refusal, getband_refusal, look_refusal,
    pop_refusal, push_refusal, str_refusal, strget_refusal, strput_refusal, take_refusal,
    tick_refusal,
};
use strm_head_msg::{
    getmsg_refusal, getpmsg_refusal, putmsg_refusal, putpmsg_refusal, write_refusal,
};
use strm_head_read::read_refusal;
use strm_head_service::{finds_nothing, service_refusal};
use strm_module::{BoxedModule, ModuleOf};
use strm_msg::{BoxedMessage, End, Errno};

/// States a law, and does nothing: refusals are looked for in their order, whatever the call.
pub fn refusals_are_in_order<M: ModuleOf>()
    ensures { AreRefusalsInOrder M.Kind.means }
{}

/// States a law, and does nothing: if a poll of an end reports neither a closed end nor an error, its
/// report agrees with the refusals that calls there would have.
pub fn poll_tells<M: ModuleOf>()
    ensures { PollTells M.Kind.means }
{}

/// The modules that come back of a call, each as `Some`, topmost first.
pub(crate) type Back<M> = ArrayVec<Option<BoxedModule<M>>, MOST_MODULES>;

/// The refusal of a close: a closed end.
fn closed_refusal<M: ModuleOf>(chain: &Chain<M>, end: End) -> Option<Refusal>
    ensures { result ≡ first_that_holds (closed_refusals chain.now.image end) }
{
    if chain.is_open(end) {
        return None;
    }
    Some(Refusal::Closed)
}

/// Whether a call looks at the error of the read side, and whether at that of the write side.
fn errors_looked_at<P>(request: &Request<P>) -> (bool, bool)
    ensures { result ≡ errors_looked_at request.now }
{
    match request {
        Request::Getmsg { .. }
        | Request::Getpmsg { .. }
        | Request::Read { .. }
        | Request::Nread
        | Request::Peek { .. }
        | Request::Ckband { .. }
        | Request::Getband => (true, false),
        Request::Putmsg { .. }
        | Request::Putpmsg { .. }
        | Request::Write { .. }
        | Request::Canput { .. } => (false, true),
        Request::Close
        | Request::Take
        | Request::Service { .. }
        | Request::Tick { .. }
        | Request::Poll => (false, false),
        _ => (true, true),
    }
}

/// The refusal by an error that came up: that of the read side before that of the write side, where each is
/// looked at.
fn error_refusal(looks: (bool, bool), rd: Option<Errno>, wr: Option<Errno>) -> Option<Refusal>
    ensures { result ≡ first_that_holds (error_refusals looks rd wr) }
{
    match rd {
        Some(errno) if looks.0 => Some(Refusal::ReadError { errno }),
        _ => match wr {
            Some(errno) if looks.1 => Some(Refusal::WriteError { errno }),
            _ => None,
        },
    }
}

/// The refusal that every call but a close, a take, a service call and a poll shares: a closed end, a broken
/// stream, an error that came up and that the call looks at.
pub(crate) fn common_refusal<M: ModuleOf>(
    chain: &Chain<M>,
    end: End,
    request: &Request<BoxedModule<M>>,
) -> Option<Refusal>
    ensures { result ≡ first_that_holds (common_refusals chain.now.image end request.now) }
{
    if !chain.is_open(end) {
        return Some(Refusal::Closed);
    }
    if chain.is_broken() {
        return Some(Refusal::Broken);
    }
    let state = chain.state(end);
    error_refusal(errors_looked_at(request), state.rd_errno, state.wr_errno)
}

/// The first of a call's own refusals that holds.
fn own_refusal<M: ModuleOf>(
    chain: &Chain<M>,
    end: End,
    request: &Request<BoxedModule<M>>,
) -> Option<Refusal>
    ensures { result ≡ first_that_holds (own_refusals M.Kind.means chain.now.image end request.now) }
{
    match request {
        Request::Putmsg { flag, parts } => putmsg_refusal(chain, end, parts, *flag),
        Request::Putpmsg { band, flag, parts } => {
            putpmsg_refusal(chain, end, parts, *band, *flag)
        }
        Request::Getmsg { flag, .. } => getmsg_refusal(chain, end, *flag),
        Request::Getpmsg { band, flag, .. } => getpmsg_refusal(chain, end, *band, *flag),
        Request::Read { max } => read_refusal(chain, end, *max),
        Request::Write { dat } => write_refusal(chain, end, dat),
        Request::Push { instance } => push_refusal(chain, end, instance.shape()),
        Request::Getband => getband_refusal(chain, end),
        Request::Pop => pop_refusal(chain, end),
        Request::Take => take_refusal(chain, end),
        Request::Service { name, side, call } => service_refusal(chain, end, name, *side, call),
        Request::Look => look_refusal(chain, end),
        Request::Find { name } => find_refusal(name),
        Request::Str { dat, .. } => str_refusal(chain, end, dat),
        Request::Strput { dat, .. } => strput_refusal(chain, end, dat),
        Request::Strget { drops } => strget_refusal(chain, end, *drops),
        Request::Flush { r, w } | Request::FlushBand { r, w, .. } => {
            flush_refusal(chain, end, *r, *w)
        }
        Request::Tick { ticks } => tick_refusal(*ticks),
        _ => None,
    }
}

/// The first refusal that holds, of all.
pub(crate) fn first_refusal<M: ModuleOf>(
    chain: &Chain<M>,
    end: End,
    request: &Request<BoxedModule<M>>,
) -> Option<Refusal>
    ensures { result ≡ refusal_of M.Kind.means chain.now.image end request.now }
{
    match request {
        Request::Close => closed_refusal(chain, end),
        Request::Take => take_refusal(chain, end),
        Request::Service { name, side, call } => service_refusal(chain, end, name, *side, call),
        Request::Poll => None,
        _ => match common_refusal(chain, end, request) {
            Some(refusal) => Some(refusal),
            None => own_refusal(chain, end, request),
        },
    }
}

/// Whether a call changes no queue.
fn changes_no_queue<P>(request: &Request<P>) -> bool
    ensures { result ≡ changes_no_queue request.now }
{
    match request {
        Request::Nread
        | Request::Peek { .. }
        | Request::SetRead { .. }
        | Request::GetRead
        | Request::Canput { .. }
        | Request::Ckband { .. }
        | Request::Getband
        | Request::Poll
        | Request::Look
        | Request::List
        | Request::Strget { .. }
        | Request::Find { .. } => true,
        Request::Service { call, .. } => call.is_question(),
        _ => false,
    }
}

/// Whether a call has nothing to send, or finds nothing to take.
fn has_nothing_to_do<M: ModuleOf>(
    chain: &Chain<M>,
    end: End,
    request: &Request<BoxedModule<M>>,
) -> bool
    ensures { result ≡ has_nothing_to_do chain.now.image end request.now }
{
    match request {
        Request::Putmsg { parts, .. } | Request::Putpmsg { parts, .. } => {
            parts.ctl.is_none() && parts.dat.is_none()
        }
        Request::Getmsg { .. } | Request::Getpmsg { .. } => chain.head(end).is_empty(),
        Request::Read { max } => *max == 0 || chain.head(end).is_empty(),
        Request::Take => chain.driver_list(end).is_empty(),
        Request::Service { name, call, .. } => finds_nothing(chain, end, name, call),
        Request::Strget { .. } => chain.state(end).answer.is_none(),
        _ => false,
    }
}

/// Whether no service follows a call, as it changes no queue or has nothing to do.
fn needs_no_service<M: ModuleOf>(
    chain: &Chain<M>,
    end: End,
    request: &Request<BoxedModule<M>>,
) -> bool
    ensures { result ≡ needs_no_service chain.now.image end request.now }
{
    changes_no_queue(request) || has_nothing_to_do(chain, end, request)
}

/// Whether the reply of a call is the answer to an ioctl.
fn awaits_answer<P>(request: &Request<P>) -> bool
    ensures { result ≡ awaits_answer request.now }
{
    matches!(request, Request::Str { .. })
}

/// Breaks the chain, as memory ran out after a change.
fn broken<M: ModuleOf, A: ReplyForm>(chain: &mut Chain<M>) -> StepResult<A>
    ensures answer { result.answer ≡ Answer.Broke }
    ensures moves { result.moves ≡ [] }
    ensures looks { result.looks ≡ 0 }
    ensures image { chain.new.image ≡ record chain.old.image { broken = true } }
{
    chain.break_off();
    StepResult::broke()
}

/// Runs services after a call was begun, until no queue must move. On a broken chain there are none.
fn finish<M: ModuleOf, A: ReplyForm>(chain: &mut Chain<M>, end: End, reply: A) -> StepResult<A>
    ensures finishes { FinishesWith M.Kind.means end chain.old (A.says reply) result chain.new }
    ensures broken { result.answer ≡ Answer.Broke → chain.old.image.broken ≡ false }
    ensures still { NoneMay M.Kind.means chain.old.image → result.answer ≢ Answer.Broke }
    ensures looks { IsLooked result.answer result.moves result.looks }
    ensures given { AreGiven chain.old.image.broken result.answer result.looks chain.new.run.given }
    ensures bound { LooksAtFew M.Kind.means chain.old.image result chain.new.image }
{
    if chain.is_broken() {
        return StepResult::done(reply, Settled::none());
    }
    match chain.settle() {
        Ok(settled) => StepResult::done(reply, settled),
        Err(_) => {
            drop(reply);
            broken(chain)
        }
    }
}

/// Runs services after an ioctl was sent, until no queue must move, and takes its answer.
#[inline(never)]
fn finish_ioctl<M: ModuleOf, A: ReplyForm>(chain: &mut Chain<M>, end: End) -> StepResult<A>
    requires { chain.old.image.broken ≡ false }
    ensures finishes { FinishesIoctl M.Kind.means end chain.old result chain.new }
    ensures looks { IsLooked result.answer result.moves result.looks }
    ensures given { AreGiven false result.answer result.looks chain.new.run.given }
    ensures bound { LooksAtFew M.Kind.means chain.old.image result chain.new.image }
{
    let settled = match chain.settle() {
        Ok(settled) => settled,
        Err(_) => return broken(chain),
    };
    let twin = match acknowledged_copy(&chain.state(end).kept) {
        Ok(twin) => twin,
        Err(_) => return broken(chain),
    };
    let answer = acknowledged(chain.end_ioctl(end).map(BoxedMessage::into_message));
    StepResult::done(
        A::new(Reply::Str { answer }, Reply::Str { answer: twin }),
        settled,
    )
}

/// Begins and finishes a call that none of the refusals 1 to 9 and 11 refuses.
pub(crate) fn perform<M: ModuleOf, A: ReplyForm>(
    chain: &mut Chain<M>,
    end: End,
    request: Request<BoxedModule<M>>,
    back: &mut Back<M>,
) -> StepResult<A>
    requires kept { IsWholeStream M.Kind.means chain.old.image }
    requires unrefused { refusal_of M.Kind.means chain.old.image end request ≡ None }
    requires empty { back.old.items ≡ [] }
    ensures answers { IsCallStep M.Kind.means chain.old.image end request result chain.new.image }
    ensures back { back.new.items ≡ back_of M.Kind.means chain.old.image end request result.answer }
    ensures memory { HasItsMemory chain.old.image end request result.answer }
    ensures still { BreaksNone M.Kind.means chain.old.image end request result.answer }
    ensures looks { IsLooked result.answer result.moves result.looks }
    ensures given { HasLooks M.Kind.means chain.old.image end request result chain.new.run.given }
    ensures bound { CallLooksAtFew M.Kind.means chain.old.image end request result chain.new.image }
{
    let is_quiet = needs_no_service(chain, end, &request);
    let awaits = awaits_answer(&request);
    match begin::<M, A>(chain, end, request, back) {
        Ok(reply) if is_quiet => StepResult::done(reply, Settled::none()),
        Ok(reply) if awaits => {
            drop(reply);
            finish_ioctl(chain, end)
        }
        Ok(reply) => finish(chain, end, reply),
        Err(ChainFault::NoMem) => StepResult::refused(Refusal::NoMemory),
        Err(ChainFault::Broken) => StepResult::broke(),
    }
}

/// Makes one call: it is refused, or begun and finished. Its modules come back.
pub(crate) fn answer<M: ModuleOf, A: ReplyForm>(
    chain: &mut Chain<M>,
    end: End,
    request: Request<BoxedModule<M>>,
    back: &mut Back<M>,
) -> StepResult<A>
    requires kept { IsWholeStream M.Kind.means chain.old.image }
    requires empty { back.old.items ≡ [] }
    ensures answers { IsCallStep M.Kind.means chain.old.image end request result chain.new.image }
    ensures back { back.new.items ≡ back_of M.Kind.means chain.old.image end request result.answer }
    ensures memory { HasItsMemory chain.old.image end request result.answer }
    ensures still { BreaksNone M.Kind.means chain.old.image end request result.answer }
    ensures looks { IsLooked result.answer result.moves result.looks }
    ensures given { HasLooks M.Kind.means chain.old.image end request result chain.new.run.given }
    ensures bound { CallLooksAtFew M.Kind.means chain.old.image end request result chain.new.image }
{
    match first_refusal(chain, end, &request) {
        Some(refusal) => {
            *back = pushed(request);
            StepResult::refused(refusal)
        }
        None => perform(chain, end, request, back),
    }
}
