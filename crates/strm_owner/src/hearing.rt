//! What an owner hears of a call.
ghost use Rattle.std.specs.Prelude.{◌≡◌};
ghost use Rattle.strm_head.specs.Effects.{refusal_of};
ghost use Rattle.strm_owner.specs.Hearing.{told_of};
ghost use Rattle.strm_head_calls.specs.declared.request.Request.TheVariants as Requests;

use crate::module::ServedModule;
use crate::owner::Told;
use strm_head::Stream;
use strm_head_calls::{Answer, Refusal, ServiceCall};
use strm_module::ModuleOf;
use strm_msg::Side;

/// The answer of a call, as its owner hears it. The call is equal to the one that was made.
pub(crate) fn told_of(call: ServiceCall, answer: Answer) -> Told
    ensures { result ≡ told_of call answer }
{
    match answer {
        Answer::Done(reply) => {
            drop(call);
            Told::Done { reply }
        }
        Answer::Refused(refusal) => Told::Refused { refusal, call },
        Answer::Broke => {
            drop(call);
            Told::Broke
        }
    }
}

impl ServedModule {
    /// The refusal that a call would have if it were made now, as `Stream::refusal`.
    pub(crate) fn refusal<M: ModuleOf>(
        &self,
        stream: &Stream<M>,
        side: Side,
        call: &ServiceCall,
    ) -> Option<Refusal>
        ensures { result ≡ refusal_of M.Kind.means stream.now self.now.at (Requests.Service self.now.name side call.now) }
    {
        let (end, name) = (self.end(), self.name());
        match call {
            ServiceCall::Putnext { m } => stream.putnext_refusal(end, name, side, m),
            ServiceCall::Putbq { m } => stream.putbq_refusal(end, name, side, m),
            ServiceCall::Getq { flag } => {
                stream.refusal(end, &self.request(side, ServiceCall::Getq { flag: *flag }))
            }
            ServiceCall::Bcanputnext { band } => {
                stream.refusal(
                    end,
                    &self.request(side, ServiceCall::Bcanputnext { band: *band }),
                )
            }
            ServiceCall::Qsize => stream.refusal(end, &self.request(side, ServiceCall::Qsize)),
        }
    }
}
