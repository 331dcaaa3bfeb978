//! An owner that serves its module on a stream.
ghost use Rattle.std.specs.Prelude.{◌≡◌};
ghost use Rattle.strm_owner.specs.Rounds.{Pumps};
ghost use Rattle.strm_owner.specs.Serves.{Serves};

use crate::hearing::told_of;
use crate::module::ServedModule;
use crate::owner::{Owner, Told};
use strm_head::Stream;
use strm_head_calls::{Refusal, ServiceCall};
use strm_module::ModuleOf;
use strm_msg::Side;

/// What came of a pump.
#[derive(Clone, Copy, Debug, PartialEq, Eq)]
pub struct Pumped {
    /// The calls that the owner wanted, and of which it has heard.
    pub done: u32,
    /// Whether the owner wanted no call more. If not, the budget is used up.
    pub is_idle: bool,
}

impl ServedModule {
    /// Makes a call, unless it would be refused. It is copied first, so that it comes back with its message
    /// where memory runs out.
    fn serve<M: ModuleOf>(&self, stream: &mut Stream<M>, side: Side, call: ServiceCall) -> Told
        ensures { Serves M.Kind.means self.now side call stream.old result stream.new }
    {
        if let Some(refusal) = self.refusal(stream, side, &call) {
            return Told::Refused { refusal, call };
        }
        let Ok(same) = call.copy(self.alloc()) else {
            return Told::Refused {
                refusal: Refusal::NoMemory,
                call,
            };
        };
        let outcome = stream.apply(self.end(), self.request(side, call));
        told_of(same, outcome.answer)
    }

    /// Makes the calls that an owner wants on a stream, until it wants none, or so many are made. The owner
    /// hears of each before it says which it wants next.
    ///
    /// A call that would be refused is not made, and nothing that an owner sends is lost: with a refusal it
    /// hears its call, and so has the message, again.
    pub fn pump<M: ModuleOf, O: Owner>(
        &self,
        stream: &mut Stream<M>,
        owner: &mut O,
        budget: u32,
    ) -> Pumped
        ensures { Pumps O.Asks O.Hears (Serves M.Kind.means self.now) budget owner.old stream.old result owner.new stream.new }
    {
        for done in 0..budget {
            let Some((side, call)) = owner.next_call() else {
                return Pumped {
                    done,
                    is_idle: true,
                };
            };
            let told = self.serve(stream, side, call);
            owner.hear(told);
        }
        Pumped {
            done: budget,
            is_idle: false,
        }
    }
}
