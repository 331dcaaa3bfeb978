//! An owner that serves its module from a seat of a shared stream.
ghost use Rattle.std.specs.Prelude.{◌≡◌, None};
ghost use Rattle.strm_owner.specs.Rounds.{Pumps};
ghost use Rattle.strm_owner.specs.Serves.{Calls};

use crate::hearing::told_of;
use crate::module::ServedModule;
use crate::owner::{Owner, Told};
use crate::pump::Pumped;
use std::sync::Wait;
use strm_head_calls::{Call, Refusal, ServiceCall};
use strm_module::ModuleOf;
use strm_msg::Side;
use strm_shared::{Called, Seat, Shared, StreamRunName};

impl ServedModule {
    /// Makes a call from a seat. It is copied first, so that it comes back with its message where it is
    /// refused or memory runs out.
    fn call<M: ModuleOf, N: StreamRunName<M::Kind>, R: Wait>(
        &self,
        shared: &Shared<M, N>,
        rt: &R,
        seat: &mut Seat,
        side: Side,
        call: ServiceCall,
    ) -> Told
        requires number { seat.old.number ≡ shared.now.number }
        requires free { N.calls seat.old.number seat.old.caller ≡ None }
        ensures calls { Calls M.Kind self.now side call seat.old result seat.new }
        ensures number { seat.new.number ≡ seat.old.number }
        ensures caller { seat.new.caller ≡ seat.old.caller }
    {
        let Ok(same) = call.copy(self.alloc()) else {
            return Told::Refused {
                refusal: Refusal::NoMemory,
                call,
            };
        };
        let call = Call {
            end: self.end(),
            request: self.request(side, call),
        };
        match shared.call(rt, seat, call) {
            Called::Done { answer, .. } => told_of(same, answer),
            Called::NoRoom(call) => {
                drop(call);
                Told::Refused {
                    refusal: Refusal::NoMemory,
                    call: same,
                }
            }
        }
    }

    /// Makes the calls that an owner wants on a shared stream, as `pump` makes them, from its seat. Others
    /// may call in between, so each call is made, and is an entry of the history, also where it is refused.
    ///
    /// To be called with a seat of this stream from which any call may be made.
    pub fn pump_shared<M: ModuleOf, N: StreamRunName<M::Kind>, O: Owner, R: Wait>(
        &self,
        shared: &Shared<M, N>,
        rt: &R,
        seat: &mut Seat,
        owner: &mut O,
        budget: u32,
    ) -> Pumped
        requires number { seat.old.number ≡ shared.now.number }
        requires free { N.calls seat.old.number seat.old.caller ≡ None }
        ensures { Pumps O.Asks O.Hears (Calls M.Kind self.now) budget owner.old seat.old result owner.new seat.new }
    {
        for done in 0..budget {
            let Some((side, call)) = owner.next_call() else {
                return Pumped {
                    done,
                    is_idle: true,
                };
            };
            let told = self.call(shared, rt, seat, side, call);
            owner.hear(told);
        }
        Pumped {
            done: budget,
            is_idle: false,
        }
    }
}
