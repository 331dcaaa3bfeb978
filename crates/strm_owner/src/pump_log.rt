//! An owner that serves its module on a stream that keeps its history.
ghost use Rattle.std.specs.Prelude.{◌≡◌};
ghost use Rattle.strm_owner.specs.Rounds.{Pumps};
ghost use Rattle.strm_owner.specs.Serves.{Logs, OnlyServes};

use crate::hearing::told_of;
use crate::module::ServedModule;
use crate::owner::{Owner, Told};
use crate::pump::Pumped;
use strm_head_calls::{Call, Refusal, ServiceCall};
use strm_module::ModuleOf;
use strm_msg::Side;
use strm_shared_entry::Called;
use strm_shared_log::Log;

impl ServedModule {
    /// Makes a call of a caller, unless it would be refused, as `serve` makes one.
    fn log<M: ModuleOf>(&self, log: &mut Log<M>, caller: u32, side: Side, call: ServiceCall) -> Told
        ensures told { Logs M.Kind.means self.now caller side call log.old result log.new }
        ensures only { OnlyServes self.now caller log.old.history log.new.history }
    {
        if let Some(refusal) = self.refusal(log.stream(), side, &call) {
            return Told::Refused { refusal, call };
        }
        let Ok(same) = call.copy(self.alloc()) else {
            return Told::Refused {
                refusal: Refusal::NoMemory,
                call,
            };
        };
        let call = Call {
            end: self.end(),
            request: self.request(side, call),
        };
        match log.call(caller, 0, call) {
            Called::Done { answer, .. } => told_of(same, answer),
            Called::NoRoom(call) => {
                drop(call);
                Told::Refused {
                    refusal: Refusal::NoMemory,
                    call: same,
                }
            }
        }
    }

    /// Makes the calls that an owner wants on a stream that keeps its history, as `pump` makes them, as calls
    /// of this caller. Each call that is made is an entry; one that would be refused leaves none. No receipt
    /// is kept, so the calls have no numbers.
    pub fn pump_log<M: ModuleOf, O: Owner>(
        &self,
        log: &mut Log<M>,
        caller: u32,
        owner: &mut O,
        budget: u32,
    ) -> Pumped
        ensures rounds { Pumps O.Asks O.Hears (Logs M.Kind.means self.now caller) budget owner.old log.old result owner.new log.new }
        ensures only { OnlyServes self.now caller log.old.history log.new.history }
    {
        for done in 0..budget {
            let Some((side, call)) = owner.next_call() else {
                return Pumped {
                    done,
                    is_idle: true,
                };
            };
            let told = self.log(log, caller, side, call);
            owner.hear(told);
        }
        Pumped {
            done: budget,
            is_idle: false,
        }
    }
}
