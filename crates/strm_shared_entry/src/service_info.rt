//! The looks of service after a call, and the serials of the modules that the call took out.
ghost use Rattle.std.specs.Prelude.{◌≡◌, false, [], IfOk, is_some};
ghost use Rattle.strm_head_calls.specs.Calls.{changes_modules};
ghost use Rattle.strm_shared_entry.specs.Entry.{out_in};
ghost use Rattle.strm_shared_entry.specs.Inside.{looks_before, out_before};

use arrayvec::ArrayVec;
use std::alloc::Global;
use strm_chain::Looks;
use strm_head_calls::{Answer, Request};
use strm_module::{BoxedModule, MOST_MODULES, ModuleOf};
use strm_msg::NoMem;

/// Serials of as many modules as an end may have.
type AllSerials = ArrayVec<u64, MOST_MODULES>;

/// The looks of service after a call that may take modules out, and the serials of those that it took out,
/// topmost first.
#[derive(Drop)]
pub(crate) struct RemovedModules {
    pub(crate) looks: Looks,
    pub(crate) out: AllSerials,
}

/// The number of places that service looked at, and the serials of the modules that the call took out,
/// topmost first, before they are in an entry.
#[derive(Drop)]
pub(crate) enum ServiceInfo {
    /// The looks of a call that took nothing out.
    Looks(Looks),
    /// The looks of a call that may take modules out, with their serials.
    Out(Box<RemovedModules>),
}

impl ServiceInfo {
    /// The looks of a call, with the serials of the modules that it has taken out (`taken_out`), in room that
    /// was found for them before, unless there are none. Takes no memory.
    pub(crate) fn new<M: ModuleOf>(
        looks: Looks,
        answer: &Answer,
        back: &ArrayVec<Option<BoxedModule<M>>, MOST_MODULES>,
        room: Option<Box<RemovedModules>>,
    ) -> ServiceInfo
        requires { is_some room ≡ false → out_in answer.now back.now.items ≡ [] }
        ensures looks { looks_before result ≡ looks }
        ensures out { out_before result ≡ record { items = out_in answer.now back.now.items } }
    {
        match room {
            Some(mut boxed) => {
                *boxed = RemovedModules {
                    looks,
                    out: taken_out(answer, back),
                };
                ServiceInfo::Out(boxed)
            }
            None => ServiceInfo::Looks(looks),
        }
    }
}

/// Whether a call may put a module in or take some out.
fn changes_modules<P>(request: &Request<P>) -> bool
    ensures { result ≡ changes_modules request.now }
{
    matches!(
        request,
        Request::Push { .. } | Request::Pop | Request::Close
    )
}

/// Room for the looks and serials of a call that may take modules out. Fails only when memory runs out.
pub(crate) fn room_for_taken_out<P>(
    alloc: Global,
    request: &Request<P>,
) -> Result<Option<Box<RemovedModules>>, NoMem>
    ensures { IfOk result (λ room. is_some room ≡ changes_modules request.now) }
{
    if !changes_modules(request) {
        return Ok(None);
    }
    let nothing = RemovedModules {
        looks: Looks::none(),
        out: ArrayVec::new(),
    };
    match Box::new(alloc, nothing) {
        Ok(room) => Ok(Some(room)),
        Err(_) => Err(NoMem),
    }
}

/// The serials of the modules that a call has taken out, topmost first; a refused one takes none.
fn taken_out<M: ModuleOf>(
    answer: &Answer,
    back: &ArrayVec<Option<BoxedModule<M>>, MOST_MODULES>,
) -> AllSerials
    ensures { result.items ≡ out_in answer.now back.now.items }
{
    let mut out = ArrayVec::new();
    if matches!(answer, Answer::Refused(_)) {
        return out;
    }
    for module in back.as_slice() {
        if let Some(module) = module {
            out.push(module.shape().serial);
        }
    }
    out
}
