//! Push and pop: modules are put in below the head and taken out.
ghost use Rattle.std.specs.Prelude.{◌≡◌, [], ◌∷◌, Some, true, false};
ghost use Rattle.strm_chain_end.specs.Change.{has_room};
ghost use Rattle.strm_chain_ends.specs.Image.{end_of};
ghost use Rattle.strm_head_calls.specs.Refusal.{first_that_holds};
ghost use Rattle.strm_head_ioctl.specs.Ask.{is_empty};
ghost use Rattle.strm_head_ioctl.specs.Modules.{push_refusals, pop_refusals, push_effect, pop_effect};

use strm_chain::Chain;
use strm_head_calls::{Name, Refusal, Reply};
use strm_module::{BoxedModule, ModuleOf, Shape};
use strm_msg::End;

/// The first of a push's own refusals that holds: EINVAL where as many modules are there as may be, or the
/// end is closed, which is refused before; EINVAL where messages could go round a circle with a module of
/// this shape (`Chain::goes_round`); and ENXIO for an end that is hung up (streamio(7), I_PUSH).
pub fn push_refusal<M: ModuleOf>(
    chain: &Chain<M>,
    end: End,
    shape: &Shape<M::Kind>,
) -> Option<Refusal>
    ensures { result ≡ first_that_holds (push_refusals M.Kind.means chain.now.image end shape.now) }
{
    if !chain.has_room(end) || chain.goes_round(end, shape) {
        return Some(Refusal::Invalid);
    }
    if chain.state(end).hung {
        return Some(Refusal::HungUp);
    }
    None
}

/// Puts a module in just below the head, with empty queues (streamio(7), I_PUSH). To be called where
/// the end has room for one. Takes no memory.
pub fn push<M: ModuleOf>(chain: &mut Chain<M>, end: End, instance: BoxedModule<M>) -> Reply
    requires { has_room (end_of chain.old.image end) ≡ true }
    ensures reply { result ≡ (push_effect chain.old.image end instance).reply }
    ensures image { chain.new.image ≡ (push_effect chain.old.image end instance).image }
{
    let _ = chain.insert(end, instance);
    Reply::Push
}

/// The first of a pop's own refusals that holds: EINVAL where no module is there, and ENXIO for an end that
/// is hung up (streamio(7), I_POP).
pub fn pop_refusal<M: ModuleOf>(chain: &Chain<M>, end: End) -> Option<Refusal>
    ensures { result ≡ first_that_holds (pop_refusals chain.now.image end) }
{
    if chain.count(end) == 0 {
        return Some(Refusal::Invalid);
    }
    if chain.state(end).hung {
        return Some(Refusal::HungUp);
    }
    None
}

/// Takes the topmost module out, and drops the messages in its queues (streamio(7), I_POP). To be called
/// where a module is there. The module comes with the reply. Takes no memory.
pub fn pop<M: ModuleOf>(chain: &mut Chain<M>, end: End) -> (Reply, BoxedModule<M>)
    requires { is_empty (end_of chain.old.image end).modules ≡ false }
    ensures reply { result.0 ≡ (pop_effect chain.old.image end).reply }
    ensures image { chain.new.image ≡ (pop_effect chain.old.image end).image }
    ensures out { result.1 ∷ [] ≡ (pop_effect chain.old.image end).out }
{
    let instance = chain.remove(end).unwrap();
    let name = Name::new(&instance.shape().name);
    (Reply::Pop { name }, instance)
}
