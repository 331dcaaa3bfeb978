//! A call line: a verb, NAME:END, the fields of the call, and the replies that are expected of it.
ghost use Rattle.std.specs.Option.{option_map};
ghost use Rattle.std.specs.Prelude.{◌≡◌, ◌≤◌, ◌<◌, ◌^◌, true, length, IsErrOf};
ghost use Rattle.strm_script_parse.specs.Last.{IsKnown};
ghost use Rattle.strm_script_parse.specs.Plan.{call_view, streams_of};
ghost use Rattle.strm_script_parse.specs.Reading.{call_at, modules_after, placed_call};
ghost use Rattle.strm_script_parse.specs.declared.draft.TheConstants.{MOST_STREAMS};
ghost use Rattle.strm_script_text.specs.Text.{texts_of};
ghost use Rattle.strm_script_words.specs.Fault.{Gives};
ghost use Rattle.strm_script_words.specs.Table.{takes_memory};

use crate::declared::Found;
use crate::expected::are_choices;
use crate::plan::Name;
use crate::target::target_of;
use indexmap::IndexMap;
use std::alloc::Global;
use strm_head_calls::{Call, Setup};
use strm_module::BoxedModule;
use strm_run_input::ScriptCall;
use strm_script_words::{Cause, PlayModule, ReadError, ReadKind, Verb, request_at};

/// The number of modules that are declared once this call is read.
pub(crate) fn modules_after(verb: Verb, modules: u64) -> u64
    requires { modules < 2 ^ 63 }
    ensures { result ≡ modules_after verb modules }
{
    match verb {
        Verb::Push => modules + 1,
        _ => modules,
    }
}

/// A call that has its number of fields. Takes no memory if it has no part and is no push.
fn placed_call<M: PlayModule>(
    alloc: Global,
    streams: &IndexMap<Name, Setup>,
    last: &mut Option<Found>,
    serial: u64,
    verb: Verb,
    target: &[u8],
    texts: &[&[u8]],
) -> Result<ScriptCall<BoxedModule<M>>, ReadError>
where
    M::Kind: ReadKind,
    requires few { length streams.now.entries ≤ MOST_STREAMS }
    requires known { IsKnown (streams_of streams.now) last.old }
    ensures known { IsKnown (streams_of streams.now) last.new }
    ensures call { Gives call_view result
        (placed_call M.Kind.words (streams_of streams.now) serial verb target.now (texts_of texts.now)) }
    ensures memory { IsErrOf result ReadError.Memory → takes_memory verb ≡ true }
{
    let Some((stream, end)) = target_of(streams, last, target) else {
        return Err(ReadError::Fault(Cause::NoSuch));
    };
    let request = request_at(alloc, serial, verb, texts)?;
    let call = Call { end, request };
    Ok(ScriptCall { stream, call })
}

/// The call of this verb, by its fields: NAME:END and those behind it, and those of the expected replies.
/// Takes memory as `placed_call` does.
#[tactic(auto, unfolding(crate::specs::Reading::call_at))]
#[inline(always)]
pub(crate) fn call_at<M: PlayModule>(
    alloc: Global,
    streams: &IndexMap<Name, Setup>,
    last: &mut Option<Found>,
    serial: u64,
    verb: Verb,
    texts: &[&[u8]],
    replies: Option<&[&[u8]]>,
) -> Result<ScriptCall<BoxedModule<M>>, ReadError>
where
    M::Kind: ReadKind,
    requires few { length streams.now.entries ≤ MOST_STREAMS }
    requires known { IsKnown (streams_of streams.now) last.old }
    ensures known { IsKnown (streams_of streams.now) last.new }
    ensures call { Gives call_view result (call_at M.Kind.words (streams_of streams.now) serial verb
        (texts_of texts.now) (option_map (λ fields. texts_of fields.now) replies.entry)) }
    ensures memory { IsErrOf result ReadError.Memory → takes_memory verb ≡ true }
{
    let [target, texts @ ..] = texts else {
        return Err(ReadError::Fault(Cause::Fields));
    };
    let arity = verb.arity::<M::Kind>(texts)?;
    if !are_choices(replies) || texts.len() != arity {
        return Err(ReadError::Fault(Cause::Fields));
    }
    placed_call(alloc, streams, last, serial, verb, target, texts)
}
