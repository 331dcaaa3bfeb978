//! The names of streams, of processes and of links, each of which is given once.
ghost use Rattle.std.specs.Prelude.{◌≡◌, ◌++◌, ◌∷◌, [], false, map, IfOk, Ok};
ghost use Rattle.strm_script_parse.specs.Plan.{link_view, process_view, streams_of};
ghost use Rattle.strm_script_parse.specs.Reading.{has_link, has_process, link_name, process_name, stream_name};
ghost use Rattle.strm_script_parse.specs.Targets.{has_stream};
ghost use Rattle.strm_script_text.specs.Text.{name_text};
ghost use Rattle.strm_script_words.specs.Fault.{Gives, Tells};

use crate::plan::{LONGEST, LinkDecl, Name, ProcessDecl};
use indexmap::IndexMap;
use strm_head_calls::Setup;
use strm_module::{BoxedModule, ModuleOf};
use strm_script_text::name;
use strm_script_words::{Cause, ReadError};

/// Whether a stream has this name.
fn has_stream(streams: &IndexMap<Name, Setup>, chosen: &Name) -> bool
    ensures { result ≡ has_stream (streams_of streams.now) chosen.now.items }
{
    streams.contains_key(chosen)
}

/// Whether a process has this name.
fn has_process<M: ModuleOf>(processes: &[ProcessDecl<BoxedModule<M>>], chosen: &Name) -> bool
    ensures { result ≡ has_process (map process_view processes.now) chosen.now.items }
{
    processes.iter().any(|process| *chosen == process.name)
}

/// Whether a link has this name.
fn has_link(links: &[LinkDecl], chosen: &Name) -> bool
    ensures { result ≡ has_link (map link_view links.now) chosen.now.items }
{
    links.iter().any(|link| *chosen == link.name)
}

/// The name of a new stream. Refused if the text is no name, or if a stream has it.
pub(crate) fn stream_name(streams: &IndexMap<Name, Setup>, text: &[u8]) -> Result<Name, Cause>
    ensures unused { IfOk result (λ name. has_stream (streams_of streams.now) name.items ≡ false) }
    ensures name { Tells name_text result (stream_name (streams_of streams.now) text.now) }
{
    let Some(chosen) = name::<LONGEST>(text) else {
        return Err(Cause::Name);
    };
    if has_stream(streams, &chosen) {
        return Err(Cause::Name);
    }
    Ok(chosen)
}

/// The name of a new process. Refused if the text is no name, if a process has it, or if it is `line`, which
/// stands for arrivals in a transcript.
pub(crate) fn process_name<M: ModuleOf>(
    processes: &[ProcessDecl<BoxedModule<M>>],
    text: &[u8],
) -> Result<Name, Cause>
    ensures { Tells name_text result (process_name (map process_view processes.now) text.now) }
{
    let Some(chosen) = name::<LONGEST>(text) else {
        return Err(Cause::Name);
    };
    if has_process(processes, &chosen) || chosen.as_slice() == b"line".as_slice() {
        return Err(Cause::Name);
    }
    Ok(chosen)
}

/// The name of a new link. Refused if the text is no name, or if a link has it.
pub(crate) fn link_name(links: &[LinkDecl], text: &[u8]) -> Result<Name, Cause>
    ensures { Tells name_text result (link_name (map link_view links.now) text.now) }
{
    let Some(chosen) = name::<LONGEST>(text) else {
        return Err(Cause::Name);
    };
    if has_link(links, &chosen) {
        return Err(Cause::Name);
    }
    Ok(chosen)
}

/// Adds a stream of a new name as the last one. Fails only when memory runs out.
pub(crate) fn add_stream(
    streams: &mut IndexMap<Name, Setup>,
    chosen: Name,
    setup: Setup,
) -> Result<(), ReadError>
    requires { has_stream (streams_of streams.old) chosen.items ≡ false }
    ensures { Gives (λ _. streams_of streams.new) result (Ok (streams_of streams.old ++ (chosen.items, setup) ∷ [])) }
{
    streams.insert(chosen, setup)?;
    Ok(())
}
