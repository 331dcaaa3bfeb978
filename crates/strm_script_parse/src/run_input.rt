//! The input of a run, made of a plan.
ghost use Rattle.std.specs.Prelude.{◌≡◌, ◌++◌, map, IfOk, OnOk};
ghost use Rattle.strm_script_parse.specs.RunInput.{calls_of_processes, call_streams, names_of, run_links};
ghost use Rattle.strm_script_parse.specs.RunInput.{replies_of, replies_view, setups_of, streams_if};

use crate::plan::{Expected, LinkDecl, Name, Names, Plan, ProcessDecl};
use indexmap::IndexMap;
use std::alloc::Global;
use strm_head_calls::Setup;
use strm_msg::NoMem;
use strm_run_input::{Feed, RunLink, Script, ScriptCall};

/// The replies that are expected of the calls of a process.
#[derive(Drop)]
pub struct Replies {
    /// The number of the stream of each call, in order, where replies are expected; else nothing.
    pub streams: Vec<u32>,
    /// The replies, as the plan had them.
    pub expected: Vec<Expected>,
}

/// The input of a run, made of a plan, and the names of the plan.
#[derive(Drop)]
pub struct RunInput<P> {
    /// The names of its streams and processes, and its links, by which a transcript is printed.
    pub names: Names,
    /// The setup of each stream, in order of declaration.
    pub setups: Vec<Setup>,
    /// The calls of each process, in order, as the plan had them, and the feeds that it awaits.
    pub scripts: Vec<Script<P>>,
    /// The feeds, as the plan had them.
    pub feeds: Vec<Feed>,
    /// The links that have a carrier, in order.
    pub links: Vec<RunLink>,
    /// The replies that are expected of the calls of each process, in order.
    pub expected: Vec<Replies>,
}

/// The setup of each stream, in order of declaration.
fn setups(alloc: Global, streams: &IndexMap<Name, Setup>) -> Result<Vec<Setup>, NoMem>
    ensures { IfOk result (λ all. all.items ≡ map (λ entry. entry.1) streams.now.entries) }
{
    let all = streams.values().copied().collect(alloc)?;
    Ok(all)
}

/// Adds the streams of calls. Fails only when memory runs out.
fn add_streams<P: Drop>(streams: &mut Vec<u32>, calls: &[ScriptCall<P>]) -> Result<(), NoMem>
    ensures { OnOk result (streams.new.items ≡ streams.old.items ++ call_streams calls.now) }
{
    for call in calls {
        streams.push(call.stream)?;
    }
    Ok(())
}

/// The stream of each call. Fails only when memory runs out.
fn call_streams<P: Drop>(alloc: Global, calls: &Script<P>) -> Result<Vec<u32>, NoMem>
    ensures { IfOk result (λ all. all.items ≡ call_streams calls.now) }
{
    let mut streams = Vec::with_capacity(alloc, calls.len())?;
    let (full, last) = calls.blocks();
    for block in full {
        add_streams(&mut streams, block.as_slice())?;
    }
    add_streams(&mut streams, last)?;
    Ok(streams)
}

/// The stream of each call of a process, if replies are expected. Fails only when memory runs out.
fn streams_if<P: Drop>(
    alloc: Global,
    expected: &[Expected],
    calls: &Script<P>,
) -> Result<Vec<u32>, NoMem>
    ensures { IfOk result (λ all. all.items ≡ streams_if expected.now calls.now) }
{
    match expected {
        [] => Ok(Vec::new(alloc)),
        [_, ..] => call_streams(alloc, calls),
    }
}

/// The names, the calls and the expected replies of processes, each in order.
#[derive(Drop)]
struct Parts<P> {
    names: Vec<Name>,
    scripts: Vec<Script<P>>,
    expected: Vec<Replies>,
}

/// The parts of processes. Fails only when memory runs out.
fn parts_of<P: Drop>(alloc: Global, processes: Vec<ProcessDecl<P>>) -> Result<Parts<P>, NoMem>
    ensures names { IfOk result (λ parts. parts.names.items ≡ names_of processes.items) }
    ensures calls { IfOk result (λ parts. parts.scripts.items ≡ calls_of_processes processes.items) }
    ensures expected { IfOk result (λ parts. map replies_view parts.expected.items ≡ map replies_of processes.items) }
{
    let mut names = Vec::with_capacity(alloc, processes.len())?;
    let mut scripts = Vec::with_capacity(alloc, processes.len())?;
    let mut all = Vec::with_capacity(alloc, processes.len())?;
    for process in processes {
        let ProcessDecl {
            name,
            mut calls,
            expected,
            awaits,
        } = process;
        let streams = streams_if(alloc, expected.as_slice(), &calls)?;
        calls.set_awaits(awaits);
        names.push(name)?;
        scripts.push(calls)?;
        all.push(Replies { streams, expected })?;
    }
    Ok(Parts {
        names,
        scripts,
        expected: all,
    })
}

/// The links that have a carrier, in order. Fails only when memory runs out.
fn carried_links(alloc: Global, links: &[LinkDecl]) -> Result<Vec<RunLink>, NoMem>
    ensures { IfOk result (λ all. all.items ≡ run_links links.now) }
{
    let mut all = Vec::new(alloc);
    for link in links {
        if let Some(by) = link.by {
            all.push(RunLink {
                by,
                from: link.from,
                to: link.to,
                rule: link.rule.copy(),
            })?;
        }
    }
    Ok(all)
}

/// Makes the input of a run of a plan: the setup of each stream, the calls of each process, each feed, and
/// each link that has a carrier. The names of the streams and processes are returned with it, the links, and
/// the replies that are expected.
///
/// Fails only when memory runs out.
pub fn into_run_input<P: Drop>(alloc: Global, plan: Plan<P>) -> Result<RunInput<P>, NoMem>
    ensures streams { IfOk result (λ handed. handed.names.streams ≡ plan.streams) }
    ensures names { IfOk result (λ handed. handed.names.processes.items ≡ names_of plan.processes.items) }
    ensures setups { IfOk result (λ handed. handed.setups.items ≡ setups_of plan) }
    ensures scripts { IfOk result (λ handed. handed.scripts.items ≡ calls_of_processes plan.processes.items) }
    ensures feeds { IfOk result (λ handed. handed.feeds.items ≡ plan.feeds.items) }
    ensures links { IfOk result (λ handed. handed.links.items ≡ run_links plan.links.items) }
    ensures named { IfOk result (λ handed. handed.names.links.items ≡ plan.links.items) }
    ensures expected { IfOk result
        (λ handed. map replies_view handed.expected.items ≡ map replies_of plan.processes.items) }
{
    let Plan {
        streams,
        processes,
        feeds,
        links,
    } = plan;
    let setups = setups(alloc, &streams)?;
    let carried = carried_links(alloc, &links)?;
    let Parts {
        names,
        scripts,
        expected,
    } = parts_of(alloc, processes)?;
    Ok(RunInput {
        names: Names {
            streams,
            processes: names,
            links,
        },
        setups,
        scripts,
        feeds,
        links: carried,
        expected,
    })
}
