//! Who takes the steps of a script: its processes, and its feeds.
use indexmap::IndexMap;
use std::alloc::Global;
use strm_head_calls::Setup;
use strm_module::{BoxedModule, Plain};
use strm_msg::NoMem;
use strm_run_input::Feed;
use strm_script::{Name, Plan, ProcessDecl};
use strm_script_orders::{Lane, Lanes};

/// The steps of a process: its calls.
fn lane_of_process(alloc: Global, process: ProcessDecl<BoxedModule<Plain>>) -> Result<Lane, NoMem> {
    let ProcessDecl {
        name,
        calls,
        expected: _,
        awaits,
    } = process;
    let name = Vec::from_slice(alloc, name.as_slice())?;
    Ok(Lane::of_process(name, calls.len(), awaits))
}

/// The steps of a feed: its messages.
fn lane_of_feed(alloc: Global, streams: &IndexMap<Name, Setup>, feed: Feed) -> Result<Lane, NoMem> {
    let Feed { stream, messages } = feed;
    let name = match streams.get_index(stream as usize) {
        Some((name, _)) => Vec::from_slice(alloc, name.as_slice())?,
        None => Vec::new(alloc),
    };
    Ok(Lane::of_feed(alloc, name, stream, messages.len()))
}

/// The processes of a script, and then its feeds, in order of their streams.
pub(crate) fn lanes_of(alloc: Global, plan: Plan<BoxedModule<Plain>>) -> Result<Lanes, NoMem> {
    let Plan {
        streams,
        processes,
        mut feeds,
        links: _,
    } = plan;
    feeds.sort_unstable_by_key(|feed| feed.stream);
    let mut lanes = Vec::new(alloc);
    for process in processes {
        lanes.push(lane_of_process(alloc, process)?)?;
    }
    for feed in feeds {
        lanes.push(lane_of_feed(alloc, &streams, feed)?)?;
    }
    Ok(Lanes::of(lanes))
}
