//! Tables that are worked out by hand from the rules of the format. The transcripts of scripts that are
//! played are in `tests/rows`.
use std::alloc::Global;
use std::process::Abort;
use strm_module::{BoxedModule, Plain};
use strm_script_parse::{Names, RunInput, into_run_input, parse_made};

mod awaiting;
mod charting;
mod declaring;
mod expecting;
mod loading;
mod orders;
mod printing;

/// The input of a run of this script.
fn handed(rt: &impl Abort, alloc: Global, script: &[u8]) -> RunInput<BoxedModule<Plain>> {
    let plan = parse_made::<Plain>(alloc, script)
        .ok()
        .expect(rt, "a script");
    into_run_input(alloc, plan).ok().expect(rt, "no memory")
}

/// The names of a script's streams and processes.
fn names_of(rt: &impl Abort, alloc: Global, script: &[u8]) -> Names {
    let RunInput {
        names,
        setups: _,
        scripts: _,
        feeds: _,
        links: _,
        expected: _,
    } = handed(rt, alloc, script);
    names
}
