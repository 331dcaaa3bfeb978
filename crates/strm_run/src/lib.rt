//! Runs: scripts that threads play on shared streams, and their transcripts.
//!
//! `run` is given the setups of the streams, a script for each caller, a feed for each line that has one, the
//! links between wires, and a number of workers. It gives a transcript, in which each stream's history is one that the sequential
//! stream could have given, and has each caller's calls on it, in order.
#![tactic(auto)]

mod cast;
mod ending;
mod feeds;
mod finished;
mod opening;
mod running;
mod steps;
mod table;
mod threads;

pub use running::{run, run_in_order};
pub use strm_run_callers::Gate;
pub use strm_run_input::{
    Await, Feed, MOST_WORKERS, Order, RunFault, RunLink, Script, ScriptCall, are_from_line,
    can_open_all, links_resolve,
};
pub use strm_shared_log::{StreamLog, Transcript};
