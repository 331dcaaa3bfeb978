//! The input of a run: a script for each caller, a feed for each line that has one, and the links between its
//! wires. Whether it can be played is judged here, before anything is made.
#![tactic(auto)]

mod fault;
mod order;
mod run_link;
mod script;
mod validation;

pub use fault::RunFault;
pub use order::Order;
pub use run_link::RunLink;
pub use script::{Await, Feed, Script, ScriptCall};
pub use validation::{
    MOST_WORKERS, are_from_line, can_open_all, is_worker_count, links_resolve, names_resolve,
};
