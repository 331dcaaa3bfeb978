//! A script that is read into a plan: the setups of streams, the calls of each process on them, the feeds of
//! lines and wires, and the links between wires.
#![tactic(auto)]

mod call_line;
mod carry_line;
mod declared;
mod draft;
mod expected;
mod fault;
mod link_line;
mod loading;
mod making;
mod names;
mod parsing;
mod plan;
mod push_decl;
mod run_input;
mod section;
mod setup;
mod target;

pub use fault::{PlayFault, ScriptFault};
pub use loading::{LoadFault, MOST_READ, load};
pub use making::with_modules;
pub use parsing::{LONGEST_SCRIPT, parse, parse_made, parse_parallel};
pub use plan::{Expected, LinkDecl, Name, Names, Plan, ProcessDecl};
pub use push_decl::{CallDecl, Object, PushDecl};
pub use run_input::{Replies, RunInput, into_run_input};
pub use strm_script_words::{Cause, PlayModule, ReadKind};
