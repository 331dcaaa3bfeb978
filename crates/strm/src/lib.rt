//! STREAMS in user space: one crate for a program to list, with all that it needs as modules.
//!
//! Messages are in `msg`, modules in `module`, and objects for the built-in kinds in `objects`. A stream is
//! in `head`, one that keeps its history in `history`, and one that callers share in `shared`. Owners that
//! serve a module are in `owner`, and links between two wires in `link`. Runs are in `run`, scripts in `play`
//! and `script`, charts in `chart`, and a chain below the heads in `chain`. The definitions that a contract
//! cites are passed on by this crate's own `specs/Lib.antt`.
#![tactic(auto)]

pub use strm_chain as chain;
pub use strm_head as head;
pub use strm_link as link;
pub use strm_module as module;
pub use strm_module_builtin as objects;
pub use strm_msg as msg;
pub use strm_owner as owner;
pub use strm_run as run;
pub use strm_script as script;
pub use strm_script_chart as chart;
pub use strm_script_play as play;
pub use strm_shared as shared;
pub use strm_shared_log as history;
