//! The playing of scripts: a script is read, its streams are opened, worker threads make the calls of its
//! processes, and the log of each stream is returned.
#![tactic(auto)]

mod playing;

pub use playing::{Outcome, play, play_plan, play_plan_in_order};
pub use strm_script_parse::{PlayFault, PlayModule, RunInput, into_run_input};
