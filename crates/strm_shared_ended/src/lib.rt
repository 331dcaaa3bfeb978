//! The end of a shared stream: its history, in which the calls of each caller are found by their numbers, and
//! the log that a transcript has of it.
#![tactic(auto)]

mod ended;
mod holding;
mod left;

pub use ended::Ended;
pub use holding::{Receipts, holds_all};
pub use left::log_of;
