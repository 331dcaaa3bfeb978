//! Work in threads: in threads of its own, while the caller does other work, or shared out among a few.
#![tactic(auto)]

mod chunks;
mod sharing;
mod threads;

pub use sharing::parallel_map;
pub use threads::run_alongside;
