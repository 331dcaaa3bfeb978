//! The orders in which one thread plays a script, and what the runs in many of them gave.
#![tactic(auto)]

mod counting;
mod drawn;
mod fault;
mod free;
mod lanes;
mod lines;
mod listed;
mod pieces;
mod printing;
mod spelt;
mod tally;

pub use counting::count;
pub use drawn::DrawnOrder;
pub use fault::{OrderCause, OrderFault};
pub use lanes::{Lane, Lanes};
pub use listed::{Choice, ListedOrder};
pub use spelt::spelt_order;
pub use tally::{MOST_KEPT, Tally};
