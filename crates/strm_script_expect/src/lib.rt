//! The replies that a script expects of its calls, and those that were not met.
#![tactic(auto)]

mod counting;
mod judging;
mod owned;
mod printing;

pub use judging::{Missed, unmet};
pub use printing::put_missed;
