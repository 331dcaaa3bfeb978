//! The command line of `strsh`, and the reasons for which the program prints no transcript.
#![tactic(auto)]

mod fault;
mod line;
mod options;

pub use fault::Fault;
pub use options::{MOST_ORDERS, Options, Orders, Output, Playing};
