//! A discipline that answers its line: bytes that come up are echoed down, within a window. A terminal's line
//! discipline does the same on a larger scale.
//!
//! `docs/PORTING.md` says which parts of it are general.
#![tactic(auto)]

mod echoing;

pub use echoing::{ByShape, Echoing, MOST_OWED, echoing_settles};
