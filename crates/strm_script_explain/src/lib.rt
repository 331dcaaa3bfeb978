//! The fault of a script, shown where it is: its line with a mark under the field, and what was wanted there.
#![tactic(auto)]

mod choosing;
mod explaining;
mod field;
mod layout;
mod line;
mod mark;
mod near;
mod printing;
mod wording;
mod words;

pub use explaining::{Explanation, Shown, explain};
pub use mark::Marked;
pub use printing::put_explanation;
