//! Values that are set once, and then read by all who hold them.
//!
//! A [`Cell`] is set once, with a box, and gives two of [`Held`]. Each is a holder of the one value, and may
//! go to a thread of its own. `once_cell` has the cells. A holder reads its cell behind a `&`, and its
//! contract says which value it reads.
#![tactic(auto)]

mod again;
mod cells;
mod held;
mod known;

pub use cells::{Cell, Cells};
pub use held::Held;
