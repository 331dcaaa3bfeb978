//! Objects for the built-in kinds of module, to take as they are. `new` of each judges its arguments, and
//! makes the module that it names.
#![tactic(auto)]

mod objects;

pub use objects::{Band, Count, CrNl, Line, Mute, Pass, Split, Table, Tee};
