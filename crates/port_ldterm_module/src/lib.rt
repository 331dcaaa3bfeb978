//! A terminal's line discipline (ldterm(7M), termio(7)) as a kind of module: keys that come up are edited,
//! shown below, and go up in lines.
//!
//! The editor of the lines, the modes and the echo are those of `port_termio`, which the owner of a module in
//! `port_ldterm` has too. Here they run inside of the stream. The module knows no signals and no stop of the
//! output.
#![tactic(auto)]

mod by_shape;
mod kinds;
mod laws;
mod ldterm;
mod words;

pub use by_shape::ByShape;
pub use kinds::Discipline;
pub use laws::{
    discipline_answers_stay, discipline_is_calm, discipline_settles, lines_go_up_and_echo_goes_down,
};
pub use ldterm::{Ldterm, MOST_ECHO, USUAL_MODES};
