//! A terminal's line discipline (termio(7), ldterm(7M)), as the owner of a module that the program serves.
//!
//! A [`LineEditor`] of `port_termio` takes one key at a time. A [`Terminal`] does this with the messages of a
//! stream, and knows no signals and no stop of the output.
#![tactic(auto)]

mod taking;
mod terminal;

pub use port_termio::{
    Echo, GET_MODES, Keyed, LONGEST_LINE, LineEditor, MAX_CANON, Modes, SET_MODES,
    keys_come_in_pieces, keys_edit_lines, keys_make_lines, lines_are_shown, messages_are_typed,
};
pub use terminal::Terminal;
