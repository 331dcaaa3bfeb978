//! What a terminal makes of keys and of text (termio(7)): an editor of lines, its modes, and its echo.
//!
//! A [`LineEditor`] takes one key at a time. It says which line the key sends up, and what the terminal
//! shows. It knows no tab stops, no wide characters and no width of the row. What it does with the messages
//! of a stream is for others to say: the owner of a module does it in `port_ldterm`, and a kind of module in
//! `port_ldterm_module`.
#![tactic(auto)]

mod echo;
mod editor;
mod laws;
mod modes;
mod typing;

pub use echo::Echo;
pub use editor::{Keyed, LONGEST_LINE, LineEditor, MAX_CANON};
pub use laws::{
    keys_come_in_pieces, keys_edit_lines, keys_make_lines, lines_are_shown, messages_are_typed,
};
pub use modes::{GET_MODES, Modes, SET_MODES};
pub use typing::{Stretch, shown_text};
