//! The text of scripts: lines, their fields, and the values of fields.
#![tactic(auto)]

mod lines;
mod parts;
mod runs;
mod spelling;
mod words;

pub use lines::{cut_fields, first_line, split_once};
pub use parts::{part, plain_part};
pub use runs::are_plain;
pub use spelling::{parts_are_read_back, write_part};
pub use words::{is_same_word, name, number};
