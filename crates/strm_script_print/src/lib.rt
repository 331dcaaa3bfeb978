//! Scripts and transcripts: the parts that a program needs to read a script and to print the transcript of
//! its run, and the parts of a transcript's lines, for users who print them in another form.
#![tactic(auto)]

mod entry;
mod field;
mod line_buffer;
mod link;
mod message;
mod module;
mod polled;
mod printing;
mod reply;
mod request;
mod sharing;
mod stream;

pub use entry::{end_word, put_event};
pub use field::{fields_are_read_back, put_number, put_part, put_word};
pub use module::PrintKind;
pub use printing::print;
pub use reply::{put_answer, put_said};
pub use sharing::print_parallel;
pub use stream::{put_end, put_far_end, put_feed, put_heading};
