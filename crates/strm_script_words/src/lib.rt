//! The words and fields of a script's lines: calls, pushed modules, and messages of a feed.
#![tactic(auto)]

mod arrival;
mod fault;
mod field;
mod keyword;
mod kinds;
mod push;
mod request;
mod service;
mod verb;
mod words;

pub use arrival::{MessageWord, message_at};
pub use fault::{Cause, ReadError};
pub use field::{
    MOST_ASKED, MOST_BAND, MOST_U32, marks_at, number_at, part_at, u8_at, u16_at, u32_at,
};
pub use keyword::{Keyword, from_keyword};
pub use kinds::{PlayModule, ReadKind};
pub use push::KindWord;
pub use request::request_at;
pub use service::{InnerWord, MOST_ID, MOST_PART};
pub use verb::Verb;
