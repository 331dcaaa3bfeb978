//! Why an end takes no message.

use strm_msg::Bytes;
use thiserror::Error;

/// The reason for which an end of a link takes no message.
#[derive(Clone, Copy, Debug, PartialEq, Eq, Error)]
pub enum Refusal {
    /// All numbers are used, as they do not go round. Looked at first, and it stays.
    #[error("all numbers of the link are used")]
    NumbersAreUsed,
    /// As many messages as the window has room for wait for an acknowledgement.
    #[error("the window of the link is full")]
    WindowIsFull,
}

/// A message that was not taken.
#[derive(Debug, Drop, PartialEq, Eq)]
pub struct Refused {
    /// The reason.
    pub refusal: Refusal,
    /// The message.
    pub bytes: Bytes,
}
