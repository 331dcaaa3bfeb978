//! What a link does with a message.

/// What a link does with a message.
#[derive(Clone, Copy, Debug, Default, PartialEq, Eq)]
pub enum Act {
    /// The message is passed on, and behind it the one that was held.
    #[default]
    Keep,
    /// The message is lost. One that is held stays so.
    Lose,
    /// The message is passed on twice, and behind it the one that was held.
    Double,
    /// The message is held, and the one that was held is passed on.
    Hold,
}
