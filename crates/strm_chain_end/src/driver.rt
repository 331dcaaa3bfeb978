//! The messages that the driver at the bottom of a stream sends.
use strm_msg::{BoxedMessage, Prot, ReadMode};

/// The messages that a driver sends at once, when a message comes to it from above.
#[derive(Debug, Drop, PartialEq, Eq)]
pub enum DriverSends {
    /// Nothing.
    Nothing,
    /// A message back up the end on which the other came (qreply(9F)).
    Reply(BoxedMessage),
    /// A message on, up the read side that messages that came down this end go up.
    Across(BoxedMessage),
    /// Options up the end on which the ioctl came that asked for them, and then its ack, without value and
    /// data.
    Options {
        /// The way in which read treats the bounds of messages, where it is given.
        mode: Option<ReadMode>,
        /// The way in which read treats control parts, where it is given.
        prot: Option<Prot>,
        /// The high and the low water mark of the head, where they are given, in bytes.
        marks: Option<(u32, u32)>,
        /// The number of the ioctl that asked for them.
        id: u64,
    },
}
