//! The turn of the service of a side.

/// The action that the service procedure of a side would take now (srv(9E)).
///
/// It is called once the queue ahead has room for the message that it would move. A side without marks has no
/// queue, and so no service.
#[derive(Clone, Copy, Debug, PartialEq, Eq)]
pub enum Turn {
    /// Take the first message of its queue, if one waits (getq(9F)).
    Serves,
    /// Nothing: the messages in its queue wait on, as behind a window that is shut (noenable(9F)).
    Shut,
    /// Send something of its own, ahead of its queue.
    Sends {
        /// The band in which the queue ahead must have room (bcanput(9F)), or none for a message that goes
        /// past full queues.
        band: Option<u8>,
    },
}
