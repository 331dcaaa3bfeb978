//! A data link between two ends, over a link that may lose, double, delay and reorder what is sent.
//!
//! A [`Peer`] is one end. It takes messages that are handed down, says which [`Frame`] is to be sent next,
//! and makes of the frames that it hears the messages that go up. It has a window of one to seven messages,
//! and numbers that do not go round. Each frame acknowledges, also one that carries a message. A timer,
//! which goes by the ticks that its user counts, has it send again what was not acknowledged.
//!
//! The law of the protocol is [`messages_are_carried`]. An end takes no memory, knows no stream and no clock.
#![tactic(auto)]

mod frame;
mod laws;
mod peer;
mod refusal;
mod waiting;

pub use frame::{Frame, Numbered};
pub use laws::{all_can_still_arrive, frames_come_back, messages_are_carried};
pub use peer::{MOST_MESSAGES, MOST_WINDOW, Peer};
pub use refusal::{Refusal, Refused};
