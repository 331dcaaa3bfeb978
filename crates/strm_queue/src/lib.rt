//! Queues of messages: bands, water marks and flushes.
//!
//! A queue keeps messages in order of rank. Its water marks say when it is full, so that nothing more is to
//! come, and when it has drained enough for the messages that wait behind it (Programmer's Guide: STREAMS,
//! "Message Queues and Service Procedures" and "Flow Control").
#![tactic(auto)]

mod lane;
mod lanes;
mod queue;
mod run;

pub use queue::BandQueue;
pub use run::RunQueue;
pub use strm_msg::Marks;
