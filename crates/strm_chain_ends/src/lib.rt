//! The ends of a stream over its driver: the queue that is next after each, and whether it is full.
//!
//! The effect of a message on one queue pair, on a head or on the driver is here for both ends. The way of
//! messages from one to the next, and the service of queues, are the work of a chain (Programmer's Guide:
//! STREAMS, "Queue Structures" and "Flow Control").
#![tactic(auto)]

mod ends;
mod laws;
mod place;

pub use ends::Ends;
pub use laws::{builtin_ask_for_no_ticks, builtin_serve_what_waits};
pub use place::{NextQueue, Place};
