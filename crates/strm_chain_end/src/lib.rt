//! Queue pairs, and one end of a stream: its head, its modules with their queues, and its driver's list.
//!
//! The effect of one message on each of them is here. The way of a message from one to the next is the work
//! of a chain (Programmer's Guide: STREAMS, "Queue Structures" and "Flow Control").
#![tactic(auto)]

mod driver;
mod end;
mod offer;
mod pair;
mod record;

pub use driver::DriverSends;
pub use end::StreamEnd;
pub use offer::Offer;
pub use record::Record;
