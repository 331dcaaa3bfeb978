//! The ring of a line: its feeder, its inlet, and the claims of a run about both.
//!
//! A feeder waits for nobody: a message goes into the ring, or comes back where the ring is full. It comes
//! out at the inlet of the stream, in order.
#![tactic(auto)]

mod fault;
mod feeder;
mod inlet;
mod ring;
mod stream_run_name;

pub use fault::RingFault;
pub use feeder::{FeedEnd, Feeder};
pub use inlet::Inlet;
pub use ring::Ring;
pub use stream_run_name::{AnyCalls, StreamRunName};
