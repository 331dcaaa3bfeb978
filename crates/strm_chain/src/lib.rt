//! A chain: the ends of a stream over a driver, and the way of messages through it.
//!
//! Messages go down from the head through the modules to the driver, and up from the driver to the head. A
//! message that a module queues waits until the queue ahead has room, and is then serviced (Programmer's
//! Guide: STREAMS, "Message Processing" and "Flow Control").
#![tactic(auto)]

mod chain;
mod delivery;
mod enabling;
mod fault;
mod moves;
mod number;
mod spot;

pub use chain::{Chain, head_sends_once};
pub use delivery::deliver;
pub use fault::ChainFault;
pub use moves::{Looks, Moves, Settled};
pub use spot::Spot;
pub use strm_chain_end::Record;
pub use strm_chain_ends::Place;
pub use strm_module::{Driver, MOST_MODULES};
