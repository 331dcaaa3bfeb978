//! A stream that several callers share: a lock, and below it the history of every call and arrival.
//!
//! Each call takes the lock, lets in messages of the line, and makes one step of the stream. The history is
//! legal: the stream alone, called by one thread in the order of the history, could have given it.
#![tactic(auto)]

mod bell;
mod call_counts;
mod ending;
mod fault;
mod news;
mod seat;
mod shared;
mod state;

pub use bell::Bell;
pub use fault::EndFault;
pub use seat::Seat;
pub use shared::Shared;
pub use strm_shared_ended::Ended;
pub use strm_shared_log::{
    Call, Called, Drain, Entry, Kept, Landed, Log, MOST_RING, Piece, Receipt, SameKind, Setup,
    StreamLog, Transcript, Who,
};
pub use strm_shared_ring::{AnyCalls, FeedEnd, Feeder, Inlet, Ring, RingFault, StreamRunName};
