//! The history of a stream: every call and every message that came in, each with its answer and its moves.
//!
//! A history is legal: there is a stream before its first entry and one after each, and each entry is a step
//! from one to the next. A [`Log`] is a stream that keeps its history.
#![tactic(auto)]

mod drain;
mod log;
mod part;
mod piece;

pub use drain::Drain;
pub use log::Log;
pub use piece::{Piece, a_piece_leads_on};
pub use strm_head_calls::{Call, MOST_RING, SameKind, Setup};
pub use strm_shared_entry::{
    Called, Entry, EntryCell, EntryRoom, Kept, Landed, Receipt, SharedEntry, StreamLog, Transcript,
    Who, room_for,
};
