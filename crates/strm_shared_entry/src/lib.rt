//! The entries of a history: each call and each message that came in, with its answer and its moves, the
//! places of entries, and the receipts that callers have of them.
#![tactic(auto)]

mod call;
mod entry;
mod header;
mod kept;
mod receipt;
mod room;
mod same;
mod service_info;
mod shared;
mod transcript;

pub use call::{Called, Landed};
pub use entry::{Entry, Who};
pub use kept::Kept;
pub use receipt::Receipt;
pub use room::{EntryCell, EntryRoom, room_for, room_for_arrival, taken};
pub use shared::SharedEntry;
pub use transcript::{StreamLog, Transcript};
