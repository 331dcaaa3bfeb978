//! The calls from below the head, for programs in C: a message goes whole in each of them. They take messages
//! out of queues and put them back or send them on (srv(9E)), work outside of a wire, and ask for the answer
//! to an ioctl later.
#![tactic(auto)]

mod asked;
mod later;
mod sending;
mod taking;
mod written;

pub use asked::service_of;
pub use later::{strget, strput};
pub use sending::{Sending, send};
pub use taking::{getq, next, next_foretells, take};
