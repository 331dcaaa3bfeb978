//! Numbers and bytes that pass to and from C: numbers for errnos, kinds of message, ends, sides and modes,
//! bytes in a buffer, and a message by its numbers and parts.
#![tactic(auto)]

mod bytes;
mod message;
mod numbers;
mod whole;

pub use bytes::{fill, fill_part, length_of};
pub use message::message_of;
pub use numbers::{
    band_of, end_of, errno_of, int_of, mode_of, number_of, prot_of, read_number, side_of, sides_of,
};
pub use whole::{
    Whole, data_length, emptied_message, fill_data, whole_message, whole_of, whole_returns,
};
