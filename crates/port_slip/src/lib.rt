//! SLIP (RFC 1055) as a module of streams: a port of a discipline onto kinds of its own.
//!
//! `docs/PORTING.md` walks through this crate.
#![tactic(auto)]

mod framing;
mod kinds;
mod laws;
mod slip;
mod stack;
#[cfg(test)]
mod tests;

pub use framing::{LONGEST_DATAGRAM, first_datagram, frame};
pub use kinds::{MOST_KEPT, SlipKind};
pub use laws::{
    frames_keep_datagrams, modules_hold_nothing_back, modules_keep_datagrams, slip_answers_stay,
    slip_is_calm, slip_settles,
};
pub use slip::ByShape;
pub use stack::send;
