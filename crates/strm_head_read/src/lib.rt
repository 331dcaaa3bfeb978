//! The call of a stream head that reads bytes (read(2); streamio(7), I_SRDOPT).
//!
//! It is two functions over a chain: its own refusals, in their order, and its effect before any queue moves.
//! The refusals that all calls share, and the services that follow a call, are the stream's.
#![tactic(auto)]

mod reading;

pub use reading::{read, read_refusal};
