//! Settling ends: whichever place moves that may, and then whichever, the moves come to an end (Programmer's
//! Guide: STREAMS, "Service Procedures").
#![tactic(auto)]

mod laws;

pub use laws::{builtin_settles, settling_ends};
