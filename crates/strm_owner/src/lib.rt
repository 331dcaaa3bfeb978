//! Owners: programs that serve a module of a stream, as its service procedures would (srv(9E)).
//!
//! An owner says which service call it wants next, and hears the answer. Its module, an [`ServedModule`],
//! makes the calls: on a stream, on one that keeps its history, or from a seat of a shared one. So an owner
//! makes no call but service calls of its module, whatever it does.
#![tactic(auto)]

mod hearing;
mod module;
mod owner;
mod pump;
mod pump_log;
mod pump_shared;

pub use module::ServedModule;
pub use owner::{Owner, Told};
pub use pump::Pumped;
