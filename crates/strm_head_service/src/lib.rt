//! The calls of service procedures that are the program's: getq, putbq, putnext, bcanputnext and qsize
//! (srv(9E), noenable(9F)).
//!
//! A module that was pushed under noenable is served by the program. These calls name it, take messages out
//! of its queues, and send messages on from it. The output of a wire is such a queue too: it has the driver's
//! name. They are two functions over a chain: the refusals in their order, and the effect before any queue
//! moves.
#![tactic(auto)]

mod looking;
mod sending;
mod served;
mod serving;

pub use looking::first_served;
pub use sending::{putbq_refusal, putnext_refusal};
pub use served::Served;
pub use serving::{ask, finds_nothing, getq_is_take, serve, service_refusal};
