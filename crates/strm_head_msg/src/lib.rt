//! Calls of a stream head that send messages, take them and look at them (putmsg(2), getmsg(2), write(2)).
//!
//! Each call is two functions over a chain: its own refusals, in their order, if it has any, and its effect
//! before any queue moves. The refusals that all calls share, and the services that follow a call, are the
//! stream's.
#![tactic(auto)]

mod send;
mod take;

pub use send::{putmsg, putmsg_refusal, putpmsg, putpmsg_refusal, write, write_refusal};
pub use take::{getmsg, getmsg_refusal, getpmsg, getpmsg_refusal, matches_getmsg, peek};
