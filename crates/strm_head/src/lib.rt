//! The stream head: the calls on a stream, and the services that each of them runs.
//!
//! A call never waits. It is refused with an errno, or it is done. Then messages move on until none must move
//! any longer (Programmer's Guide: STREAMS, "Flow Control").
#![tactic(auto)]

mod arriving;
mod asking;
mod call;
mod effects;
mod fault;
mod outcome;
mod step_result;
mod stream;

pub use call::{poll_tells, refusals_are_in_order};
pub use fault::NewFault;
pub use outcome::{Arrived, Outcome};
pub use step_result::StepResult;
pub use stream::Stream;
pub use strm_chain::{Driver, MOST_MODULES, Moves, Place};
pub use strm_head_calls::{
    Acknowledged, Answer, Event, GetFlag, MAX_CONTROL, MAX_DATA, More, Name, NameList, Peeked,
    Polled, Priority, PutFlag, Received, Refusal, Reply, ReplyAndCopy, ReplyForm, Request,
    ServiceCall, Serviced, Wanted,
};
