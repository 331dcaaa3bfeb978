//! Parts that all calls on a stream share: requests, replies and refusals, and the setup of a stream.
//!
//! A call never waits. It is refused with an errno, or it is done and has a reply (streamio(7), getmsg(2),
//! putmsg(2)). The crates of the families of calls have the effect of each call.
#![tactic(auto)]

mod answer;
mod call;
mod copying;
mod cut;
mod event;
mod name;
mod name_list;
mod parts;
mod refusal;
mod reply_and_copy;
mod reply_form;
mod request;
mod same;
mod same_request;
mod service;
mod setup;

pub use answer::{Acknowledged, Answer, More, Peeked, Polled, Received, Reply, copy_part};
pub use call::Call;
pub use copying::copy_request;
pub use cut::Cut;
pub use event::Event;
pub use name::Name;
pub use name_list::NameList;
pub use parts::{BoxedParts, Parts};
pub use refusal::Refusal;
pub use reply_and_copy::ReplyAndCopy;
pub use reply_form::ReplyForm;
pub use request::{GetFlag, MAX_CONTROL, MAX_DATA, Priority, PutFlag, Request, Wanted};
pub use same::{is_same_message, is_same_part};
pub use same_request::{SameKind, is_same_request};
pub use service::{ServiceCall, Serviced};
pub use setup::{MOST_RING, Setup};
