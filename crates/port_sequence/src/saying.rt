//! The texts of calls and histories.
use crate::kinds::Sequence;
use strm_head::{Acknowledged, Answer, Event, Reply, Request};
use strm_module::BoxedShape;
use strm_shared_log::{Entry, Who};

/// The word of a request.
fn word_of(request: &Request<BoxedShape<Sequence>>) -> &'static str {
    match request {
        Request::Push { .. } => "push",
        Request::Write { .. } => "write",
        Request::Read { .. } => "read",
        Request::Str { .. } => "str",
        _ => "another call",
    }
}

/// Prints the answer of a call.
pub fn say_answer<R: Print>(rt: &R, word: &str, answer: &Answer) -> Option<()> {
    match answer {
        Answer::Done(Reply::Read { dat }) => println!(rt; "{word}: {dat:?}").ok(),
        Answer::Done(
            Reply::Str {
                answer: Acknowledged::Ack { rval, .. },
            },
        ) => println!(rt; "{word}: {rval} lost").ok(),
        Answer::Done(_) => println!(rt; "{word}: done").ok(),
        Answer::Refused(refusal) => println!(rt; "{word}: {refusal}").ok(),
        Answer::Broke => println!(rt; "{word}: the stream broke").ok(),
    }
}

/// Prints a step of a history: its maker, the event, and the answer.
pub fn say_entry<R: Print>(rt: &R, entry: &Entry<Sequence>) -> Option<()> {
    match entry.who() {
        Who::Caller(number) => print!(rt; "caller {number} ").ok()?,
        Who::Line => print!(rt; "the line ").ok()?,
    }
    match entry.event() {
        Event::Asked(request) => say_answer(rt, word_of(request), entry.answer()),
        Event::Arrived(_) => say_answer(rt, "message", entry.answer()),
    }
}
