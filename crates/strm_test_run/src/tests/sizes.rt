//! Sizes in bytes: values that pass from one function to the next are small.
use super::check;
use std::mem::size_of;
use strm_head::{Answer, Event, Name, Outcome, Reply, Request};
use strm_module::{BoxedModule, BoxedShape, Kind, Outs, Plain};
use strm_msg::{BoxedMessage, Message};
use strm_run::ScriptCall;
use strm_shared_log::{Called, Entry, Kept, Receipt};

#[test]
fn what_a_call_moves_is_small(rt: HostRuntime) {
    for (what, size, wanted) in [
        ("a name", size_of::<Name>(), 9),
        ("a message", size_of::<Message>(), 80),
        ("a message in its box", size_of::<BoxedMessage>(), 8),
        ("what a module sends", size_of::<Outs>(), 48),
        ("a reply", size_of::<Reply>(), 80),
        ("an answer", size_of::<Answer>(), 88),
        ("a request", size_of::<Request<BoxedModule<Plain>>>(), 32),
        ("an event", size_of::<Event<BoxedShape<Kind>>>(), 40),
        ("an entry", size_of::<Entry<Kind>>(), 160),
        ("an entry in its place", size_of::<Kept<Kind>>(), 16),
        ("a receipt", size_of::<Receipt<Kind>>(), 24),
        ("an outcome", size_of::<Outcome<Plain>>(), 248),
        (
            "what becomes of a call",
            size_of::<Called<BoxedModule<Plain>, Kind>>(),
            264,
        ),
        (
            "what becomes of a call whose answer its receipt shows",
            size_of::<Called<BoxedModule<Plain>, Kind, ()>>(),
            176,
        ),
        (
            "a call of a script",
            size_of::<ScriptCall<BoxedModule<Plain>>>(),
            48,
        ),
    ] {
        check(&rt, (what, size), size == wanted);
    }
}
