//! Expected replies, beside histories that no script is sure to give: calls of two processes in turn, a
//! message that came in between, and a call without an entry.
use super::handed;
use super::printing::{Say, answer, came, log, step};
use std::alloc::Global;
use std::process::Abort;
use strm_head::Event;
use strm_head_calls::{Answer, Refusal, Reply, Request};
use strm_module::Kind;
use strm_msg::End::A;
use strm_msg::Message;
use strm_run::{StreamLog, Transcript};
use strm_script_expect::{Missed, put_missed, unmet};
use strm_shared_log::{Kept, Who};

/// Two processes with calls on two streams, and what they expect.
const SCRIPT: &[u8] = b"stream one loop 16/4 16/4\nstream two echo 16/4 16/4\n\
    process p\nnread one:a : 0\nnread two:a : 8 =%00 | 7 =%00\nnread one:a : 0\n\
    process q\nnread one:a : EBADF\nnread one:a\nnread one:a : ENOSR\nnread two:a\n";

/// The texts of those that are not met: the first process has one call alone on the first stream.
const UNMET: &str = "line 6: expected 0, was\nline 10: expected ENOSR, was ENOSR broke\n";

/// A call of a caller, with its answer.
fn called(rt: &impl Abort, alloc: Global, caller: u32, say: Say) -> Kept<Kind> {
    let said = answer(rt, alloc, say);
    step(
        rt,
        alloc,
        (Who::Caller(caller), A),
        Event::Asked(Request::Nread),
        said,
    )
}

/// The log of the first stream.
fn first(rt: &impl Abort, alloc: Global) -> StreamLog<Kind> {
    let mut log = log(rt, alloc, &[]);
    log.history = vec![in alloc;
        called(rt, alloc, 1, Say::Refused(Refusal::Closed)),
        called(rt, alloc, 0, Say::Line),
        came(rt, alloc, Message::of_hangup(), Answer::Done(Reply::Line)),
        called(rt, alloc, 1, Say::Line),
        called(rt, alloc, 1, Say::Broke),
    ]
    .expect(rt, "no memory");
    log
}

/// The log of the second stream.
fn second(rt: &impl Abort, alloc: Global) -> StreamLog<Kind> {
    let mut log = log(rt, alloc, &[]);
    log.history = vec![in alloc;
        called(rt, alloc, 1, Say::Line),
        called(rt, alloc, 0, Say::Ack(7, Some(b"\x00"))),
    ]
    .expect(rt, "no memory");
    log
}

/// The texts of those that were not met, each with a line end.
fn texts(rt: &impl Abort, alloc: Global, missed: &[Missed]) -> Vec<u8> {
    let mut out = Vec::new(alloc);
    for one in missed {
        assert!(rt; put_missed(&mut out, one).is_ok());
        out.push(b'\n').expect(rt, "no memory");
    }
    out
}

#[test]
fn a_reply_is_that_of_the_process_on_the_stream(rt: HostRuntime) {
    let alloc: Global = rt.alloc();
    let streams = vec![in alloc; first(&rt, alloc), second(&rt, alloc)].expect(&rt, "no memory");
    let expected = handed(&rt, alloc, SCRIPT).expected;
    let missed = unmet(alloc, &Transcript { streams }, expected)
        .ok()
        .expect(&rt, "no memory");
    assert!(rt; texts(&rt, alloc, missed.as_slice()).as_slice() == UNMET.as_bytes());
}
