//! The state of an end as poll(2) reports it, in flags.
ghost use Rattle.std.specs.Prelude.{◌≡◌, pos, true};
ghost use Rattle.strm_c_numbers.specs.Numbers.{end_of};
ghost use Rattle.strm_head_ioctl.specs.Poll.{polled};
ghost use Rattle.strm_c_calls.specs.Codes.{returned_flags};
ghost use Rattle.strm_c_calls.specs.Polls.{polled_at};

use crate::calls::step;
use crate::codes::returned_flags;
use crate::handle::Handle;
use std::alloc::Global;
use strm_c_numbers::end_of;
use strm_head::Stream;
use strm_head_calls::{Answer, Polled, Reply, Request};
use strm_module::Plain;
use strm_msg::End;

/// The state of an end as a poll reports it. Changes nothing.
fn polled(stream: &mut Stream<Plain>, end: End) -> Polled
    ensures told { result ≡ polled stream.old end }
    ensures same { stream.new ≡ stream.old }
{
    match step(stream, end, Request::Poll) {
        Answer::Done(Reply::Poll { told }) => told,
        _ => unreachable!(),
    }
}

/// The state of the end of a number as a poll reports it. A number that is no end counts as a closed end.
fn polled_at(alloc: Global, s: &mut Handle, end: u8) -> Polled
    requires { s.old.is_open ≡ true }
    ensures open { s.new.is_open ≡ true }
    ensures same { s.new.held.stream ≡ s.old.held.stream }
    ensures told { result ≡ polled_at s.old.held.stream (end_of end) }
{
    let Some(end) = end_of(end) else {
        return Polled {
            first: None,
            out: false,
            wrband: false,
            err: false,
            hup: false,
            nval: true,
        };
    };
    let mut held = s.take(alloc);
    let told = polled(&mut held.stream, end);
    s.put(held);
    told
}

/// Returns those of `events` that hold of the end of a number, and POLLERR, POLLHUP and POLLNVAL if they
/// hold. Refuses nothing.
pub fn poll(alloc: Global, s: &mut Handle, end: u8, events: u32, revents: &mut u32) -> i32
    requires { s.old.is_open ≡ true }
    ensures open { s.new.is_open ≡ true }
    ensures same { s.new.held.stream ≡ s.old.held.stream }
    ensures done { result ≡ pos 0 }
    ensures told { revents.new ≡ returned_flags events (polled_at s.old.held.stream (end_of end)) }
{
    let told = polled_at(alloc, s, end);
    *revents = returned_flags(events, told);
    0
}
