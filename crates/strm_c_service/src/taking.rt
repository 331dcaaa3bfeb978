//! The calls that take a message whole or not at all, and what a take would give.
ghost use Rattle.std.specs.Prelude.{◌≡◌, pos, true, Ok, Some, option_copied};
ghost use Rattle.strm_head_calls.specs.declared.request.Request.TheVariants as Requests;
ghost use Rattle.strm_c_numbers.specs.Numbers.{end_of};
ghost use Rattle.strm_c_calls.specs.Codes.{code_of};
ghost use Rattle.strm_c_service.specs.Service as asks;
ghost use Rattle.strm_c_service.specs.Taking as taking;
ghost use Rattle.strm_c_service.specs.Taking.{TakesWholeOn, TellsNextOn, goes_into, lacks_room, room_of};
ghost use Rattle.strm_c_service.specs.Written.{HasMessage, whole_after};

use crate::asked::service_of;
use crate::written::{next_whole, write_message};
use std::alloc::Global;
use strm_c_calls::{Asked, Handle, answered, code_of, wanted_of};
use strm_c_numbers::{Whole, data_length, end_of, number_of};
use strm_head::Stream;
use strm_head_calls::{Refusal, Request, ServiceCall};
use strm_module::{BoxedModule, Plain};
use strm_msg::{End, Message};

/// The message that a call would take: the first of the output of a wire, the first of a queue that the
/// program serves, or the answer that is asked for later.
fn first_of<'a>(
    stream: &'a Stream<Plain>,
    end: End,
    request: &Request<BoxedModule<Plain>>,
) -> Option<&'a Message>
    ensures { option_copied result ≡ taking.first_of stream.now end request.now }
{
    match request {
        Request::Take => stream.first_output(end),
        Request::Service {
            name,
            side,
            call: ServiceCall::Getq { .. },
        } => stream.first_served(end, name, *side),
        Request::Strget { .. } => stream.answer(end),
        _ => None,
    }
}

/// Whether a part of some length goes whole into its room.
fn goes_into(has: bool, buffer: &[u8], len: Option<usize>) -> bool
    ensures { result ≡ taking.length_goes_into (room_of has buffer.now) len }
{
    match len {
        Some(len) => has && len <= buffer.len(),
        None => true,
    }
}

/// Whether a message has a part that is longer than its room.
fn lacks_room(has_ctl: bool, ctl: &[u8], has_dat: bool, dat: &[u8], first: Option<&Message>) -> bool
    ensures { result ≡ lacks_room (room_of has_ctl ctl.now) (room_of has_dat dat.now) (option_copied first.entry) }
{
    match first {
        Some(m) => {
            let ctl_len = m.ctl.as_ref().map(|bytes| bytes.len());
            !(goes_into(has_ctl, ctl, ctl_len) && goes_into(has_dat, dat, data_length(m)))
        }
        None => false,
    }
}

/// Whether the message that a call would take at the end of a number stays because it has no room: no refusal
/// holds, and a part is longer than its buffer.
pub fn stays_for_room(
    alloc: Global,
    s: &mut Handle,
    end: u8,
    asked: &Asked,
    has_ctl: bool,
    ctl: &[u8],
    has_dat: bool,
    dat: &[u8],
) -> bool
    requires { s.old.is_open ≡ true }
    ensures open { s.new.is_open ≡ true }
    ensures same { s.new.held ≡ s.old.held }
    ensures stays { result ≡ taking.stays_for_room s.old.held.stream (end_of end) asked.now
        (room_of has_ctl ctl.now) (room_of has_dat dat.now) }
{
    let (Some(end), Ok(request)) = (end_of(end), asked) else {
        return false;
    };
    let held = s.take(alloc);
    let is_long = held.stream.refusal(end, request).is_none()
        && lacks_room(
            has_ctl,
            ctl,
            has_dat,
            dat,
            first_of(&held.stream, end, request),
        );
    s.put(held);
    is_long
}

/// Makes a call that takes a message, whole or not at all.
fn take_whole(
    alloc: Global,
    s: &mut Handle,
    end: u8,
    asked: Asked,
    has_ctl: bool,
    ctl: &mut [u8],
    has_dat: bool,
    dat: &mut [u8],
    got: &mut Whole,
) -> i32
    requires { s.old.is_open ≡ true }
    ensures open { s.new.is_open ≡ true }
    ensures takes { TakesWholeOn s.old end asked (room_of has_ctl ctl.old) (room_of has_dat dat.old)
        (HasMessage ctl.old dat.old got.old ctl.new dat.new got.new) result s.new }
{
    if stays_for_room(alloc, s, end, &asked, has_ctl, ctl, has_dat, dat) {
        drop(asked);
        return 34;
    }
    let answer = answered(alloc, s, end, asked);
    write_message(&answer, ctl, dat, got);
    let code = code_of(&answer);
    drop(answer);
    code
}

/// Takes the first message that was sent down to a wire, whole or not at all. Of a closed wire whose output
/// was all taken it takes a hangup.
pub fn take(
    alloc: Global,
    s: &mut Handle,
    end: u8,
    has_ctl: bool,
    ctl: &mut [u8],
    has_dat: bool,
    dat: &mut [u8],
    got: &mut Whole,
) -> i32
    requires { s.old.is_open ≡ true }
    ensures open { s.new.is_open ≡ true }
    ensures takes { TakesWholeOn s.old end (Ok Requests.Take) (room_of has_ctl ctl.old) (room_of has_dat dat.old)
        (HasMessage ctl.old dat.old got.old ctl.new dat.new got.new) result s.new }
{
    take_whole(
        alloc,
        s,
        end,
        Ok(Request::Take),
        has_ctl,
        ctl,
        has_dat,
        dat,
        got,
    )
}

/// The getq of these arguments (getq(9F)).
fn getq_of(name: &[u8], side: u32, flags: u32) -> Asked
    ensures { result ≡ asks.getq_of name.now side flags }
{
    match wanted_of(flags) {
        Some(flag) => service_of(name, side, ServiceCall::Getq { flag }),
        None => Err(Refusal::Invalid),
    }
}

/// Takes the first message of a queue that the program serves, whole or not at all (getq(9F)).
pub fn getq(
    alloc: Global,
    s: &mut Handle,
    end: u8,
    name: &[u8],
    side: u32,
    flags: u32,
    has_ctl: bool,
    ctl: &mut [u8],
    has_dat: bool,
    dat: &mut [u8],
    got: &mut Whole,
) -> i32
    requires { s.old.is_open ≡ true }
    ensures open { s.new.is_open ≡ true }
    ensures takes { TakesWholeOn s.old end (asks.getq_of name.now side flags)
        (room_of has_ctl ctl.old) (room_of has_dat dat.old)
        (HasMessage ctl.old dat.old got.old ctl.new dat.new got.new) result s.new }
{
    let asked = getq_of(name, side, flags);
    take_whole(alloc, s, end, asked, has_ctl, ctl, has_dat, dat, got)
}

/// States a law, and does nothing: a take returns the message that `next` has described, unless memory runs
/// out.
pub fn next_foretells()
    ensures { taking.NextForetells }
{}

/// Describes the message that a take would return, and leaves it there.
fn look_at_next(stream: &Stream<Plain>, end: End, got: &mut Whole) -> i32
    ensures code { result ≡ pos (code_of (taking.next_at stream.now (Some end))) }
    ensures told { got.new ≡ whole_after (taking.next_at stream.now (Some end)) got.old }
{
    if let Some(refusal) = stream.refusal(end, &Request::Take) {
        return number_of(refusal.errno());
    }
    *got = next_whole(stream.first_output(end));
    0
}

/// Describes the message that a take would return at the end of a number, and leaves it there. Takes no
/// memory.
pub fn next(alloc: Global, s: &mut Handle, end: u8, got: &mut Whole) -> i32
    requires { s.old.is_open ≡ true }
    ensures open { s.new.is_open ≡ true }
    ensures next { TellsNextOn s.old end got.old got.new result s.new }
{
    let Some(end) = end_of(end) else {
        return 9;
    };
    let held = s.take(alloc);
    let code = look_at_next(&held.stream, end, got);
    s.put(held);
    code
}
