//! An ioctl whose answer is asked for later.
ghost use Rattle.std.specs.Prelude.{◌≡◌, true, [], None, Ok};
ghost use Rattle.strm_head_calls.specs.declared.request.Request.TheVariants as Requests;
ghost use Rattle.strm_module.specs.Builtin.{builtin};
ghost use Rattle.strm_head.specs.Effects.{refusal_of};
ghost use Rattle.strm_c_calls.specs.Arguments.{part_argument};
ghost use Rattle.strm_c_calls.specs.OnHandle.{CallsOn, IsMadeOn};
ghost use Rattle.strm_c_calls.specs.Returned.{HasTaken};
ghost use Rattle.strm_c_service.specs.Service as asks;
ghost use Rattle.strm_c_service.specs.Taking.{TakesWholeOn, room_of};
ghost use Rattle.strm_c_service.specs.Written.{IsId};

use crate::taking::stays_for_room;
use crate::written::write_id;
use std::alloc::Global;
use strm_c_calls::{
    Asked, Handle, Returned, answered, are_too_long, call_taking, code_of, or_length, part_of,
};
use strm_c_numbers::end_of;
use strm_head::Stream;
use strm_head_calls::{Refusal, Request};
use strm_module::Plain;
use strm_msg::End;

/// The refusal of a strput with these data.
fn strput_refusal(
    stream: &Stream<Plain>,
    end: End,
    cmd: u32,
    has_dat: bool,
    dat: &[u8],
) -> Option<Refusal>
    ensures { result ≡ refusal_of builtin stream.now end (Requests.Strput cmd (part_argument has_dat dat.now)) }
{
    let request = Request::Strput { cmd, dat: None };
    let refusal = stream.refusal(end, &request);
    drop(request);
    let is_wrong = are_too_long(false, &[], has_dat, dat);
    or_length(is_wrong, Refusal::Invalid, refusal)
}

/// The strput of this command and these data at an end of an open stream, or the answer in its place. The
/// data are copied only where nothing else refuses it.
fn strput_of(alloc: Global, s: &mut Handle, end: u8, cmd: u32, has_dat: bool, dat: &[u8]) -> Asked
    requires { s.old.is_open ≡ true }
    ensures open { s.new.is_open ≡ true }
    ensures same { s.new.held ≡ s.old.held }
    ensures made { IsMadeOn s.old end (asks.strput_of cmd has_dat dat.now) result }
{
    let Some(end) = end_of(end) else {
        return Err(Refusal::Closed);
    };
    let held = s.take(alloc);
    let refusal = strput_refusal(&held.stream, end, cmd, has_dat, dat);
    s.put(held);
    if let Some(refusal) = refusal {
        return Err(refusal);
    }
    match part_of(alloc, has_dat, dat) {
        Ok(dat) => Ok(Request::Strput { cmd, dat }),
        Err(_) => Err(Refusal::NoMemory),
    }
}

/// Makes a call that returns the id of an ioctl.
fn call_for_id(alloc: Global, s: &mut Handle, end: u8, asked: Asked, id: &mut u64) -> i32
    requires { s.old.is_open ≡ true }
    ensures open { s.new.is_open ≡ true }
    ensures call { CallsOn s.old end asked (IsId id.old id.new) result s.new }
{
    let answer = answered(alloc, s, end, asked);
    write_id(&answer, id);
    let code = code_of(&answer);
    drop(answer);
    code
}

/// Sends an ioctl down, and returns its id.
pub fn strput(
    alloc: Global,
    s: &mut Handle,
    end: u8,
    cmd: u32,
    has_dat: bool,
    dat: &[u8],
    id: &mut u64,
) -> i32
    requires { s.old.is_open ≡ true }
    ensures open { s.new.is_open ≡ true }
    ensures call { CallsOn s.old end (asks.strput_of cmd has_dat dat.now)
        (IsId id.old id.new) result s.new }
{
    let asked = strput_of(alloc, s, end, cmd, has_dat, dat);
    call_for_id(alloc, s, end, asked, id)
}

/// Takes the answer to an ioctl that is asked for later, whole or not at all.
pub fn strget(
    alloc: Global,
    s: &mut Handle,
    end: u8,
    drops: bool,
    has_dat: bool,
    dat: &mut [u8],
    got: &mut Returned,
) -> i32
    requires { s.old.is_open ≡ true }
    ensures open { s.new.is_open ≡ true }
    ensures takes { TakesWholeOn s.old end (Ok (Requests.Strget drops)) None (room_of has_dat dat.old)
        (HasTaken [] dat.old got.old [] dat.new got.new) result s.new }
{
    let asked = Ok(Request::Strget { drops });
    if stays_for_room(alloc, s, end, &asked, false, &[], has_dat, dat) {
        return 34;
    }
    call_taking(alloc, s, end, asked, &mut [], dat, got)
}
