//! The step of an exported call: the request of its arguments, made on the stream of a handle.
ghost use Rattle.std.specs.Prelude.{◌≡◌, true};
ghost use Rattle.strm_c_numbers.specs.Numbers.{end_of};
ghost use Rattle.strm_c_calls.specs.Call as calls;
ghost use Rattle.strm_c_calls.specs.OnHandle.{CallsOn};
ghost use Rattle.strm_c_calls.specs.Returned.{HasTaken, IsValue, AreValues, IsNamed, Nothing};

use crate::arguments::Asked;
use crate::codes::code_of;
use crate::handle::Handle;
use crate::returned::{Returned, write_names, write_parts, write_value, write_values};
use std::alloc::Global;
use strm_c_numbers::end_of;
use strm_head::Stream;
use strm_head_calls::{Answer, Refusal, Request};
use strm_module::{BoxedModule, Plain};
use strm_msg::End;

/// The request at an end, or the refusal that comes before any step.
fn checked_call(end: u8, asked: Asked) -> Result<(End, Request<BoxedModule<Plain>>), Refusal>
    ensures { result ≡ calls.checked_call (end_of end) asked }
{
    let Some(end) = end_of(end) else {
        drop(asked);
        return Err(Refusal::Closed);
    };
    match asked {
        Ok(request) => Ok((end, request)),
        Err(refusal) => Err(refusal),
    }
}

/// Makes a step of a stream, and returns its answer. The rest of the outcome is dropped here, in one place
/// for all calls.
pub fn step(stream: &mut Stream<Plain>, end: End, request: Request<BoxedModule<Plain>>) -> Answer
    ensures { calls.IsStep stream.old end request result stream.new }
{
    let outcome = stream.apply(end, request);
    outcome.answer
}

/// Makes a request on the stream of a handle, and returns its answer.
fn make(alloc: Global, s: &mut Handle, end: End, request: Request<BoxedModule<Plain>>) -> Answer
    requires { s.old.is_open ≡ true }
    ensures open { s.new.is_open ≡ true }
    ensures step { calls.IsStep s.old.held.stream end request result s.new.held.stream }
{
    let mut held = s.take(alloc);
    let answer = step(&mut held.stream, end, request);
    s.put(held);
    answer
}

/// Makes the request of an exported call at the end of a number, and returns the answer.
pub fn answered(alloc: Global, s: &mut Handle, end: u8, asked: Asked) -> Answer
    requires { s.old.is_open ≡ true }
    ensures open { s.new.is_open ≡ true }
    ensures answers { calls.Answers s.old.held.stream (calls.checked_call (end_of end) asked) result
        s.new.held.stream }
{
    match checked_call(end, asked) {
        Ok((end, request)) => make(alloc, s, end, request),
        Err(refusal) => Answer::Refused(refusal),
    }
}

/// Makes a call that writes nothing, and returns its code.
pub fn call(alloc: Global, s: &mut Handle, end: u8, asked: Asked) -> i32
    requires { s.old.is_open ≡ true }
    ensures open { s.new.is_open ≡ true }
    ensures call { CallsOn s.old end asked Nothing result s.new }
{
    let answer = answered(alloc, s, end, asked);
    let code = code_of(&answer);
    drop(answer);
    code
}

/// Makes a call whose parts are written to buffers.
pub fn call_taking(
    alloc: Global,
    s: &mut Handle,
    end: u8,
    asked: Asked,
    ctl: &mut [u8],
    dat: &mut [u8],
    got: &mut Returned,
) -> i32
    requires { s.old.is_open ≡ true }
    ensures open { s.new.is_open ≡ true }
    ensures call { CallsOn s.old end asked (HasTaken ctl.old dat.old got.old ctl.new dat.new got.new) result s.new }
{
    let answer = answered(alloc, s, end, asked);
    write_parts(&answer, ctl, dat, got);
    let code = code_of(&answer);
    drop(answer);
    code
}

/// Makes a call that returns a number.
pub fn call_for_value(alloc: Global, s: &mut Handle, end: u8, asked: Asked, value: &mut i32) -> i32
    requires { s.old.is_open ≡ true }
    ensures open { s.new.is_open ≡ true }
    ensures call { CallsOn s.old end asked (IsValue value.old value.new) result s.new }
{
    let answer = answered(alloc, s, end, asked);
    write_value(&answer, value);
    let code = code_of(&answer);
    drop(answer);
    code
}

/// Makes a call that returns two numbers.
pub fn call_for_values(
    alloc: Global,
    s: &mut Handle,
    end: u8,
    asked: Asked,
    value: &mut i32,
    bytes: &mut i32,
) -> i32
    requires { s.old.is_open ≡ true }
    ensures open { s.new.is_open ≡ true }
    ensures call { CallsOn s.old end asked (AreValues value.old bytes.old value.new bytes.new) result s.new }
{
    let answer = answered(alloc, s, end, asked);
    write_values(&answer, value, bytes);
    let code = code_of(&answer);
    drop(answer);
    code
}

/// Makes a call that returns names, one of them in a buffer.
pub fn call_for_name(
    alloc: Global,
    s: &mut Handle,
    end: u8,
    asked: Asked,
    i: u32,
    name: &mut [u8],
    count: &mut i32,
) -> i32
    requires { s.old.is_open ≡ true }
    ensures open { s.new.is_open ≡ true }
    ensures call { CallsOn s.old end asked (IsNamed i name.old count.old name.new count.new) result s.new }
{
    let answer = answered(alloc, s, end, asked);
    write_names(&answer, i as u64, name, count);
    let code = code_of(&answer);
    drop(answer);
    code
}
