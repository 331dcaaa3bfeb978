//! The refusal of a call whatever its bytes are. The calls look for it before they copy any byte.
//!
//! The stream is asked for the refusal of the call with parts of no byte, which take no memory. A wrong
//! length refuses the call in its place among these refusals.
ghost use Rattle.std.specs.Prelude.{◌≡◌, ◌&&◌, not, [], nat_le, nat_lt, length};
ghost use Rattle.strm_msg.specs.Message.{part_len};
ghost use Rattle.strm_head_calls.specs.declared.request.Request.TheVariants as Requests;
ghost use Rattle.strm_head_msg.specs.Send.{is_too_long};
ghost use Rattle.strm_module.specs.Builtin.{builtin};
ghost use Rattle.strm_head.specs.Effects.{refusal_of};
ghost use Rattle.strm_c_calls.specs.Arguments as asks;
ghost use Rattle.strm_c_calls.specs.Judged as judged;

use std::alloc::Global;
use strm_head::Stream;
use strm_head_calls::{MAX_CONTROL, MAX_DATA, Parts, Priority, PutFlag, Refusal, Request};
use strm_module::{LONGEST_NAME, Plain};
use strm_msg::{Bytes, End};

/// Whether a refusal is looked for before the refusals of a length.
fn is_before_length(refusal: Refusal) -> bool
    ensures { result ≡ judged.is_before_length refusal }
{
    matches!(
        refusal,
        Refusal::Closed
            | Refusal::Broken
            | Refusal::ReadError { .. }
            | Refusal::WriteError { .. }
            | Refusal::Invalid
    )
}

/// The refusal of a call. It is made of its refusal with parts of no byte, and of the refusal of a wrong
/// length.
pub fn or_length(is_wrong: bool, by: Refusal, refusal: Option<Refusal>) -> Option<Refusal>
    ensures { result ≡ judged.or_length is_wrong by refusal }
{
    if !is_wrong {
        return refusal;
    }
    match refusal {
        Some(refusal) if is_before_length(refusal) => Some(refusal),
        _ => Some(by),
    }
}

/// Whether there is a part with more than `most` bytes.
fn is_longer(has: bool, bytes: &[u8], most: usize) -> bool
    ensures { result ≡ nat_lt most (part_len (asks.part_argument has bytes.now)) }
{
    if has { bytes.len() > most } else { false }
}

/// Whether a part is too long for a message.
pub fn are_too_long(has_ctl: bool, ctl: &[u8], has_dat: bool, dat: &[u8]) -> bool
    ensures { result ≡ is_too_long (asks.part_argument has_ctl ctl.now) (asks.part_argument has_dat dat.now) }
{
    if is_longer(has_ctl, ctl, MAX_CONTROL) {
        return true;
    }
    is_longer(has_dat, dat, MAX_DATA)
}

/// Whether a name has no byte, or more bytes than the name of a module may have.
fn is_wrong_name(name: &[u8]) -> bool
    ensures { result ≡ not (nat_le 1 (length name.now) && nat_le (length name.now) LONGEST_NAME) }
{
    name.len() == 0 || name.len() > LONGEST_NAME
}

/// A part of no byte in the place of a part, if there is one. Takes no memory.
fn emptied(alloc: Global, has: bool) -> Option<Bytes>
    ensures { result ≡ asks.part_argument has [] }
{
    if has { Some(Bytes::empty()) } else { None }
}

/// The refusal of a putmsg of these parts.
pub fn putmsg_refusal(
    alloc: Global,
    stream: &Stream<Plain>,
    end: End,
    has_ctl: bool,
    ctl: &[u8],
    has_dat: bool,
    dat: &[u8],
    flag: Priority,
) -> Option<Refusal>
    ensures { result ≡ refusal_of builtin stream.now end (asks.putmsg flag has_ctl ctl.now has_dat dat.now) }
{
    let parts = Parts {
        ctl: emptied(alloc, has_ctl),
        dat: emptied(alloc, has_dat),
    };
    let refusal = stream.putmsg_refusal(end, &parts, flag);
    drop(parts);
    let is_wrong = are_too_long(has_ctl, ctl, has_dat, dat);
    or_length(is_wrong, Refusal::TooLong, refusal)
}

/// The refusal of a putpmsg of these parts.
pub fn putpmsg_refusal(
    alloc: Global,
    stream: &Stream<Plain>,
    end: End,
    has_ctl: bool,
    ctl: &[u8],
    has_dat: bool,
    dat: &[u8],
    band: u8,
    flag: PutFlag,
) -> Option<Refusal>
    ensures { result ≡ refusal_of builtin stream.now end (asks.putpmsg band flag has_ctl ctl.now has_dat dat.now) }
{
    let parts = Parts {
        ctl: emptied(alloc, has_ctl),
        dat: emptied(alloc, has_dat),
    };
    let refusal = stream.putpmsg_refusal(end, &parts, band, flag);
    drop(parts);
    let is_wrong = are_too_long(has_ctl, ctl, has_dat, dat);
    or_length(is_wrong, Refusal::TooLong, refusal)
}

/// The refusal of a write of these bytes.
pub fn write_refusal(
    alloc: Global,
    stream: &Stream<Plain>,
    end: End,
    bytes: &[u8],
) -> Option<Refusal>
    ensures { result ≡ refusal_of builtin stream.now end (Requests.Write bytes.now) }
{
    let request = Request::Write {
        dat: Bytes::empty(),
    };
    let refusal = stream.refusal(end, &request);
    drop(request);
    let is_wrong = are_too_long(false, &[], true, bytes);
    or_length(is_wrong, Refusal::TooLong, refusal)
}

/// The refusal of an ioctl with these data.
pub fn str_refusal(
    stream: &Stream<Plain>,
    end: End,
    cmd: u32,
    has_dat: bool,
    dat: &[u8],
) -> Option<Refusal>
    ensures { result ≡ refusal_of builtin stream.now end (asks.ioctl cmd has_dat dat.now) }
{
    let request = Request::Str { cmd, dat: None };
    let refusal = stream.refusal(end, &request);
    drop(request);
    let is_wrong = are_too_long(false, &[], has_dat, dat);
    or_length(is_wrong, Refusal::Invalid, refusal)
}

/// The refusal of a find of this name. A getread has the same refusals apart from those of the name.
pub fn find_refusal(stream: &Stream<Plain>, end: End, name: &[u8]) -> Option<Refusal>
    ensures { result ≡ refusal_of builtin stream.now end (Requests.Find name.now) }
{
    let refusal = stream.refusal(end, &Request::GetRead);
    or_length(is_wrong_name(name), Refusal::Invalid, refusal)
}
