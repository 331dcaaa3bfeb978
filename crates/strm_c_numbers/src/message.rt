//! The message of a line or a wire, by the number of its kind, its parts, and a further number.
ghost use Rattle.std.specs.Prelude.{◌≡◌, true, IfSome, option_copied, option_map};
ghost use Rattle.strm_msg.specs.Kind.{is_from_line};
ghost use Rattle.strm_msg.specs.Options.{options_asked};
ghost use Rattle.strm_c_numbers.specs.Messages as messages;

use crate::numbers::{errno_of, sides_of};
use strm_msg::{Bytes, Errno, Message, MsgKind, options_in};

/// The number for a side that an M_ERROR leaves as it is (NOERROR).
const NOERROR: u8 = 255;

/// The flush of these flags, if they name sides.
fn flush_of(band: u8, flags: u32) -> Option<Message>
    ensures message { result ≡ messages.flush_msg band flags }
    ensures line { IfSome result (λ m. is_from_line m.kind ≡ true) }
{
    if flags <= 3 {
        let (r, w) = sides_of(flags)?;
        Some(Message::of_flush(r, w, None))
    } else {
        let (r, w) = sides_of(flags - 4)?;
        Some(Message::of_flush(r, w, Some(band)))
    }
}

/// The options of the head that data ask for, if they ask for any.
fn options_of(dat: Option<&[u8]>) -> Option<Message>
    ensures message { result ≡ messages.options_msg (options_asked (option_map (λ bytes. bytes.now) dat.entry)) }
    ensures line { IfSome result (λ m. is_from_line m.kind ≡ true) }
{
    match options_in(dat?) {
        Some(MsgKind::MSetopts { mode, prot, marks }) => {
            Some(Message::of_setopts(mode, prot, marks))
        }
        _ => None,
    }
}

/// The error of a side by a byte of an M_ERROR: an errno, or none if the byte is NOERROR. Nothing if the byte
/// is neither.
fn side_errno_of(byte: u8) -> Option<Option<Errno>>
    ensures { result ≡ messages.side_errno_of byte }
{
    if byte == NOERROR {
        return Some(None);
    }
    Some(Some(errno_of(u32::from(byte))?))
}

/// The error of one byte for each side, if both bytes say one.
fn error_of_sides(read: u8, write: u8) -> Option<Message>
    ensures message { result ≡ messages.error_of_sides read write }
    ensures line { IfSome result (λ m. is_from_line m.kind ≡ true) }
{
    let read = side_errno_of(read)?;
    let write = side_errno_of(write)?;
    Some(Message::of_error2(read, write))
}

/// The error of one byte for both sides, or of one byte for each. Without data, the error of a number for
/// both. Nothing if they say no error.
fn error_of(dat: Option<&[u8]>, number: u32) -> Option<Message>
    ensures message { result ≡ messages.error_msg (option_map (λ bytes. bytes.now) dat.entry) number }
    ensures line { IfSome result (λ m. is_from_line m.kind ≡ true) }
{
    let Some(bytes) = dat else {
        return Some(Message::of_error(errno_of(number)?));
    };
    match bytes {
        [both] => error_of_sides(*both, *both),
        [read, write] => error_of_sides(*read, *write),
        _ => None,
    }
}

/// The message without parts of these numbers and data, if they make one.
pub fn bare_of(kind: u32, band: u8, dat: Option<&[u8]>, number: u32) -> Option<Message>
    ensures message { result ≡ messages.bare_of kind band (option_map (λ bytes. bytes.now) dat.entry) number }
    ensures line { IfSome result (λ m. is_from_line m.kind ≡ true) }
{
    match kind {
        16 => options_of(dat),
        134 => flush_of(band, number),
        137 => Some(Message::of_hangup()),
        138 => error_of(dat, number),
        _ => None,
    }
}

/// The bytes of a part, if it is there.
fn slice_of(part: &Option<Bytes>) -> Option<&[u8]>
    ensures { option_copied result ≡ part.now }
{
    match part {
        Some(bytes) => Some(bytes.as_slice()),
        None => None,
    }
}

/// The message of these numbers and parts, if they make one.
pub fn message_of(
    kind: u32,
    band: u8,
    ctl: Option<Bytes>,
    dat: Option<Bytes>,
    number: u32,
) -> Option<Message>
    ensures message { result ≡ messages.message_of kind band ctl dat number }
    ensures line { IfSome result (λ m. is_from_line m.kind ≡ true) }
{
    match kind {
        0 => {
            drop(ctl);
            Some(Message::of_bytes(band, dat?))
        }
        1 => Some(Message {
            kind: MsgKind::MProto,
            band,
            ctl: Some(ctl?),
            dat,
        }),
        131 => Some(Message {
            kind: MsgKind::MPcproto,
            band: 0,
            ctl: Some(ctl?),
            dat,
        }),
        _ => {
            let m = bare_of(kind, band, slice_of(&dat), number);
            drop(ctl);
            drop(dat);
            m
        }
    }
}
