//! The parts of an answer that are written where the caller has room for them.
ghost use Rattle.std.specs.Prelude.{◌≡◌, pos, negsuc};
ghost use Rattle.strm_head_calls.specs.declared.answer.Reply.TheVariants as Replies;
ghost use Rattle.strm_c_numbers.specs.Numbers as numbers;
ghost use Rattle.strm_c_numbers.specs.Bytes.{filled, filled_if};
ghost use Rattle.strm_c_calls.specs.Codes as codes;
ghost use Rattle.strm_c_calls.specs.Returned.{AreValues, HasTaken, IsNamed, IsValue};
ghost use Rattle.strm_c_calls.specs.Returned.{ctl_of, dat_of, got_lengths, got_of};
ghost use Rattle.strm_c_calls.specs.Returned.{name_field, received_band, received_flags};
ghost use Rattle.strm_c_calls.specs.Returned.{returned_bytes, returned_count, returned_name};
ghost use Rattle.strm_c_calls.specs.Returned.{returned_value, serviced_value};

use crate::codes::{more_number, priority_number};
use strm_c_numbers::{fill, fill_part, int_of, read_number};
use strm_head_calls::{Acknowledged, Answer, Received, Reply, Serviced};

/// The description of a message or of an ioctl that is returned with its bytes.
#[repr(C)]
#[derive(Drop)]
pub struct Returned {
    /// The length of control, -1 for none.
    pub ctl_len: i32,
    /// The length of data, -1 for none.
    pub dat_len: i32,
    /// 1, or 0 if nothing was found. For an ioctl its answer: STRM_ACK, STRM_NAK or STRM_TIMEOUT.
    pub found: i32,
    /// RS_HIPRI or 0. For getpmsg MSG_HIPRI or MSG_BAND.
    pub flags: i32,
    /// The band of the message of getpmsg.
    pub band: i32,
    /// MORECTL, MOREDATA, both or neither.
    pub more: i32,
    /// The value that an ioctl returned.
    pub rval: u64,
}

/// The description of parts of these lengths.
fn lengths(ctl_len: i32, dat_len: i32, flags: i32) -> Returned
    ensures { result ≡ got_lengths ctl_len dat_len (pos 1) flags }
{
    Returned {
        ctl_len,
        dat_len,
        found: 1,
        flags,
        band: 0,
        more: 0,
        rval: 0,
    }
}

/// The description of a reply without parts.
fn nothing(found: i32) -> Returned
    ensures { result ≡ got_lengths (negsuc 0) (negsuc 0) found (pos 0) }
{
    Returned {
        found,
        ..lengths(-1, -1, 0)
    }
}

/// The flags and the band of the message of getpmsg.
fn received(flag: Received) -> (i32, i32)
    ensures { result ≡ (pos (received_flags flag), numbers.int_of (received_band flag)) }
{
    match flag {
        Received::Band { band } => (4, int_of(u64::from(band))),
        Received::Hipri => (1, 0),
    }
}

/// Writes the data of an ioctl's answer, and returns the description of the answer.
fn write_ack(answer: &Acknowledged, dat: &mut [u8]) -> Returned
    ensures bytes { dat.new ≡ filled_if (dat_of (Replies.Str answer.now)) dat.old }
    ensures told { result ≡ got_of (Replies.Str answer.now) }
{
    match answer {
        Acknowledged::Ack { rval, dat: part } => Returned {
            rval: *rval,
            ..lengths(-1, fill_part(dat, part.as_ref()), 0)
        },
        Acknowledged::Nak { .. } => nothing(2),
        Acknowledged::Timeout => nothing(3),
    }
}

/// Writes the parts of a reply to buffers, and returns its description.
fn write_reply(reply: &Reply, ctl: &mut [u8], dat: &mut [u8]) -> Returned
    ensures control { ctl.new ≡ filled_if (ctl_of reply.now) ctl.old }
    ensures bytes { dat.new ≡ filled_if (dat_of reply.now) dat.old }
    ensures told { result ≡ got_of reply.now }
{
    match reply {
        Reply::Getmsg {
            ctl: control,
            dat: part,
            flag,
            more,
        } => Returned {
            more: more_number(*more),
            ..lengths(
                fill_part(ctl, control.as_ref()),
                fill_part(dat, part.as_ref()),
                priority_number(*flag),
            )
        },
        Reply::Getpmsg {
            ctl: control,
            dat: part,
            flag,
            more,
        } => {
            let (flags, band) = received(*flag);
            Returned {
                band,
                more: more_number(*more),
                ..lengths(
                    fill_part(ctl, control.as_ref()),
                    fill_part(dat, part.as_ref()),
                    flags,
                )
            }
        }
        Reply::Peek { found } => match found {
            Some(seen) => lengths(
                fill_part(ctl, seen.ctl.as_ref()),
                fill_part(dat, seen.dat.as_ref()),
                priority_number(seen.flag),
            ),
            None => nothing(0),
        },
        Reply::Read { dat: bytes } => {
            fill(dat, bytes.as_slice());
            lengths(-1, int_of(bytes.len() as u64), 0)
        }
        Reply::Str { answer } => write_ack(answer, dat),
        _ => nothing(0),
    }
}

/// Writes the parts of an answer to buffers, and its description, if it is a reply.
pub fn write_parts(answer: &Answer, ctl: &mut [u8], dat: &mut [u8], got: &mut Returned)
    ensures { HasTaken ctl.old dat.old got.old ctl.new dat.new got.new answer.now }
{
    if let Answer::Done(reply) = answer {
        *got = write_reply(reply, ctl, dat);
    }
}

/// A truth as a number.
fn bit(truth: bool) -> u64
    ensures { result ≡ codes.bit_number truth }
{
    if truth { 1 } else { 0 }
}

/// The number of the reply of a service call, or 0 if it has none.
fn serviced_value(told: Serviced) -> u64
    ensures { result ≡ serviced_value told }
{
    match told {
        Serviced::Bcanputnext { can } => bit(can),
        Serviced::Qsize { messages } => messages,
        Serviced::Putbq | Serviced::Putnext => 0,
    }
}

/// The number of a reply, or 0 if it has none.
fn value_of(reply: &Reply) -> u64
    ensures { result ≡ returned_value reply.now }
{
    match reply {
        Reply::Write { len } => *len,
        Reply::Nread { messages, .. } => *messages,
        Reply::GetRead { mode, prot } => read_number(*mode, *prot),
        Reply::Canput { can } => bit(*can),
        Reply::Ckband { waits } => bit(*waits),
        Reply::Getband { band } => *band,
        Reply::Find { found } => bit(*found),
        Reply::Service { told } => serviced_value(*told),
        _ => 0,
    }
}

/// The number of data bytes of the first message, or 0 if the reply does not have it.
fn bytes_of(reply: &Reply) -> u64
    ensures { result ≡ returned_bytes reply.now }
{
    match reply {
        Reply::Nread { bytes, .. } => *bytes,
        _ => 0,
    }
}

/// Stores the number of an answer, if it is a reply.
pub fn write_value(answer: &Answer, value: &mut i32)
    ensures { IsValue value.old value.new answer.now }
{
    if let Answer::Done(reply) = answer {
        *value = int_of(value_of(reply));
    }
}

/// Stores both numbers of an answer, if it is a reply.
pub fn write_values(answer: &Answer, value: &mut i32, bytes: &mut i32)
    ensures { AreValues value.old bytes.old value.new bytes.new answer.now }
{
    if let Answer::Done(reply) = answer {
        *value = int_of(value_of(reply));
        *bytes = int_of(bytes_of(reply));
    }
}

/// Writes a name to a buffer, with zeros behind it up to nine bytes.
fn fill_name(buffer: &mut [u8], name: &[u8])
    ensures { buffer.new ≡ filled (name_field name.now) buffer.old }
{
    let mut field = [0; 9];
    fill(&mut field, name);
    fill(buffer, &field);
}

/// Writes one name of a reply to a buffer, if it has that many, and returns the number of its names.
fn write_name(reply: &Reply, i: u64, buffer: &mut [u8]) -> u64
    ensures bytes { buffer.new ≡ filled_if (returned_name i reply.now) buffer.old }
    ensures count { result ≡ returned_count reply.now }
{
    match reply {
        Reply::Look { name } => {
            if i == 0 {
                fill_name(buffer, name.as_slice());
            }
            1
        }
        Reply::List { names, driver } => {
            let names = names.as_slice();
            let count = names.len() as u64;
            if i < count {
                fill_name(buffer, names[i as usize].as_slice());
            } else if i == count {
                fill_name(buffer, driver.name());
            }
            count + 1
        }
        _ => 0,
    }
}

/// Writes one name of an answer to a buffer, and stores the number of its names, if it is a reply.
pub fn write_names(answer: &Answer, i: u64, name: &mut [u8], count: &mut i32)
    ensures { IsNamed i name.old count.old name.new count.new answer.now }
{
    if let Answer::Done(reply) = answer {
        *count = int_of(write_name(reply, i, name));
    }
}
