//! A whole message in numbers and bytes (msgb(9S), datab(9S) and iocblk(9S)).
ghost use Rattle.std.specs.Prelude.{◌≡◌, Some, [], ◌∷◌, length, option_map};
ghost use Rattle.strm_c_numbers.specs.Bytes.{filled, filled_if};
ghost use Rattle.strm_c_numbers.specs.Numbers as numbers;
ghost use Rattle.strm_c_numbers.specs.Whole as wholes;

use crate::bytes::{fill, fill_part, length_of};
use crate::message::{bare_of, message_of};
use crate::numbers::{band_of, errno_number, errno_of, int_of, kind_number};
use strm_msg::{Bytes, Errno, Message, MsgKind, Prot, ReadMode};

/// A whole message in numbers. Its bytes go beside it.
#[repr(C)]
#[derive(Drop)]
pub struct Whole {
    /// The id of an M_IOCTL, an M_IOCACK and an M_IOCNAK, else 0.
    pub id: u64,
    /// The value that an M_IOCACK returns, else 0.
    pub rval: u64,
    /// The number of its kind (sys/stream.h).
    pub kind: u32,
    /// The band of the message. Of an M_FLUSH of one band, that band.
    pub band: u32,
    /// The sides of an M_FLUSH (FLUSHR, FLUSHW), and FLUSHBAND where it is of one band, else 0.
    pub flags: u32,
    /// The errno of an M_IOCNAK, else 0. From an M_ERROR without data it is the errno of both sides.
    pub error: u32,
    /// The command of an M_IOCTL, else 0.
    pub cmd: u32,
    /// The length of control in bytes, -1 for none.
    pub ctl_len: i32,
    /// The length of data in bytes, -1 for none.
    pub dat_len: i32,
}

/// The byte of a side in an M_ERROR: its errno, or NOERROR.
fn side_byte(errno: Option<Errno>) -> u8
    ensures { result ≡ wholes.side_byte errno }
{
    match errno {
        Some(errno) => errno_number(errno) as u8,
        None => 255,
    }
}

/// The byte of a read mode in an M_SETOPTS, 0 where it stays.
fn mode_byte(mode: Option<ReadMode>) -> u8
    ensures { result ≡ wholes.mode_byte mode }
{
    match mode {
        None => 0,
        Some(ReadMode::Rnorm) => 1,
        Some(ReadMode::Rmsgn) => 2,
        Some(ReadMode::Rmsgd) => 3,
    }
}

/// The byte of a treatment of control in an M_SETOPTS, 0 where it stays.
fn prot_byte(prot: Option<Prot>) -> u8
    ensures { result ≡ wholes.prot_byte prot }
{
    match prot {
        None => 0,
        Some(Prot::Norm) => 1,
        Some(Prot::Dat) => 2,
        Some(Prot::Dis) => 3,
    }
}

/// The length of a message's data as bytes, if it has any.
pub fn data_length(m: &Message) -> Option<usize>
    ensures { result ≡ option_map (λ bytes. length bytes) (wholes.data_of m.now) }
{
    match m.kind {
        MsgKind::MError { .. } => Some(2),
        MsgKind::MSetopts { marks: None, .. } => Some(3),
        MsgKind::MSetopts { marks: Some(_), .. } => Some(11),
        _ => match &m.dat {
            Some(bytes) => Some(bytes.len()),
            None => None,
        },
    }
}

/// Writes options with marks to the front of a buffer, the high mark first.
fn fill_marks(buffer: &mut [u8], mode: u8, prot: u8, marks: (u32, u32))
    ensures { buffer.new ≡ filled (mode ∷ (prot ∷ wholes.marks_bytes (Some marks))) buffer.old }
{
    let (hi, lo) = marks;
    let [a, b, c, d] = hi.to_be_bytes();
    let [e, f, g, h] = lo.to_be_bytes();
    fill(buffer, &[mode, prot, 1, a, b, c, d, e, f, g, h]);
}

/// Writes the data of a message to the front of a buffer, if it has any.
pub fn fill_data(buffer: &mut [u8], m: &Message)
    ensures { buffer.new ≡ filled_if (wholes.data_of m.now) buffer.old }
{
    match m.kind {
        MsgKind::MError { rd, wr } => fill(buffer, &[side_byte(rd), side_byte(wr)]),
        MsgKind::MSetopts { mode, prot, marks } => {
            let (mode, prot) = (mode_byte(mode), prot_byte(prot));
            match marks {
                Some(marks) => fill_marks(buffer, mode, prot, marks),
                None => fill(buffer, &[mode, prot, 0]),
            }
        }
        _ => {
            fill_part(buffer, m.dat.as_ref());
        }
    }
}

/// The flags of a flush.
fn flush_flags(r: bool, w: bool, band: Option<u8>) -> u32
    ensures { result ≡ wholes.flush_flags r w band }
{
    let mut flags = 0;
    if r {
        flags += 1;
    }
    if w {
        flags += 2;
    }
    if band.is_some() {
        flags += 4;
    }
    flags
}

/// The length of a message's data in numbers, -1 for none.
fn data_len(m: &Message) -> i32
    ensures { result ≡ numbers.length_of (wholes.data_of m.now) }
{
    match data_length(m) {
        Some(n) => int_of(n as u64),
        None => -1,
    }
}

/// A message in numbers.
pub fn whole_of(m: &Message) -> Whole
    ensures { result ≡ wholes.whole_of m.now }
{
    let whole = Whole {
        id: 0,
        rval: 0,
        kind: kind_number(m.kind),
        band: u32::from(m.band),
        flags: 0,
        error: 0,
        cmd: 0,
        ctl_len: length_of(m.ctl.as_ref()),
        dat_len: data_len(m),
    };
    match m.kind {
        MsgKind::MIoctl { id, cmd } => Whole { id, cmd, ..whole },
        MsgKind::MIocack { id, rval } => Whole { id, rval, ..whole },
        MsgKind::MIocnak { id, errno } => Whole {
            id,
            error: errno_number(errno),
            ..whole
        },
        MsgKind::MFlush { r, w, band } => Whole {
            band: u32::from(band.unwrap_or(0)),
            flags: flush_flags(r, w, band),
            ..whole
        },
        _ => whole,
    }
}

/// The further number of a message: the errno of an M_ERROR without data, or the flags of a flush.
fn number_in(whole: &Whole) -> u32
    ensures { result ≡ wholes.number_in whole.now }
{
    if whole.kind == 138 {
        whole.error
    } else {
        whole.flags
    }
}

/// The message of these numbers and parts, if they make one.
pub fn whole_message(whole: &Whole, ctl: Option<Bytes>, dat: Option<Bytes>) -> Option<Message>
    ensures { result ≡ wholes.whole_message whole.now ctl dat }
{
    match whole.kind {
        14 => {
            drop(ctl);
            Some(Message {
                kind: MsgKind::MIoctl {
                    id: whole.id,
                    cmd: whole.cmd,
                },
                band: 0,
                ctl: None,
                dat,
            })
        }
        129 => {
            drop(ctl);
            Some(Message::of_ack(whole.id, whole.rval, dat))
        }
        130 => {
            drop(ctl);
            drop(dat);
            Some(Message::of_nak(whole.id, errno_of(whole.error)?))
        }
        kind => {
            let band = band_of(whole.band)?;
            message_of(kind, band, ctl, dat, number_in(whole))
        }
    }
}

/// Whether the data of a kind say what it is, so that they are no part of the message: those of an M_SETOPTS
/// and an M_ERROR.
fn is_told_by_data(kind: u32) -> bool
    ensures { result ≡ wholes.is_told_by_data kind }
{
    kind == 16 || kind == 138
}

/// States a law, and does nothing: a message that is told in numbers and bytes is made of them again, so what
/// a getq gives can be sent on as it is. Its numbers are within those of C, and its low mark is below its
/// high one.
pub fn whole_returns()
    ensures { wholes.WholeReturns }
{}

/// A part with no byte in the place of a part, if it is there.
fn emptied(part: Option<&[u8]>) -> Option<Bytes>
    ensures { result ≡ option_map (λ bytes. []) (option_map (λ bytes. bytes.now) part.entry) }
{
    match part {
        Some(_) => Some(Bytes::empty()),
        None => None,
    }
}

/// The message of these numbers and parts with no byte in its parts, if they make one. Takes no memory.
pub fn emptied_message(whole: &Whole, ctl: Option<&[u8]>, dat: Option<&[u8]>) -> Option<Message>
    ensures { result ≡ option_map (λ m. wholes.emptied m) (wholes.whole_message whole.now
        (option_map (λ bytes. bytes.now) ctl.entry) (option_map (λ bytes. bytes.now) dat.entry)) }
{
    if is_told_by_data(whole.kind) {
        return bare_of(whole.kind, band_of(whole.band)?, dat, number_in(whole));
    }
    whole_message(whole, emptied(ctl), emptied(dat))
}
