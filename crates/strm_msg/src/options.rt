//! Requests that an ioctl makes of a driver: settings for the stream head.
ghost use Rattle.std.specs.Prelude.{◌≡◌, ◌+◌, ◌<◌, ◌≤◌, length};
ghost use Rattle.strm_msg.specs.Options.{mode_of, prot_of, number_at, marks_in, options_in, options_asked};

use crate::bytes::Bytes;
use crate::kind::MsgKind;
use crate::marks::Marks;
use crate::words::{Prot, ReadMode};

/// The command of the ioctl that asks an echo to send options up: those that its data name. It is this
/// project's own.
pub const SETOPTS: u32 = 16;

/// The read mode that a byte stands for, where 0 keeps the one that is set.
fn mode_of(byte: u8) -> Option<Option<ReadMode>>
    ensures { result ≡ mode_of byte }
{
    match byte {
        0 => Some(None),
        1 => Some(Some(ReadMode::Rnorm)),
        2 => Some(Some(ReadMode::Rmsgn)),
        3 => Some(Some(ReadMode::Rmsgd)),
        _ => None,
    }
}

/// The treatment of control parts that a byte stands for, where 0 keeps the one that is set.
fn prot_of(byte: u8) -> Option<Option<Prot>>
    ensures { result ≡ prot_of byte }
{
    match byte {
        0 => Some(None),
        1 => Some(Some(Prot::Norm)),
        2 => Some(Some(Prot::Dat)),
        3 => Some(Some(Prot::Dis)),
        _ => None,
    }
}

/// Four bytes as a number, greatest first.
fn number_at(bytes: &[u8], i: usize) -> u32
    requires { i + 4 ≤ length bytes.now }
    ensures { result ≡ number_at bytes.now i }
{
    u32::from_be_bytes([bytes[i], bytes[i + 1], bytes[i + 2], bytes[i + 3]])
}

/// The water marks that are asked for, if any are: the third byte says whether they follow.
fn marks_in(bytes: &[u8]) -> Option<Option<(u32, u32)>>
    requires { 3 ≤ length bytes.now }
    ensures { result ≡ marks_in bytes.now }
{
    match (bytes[2], bytes.len()) {
        (0, 3) => Some(None),
        (1, 11) => {
            let Marks { hi, lo } = Marks::new(number_at(bytes, 3), number_at(bytes, 7))?;
            Some(Some((hi, lo)))
        }
        _ => None,
    }
}

/// The `MSetopts` that bytes ask for, if they are such a request. Takes no memory.
///
/// The format is this project's own. Byte 0 is the read mode: 0 keeps it, and 1, 2 and 3 are `Rnorm`, `Rmsgn`
/// and `Rmsgd`. Byte 1 is the treatment of control parts: 0 keeps it, and 1, 2 and 3 are `Norm`, `Dat` and
/// `Dis`. Byte 2 is 0 where no marks follow, and then it is the last byte. Where it is 1, the high water mark
/// follows and then the low one, each in four bytes, greatest first. The low mark is below the high one.
pub fn options_in(bytes: &[u8]) -> Option<MsgKind>
    ensures { result ≡ options_in bytes.now }
{
    if bytes.len() < 3 {
        return None;
    }
    let mode = mode_of(bytes[0])?;
    let prot = prot_of(bytes[1])?;
    let marks = marks_in(bytes)?;
    Some(MsgKind::MSetopts { mode, prot, marks })
}

/// The `MSetopts` that the data of an ioctl ask for, if they are such a request, as `options_in`.
pub fn options_asked(dat: &Option<Bytes>) -> Option<MsgKind>
    ensures { result ≡ options_asked dat.now }
{
    match dat {
        Some(bytes) => options_in(bytes.as_slice()),
        None => None,
    }
}
