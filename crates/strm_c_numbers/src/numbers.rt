//! Errors, kinds of message, sides, modes and lengths as numbers of C.
ghost use Rattle.std.specs.Prelude.{◌≡◌, ◌≤◌, pos};
ghost use Rattle.strm_c_numbers.specs.Numbers as numbers;
ghost use Rattle.strm_c_numbers.specs.Messages as messages;

use strm_msg::{End, Errno, MsgKind, Prot, ReadMode, Side};

/// The number of an errno (errno.h on Linux).
pub fn errno_number(errno: Errno) -> u32
    ensures value { result ≡ numbers.errno_number errno }
    ensures most { result ≤ 74 }
{
    match errno {
        Errno::EBADF => 9,
        Errno::ENOSR => 63,
        Errno::EINVAL => 22,
        Errno::ERANGE => 34,
        Errno::ENXIO => 6,
        Errno::EBADMSG => 74,
        Errno::ENODATA => 61,
        Errno::EAGAIN => 11,
        Errno::ETIME => 62,
        Errno::EIO => 5,
        Errno::EPROTO => 71,
    }
}

/// The same number, as calls return it.
pub fn number_of(errno: Errno) -> i32
    ensures { result ≡ pos (numbers.errno_number errno) }
{
    errno_number(errno) as i32
}

/// The errno of a number, if it is one of `Errno`.
pub fn errno_of(number: u32) -> Option<Errno>
    ensures { result ≡ messages.errno_of number }
{
    match number {
        9 => Some(Errno::EBADF),
        63 => Some(Errno::ENOSR),
        22 => Some(Errno::EINVAL),
        34 => Some(Errno::ERANGE),
        6 => Some(Errno::ENXIO),
        74 => Some(Errno::EBADMSG),
        61 => Some(Errno::ENODATA),
        11 => Some(Errno::EAGAIN),
        62 => Some(Errno::ETIME),
        5 => Some(Errno::EIO),
        71 => Some(Errno::EPROTO),
        _ => None,
    }
}

/// The number of a kind of message (sys/stream.h).
pub fn kind_number(kind: MsgKind) -> u32
    ensures { result ≡ numbers.kind_number kind }
{
    match kind {
        MsgKind::MData => 0,
        MsgKind::MProto => 1,
        MsgKind::MIoctl { .. } => 14,
        MsgKind::MSetopts { .. } => 16,
        MsgKind::MIocack { .. } => 129,
        MsgKind::MIocnak { .. } => 130,
        MsgKind::MPcproto => 131,
        MsgKind::MFlush { .. } => 134,
        MsgKind::MHangup => 137,
        MsgKind::MError { .. } => 138,
    }
}

/// The end of a number, if it is one.
pub fn end_of(end: u8) -> Option<End>
    ensures { result ≡ numbers.end_of end }
{
    match end {
        0 => Some(End::A),
        1 => Some(End::B),
        _ => None,
    }
}

/// The side of a number, if it is one.
pub fn side_of(side: u32) -> Option<Side>
    ensures { result ≡ numbers.side_of side }
{
    match side {
        0 => Some(Side::Rd),
        1 => Some(Side::Wr),
        _ => None,
    }
}

/// The band of a number, if it is one.
pub fn band_of(band: u32) -> Option<u8>
    ensures { result ≡ numbers.band_of band }
{
    if band <= 255 { Some(band as u8) } else { None }
}

/// The sides that the flags of a flush name, the read side first.
pub fn sides_of(flags: u32) -> Option<(bool, bool)>
    ensures { result ≡ numbers.sides_of flags }
{
    match flags {
        0 => Some((false, false)),
        1 => Some((true, false)),
        2 => Some((false, true)),
        3 => Some((true, true)),
        _ => None,
    }
}

/// The treatment of message bounds by reads, by the lowest two bits of a mode.
pub fn mode_of(n: u32) -> Option<ReadMode>
    ensures { result ≡ numbers.mode_of n }
{
    match n {
        0 => Some(ReadMode::Rnorm),
        1 => Some(ReadMode::Rmsgd),
        2 => Some(ReadMode::Rmsgn),
        _ => None,
    }
}

/// The treatment of control by reads, by the bits above the lowest two of a mode.
pub fn prot_of(n: u32) -> Option<Prot>
    ensures { result ≡ numbers.prot_of n }
{
    match n {
        0 => Some(Prot::Norm),
        1 => Some(Prot::Dat),
        2 => Some(Prot::Dis),
        4 => Some(Prot::Norm),
        _ => None,
    }
}

/// The lowest two bits of a mode.
fn mode_number(mode: ReadMode) -> u64
    ensures value { result ≡ numbers.mode_number mode }
    ensures most { result ≤ 2 }
{
    match mode {
        ReadMode::Rnorm => 0,
        ReadMode::Rmsgd => 1,
        ReadMode::Rmsgn => 2,
    }
}

/// The number of both.
pub fn read_number(mode: ReadMode, prot: Prot) -> u64
    ensures { result ≡ numbers.read_number mode prot }
{
    let low = mode_number(mode);
    match prot {
        Prot::Norm => low + 16,
        Prot::Dat => low + 4,
        Prot::Dis => low + 8,
    }
}

/// A number as an `int`; the greatest `int` if it is greater.
pub fn int_of(n: u64) -> i32
    ensures { result ≡ numbers.int_of n }
{
    n.min(2147483647) as i32
}
