//! The requests that the arguments of a call make.
ghost use Rattle.std.specs.Prelude.{◌≡◌, true, [], Ok, IfOk, IfErr};
ghost use Rattle.strm_head_calls.specs.declared.request.Request.TheVariants as Requests;
ghost use Rattle.strm_c_calls.specs.Arguments as asks;
ghost use Rattle.strm_c_calls.specs.OnHandle.{IsMadeOn};

use crate::codes::{get_flag_of, priority_of, put_flag_of, wanted_of};
use crate::handle::Handle;
use crate::judged::{find_refusal, putmsg_refusal, putpmsg_refusal, str_refusal, write_refusal};
use std::alloc::Global;
use strm_c_numbers::{band_of, end_of, mode_of, prot_of, sides_of};
use strm_head_calls::{BoxedParts, Refusal, Request};
use strm_module::{BoxedModule, Instance, Kind, MOST_SPLIT, Plain, Shape};
use strm_msg::{Bytes, NoMem};

/// A request, or the refusal of arguments that make none.
pub type Asked = Result<Request<BoxedModule<Plain>>, Refusal>;

/// The most bytes that the caller asks for: the length of the buffer, up to the greatest `u16`.
fn most_of(has: bool, buffer: &[u8]) -> Option<u16>
    ensures { result ≡ asks.most_of has buffer.now }
{
    if has {
        Some(buffer.len().min(65535) as u16)
    } else {
        None
    }
}

/// A copy of a part, if it is there. Fails only when memory runs out, and never where there is no part.
pub fn part_of(alloc: Global, has: bool, bytes: &[u8]) -> Result<Option<Bytes>, NoMem>
    ensures part { IfOk result (λ part. part ≡ asks.part_argument has bytes.now) }
    ensures nothing { IfErr result (λ _. has ≡ true) }
{
    if has {
        Ok(Some(Bytes::from_slice(alloc, bytes)?))
    } else {
        Ok(None)
    }
}

/// Copies of both parts of a message, each if it is there. Fails only when memory runs out.
fn parts_of(
    alloc: Global,
    has_ctl: bool,
    ctl: &[u8],
    has_dat: bool,
    dat: &[u8],
) -> Result<BoxedParts, NoMem>
    ensures { IfOk result (λ parts. parts ≡ asks.parts_argument has_ctl ctl.now has_dat dat.now) }
{
    let ctl = part_of(alloc, has_ctl, ctl)?;
    let dat = part_of(alloc, has_dat, dat)?;
    BoxedParts::new(alloc, ctl, dat)
}

/// The putmsg of these arguments at an end of an open stream, or the answer in its place. Its parts are
/// copied only where nothing else refuses it.
pub fn putmsg_of(
    alloc: Global,
    s: &mut Handle,
    end: u8,
    has_ctl: bool,
    ctl: &[u8],
    has_dat: bool,
    dat: &[u8],
    flags: u32,
) -> Asked
    requires { s.old.is_open ≡ true }
    ensures open { s.new.is_open ≡ true }
    ensures same { s.new.held ≡ s.old.held }
    ensures made { IsMadeOn s.old end (asks.putmsg_of has_ctl ctl.now has_dat dat.now flags) result }
{
    let Some(flag) = priority_of(flags) else {
        return Err(Refusal::Invalid);
    };
    let Some(end) = end_of(end) else {
        return Err(Refusal::Closed);
    };
    let held = s.take(alloc);
    let refusal = putmsg_refusal(alloc, &held.stream, end, has_ctl, ctl, has_dat, dat, flag);
    s.put(held);
    if let Some(refusal) = refusal {
        return Err(refusal);
    }
    match parts_of(alloc, has_ctl, ctl, has_dat, dat) {
        Ok(parts) => Ok(Request::Putmsg { flag, parts }),
        Err(_) => Err(Refusal::NoMemory),
    }
}

/// The putpmsg of these arguments, as `putmsg_of`.
pub fn putpmsg_of(
    alloc: Global,
    s: &mut Handle,
    end: u8,
    has_ctl: bool,
    ctl: &[u8],
    has_dat: bool,
    dat: &[u8],
    band: u32,
    flags: u32,
) -> Asked
    requires { s.old.is_open ≡ true }
    ensures open { s.new.is_open ≡ true }
    ensures same { s.new.held ≡ s.old.held }
    ensures made { IsMadeOn s.old end (asks.putpmsg_of has_ctl ctl.now has_dat dat.now band flags) result }
{
    let Some(flag) = put_flag_of(flags) else {
        return Err(Refusal::Invalid);
    };
    let Some(band) = band_of(band) else {
        return Err(Refusal::Invalid);
    };
    let Some(end) = end_of(end) else {
        return Err(Refusal::Closed);
    };
    let held = s.take(alloc);
    let stream = &held.stream;
    let refusal = putpmsg_refusal(alloc, stream, end, has_ctl, ctl, has_dat, dat, band, flag);
    s.put(held);
    if let Some(refusal) = refusal {
        return Err(refusal);
    }
    match parts_of(alloc, has_ctl, ctl, has_dat, dat) {
        Ok(parts) => Ok(Request::Putpmsg { band, flag, parts }),
        Err(_) => Err(Refusal::NoMemory),
    }
}

/// The getmsg of these arguments.
pub fn getmsg_of(has_ctl: bool, ctl: &[u8], has_dat: bool, dat: &[u8], flags: u32) -> Asked
    ensures { result ≡ asks.getmsg_of has_ctl ctl.now has_dat dat.now flags }
{
    let Some(flag) = wanted_of(flags) else {
        return Err(Refusal::Invalid);
    };
    Ok(Request::Getmsg {
        maxctl: most_of(has_ctl, ctl),
        maxdat: most_of(has_dat, dat),
        flag,
    })
}

/// The getpmsg of these arguments.
pub fn getpmsg_of(
    has_ctl: bool,
    ctl: &[u8],
    has_dat: bool,
    dat: &[u8],
    band: u32,
    flags: u32,
) -> Asked
    ensures { result ≡ asks.getpmsg_of has_ctl ctl.now has_dat dat.now band flags }
{
    let Some(flag) = get_flag_of(flags) else {
        return Err(Refusal::Invalid);
    };
    let Some(band) = band_of(band) else {
        return Err(Refusal::Invalid);
    };
    Ok(Request::Getpmsg {
        maxctl: most_of(has_ctl, ctl),
        maxdat: most_of(has_dat, dat),
        band,
        flag,
    })
}

/// The peek of these arguments.
pub fn peek_of(has_ctl: bool, ctl: &[u8], has_dat: bool, dat: &[u8], flags: u32) -> Asked
    ensures { result ≡ asks.peek_of has_ctl ctl.now has_dat dat.now flags }
{
    let Some(flag) = wanted_of(flags) else {
        return Err(Refusal::Invalid);
    };
    Ok(Request::Peek {
        maxctl: most_of(has_ctl, ctl),
        maxdat: most_of(has_dat, dat),
        flag,
    })
}

/// The read into this buffer.
pub fn read_of(buffer: &[u8]) -> Asked
    ensures { result ≡ asks.read_of buffer.now }
{
    Ok(Request::Read {
        max: buffer.len().min(65535) as u16,
    })
}

/// The write of these bytes at an end of an open stream, or the answer in its place, as `putmsg_of`.
pub fn write_of(alloc: Global, s: &mut Handle, end: u8, bytes: &[u8]) -> Asked
    requires { s.old.is_open ≡ true }
    ensures open { s.new.is_open ≡ true }
    ensures same { s.new.held ≡ s.old.held }
    ensures made { IsMadeOn s.old end (Ok (Requests.Write bytes.now)) result }
{
    let Some(end) = end_of(end) else {
        return Err(Refusal::Closed);
    };
    let held = s.take(alloc);
    let refusal = write_refusal(alloc, &held.stream, end, bytes);
    s.put(held);
    if let Some(refusal) = refusal {
        return Err(refusal);
    }
    match Bytes::from_slice(alloc, bytes) {
        Ok(dat) => Ok(Request::Write { dat }),
        Err(_) => Err(Refusal::NoMemory),
    }
}

/// The find of this name, as `putmsg_of`.
pub fn find_of(alloc: Global, s: &mut Handle, end: u8, name: &[u8]) -> Asked
    requires { s.old.is_open ≡ true }
    ensures open { s.new.is_open ≡ true }
    ensures same { s.new.held ≡ s.old.held }
    ensures made { IsMadeOn s.old end (Ok (Requests.Find name.now)) result }
{
    let Some(end) = end_of(end) else {
        return Err(Refusal::Closed);
    };
    let held = s.take(alloc);
    let refusal = find_refusal(&held.stream, end, name);
    s.put(held);
    if let Some(refusal) = refusal {
        return Err(refusal);
    }
    match Bytes::from_slice(alloc, name) {
        Ok(name) => Ok(Request::Find { name }),
        Err(_) => Err(Refusal::NoMemory),
    }
}

/// The ioctl of this command and these data, as `putmsg_of`.
pub fn str_of(alloc: Global, s: &mut Handle, end: u8, cmd: u32, has_dat: bool, dat: &[u8]) -> Asked
    requires { s.old.is_open ≡ true }
    ensures open { s.new.is_open ≡ true }
    ensures same { s.new.held ≡ s.old.held }
    ensures made { IsMadeOn s.old end (Ok (asks.ioctl cmd has_dat dat.now)) result }
{
    let Some(end) = end_of(end) else {
        return Err(Refusal::Closed);
    };
    let held = s.take(alloc);
    let refusal = str_refusal(&held.stream, end, cmd, has_dat, dat);
    s.put(held);
    if let Some(refusal) = refusal {
        return Err(refusal);
    }
    match part_of(alloc, has_dat, dat) {
        Ok(dat) => Ok(Request::Str { cmd, dat }),
        Err(_) => Err(Refusal::NoMemory),
    }
}

/// The flush of these sides.
pub fn flush_of(flags: u32) -> Asked
    ensures { result ≡ asks.flush_of flags }
{
    let Some((r, w)) = sides_of(flags) else {
        return Err(Refusal::Invalid);
    };
    Ok(Request::Flush { r, w })
}

/// The flush of one band of these sides.
pub fn flushband_of(band: u8, flags: u32) -> Asked
    ensures { result ≡ asks.flushband_of band flags }
{
    let Some((r, w)) = sides_of(flags) else {
        return Err(Refusal::Invalid);
    };
    Ok(Request::FlushBand { band, r, w })
}

/// The request that sets how reads treat messages.
pub fn setread_of(mode: u32) -> Asked
    ensures { result ≡ asks.setread_of mode }
{
    let prot = prot_of(mode / 4);
    let Some(mode) = mode_of(mode % 4) else {
        return Err(Refusal::Invalid);
    };
    let Some(prot) = prot else {
        return Err(Refusal::Invalid);
    };
    Ok(Request::SetRead { mode, prot })
}

/// The kind of module that changes bytes by a table, if the table has 256 bytes.
fn table_of(table: &[u8]) -> Option<Kind>
    ensures { result ≡ asks.kind_of 1 0 table.now }
{
    let Ok(map) = <[u8; 256]>::try_from(table) else {
        return None;
    };
    Some(Kind::Table { map })
}

/// The kind of module that splits off that many bytes, if there is one.
fn split_of(number: u32) -> Option<Kind>
    ensures { result ≡ asks.kind_of 8 number [] }
{
    if number == 0 || number > u32::from(MOST_SPLIT) {
        return None;
    }
    Some(Kind::Split { n: number as u16 })
}

/// The kind of a number, with its argument: a further number or a table.
pub fn kind_of(alloc: Global, kind: u32, number: u32, table: &[u8]) -> Option<Kind>
    ensures { result ≡ asks.kind_of kind number table.now }
{
    match kind {
        0 => Some(Kind::Pass),
        1 => table_of(table),
        2 => Some(Kind::CrNl),
        3 => Some(Kind::Line {
            partial: Bytes::empty(),
        }),
        4 => Some(Kind::Count { n: 0 }),
        5 => Some(Kind::Band {
            b: band_of(number)?,
        }),
        6 => Some(Kind::Tee),
        7 => Some(Kind::Mute),
        8 => split_of(number),
        _ => None,
    }
}

/// The marks of a side. It has no queue if the high mark is 0.
pub fn marks_of(hi: u32, lo: u32) -> Option<(u32, u32)>
    ensures { result ≡ asks.marks_argument hi lo }
{
    if hi == 0 { None } else { Some((hi, lo)) }
}

/// The shape of a module of this name, these marks and this kind, if there is one. Under noenable its service
/// procedures are the program's.
pub fn shape_of(
    name: &[u8],
    rd: Option<(u32, u32)>,
    wr: Option<(u32, u32)>,
    kind: Option<Kind>,
    noenable: Option<bool>,
) -> Option<Shape<Kind>>
    ensures { result ≡ asks.shape_of name.now rd wr kind noenable }
{
    let kind = kind?;
    let noenable = noenable?;
    match Shape::new(0, name, rd, wr, kind) {
        Ok(shape) if noenable => Some(shape.noenabled()),
        Ok(shape) => Some(shape),
        Err(_) => None,
    }
}

/// The push of a module of this shape, if there is one, as `putmsg_of`.
pub fn push_of(alloc: Global, s: &mut Handle, end: u8, shape: Option<Shape<Kind>>) -> Asked
    requires { s.old.is_open ≡ true }
    ensures open { s.new.is_open ≡ true }
    ensures same { s.new.held ≡ s.old.held }
    ensures made { IsMadeOn s.old end (asks.push_of shape) result }
{
    let Some(shape) = shape else {
        return Err(Refusal::Invalid);
    };
    let Some(end) = end_of(end) else {
        return Err(Refusal::Closed);
    };
    let held = s.take(alloc);
    let refusal = held.stream.push_refusal(end, &shape);
    s.put(held);
    if let Some(refusal) = refusal {
        return Err(refusal);
    }
    match BoxedModule::new(alloc, Instance::new(shape, Plain)) {
        Ok(instance) => Ok(Request::Push { instance }),
        Err(_) => Err(Refusal::NoMemory),
    }
}
