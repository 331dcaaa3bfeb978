//! The calls on a stream, for programs in C: `include/strm.h` declares them in the shape of `stropts.h`.
//!
//! A call returns 0 or the number of an errno. It takes the stream out of its handle, makes one step of it,
//! and puts it back. The caller's bytes are copied only where nothing else refuses the call. The parts of a
//! reply are written where the caller has room for them, and nothing beyond.
#![tactic(auto)]

ghost use Rattle.std.specs.Prelude.{◌≡◌, pos, true, false, [], None, Ok};
ghost use Rattle.strm_c_numbers.specs.Numbers.{end_of};
ghost use Rattle.strm_c_calls.specs.Codes.{driver_of, returned_flags};
ghost use Rattle.strm_c_calls.specs.Arguments as asks;
ghost use Rattle.strm_c_calls.specs.Returned.{HasTaken, IsValue, AreValues, IsNamed, Nothing};
ghost use Rattle.strm_c_calls.specs.OnHandle.{ArrivesOn, CallsOn, CopiesAndCallsOn, OpensOn};
ghost use Rattle.strm_c_calls.specs.Polls.{polled_at};
ghost use Rattle.strm_head_calls.specs.declared.service.ServiceCall.TheVariants as ServiceCall;
ghost use Rattle.strm_c_service.specs.Service as service;
ghost use Rattle.strm_c_service.specs.declared.sending.Sending.TheVariants as Sending;
ghost use Rattle.strm_c_service.specs.Taking.{TakesWholeOn, TellsNextOn, room_of};
ghost use Rattle.strm_c_service.specs.Written.{HasMessage, IsId};

use std::alloc::Global;
pub use strm_c_calls::{Handle, Returned};
use strm_c_calls::{
    arrive, call, call_for_name, call_for_value, call_for_values, call_taking, driver_of, find_of,
    flush_of, flushband_of, free_stream, getmsg_of, getpmsg_of, kind_of, marks_of, noenable_of,
    open_stream, peek_of, poll, push_of, putmsg_of, putpmsg_of, read_of, setread_of, shape_of,
    str_of, write_of,
};
pub use strm_c_numbers::Whole;
use strm_c_service::{Sending, getq, next, send, service_of, strget, strput, take};
use strm_head_calls::{Request, ServiceCall};

/// Opens a stream into a closed handle.
#[unsafe(no_mangle)]
pub extern "C" fn strm_open(
    alloc: Global,
    s: &mut Handle,
    driver: u32,
    head_hi: u32,
    head_lo: u32,
    drv_hi: u32,
    drv_lo: u32,
) -> i32
    requires { s.old.is_open ≡ false }
    ensures { OpensOn s.old (driver_of driver) (head_hi, head_lo) (drv_hi, drv_lo) result s.new }
{
    let driver = driver_of(driver);
    open_stream(alloc, s, driver, (head_hi, head_lo), (drv_hi, drv_lo))
}

/// Frees the stream of an open handle with all that it holds, and closes the handle.
#[unsafe(no_mangle)]
pub extern "C" fn strm_free(alloc: Global, s: &mut Handle)
    requires { s.old.is_open ≡ true }
    ensures { s.new.is_open ≡ false }
{
    free_stream(alloc, s);
}

/// Sends a message (putmsg(2)).
#[unsafe(no_mangle)]
pub extern "C" fn strm_putmsg_parts(
    alloc: Global,
    s: &mut Handle,
    end: u8,
    has_ctl: bool,
    ctl: &[u8],
    has_dat: bool,
    dat: &[u8],
    flags: u32,
) -> i32
    requires { s.old.is_open ≡ true }
    ensures open { s.new.is_open ≡ true }
    ensures call { CallsOn s.old end (asks.putmsg_of has_ctl ctl.now has_dat dat.now flags) Nothing result s.new }
{
    let asked = putmsg_of(alloc, s, end, has_ctl, ctl, has_dat, dat, flags);
    call(alloc, s, end, asked)
}

/// Sends a message in a band (putpmsg(2)).
#[unsafe(no_mangle)]
pub extern "C" fn strm_putpmsg_parts(
    alloc: Global,
    s: &mut Handle,
    end: u8,
    has_ctl: bool,
    ctl: &[u8],
    has_dat: bool,
    dat: &[u8],
    band: u32,
    flags: u32,
) -> i32
    requires { s.old.is_open ≡ true }
    ensures open { s.new.is_open ≡ true }
    ensures call { CallsOn s.old end (asks.putpmsg_of has_ctl ctl.now has_dat dat.now band flags)
        Nothing result s.new }
{
    let asked = putpmsg_of(alloc, s, end, has_ctl, ctl, has_dat, dat, band, flags);
    call(alloc, s, end, asked)
}

/// Takes the first message, or a part of it (getmsg(2)).
#[unsafe(no_mangle)]
pub extern "C" fn strm_getmsg_parts(
    alloc: Global,
    s: &mut Handle,
    end: u8,
    has_ctl: bool,
    ctl: &mut [u8],
    has_dat: bool,
    dat: &mut [u8],
    flags: u32,
    got: &mut Returned,
) -> i32
    requires { s.old.is_open ≡ true }
    ensures open { s.new.is_open ≡ true }
    ensures call { CallsOn s.old end (asks.getmsg_of has_ctl ctl.old has_dat dat.old flags)
        (HasTaken ctl.old dat.old got.old ctl.new dat.new got.new) result s.new }
{
    let asked = getmsg_of(has_ctl, ctl, has_dat, dat, flags);
    call_taking(alloc, s, end, asked, ctl, dat, got)
}

/// Takes the first message, or a part of it, if it has the band or priority that the call asks for
/// (getpmsg(2)).
#[unsafe(no_mangle)]
pub extern "C" fn strm_getpmsg_parts(
    alloc: Global,
    s: &mut Handle,
    end: u8,
    has_ctl: bool,
    ctl: &mut [u8],
    has_dat: bool,
    dat: &mut [u8],
    band: u32,
    flags: u32,
    got: &mut Returned,
) -> i32
    requires { s.old.is_open ≡ true }
    ensures open { s.new.is_open ≡ true }
    ensures call { CallsOn s.old end (asks.getpmsg_of has_ctl ctl.old has_dat dat.old band flags)
        (HasTaken ctl.old dat.old got.old ctl.new dat.new got.new) result s.new }
{
    let asked = getpmsg_of(has_ctl, ctl, has_dat, dat, band, flags);
    call_taking(alloc, s, end, asked, ctl, dat, got)
}

/// Shows the first message, and leaves it there (I_PEEK).
#[unsafe(no_mangle)]
pub extern "C" fn strm_peek_parts(
    alloc: Global,
    s: &mut Handle,
    end: u8,
    has_ctl: bool,
    ctl: &mut [u8],
    has_dat: bool,
    dat: &mut [u8],
    flags: u32,
    got: &mut Returned,
) -> i32
    requires { s.old.is_open ≡ true }
    ensures open { s.new.is_open ≡ true }
    ensures call { CallsOn s.old end (asks.peek_of has_ctl ctl.old has_dat dat.old flags)
        (HasTaken ctl.old dat.old got.old ctl.new dat.new got.new) result s.new }
{
    let asked = peek_of(has_ctl, ctl, has_dat, dat, flags);
    call_taking(alloc, s, end, asked, ctl, dat, got)
}

/// Reads bytes (read(2)).
#[unsafe(no_mangle)]
pub extern "C" fn strm_read_bytes(
    alloc: Global,
    s: &mut Handle,
    end: u8,
    bytes: &mut [u8],
    got: &mut Returned,
) -> i32
    requires { s.old.is_open ≡ true }
    ensures open { s.new.is_open ≡ true }
    ensures call { CallsOn s.old end (asks.read_of bytes.old)
        (HasTaken [] bytes.old got.old [] bytes.new got.new) result s.new }
{
    let asked = read_of(bytes);
    call_taking(alloc, s, end, asked, &mut [], bytes, got)
}

/// Sends bytes as one message (write(2)), and returns their number.
#[unsafe(no_mangle)]
pub extern "C" fn strm_write_bytes(
    alloc: Global,
    s: &mut Handle,
    end: u8,
    bytes: &[u8],
    written: &mut i32,
) -> i32
    requires { s.old.is_open ≡ true }
    ensures open { s.new.is_open ≡ true }
    ensures call { CallsOn s.old end (Ok (Request.Write bytes.now)) (IsValue written.old written.new) result s.new }
{
    let asked = write_of(alloc, s, end, bytes);
    call_for_value(alloc, s, end, asked, written)
}

/// Puts a module in just below the head (I_PUSH): one of the built-in kinds, by its number, with its
/// argument, a further number or a table. A side has a queue if its high mark is not 0. By its flags its
/// service procedures are the program's (noenable(9F)).
#[unsafe(no_mangle)]
pub extern "C" fn strm_push_kind(
    alloc: Global,
    s: &mut Handle,
    end: u8,
    name: &[u8],
    kind: u32,
    rd_hi: u32,
    rd_lo: u32,
    wr_hi: u32,
    wr_lo: u32,
    number: u32,
    table: &[u8],
    flags: u32,
) -> i32
    requires { s.old.is_open ≡ true }
    ensures open { s.new.is_open ≡ true }
    ensures call { CopiesAndCallsOn s.old end
        (asks.push_kind_of name.now kind rd_hi rd_lo wr_hi wr_lo number table.now flags) Nothing result s.new }
{
    let rd = marks_of(rd_hi, rd_lo);
    let wr = marks_of(wr_hi, wr_lo);
    let kind = kind_of(alloc, kind, number, table);
    let shape = shape_of(name, rd, wr, kind, noenable_of(flags));
    let asked = push_of(alloc, s, end, shape);
    call(alloc, s, end, asked)
}

/// Takes the topmost module out, and drops the messages in its queues (I_POP).
#[unsafe(no_mangle)]
pub extern "C" fn strm_pop(alloc: Global, s: &mut Handle, end: u8) -> i32
    requires { s.old.is_open ≡ true }
    ensures open { s.new.is_open ≡ true }
    ensures call { CallsOn s.old end (Ok Request.Pop) Nothing result s.new }
{
    call(alloc, s, end, Ok(Request::Pop))
}

/// Returns the name of the topmost module (I_LOOK), with zeros behind it up to nine bytes.
#[unsafe(no_mangle)]
pub extern "C" fn strm_look_name(
    alloc: Global,
    s: &mut Handle,
    end: u8,
    name: &mut [u8],
    count: &mut i32,
) -> i32
    requires { s.old.is_open ≡ true }
    ensures open { s.new.is_open ≡ true }
    ensures call { CallsOn s.old end (Ok Request.Look)
        (IsNamed 0 name.old count.old name.new count.new) result s.new }
{
    call_for_name(alloc, s, end, Ok(Request::Look), 0, name, count)
}

/// Returns the number of the modules with the driver, and the name of one of them, counted from 0 for the
/// topmost (I_LIST).
#[unsafe(no_mangle)]
pub extern "C" fn strm_list_name(
    alloc: Global,
    s: &mut Handle,
    end: u8,
    i: u32,
    name: &mut [u8],
    count: &mut i32,
) -> i32
    requires { s.old.is_open ≡ true }
    ensures open { s.new.is_open ≡ true }
    ensures call { CallsOn s.old end (Ok Request.List)
        (IsNamed i name.old count.old name.new count.new) result s.new }
{
    call_for_name(alloc, s, end, Ok(Request::List), i, name, count)
}

/// Returns whether there is a module of a name (I_FIND).
#[unsafe(no_mangle)]
pub extern "C" fn strm_find_name(
    alloc: Global,
    s: &mut Handle,
    end: u8,
    name: &[u8],
    found: &mut i32,
) -> i32
    requires { s.old.is_open ≡ true }
    ensures open { s.new.is_open ≡ true }
    ensures call { CopiesAndCallsOn s.old end (Ok (Request.Find name.now))
        (IsValue found.old found.new) result s.new }
{
    let asked = find_of(alloc, s, end, name);
    call_for_value(alloc, s, end, asked, found)
}

/// Sends an ioctl down with the data at the front of a buffer, and writes the data of its answer there
/// (I_STR).
#[unsafe(no_mangle)]
pub extern "C" fn strm_str_bytes(
    alloc: Global,
    s: &mut Handle,
    end: u8,
    cmd: u32,
    has_dat: bool,
    dat: &mut [u8],
    got: &mut Returned,
) -> i32
    requires { s.old.is_open ≡ true }
    ensures open { s.new.is_open ≡ true }
    ensures call { CallsOn s.old end (Ok (asks.ioctl cmd has_dat dat.old))
        (HasTaken [] dat.old got.old [] dat.new got.new) result s.new }
{
    let asked = str_of(alloc, s, end, cmd, has_dat, dat);
    call_taking(alloc, s, end, asked, &mut [], dat, got)
}

/// Sends a flush of all bands down (I_FLUSH).
#[unsafe(no_mangle)]
pub extern "C" fn strm_flush(alloc: Global, s: &mut Handle, end: u8, flags: u32) -> i32
    requires { s.old.is_open ≡ true }
    ensures open { s.new.is_open ≡ true }
    ensures call { CallsOn s.old end (asks.flush_of flags) Nothing result s.new }
{
    let asked = flush_of(flags);
    call(alloc, s, end, asked)
}

/// Sends a flush of one band down (I_FLUSHBAND).
#[unsafe(no_mangle)]
pub extern "C" fn strm_flushband_flags(
    alloc: Global,
    s: &mut Handle,
    end: u8,
    band: u8,
    flags: u32,
) -> i32
    requires { s.old.is_open ≡ true }
    ensures open { s.new.is_open ≡ true }
    ensures call { CallsOn s.old end (asks.flushband_of band flags) Nothing result s.new }
{
    let asked = flushband_of(band, flags);
    call(alloc, s, end, asked)
}

/// Returns the number of messages that wait, and the number of data bytes of the first (I_NREAD).
#[unsafe(no_mangle)]
pub extern "C" fn strm_nread(
    alloc: Global,
    s: &mut Handle,
    end: u8,
    bytes: &mut i32,
    messages: &mut i32,
) -> i32
    requires { s.old.is_open ≡ true }
    ensures open { s.new.is_open ≡ true }
    ensures call { CallsOn s.old end (Ok Request.Nread)
        (AreValues messages.old bytes.old messages.new bytes.new) result s.new }
{
    call_for_values(alloc, s, end, Ok(Request::Nread), messages, bytes)
}

/// Returns whether an ordinary message of a band waits (I_CKBAND).
#[unsafe(no_mangle)]
pub extern "C" fn strm_ckband(
    alloc: Global,
    s: &mut Handle,
    end: u8,
    band: u8,
    waits: &mut i32,
) -> i32
    requires { s.old.is_open ≡ true }
    ensures open { s.new.is_open ≡ true }
    ensures call { CallsOn s.old end (Ok (Request.Ckband band)) (IsValue waits.old waits.new) result s.new }
{
    call_for_value(alloc, s, end, Ok(Request::Ckband { band }), waits)
}

/// Returns the band of the first message, 0 for a high one (I_GETBAND).
#[unsafe(no_mangle)]
pub extern "C" fn strm_getband(alloc: Global, s: &mut Handle, end: u8, band: &mut i32) -> i32
    requires { s.old.is_open ≡ true }
    ensures open { s.new.is_open ≡ true }
    ensures call { CallsOn s.old end (Ok Request.Getband) (IsValue band.old band.new) result s.new }
{
    call_for_value(alloc, s, end, Ok(Request::Getband), band)
}

/// Returns whether an ordinary message of a band could be sent (I_CANPUT).
#[unsafe(no_mangle)]
pub extern "C" fn strm_canput(
    alloc: Global,
    s: &mut Handle,
    end: u8,
    band: u8,
    can: &mut i32,
) -> i32
    requires { s.old.is_open ≡ true }
    ensures open { s.new.is_open ≡ true }
    ensures call { CallsOn s.old end (Ok (Request.Canput band)) (IsValue can.old can.new) result s.new }
{
    call_for_value(alloc, s, end, Ok(Request::Canput { band }), can)
}

/// Sets how reads treat messages (I_SRDOPT).
#[unsafe(no_mangle)]
pub extern "C" fn strm_setread(alloc: Global, s: &mut Handle, end: u8, mode: u32) -> i32
    requires { s.old.is_open ≡ true }
    ensures open { s.new.is_open ≡ true }
    ensures call { CallsOn s.old end (asks.setread_of mode) Nothing result s.new }
{
    let asked = setread_of(mode);
    call(alloc, s, end, asked)
}

/// Returns how reads treat messages (I_GRDOPT).
#[unsafe(no_mangle)]
pub extern "C" fn strm_getread(alloc: Global, s: &mut Handle, end: u8, mode: &mut i32) -> i32
    requires { s.old.is_open ≡ true }
    ensures open { s.new.is_open ≡ true }
    ensures call { CallsOn s.old end (Ok Request.GetRead) (IsValue mode.old mode.new) result s.new }
{
    call_for_value(alloc, s, end, Ok(Request::GetRead), mode)
}

/// Lets ticks pass for the modules of an end (timeout(9F)).
#[unsafe(no_mangle)]
pub extern "C" fn strm_tick(alloc: Global, s: &mut Handle, end: u8, ticks: u32) -> i32
    requires { s.old.is_open ≡ true }
    ensures open { s.new.is_open ≡ true }
    ensures call { CallsOn s.old end (Ok (Request.Tick ticks)) Nothing result s.new }
{
    call(alloc, s, end, Ok(Request::Tick { ticks }))
}

/// Hands a message in from a line or a wire.
#[unsafe(no_mangle)]
pub extern "C" fn strm_arrive_parts(
    alloc: Global,
    s: &mut Handle,
    kind: u32,
    band: u8,
    has_ctl: bool,
    ctl: &[u8],
    has_dat: bool,
    dat: &[u8],
    number: u32,
) -> i32
    requires { s.old.is_open ≡ true }
    ensures open { s.new.is_open ≡ true }
    ensures lands { ArrivesOn s.old kind band has_ctl ctl.now has_dat dat.now number result s.new }
{
    arrive(alloc, s, kind, band, has_ctl, ctl, has_dat, dat, number)
}

/// Takes the first message that was sent down to a wire, whole or not at all. From a closed wire whose
/// messages were all taken, it takes a hangup.
#[unsafe(no_mangle)]
pub extern "C" fn strm_take_parts(
    alloc: Global,
    s: &mut Handle,
    end: u8,
    has_ctl: bool,
    ctl: &mut [u8],
    has_dat: bool,
    dat: &mut [u8],
    got: &mut Whole,
) -> i32
    requires { s.old.is_open ≡ true }
    ensures open { s.new.is_open ≡ true }
    ensures takes { TakesWholeOn s.old end (Ok Request.Take) (room_of has_ctl ctl.old) (room_of has_dat dat.old)
        (HasMessage ctl.old dat.old got.old ctl.new dat.new got.new) result s.new }
{
    take(alloc, s, end, has_ctl, ctl, has_dat, dat, got)
}

/// Describes the message that a take would return, and leaves it there.
#[unsafe(no_mangle)]
pub extern "C" fn strm_next_lengths(alloc: Global, s: &mut Handle, end: u8, got: &mut Whole) -> i32
    requires { s.old.is_open ≡ true }
    ensures open { s.new.is_open ≡ true }
    ensures next { TellsNextOn s.old end got.old got.new result s.new }
{
    next(alloc, s, end, got)
}

/// Takes the first message of a queue that the program serves, whole or not at all (getq(9F)).
#[unsafe(no_mangle)]
pub extern "C" fn strm_getq_parts(
    alloc: Global,
    s: &mut Handle,
    end: u8,
    name: &[u8],
    side: u32,
    flags: u32,
    has_ctl: bool,
    ctl: &mut [u8],
    has_dat: bool,
    dat: &mut [u8],
    got: &mut Whole,
) -> i32
    requires { s.old.is_open ≡ true }
    ensures open { s.new.is_open ≡ true }
    ensures takes { TakesWholeOn s.old end (service.getq_of name.now side flags)
        (room_of has_ctl ctl.old) (room_of has_dat dat.old)
        (HasMessage ctl.old dat.old got.old ctl.new dat.new got.new) result s.new }
{
    getq(
        alloc, s, end, name, side, flags, has_ctl, ctl, has_dat, dat, got,
    )
}

/// Puts a message back into a queue that the program serves, before those of its rank (putbq(9F)).
#[unsafe(no_mangle)]
pub extern "C" fn strm_putbq_parts(
    alloc: Global,
    s: &mut Handle,
    end: u8,
    name: &[u8],
    side: u32,
    whole: &Whole,
    has_ctl: bool,
    ctl: &[u8],
    has_dat: bool,
    dat: &[u8],
) -> i32
    requires { s.old.is_open ≡ true }
    ensures open { s.new.is_open ≡ true }
    ensures call { CallsOn s.old end
        (service.sent_of Sending.Back name.now side whole.now has_ctl ctl.now has_dat dat.now) Nothing result s.new }
{
    let sending = Sending::Back;
    send(
        alloc, s, end, sending, name, side, whole, has_ctl, ctl, has_dat, dat,
    )
}

/// Sends a message on from a module that the program serves, past a side (putnext(9F)).
#[unsafe(no_mangle)]
pub extern "C" fn strm_putnext_parts(
    alloc: Global,
    s: &mut Handle,
    end: u8,
    name: &[u8],
    side: u32,
    whole: &Whole,
    has_ctl: bool,
    ctl: &[u8],
    has_dat: bool,
    dat: &[u8],
) -> i32
    requires { s.old.is_open ≡ true }
    ensures open { s.new.is_open ≡ true }
    ensures call { CallsOn s.old end
        (service.sent_of Sending.On name.now side whole.now has_ctl ctl.now has_dat dat.now) Nothing result s.new }
{
    let sending = Sending::On;
    send(
        alloc, s, end, sending, name, side, whole, has_ctl, ctl, has_dat, dat,
    )
}

/// Returns whether an ordinary message of a band could be sent on from a module that the program serves
/// (bcanputnext(9F)).
#[unsafe(no_mangle)]
pub extern "C" fn strm_bcanputnext_name(
    alloc: Global,
    s: &mut Handle,
    end: u8,
    name: &[u8],
    side: u32,
    band: u8,
    can: &mut i32,
) -> i32
    requires { s.old.is_open ≡ true }
    ensures open { s.new.is_open ≡ true }
    ensures call { CallsOn s.old end (service.service_of name.now side (ServiceCall.Bcanputnext band))
        (IsValue can.old can.new) result s.new }
{
    let asked = service_of(name, side, ServiceCall::Bcanputnext { band });
    call_for_value(alloc, s, end, asked, can)
}

/// Returns the number of messages in a queue that the program serves (qsize(9F)).
#[unsafe(no_mangle)]
pub extern "C" fn strm_qsize_name(
    alloc: Global,
    s: &mut Handle,
    end: u8,
    name: &[u8],
    side: u32,
    messages: &mut i32,
) -> i32
    requires { s.old.is_open ≡ true }
    ensures open { s.new.is_open ≡ true }
    ensures call { CallsOn s.old end (service.service_of name.now side ServiceCall.Qsize)
        (IsValue messages.old messages.new) result s.new }
{
    let asked = service_of(name, side, ServiceCall::Qsize);
    call_for_value(alloc, s, end, asked, messages)
}

/// Sends an ioctl down whose answer is asked for later, and returns its id.
#[unsafe(no_mangle)]
pub extern "C" fn strm_strput_bytes(
    alloc: Global,
    s: &mut Handle,
    end: u8,
    cmd: u32,
    has_dat: bool,
    dat: &[u8],
    id: &mut u64,
) -> i32
    requires { s.old.is_open ≡ true }
    ensures open { s.new.is_open ≡ true }
    ensures call { CallsOn s.old end (service.strput_of cmd has_dat dat.now)
        (IsId id.old id.new) result s.new }
{
    strput(alloc, s, end, cmd, has_dat, dat, id)
}

/// Takes the answer to an ioctl that is asked for later, whole or not at all.
#[unsafe(no_mangle)]
pub extern "C" fn strm_strget_bytes(
    alloc: Global,
    s: &mut Handle,
    end: u8,
    drops: bool,
    has_dat: bool,
    dat: &mut [u8],
    got: &mut Returned,
) -> i32
    requires { s.old.is_open ≡ true }
    ensures open { s.new.is_open ≡ true }
    ensures takes { TakesWholeOn s.old end (Ok (Request.Strget drops)) None (room_of has_dat dat.old)
        (HasTaken [] dat.old got.old [] dat.new got.new) result s.new }
{
    strget(alloc, s, end, drops, has_dat, dat, got)
}

/// Returns the conditions that hold of an end: those of `events`, and POLLERR, POLLHUP and POLLNVAL
/// (poll(2)).
#[unsafe(no_mangle)]
pub extern "C" fn strm_poll(
    alloc: Global,
    s: &mut Handle,
    end: u8,
    events: u32,
    revents: &mut u32,
) -> i32
    requires { s.old.is_open ≡ true }
    ensures open { s.new.is_open ≡ true }
    ensures same { s.new.held.stream ≡ s.old.held.stream }
    ensures done { result ≡ pos 0 }
    ensures told { revents.new ≡ returned_flags events (polled_at s.old.held.stream (end_of end)) }
{
    poll(alloc, s, end, events, revents)
}

/// Closes an end (close(2)). The handle stays open.
#[unsafe(no_mangle)]
pub extern "C" fn strm_close(alloc: Global, s: &mut Handle, end: u8) -> i32
    requires { s.old.is_open ≡ true }
    ensures open { s.new.is_open ≡ true }
    ensures call { CallsOn s.old end (Ok Request.Close) Nothing result s.new }
{
    call(alloc, s, end, Ok(Request::Close))
}
