//! Answers, drivers, flags and the reports of a poll as numbers of C.
ghost use Rattle.std.specs.Prelude.{◌≡◌, ◌≤◌, pos};
ghost use Rattle.strm_c_calls.specs.Codes as codes;

use strm_c_numbers::number_of;
use strm_head::Driver;
use strm_head_calls::{
    Acknowledged, Answer, GetFlag, More, Polled, Priority, PutFlag, Reply, Wanted,
};

/// The code of a call that was done: 0, or the errno of an ioctl that was not carried out.
fn reply_code(reply: &Reply) -> i32
    ensures { result ≡ pos (codes.reply_code reply.now) }
{
    match reply {
        Reply::Str { answer } => match answer {
            Acknowledged::Ack { .. } => 0,
            Acknowledged::Nak { errno } => number_of(*errno),
            Acknowledged::Timeout => 62,
        },
        _ => 0,
    }
}

/// The code of an answer: 0, or the number of an errno.
pub fn code_of(answer: &Answer) -> i32
    ensures { result ≡ pos (codes.code_of answer.now) }
{
    match answer {
        Answer::Done(reply) => reply_code(reply),
        Answer::Refused(refusal) => number_of(refusal.errno()),
        Answer::Broke => 63,
    }
}

/// The driver of a number, if it is one.
pub fn driver_of(driver: u32) -> Option<Driver>
    ensures { result ≡ codes.driver_of driver }
{
    match driver {
        0 => Some(Driver::Echo),
        1 => Some(Driver::Loop),
        2 => Some(Driver::Line),
        3 => Some(Driver::Wire),
        _ => None,
    }
}

/// Whether a module is pushed under noenable, by its flags.
pub fn noenable_of(flags: u32) -> Option<bool>
    ensures { result ≡ codes.noenable_of flags }
{
    match flags {
        0 => Some(false),
        1 => Some(true),
        _ => None,
    }
}

/// The priority that the flags of a putmsg name.
pub fn priority_of(flags: u32) -> Option<Priority>
    ensures { result ≡ codes.priority_of flags }
{
    match flags {
        0 => Some(Priority::Norm),
        1 => Some(Priority::Hipri),
        _ => None,
    }
}

/// The choice of a getmsg or a peek, by its flags: the first message, or a high one alone.
pub fn wanted_of(flags: u32) -> Option<Wanted>
    ensures { result ≡ codes.wanted_of flags }
{
    match flags {
        0 => Some(Wanted::Any),
        1 => Some(Wanted::Hipri),
        _ => None,
    }
}

/// The flag of a putpmsg, by its number.
pub fn put_flag_of(flags: u32) -> Option<PutFlag>
    ensures { result ≡ codes.put_flag_of flags }
{
    match flags {
        0 => Some(PutFlag::Zero),
        1 => Some(PutFlag::Hipri),
        4 => Some(PutFlag::Band),
        _ => None,
    }
}

/// The flag of a getpmsg, by its number.
pub fn get_flag_of(flags: u32) -> Option<GetFlag>
    ensures { result ≡ codes.get_flag_of flags }
{
    match flags {
        0 => Some(GetFlag::Zero),
        1 => Some(GetFlag::Hipri),
        2 => Some(GetFlag::Any),
        4 => Some(GetFlag::Band),
        _ => None,
    }
}

/// The flags of a priority.
pub fn priority_number(priority: Priority) -> i32
    ensures { result ≡ pos (codes.priority_number priority) }
{
    match priority {
        Priority::Norm => 0,
        Priority::Hipri => 1,
    }
}

/// The number of the parts of which something is left (MORECTL, MOREDATA).
pub fn more_number(more: More) -> i32
    ensures { result ≡ pos (codes.more_number more) }
{
    match more {
        More::Nothing => 0,
        More::Ctl => 1,
        More::Data => 2,
        More::Both => 3,
    }
}

/// The flags if a condition holds, else 0.
fn flags_if(holds: bool, flags: u32) -> u32
    ensures value { result ≡ codes.flags_if holds flags }
    ensures most { result ≤ flags }
{
    if holds { flags } else { 0 }
}

/// All conditions that hold of an end, as the flags of poll(2).
fn poll_flags(told: &Polled) -> u32
    ensures { result ≡ codes.poll_flags told.now }
{
    flags_if(told.is_in(), 1)
        + flags_if(told.is_pri(), 2)
        + flags_if(told.out, 260)
        + flags_if(told.err, 8)
        + flags_if(told.hup, 16)
        + flags_if(told.nval, 32)
        + flags_if(told.is_rdnorm(), 64)
        + flags_if(told.is_rdband(), 128)
        + flags_if(told.wrband, 512)
}

/// The events that a poll returns: those that were asked for, and POLLERR, POLLHUP and POLLNVAL.
pub fn returned_flags(events: u32, told: Polled) -> u32
    ensures { result ≡ codes.returned_flags events told }
{
    (events | 56) & poll_flags(&told)
}
