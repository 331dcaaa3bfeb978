//! The printed answers of calls.
ghost use Rattle.std.specs.Prelude.{◌≡◌, false};
ghost use Rattle.strm_script_text.specs.Writing.{Writes};
ghost use Rattle.strm_script_print.specs.LineBuffer.{Adds, AddsFields};
ghost use Rattle.strm_script_print.specs.Lines.{answer_text, said_text};
ghost use Rattle.strm_script_print.specs.Replies as text;
ghost use Rattle.strm_script_print.specs.Replies.{acknowledged_fields, answer_fields, list_fields};
ghost use Rattle.strm_script_print.specs.Replies.{peeked_fields, reply_fields, serviced_fields};

use crate::field::Field::{Number, Word};
use crate::field::{add_all, add_names, add_number, add_part, add_word, part_field};
use crate::line_buffer::LineBuffer;
use crate::message::add_message;
use crate::polled::add_polled;
use std::io::{self, Write};
use strm_head_calls::{Acknowledged, Answer, More, Name, Peeked, Received, Reply, Serviced};
use strm_module::Driver;
use strm_msg::Bytes;
use strm_script_words::{Keyword, MessageWord};

/// The word that names the parts of which something is left.
fn more_word(more: More) -> &'static [u8]
    ensures { result.now ≡ text.more_word more }
{
    match more {
        More::Nothing => b"0",
        More::Ctl => b"ctl",
        More::Data => b"data",
        More::Both => b"both",
    }
}

/// The word of a truth: `1` or `0`.
fn holds_word(holds: bool) -> &'static [u8]
    ensures { result.now ≡ text.holds_word holds }
{
    if holds { b"1" } else { b"0" }
}

/// Adds the reply of a getpmsg: its parts, its band or its high priority, and which parts have something
/// left.
fn add_taken<'a, W: Write>(
    w: &mut W,
    out: &mut LineBuffer,
    ctl: &'a Option<Bytes>,
    dat: &'a Option<Bytes>,
    flag: Received,
    more: More,
)
    ensures { AddsFields W.contents w.old w.new out.old out.new
        (reply_fields (Reply.Getpmsg ctl.now dat.now flag more)) }
{
    let (ctl, dat, more) = (part_field(ctl), part_field(dat), Word(more_word(more)));
    match flag {
        Received::Band { band } => add_all(
            w,
            out,
            &[ctl, dat, Word(b"band"), Number(u64::from(band)), more],
        ),
        Received::Hipri => add_all(w, out, &[ctl, dat, Word(b"hipri"), more]),
    }
}

/// Adds the message of a peek, or that there was none.
fn add_peeked<W: Write>(w: &mut W, out: &mut LineBuffer, found: &Option<Peeked>)
    ensures { AddsFields W.contents w.old w.new out.old out.new (peeked_fields found.now) }
{
    match found {
        None => add_word(w, out, b"none"),
        Some(seen) => {
            let (ctl, dat) = (part_field(&seen.ctl), part_field(&seen.dat));
            add_all(w, out, &[ctl, dat, Word(seen.flag.word())])
        }
    }
}

/// Adds the outcome of an ioctl.
fn add_acknowledged<W: Write>(w: &mut W, out: &mut LineBuffer, answer: &Acknowledged)
    ensures { AddsFields W.contents w.old w.new out.old out.new (acknowledged_fields answer.now) }
{
    match answer {
        Acknowledged::Ack { rval, dat } => add_all(w, out, &[Number(*rval), part_field(dat)]),
        Acknowledged::Nak { errno } => {
            add_all(w, out, &[Word(b"nak"), Word(errno.name().as_bytes())])
        }
        Acknowledged::Timeout => add_word(w, out, b"ETIME"),
    }
}

/// Adds the names of modules, and then that of the driver.
#[tactic(auto, using(crate::proofs::GatheredLemmas::list_put))]
fn add_list<W: Write>(w: &mut W, out: &mut LineBuffer, names: &[Name], driver: Driver)
    ensures { AddsFields W.contents w.old w.new out.old out.new (list_fields names.now driver) }
{
    add_names(w, out, names);
    add_word(w, out, driver.name());
}

/// Adds the reply of a service call that takes no message.
fn add_serviced<W: Write>(w: &mut W, out: &mut LineBuffer, told: Serviced)
    ensures { AddsFields W.contents w.old w.new out.old out.new (serviced_fields told) }
{
    match told {
        Serviced::Putbq | Serviced::Putnext => add_word(w, out, b"0"),
        Serviced::Bcanputnext { can } => add_word(w, out, holds_word(can)),
        Serviced::Qsize { messages } => add_number(w, out, messages),
    }
}

/// Adds the reply of a call that is no read and no write, from a list of fields. It is a function apart, so
/// that room for the lists is made only for replies that have some.
#[inline(never)]
#[tactic(auto, using(crate::proofs::GatheredLemmas::puts))]
fn add_as_list<W: Write>(w: &mut W, out: &mut LineBuffer, reply: &Reply)
    requires { text.is_read_or_write reply.now ≡ false }
    ensures { AddsFields W.contents w.old w.new out.old out.new (reply_fields reply.now) }
{
    match reply {
        Reply::Putmsg
        | Reply::Putpmsg
        | Reply::Push
        | Reply::SetRead
        | Reply::Flush
        | Reply::FlushBand
        | Reply::Tick
        | Reply::Line => add_word(w, out, b"0"),
        Reply::Getmsg {
            ctl,
            dat,
            flag,
            more,
        } => {
            let (flag, more) = (Word(flag.word()), Word(more_word(*more)));
            add_all(w, out, &[part_field(ctl), part_field(dat), flag, more])
        }
        Reply::Getpmsg {
            ctl,
            dat,
            flag,
            more,
        } => add_taken(w, out, ctl, dat, *flag, *more),
        Reply::Read { .. } | Reply::Write { .. } => unreachable!(),
        Reply::Nread { messages, bytes } => add_all(w, out, &[Number(*messages), Number(*bytes)]),
        Reply::Peek { found } => add_peeked(w, out, found),
        Reply::GetRead { mode, prot } => {
            add_all(w, out, &[Word(mode.word()), Word(prot.word())])
        }
        Reply::Canput { can } => add_word(w, out, holds_word(*can)),
        Reply::Ckband { waits } => add_word(w, out, holds_word(*waits)),
        Reply::Getband { band } => add_number(w, out, *band),
        Reply::Pop { name } => add_all(w, out, &[Word(b"popped"), Word(name.as_slice())]),
        Reply::Look { name } => add_word(w, out, name.as_slice()),
        Reply::List { names, driver } => add_list(w, out, names.as_slice(), *driver),
        Reply::Find { found } => add_word(w, out, holds_word(*found)),
        Reply::Str { answer } => add_acknowledged(w, out, answer),
        Reply::Strput { id } => add_number(w, out, *id),
        Reply::Close { names } => {
            add_word(w, out, b"closed");
            add_names(w, out, names.as_slice());
        }
        Reply::Message { m } => add_message(w, out, m),
        Reply::Hangup => add_word(w, out, MessageWord::Hangup.word()),
        Reply::Service { told } => add_serviced(w, out, *told),
        Reply::Poll { told } => add_polled(w, out, *told),
    }
}

/// Adds the reply of a call.
fn add_reply<W: Write>(w: &mut W, out: &mut LineBuffer, reply: &Reply)
    ensures { AddsFields W.contents w.old w.new out.old out.new (reply_fields reply.now) }
{
    match reply {
        Reply::Read { dat } => add_part(w, out, dat.as_slice()),
        Reply::Write { len } => add_number(w, out, *len),
        _ => add_as_list(w, out, reply),
    }
}

/// Adds the fields of an answer: a reply, or the name of the errno of a refusal, or that the stream broke.
fn add_said<W: Write>(w: &mut W, out: &mut LineBuffer, answer: &Answer)
    ensures { AddsFields W.contents w.old w.new out.old out.new (answer_fields answer.now) }
{
    match answer {
        Answer::Done(reply) => add_reply(w, out, reply),
        Answer::Refused(refusal) => add_word(w, out, refusal.errno().name().as_bytes()),
        Answer::Broke => add_all(w, out, &[Word(b"ENOSR"), Word(b"broke")]),
    }
}

/// Adds an answer as a transcript has it: ` : REPLY`, and the end of the line.
#[tactic(auto, using(crate::proofs::GatheredLemmas::puts), unfolding(crate::specs::Lines::answer_text))]
#[inline(always)]
pub(crate) fn add_answer<W: Write>(w: &mut W, out: &mut LineBuffer, answer: &Answer)
    ensures { Adds W.contents w.old w.new out.old out.new (answer_text answer.now) }
{
    out.put(w, b" :");
    add_said(w, out, answer);
    out.put(w, b"\n");
}

/// Writes an answer as a transcript has it: ` : REPLY`, and the end of the line.
///
/// Refused if the writer refuses, with its error.
pub fn put_answer<W: Write>(w: &mut W, answer: &Answer) -> io::Result<()>
    ensures { Writes W.contents w.old w.new result (answer_text answer.now) }
{
    let mut out = LineBuffer::new();
    add_answer(w, &mut out, answer);
    out.finish(w)
}

/// Writes the reply of an answer as a transcript has it behind the `:`, with a blank in front of each field.
///
/// Refused if the writer refuses, with its error.
pub fn put_said<W: Write>(w: &mut W, answer: &Answer) -> io::Result<()>
    ensures { Writes W.contents w.old w.new result (said_text answer.now) }
{
    let mut out = LineBuffer::new();
    add_said(w, &mut out, answer);
    out.finish(w)
}
