//! The printed messages.
ghost use Rattle.std.specs.Prelude.{◌≡◌};
ghost use Rattle.strm_msg.specs.Text.{name_of};
ghost use Rattle.strm_script_words.specs.Words as words;
ghost use Rattle.strm_script_print.specs.Fields as text;
ghost use Rattle.strm_script_print.specs.LineBuffer.{AddsFields};

use crate::field::Field::{Number, Pair, Word};
use crate::field::{Field, add_all, part_field};
use crate::line_buffer::LineBuffer;
use std::io::Write;
use strm_msg::{Errno, Message, MsgKind, Prot, ReadMode};
use strm_script_words::{InnerWord, Keyword, MessageWord, Verb};

/// Adds a flush of all bands, or of one.
fn add_flush<W: Write>(w: &mut W, out: &mut LineBuffer, band: Option<u8>, read: bool, write: bool)
    ensures { AddsFields W.contents w.old w.new out.old out.new
        (text.flush_fields band (words.flush_word read write)) }
{
    let flags = Word((read, write).word());
    match band {
        None => add_all(w, out, &[Word(MessageWord::Flush.word()), flags]),
        Some(band) => {
            let word = Word(Verb::FlushBand.word());
            add_all(w, out, &[word, Number(u64::from(band)), flags])
        }
    }
}

/// The word of a treatment of message bounds, or `-` if there is none.
fn mode_field<'a>(mode: Option<ReadMode>) -> Field<'a>
    ensures { text.said result ≡ text.kept_field words.mode_word mode }
{
    match mode {
        None => Word(b"-"),
        Some(mode) => Word(mode.word()),
    }
}

/// The word of a treatment of control, or `-` if there is none.
fn prot_field<'a>(prot: Option<Prot>) -> Field<'a>
    ensures { text.said result ≡ text.kept_field words.prot_word prot }
{
    match prot {
        None => Word(b"-"),
        Some(prot) => Word(prot.word()),
    }
}

/// The marks, or `-` if there are none.
fn marks_field<'a>(marks: Option<(u32, u32)>) -> Field<'a>
    ensures { text.said result ≡ text.kept_marks marks }
{
    match marks {
        None => Word(b"-"),
        Some((high, low)) => Pair(high, low),
    }
}

/// Whether an error is given for both sides, and is the same.
fn is_one_error(rd: Option<Errno>, wr: Option<Errno>) -> bool
    ensures { result ≡ text.is_one_error rd wr }
{
    match (rd, wr) {
        (Some(rd), Some(wr)) => rd.name().as_bytes() == wr.name().as_bytes(),
        _ => false,
    }
}

/// The name of an errno, or `-` if there is none.
fn errno_field<'a>(errno: Option<Errno>) -> Field<'a>
    ensures { text.said result ≡ text.kept_field name_of errno }
{
    match errno {
        None => Word(b"-"),
        Some(errno) => Word(errno.name().as_bytes()),
    }
}

/// Adds an error: one for both sides if it is the same, else that of each.
fn add_error<W: Write>(w: &mut W, out: &mut LineBuffer, rd: Option<Errno>, wr: Option<Errno>)
    ensures { AddsFields W.contents w.old w.new out.old out.new (text.error_fields rd wr) }
{
    if is_one_error(rd, wr) {
        return add_all(w, out, &[Word(MessageWord::Error.word()), errno_field(rd)]);
    }
    let word = Word(MessageWord::Error2.word());
    add_all(w, out, &[word, errno_field(rd), errno_field(wr)]);
}

/// Adds a message as a feed and a service call have it.
pub(crate) fn add_message<W: Write>(w: &mut W, out: &mut LineBuffer, m: &Message)
    ensures { AddsFields W.contents w.old w.new out.old out.new (text.message_fields m.now) }
{
    let (band, ctl, dat) = (
        Number(u64::from(m.band)),
        part_field(&m.ctl),
        part_field(&m.dat),
    );
    match m.kind {
        MsgKind::MData => add_all(w, out, &[Word(MessageWord::Data.word()), band, dat]),
        MsgKind::MProto => add_all(w, out, &[Word(MessageWord::Proto.word()), band, ctl, dat]),
        MsgKind::MPcproto => add_all(w, out, &[Word(MessageWord::Pcproto.word()), ctl, dat]),
        MsgKind::MSetopts { mode, prot, marks } => {
            let (word, marks) = (Word(MessageWord::Setopts.word()), marks_field(marks));
            add_all(w, out, &[word, mode_field(mode), prot_field(prot), marks])
        }
        MsgKind::MFlush { r, w: write, band } => add_flush(w, out, band, r, write),
        MsgKind::MHangup => add_all(w, out, &[Word(MessageWord::Hangup.word())]),
        MsgKind::MError { rd, wr } => add_error(w, out, rd, wr),
        MsgKind::MIoctl { id, cmd } => {
            let (word, cmd) = (Word(InnerWord::Ioctl.word()), Number(u64::from(cmd)));
            add_all(w, out, &[word, Number(id), cmd, dat])
        }
        MsgKind::MIocack { id, rval } => {
            let word = Word(InnerWord::Iocack.word());
            add_all(w, out, &[word, Number(id), Number(rval), dat])
        }
        MsgKind::MIocnak { id, errno } => {
            let (word, errno) = (
                Word(InnerWord::Iocnak.word()),
                Word(errno.name().as_bytes()),
            );
            add_all(w, out, &[word, Number(id), errno])
        }
    }
}
