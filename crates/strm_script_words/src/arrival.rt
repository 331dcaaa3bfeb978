//! Messages by their words and fields: those of a feed.
ghost use Rattle.std.specs.Prelude.{◌≡◌, true, false, IfOk, IsErrOf};
ghost use Rattle.strm_msg.specs.Kind.{is_from_line};
ghost use Rattle.strm_script_text.specs.Text.{texts_of};
ghost use Rattle.strm_script_words.specs.Fault.{Gives, Tells};
ghost use Rattle.strm_script_words.specs.Arrival as arrivals;

use crate::fault::{Cause, ReadError};
use crate::field::{optional_marks_at, optional_upto, part_upto, u8_at};
use crate::keyword::{Keyword, from_keyword, keyword_at};
use std::alloc::Global;
use strm_head_calls::{MAX_CONTROL, MAX_DATA};
use strm_msg::{Errno, Message, MsgKind, Prot, ReadMode};

/// The kind of a message that comes in from a line, by its word alone.
#[derive(Clone, Copy, Debug, PartialEq, Eq)]
pub enum MessageWord {
    /// User data (M_DATA).
    Data,
    /// Protocol information (M_PROTO).
    Proto,
    /// High-priority protocol information (M_PCPROTO).
    Pcproto,
    /// Options for the head (M_SETOPTS).
    Setopts,
    /// A flush (M_FLUSH).
    Flush,
    /// A hangup (M_HANGUP).
    Hangup,
    /// An error of both sides (M_ERROR).
    Error,
    /// An error of each side (M_ERROR of two bytes).
    Error2,
}

impl Keyword for MessageWord {
    ghost use Rattle.strm_script_words.specs.Arrival.{all_messages, message_word};

    ghost word = { message_word };

    ghost all = { all_messages };

    fn word(self) -> &'static [u8] {
        match self {
            MessageWord::Data => b"data",
            MessageWord::Proto => b"proto",
            MessageWord::Pcproto => b"pcproto",
            MessageWord::Setopts => b"setopts",
            MessageWord::Flush => b"flush",
            MessageWord::Hangup => b"hangup",
            MessageWord::Error => b"error",
            MessageWord::Error2 => b"error2",
        }
    }

    fn all() -> &'static [MessageWord] {
        &[
            MessageWord::Data,
            MessageWord::Proto,
            MessageWord::Pcproto,
            MessageWord::Setopts,
            MessageWord::Flush,
            MessageWord::Hangup,
            MessageWord::Error,
            MessageWord::Error2,
        ]
    }
}

/// The greatest lengths of the parts of a message, in bytes.
#[derive(Clone, Copy, Debug, PartialEq, Eq)]
pub struct Limits {
    /// That of its control.
    pub ctl: usize,
    /// That of its data.
    pub dat: usize,
}

/// Reads `data BAND PART`.
fn data(alloc: Global, limits: Limits, texts: &[&[u8]]) -> Result<Message, ReadError>
    ensures message { Gives (λ m. m) result (arrivals.data_at limits (texts_of texts.now)) }
    ensures line { IfOk result (λ m. is_from_line m.kind ≡ true) }
{
    let [band, dat] = texts else {
        return Err(ReadError::Fault(Cause::Fields));
    };
    let band = u8_at(band)?;
    let dat = part_upto(alloc, dat, limits.dat)?;
    Ok(Message {
        kind: MsgKind::MData,
        band,
        ctl: None,
        dat: Some(dat),
    })
}

/// Reads `proto BAND PART DAT`.
fn proto(alloc: Global, limits: Limits, texts: &[&[u8]]) -> Result<Message, ReadError>
    ensures message { Gives (λ m. m) result (arrivals.proto_at limits (texts_of texts.now)) }
    ensures line { IfOk result (λ m. is_from_line m.kind ≡ true) }
{
    let [band, ctl, dat] = texts else {
        return Err(ReadError::Fault(Cause::Fields));
    };
    let band = u8_at(band)?;
    let ctl = part_upto(alloc, ctl, limits.ctl)?;
    let dat = optional_upto(alloc, dat, limits.dat)?;
    Ok(Message {
        kind: MsgKind::MProto,
        band,
        ctl: Some(ctl),
        dat,
    })
}

/// Reads `pcproto PART DAT`.
fn pcproto(alloc: Global, limits: Limits, texts: &[&[u8]]) -> Result<Message, ReadError>
    ensures message { Gives (λ m. m) result (arrivals.pcproto_at limits (texts_of texts.now)) }
    ensures line { IfOk result (λ m. is_from_line m.kind ≡ true) }
{
    let [ctl, dat] = texts else {
        return Err(ReadError::Fault(Cause::Fields));
    };
    let ctl = part_upto(alloc, ctl, limits.ctl)?;
    let dat = optional_upto(alloc, dat, limits.dat)?;
    Ok(Message {
        kind: MsgKind::MPcproto,
        band: 0,
        ctl: Some(ctl),
        dat,
    })
}

/// The treatment of message bounds by reads, or none for `-`. Refused if no mode has this word.
fn optional_mode_at(text: &[u8]) -> Result<Option<ReadMode>, Cause>
    ensures { Tells (λ mode. mode) result (arrivals.optional_mode_at text.now) }
{
    if text == b"-".as_slice() {
        return Ok(None);
    }
    Ok(Some(keyword_at(text)?))
}

/// The treatment of control by reads, or none for `-`. Refused if no treatment has this word.
fn optional_prot_at(text: &[u8]) -> Result<Option<Prot>, Cause>
    ensures { Tells (λ prot. prot) result (arrivals.optional_prot_at text.now) }
{
    if text == b"-".as_slice() {
        return Ok(None);
    }
    Ok(Some(keyword_at(text)?))
}

/// Reads `setopts MODE PROT HI/LO`, where `-` leaves each as it is.
fn setopts(texts: &[&[u8]]) -> Result<Message, Cause>
    ensures message { Tells (λ m. m) result (arrivals.setopts_at (texts_of texts.now)) }
    ensures line { IfOk result (λ m. is_from_line m.kind ≡ true) }
{
    let [mode, prot, marks] = texts else {
        return Err(Cause::Fields);
    };
    let mode = optional_mode_at(mode)?;
    let prot = optional_prot_at(prot)?;
    let marks = optional_marks_at(marks)?;
    Ok(Message::of_setopts(mode, prot, marks))
}

/// Reads `flush FLAGS`.
fn flush(texts: &[&[u8]]) -> Result<Message, Cause>
    ensures message { Tells (λ m. m) result (arrivals.flush_msg_at (texts_of texts.now)) }
    ensures line { IfOk result (λ m. is_from_line m.kind ≡ true) }
{
    let [flags] = texts else {
        return Err(Cause::Fields);
    };
    let (r, w) = keyword_at(flags)?;
    Ok(Message::of_flush(r, w, None))
}

/// Reads `hangup`.
fn hangup(texts: &[&[u8]]) -> Result<Message, Cause>
    ensures message { Tells (λ m. m) result (arrivals.hangup_at (texts_of texts.now)) }
    ensures line { IfOk result (λ m. is_from_line m.kind ≡ true) }
{
    match texts {
        [] => Ok(Message::of_hangup()),
        _ => Err(Cause::Fields),
    }
}

/// Reads `error ERRNO`.
fn error(texts: &[&[u8]]) -> Result<Message, Cause>
    ensures message { Tells (λ m. m) result (arrivals.error_at (texts_of texts.now)) }
    ensures line { IfOk result (λ m. is_from_line m.kind ≡ true) }
{
    let [errno] = texts else {
        return Err(Cause::Fields);
    };
    let errno = keyword_at(errno)?;
    Ok(Message::of_error(errno))
}

/// An errno, or none for `-`. Refused if none has this name.
fn optional_errno_at(text: &[u8]) -> Result<Option<Errno>, Cause>
    ensures { Tells (λ errno. errno) result (arrivals.optional_errno_at text.now) }
{
    if text == b"-".as_slice() {
        return Ok(None);
    }
    Ok(Some(keyword_at(text)?))
}

/// Reads `error2 READ WRITE`, where `-` leaves a side as it is.
fn error2(texts: &[&[u8]]) -> Result<Message, Cause>
    ensures message { Tells (λ m. m) result (arrivals.error2_at (texts_of texts.now)) }
    ensures line { IfOk result (λ m. is_from_line m.kind ≡ true) }
{
    let [read, write] = texts else {
        return Err(Cause::Fields);
    };
    let read = optional_errno_at(read)?;
    let write = optional_errno_at(write)?;
    Ok(Message::of_error2(read, write))
}

/// The message of a word with its fields, none of which is a part.
fn bare_at(word: MessageWord, texts: &[&[u8]]) -> Result<Message, Cause>
    requires { arrivals.takes_memory word ≡ false }
    ensures message { Tells (λ m. m) result (arrivals.message_at word (texts_of texts.now)) }
    ensures line { IfOk result (λ m. is_from_line m.kind ≡ true) }
{
    match word {
        MessageWord::Setopts => setopts(texts),
        MessageWord::Flush => flush(texts),
        MessageWord::Hangup => hangup(texts),
        MessageWord::Error => error(texts),
        MessageWord::Error2 => error2(texts),
        _ => unreachable!(),
    }
}

/// The message of a word with its fields, whose parts have at most these lengths. Refused for a wrong number
/// of fields, then for the first field with a fault; and when memory runs out, if it has a part.
pub(crate) fn limited_at(
    alloc: Global,
    limits: Limits,
    word: MessageWord,
    texts: &[&[u8]],
) -> Result<Message, ReadError>
    ensures message { Gives (λ m. m) result (arrivals.limited_at limits word (texts_of texts.now)) }
    ensures memory { IsErrOf result ReadError.Memory → arrivals.takes_memory word ≡ true }
    ensures line { IfOk result (λ m. is_from_line m.kind ≡ true) }
{
    match word {
        MessageWord::Data => data(alloc, limits, texts),
        MessageWord::Proto => proto(alloc, limits, texts),
        MessageWord::Pcproto => pcproto(alloc, limits, texts),
        bare => Ok(bare_at(bare, texts)?),
    }
}

/// The message of a word with its fields, as a feed offers it. Refused for a wrong number of fields, then for
/// the first field with a fault, such as a part of more bytes than a call may send; and when memory runs out,
/// if it has a part.
pub fn message_at(alloc: Global, word: MessageWord, texts: &[&[u8]]) -> Result<Message, ReadError>
    ensures message { Gives (λ m. m) result (arrivals.message_at word (texts_of texts.now)) }
    ensures memory { IsErrOf result ReadError.Memory → arrivals.takes_memory word ≡ true }
    ensures line { IfOk result (λ m. is_from_line m.kind ≡ true) }
{
    let limits = Limits {
        ctl: MAX_CONTROL,
        dat: MAX_DATA,
    };
    limited_at(alloc, limits, word, texts)
}
