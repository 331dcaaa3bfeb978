//! The calls of service procedures that are the program's, by their fields, and the messages that they send.
ghost use Rattle.std.specs.Prelude.{◌≡◌, ◌≤◌, true, IfOk, IsErrOf};
ghost use Rattle.strm_script_text.specs.Text.{texts_of};
ghost use Rattle.strm_script_words.specs.Arrival.{message_named};
ghost use Rattle.strm_script_words.specs.Fault.{Gives, Tells};
ghost use Rattle.strm_script_words.specs.Service as service;
ghost use Rattle.strm_script_words.specs.Table as table;

use crate::arrival::{Limits, MessageWord, limited_at};
use crate::fault::{Cause, ReadError};
use crate::field::{number_at, optional_upto, u8_at, u32_at};
use crate::keyword::{Keyword, from_keyword, keyword_at};
use crate::kinds::name_at;
use crate::verb::Verb;
use std::alloc::Global;
use strm_head_calls::{Name, Request, ServiceCall};
use strm_module::{BoxedModule, ModuleOf};
use strm_msg::{BoxedMessage, Message, MsgKind};

/// The most bytes of a part that a service call sends.
pub const MOST_PART: usize = 65_535;

/// The greatest number of an ioctl, and the greatest value that one returns.
pub const MOST_ID: u64 = 18_446_744_073_709_551_615;

/// The kind of a message that comes in from no line, by its word alone.
#[derive(Clone, Copy, Debug, PartialEq, Eq)]
pub enum InnerWord {
    /// A flush of one band (M_FLUSH with FLUSHBAND).
    FlushBand,
    /// An ioctl (M_IOCTL).
    Ioctl,
    /// The answer to an ioctl that was done (M_IOCACK).
    Iocack,
    /// The answer to an ioctl that was refused (M_IOCNAK).
    Iocnak,
}

impl Keyword for InnerWord {
    ghost use Rattle.strm_script_words.specs.Service.{all_inner, inner_word};

    ghost word = { inner_word };

    ghost all = { all_inner };

    fn word(self) -> &'static [u8] {
        match self {
            InnerWord::FlushBand => b"flushband",
            InnerWord::Ioctl => b"ioctl",
            InnerWord::Iocack => b"iocack",
            InnerWord::Iocnak => b"iocnak",
        }
    }

    fn all() -> &'static [InnerWord] {
        &[
            InnerWord::FlushBand,
            InnerWord::Ioctl,
            InnerWord::Iocack,
            InnerWord::Iocnak,
        ]
    }
}

/// The number of fields of a message behind its word.
fn message_fields(word: MessageWord) -> usize
    ensures value { result ≡ service.message_fields word }
    ensures few { result ≤ 3 }
{
    match word {
        MessageWord::Proto | MessageWord::Setopts => 3,
        MessageWord::Data | MessageWord::Pcproto | MessageWord::Error2 => 2,
        MessageWord::Flush | MessageWord::Error => 1,
        MessageWord::Hangup => 0,
    }
}

/// The number of fields of a message that comes in from no line, behind its word.
fn inner_fields(word: InnerWord) -> usize
    ensures value { result ≡ service.inner_fields word }
    ensures few { result ≤ 3 }
{
    match word {
        InnerWord::Ioctl | InnerWord::Iocack => 3,
        InnerWord::FlushBand | InnerWord::Iocnak => 2,
    }
}

/// The number of fields of the message that a service call sends, behind its word. Refused if no message has
/// the word.
fn sent_fields(word: &[u8]) -> Result<usize, Cause>
    ensures value { Tells (λ n. n) result (service.sent_fields (message_named word.now) word.now) }
    ensures few { IfOk result (λ n. n ≤ 3) }
{
    match from_keyword(word) {
        Some(word) => Ok(message_fields(word)),
        None => Ok(inner_fields(keyword_at(word)?)),
    }
}

/// The number of fields behind NAME:END of a call that sends a message: MODULE, SIDE and those of the
/// message. Refused if its word is missing, or names none.
fn sent_arity(texts: &[&[u8]]) -> Result<usize, Cause>
    ensures { Tells (λ n. n) result (service.sent_arity (texts_of texts.now)) }
{
    let [_, _, word, ..] = texts else {
        return Err(Cause::Fields);
    };
    Ok(sent_fields(word)? + 3)
}

/// The number of fields of a service call behind NAME:END. For one that sends a message it depends on its
/// word.
pub(crate) fn service_arity(verb: Verb, texts: &[&[u8]]) -> Result<usize, Cause>
    ensures { Tells (λ n. n) result (service.service_arity verb (texts_of texts.now)) }
{
    match verb {
        Verb::Getq | Verb::Bcanputnext => Ok(3),
        Verb::Putbq | Verb::Putnext => sent_arity(texts),
        _ => Ok(2),
    }
}

/// Reads `flushband BAND FLAGS`.
fn flush_band(texts: &[&[u8]]) -> Result<Message, Cause>
    ensures { Tells (λ m. m) result (service.flush_band_at (texts_of texts.now)) }
{
    let [band, flags] = texts else {
        return Err(Cause::Fields);
    };
    let band = u8_at(band)?;
    let (r, w) = keyword_at(flags)?;
    Ok(Message::of_flush(r, w, Some(band)))
}

/// Reads `ioctl ID CMD DAT`.
fn ioctl(alloc: Global, texts: &[&[u8]]) -> Result<Message, ReadError>
    ensures { Gives (λ m. m) result (service.ioctl_at (texts_of texts.now)) }
{
    let [id, cmd, dat] = texts else {
        return Err(ReadError::Fault(Cause::Fields));
    };
    let id = number_at(id, MOST_ID)?;
    let cmd = u32_at(cmd)?;
    let dat = optional_upto(alloc, dat, MOST_PART)?;
    Ok(Message {
        kind: MsgKind::MIoctl { id, cmd },
        band: 0,
        ctl: None,
        dat,
    })
}

/// Reads `iocack ID RVAL DAT`.
fn iocack(alloc: Global, texts: &[&[u8]]) -> Result<Message, ReadError>
    ensures { Gives (λ m. m) result (service.iocack_at (texts_of texts.now)) }
{
    let [id, rval, dat] = texts else {
        return Err(ReadError::Fault(Cause::Fields));
    };
    let id = number_at(id, MOST_ID)?;
    let rval = number_at(rval, MOST_ID)?;
    let dat = optional_upto(alloc, dat, MOST_PART)?;
    Ok(Message::of_ack(id, rval, dat))
}

/// Reads `iocnak ID ERRNO`.
fn iocnak(texts: &[&[u8]]) -> Result<Message, Cause>
    ensures { Tells (λ m. m) result (service.iocnak_at (texts_of texts.now)) }
{
    let [id, errno] = texts else {
        return Err(Cause::Fields);
    };
    let id = number_at(id, MOST_ID)?;
    let errno = keyword_at(errno)?;
    Ok(Message::of_nak(id, errno))
}

/// The message of a word that comes in from no line, with its fields.
fn inner_at(alloc: Global, word: InnerWord, texts: &[&[u8]]) -> Result<Message, ReadError>
    ensures { Gives (λ m. m) result (service.inner_at word (texts_of texts.now)) }
{
    match word {
        InnerWord::FlushBand => Ok(flush_band(texts)?),
        InnerWord::Ioctl => ioctl(alloc, texts),
        InnerWord::Iocack => iocack(alloc, texts),
        InnerWord::Iocnak => Ok(iocnak(texts)?),
    }
}

/// The message that a service call sends, by its word and its fields: one that a feed may offer, or another.
/// Its parts may have up to `MOST_PART` bytes. Refused for the first fault, and when memory runs out.
fn sent_message(alloc: Global, texts: &[&[u8]]) -> Result<Message, ReadError>
    ensures { Gives (λ m. m) result (service.sent_at (texts_of texts.now)) }
{
    let [word, texts @ ..] = texts else {
        return Err(ReadError::Fault(Cause::Fields));
    };
    let limits = Limits {
        ctl: MOST_PART,
        dat: MOST_PART,
    };
    match from_keyword(word) {
        Some(word) => limited_at(alloc, limits, word, texts),
        None => inner_at(alloc, keyword_at(word)?, texts),
    }
}

/// The same, in a box.
fn sent_at(alloc: Global, texts: &[&[u8]]) -> Result<BoxedMessage, ReadError>
    ensures { Gives (λ m. m) result (service.sent_at (texts_of texts.now)) }
{
    let m = sent_message(alloc, texts)?;
    Ok(BoxedMessage::new(alloc, m)?)
}

/// Reads the fields of a getq behind MODULE and SIDE.
fn getq(texts: &[&[u8]]) -> Result<ServiceCall, Cause>
    ensures { Tells (λ call. call) result (service.getq_at (texts_of texts.now)) }
{
    let [flag] = texts else {
        return Err(Cause::Fields);
    };
    let flag = keyword_at(flag)?;
    Ok(ServiceCall::Getq { flag })
}

/// Reads the fields of a bcanputnext behind MODULE and SIDE.
fn bcanputnext(texts: &[&[u8]]) -> Result<ServiceCall, Cause>
    ensures { Tells (λ call. call) result (service.bcanputnext_at (texts_of texts.now)) }
{
    let [band] = texts else {
        return Err(Cause::Fields);
    };
    let band = u8_at(band)?;
    Ok(ServiceCall::Bcanputnext { band })
}

/// Reads the fields of a qsize behind MODULE and SIDE: none.
fn qsize(texts: &[&[u8]]) -> Result<ServiceCall, Cause>
    ensures { Tells (λ call. call) result (service.qsize_at (texts_of texts.now)) }
{
    match texts {
        [] => Ok(ServiceCall::Qsize),
        _ => Err(Cause::Fields),
    }
}

/// The call of a service procedure, by its verb and its fields behind MODULE and SIDE.
fn service_call_at(alloc: Global, verb: Verb, texts: &[&[u8]]) -> Result<ServiceCall, ReadError>
    ensures call { Gives (λ call. call) result (service.service_call_at verb (texts_of texts.now)) }
    ensures memory { IsErrOf result ReadError.Memory → service.sends_message verb ≡ true }
{
    match verb {
        Verb::Getq => Ok(getq(texts)?),
        Verb::Putbq => Ok(ServiceCall::Putbq {
            m: sent_at(alloc, texts)?,
        }),
        Verb::Putnext => Ok(ServiceCall::Putnext {
            m: sent_at(alloc, texts)?,
        }),
        Verb::Bcanputnext => Ok(bcanputnext(texts)?),
        _ => Ok(qsize(texts)?),
    }
}

/// The request of a service call, by its fields behind NAME:END. Refused, from left to right, for the first
/// field with a fault; and when memory runs out, if it sends a message.
pub(crate) fn service_at<M: ModuleOf>(
    alloc: Global,
    verb: Verb,
    texts: &[&[u8]],
) -> Result<Request<BoxedModule<M>>, ReadError>
    requires { service.is_service verb ≡ true }
    ensures asked { Gives table.asked_of result (table.served_at verb (texts_of texts.now)) }
    ensures memory { IsErrOf result ReadError.Memory → service.sends_message verb ≡ true }
{
    let [module, side, texts @ ..] = texts else {
        return Err(ReadError::Fault(Cause::Fields));
    };
    let name = name_at(module)?;
    let side = keyword_at(side)?;
    let call = service_call_at(alloc, verb, texts)?;
    Ok(Request::Service {
        name: Name::new(&name),
        side,
        call,
    })
}
