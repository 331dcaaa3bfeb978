//! The fields that a line may have behind its first word.
use crate::choosing::{AWAIT, CARRY};
use crate::field::{self, Field};
use crate::line::Section;
use crate::words::{ACTS, NOENABLE, SEED, driver_of};
use std::alloc::Global;
use strm_msg::NoMem;
use strm_script_words::{InnerWord, KindWord, MessageWord, Verb, from_keyword};

/// The fields of a line behind its first word, as far as its words say which they are.
#[derive(Drop)]
pub(crate) struct Layout {
    /// The fields, from left to right.
    pub(crate) fields: Vec<Field>,
    /// Whether these are all. If not, the word is unknown or missing which says what else there is: the word
    /// in the last of these fields, or the first word of the line if there are none.
    pub(crate) is_whole: bool,
}

/// The word of this number; no bytes if it is missing.
pub(crate) fn word_at<'a>(texts: &[&'a [u8]], number: usize) -> &'a [u8] {
    texts.get(number).copied().unwrap_or(b"")
}

/// Adds fields. Fails only when memory runs out.
fn add(fields: &mut Vec<Field>, more: &[Field]) -> Result<(), NoMem> {
    for field in more {
        fields.push(*field)?;
    }
    Ok(())
}

/// Adds the fields behind `stream`. Returns whether these are all. Fails only when memory runs out.
fn add_stream(fields: &mut Vec<Field>, driver: &[u8]) -> Result<bool, NoMem> {
    add(fields, &[field::NEW_STREAM, field::DRIVER])?;
    let Some(driver) = driver_of(driver) else {
        return Ok(false);
    };
    add(fields, &[field::MARKS, field::MARKS])?;
    if driver.is_line() {
        add(fields, &[field::RING])?;
    }
    Ok(true)
}

/// Adds the fields behind `link`. Returns whether these are all. Fails only when memory runs out.
fn add_link(fields: &mut Vec<Field>, texts: &[&[u8]]) -> Result<bool, NoMem> {
    add(fields, &[field::NEW_LINK, field::FROM_WIRE, field::TO_WIRE])?;
    if texts.len() <= 4 {
        return Ok(true);
    }
    add(fields, &[field::RULE])?;
    let rule = word_at(texts, 4);
    if rule == ACTS {
        add(fields, &[field::LETTERS])?;
        return Ok(true);
    }
    if rule == SEED {
        add(
            fields,
            &[field::SEED, field::LOSE, field::DOUBLE, field::HOLD],
        )?;
        return Ok(true);
    }
    Ok(false)
}

/// Adds the fields of a message behind its word, as a feed offers it. Fails only when memory runs out.
fn add_fed(fields: &mut Vec<Field>, word: MessageWord) -> Result<(), NoMem> {
    match word {
        MessageWord::Data => add(fields, &[field::BAND, field::FED_PART]),
        MessageWord::Proto => add(fields, &[field::BAND, field::FED_CONTROL, field::FED_DATA]),
        MessageWord::Pcproto => add(fields, &[field::FED_CONTROL, field::FED_DATA]),
        other => add_message(fields, other),
    }
}

/// Adds the fields of a message behind its word, as a call sends it. Fails only when memory runs out.
fn add_message(fields: &mut Vec<Field>, word: MessageWord) -> Result<(), NoMem> {
    match word {
        MessageWord::Data => add(fields, &[field::BAND, field::PART]),
        MessageWord::Proto => add(fields, &[field::BAND, field::PART, field::DAT]),
        MessageWord::Pcproto => add(fields, &[field::PART, field::DAT]),
        MessageWord::Setopts => add(
            fields,
            &[field::NEW_MODE, field::NEW_CONTROL, field::NEW_MARKS],
        ),
        MessageWord::Flush => add(fields, &[field::FLAGS]),
        MessageWord::Hangup => Ok(()),
        MessageWord::Error => add(fields, &[field::ERRNO]),
        MessageWord::Error2 => add(fields, &[field::NEW_ERRNO, field::NEW_ERRNO]),
    }
}

/// Adds the fields of a message that comes in from no line, behind its word. Fails only when memory runs out.
fn add_inner(fields: &mut Vec<Field>, word: InnerWord) -> Result<(), NoMem> {
    match word {
        InnerWord::FlushBand => add(fields, &[field::BAND, field::FLAGS]),
        InnerWord::Ioctl => add(fields, &[field::ID, field::COMMAND, field::DAT]),
        InnerWord::Iocack => add(fields, &[field::ID, field::VALUE, field::DAT]),
        InnerWord::Iocnak => add(fields, &[field::ID, field::ERRNO]),
    }
}

/// Adds the fields behind NAME:END of a call that sends a message. Returns whether these are all. Fails only
/// when memory runs out.
fn add_sent(fields: &mut Vec<Field>, texts: &[&[u8]]) -> Result<bool, NoMem> {
    add(fields, &[field::MODULE, field::SIDE, field::MESSAGE])?;
    let word = word_at(texts, fields.len());
    if let Some(word) = from_keyword::<MessageWord>(word) {
        add_message(fields, word)?;
        return Ok(true);
    }
    match from_keyword::<InnerWord>(word) {
        Some(word) => add_inner(fields, word)?,
        None => return Ok(false),
    }
    Ok(true)
}

/// Adds the fields that a kind has for itself. Fails only when memory runs out.
fn add_own(fields: &mut Vec<Field>, kind: KindWord) -> Result<(), NoMem> {
    match kind {
        KindWord::Table => add(fields, &[field::FROM, field::TO]),
        KindWord::Band => add(fields, &[field::BAND]),
        KindWord::Split => add(fields, &[field::SPLIT]),
        KindWord::Pass
        | KindWord::CrNl
        | KindWord::Line
        | KindWord::Count
        | KindWord::Tee
        | KindWord::Mute => Ok(()),
    }
}

/// Adds the fields of a push behind NAME:END. Returns whether these are all. Fails only when memory runs out.
fn add_push(fields: &mut Vec<Field>, texts: &[&[u8]]) -> Result<bool, NoMem> {
    if word_at(texts, fields.len() + 1) == NOENABLE {
        add(fields, &[field::NOENABLE, field::KIND])?;
    } else {
        add(fields, &[field::PUSHED])?;
    }
    let Some(kind) = from_keyword::<KindWord>(word_at(texts, fields.len())) else {
        return Ok(false);
    };
    add(
        fields,
        &[field::MODULE_NAME, field::READ_MARKS, field::WRITE_MARKS],
    )?;
    add_own(fields, kind)?;
    Ok(true)
}

/// Adds the fields of a call behind NAME:END that is no push and sends no message of a module. Fails only
/// when memory runs out.
fn add_plain(fields: &mut Vec<Field>, verb: Verb) -> Result<(), NoMem> {
    match verb {
        Verb::Putmsg => add(fields, &[field::CTL, field::DAT, field::PRIORITY]),
        Verb::Putpmsg => add(
            fields,
            &[field::CTL, field::DAT, field::BAND, field::PUT_FLAG],
        ),
        Verb::Getmsg | Verb::Peek => add(fields, &[field::MAX, field::MAX, field::WANTED]),
        Verb::Getpmsg => add(
            fields,
            &[field::MAX, field::MAX, field::BAND, field::GET_FLAG],
        ),
        Verb::Read => add(fields, &[field::COUNT]),
        Verb::Write | Verb::Find => add(fields, &[field::PART]),
        Verb::Str | Verb::Strput => add(fields, &[field::COMMAND, field::DAT]),
        Verb::Strget => add(fields, &[field::DROPS]),
        Verb::Flush => add(fields, &[field::FLAGS]),
        Verb::FlushBand => add(fields, &[field::BAND, field::FLAGS]),
        Verb::SetRead => add(fields, &[field::MODE, field::CONTROL]),
        Verb::Canput | Verb::Ckband => add(fields, &[field::BAND]),
        Verb::Tick => add(fields, &[field::TICKS]),
        Verb::Getq => add(fields, &[field::MODULE, field::SIDE, field::WANTED]),
        Verb::Bcanputnext => add(fields, &[field::MODULE, field::SIDE, field::BAND]),
        Verb::Qsize => add(fields, &[field::MODULE, field::SIDE]),
        Verb::Push
        | Verb::Putbq
        | Verb::Putnext
        | Verb::Pop
        | Verb::Look
        | Verb::List
        | Verb::Nread
        | Verb::GetRead
        | Verb::Getband
        | Verb::Close
        | Verb::Take
        | Verb::Poll => Ok(()),
    }
}

/// Adds the fields of a call. Returns whether these are all. Fails only when memory runs out.
fn add_call(fields: &mut Vec<Field>, verb: Verb, texts: &[&[u8]]) -> Result<bool, NoMem> {
    add(fields, &[field::TARGET])?;
    match verb {
        Verb::Push => add_push(fields, texts),
        Verb::Putbq | Verb::Putnext => add_sent(fields, texts),
        plain => {
            add_plain(fields, plain)?;
            Ok(true)
        }
    }
}

/// Adds the fields of a line that belongs to this section, by its fields. Returns whether these are all.
/// Fails only when memory runs out.
fn add_inside(fields: &mut Vec<Field>, section: Section, texts: &[&[u8]]) -> Result<bool, NoMem> {
    let word = word_at(texts, 0);
    match section {
        Section::Nowhere => Ok(false),
        Section::Process => match from_keyword::<Verb>(word) {
            Some(verb) => add_call(fields, verb, texts),
            None if word == AWAIT => {
                add(fields, &[field::STREAM])?;
                Ok(true)
            }
            None if word == CARRY => {
                add(fields, &[field::LINK, field::CARRIES])?;
                Ok(true)
            }
            None => Ok(false),
        },
        Section::Feed => match from_keyword::<MessageWord>(word) {
            Some(word) => {
                add_fed(fields, word)?;
                Ok(true)
            }
            None => Ok(false),
        },
    }
}

/// The layout of a line in this section, by its fields, without those of expected replies. Fails only when
/// memory runs out.
pub(crate) fn layout_of(alloc: Global, section: Section, texts: &[&[u8]]) -> Result<Layout, NoMem> {
    let mut fields = Vec::new(alloc);
    let is_whole = match word_at(texts, 0) {
        b"stream" => add_stream(&mut fields, word_at(texts, 2))?,
        b"process" => {
            add(&mut fields, &[field::NEW_PROCESS])?;
            true
        }
        b"feed" => {
            add(&mut fields, &[field::STREAM])?;
            true
        }
        b"link" => add_link(&mut fields, texts)?,
        _ => add_inside(&mut fields, section, texts)?,
    };
    Ok(Layout { fields, is_whole })
}
