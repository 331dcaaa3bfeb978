//! The fields that lines may have, and what may stand in each.
use crate::words::Words;
use std::alloc::Global;
use strm_head_calls::{MAX_CONTROL, MAX_DATA, MOST_RING};
use strm_module::MOST_SPLIT;
use strm_msg::NoMem;
use strm_script_text::is_same_word;
use strm_script_words::{
    Cause, MOST_ASKED, MOST_BAND, MOST_ID, MOST_PART, MOST_U32, ReadError, marks_at, number_at,
    part_at,
};

/// The most of the odds of a link, together.
pub(crate) const MOST_ODDS: u64 = 256;

/// The most carries of a line.
pub(crate) const MOST_CARRIES: u64 = 65_536;

/// The most acts of a pattern.
pub(crate) const MOST_ACTS: usize = 64;

/// What may stand in a field.
#[derive(Clone, Copy, Debug, PartialEq, Eq)]
pub(crate) enum Form {
    /// A stream above and one of its ends.
    Target,
    /// The name of a stream above.
    Stream,
    /// A name that no stream above has.
    NewStream,
    /// A name that no process above has.
    NewProcess,
    /// A name that no link above has.
    NewLink,
    /// The name of a link above.
    Link,
    /// The letters of acts.
    Acts,
    /// The last of the odds of a link, which may be what makes them too many.
    LastOdds,
    /// How many carries a line stands for.
    Carries,
    /// The name of a module.
    Module,
    /// A number of at most this.
    Upto(u64),
    /// A number from 1 to this.
    FromOne(u16),
    /// A number up to `MOST_ASKED`, or `-1`.
    Maximum,
    /// Water marks.
    Marks,
    /// Water marks, or `-`.
    OptionalMarks,
    /// A part of at most that many bytes.
    Part(usize),
    /// The same, or `-`.
    OptionalPart(usize),
    /// One of these words.
    Choice(Words),
    /// The same, or `-`.
    OptionalChoice(Words),
}

/// A field: its name in the grammar, and what may stand in it. One without a name is named by its words.
#[derive(Clone, Copy, Debug, PartialEq, Eq)]
pub(crate) struct Field(pub(crate) &'static [u8], pub(crate) Form);

pub(crate) const TARGET: Field = Field(b"NAME:END", Form::Target);

pub(crate) const STREAM: Field = Field(b"NAME", Form::Stream);

pub(crate) const NEW_STREAM: Field = Field(b"NAME", Form::NewStream);

pub(crate) const NEW_PROCESS: Field = Field(b"NAME", Form::NewProcess);

pub(crate) const DRIVER: Field = Field(b"DRIVER", Form::Choice(Words::Drivers));

pub(crate) const MARKS: Field = Field(b"HI/LO", Form::Marks);

pub(crate) const RING: Field = Field(b"RING", Form::FromOne(MOST_RING));

pub(crate) const CTL: Field = Field(b"CTL", Form::OptionalPart(MOST_PART));

pub(crate) const DAT: Field = Field(b"DAT", Form::OptionalPart(MOST_PART));

pub(crate) const PART: Field = Field(b"PART", Form::Part(MOST_PART));

pub(crate) const BAND: Field = Field(b"BAND", Form::Upto(MOST_BAND));

pub(crate) const MAX: Field = Field(b"MAX", Form::Maximum);

pub(crate) const COUNT: Field = Field(b"N", Form::Upto(MOST_ASKED));

pub(crate) const COMMAND: Field = Field(b"CMD", Form::Upto(MOST_U32));

pub(crate) const TICKS: Field = Field(b"TICKS", Form::Upto(MOST_U32));

pub(crate) const PRIORITY: Field = Field(b"", Form::Choice(Words::Priorities));

pub(crate) const PUT_FLAG: Field = Field(b"", Form::Choice(Words::PutFlags));

pub(crate) const WANTED: Field = Field(b"", Form::Choice(Words::Wanted));

pub(crate) const GET_FLAG: Field = Field(b"", Form::Choice(Words::GetFlags));

pub(crate) const DROPS: Field = Field(b"", Form::Choice(Words::Drops));

pub(crate) const FLAGS: Field = Field(b"FLAGS", Form::Choice(Words::Flushes));

pub(crate) const MODE: Field = Field(b"MODE", Form::Choice(Words::Modes));

pub(crate) const CONTROL: Field = Field(b"CONTROL", Form::Choice(Words::Controls));

pub(crate) const NOENABLE: Field = Field(b"", Form::Choice(Words::Noenable));

pub(crate) const PUSHED: Field = Field(b"KIND", Form::Choice(Words::Pushed));

pub(crate) const KIND: Field = Field(b"KIND", Form::Choice(Words::Kinds));

pub(crate) const MODULE_NAME: Field = Field(b"NAME", Form::Module);

pub(crate) const READ_MARKS: Field = Field(b"RD", Form::OptionalMarks);

pub(crate) const WRITE_MARKS: Field = Field(b"WR", Form::OptionalMarks);

pub(crate) const FROM: Field = Field(b"FROM", Form::Part(MOST_PART));

pub(crate) const TO: Field = Field(b"TO", Form::Part(MOST_PART));

pub(crate) const SPLIT: Field = Field(b"N", Form::FromOne(MOST_SPLIT));

pub(crate) const MODULE: Field = Field(b"MODULE", Form::Module);

pub(crate) const SIDE: Field = Field(b"SIDE", Form::Choice(Words::Sides));

pub(crate) const MESSAGE: Field = Field(b"MESSAGE", Form::Choice(Words::Messages));

pub(crate) const FED_CONTROL: Field = Field(b"PART", Form::Part(MAX_CONTROL));

pub(crate) const FED_PART: Field = Field(b"PART", Form::Part(MAX_DATA));

pub(crate) const FED_DATA: Field = Field(b"DAT", Form::OptionalPart(MAX_DATA));

pub(crate) const NEW_MODE: Field = Field(b"MODE", Form::OptionalChoice(Words::Modes));

pub(crate) const NEW_CONTROL: Field = Field(b"CONTROL", Form::OptionalChoice(Words::Controls));

pub(crate) const NEW_MARKS: Field = Field(b"HI/LO", Form::OptionalMarks);

pub(crate) const ERRNO: Field = Field(b"ERRNO", Form::Choice(Words::Errnos));

pub(crate) const NEW_ERRNO: Field = Field(b"ERRNO", Form::OptionalChoice(Words::Errnos));

pub(crate) const ID: Field = Field(b"ID", Form::Upto(MOST_ID));

pub(crate) const NEW_LINK: Field = Field(b"NAME", Form::NewLink);

pub(crate) const FROM_WIRE: Field = Field(b"FROM and TO", Form::Stream);

pub(crate) const TO_WIRE: Field = Field(b"TO", Form::Stream);

pub(crate) const RULE: Field = Field(b"RULE", Form::Choice(Words::Rules));

pub(crate) const LETTERS: Field = Field(b"ACTS", Form::Acts);

pub(crate) const SEED: Field = Field(b"N", Form::Upto(MOST_ID));

pub(crate) const LOSE: Field = Field(b"X", Form::Upto(MOST_ODDS));

pub(crate) const DOUBLE: Field = Field(b"D", Form::Upto(MOST_ODDS));

pub(crate) const HOLD: Field = Field(b"H", Form::LastOdds);

pub(crate) const LINK: Field = Field(b"NAME", Form::Link);

pub(crate) const CARRIES: Field = Field(b"[COUNT]", Form::Carries);

pub(crate) const VALUE: Field = Field(b"RVAL", Form::Upto(MOST_ID));

/// Whether a text is one of these words. Fails only when memory runs out.
fn is_one(alloc: Global, words: Words, text: &[u8]) -> Result<bool, NoMem> {
    let words = words.list(alloc)?;
    Ok(words.iter().any(|word| is_same_word(word, text)))
}

/// Whether a text is a part of at most that many bytes. Fails only when memory runs out.
fn is_part(alloc: Global, text: &[u8], most: usize) -> Result<bool, NoMem> {
    match part_at(alloc, text) {
        Ok(bytes) => Ok(bytes.len() <= most),
        Err(ReadError::Fault(_)) => Ok(false),
        Err(ReadError::Memory) => Err(NoMem),
    }
}

/// Whether a text is a number of at least `least` and at most `most`.
fn is_number(text: &[u8], least: u64, most: u64) -> bool {
    match number_at(text, most) {
        Ok(n) => least <= n,
        Err(_) => false,
    }
}

/// Whether a text is a pattern of acts.
fn is_pattern(text: &[u8]) -> bool {
    text.len() <= MOST_ACTS
        && text
            .iter()
            .all(|letter| matches!(letter, b'k' | b'x' | b'd' | b'h'))
}

impl Form {
    /// Whether `-` may stand in the place of a value.
    pub(crate) fn is_optional(self) -> bool {
        matches!(
            self,
            Form::OptionalMarks | Form::OptionalPart(_) | Form::OptionalChoice(_)
        )
    }

    /// Whether the field may be the one that is refused for this cause. Whether a name is taken or missing,
    /// no line says by itself: a field that is a name may be the one for each fault of a name. Fails only
    /// when memory runs out.
    pub(crate) fn may_be_refused(
        self,
        alloc: Global,
        text: &[u8],
        cause: Cause,
    ) -> Result<bool, NoMem> {
        if self.is_optional() && text == b"-".as_slice() {
            return Ok(false);
        }
        match self {
            Form::Target | Form::Stream | Form::Link => Ok(cause == Cause::NoSuch),
            Form::NewStream | Form::NewProcess | Form::NewLink | Form::Module => {
                Ok(cause == Cause::Name)
            }
            Form::Acts => Ok(cause == Cause::Part && !is_pattern(text)),
            Form::LastOdds => Ok(cause == Cause::Number),
            Form::Carries => Ok(cause == Cause::Number && !is_number(text, 1, MOST_CARRIES)),
            Form::Upto(most) => Ok(cause == Cause::Number && !is_number(text, 0, most)),
            Form::FromOne(most) => {
                Ok(cause == Cause::Number && !is_number(text, 1, u64::from(most)))
            }
            Form::Maximum => Ok(
                cause == Cause::Number
                    && text != b"-1".as_slice()
                    && !is_number(text, 0, MOST_ASKED),
            ),
            Form::Marks | Form::OptionalMarks => Ok(marks_at(text) == Err(cause)),
            Form::Part(most) | Form::OptionalPart(most) => {
                Ok(cause == Cause::Part && !is_part(alloc, text, most)?)
            }
            Form::Choice(words) | Form::OptionalChoice(words) => {
                Ok(cause == Cause::UnknownWord && !is_one(alloc, words, text)?)
            }
        }
    }
}
