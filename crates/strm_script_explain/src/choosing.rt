//! What is at fault in a line.
ghost use Rattle.std.specs.Prelude.{◌≡◌, ◌≢◌, ◌<◌, IfOk, length, not};
ghost use Rattle.std.specs.List.{position_or_len};
ghost use Rattle.strm_script_text.specs.Bytes as bytes;
ghost use Rattle.strm_script_text.specs.Text.{fields_of, texts_of};
ghost use Rattle.strm_script_explain.specs.Marked.{IsFieldBelow};

use crate::field::Field;
use crate::layout::{Layout, layout_of, word_at};
use crate::line::Section;
use crate::mark::Marked;
use std::alloc::Global;
use strm_msg::NoMem;
use strm_script_text::cut_fields;
use strm_script_words::{Cause, ReadError, Verb, from_keyword, part_at};

/// The word that begins a feed.
pub(crate) const FEED: &[u8] = b"feed";

/// The word of a line in a process that awaits a feed.
pub(crate) const AWAIT: &[u8] = b"await";

/// The word of a line in a process that carries on a link.
pub(crate) const CARRY: &[u8] = b"carry";

/// The word of a link.
pub(crate) const LINK: &[u8] = b"link";

/// A line that has a fault.
#[derive(Drop)]
pub(crate) struct Faulty<'a> {
    /// The cause of the fault.
    pub(crate) cause: Cause,
    /// The section to which the line belongs.
    pub(crate) section: Section,
    /// Its fields.
    pub(crate) texts: Vec<&'a [u8]>,
    /// The number of fields that are in front of those of expected replies.
    pub(crate) own: usize,
    /// The fields that it may have.
    pub(crate) layout: Layout,
}

/// Whether a byte may be in a line: a tab, and 0x20 to 0x7e.
fn is_allowed(byte: u8) -> bool
    ensures { result ≡ bytes.is_allowed byte }
{
    byte == b'\t' || byte == b' ' || byte.is_ascii_graphic()
}

/// The number of the first byte that no line may have; the length of the line if there is none.
pub(crate) fn refused_byte(line: &[u8]) -> usize
    ensures { result ≡ position_or_len (λ byte. not (bytes.is_allowed byte)) line.now }
{
    for (at, byte) in line.iter().enumerate() {
        if !is_allowed(*byte) {
            return at;
        }
    }
    line.len()
}

/// The number of the first `:` behind NAME:END, which begins the expected replies of a call; that of all
/// fields if there is none.
fn colon(texts: &[&[u8]]) -> usize {
    for (at, text) in texts.iter().enumerate() {
        if at > 1 && *text == b":".as_slice() {
            return at;
        }
    }
    texts.len()
}

/// The number of fields that are in front of those of expected replies, which calls alone have.
fn own_fields(section: Section, texts: &[&[u8]]) -> usize {
    if section == Section::Process && from_keyword::<Verb>(word_at(texts, 0)).is_some() {
        colon(texts)
    } else {
        texts.len()
    }
}

/// The length of a part; 0 if a text is none. Fails only when memory runs out.
fn part_len(alloc: Global, text: &[u8]) -> Result<usize, NoMem> {
    match part_at(alloc, text) {
        Ok(bytes) => Ok(bytes.len()),
        Err(ReadError::Fault(_)) => Ok(0),
        Err(ReadError::Memory) => Err(NoMem),
    }
}

impl<'a> Faulty<'a> {
    /// A line of a section with a fault of this cause. Fails only when memory runs out.
    pub(crate) fn new(
        alloc: Global,
        cause: Cause,
        section: Section,
        line: &'a [u8],
    ) -> Result<Faulty<'a>, NoMem>
        ensures cause { IfOk result (λ faulty. faulty.cause ≡ cause) }
        ensures texts { IfOk result (λ faulty. texts_of faulty.texts.items ≡ fields_of line.now) }
    {
        let mut texts = Vec::new(alloc);
        cut_fields(line, &mut texts)?;
        let own = own_fields(section, texts.as_slice());
        let layout = layout_of(alloc, section, texts.as_slice())?;
        Ok(Faulty {
            cause,
            section,
            texts,
            own,
            layout,
        })
    }

    /// The field of this number; no bytes if the line has fewer.
    pub(crate) fn text(&self, number: usize) -> &'a [u8] {
        word_at(self.texts.as_slice(), number)
    }

    /// What the field of this number is; nothing for the first word, and if the line may have no such field.
    pub(crate) fn field(&self, number: usize) -> Option<Field> {
        self.layout.fields.get(number.checked_sub(1)?).copied()
    }

    /// Whether the line has more fields than it may have.
    pub(crate) fn has_too_many(&self) -> bool {
        self.layout.is_whole && self.own > self.layout.fields.len() + 1
    }

    /// Whether the line has as many fields as it may have.
    pub(crate) fn has_enough(&self) -> bool {
        self.layout.is_whole && self.own == self.layout.fields.len() + 1
    }

    /// The first `|` of the expected replies that has no field before it, or the end of the line.
    fn missing_reply(&self) -> Marked {
        let mut has = false;
        for (at, text) in self.texts.iter().enumerate() {
            if at <= self.own {
                continue;
            }
            let is_bar = *text == b"|".as_slice();
            if is_bar && !has {
                return Marked::Field(at);
            }
            has = !is_bar;
        }
        Marked::End
    }

    /// The first field too many, or the place of a field or an expected reply that is missing.
    fn wrong_number(&self) -> Marked {
        if self.has_too_many() {
            return Marked::Field(self.layout.fields.len() + 1);
        }
        if self.has_enough() {
            return self.missing_reply();
        }
        if self.own < self.texts.len() {
            return Marked::Field(self.own);
        }
        Marked::End
    }

    /// The number of the first field that may be refused for the cause. Fails only when memory runs out.
    fn first_refused(&self, alloc: Global) -> Result<Option<usize>, NoMem> {
        for (at, field) in self.layout.fields.iter().enumerate() {
            if field
                .1
                .may_be_refused(alloc, self.text(at + 1), self.cause)?
            {
                return Ok(Some(at + 1));
            }
        }
        Ok(None)
    }

    /// The number of the field that spoils a table of two parts: the second if it has another length, else
    /// the first, which has a byte twice. Fails only when memory runs out.
    fn of_table(&self, alloc: Global) -> Result<usize, NoMem> {
        let to = self.layout.fields.len();
        let from = to.saturating_sub(1);
        let same = part_len(alloc, self.text(from))? == part_len(alloc, self.text(to))?;
        Ok(if same { from } else { to })
    }

    /// The number of the field whose value is refused. Fails only when memory runs out.
    fn refused_value(&self, alloc: Global) -> Result<usize, NoMem> {
        if !self.layout.is_whole && self.cause == Cause::UnknownWord {
            return Ok(self.layout.fields.len());
        }
        if let Some(at) = self.first_refused(alloc)? {
            return Ok(at);
        }
        if self.cause == Cause::Part {
            return self.of_table(alloc);
        }
        Ok(0)
    }

    /// The field of this number, or the first word if the line has fewer.
    fn field_or_word(&self, number: usize) -> Marked
        ensures { 0 < length self.now.texts.items → IsFieldBelow (length self.now.texts.items) result }
    {
        Marked::Field(if number < self.texts.len() { number } else { 0 })
    }

    /// Whether the line is for a stream or a link that cannot have it: a feed, or an await or a carry in a
    /// process.
    fn is_for_stream(&self) -> bool {
        self.text(0) == FEED
            || self.section == Section::Process && (self.text(0) == AWAIT || self.text(0) == CARRY)
    }

    /// What is at fault: one of the fields, if their number is right. Fails only when memory runs out.
    pub(crate) fn marked(&self, alloc: Global) -> Result<Marked, NoMem>
        ensures { self.now.cause ≢ Cause.Fields → 0 < length self.now.texts.items
            → IfOk result (IsFieldBelow (length self.now.texts.items)) }
    {
        match self.cause {
            Cause::Fields => Ok(self.wrong_number()),
            Cause::OutOfPlace if self.is_for_stream() => Ok(self.field_or_word(1)),
            Cause::OutOfPlace | Cause::TooMany => Ok(self.field_or_word(0)),
            _ => Ok(self.field_or_word(self.refused_value(alloc)?)),
        }
    }
}
