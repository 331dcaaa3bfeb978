//! What is wanted where a fault is, in words.
use crate::choosing::{AWAIT, CARRY, FEED, Faulty, LINK};
use crate::field::{Field, Form, MOST_ACTS, MOST_CARRIES, MOST_ODDS, TO};
use crate::line::Section;
use crate::mark::Marked;
use crate::near::meant;
use crate::words::add_all;
use itoa::Buffer;
use std::alloc::Global;
use strm_module::LONGEST_NAME;
use strm_msg::NoMem;
use strm_script_words::{Cause, MOST_ASKED, MOST_U32, MessageWord, Verb, from_keyword};

/// The longest name of a stream, a process or a link, in bytes.
const LONGEST: u64 = 16;

/// The most streams of a script.
const MOST_STREAMS: u64 = 64;

/// The most links of a script.
const MOST_LINKS: u64 = 64;

/// The most processes of a script.
const MOST_PROCESSES: u64 = 256;

/// The most calls of a process.
const MOST_CALLS: u64 = 65_536;

/// The most awaits of a process.
const MOST_AWAITS: u64 = 65_536;

/// The most messages of a feed.
const MOST_MESSAGES: u64 = 65_536;

/// The digits of a byte.
const DIGITS: &[u8; 16] = b"0123456789abcdef";

/// The words that begin a stream, a link, a process and a feed.
const FIRST_WORDS: [&[u8]; 4] = [b"stream", LINK, b"process", FEED];

/// Adds texts, one behind another. Fails only when memory runs out.
fn add(words: &mut Vec<u8>, texts: &[&[u8]]) -> Result<(), NoMem> {
    for text in texts {
        words.extend_from_slice(text)?;
    }
    Ok(())
}

/// Adds a number between two texts. Fails only when memory runs out.
fn add_number(words: &mut Vec<u8>, before: &[u8], n: u64, behind: &[u8]) -> Result<(), NoMem> {
    let mut digits = Buffer::new();
    add(words, &[before, digits.format(n).as_bytes(), behind])
}

/// Adds words of which one is wanted. Fails only when memory runs out.
fn add_choices(words: &mut Vec<u8>, choices: &[&[u8]]) -> Result<(), NoMem> {
    for (at, choice) in choices.iter().enumerate() {
        let before: &[u8] = if at == 0 {
            b"`"
        } else if at + 1 < choices.len() {
            b", `"
        } else {
            b" or `"
        };
        add(words, &[before, choice, b"`"])?;
    }
    Ok(())
}

/// Adds the word that was meant, if a text is nearly one of these. Fails only when memory runs out.
fn add_meant(words: &mut Vec<u8>, text: &[u8], choices: &[&[u8]]) -> Result<(), NoMem> {
    match meant(text, choices) {
        Some(choice) => add(words, &[b"; did you mean `", choice, b"`?"]),
        None => Ok(()),
    }
}

/// Adds what may stand in a field, without `-`. Fails only when memory runs out.
fn add_form(alloc: Global, words: &mut Vec<u8>, form: Form, cause: Cause) -> Result<(), NoMem> {
    match form {
        Form::Target => add(
            words,
            &[b"a stream that is declared above and its end, `a`, or `b` of a loop"],
        ),
        Form::Stream => add(words, &[b"a stream that is declared above"]),
        Form::NewStream => add_number(
            words,
            b"1 to ",
            LONGEST,
            b" letters, digits and `_`, which no stream above has",
        ),
        Form::NewProcess => add_number(
            words,
            b"1 to ",
            LONGEST,
            b" letters, digits and `_`, which no process above has, and not `line`",
        ),
        Form::NewLink => add_number(
            words,
            b"1 to ",
            LONGEST,
            b" letters, digits and `_`, which no link above has",
        ),
        Form::Link => add(words, &[b"a link that is declared above"]),
        Form::Acts => add_number(
            words,
            b"1 to ",
            MOST_ACTS as u64,
            b" of the letters `k`, `x`, `d` and `h`",
        ),
        Form::LastOdds => add_number(
            words,
            b"a number, so that X, D and H are together at most ",
            MOST_ODDS,
            b"",
        ),
        Form::Carries => add_number(words, b"a number from 1 to ", MOST_CARRIES, b""),
        Form::Module => add_number(
            words,
            b"1 to ",
            LONGEST_NAME as u64,
            b" letters, digits and `_`",
        ),
        Form::Upto(most) => add_number(words, b"a number from 0 to ", most, b""),
        Form::FromOne(most) => add_number(words, b"a number from 1 to ", u64::from(most), b""),
        Form::Maximum => add_number(words, b"a number from 0 to ", MOST_ASKED, b", or `-1`"),
        Form::Marks | Form::OptionalMarks if cause == Cause::Marks => {
            add(words, &[b"a low mark below the high one"])
        }
        Form::Marks | Form::OptionalMarks => add_number(
            words,
            b"two numbers from 0 to ",
            MOST_U32,
            b" with `/` between",
        ),
        Form::Part(most) | Form::OptionalPart(most) => add_number(
            words,
            b"a part of at most ",
            most as u64,
            b" bytes, such as `=ab%0a` or `*16:61`",
        ),
        Form::Choice(choices) | Form::OptionalChoice(choices) => {
            add_choices(words, choices.list(alloc)?.as_slice())
        }
    }
}

/// Adds what is wanted in a field. Fails only when memory runs out.
fn add_wanted(
    alloc: Global,
    words: &mut Vec<u8>,
    field: Field,
    text: &[u8],
    cause: Cause,
) -> Result<(), NoMem> {
    let Field(name, form) = field;
    add(words, &[b"wanted "])?;
    if !name.is_empty() {
        add(words, &[name, b": "])?;
    }
    add_form(alloc, words, form, cause)?;
    if form.is_optional() {
        add(words, &[b", or `-`"])?;
    }
    match form {
        Form::Choice(choices) | Form::OptionalChoice(choices) => {
            add_meant(words, text, choices.list(alloc)?.as_slice())
        }
        _ => Ok(()),
    }
}

/// Adds which words may begin a line of this section. Fails only when memory runs out.
fn add_first_word(
    alloc: Global,
    words: &mut Vec<u8>,
    section: Section,
    text: &[u8],
) -> Result<(), NoMem> {
    let mut choices: Vec<&'static [u8]> = Vec::new(alloc);
    for word in FIRST_WORDS {
        choices.push(word)?;
    }
    if section != Section::Feed {
        add_all::<Verb>(&mut choices)?;
        choices.push(AWAIT)?;
        choices.push(CARRY)?;
    }
    if section != Section::Process {
        add_all::<MessageWord>(&mut choices)?;
    }
    let what: &[u8] = if section == Section::Feed {
        b"message"
    } else {
        b"call"
    };
    add(words, &[b"no ", what, b" or line begins so"])?;
    add_meant(words, text, choices.as_slice())
}

/// Adds a field as the grammar has it: a word that says which fields there are by itself, another field by
/// its name, or by its words. Fails only when memory runs out.
fn add_field(alloc: Global, words: &mut Vec<u8>, field: Field, text: &[u8]) -> Result<(), NoMem> {
    let Field(name, form) = field;
    add(words, &[b" "])?;
    match form {
        Form::Choice(choices) if choices.is_head() && !text.is_empty() => add(words, &[text]),
        Form::Choice(choices) if name.is_empty() => {
            for (at, choice) in choices.list(alloc)?.iter().enumerate() {
                add(words, &[if at > 0 { b"|" } else { b"" }, choice])?;
            }
            Ok(())
        }
        _ => add(words, &[name]),
    }
}

/// Adds which fields a line has. Fails only when memory runs out.
fn add_grammar(alloc: Global, words: &mut Vec<u8>, faulty: &Faulty) -> Result<(), NoMem> {
    add(words, &[b"`", faulty.text(0)])?;
    for (at, field) in faulty.layout.fields.iter().enumerate() {
        let text = if at + 1 < faulty.own {
            faulty.text(at + 1)
        } else {
            b""
        };
        add_field(alloc, words, *field, text)?;
    }
    if !faulty.layout.is_whole {
        add(words, &[b" .."])?;
    }
    add(words, &[b"`"])
}

/// Adds what is wrong with the number of fields. Fails only when memory runs out.
fn add_number_of_fields(alloc: Global, words: &mut Vec<u8>, faulty: &Faulty) -> Result<(), NoMem> {
    if faulty.has_enough() {
        return add(
            words,
            &[b"a reply is missing: `: REPLY`, with `|` between two"],
        );
    }
    if faulty.has_too_many() {
        add(words, &[b"one field too many: "])?;
    } else {
        add(words, &[b"a field is missing: "])?;
    }
    add_grammar(alloc, words, faulty)
}

/// Adds where a line may be that is out of place. Fails only when memory runs out.
fn add_place(words: &mut Vec<u8>, section: Section, word: &[u8]) -> Result<(), NoMem> {
    if word == AWAIT {
        let wanted: &[u8] = if section == Section::Process {
            b"wanted NAME: a line or wire stream"
        } else {
            b"an await belongs below `process NAME`"
        };
        return add(words, &[wanted]);
    }
    if word == CARRY {
        let wanted: &[u8] = if section == Section::Process {
            b"wanted NAME: a link of no other process, and the only one of this process from its wire"
        } else {
            b"a carry belongs below `process NAME`"
        };
        return add(words, &[wanted]);
    }
    if word == LINK {
        return add(
            words,
            &[b"wanted FROM and TO: wires, and no feed of TO and no other link to TO"],
        );
    }
    if word == FEED {
        return add(
            words,
            &[b"wanted NAME: a line or wire stream that has no feed above"],
        );
    }
    let is_call = from_keyword::<Verb>(word).is_some();
    let is_message = from_keyword::<MessageWord>(word).is_some();
    if is_call {
        add(words, &[b"a call belongs below `process NAME`"])?;
    }
    if is_call && is_message {
        add(words, &[b", and "])?;
    }
    if is_message {
        add(words, &[b"a message belongs below `feed NAME`"])?;
    }
    Ok(())
}

/// Adds which limit a line is over. Fails only when memory runs out.
fn add_limit(words: &mut Vec<u8>, section: Section, word: &[u8]) -> Result<(), NoMem> {
    match (word, section) {
        (b"stream", _) => add_number(words, b"a script has at most ", MOST_STREAMS, b" streams"),
        (b"process", _) => {
            add_number(
                words,
                b"a script has at most ",
                MOST_PROCESSES,
                b" processes",
            )
        }
        (LINK, _) => add_number(words, b"a script has at most ", MOST_LINKS, b" links"),
        (AWAIT, Section::Process) => {
            add_number(words, b"a process has at most ", MOST_AWAITS, b" awaits")
        }
        (_, Section::Feed) => {
            add_number(words, b"a feed has at most ", MOST_MESSAGES, b" messages")
        }
        _ => add_number(words, b"a process has at most ", MOST_CALLS, b" calls"),
    }
}

/// Adds what is wanted in the field of this number. Fails only when memory runs out.
fn add_value(
    alloc: Global,
    words: &mut Vec<u8>,
    faulty: &Faulty,
    number: usize,
) -> Result<(), NoMem> {
    let text = faulty.text(number);
    let Some(field) = faulty.field(number) else {
        return add_first_word(alloc, words, faulty.section, text);
    };
    if field.1.may_be_refused(alloc, text, faulty.cause)? {
        return add_wanted(alloc, words, field, text, faulty.cause);
    }
    let wanted: &[u8] = if field == TO {
        b"wanted TO: as many bytes as FROM has"
    } else {
        b"wanted FROM: no byte twice"
    };
    add(words, &[wanted])
}

/// What is wanted in a line where this is marked. Fails only when memory runs out.
pub(crate) fn words_of(alloc: Global, faulty: &Faulty, marked: Marked) -> Result<Vec<u8>, NoMem> {
    let mut words = Vec::new(alloc);
    match (faulty.cause, marked) {
        (Cause::Fields, _) => add_number_of_fields(alloc, &mut words, faulty)?,
        (Cause::OutOfPlace, _) => add_place(&mut words, faulty.section, faulty.text(0))?,
        (Cause::TooMany, _) => add_limit(&mut words, faulty.section, faulty.text(0))?,
        (_, Marked::Field(number)) => add_value(alloc, &mut words, faulty, number)?,
        _ => {}
    }
    Ok(words)
}

/// What a byte is that no line may have. Fails only when memory runs out.
pub(crate) fn byte_words(alloc: Global, byte: u8) -> Result<Vec<u8>, NoMem> {
    let mut words = Vec::new(alloc);
    let digits = [DIGITS[(byte / 16) as usize], DIGITS[(byte % 16) as usize]];
    add(
        &mut words,
        &[b"only a comment may have the byte 0x", digits.as_slice()],
    )?;
    Ok(words)
}

/// What length a line or a script may have. Fails only when memory runs out.
pub(crate) fn length_words(alloc: Global, of: &[u8], most: usize) -> Result<Vec<u8>, NoMem> {
    let mut words = Vec::new(alloc);
    add_number(&mut words, of, most as u64, b" bytes")?;
    Ok(words)
}
