//! The replies that a call line expects: `: REPLY` behind the call, with `|` between choices.
ghost use Rattle.std.specs.Option.{option_map};
ghost use Rattle.std.specs.Prelude.{◌≡◌, ◌++◌, ◌∷◌, [], false, map, position, IfOk, OnOk};
ghost use Rattle.strm_script_parse.specs.Expected as expects;
ghost use Rattle.strm_script_parse.specs.Expected.{call_fields, choices_from, each_has, expected_of};
ghost use Rattle.strm_script_parse.specs.Expected.{is_colon, reply_fields};
ghost use Rattle.strm_script_parse.specs.Plan.{expected_view, texts_in};
ghost use Rattle.strm_script_text.specs.Text.{texts_of};

use crate::plan::Expected;
use std::alloc::Global;
use strm_msg::NoMem;

/// Whether a field is `|`, which stands between two choices.
fn is_bar(text: &[u8]) -> bool
    ensures { result ≡ expects.is_bar text.now }
{
    text == b"|".as_slice()
}

/// The place of the first field that is `:`.
fn colon_at(texts: &[&[u8]]) -> Option<usize>
    ensures { result ≡ position (λ text. is_colon text.now) texts.now }
{
    texts.iter().position(|text| *text == b":".as_slice())
}

/// The fields of a call, and those of its expected replies, if a field `:` is between them. The first field
/// is NAME:END, whatever it is.
pub(crate) fn cut_replies<'a, 't>(texts: &'t [&'a [u8]]) -> (&'t [&'a [u8]], Option<&'t [&'a [u8]]>)
    ensures call { texts_of result.0.now ≡ call_fields (texts_of texts.now) }
    ensures replies { option_map (λ fields. texts_of fields.now) result.1 ≡ reply_fields (texts_of texts.now) }
{
    let [_, behind @ ..] = texts else {
        return (texts, None);
    };
    match colon_at(behind) {
        Some(at) => (&texts[..at + 1], Some(&behind[at + 1..])),
        None => (texts, None),
    }
}

/// Whether each choice has a field.
fn each_has(texts: &[&[u8]]) -> bool
    ensures { result ≡ expects.each_has false (texts_of texts.now) }
{
    let mut has = false;
    for text in texts {
        if is_bar(text) && !has {
            return false;
        }
        has = !is_bar(text);
    }
    has
}

/// Whether no replies are expected, or each choice has a field.
pub(crate) fn are_choices(replies: Option<&[&[u8]]>) -> bool
    ensures { result ≡ expects.are_choices (option_map (λ fields. texts_of fields.now) replies.entry) }
{
    match replies {
        Some(texts) => each_has(texts),
        None => true,
    }
}

/// Adds a field to a choice, with a blank in front of it. Fails only when memory runs out.
fn add_field(choice: &mut Vec<u8>, field: &[u8]) -> Result<(), NoMem>
    ensures { OnOk result (choice.new.items ≡ choice.old.items ++ 32 ∷ field.now) }
{
    choice.push(b' ')?;
    choice.extend_from_slice(field)?;
    Ok(())
}

/// The choices of these fields. Fails only when memory runs out.
fn choices(alloc: Global, fields: &[&[u8]]) -> Result<Vec<Vec<u8>>, NoMem>
    ensures { IfOk result (λ all. texts_in all.items ≡ choices_from [] (texts_of fields.now)) }
{
    let mut all = Vec::new(alloc);
    let mut choice = Vec::new(alloc);
    for field in fields {
        if is_bar(field) {
            all.push(choice)?;
            choice = Vec::new(alloc);
        } else {
            add_field(&mut choice, field)?;
        }
    }
    all.push(choice)?;
    Ok(all)
}

/// Adds the replies that a line expects of a call, if it does. Fails only when memory runs out.
pub(crate) fn add_expected(
    alloc: Global,
    expected: &mut Vec<Expected>,
    line: u64,
    call: usize,
    replies: Option<&[&[u8]]>,
) -> Result<(), NoMem>
    ensures { OnOk result (map expected_view expected.new.items ≡ map expected_view expected.old.items
        ++ expected_of line call (option_map (λ fields. texts_of fields.now) replies.entry)) }
{
    if let Some(fields) = replies {
        let choices = choices(alloc, fields)?;
        expected.push(Expected {
            call,
            line,
            choices,
        })?;
    }
    Ok(())
}
