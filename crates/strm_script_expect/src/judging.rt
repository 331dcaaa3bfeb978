//! The expected replies that were not met.
ghost use Rattle.std.specs.Prelude.{◌≡◌, ◌++◌, IfOk, OnOk, length, map};
ghost use Rattle.std.specs.List.{list_any};
ghost use Rattle.std.specs.Option.{option_map};
ghost use Rattle.std.specs.Str.{bytes_eq};
ghost use Rattle.strm_script_parse.specs.Plan.{expected_view, texts_in};
ghost use Rattle.strm_script_parse.specs.RunInput.{replies_view};
ghost use Rattle.strm_script_expect.specs.Unmet.{AreNumbers, entry_at, owned_by, said_in, seen_all};
ghost use Rattle.strm_script_expect.specs.Unmet.{unmet_by, unmet_of, unmet_of_process, missed_view};

use crate::counting::numbers;
use crate::owned::{entry_at, owned_by};
use std::alloc::Global;
use strm_msg::NoMem;
use strm_script_parse::{Expected, Replies};
use strm_script_print::put_said;
use strm_shared_entry::{Kept, StreamLog, Transcript};

/// An expected reply that was not met.
#[derive(Drop)]
pub struct Missed {
    /// The reply that was expected.
    pub expected: Expected,
    /// The reply that the call had, as a transcript has it behind its `:`.
    pub was: Vec<u8>,
}

/// The reply in an entry, as a transcript has it behind its `:`; no text if there is no entry. Fails only
/// when memory runs out.
fn said_in<K>(alloc: Global, entry: Option<&Kept<K>>) -> Result<Vec<u8>, NoMem>
    ensures { IfOk result (λ text. text.items ≡ said_in (option_map (λ entry. entry.now) entry.entry)) }
{
    let mut text = Vec::new(alloc);
    if let Some(kept) = entry {
        let Ok(()) = put_said(&mut text, kept.entry().answer()) else {
            return Err(NoMem);
        };
    }
    Ok(text)
}

/// Whether a text is one of some others.
fn is_one(choices: &[Vec<u8>], text: &[u8]) -> bool
    ensures { result ≡ list_any (bytes_eq text.now) (texts_in choices.now) }
{
    for choice in choices {
        if text == choice.as_slice() {
            return true;
        }
    }
    false
}

/// Adds an expected reply to those that were not met, if this reply is none of its choices. Fails only when
/// memory runs out.
fn add_unmet(all: &mut Vec<Missed>, expected: Expected, was: Vec<u8>) -> Result<(), NoMem>
    ensures { OnOk result (map missed_view all.new.items
        ≡ map missed_view all.old.items ++ unmet_by was.items (expected_view expected)) }
{
    if !is_one(expected.choices.as_slice(), was.as_slice()) {
        all.push(Missed { expected, was })?;
    }
    Ok(())
}

/// Adds the replies that were not met of those that a process expected, by its entries on each stream. Fails
/// only when memory runs out.
fn add_unmet_of<K>(
    alloc: Global,
    all: &mut Vec<Missed>,
    owned: &[Vec<&Kept<K>>],
    replies: Replies,
) -> Result<(), NoMem>
    ensures { OnOk result (map missed_view all.new.items
        ≡ map missed_view all.old.items ++ unmet_of_process (seen_all owned.now) (replies_view replies)) }
{
    let Replies { streams, expected } = replies;
    let numbers = numbers(alloc, streams.as_slice(), owned.len())?;
    for one in expected {
        let entry = entry_at(owned, streams.as_slice(), numbers.as_slice(), one.call);
        add_unmet(all, one, said_in(alloc, entry)?)?;
    }
    Ok(())
}

/// Adds the replies that were not met of those that a process expected, by its number. Fails only when memory
/// runs out.
fn add_unmet_by<K>(
    alloc: Global,
    all: &mut Vec<Missed>,
    logs: &[StreamLog<K>],
    caller: usize,
    replies: Replies,
) -> Result<(), NoMem>
    ensures { OnOk result (map missed_view all.new.items
        ≡ map missed_view all.old.items ++ unmet_of_process (owned_by caller logs.now) (replies_view replies)) }
{
    if replies.expected.is_empty() {
        return Ok(());
    }
    let owned = owned_by(alloc, caller, logs)?;
    add_unmet_of(alloc, all, owned.as_slice(), replies)
}

/// The expected replies that were not met, process after process, and those of a process in order: a reply is
/// met if it is one of the choices, byte for byte, as a transcript has it. `expected` has those of each
/// process, in order.
///
/// Only the processes that expect replies cost time: for each, all histories are gone through once. Fails
/// only when memory runs out.
pub fn unmet<K>(
    alloc: Global,
    transcript: &Transcript<K>,
    expected: Vec<Replies>,
) -> Result<Vec<Missed>, NoMem>
    ensures { IfOk result (λ all. map missed_view all.items
        ≡ unmet_of transcript.now.streams.items (map replies_view expected.items)) }
{
    let mut all = Vec::new(alloc);
    let mut caller: usize = 0;
    for replies in expected {
        add_unmet_by(
            alloc,
            &mut all,
            transcript.streams.as_slice(),
            caller,
            replies,
        )?;
        caller += 1;
    }
    Ok(all)
}
