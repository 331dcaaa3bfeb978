//! The entries of a process in the histories of all streams.
ghost use Rattle.std.specs.Prelude.{◌≡◌, [], IfOk, get_or, length, slice_get};
ghost use Rattle.std.specs.Option.{option_map};
ghost use Rattle.strm_shared_entry.specs.Entry.{is_caller};
ghost use Rattle.strm_shared_entry.specs.Own.{own};
ghost use Rattle.strm_script_expect.specs.Unmet.{AreNumbers, entry_at, owned_by, seen, seen_all};

use std::alloc::Global;
use strm_msg::NoMem;
use strm_shared_entry::{Kept, StreamLog, Who};

/// Whether a caller made a step.
fn is_caller(caller: usize, who: Who) -> bool
    ensures { result ≡ is_caller caller who }
{
    match who {
        Who::Caller(other) => other as usize == caller,
        Who::Line => false,
    }
}

/// The entries of a caller in a history. Fails only when memory runs out.
fn own<K>(alloc: Global, caller: usize, history: &[Kept<K>]) -> Result<Vec<&Kept<K>>, NoMem>
    ensures { IfOk result (λ all. seen all.items ≡ own caller history.now) }
{
    let mut all = Vec::new(alloc);
    for entry in history {
        if is_caller(caller, entry.who()) {
            all.push(entry)?;
        }
    }
    Ok(all)
}

/// The entries of a caller in the history of each stream, in order. Fails only when memory runs out.
pub(crate) fn owned_by<K>(
    alloc: Global,
    caller: usize,
    logs: &[StreamLog<K>],
) -> Result<Vec<Vec<&Kept<K>>>, NoMem>
    ensures { IfOk result (λ all. seen_all all.items ≡ owned_by caller logs.now) }
{
    let mut all = Vec::with_capacity(alloc, logs.len())?;
    for log in logs {
        all.push(own(alloc, caller, log.history.as_slice())?)?;
    }
    Ok(all)
}

/// The entry of this number on a stream.
fn entry_in<'a, K>(owned: &[Vec<&'a Kept<K>>], stream: usize, number: usize) -> Option<&'a Kept<K>>
    ensures { option_map (λ entry. entry.now) result ≡ slice_get (get_or (seen_all owned.now) stream []) number }
{
    owned.get(stream)?.get(number).copied()
}

/// The entry of a call of a process, by the entries of the process on each stream, the stream of each call
/// and the number of each call on its stream.
pub(crate) fn entry_at<'a, K>(
    owned: &[Vec<&'a Kept<K>>],
    streams: &[u32],
    numbers: &[usize],
    call: usize,
) -> Option<&'a Kept<K>>
    requires { AreNumbers streams.now (length owned.now) numbers.now }
    ensures { option_map (λ entry. entry.now) result ≡ entry_at (seen_all owned.now) streams.now call }
{
    let stream = *streams.get(call)?;
    let number = *numbers.get(call)?;
    entry_in(owned, stream as usize, number)
}
