//! The calls of a process, counted stream by stream.
ghost use Rattle.std.specs.Prelude.{◌≡◌, ◌<◌, ◌≤◌, ◌+◌, ◌^◌, IfOk, get_or, length, replicate, slice_set};
ghost use Rattle.strm_script_expect.specs.Unmet.{AreNumbers};

use std::alloc::Global;
use strm_msg::NoMem;

/// The count at a place, which is one more from then on; 0 if there is no such place.
fn count(counts: &mut [usize], at: usize) -> usize
    requires { at < length counts.old → get_or counts.old at 0 < 2 ^ 63 }
    ensures count { result ≡ get_or counts.old at 0 }
    ensures inside { at < length counts.old → counts.new ≡ slice_set counts.old at (get_or counts.old at 0 + 1) }
    ensures outside { length counts.old ≤ at → counts.new ≡ counts.old }
{
    if at >= counts.len() {
        return 0;
    }
    let before = counts[at];
    counts[at] = before + 1;
    before
}

/// The number of each call, as `numbers` has it, by counts of which none is above 0 yet. Fails only when
/// memory runs out.
fn counted(alloc: Global, counts: &mut [usize], streams: &[u32]) -> Result<Vec<usize>, NoMem>
    requires { counts.old ≡ replicate (length counts.old) 0 }
    ensures { IfOk result (λ all. AreNumbers streams.now (length counts.old) all.items) }
{
    let mut all = Vec::with_capacity(alloc, streams.len())?;
    for stream in streams {
        all.push(count(counts, *stream as usize))?;
    }
    Ok(all)
}

/// The number of each call among those of its process on the same stream, from 0, by the streams of the
/// calls. There are `many` streams. Fails only when memory runs out.
pub(crate) fn numbers(alloc: Global, streams: &[u32], many: usize) -> Result<Vec<usize>, NoMem>
    ensures { IfOk result (λ all. AreNumbers streams.now many all.items) }
{
    let mut counts = vec![in alloc; 0usize; many]?;
    counted(alloc, counts.as_mut_slice(), streams)
}
