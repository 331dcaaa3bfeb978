//! NAME:END, the stream and the end of a call.
ghost use Rattle.std.specs.Prelude.{◌≡◌, ◌≤◌, length};
ghost use Rattle.strm_script_parse.specs.Plan.{streams_of};
ghost use Rattle.strm_script_parse.specs.Targets as targets;
ghost use Rattle.strm_script_parse.specs.Last.{IsKnown};
ghost use Rattle.strm_script_parse.specs.declared.draft.TheConstants.{MOST_STREAMS};

use crate::declared::Found;
use crate::plan::{LONGEST, Name};
use indexmap::IndexMap;
use strm_head_calls::Setup;
use strm_module::Driver;
use strm_msg::End;
use strm_script_text::{is_same_word, name, split_once};

/// The end of a word: `a`, or `b` for a loop stream; nothing for another word.
fn end_of(driver: Driver, text: &[u8]) -> Option<End>
    ensures { result ≡ targets.end_of driver text.now }
{
    match (driver, text) {
        (Driver::Loop, b"b") => Some(End::B),
        (_, b"a") => Some(End::A),
        _ => None,
    }
}

/// The number and the driver of the stream of this name; nothing if there is none.
fn stream_of(streams: &IndexMap<Name, Setup>, wanted: &Name) -> Option<(u32, Driver)>
    requires { length streams.now.entries ≤ MOST_STREAMS }
    ensures { result ≡ targets.stream_of (streams_of streams.now) wanted.now.items }
{
    let (number, _, setup) = streams.get_full(wanted)?;
    Some((number as u32, setup.driver))
}

/// The number and the driver of the stream that a field names; nothing if it names none. The stream is kept
/// as the one that was found last, and is looked for only if it is another one.
#[inline(always)]
pub(crate) fn stream_at(
    streams: &IndexMap<Name, Setup>,
    last: &mut Option<Found>,
    text: &[u8],
) -> Option<(u32, Driver)>
    requires few { length streams.now.entries ≤ MOST_STREAMS }
    requires known { IsKnown (streams_of streams.now) last.old }
    ensures stream { result ≡ targets.stream_at (streams_of streams.now) text.now }
    ensures known { IsKnown (streams_of streams.now) last.new }
{
    if let Some(found) = last {
        if is_same_word(found.name.as_slice(), text) {
            return Some((found.number, found.driver));
        }
    }
    let name = name::<LONGEST>(text)?;
    let (number, driver) = stream_of(streams, &name)?;
    *last = Some(Found {
        name,
        number,
        driver,
    });
    Some((number, driver))
}

/// The number of the stream and the end of a NAME:END; nothing if there is no such stream or end.
pub(crate) fn target_of(
    streams: &IndexMap<Name, Setup>,
    last: &mut Option<Found>,
    text: &[u8],
) -> Option<(u32, End)>
    requires few { length streams.now.entries ≤ MOST_STREAMS }
    requires known { IsKnown (streams_of streams.now) last.old }
    ensures target { result ≡ targets.target_of (streams_of streams.now) text.now }
    ensures known { IsKnown (streams_of streams.now) last.new }
{
    let (name, end) = split_once(text, b':')?;
    let (number, driver) = stream_at(streams, last, name)?;
    let end = end_of(driver, end)?;
    Some((number, end))
}
