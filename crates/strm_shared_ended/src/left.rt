//! The log of a stream that has ended.
ghost use Rattle.std.specs.Prelude.{◌≡◌, ◌+◌, length};
ghost use Rattle.strm_msg.specs.declared.words.End.TheVariants.{A, B};
ghost use Rattle.strm_chain_ends.specs.Image.{end_of};
ghost use Rattle.strm_shared_entry.specs.Own.{arrivals};
ghost use Rattle.strm_shared_ended.specs.Left.{names_at};

use crate::ended::Ended;
use arrayvec::ArrayVec;
use strm_head::{MOST_MODULES, Name, Stream};
use strm_module::ModuleOf;
use strm_msg::End;
use strm_shared_entry::StreamLog;

/// The names of the modules on an end, topmost first; `None` where it is closed or not there.
fn names_at<M: ModuleOf>(stream: &Stream<M>, end: End) -> Option<ArrayVec<Name, MOST_MODULES>>
    ensures { result ≡ names_at (end_of stream.now end) }
{
    if stream.is_open(end) {
        return Some(stream.names(end));
    }
    None
}

/// The log of a stream that has ended, with the number of messages of its feed that were handed back.
pub fn log_of<M: ModuleOf>(ended: Ended<M>, overrun: u64) -> StreamLog<M::Kind>
    ensures history { result.history.items ≡ ended.history }
    ensures a { result.a ≡ names_at (end_of ended.stream A) }
    ensures b { result.b ≡ names_at (end_of ended.stream B) }
    ensures accepted { result.accepted ≡ length (arrivals ended.history) + length ended.left }
    ensures arrived { result.arrived ≡ length (arrivals ended.history) }
    ensures overrun { result.overrun ≡ overrun }
{
    let arrived = ended.arrival_count();
    let (history, stream, left) = ended.into_parts();
    StreamLog {
        history,
        a: names_at(&stream, End::A),
        b: names_at(&stream, End::B),
        accepted: arrived + left.len() as u64,
        arrived,
        overrun,
    }
}
