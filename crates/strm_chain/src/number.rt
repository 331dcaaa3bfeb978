//! Queues by number, for the run queue and for the places that wait.
ghost use Rattle.std.specs.Prelude.{◌≡◌, ◌<◌};
ghost use Rattle.strm_chain.specs.Number.{at_end, queue_number, place_number, place_of, end_by};

use strm_chain_ends::{NextQueue, Place};
use strm_msg::End;

/// The number of queue numbers, with eight modules at each of two ends.
pub const QUEUES: usize = 40;

/// The number of a queue: this one at end A, or the one after it at end B.
fn at_end(end: End, number: usize) -> usize
    requires { number < 2000 }
    ensures { result ≡ at_end end number }
{
    match end {
        End::A => number,
        End::B => number + 1,
    }
}

/// The number of a queue.
pub(crate) fn number_of(queue: NextQueue) -> usize
    ensures { result ≡ queue_number queue }
{
    match queue {
        NextQueue::Head { end } => at_end(end, 0),
        NextQueue::Of { place } => place_number(place),
    }
}

/// The number of a place, which is that of its queue.
pub(crate) fn place_number(place: Place) -> usize
    ensures { result ≡ place_number place }
{
    match place {
        Place::Drv { end } => at_end(end, 2),
        Place::Wr { end, i } => at_end(end, 4 * usize::from(i) + 4),
        Place::Rd { end, i } => at_end(end, 4 * usize::from(i) + 6),
    }
}

/// The end of a number: even ones are of end A.
fn end_by(number: usize) -> End
    ensures { result ≡ end_by number }
{
    if number % 2 == 0 { End::A } else { End::B }
}

/// The place of a number, which is not that of a head.
pub(crate) fn place_of(number: usize) -> Place
    requires { number < QUEUES }
    ensures { result ≡ place_of number }
{
    let end = end_by(number);
    if number / 4 == 0 {
        return Place::Drv { end };
    }
    let i = (number / 4 - 1) as u8;
    if number % 4 < 2 {
        Place::Wr { end, i }
    } else {
        Place::Rd { end, i }
    }
}
