//! The number of calls that each caller of a shared stream has made.
ghost use Rattle.std.specs.Prelude.{◌≡◌, ◌↔◌, ◌<◌, true, IfOk, length};
ghost use Rattle.strm_shared.specs.CallCounts.{has_count, is_next, fresh_counts, counts_after, SeatsAgree};

use crate::seat::Seat;
use std::alloc::Global;
use std::marker::Model;
use strm_msg::NoMem;

/// The number of calls that each caller of a shared stream has made, and whether each was the next one of its
/// seat.
///
/// They are in turn for as long as each call comes from the one seat of its caller. A seat of another stream
/// of the same number is not recognised by its number, but by its count.
#[derive(Drop)]
pub(crate) struct CallCounts {
    counts: Vec<u64>,
    in_turn: bool,
}

impl Model for CallCounts {
    ghost use Rattle.strm_shared.specs.CallCounts.{CallCountsValue};

    ghost Value = { CallCountsValue };

    ghost view = { λ t. record { counts = t.counts.items; in_turn = t.in_turn } };
}

/// Whether a seat's caller has made as many calls as the seat counts.
fn has_count(seat: &Seat, counts: &[u64]) -> bool
    ensures { result ≡ has_count seat.now counts.now }
{
    counts.get(seat.caller() as usize) == Some(&seat.calls())
}

impl CallCounts {
    /// The counts before any caller has made a call. Fails only when memory runs out.
    pub(crate) fn new(alloc: Global, callers: u32) -> Result<CallCounts, NoMem>
        ensures { IfOk result (λ turns. turns ≡ fresh_counts callers) }
    {
        let counts = vec![in alloc; 0; callers as usize]?;
        Ok(CallCounts {
            counts,
            in_turn: true,
        })
    }

    /// Whether the next call of its caller on the stream of this number is one of this seat.
    pub(crate) fn is_next(&self, number: u32, seat: &Seat) -> bool
        ensures { result ≡ is_next number seat.now self.now.counts }
    {
        seat.number() == number && has_count(seat, self.counts.as_slice())
    }

    /// Counts a call that was made, by a seat that was next or not, and that has counted it.
    pub(crate) fn count(&mut self, was_next: bool, seat: &Seat)
        requires { was_next ≡ true → seat.now.caller < length self.old.counts }
        ensures { self.new ≡ counts_after was_next seat.now self.old }
    {
        if was_next {
            self.counts[seat.caller() as usize] = seat.calls();
        } else {
            self.in_turn = false;
        }
    }

    /// Whether the calls are in turn, those of as many callers, and each seat counts as many as its
    /// caller has made.
    pub(crate) fn seats_agree(&self, callers: u32, seats: &[Seat]) -> bool
        ensures { result ≡ true ↔ SeatsAgree self.now callers seats.now }
    {
        let counts = self.counts.as_slice();
        self.in_turn
            && counts.len() == callers as usize
            && seats.iter().all(|seat| has_count(seat, counts))
    }
}
