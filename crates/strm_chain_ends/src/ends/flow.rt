//! Flow control: the queue that is next after a place's, and whether a place may or must move.
ghost use Rattle.std.specs.Prelude.{◌≡◌, ◌≤◌, true, false, IfSome, Some, is_some, length, option_copied, option_map};
ghost use Rattle.strm_module.specs.declared.driver.TheConstants.{MOST_MODULES};
ghost use Rattle.strm_chain_end.specs.Canput.{fill_of, below, full_in, slack_in};
ghost use Rattle.strm_chain_ends.specs.Image.{end_of};
ghost use Rattle.strm_chain_ends.specs.Path.{ahead};
ghost use Rattle.strm_chain_ends.specs.Flow.{offer_of, turn_of, may, is_due};
ghost use Rattle.strm_chain_ends.specs.Held.{held_by};
ghost use Rattle.strm_chain_ends.specs.Next.{next_of, next_down, next_up, modules_at, IsCounted};
ghost use Rattle.strm_chain_ends.specs.declared.place.NextQueue.TheVariants.{Of};
ghost use Rattle.strm_chain_ends.specs.declared.place.Place.TheVariants as Places;
ghost use Rattle.strm_chain_end.specs.Next.{next_above};

use super::Ends;
use crate::place::{NextQueue, Place};
use strm_chain_end::Offer;
use strm_module::{Driver, ModuleOf, Turn};
use strm_msg::{End, Side};
use strm_queue::BandQueue;

/// The queue below a module, where the first write queue below it was looked for.
fn next_down(driver: Driver, end: End, next: Option<usize>) -> Option<NextQueue>
    requires { IfSome next (λ i. i ≤ MOST_MODULES) }
    ensures value { result ≡ next_down driver end next }
    ensures few { IfSome result (λ queue. IsCounted queue) }
{
    match (next, driver) {
        (Some(i), _) => Some(NextQueue::Of {
            place: Place::Wr { end, i: i as u8 },
        }),
        (None, Driver::Line) => None,
        (None, _) => Some(NextQueue::Of {
            place: Place::Drv { end },
        }),
    }
}

/// The queue above a module, where the first read queue above it was looked for.
fn next_up(is_open: bool, end: End, next: Option<usize>) -> Option<NextQueue>
    requires { IfSome next (λ i. i ≤ MOST_MODULES) }
    ensures value { result ≡ next_up is_open end next }
    ensures few { IfSome result (λ queue. IsCounted queue) }
{
    match next {
        Some(i) => Some(NextQueue::Of {
            place: Place::Rd { end, i: i as u8 },
        }),
        None if is_open => Some(NextQueue::Head { end }),
        None => None,
    }
}

impl<M: ModuleOf> Ends<M> {
    /// The queue above a module of an end, and above all k of them where `i` is k + 1.
    fn next_above(&self, end: End, i: usize) -> Option<NextQueue>
        ensures few { IfSome result (λ queue. IsCounted queue) }
        ensures value { result ≡ next_up (end_of self.now.image end).is_open end (next_above (modules_at self.now.image end) i) }
    {
        let state = self.end(end);
        // The proof learns from the number of modules that theirs are at most eight.
        let _ = state.count();
        next_up(state.is_open(), end, state.next_above(i))
    }

    /// The queue in which a message that leaves a place comes to wait. There is none where a line consumes it
    /// or a closed end drops it.
    pub fn next_of(&self, place: Place) -> Option<NextQueue>
        ensures value { result ≡ next_of self.now.image place }
        ensures few { IfSome result (λ queue. IsCounted queue) }
    {
        match place {
            Place::Wr { end, i } => {
                let state = self.end(end);
                // The proof learns from the number of modules that theirs are at most eight.
                let _ = state.count();
                next_down(self.driver, end, state.next_below(usize::from(i)))
            }
            Place::Drv { end } => {
                let partner = self.driver.partner_of(end);
                self.next_above(partner, self.count(partner) + 1)
            }
            Place::Rd { end, i } => self.next_above(end, usize::from(i)),
        }
    }

    /// The queue ahead of a place, if there is one.
    #[inline(always)]
    fn queue_ahead(&self, place: Place) -> Option<&BandQueue>
        ensures { option_map fill_of (option_copied result) ≡ ahead self.now.image place }
    {
        match place {
            Place::Wr { end, i } => self.end(end).queue_below(self.driver, usize::from(i)),
            Place::Drv { end } => {
                let partner = self.driver.partner_of(end);
                self.end(partner).queue_above(self.count(partner) + 1)
            }
            Place::Rd { end, i } => self.end(end).queue_above(usize::from(i)),
        }
    }

    /// Whether the queue ahead of a place is full in a band, where bcanputnext(9F) would answer the opposite.
    pub fn full_ahead_of(&self, place: Place, band: u8) -> bool
        ensures { result ≡ full_in (ahead self.now.image place) band }
    {
        match self.queue_ahead(place) {
            Some(queue) => queue.full(band),
            None => false,
        }
    }

    /// Whether the queue ahead of a place has drained to its low mark in a band.
    fn slack_ahead_of(&self, place: Place, band: u8) -> bool
        ensures { result ≡ slack_in (ahead self.now.image place) band }
    {
        match self.queue_ahead(place) {
            Some(queue) => queue.slack(band),
            None => true,
        }
    }

    /// Whether the first write queue of an end is full in a band, where bcanput(9F) would answer the
    /// opposite: the topmost write queue of its modules, else the list of an echo, a loop or a
    /// wire. Without one it is not.
    pub fn full_ahead(&self, end: End, band: u8) -> bool
        ensures { result ≡ full_in (below self.now.image.driver (end_of self.now.image end) 0) band }
    {
        match self.end(end).queue_below(self.driver, 0) {
            Some(queue) => queue.full(band),
            None => false,
        }
    }

    /// The offer of a place: the message that it would move now, or one of a module's own.
    #[inline(always)]
    pub fn offer(&self, place: Place) -> Option<Offer>
        ensures { result ≡ offer_of M.Kind.means self.now.image place }
    {
        match place {
            Place::Wr { end, i } => self.end(end).offer(i, Side::Wr),
            Place::Drv { end } => {
                if !self.driver.services(end) {
                    return None;
                }
                match self.end(end).driver_list().first() {
                    Some(m) => Some(Offer::of(m)),
                    None => None,
                }
            }
            Place::Rd { end, i } => self.end(end).offer(i, Side::Rd),
        }
    }

    /// The turn of the service of a place, as things are now.
    pub fn turn(&self, place: Place) -> Turn
        ensures { result ≡ turn_of M.Kind.means self.now.image place }
    {
        match place {
            Place::Wr { end, i } => self.end(end).turn(i, Side::Wr),
            Place::Drv { .. } => Turn::Serves,
            Place::Rd { end, i } => self.end(end).turn(i, Side::Rd),
        }
    }

    /// The turns of the services of both sides of a module, as things are now.
    pub fn turns(&self, end: End, i: u8) -> (Turn, Turn)
        ensures wr { result.0 ≡ turn_of M.Kind.means self.now.image (Places.Wr end i) }
        ensures rd { result.1 ≡ turn_of M.Kind.means self.now.image (Places.Rd end i) }
    {
        let wr = self.turn(Place::Wr { end, i });
        let rd = self.turn(Place::Rd { end, i });
        (wr, rd)
    }

    /// Whether the first message of a place may move; nothing where it holds none.
    fn front_may(&self, place: Place) -> Option<bool>
        ensures { result ≡ option_map (λ _. may M.Kind.means self.now.image place) (offer_of M.Kind.means self.now.image place) }
    {
        match self.offer(place) {
            Some(o) => Some(o.is_high || !self.full_ahead_of(place, o.band)),
            None => None,
        }
    }

    /// Whether the first message of a place must move.
    fn front_is_due(&self, place: Place) -> bool
        ensures { result ≡ is_due M.Kind.means self.now.image place }
    {
        match self.offer(place) {
            Some(o) => o.is_high || self.slack_ahead_of(place, o.band),
            None => false,
        }
    }

    /// Whether a place that holds a message may move: the first is high, or the queue ahead is not full in
    /// its band. Nothing where it holds none, as one that is not there. One that may not must not, since each
    /// low mark is below its high one.
    pub fn first_may(&self, place: Place) -> Option<bool>
        ensures value { result ≡ option_map (λ _. may M.Kind.means self.now.image place) (offer_of M.Kind.means self.now.image place) }
        ensures rests { result ≡ Some false → is_due M.Kind.means self.now.image place ≡ false }
    {
        // The proof learns from the numbers of modules that each low mark is below its high one.
        let _ = self.count(End::A);
        let _ = self.count(End::B);
        self.front_may(place)
    }

    /// Whether a place may move: it holds a message, and the first is high or the queue ahead is not
    /// full in its band. A place that is not there may not. One that may not must not.
    pub fn may(&self, place: Place) -> bool
        ensures value { result ≡ may M.Kind.means self.now.image place }
        ensures rests { result ≡ false → is_due M.Kind.means self.now.image place ≡ false }
    {
        self.first_may(place) == Some(true)
    }

    /// Whether a place must move: it holds a message, and the first is high or the queue ahead has
    /// drained to its low mark in its band.
    pub fn is_due(&self, place: Place) -> bool
        ensures value { result ≡ is_due M.Kind.means self.now.image place }
        ensures few { result ≡ true → IsCounted (Of place) }
    {
        // The proof learns from the numbers of modules that there are at most eight.
        let _ = self.count(End::A);
        let _ = self.count(End::B);
        self.front_is_due(place)
    }

    /// Whether a place holds a message. Only one that is there does.
    pub fn holds(&self, place: Place) -> bool
        ensures value { result ≡ is_some (offer_of M.Kind.means self.now.image place) }
        ensures few { result ≡ true → IsCounted (Of place) }
    {
        // The proof learns from the numbers of modules that there are at most eight.
        let _ = self.count(End::A);
        let _ = self.count(End::B);
        self.offer(place).is_some()
    }

    /// The number of messages in a queue, 0 in one that is not there.
    pub fn len(&self, queue: NextQueue) -> usize
        ensures { result ≡ length (held_by self.now.image queue) }
    {
        match queue {
            NextQueue::Of {
                place: Place::Wr { end, i },
            } => self.end(end).len(i, Side::Wr),
            NextQueue::Of {
                place: Place::Drv { end },
            } => self.end(end).driver_list().len(),
            NextQueue::Of {
                place: Place::Rd { end, i },
            } => self.end(end).len(i, Side::Rd),
            NextQueue::Head { end } => self.end(end).head().len(),
        }
    }
}
