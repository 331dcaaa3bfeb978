//! The places that are enabled, and those that wait for a queue to drain.
ghost use Rattle.std.specs.Prelude.{◌≡◌, ◌⊎◌, ◌+◌, ◌||◌, ◌==◌, ◌<◌, ◌≤◌, ◌≢◌, [], IfOk, IfSome, IfNone, true, false, length, None, slice_get, slice_set, Some, is_some};
ghost use Rattle.strm_msg.specs.Count.{one_more};
ghost use Rattle.strm_queue.specs.Run.{AreOnce, with_place};
ghost use Rattle.strm_chain_ends.specs.Flow.{offer_of, turn_of, may, is_due};
ghost use Rattle.strm_chain_ends.specs.Held.{held_by, DiffersIn, AreCalm};
ghost use Rattle.strm_chain_ends.specs.Next.{next_of};
ghost use Rattle.strm_chain_ends.specs.declared.place.NextQueue.{NextQueue};
ghost use Rattle.strm_chain_ends.specs.declared.place.Place.{Place};
ghost use Rattle.strm_chain_ends.specs.declared.place.Place.TheVariants as Places;
ghost use Rattle.strm_chain_ends.specs.declared.place.NextQueue.TheVariants.{Of};
ghost use Rattle.strm_chain.specs.Number.{queue_number, place_number, place_of};
ghost use Rattle.strm_chain_ends.specs.Image.{Image};
ghost use Rattle.strm_chain.specs.Enabled.{is_enabled, IsReady, IsReadyExcept, ArePlaces, MarksWanted, TurnsKnown};

use crate::moves::Looks;
use crate::number::{QUEUES, number_of, place_number, place_of};
use std::alloc::Global;
use std::marker::Model;
use strm_chain_ends::{Ends, NextQueue, Place};
use strm_module::{ModuleOf, Turn};
use strm_msg::{End, NoMem};
use strm_queue::RunQueue;

/// The places that are enabled, and for each queue the place that found it full and waits until it
/// has drained (QENAB and QWANTW of queue(9S)).
#[derive(Drop)]
pub(crate) struct Enabling {
    run: RunQueue,
    wanted: [Option<Place>; QUEUES],
}

impl Model for Enabling {
    ghost use Rattle.std.specs.Prelude.{◌≡◌, length};
    ghost use Rattle.strm_chain.specs.Enabled.{Enabled};
    ghost use Rattle.strm_chain.specs.declared.number.TheConstants.{QUEUES};

    ghost Value = { Enabled };

    ghost view = { λ e. record { run = e.run; wanted = e.wanted } };

    ghost invariant = { λ e. (e.run.places ≡ QUEUES) × (length e.wanted ≡ QUEUES) };
}

impl Enabling {
    /// Makes it with no place enabled, and none waiting. Fails only when memory runs out, which the run queue
    /// takes.
    pub(crate) fn new(alloc: Global) -> Result<Enabling, NoMem>
        ensures { IfOk result (λ e. e.run.items ≡ []) }
    {
        let run = RunQueue::new(alloc, QUEUES)?;
        Ok(Enabling {
            run,
            wanted: [None; QUEUES],
        })
    }

    /// The number of places that were looked at since the count began, u64::MAX if more.
    pub(crate) fn looks(&self) -> Looks
        ensures { result ≡ self.now.run.given }
    {
        Looks::given(self.run.given())
    }

    /// Counts looks from 0 again.
    pub(crate) fn restart(&mut self)
        ensures { self.new ≡ record self.old { run = record self.old.run { given = 0 } } }
    {
        self.run.restart()
    }

    /// The number of places that are enabled.
    pub(crate) fn len(&self) -> usize
        ensures value { result ≡ length self.now.run.items }
        ensures few { result ≤ QUEUES }
        ensures once { AreOnce QUEUES self.now.run.items }
    {
        self.run.len()
    }

    /// Whether a place is enabled.
    pub(crate) fn is_enabled(&self, place: Place) -> bool
        ensures { result ≡ is_enabled self.now.run place }
    {
        let number = place_number(place);
        // The proof learns from the length that no number above is enabled.
        let _ = self.run.len();
        number < QUEUES && self.run.is_enabled(number)
    }

    /// Enables a place that holds a message.
    #[inline(always)]
    fn enable(&mut self, place: Place)
        requires { place_number place < QUEUES }
        ensures items { self.new.run.items ≡ with_place self.old.run.items (place_number place) }
        ensures enabled { (other : Place) → is_enabled self.new.run other ≡ (is_enabled self.old.run other || (place_number other == place_number place)) }
        ensures given { self.new.run.given ≡ self.old.run.given }
        ensures wanted { self.new.wanted ≡ self.old.wanted }
        ensures more { length self.new.run.items ≤ length self.old.run.items + 1 }
        ensures same { is_enabled self.old.run place ≡ true → self.new.run.items ≡ self.old.run.items }
    {
        self.run.enable(place_number(place))
    }

    /// Enables each place that holds a message, where the queue that is next may have changed: no place waits
    /// then.
    pub(crate) fn enable_all<M: ModuleOf>(&mut self, ends: &Ends<M>)
        ensures ready { IsReady M.Kind.means ends.now.image self.new }
        ensures places { ArePlaces ends.now.image self.new.run.items }
        ensures given { self.new.run.given ≡ self.old.run.given }
    {
        self.run.clear();
        self.wanted = [None; QUEUES];
        // The proof learns from the numbers of modules that there are at most eight.
        let _ = ends.count(End::A);
        let _ = ends.count(End::B);
        for number in 0..QUEUES {
            self.enable_if_filled(ends, place_of(number));
        }
    }

    /// Enables a place, if it holds a message.
    fn enable_if_filled<M: ModuleOf>(&mut self, ends: &Ends<M>, place: Place)
        ensures kept { (other : Place) → is_enabled self.old.run other ≡ true → is_enabled self.new.run other ≡ true }
        ensures own { is_some (offer_of M.Kind.means ends.now.image place) ≡ true → self.new.run.items ≡ with_place self.old.run.items (place_number place) }
        ensures none { is_some (offer_of M.Kind.means ends.now.image place) ≡ false → self.new.run.items ≡ self.old.run.items }
        ensures places { ArePlaces ends.now.image self.old.run.items → ArePlaces ends.now.image self.new.run.items }
        ensures more { length self.new.run.items ≤ length self.old.run.items + 1 }
        ensures same { is_enabled self.old.run place ≡ true → self.new.run.items ≡ self.old.run.items }
        ensures wanted { self.new.wanted ≡ self.old.wanted }
        ensures given { self.new.run.given ≡ self.old.run.given }
    {
        // The proof learns from the numbers of modules that no high message waits below a head.
        let _ = ends.count(End::A);
        let _ = ends.count(End::B);
        if ends.holds(place) {
            self.enable(place);
        }
    }

    /// Enables a place, if the turn of its service is not as before, and moves something.
    fn enable_by_turn<M: ModuleOf>(&mut self, ends: &Ends<M>, place: Place, before: Turn)
        ensures kept { (other : Place) → is_enabled self.new.run other ≡ false → is_enabled self.old.run other ≡ false }
        ensures own { is_some (offer_of M.Kind.means ends.now.image place) ≡ true → is_enabled self.new.run place ≡ false → turn_of M.Kind.means ends.now.image place ≡ before }
        ensures only { (other : Place) → is_enabled self.old.run other ≡ false → is_enabled self.new.run other ≡ true → (other ≡ place) × (turn_of M.Kind.means ends.now.image place ≢ before) }
        ensures steady { turn_of M.Kind.means ends.now.image place ≡ before → self.new.run.items ≡ self.old.run.items }
        ensures places { ArePlaces ends.now.image self.old.run.items → ArePlaces ends.now.image self.new.run.items }
        ensures wanted { self.new.wanted ≡ self.old.wanted }
        ensures given { self.new.run.given ≡ self.old.run.given }
    {
        if ends.turn(place) != before {
            self.enable_if_filled(ends, place);
        }
    }

    /// Enables both places of a module, each if the turn of its service is not as before, and moves
    /// something.
    pub(crate) fn enable_by_turns<M: ModuleOf>(
        &mut self,
        ends: &Ends<M>,
        end: End,
        i: u8,
        before: (Turn, Turn),
    )
        ensures known { (old : Image M.Kind) → turn_of M.Kind.means old (Places.Wr end i) ≡ before.0 → turn_of M.Kind.means old (Places.Rd end i) ≡ before.1 → ((place : Place) → place ≢ Places.Wr end i → place ≢ Places.Rd end i → turn_of M.Kind.means ends.now.image place ≡ turn_of M.Kind.means old place) → TurnsKnown M.Kind.means old ends.now.image self.new.run }
        ensures ready { (old : Image M.Kind) → IsReady M.Kind.means old self.old → IsReady M.Kind.means old self.new }
        ensures only { (other : Place) → is_enabled self.old.run other ≡ false → is_enabled self.new.run other ≡ true → ((other ≡ Places.Wr end i) × (turn_of M.Kind.means ends.now.image (Places.Wr end i) ≢ before.0)) ⊎ ((other ≡ Places.Rd end i) × (turn_of M.Kind.means ends.now.image (Places.Rd end i) ≢ before.1)) }
        ensures steady { turn_of M.Kind.means ends.now.image (Places.Wr end i) ≡ before.0 → turn_of M.Kind.means ends.now.image (Places.Rd end i) ≡ before.1 → self.new.run.items ≡ self.old.run.items }
        ensures places { ArePlaces ends.now.image self.old.run.items → ArePlaces ends.now.image self.new.run.items }
        ensures kept { (other : Place) → is_enabled self.old.run other ≡ true → is_enabled self.new.run other ≡ true }
        ensures given { self.new.run.given ≡ self.old.run.given }
    {
        let (wr, rd) = before;
        self.enable_by_turn(ends, Place::Wr { end, i }, wr);
        self.enable_by_turn(ends, Place::Rd { end, i }, rd);
    }

    /// Enables places after a queue changed, which had `before` messages before. If it has more or fewer now,
    /// its own place is enabled. If it has fewer, so is the place that waits for it, where that must move now
    /// (back-enabling).
    pub(crate) fn enable_by_change<M: ModuleOf>(
        &mut self,
        ends: &Ends<M>,
        queue: NextQueue,
        before: usize,
    )
        requires { queue_number queue < QUEUES }
        ensures ready { (old : Image M.Kind) → before ≡ length (held_by old queue) → IsReady M.Kind.means old self.old → DiffersIn old ends.now.image queue → TurnsKnown M.Kind.means old ends.now.image self.old.run → IsReady M.Kind.means ends.now.image self.new }
        ensures places { ArePlaces ends.now.image self.old.run.items → ArePlaces ends.now.image self.new.run.items }
        ensures put { before ≤ length (held_by ends.now.image queue) → length self.new.run.items + before ≤ length self.old.run.items + length (held_by ends.now.image queue) }
        ensures taken { (place : Place) → queue ≡ Of place → is_enabled self.old.run place ≡ true → length self.new.run.items ≤ length self.old.run.items + 1 }
        ensures given { self.new.run.given ≡ self.old.run.given }
    {
        let after = ends.len(queue);
        if after == before {
            return;
        }
        self.enable_own(ends, queue);
        if after < before {
            self.back_enable(ends, queue);
        }
    }

    /// Enables the place of a queue, if it holds a message; a head has none.
    fn enable_own<M: ModuleOf>(&mut self, ends: &Ends<M>, queue: NextQueue)
        requires { queue_number queue < QUEUES }
        ensures kept { (place : Place) → is_enabled self.new.run place ≡ false → is_enabled self.old.run place ≡ false }
        ensures own { (place : Place) → is_some (offer_of M.Kind.means ends.now.image place) ≡ true → is_enabled self.new.run place ≡ false → Of place ≢ queue }
        ensures places { ArePlaces ends.now.image self.old.run.items → ArePlaces ends.now.image self.new.run.items }
        ensures more { length self.new.run.items ≤ length self.old.run.items + 1 }
        ensures same { (place : Place) → queue ≡ Of place → is_enabled self.old.run place ≡ true → self.new.run.items ≡ self.old.run.items }
        ensures wanted { self.new.wanted ≡ self.old.wanted }
        ensures given { self.new.run.given ≡ self.old.run.given }
    {
        if let NextQueue::Of { place } = queue {
            self.enable_if_filled(ends, place);
        }
    }

    /// Enables the place that waits for a queue, if it must move now.
    #[inline(always)]
    pub(crate) fn back_enable<M: ModuleOf>(&mut self, ends: &Ends<M>, queue: NextQueue)
        requires { queue_number queue < QUEUES }
        ensures ready { IsReadyExcept M.Kind.means ends.now.image queue self.old → IsReady M.Kind.means ends.now.image self.new }
        ensures places { ArePlaces ends.now.image self.old.run.items → ArePlaces ends.now.image self.new.run.items }
        ensures more { length self.new.run.items ≤ length self.old.run.items + 1 }
        ensures given { self.new.run.given ≡ self.old.run.given }
    {
        if let Some(place) = self.wanted_by(queue) {
            if ends.is_due(place) {
                self.clear_wanted(queue);
                self.enable_if_filled(ends, place);
            }
        }
    }

    /// The place that waits for a queue.
    fn wanted_by(&self, queue: NextQueue) -> Option<Place>
        requires { queue_number queue < QUEUES }
        ensures { slice_get self.now.wanted (queue_number queue) ≡ Some result }
    {
        self.wanted[number_of(queue)]
    }

    /// Leaves no place waiting for a queue.
    fn clear_wanted(&mut self, queue: NextQueue)
        requires { queue_number queue < QUEUES }
        ensures wanted { self.new.wanted ≡ slice_set self.old.wanted (queue_number queue) None }
        ensures run { self.new.run ≡ self.old.run }
    {
        self.wanted[number_of(queue)] = None;
    }

    /// Looks at the next place: takes it out of the run queue, and says whether it may move. One
    /// that may is enabled again, behind the others; one that may not waits for the queue ahead.
    pub(crate) fn next_enabled<M: ModuleOf>(&mut self, ends: &Ends<M>) -> Option<(Place, bool)>
        ensures may { IfSome result (λ seen. may M.Kind.means ends.now.image seen.0 ≡ seen.1) }
        ensures none { IfNone result ((self.old.run.items ≡ []) × (self.new ≡ self.old)) }
        ensures ready { IsReady M.Kind.means ends.now.image self.old → IsReady M.Kind.means ends.now.image self.new }
        ensures places { ArePlaces ends.now.image self.old.run.items → ArePlaces ends.now.image self.new.run.items }
        ensures enabled { IfSome result (λ seen. seen.1 ≡ true → is_enabled self.new.run seen.0 ≡ true) }
        ensures moves { IfSome result (λ seen. seen.1 ≡ true → length self.new.run.items ≤ length self.old.run.items) }
        ensures rests { IfSome result (λ seen. seen.1 ≡ false → length self.new.run.items + 1 ≡ length self.old.run.items) }
        ensures given { IfSome result (λ _. self.new.run.given ≡ one_more self.old.run.given) }
    {
        let place = place_of(self.run.next()?);
        let Some(may) = ends.first_may(place) else {
            return Some((place, false));
        };
        if may {
            self.enable(place);
        } else {
            self.mark_wanted(ends, place);
        }
        Some((place, may))
    }

    /// Lets a place that may not move wait for the queue ahead.
    fn mark_wanted<M: ModuleOf>(&mut self, ends: &Ends<M>, place: Place)
        ensures run { self.new.run ≡ self.old.run }
        ensures wanted { MarksWanted ends.now.image place self.old.wanted self.new.wanted }
        ensures few { (queue : NextQueue) → next_of ends.now.image place ≡ Some queue → queue_number queue < length self.old.wanted }
        ensures ordinary { AreCalm ends.now.image }
    {
        // The proof learns from the numbers of modules that no high message waits below a head.
        let _ = ends.count(End::A);
        let _ = ends.count(End::B);
        if let Some(queue) = ends.next_of(place) {
            self.wanted[number_of(queue)] = Some(place);
        }
    }
}
