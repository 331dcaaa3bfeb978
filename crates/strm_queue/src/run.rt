//! The queue of places that are to be looked at.
ghost use Rattle.std.specs.Prelude.{◌≡◌, ◌+◌, ◌<◌, ◌≤◌, [], length, IfOk, IfSome, IsTrue, ◌↔◌};
ghost use Rattle.strm_queue.specs.Run.{is_enabled, AreOnce, with_place, IsFirst, GivesFirst, EnablesOnly};

use std::alloc::Global;
use std::collections::VecDeque;
use std::marker::Model;
use strm_msg::NoMem;

/// Places that are enabled, each once, in the order in which they are given out.
///
/// A contract sees the number of places that there are, the list of those that are enabled, and the number
/// that were given out since the count began.
#[derive(Drop)]
pub struct RunQueue {
    places: usize,
    items: VecDeque<usize>,
    given: u64,
}

impl Model for RunQueue {
    ghost use Rattle.std.specs.Prelude.{◌≤◌};
    ghost use Rattle.std.specs.VecDeque.{deque_capacity};
    ghost use Rattle.strm_queue.specs.Run.{RunList, AreOnce};

    ghost Value = { RunList };

    ghost view = { λ q. record { places = q.places; items = q.items.items; given = q.given } };

    ghost invariant = { λ q. AreOnce q.places q.items.items × (q.places ≤ deque_capacity q.items) };
}

impl RunQueue {
    /// A run queue in which no place is enabled, with room for each of them. Fails only when memory runs out.
    pub fn new(alloc: Global, places: usize) -> Result<RunQueue, NoMem>
        ensures { IfOk result (λ q. q ≡ record { places = places; items = []; given = 0 }) }
    {
        let items = VecDeque::with_capacity(alloc, places)?;
        Ok(RunQueue {
            places,
            items,
            given: 0,
        })
    }

    /// The number of places.
    pub fn places(&self) -> usize
        ensures { result ≡ self.now.places }
    {
        self.places
    }

    /// The number of places that are enabled. Each counts once.
    pub fn len(&self) -> usize
        ensures value { result ≡ length self.now.items }
        ensures once { AreOnce self.now.places self.now.items }
    {
        self.items.len()
    }

    /// Whether no place is enabled.
    pub fn is_empty(&self) -> bool
        ensures { IsTrue result ↔ (self.now.items ≡ []) }
    {
        self.items.is_empty()
    }

    /// Whether a place is enabled.
    pub fn is_enabled(&self, place: usize) -> bool
        requires { place < self.now.places }
        ensures { result ≡ is_enabled self.now place }
    {
        self.items.contains(&place)
    }

    /// Enables a place, behind the others unless it is enabled. Takes no memory.
    pub fn enable(&mut self, place: usize)
        requires { place < self.old.places }
        ensures items { self.new.items ≡ with_place self.old.items place }
        ensures places { self.new.places ≡ self.old.places }
        ensures given { self.new.given ≡ self.old.given }
        ensures enabled { EnablesOnly self.old self.new place }
        ensures more { length self.new.items ≤ length self.old.items + 1 }
    {
        if self.is_enabled(place) {
            return;
        }
        match self.items.push_back(place) {
            Ok(()) => {}
            Err(_) => unreachable!(),
        }
    }

    /// Leaves no place enabled.
    pub fn clear(&mut self)
        ensures { self.new ≡ record self.old { items = [] } }
    {
        self.items.clear();
    }

    /// Gives the first place out, which is then no longer enabled.
    pub fn next(&mut self) -> Option<usize>
        ensures first { GivesFirst result self.old self.new }
        ensures within { IfSome result (λ place. place < self.old.places) }
        ensures places { self.new.places ≡ self.old.places }
    {
        let place = self.items.pop_front()?;
        self.given = self.given.saturating_add(1);
        Some(place)
    }

    /// The place that `next` would give out.
    pub fn first(&self) -> Option<usize>
        ensures first { IsFirst result self.now.items }
        ensures within { IfSome result (λ place. place < self.now.places) }
    {
        match self.items.front() {
            Some(place) => Some(*place),
            None => None,
        }
    }

    /// The number of places that were given out since the count began, u64::MAX if more.
    pub fn given(&self) -> u64
        ensures { result ≡ self.now.given }
    {
        self.given
    }

    /// Counts from 0 again.
    pub fn restart(&mut self)
        ensures { self.new ≡ record self.old { given = 0 } }
    {
        self.given = 0;
    }
}
