//! A chain: one or two ends over a driver, and their service.
ghost use Rattle.std.specs.Prelude.{◌≡◌, ◌∷◌, [], ◌≤◌, OnOk, OnErr, IfErr, IfOk, IfSome, IfNone, is_ok, true, map, Some, option_map, option_copied};
ghost use Rattle.strm_chain_end.specs.End.{shapes_of, pair_at};
ghost use Rattle.strm_chain_end.specs.Modules.{IsFitEnd, HoldsCalm};
ghost use Rattle.strm_chain_end.specs.Change.{has_room, inserted, removed, closed};
ghost use Rattle.strm_chain_ends.specs.Image.{end_of, with_end, count_of, KeepsHeadRoom, fresh};
ghost use Rattle.strm_chain_ends.specs.Order.{goes_round};
ghost use Rattle.strm_chain.specs.Enabled.{is_enabled, DueAreEnabled};

use crate::enabling::Enabling;
use arrayvec::ArrayVec;
use std::alloc::Global;
use std::collections::VecDeque;
use std::marker::Model;
use strm_chain_ends::{Ends, Place};
use strm_module::{BoxedModule, Driver, MOST_MODULES, ModuleOf, Shape};
use strm_msg::{End, Marks, NoMem};

mod deliver;
mod head;
mod hop;
mod line;
mod message;
mod queue;
mod serve;
mod settle;
mod tick;

pub use deliver::head_sends_once;
use hop::Hop;

/// The queues of a stream, with its modules, the records of its heads, and the places that are enabled.
///
/// A contract sees its image: the driver, whether the chain is broken, and the state of each end. That is
/// whether the end is open, the lists of its head and its driver with their marks, its record, and its
/// modules, each as its shape with two lists. An end that the driver lacks is a closed one without modules
/// and messages. In addition to the image it sees the room of the heads' lists and of a line's, and the run
/// queue.
///
/// No place is forgotten. One that holds a message is enabled, or it must not move and waits for the queue
/// ahead, which knows it (Programmer's Guide: STREAMS, "Flow Control").
#[derive(Drop)]
pub struct Chain<M: ModuleOf> {
    ends: Ends<M>,
    enabling: Enabling,
    /// Room for messages on their way, with no message in it: taken by a delivery or a service, and put back
    /// unless memory ran out.
    hops: VecDeque<Hop>,
}

impl<M: ModuleOf> Model for Chain<M> {
    ghost use Rattle.std.specs.Prelude.{◌≡◌, []};
    ghost use Rattle.strm_chain.specs.Enabled.{ChainValue, IsReady, ArePlaces};

    ghost Value = { ChainValue M.Kind };

    ghost view = { λ c. record { image = c.ends.image; rooms = c.ends.rooms; run = c.enabling.run } };

    ghost invariant = { λ c. IsReady M.Kind.means c.ends.image c.enabling × ArePlaces c.ends.image c.enabling.run.items × (c.hops.items ≡ []) };
}

impl<M: ModuleOf> Chain<M> {
    /// A chain without modules, whose ends are open. Fails only when memory runs out.
    pub fn new(alloc: Global, driver: Driver, head: Marks, drv: Marks) -> Result<Chain<M>, NoMem>
        ensures { IfOk result (λ c. c.image ≡ fresh driver head drv) }
    {
        let mut enabling = Enabling::new(alloc)?;
        let ends = Ends::new(alloc, driver, head, drv)?;
        enabling.enable_all(&ends);
        let hops = VecDeque::new(alloc);
        Ok(Chain {
            ends,
            enabling,
            hops,
        })
    }

    /// The allocator of the chain.
    pub fn alloc(&self) -> Global {
        self.ends.alloc()
    }

    /// The driver at the bottom.
    pub fn driver(&self) -> Driver
        ensures { result ≡ self.now.image.driver }
    {
        self.ends.driver()
    }

    /// Whether memory ran out after a change. Such a chain neither delivers nor serves.
    pub fn is_broken(&self) -> bool
        ensures { result ≡ self.now.image.broken }
    {
        self.ends.is_broken()
    }

    /// Breaks the chain, where memory ran out after a change of the caller's own. It neither delivers nor
    /// serves from then on, and the rest stays as it is.
    pub fn break_off(&mut self)
        ensures { self.new ≡ record self.old { image = record self.old.image { broken = true } } }
    {
        self.ends.break_off();
    }

    /// Whether an end is open. One that the driver lacks never is.
    pub fn is_open(&self, end: End) -> bool
        ensures { result ≡ (end_of self.now.image end).is_open }
    {
        self.ends.end(end).is_open()
    }

    /// The number of modules of an end. Each low mark at the end is below its high one, and no high
    /// message waits below the head.
    pub fn count(&self, end: End) -> usize
        ensures value { result ≡ count_of self.now.image end }
        ensures few { result ≤ MOST_MODULES }
        ensures fit { IsFitEnd (end_of self.now.image end) }
        ensures ordinary { HoldsCalm (end_of self.now.image end) }
    {
        self.ends.count(end)
    }

    /// The shape of a module, counted from 1 for the topmost; `None` where there is none.
    pub fn shape(&self, end: End, i: u8) -> Option<&Shape<M::Kind>>
        ensures { option_copied result ≡ option_map (λ s. s.shape) (pair_at (end_of self.now.image end).modules i) }
    {
        self.ends.end(end).shape(i)
    }

    /// Whether another module may be pushed: the end is open and has fewer than `MOST_MODULES`.
    pub fn has_room(&self, end: End) -> bool
        ensures { result ≡ has_room (end_of self.now.image end) }
    {
        self.ends.end(end).has_room()
    }

    /// Whether messages could go round a circle, answered again and again, with a module of this shape just
    /// below the head. If so its push is refused with EINVAL (I_PUSH).
    pub fn goes_round(&self, end: End, shape: &Shape<M::Kind>) -> bool
        ensures { result ≡ goes_round M.Kind.means self.now.image end shape.now }
    {
        self.ends.goes_round(end, shape)
    }

    /// Puts a module just below the head, with empty queues (I_PUSH). Takes no memory, and no list
    /// loses room.
    ///
    /// Where `has_room` is false the instance comes back, and nothing is changed.
    pub fn insert(&mut self, end: End, instance: BoxedModule<M>) -> Result<(), BoxedModule<M>>
        ensures variant { is_ok result ≡ has_room (end_of self.old.image end) }
        ensures ok { OnOk result (self.new.image ≡ with_end self.old.image end (inserted (end_of self.old.image end) instance)) }
        ensures err { OnErr result (self.new ≡ self.old) }
        ensures back { IfErr result (λ same. same ≡ instance) }
        ensures rooms { self.new.rooms ≡ self.old.rooms }
    {
        if !self.ends.end(end).has_room() {
            return Err(instance);
        }
        let alloc = self.ends.alloc();
        self.ends.end_mut(end).insert(alloc, instance);
        self.enabling.enable_all(&self.ends);
        Ok(())
    }

    /// Takes the topmost module out, and drops the messages in its queues (I_POP). Takes no memory, and no
    /// list loses room.
    pub fn remove(&mut self, end: End) -> Option<BoxedModule<M>>
        ensures some { IfSome result (λ it. shapes_of (end_of self.old.image end) ≡ it ∷ shapes_of (end_of self.new.image end)) }
        ensures none { IfNone result ((end_of self.old.image end).modules ≡ []) }
        ensures image { self.new.image ≡ with_end self.old.image end (removed (end_of self.old.image end)) }
        ensures rooms { self.new.rooms ≡ self.old.rooms }
    {
        let module = self.ends.end_mut(end).remove();
        self.enabling.enable_all(&self.ends);
        module
    }

    /// Takes all modules of an end out, topmost first, drops the messages in their queues and in the head's
    /// list, and closes the end (close(2)). The driver's list stays. Takes no memory, and no list loses room.
    pub fn dismantle(&mut self, end: End) -> ArrayVec<Option<BoxedModule<M>>, MOST_MODULES>
        ensures instances { result.items ≡ map (λ s. Some s.shape) (end_of self.old.image end).modules }
        ensures image { self.new.image ≡ with_end self.old.image end (closed (end_of self.old.image end)) }
        ensures room { KeepsHeadRoom self.old.rooms self.new.rooms }
        ensures line_room { self.new.rooms.line ≡ self.old.rooms.line }
    {
        let modules = self.ends.end_mut(end).close();
        self.enabling.enable_all(&self.ends);
        modules
    }

    /// Whether a place is enabled: service will look at it. Each place that must move is.
    pub fn is_enabled(&self, place: Place) -> bool
        ensures value { result ≡ is_enabled self.now.run place }
        ensures due { DueAreEnabled M.Kind.means self.now.image self.now.run }
    {
        self.enabling.is_enabled(place)
    }
}
