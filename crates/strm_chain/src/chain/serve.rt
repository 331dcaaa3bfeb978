//! Service: the places that may move, and their moves.
ghost use Rattle.std.specs.VecDeque.{deque_len, deque_capacity};
ghost use Rattle.std.specs.Prelude.{◌≡◌, [], OnOk, IfErr, true, false, ◌≤◌, ◌+◌, option_map, option_copied};
ghost use Rattle.strm_chain_ends.specs.declared.place.Place.TheVariants as Places;
ghost use Rattle.strm_chain_end.specs.Canput.{fill_of, below, full_in};
ghost use Rattle.strm_chain_ends.specs.Image.{end_of};
ghost use Rattle.strm_chain_ends.specs.Same.{SameModules};
ghost use Rattle.strm_chain.specs.Fault.{Refuses};
ghost use Rattle.strm_chain_ends.specs.Path.{ahead};
ghost use Rattle.strm_chain_ends.specs.Flow.{may};
ghost use Rattle.strm_chain.specs.Service.{move, serve_at};
ghost use Rattle.strm_module.specs.Calm.{IsCalm};
ghost use Rattle.strm_chain.specs.Enabled.{is_enabled};
ghost use Rattle.strm_chain.specs.Count.{HasMoved};
ghost use Rattle.strm_chain_ends.specs.Held.{module_place};

use super::Chain;
use super::hop::{Hop, push_outs};
use crate::fault::ChainFault;
use std::collections::VecDeque;
use strm_chain_ends::Place;
use strm_module::ModuleOf;
use strm_msg::{End, NoMem, Side};
use strm_queue::BandQueue;

impl<M: ModuleOf> Chain<M> {
    /// The first write queue of an end: the topmost write queue of its modules, else the list of an
    /// echo, a loop or a wire.
    pub fn queue_ahead(&self, end: End) -> Option<&BandQueue>
        ensures { option_map fill_of (option_copied result) ≡ below self.now.image.driver (end_of self.now.image end) 0 }
    {
        self.ends.end(end).queue_below(self.ends.driver(), 0)
    }

    /// Whether the first write queue of an end is full in a band, where bcanput(9F) would answer the
    /// opposite. Without one it is not.
    pub fn full_ahead(&self, end: End, band: u8) -> bool
        ensures { result ≡ full_in (below self.now.image.driver (end_of self.now.image end) 0) band }
    {
        self.ends.full_ahead(end, band)
    }

    /// Whether a place may move: it holds a message, and the first is high or the queue ahead is not
    /// full in its band. A place that is not there may not.
    pub fn may(&self, place: Place) -> bool
        ensures { result ≡ may M.Kind.means self.now.image place }
    {
        self.ends.may(place)
    }

    /// Moves a queue of a module.
    fn move_module(
        &mut self,
        hops: &mut VecDeque<Hop>,
        end: End,
        i: usize,
        side: Side,
    ) -> Result<(), NoMem>
        requires empty { hops.old.items ≡ [] }
        requires room { deque_len hops.old + 2 ≤ deque_capacity hops.old }
        ensures ok { OnOk result (self.new.image ≡ move M.Kind.means self.old.image (module_place side end i)) }
        ensures done { OnOk result (hops.new.items ≡ []) }
        ensures same { SameModules self.old.image self.new.image }
        ensures given { self.new.run.given ≡ self.old.run.given }
        ensures moves { OnOk result (IsCalm M.Kind.means → is_enabled self.old.run (module_place side end i) ≡ true → HasMoved self.old self.new 0) }
    {
        let below = self.count(end).saturating_sub(i);
        let outs = self.serve_at(end, i, side)?;
        push_outs(hops, false, side, end, i, below, outs);
        self.deliver_all(hops)
    }

    /// Moves a driver place.
    fn move_driver(&mut self, hops: &mut VecDeque<Hop>, end: End) -> Result<(), NoMem>
        requires empty { hops.old.items ≡ [] }
        requires room { deque_len hops.old + 2 ≤ deque_capacity hops.old }
        ensures ok { OnOk result (self.new.image ≡ move M.Kind.means self.old.image (Places.Drv end)) }
        ensures done { OnOk result (hops.new.items ≡ []) }
        ensures same { SameModules self.old.image self.new.image }
        ensures given { self.new.run.given ≡ self.old.run.given }
        ensures moves { OnOk result (IsCalm M.Kind.means → is_enabled self.old.run (Places.Drv end) ≡ true → HasMoved self.old self.new 0) }
    {
        let partner = self.driver().partner_of(end);
        let ahead = self.count(partner);
        // The proof learns from the number of modules that no high message waits in the driver's list.
        let _ = self.count(end);
        match self.take_driver(end) {
            Some(m) => {
                hops.push_front_reserved(Hop::up(false, partner, ahead, m));
                self.deliver_all(hops)
            }
            None => Ok(()),
        }
    }

    /// Moves a place, with room for the messages that it sends.
    fn move_place(&mut self, hops: &mut VecDeque<Hop>, place: Place) -> Result<(), NoMem>
        requires empty { hops.old.items ≡ [] }
        requires room { deque_len hops.old + 2 ≤ deque_capacity hops.old }
        ensures ok { OnOk result (self.new.image ≡ move M.Kind.means self.old.image place) }
        ensures done { OnOk result (hops.new.items ≡ []) }
        ensures same { SameModules self.old.image self.new.image }
        ensures given { self.new.run.given ≡ self.old.run.given }
        ensures moves { OnOk result (IsCalm M.Kind.means → is_enabled self.old.run place ≡ true → HasMoved self.old self.new 0) }
    {
        match place {
            Place::Wr { end, i } => self.move_module(hops, end, usize::from(i), Side::Wr),
            Place::Drv { end } => self.move_driver(hops, end),
            Place::Rd { end, i } => self.move_module(hops, end, usize::from(i), Side::Rd),
        }
    }

    /// Moves a place that may move, with room for the messages that it sends. Its first message is served,
    /// and the messages that come of it are carried to their end (srv(9E)).
    ///
    /// Fails only when memory runs out: with `NoMem` nothing is changed, and with `Broken` the chain is
    /// broken.
    pub(super) fn serve(&mut self, hops: &mut VecDeque<Hop>, place: Place) -> Result<(), ChainFault>
        requires empty { hops.old.items ≡ [] }
        requires may { may M.Kind.means self.old.image place ≡ true }
        requires whole { self.old.image.broken ≡ false }
        ensures ok { OnOk result (self.new.image ≡ move M.Kind.means self.old.image place) }
        ensures done { OnOk result (hops.new.items ≡ []) }
        ensures same { OnOk result (SameModules self.old.image self.new.image) }
        ensures refused { IfErr result (λ fault. Refuses fault self.old.image self.new.image) }
        ensures given { self.new.run.given ≡ self.old.run.given }
        ensures moves { OnOk result (IsCalm M.Kind.means → is_enabled self.old.run place ≡ true → HasMoved self.old self.new 0) }
    {
        let Ok(()) = hops.reserve(2) else {
            return Err(ChainFault::NoMem);
        };
        match self.move_place(hops, place) {
            Ok(()) => Ok(()),
            Err(_) => Err(self.break_chain()),
        }
    }

    /// Moves a place that may move. Its first message is served, and the messages that come of it are carried
    /// to their end (srv(9E)).
    ///
    /// Fails only when memory runs out: with `NoMem` nothing is changed, and with `Broken` the chain is
    /// broken, or was before.
    pub fn serve_one(&mut self, place: Place) -> Result<(), ChainFault>
        requires { may M.Kind.means self.old.image place ≡ true }
        ensures ok { OnOk result (self.new.image ≡ move M.Kind.means self.old.image place) }
        ensures whole { OnOk result (self.old.image.broken ≡ false) }
        ensures same { OnOk result (SameModules self.old.image self.new.image) }
        ensures refused { IfErr result (λ fault. Refuses fault self.old.image self.new.image) }
        ensures given { self.new.run.given ≡ self.old.run.given }
        ensures moves { OnOk result (IsCalm M.Kind.means → is_enabled self.old.run place ≡ true → HasMoved self.old self.new 0) }
    {
        if self.ends.is_broken() {
            return Err(ChainFault::Broken);
        }
        let mut hops = self.take_hops();
        self.serve(&mut hops, place)?;
        self.put_back_hops(hops);
        Ok(())
    }
}
