//! Service until nothing may move.
ghost use Rattle.std.specs.Prelude.{◌≡◌, ◌+◌, ◌<◌, ◌≤◌, ◌++◌, ◌∷◌, [], length, OnOk, IfErr, IfOk, IfSome, IfNone, IsOk, true, false};
ghost use Rattle.strm_msg.specs.Count.{one_more};
ghost use Rattle.strm_module.specs.Calm.{IsCalm};
ghost use Rattle.strm_chain_ends.specs.Count.{place_count};
ghost use Rattle.strm_chain.specs.Enabled.{is_enabled};
ghost use Rattle.strm_chain.specs.Count.{AreLooks, HasMoved, most_looks};
ghost use Rattle.strm_chain.specs.declared.number.TheConstants.{QUEUES};
ghost use Rattle.strm_chain_ends.specs.Same.{SameModules};
ghost use Rattle.strm_chain.specs.Fault.{Refuses};
ghost use Rattle.strm_chain_ends.specs.Flow.{may, IsQuiet, NoneMay};
ghost use Rattle.strm_chain.specs.Service.{move, Leads};

use super::Chain;
use super::hop::Hop;
use crate::fault::ChainFault;
use crate::moves::{Moves, Settled};
use std::collections::VecDeque;
use strm_chain_ends::Place;
use strm_module::ModuleOf;

impl<M: ModuleOf> Chain<M> {
    /// Looks at the next place that is enabled, and returns whether it may move. With none left, no place
    /// must move.
    fn next_enabled(&mut self) -> Option<(Place, bool)>
        ensures image { self.new.image ≡ self.old.image }
        ensures may { IfSome result (λ seen. may M.Kind.means self.old.image seen.0 ≡ seen.1) }
        ensures quiet { IfNone result (IsQuiet M.Kind.means self.old.image) }
        ensures none { IfNone result (self.new.run.items ≡ []) }
        ensures moves { IfSome result (λ seen. seen.1 ≡ true → length self.new.run.items ≤ length self.old.run.items) }
        ensures rests { IfSome result (λ seen. seen.1 ≡ false → length self.new.run.items + 1 ≡ length self.old.run.items) }
        ensures given { IfSome result (λ _. self.new.run.given ≡ one_more self.old.run.given) }
        ensures still { IfNone result (self.new ≡ self.old) }
        ensures enabled { IfSome result (λ seen. seen.1 ≡ true → is_enabled self.new.run seen.0 ≡ true) }
    {
        self.enabling.next_enabled(&self.ends)
    }

    /// Counts looks from 0 again.
    fn restart(&mut self)
        ensures image { self.new.image ≡ self.old.image }
        ensures given { self.new.run.given ≡ 0 }
        ensures few { length self.new.run.items ≤ place_count self.old.image }
        ensures numbers { length self.new.run.items ≤ QUEUES }
    {
        // The proof learns from the length that each place is enabled once.
        let _ = self.enabling.len();
        self.enabling.restart()
    }

    /// Looks at one enabled place after the other until none is left, and moves each that may move. Then no
    /// place must move. Lists the moves in order, and counts the looks. Where no place may move, it only
    /// looks, and that takes no memory.
    ///
    /// Fails only when memory runs out: with `NoMem` nothing is changed, and with `Broken` the chain is
    /// broken, or was before.
    pub fn settle(&mut self) -> Result<Settled, ChainFault>
        ensures moves { IfOk result (λ settled. Leads M.Kind.means self.old.image settled.moves self.new.image) }
        ensures quiet { OnOk result (IsQuiet M.Kind.means self.new.image) }
        ensures looks { IfOk result (λ settled. settled.looks ≡ self.new.run.given) }
        ensures few { IfOk result (λ settled. AreLooks settled.moves settled.looks) }
        ensures most { IfOk result (λ settled. IsCalm M.Kind.means → settled.looks ≤ most_looks self.old.image settled.moves self.new.image) }
        ensures none { OnOk result (self.new.run.items ≡ []) }
        ensures whole { OnOk result (self.old.image.broken ≡ false) }
        ensures same { OnOk result (SameModules self.old.image self.new.image) }
        ensures refused { IfErr result (λ fault. Refuses fault self.old.image self.new.image) }
        ensures still { self.old.image.broken ≡ false → NoneMay M.Kind.means self.old.image → IsOk result }
    {
        if self.ends.is_broken() {
            return Err(ChainFault::Broken);
        }
        self.restart();
        if self.enabling.len() == 0 {
            return Ok(Settled::none());
        }
        let mut moves = Moves::new();
        let mut hops = self.take_hops();
        while let Some((place, may)) = self.next_enabled() {
            if may {
                self.move_one(&mut moves, &mut hops, place)?;
            }
        }
        self.put_back_hops(hops);
        let looks = self.enabling.looks();
        Ok(Settled { moves, looks })
    }

    /// Moves a place that may move, with room for the messages that it sends, and puts it behind the moves so
    /// far.
    ///
    /// Fails only when memory runs out: with `NoMem` nothing is changed and there was no move before, and
    /// with `Broken` the chain is broken, or was before.
    fn move_one(
        &mut self,
        moves: &mut Moves,
        hops: &mut VecDeque<Hop>,
        place: Place,
    ) -> Result<(), ChainFault>
        requires empty { hops.old.items ≡ [] }
        requires may { may M.Kind.means self.old.image place ≡ true }
        requires whole { self.old.image.broken ≡ false }
        ensures ok { OnOk result (self.new.image ≡ move M.Kind.means self.old.image place) }
        ensures done { OnOk result (hops.new.items ≡ []) }
        ensures moves { OnOk result (moves.new ≡ moves.old ++ place ∷ []) }
        ensures given { OnOk result (self.new.run.given ≡ self.old.run.given) }
        ensures few { OnOk result (length self.new.run.items ≤ QUEUES) }
        ensures more { OnOk result (IsCalm M.Kind.means → is_enabled self.old.run place ≡ true → HasMoved self.old self.new 0) }
        ensures counted { OnOk result (length moves.new < 18446744073709551616) }
        ensures same { OnOk result (SameModules self.old.image self.new.image) }
        ensures refused { IfErr result (λ fault. Refuses fault self.old.image self.new.image) }
        ensures first { IfErr result (λ fault. fault ≡ ChainFault.NoMem → moves.old ≡ []) }
    {
        let is_first = moves.is_empty();
        match moves.push(self.ends.alloc(), place) {
            Ok(()) => {}
            Err(_) => return Err(self.refuse(is_first)),
        }
        match self.serve(hops, place) {
            Ok(()) => {
                // The proof learns from the lengths that both are small.
                let _ = moves.len();
                let _ = self.enabling.len();
                Ok(())
            }
            Err(ChainFault::NoMem) => Err(self.refuse(is_first)),
            Err(ChainFault::Broken) => Err(ChainFault::Broken),
        }
    }

    /// Returns the fault of memory that ran out, and breaks the chain unless nothing was changed yet.
    fn refuse(&mut self, is_untouched: bool) -> ChainFault
        requires { self.old.image.broken ≡ false }
        ensures refused { Refuses result self.old.image self.new.image }
        ensures untouched { is_untouched ≡ true → result ≡ ChainFault.NoMem }
        ensures touched { is_untouched ≡ false → result ≡ ChainFault.Broken }
    {
        if is_untouched {
            return ChainFault::NoMem;
        }
        self.break_chain()
    }
}
