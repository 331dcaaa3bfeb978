//! Delivery: carries a message to its end, and the messages that come of it.
ghost use Rattle.std.specs.Prelude.{◌≡◌, OnOk, IfErr, true, false};
ghost use Rattle.strm_chain.specs.Deliver.{deliver, is_there};
ghost use Rattle.strm_chain_ends.specs.Same.{SameModules};
ghost use Rattle.strm_chain.specs.Fault.{Refuses};
ghost use Rattle.strm_chain.specs.HeadFlush.{HeadSendsOnce};
ghost use Rattle.strm_chain.specs.Hop.{carry};

use super::Chain;
use super::hop::Hop;
use crate::fault::ChainFault;
use crate::spot::Spot;
use strm_module::ModuleOf;
use strm_msg::{BoxedMessage, Message};

impl<M: ModuleOf> Chain<M> {
    /// Whether a spot is there, at an end that the driver has.
    pub fn has_spot(&self, spot: Spot) -> bool
        ensures { result ≡ is_there self.now.image spot }
    {
        match spot {
            Spot::Down { end, i } => {
                self.driver().has_end(end) && 1 <= i && usize::from(i) <= self.count(end) + 1
            }
            Spot::Up { end, i } => self.driver().has_end(end) && usize::from(i) <= self.count(end),
        }
    }

    /// The hop of a message that is handed in at a spot.
    fn first_hop(&self, spot: Spot, m: BoxedMessage) -> Hop
        ensures { carry M.Kind.means self.now.image result ≡ deliver M.Kind.means self.now.image spot m }
    {
        match spot {
            Spot::Down { end, i } => {
                let ahead = (self.count(end) + 1).saturating_sub(usize::from(i));
                Hop::down(false, end, ahead, m)
            }
            Spot::Up { end, i } => Hop::up(false, end, usize::from(i), m),
        }
    }

    /// Breaks the chain, where memory ran out after a change.
    pub(super) fn break_chain(&mut self) -> ChainFault
        ensures fault { result ≡ ChainFault.Broken }
        ensures image { self.new.image ≡ record self.old.image { broken = true } }
        ensures given { self.new.run.given ≡ self.old.run.given }
    {
        self.break_off();
        ChainFault::Broken
    }

    /// Hands a message in at a spot that is there, and carries it and the messages that come of it to their
    /// end (putnext(9F)). No place is served.
    ///
    /// Fails only when memory runs out: with `NoMem` nothing is changed, and with `Broken` the chain is
    /// broken, or was before.
    pub fn deliver(&mut self, spot: Spot, m: Message) -> Result<(), ChainFault>
        requires { is_there self.old.image spot ≡ true }
        ensures ok { OnOk result (self.new.image ≡ deliver M.Kind.means self.old.image spot m) }
        ensures whole { OnOk result (self.old.image.broken ≡ false) }
        ensures same { OnOk result (SameModules self.old.image self.new.image) }
        ensures refused { IfErr result (λ fault. Refuses fault self.old.image self.new.image) }
    {
        if self.ends.is_broken() {
            return Err(ChainFault::Broken);
        }
        let m = BoxedMessage::new(self.ends.alloc(), m)?;
        let hop = self.first_hop(spot, m);
        let mut hops = self.take_hops();
        self.hop(&mut hops, hop)?;
        match self.deliver_all(&mut hops) {
            Ok(()) => {
                self.put_back_hops(hops);
                Ok(())
            }
            Err(_) => Err(self.break_chain()),
        }
    }
}

/// A law, for which nothing is done: with the built-in kinds, messages that a head sends down come back to no
/// head that would send anything again. So it changes nothing to let a head send nothing there, by which
/// delivery ends for kinds of any meaning.
pub fn head_sends_once()
    ensures { HeadSendsOnce }
{}
