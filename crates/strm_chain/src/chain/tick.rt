//! Ticks that pass for the modules of an end.
ghost use Rattle.std.specs.Prelude.{◌≡◌};
ghost use Rattle.strm_chain_end.specs.End.{expired_at, expired_end};
ghost use Rattle.strm_chain_ends.specs.Image.{end_of, with_end};
ghost use Rattle.strm_chain_ends.specs.Same.{SameModules};

use super::Chain;
use strm_module::ModuleOf;
use strm_msg::End;

impl<M: ModuleOf> Chain<M> {
    /// Lets ticks pass for module `i`, and enables its services whose turns they change.
    fn tick_at(&mut self, end: End, i: u8, ticks: u32)
        ensures image { self.new.image ≡ with_end self.old.image end (expired_at M.Kind.means (end_of self.old.image end) i ticks) }
        ensures rooms { self.new.rooms ≡ self.old.rooms }
        ensures same { SameModules self.old.image self.new.image }
        ensures given { self.new.run.given ≡ self.old.run.given }
    {
        let turns = self.ends.turns(end, i);
        self.ends.end_mut(end).expire_at(i, ticks);
        self.enabling.enable_by_turns(&self.ends, end, i, turns);
    }

    /// Lets ticks pass for the modules of an end (timeout(9F)). That changes the state of their kinds
    /// alone: nothing is sent, and no queue changes. A service whose turn they change is enabled. What a kind
    /// then owes, `settle` sends. Takes no memory, and no list loses room.
    pub fn tick(&mut self, end: End, ticks: u32)
        ensures image { self.new.image ≡ with_end self.old.image end (expired_end M.Kind.means (end_of self.old.image end) ticks) }
        ensures rooms { self.new.rooms ≡ self.old.rooms }
    {
        let count = self.ends.count(end);
        for i in 0..count {
            self.tick_at(end, i as u8 + 1, ticks);
        }
    }
}
