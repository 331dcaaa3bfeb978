//! Flow control: the next queue of an end.
ghost use Rattle.std.specs.Prelude.{◌≡◌, ◌≤◌, length, IfSome, option_map, option_copied};
ghost use Rattle.strm_chain_end.specs.Modules.{identities_of};
ghost use Rattle.strm_chain_end.specs.Canput.{fill_of, above, below};
ghost use Rattle.strm_chain_end.specs.Next.{next_below, next_above, queue_at};

use super::StreamEnd;
use strm_module::{Driver, ModuleOf};
use strm_msg::Side;
use strm_queue::BandQueue;

impl<M: ModuleOf> StreamEnd<M> {
    /// The module whose write queue is the first below a module, and below the head where `i` is 0.
    pub fn next_below(&self, i: usize) -> Option<usize>
        ensures value { result ≡ next_below (identities_of self.now.state.modules) i }
        ensures there { IfSome result (λ j. (1 ≤ j) × (j ≤ length self.now.state.modules)) }
    {
        let mut at = i;
        while at < self.pairs.len() {
            if self.pairs[at].has_queue(Side::Wr) {
                return Some(at + 1);
            }
            at += 1;
        }
        None
    }

    /// The module whose read queue is the first above a module, and above all k of them where `i` is
    /// k + 1.
    pub fn next_above(&self, i: usize) -> Option<usize>
        ensures value { result ≡ next_above (identities_of self.now.state.modules) i }
        ensures there { IfSome result (λ j. (1 ≤ j) × (j ≤ length self.now.state.modules)) }
    {
        let mut at = i.saturating_sub(1).min(self.pairs.len());
        while at > 0 {
            if self.pairs[at - 1].has_queue(Side::Rd) {
                return Some(at);
            }
            at -= 1;
        }
        None
    }

    /// The queue of a side that a module has; `None` where it has none or is not there.
    pub fn queue(&self, i: usize, side: Side) -> Option<&BandQueue>
        ensures { option_map fill_of (option_copied result) ≡ queue_at self.now.state side i }
    {
        if i == 0 || i > self.pairs.len() {
            return None;
        }
        self.pairs[i - 1].queue(side)
    }

    /// The first write queue below a module, and below the head where `i` is 0: that of a module,
    /// else the list of an echo, a loop or a wire.
    pub fn queue_below(&self, driver: Driver, i: usize) -> Option<&BandQueue>
        ensures { option_map fill_of (option_copied result) ≡ below driver self.now.state i }
    {
        match self.next_below(i) {
            Some(j) => self.queue(j, Side::Wr),
            None => match driver {
                Driver::Line => None,
                Driver::Echo => Some(&self.drv),
                Driver::Loop => Some(&self.drv),
                Driver::Wire => Some(&self.drv),
            },
        }
    }

    /// The first read queue above a module, and above all k of them where `i` is k + 1: that of a
    /// module, else the list of the head, which a closed end has not.
    pub fn queue_above(&self, i: usize) -> Option<&BandQueue>
        ensures { option_map fill_of (option_copied result) ≡ above self.now.state i }
    {
        match self.next_above(i) {
            Some(j) => self.queue(j, Side::Rd),
            None if self.is_open => Some(&self.head),
            None => None,
        }
    }
}
