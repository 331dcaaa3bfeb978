//! Orders that are drawn.
ghost use Rattle.std.specs.Prelude.{◌≡◌, ◌<◌, ◌%◌};
ghost use Rattle.rand_pcg.specs.Pcg.{pcg32};
ghost use Rattle.strm_script_orders.specs.Drawn.{generator_of};

use rand_core::utils::NextWord;
use rand_pcg::Pcg32;
use std::marker::Model;
use strm_run_input::Order;

/// The stream of the generator that all orders are drawn from, which is that of PCG's reference code.
const STREAM: u64 = 54;

/// An order that is drawn by PCG32, so that a seed gives it again. A contract sees the generator.
#[derive(Drop)]
pub struct DrawnOrder {
    rng: Pcg32,
}

impl Model for DrawnOrder {
    ghost use Rattle.rand_pcg.specs.Lcg.{Lcg};

    ghost Value = { Lcg };

    ghost view = { λ order. order.rng };
}

impl DrawnOrder {
    /// The order of a seed.
    pub fn new(seed: u64) -> DrawnOrder
        ensures { result ≡ generator_of seed }
    {
        DrawnOrder {
            rng: Pcg32::new(seed, STREAM),
        }
    }
}

impl Order for DrawnOrder {
    /// The next word that is drawn, modulo how many there are.
    fn next(&mut self, many: usize) -> usize
        requires { 0 < many }
        ensures choice { result ≡ (pcg32 self.old).0 % many }
        ensures state { self.new ≡ (pcg32 self.old).1 }
        ensures below { result < many }
    {
        self.rng.next_word() as usize % many
    }
}
