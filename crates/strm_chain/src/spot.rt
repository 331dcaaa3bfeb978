//! The spots where a message is handed in.
ghost use Rattle.std.specs.Prelude.{◌≡◌};
ghost use Rattle.strm_chain.specs.declared.spot.Spot.TheVariants as Spots;

use strm_msg::End;

/// The spot where a message is handed in. An end with k modules has the spots 1 to k + 1 down and 0 to k up.
#[derive(Clone, Copy, Debug, PartialEq, Eq)]
pub enum Spot {
    /// From above to a module, or to the driver at k + 1.
    Down {
        /// The end.
        end: End,
        /// The number of the module.
        i: u8,
    },
    /// From below to a module, or to the head at 0.
    Up {
        /// The end.
        end: End,
        /// The number of the module.
        i: u8,
    },
}

impl Spot {
    /// The spot where a message that a head sends down comes first: its topmost module, or the driver of an
    /// end without modules.
    pub fn top(end: End) -> Spot
        ensures { result ≡ Spots.Down end 1 }
    {
        Spot::Down { end, i: 1 }
    }
}
