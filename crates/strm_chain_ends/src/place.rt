//! The places of a stream, and the queues that messages wait for.
ghost use Rattle.std.specs.Prelude.{◌≡◌};
ghost use Rattle.strm_msg.specs.declared.words.End.TheVariants as Ends;
ghost use Rattle.strm_chain_ends.specs.declared.place.Place.TheVariants as Places;

use strm_msg::End;

/// A queue that is serviced. Modules are counted from 1, which is the topmost.
#[derive(Clone, Copy, Debug, PartialEq, Eq)]
pub enum Place {
    /// The write queue of a module.
    Wr {
        /// Its end.
        end: End,
        /// The number of the module.
        i: u8,
    },
    /// The list of the driver.
    Drv {
        /// The end that the list is for.
        end: End,
    },
    /// The read queue of a module.
    Rd {
        /// Its end.
        end: End,
        /// The number of the module.
        i: u8,
    },
}

/// The list of the driver for end A. It is where a list of places has room and no place yet.
impl Default for Place {
    ghost is_default = { λ place. place ≡ Places.Drv Ends.A };

    fn default() -> Self {
        Place::Drv { end: End::A }
    }
}

/// A queue in which a message comes to wait after it has left a place.
#[derive(Clone, Copy, Debug, PartialEq, Eq)]
pub enum NextQueue {
    /// The queue of another place.
    Of {
        /// The place.
        place: Place,
    },
    /// The list of a head.
    Head {
        /// Its end.
        end: End,
    },
}
