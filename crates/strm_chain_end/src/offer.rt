//! Offers of places.
ghost use Rattle.std.specs.Prelude.{◌≡◌};
ghost use Rattle.strm_chain_end.specs.Offer.{offered, own_offer};

use strm_msg::Message;

/// The offer of a place: the message that it would move now, or one of a module's own, as flow control sees
/// it (bcanput(9F)).
#[derive(Clone, Copy, Debug, PartialEq, Eq)]
pub struct Offer {
    /// It goes past full queues.
    pub is_high: bool,
    /// The band in which the queue ahead must have room.
    pub band: u8,
}

impl Offer {
    /// A message that waits.
    pub fn of(m: &Message) -> Offer
        ensures { result ≡ offered m.now }
    {
        Offer {
            is_high: m.is_high(),
            band: m.band,
        }
    }

    /// Something of a module's own, of a band or past full queues.
    pub(crate) fn own(band: Option<u8>) -> Offer
        ensures { result ≡ own_offer band }
    {
        match band {
            Some(band) => Offer {
                is_high: false,
                band,
            },
            None => Offer {
                is_high: true,
                band: 0,
            },
        }
    }
}
