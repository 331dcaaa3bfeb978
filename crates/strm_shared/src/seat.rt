//! The seat of a caller of a shared stream.
ghost use Rattle.std.specs.Prelude.{◌≡◌, ◌+◌, ◌<◌, ◌^◌, true};
ghost use Rattle.strm_shared.specs.Seat.{after_call};

use std::marker::Model;

/// The seat of a caller of a shared stream: the caller's number, that of the stream, the number of its calls
/// that were made, and whether each of them has a receipt. Only `Shared::new` makes seats.
#[derive(Drop)]
pub struct Seat {
    number: u32,
    caller: u32,
    calls: u64,
    shown: bool,
}

impl Model for Seat {
    ghost use Rattle.strm_shared.specs.Seat.{SeatValue};

    ghost Value = { SeatValue };

    ghost view = { λ s. record { number = s.number; caller = s.caller; calls = s.calls; shown = s.shown } };
}

impl Seat {
    /// A seat that has made no call.
    pub(crate) fn new(number: u32, caller: u32) -> Seat
        ensures { result ≡ record { number = number; caller = caller; calls = 0; shown = true } }
    {
        Seat {
            number,
            caller,
            calls: 0,
            shown: true,
        }
    }

    /// The number of the stream.
    pub fn number(&self) -> u32
        ensures { result ≡ self.now.number }
    {
        self.number
    }

    /// The number of the caller, from 0.
    pub fn caller(&self) -> u32
        ensures { result ≡ self.now.caller }
    {
        self.caller
    }

    /// The number of calls that were made from here.
    pub fn calls(&self) -> u64
        ensures { result ≡ self.now.calls }
    {
        self.calls
    }

    /// Whether each call that was made from here has a receipt.
    pub fn is_shown(&self) -> bool
        ensures { result ≡ self.now.shown }
    {
        self.shown
    }

    /// Counts one call more that was made, which has a receipt or has none.
    pub(crate) fn count(&mut self, has_receipt: bool)
        requires { self.old.calls + 1 < 2 ^ 64 }
        ensures { self.new ≡ after_call self.old has_receipt }
    {
        self.calls += 1;
        self.shown = self.shown && has_receipt;
    }
}
