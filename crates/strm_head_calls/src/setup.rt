//! The setup of a stream.
ghost use Rattle.std.specs.Prelude.{◌≡◌};
ghost use Rattle.strm_module.specs.Driver.{is_line};
ghost use Rattle.strm_head_calls.specs.Setup.{is_fit, is_ring};

use strm_module::Driver;

/// The most messages that the ring of a line holds.
pub const MOST_RING: u16 = 4096;

/// The setup of a stream that keeps its history.
#[derive(Clone, Copy, Debug, PartialEq, Eq)]
pub struct Setup {
    /// The driver at the bottom.
    pub driver: Driver,
    /// The marks of the heads' lists, in bytes: the high one, and a lower low one.
    pub head: (u32, u32),
    /// The marks of the driver's lists, in bytes: the high one, and a lower low one.
    pub drv: (u32, u32),
    /// The number of messages that the ring holds through which the line of a shared stream is fed: 1 to
    /// `MOST_RING`. The other drivers have none, and then any number will do.
    pub ring: u16,
}

impl Setup {
    /// Whether messages come to the stream from a line.
    pub fn is_line(&self) -> bool
        ensures { result ≡ is_line self.now.driver }
    {
        self.driver.is_line()
    }

    /// Whether each low mark is below its high one.
    pub fn is_fit(&self) -> bool
        ensures { result ≡ is_fit self.now }
    {
        self.head.1 < self.head.0 && self.drv.1 < self.drv.0
    }

    /// Whether the ring can be made: no messages come to the stream from a line, or the ring holds 1 to
    /// `MOST_RING` messages.
    pub fn is_ring(&self) -> bool
        ensures { result ≡ is_ring self.now }
    {
        !self.is_line() || (1..=MOST_RING).contains(&self.ring)
    }
}
