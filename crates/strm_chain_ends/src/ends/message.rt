//! The effect of a message on the driver.
ghost use Rattle.std.specs.Prelude.{◌≡◌, OnOk, OnErr, IfOk};
ghost use Rattle.strm_chain_end.specs.Modules.{SameEnd};
ghost use Rattle.strm_chain_ends.specs.Image.{end_of, input_flushed, driven, put_at_driver};
ghost use Rattle.strm_chain_ends.specs.Same.{SameModules};

use super::Ends;
use strm_chain_end::DriverSends;
use strm_module::{Driver, ModuleOf};
use strm_msg::{BoxedMessage, End, MsgKind, NoMem};

impl<M: ModuleOf> Ends<M> {
    /// Flushes the messages that came in to a wire, where a flush of read queues comes to its driver.
    fn flush_input(&mut self, kind: MsgKind)
        ensures image { self.new.image ≡ record self.old.image { b = input_flushed self.old.image.driver self.old.image.b kind } }
        ensures same { SameEnd self.old.image.b self.new.image.b }
    {
        match (self.driver, kind) {
            (
                Driver::Wire,
                MsgKind::MFlush {
                    r: true,
                    w: _,
                    band,
                },
            ) => self.b.flush_driver(true, band),
            _ => {}
        }
    }

    /// Lets the driver act on a message from above, and returns what it sends up. At an end that the driver
    /// lacks the message is dropped. A flush of read queues also passes the messages that came in to a wire.
    /// Fails only when memory runs out: then nothing is changed.
    pub fn put_at_driver(&mut self, end: End, m: BoxedMessage) -> Result<DriverSends, NoMem>
        ensures state { OnOk result (self.new.image ≡ driven self.old.image end m) }
        ensures sends { IfOk result (λ sends. sends ≡ (put_at_driver self.old.image.driver end (end_of self.old.image end) m).sends) }
        ensures err { OnErr result (self.new.image ≡ self.old.image) }
        ensures same { SameModules self.old.image self.new.image }
    {
        let driver = self.driver;
        if !driver.has_end(end) {
            return Ok(DriverSends::Nothing);
        }
        match (driver, end) {
            (Driver::Wire, End::A) => {
                let kind = m.kind;
                let sends = self.a.put_at_driver(driver, m)?;
                self.flush_input(kind);
                Ok(sends)
            }
            (Driver::Echo | Driver::Loop | Driver::Line, End::A) => self.a.put_at_driver(driver, m),
            (_, End::B) => self.b.put_at_driver(driver, m),
        }
    }
}
