//! The ring of a line.
ghost use Rattle.std.specs.Prelude.{◌≡◌, ◌↔◌, true, false, is_some, IfOk, IsErrOf};
ghost use Rattle.strm_module.specs.Driver.{is_line};
ghost use Rattle.strm_head_calls.specs.Setup.{is_ring};
ghost use Rattle.strm_shared_ring.specs.Feed.{fresh_feeder};
ghost use Rattle.strm_shared_ring.specs.Inlet.{fresh_inlet};

use crate::fault::RingFault;
use crate::feeder::Feeder;
use crate::inlet::Inlet;
use crate::stream_run_name::StreamRunName;
use rtrb::{Consumer, Producer, Protocol, RingBuffer};
use std::alloc::Global;
use std::marker::Model;
use strm_head_calls::Setup;
use strm_msg::Message;

/// The property of messages in a ring: they are of kinds that come from a line.
pub(crate) struct FromLine;

impl Protocol<Message> for FromLine {
    ghost use Rattle.std.specs.Prelude.{◌≡◌, true};
    ghost use Rattle.strm_msg.specs.Kind.{is_from_line};

    ghost allows = { λ before m. is_from_line m.kind ≡ true };
}

/// The ring through which the line of a shared stream is fed, before its ends are taken apart. Other drivers
/// have none.
///
/// A contract sees the setup, and the name by which a run knows the ring.
#[derive(Drop)]
pub struct Ring {
    setup: Setup,
    ends: Option<
        (
            Producer<Message, Global, FromLine>,
            Consumer<Message, Global, FromLine>,
        ),
    >,
}

impl Model for Ring {
    ghost use Rattle.std.specs.Prelude.{◌≡◌, is_some};
    ghost use Rattle.std.specs.Option.{option_map};
    ghost use Rattle.strm_module.specs.Driver.{is_line};
    ghost use Rattle.strm_shared_ring.specs.Name.{producer_name};
    ghost use Rattle.strm_shared_ring.specs.Feed.{RingValue};
    ghost use Rattle.strm_shared_ring.specs.Ring.{AreNew};

    ghost Value = { RingValue };

    ghost view = { λ r. record { setup = r.setup; name = option_map (λ ends. producer_name ends.0) r.ends } };

    ghost invariant = { λ r. (is_some r.ends ≡ is_line r.setup.driver) × AreNew r.setup.ring r.ends };
}

impl Ring {
    /// The ring for a stream that is made by this setup: for as many messages as the setup says if it is a
    /// line, and else none.
    ///
    /// Refused with `Slots` exactly where the ring of a line does not hold 1 to 4096 messages, which is
    /// looked at first, and with `NoMem` when memory runs out.
    pub fn new(alloc: Global, setup: Setup) -> Result<Ring, RingFault>
        ensures setup { IfOk result (λ ring. ring.setup ≡ setup) }
        ensures line { IfOk result (λ ring. is_some ring.name ≡ is_line setup.driver) }
        ensures slots { IsErrOf result RingFault.Slots ↔ (is_ring setup ≡ false) }
    {
        if !setup.is_ring() {
            return Err(RingFault::Slots);
        }
        if !setup.is_line() {
            return Ok(Ring { setup, ends: None });
        }
        let Ok(ends) = RingBuffer::with_protocol::<Global, FromLine>(alloc, setup.ring as usize)
        else {
            return Err(RingFault::NoMem);
        };
        Ok(Ring {
            setup,
            ends: Some(ends),
        })
    }

    /// The setup of the stream that it is for.
    pub fn setup(&self) -> Setup
        ensures { result ≡ self.now.setup }
    {
        self.setup
    }

    /// Takes its ends apart: the inlet, and for a line the feeder. The run names the ring at this number.
    pub fn into_ends<K, N: StreamRunName<K>>(
        self,
        number: u32,
    ) -> (Inlet<K, N>, Option<Feeder<K, N>>)
        requires { self.name ≡ N.ring number }
        ensures inlet { result.0 ≡ fresh_inlet number (is_line self.setup.driver) }
        ensures feeder { result.1 ≡ fresh_feeder number self.setup }
    {
        let Ring { setup: _, ends } = self;
        match ends {
            Some((producer, consumer)) => (
                Inlet::new(number, Some(consumer)),
                Some(Feeder::new(number, producer)),
            ),
            None => (Inlet::new(number, None), None),
        }
    }
}
