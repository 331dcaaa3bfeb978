//! The links of a run before their callers have them.
ghost use Rattle.std.specs.Prelude.{◌≡◌, true, IfOk, IfSome};
ghost use Rattle.strm_run_callers.specs.Carrying.{CanJoin, IsFreshCarrier};

use crate::carrier::Carrier;
use crate::run_name::{Of, RunName};
use std::alloc::Global;
use std::marker::Model;
use strm_msg::NoMem;
use strm_run_input::RunLink;
use strm_shared_ring::Feeder;

/// A link over which nothing has gone, its caller, and the stream from which that is to carry.
#[derive(Drop)]
pub struct Joint<K, N: RunName<K>> {
    by: u32,
    from: u32,
    carrier: Box<Carrier<K, N>>,
}

impl<K, N: RunName<K>> Model for Joint<K, N> {
    ghost use Rattle.strm_run_callers.specs.Carrying.{IsFreshCarrier, JointValue};

    ghost Value = { JointValue };

    ghost view = { λ j. record { by = j.by; from = j.from } };

    ghost invariant = { λ j. IsFreshCarrier N.run j.by j.from j.carrier.value };
}

impl<K, N: RunName<K>> Joint<K, N> {
    /// A link of a run, with the feeder of the wire that it leads to. Fails only when memory runs out.
    pub fn new(alloc: Global, link: RunLink, feeder: Feeder<K, Of<N>>) -> Result<Joint<K, N>, NoMem>
        requires { CanJoin N.run link feeder.feed }
        ensures { IfOk result (λ joint. joint ≡ record { by = link.by; from = link.from }) }
    {
        let RunLink {
            by,
            from,
            to: _,
            rule,
        } = link;
        match Box::new(alloc, Carrier::new(rule, feeder)) {
            Ok(carrier) => Ok(Joint { by, from, carrier }),
            Err(_) => Err(NoMem),
        }
    }

    /// Whether this caller is to carry on it, from the stream of this number.
    fn is_of(&self, caller: u32, stream: u32) -> bool
        ensures by { result ≡ true → self.now.by ≡ caller }
        ensures from { result ≡ true → self.now.from ≡ stream }
    {
        self.by == caller && self.from == stream
    }

    /// The link.
    fn into_carrier(self) -> Box<Carrier<K, N>>
        ensures { IsFreshCarrier N.run self.by self.from result.value }
    {
        let Joint {
            by: _,
            from: _,
            carrier,
        } = self;
        carrier
    }
}

/// Takes the link on which a caller is to carry from a stream, if there is one.
pub(crate) fn take_carrier<K: Drop, N: RunName<K>>(
    joints: &mut Vec<Joint<K, N>>,
    caller: u32,
    stream: u32,
) -> Option<Box<Carrier<K, N>>>
    ensures { IfSome result (λ b. IsFreshCarrier N.run caller stream b.value) }
{
    for at in 0..joints.len() {
        if joints[at].is_of(caller, stream) {
            return Some(joints.remove(at).into_carrier());
        }
    }
    None
}
