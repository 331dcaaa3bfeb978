//! The inlet, where the messages of a line come in.
ghost use Rattle.std.specs.Prelude.{◌≡◌, ◌++◌, ◌∷◌, [], true, None, List, IfNone, IfOk, IfSome, is_some};
ghost use Rattle.std.specs.Option.{option_map};
ghost use Rattle.strm_msg.specs.Message.{Msg};
ghost use Rattle.strm_msg.specs.Kind.{is_from_line};
ghost use Rattle.rtrb.specs.Ring.{received, all_sent, IsFinishedOf};
ghost use Rattle.strm_shared_ring.specs.Name.{consumer_name};
ghost use Rattle.strm_shared_ring.specs.Feed.{accepted_of};
ghost use Rattle.strm_shared_ring.specs.Inlet.{fresh_inlet, taken_of, HasFed, LeavesNext, HoldsBack, GrowsWith};

use crate::feeder::FeedEnd;
use crate::ring::FromLine;
use crate::stream_run_name::StreamRunName;
use rtrb::{Consumer, Finished};
use std::alloc::Global;
use std::marker::{Model, PhantomData};
use strm_msg::{Message, NoMem};

/// The inlet, where the messages of a line come in: the stream's end of its ring, and the message that is
/// held back, if one is.
///
/// A contract sees the messages that have left it, in order, and the one that is held back.
#[derive(Drop)]
pub struct Inlet<K, N: StreamRunName<K>> {
    number: u32,
    ring: Option<Consumer<Message, Global, FromLine>>,
    held: Option<Message>,
    of: PhantomData<(K, N)>,
}

impl<K, N: StreamRunName<K>> Model for Inlet<K, N> {
    ghost use Rattle.std.specs.Prelude.{is_some};
    ghost use Rattle.strm_shared_ring.specs.Inlet.{came_of, taken_of, InletValue, IsInlet};

    ghost Value = { InletValue };

    ghost view = { λ i. record {
      number = i.number;
      is_fed = is_some i.ring;
      came = came_of (taken_of i.ring) i.held;
      held = i.held;
    } };

    ghost invariant = { λ i. IsInlet (N.ring i.number) i.ring i.held };
}

/// The messages that are still in a ring whose feeder has ended, behind those that were taken of them
/// already.
fn drained(
    ring: &mut Consumer<Message, Global, FromLine>,
    finished: &mut Finished<Message, Global, FromLine>,
    mut left: Vec<Message>,
) -> Result<Vec<Message>, NoMem>
    requires { IsFinishedOf finished.old ring.old }
    ensures { IfOk result (λ all. GrowsWith left.items (received ring.old) all.items (all_sent finished.old)) }
{
    let many = ring.slots_after(finished);
    for _at in 0..many {
        left.push(ring.pop_known())?;
    }
    Ok(left)
}

impl<K, N: StreamRunName<K>> Inlet<K, N> {
    /// An inlet out of which nothing has come, of this ring, if there is one.
    pub(crate) fn new(number: u32, ring: Option<Consumer<Message, Global, FromLine>>) -> Inlet<K, N>
        requires name { N.ring number ≡ option_map consumer_name ring }
        requires none { taken_of ring ≡ [] }
        ensures { result ≡ fresh_inlet number (is_some ring) }
    {
        Inlet {
            number,
            ring,
            held: None,
            of: PhantomData,
        }
    }

    /// Whether it is the end of a ring, as that of a line is.
    pub fn is_fed(&self) -> bool
        ensures { result ≡ self.now.is_fed }
    {
        self.ring.is_some()
    }

    /// Takes the next message: the one that is held back, or else the first of the ring. `None` where the
    /// ring was found empty, or there is none.
    pub fn take(&mut self) -> Option<Message>
        ensures next { IfSome result (λ m. LeavesNext self.old m self.new) }
        ensures line { IfSome result (λ m. is_from_line m.kind ≡ true) }
        ensures none { IfNone result (self.new ≡ self.old) }
        ensures empty { self.new.held ≡ None }
    {
        if self.held.is_some() {
            return self.held.take();
        }
        match &mut self.ring {
            Some(ring) => ring.pop().ok(),
            None => None,
        }
    }

    /// Holds back the message that has left last, which could not come in.
    pub fn hold(&mut self, m: Message)
        requires line { is_from_line m.kind ≡ true }
        requires empty { self.old.held ≡ None }
        requires last { (before : List Msg) × (self.old.came ≡ before ++ m ∷ []) }
        ensures { HoldsBack self.old m self.new }
    {
        self.held = Some(m);
    }

    /// The messages that were accepted and have not left, in order: the message that is held back, and those
    /// in the ring. Fails only when memory runs out.
    ///
    /// To be called when the feeder of the stream has ended.
    pub fn drain(self, alloc: Global, feed: Option<FeedEnd<K, N>>) -> Result<Vec<Message>, NoMem>
        requires { HasFed self feed }
        ensures { IfOk result (λ left. self.came ++ left.items ≡ accepted_of feed) }
    {
        let Inlet {
            number: _,
            ring,
            held,
            of: _,
        } = self;
        let mut left = Vec::new(alloc);
        if let Some(m) = held {
            left.push(m)?;
        }
        let Some(feed) = feed else {
            return Ok(left);
        };
        let Some(mut ring) = ring else { unreachable!() };
        drained(&mut ring, &mut feed.into_finished(), left)
    }
}
