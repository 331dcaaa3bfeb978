//! A link on which a caller carries.
ghost use Rattle.std.specs.Prelude.{◌≡◌, ◌≤◌, ◌<◌, ◌+◌, ◌^◌, ◌∷◌, [], true, length, None, IfOk, IfSome, OnErr, OnOk, All};
ghost use Rattle.std.specs.Option.{option_to_list};
ghost use Rattle.strm_link.specs.Link.{fresh};
ghost use Rattle.strm_msg.specs.Kind.{is_from_line};
ghost use Rattle.strm_run_callers.specs.Carrying.{carrier_in, Carries, CarriesOn, IsCarrier, Offers};
ghost use Rattle.strm_shared_entry.specs.Taken.{taken_by};

use crate::feed_result::FeedResult;
use crate::offering::accepts;
use crate::run_name::{Of, RunName};
use arrayvec::ArrayVec;
use std::marker::Model;
use strm_head_calls::{Answer, Event, Reply, Request};
use strm_link::{Link, MOST_PASSED, Rule};
use strm_msg::{Message, NoMem};
use strm_shared_ring::Feeder;

/// A link on which a caller carries, with the feeder of the wire that it leads to. A contract sees the link
/// behind the messages that went over it, the feed so far, and the number of messages that came back.
#[derive(Drop)]
pub struct Carrier<K, N: RunName<K>> {
    link: Link,
    feeder: Feeder<K, Of<N>>,
    overrun: u64,
}

impl<K, N: RunName<K>> Model for Carrier<K, N> {
    ghost use Rattle.strm_run_callers.specs.Carrying.{CarrierValue, IsCarrier};

    ghost Value = { CarrierValue };

    ghost view = { λ c. record { link = c.link; feed = c.feeder.feed; overrun = c.overrun } };

    ghost invariant = { λ c. IsCarrier N.run c.link c.feeder.feed };
}

/// The message that a take has taken from a wire, which shares the bytes with it; of a closed wire of which
/// all was taken a hangup. Fails only where the bytes have more owners than can be counted.
fn taken_by<P>(event: &Event<P>, answer: &Answer) -> Result<Option<Message>, NoMem>
    ensures { IfOk result (λ m. m ≡ taken_by event.now answer.now) }
{
    match (event, answer) {
        (Event::Asked(Request::Take), Answer::Done(Reply::Message { m })) => {
            let m: &Message = m;
            if m.from_line() {
                Ok(Some(m.copy()?))
            } else {
                Ok(None)
            }
        }
        (Event::Asked(Request::Take), Answer::Done(Reply::Hangup)) => {
            Ok(Some(Message::of_hangup()))
        }
        _ => Ok(None),
    }
}

impl<K, N: RunName<K>> Carrier<K, N> {
    /// A link of this rule over which nothing has gone, with the feeder of the wire that it leads to.
    pub fn new(rule: Rule, feeder: Feeder<K, Of<N>>) -> Carrier<K, N>
        requires { IsCarrier N.run (fresh rule) feeder.feed }
        ensures { result ≡ record { link = fresh rule; feed = feeder.feed; overrun = 0 } }
    {
        Carrier {
            link: Link::new(rule),
            feeder,
            overrun: 0,
        }
    }

    /// Offers a message once. One that comes back is dropped, and counted.
    fn offer(&mut self, m: Message)
        requires line { is_from_line m.kind ≡ true }
        requires few { self.old.overrun + 1 < 2 ^ 64 }
        ensures link { self.new.link ≡ self.old.link }
        ensures offered { Offers self.old (m ∷ []) self.new }
        ensures few { self.new.overrun ≤ self.old.overrun + 1 }
    {
        if !accepts(&mut self.feeder, m) {
            self.overrun += 1;
        }
    }

    /// Offers what a link passes on, each message once, in order.
    fn offer_all(&mut self, messages: ArrayVec<Message, MOST_PASSED>)
        requires lines { All (λ m. is_from_line m.kind ≡ true) messages.items }
        requires few { self.old.overrun + length messages.items < 2 ^ 64 }
        ensures link { self.new.link ≡ self.old.link }
        ensures offered { Offers self.old messages.items self.new }
    {
        for m in messages {
            self.offer(m);
        }
    }

    /// Carries a message: what the link passes on is offered.
    fn pass(&mut self, m: Message) -> Result<(), NoMem>
        requires line { is_from_line m.kind ≡ true }
        requires few { self.old.overrun + MOST_PASSED < 2 ^ 64 }
        ensures { OnOk result (Carries self.old (m ∷ []) self.new) }
    {
        match self.link.pass(m) {
            Ok(passed) => {
                self.offer_all(passed);
                Ok(())
            }
            Err(m) => {
                drop(m);
                Err(NoMem)
            }
        }
    }

    /// Carries what a call has taken from a wire, if it has taken something. Fails only where the bytes of a
    /// message have more owners than can be counted.
    pub(crate) fn carry<P>(&mut self, event: &Event<P>, answer: &Answer) -> Result<(), NoMem>
        requires { self.old.overrun + MOST_PASSED < 2 ^ 64 }
        ensures { OnOk result (Carries self.old (option_to_list (taken_by event.now answer.now)) self.new) }
    {
        match taken_by(event, answer)? {
            Some(m) => self.pass(m),
            None => Ok(()),
        }
    }

    /// The end of the feed that the link has made. `None` if the stream was dropped before.
    pub(crate) fn end(self) -> Option<FeedResult<K, N>>
        ensures { IfSome result (λ ended. ended ≡ record { feed = self.feed; overrun = self.overrun }) }
    {
        let Carrier {
            link,
            feeder,
            overrun,
        } = self;
        drop(link);
        let end = feeder.finish()?;
        Some(FeedResult::new(end, overrun))
    }
}

/// Carries what a call has taken from a wire, where there is a link. Fails only where the bytes of a message
/// have more owners than can be counted: then there is no link any more.
#[inline(always)]
pub(crate) fn carry<K, N: RunName<K>, P>(
    carrier: &mut Option<Box<Carrier<K, N>>>,
    event: &Event<P>,
    answer: &Answer,
) -> Result<(), NoMem>
    requires { IfSome carrier.old (λ b. b.value.overrun + MOST_PASSED < 2 ^ 64) }
    ensures ok { OnOk result (CarriesOn (carrier_in carrier.old) (option_to_list (taken_by event.now answer.now)) (carrier_in carrier.new)) }
    ensures err { OnErr result (carrier.new ≡ None) }
{
    let Some(mut one) = carrier.take() else {
        return Ok(());
    };
    one.carry(event, answer)?;
    *carrier = Some(one);
    Ok(())
}
