//! A feeder that offers its feed.
ghost use Rattle.std.specs.Prelude.{◌≡◌, ◌↔◌, ◌<◌, ◌∷◌, true, false, [], length, slice_get, All, None, Some, IfSome};
ghost use Rattle.strm_msg.specs.Kind.{is_from_line};
ghost use Rattle.strm_run_input.specs.Scripts.{feed_of};
ghost use Rattle.strm_run_callers.specs.Feeding.{HasOffered, IsUnfed};

use crate::feed_result::FeedResult;
use crate::offered_feeds::OfferedFeeds;
use crate::offering::accepts;
use crate::run_name::{Of, RunName};
use std::marker::Model;
use std::sync::Wait;
use std::vec::IntoIter;
use strm_msg::Message;
use strm_shared_ring::Feeder;

/// A feeder with the messages that it is still to offer. A contract sees the number of the stream and these
/// messages.
#[derive(Drop)]
pub struct Feeding<K, N: RunName<K>> {
    feeder: Feeder<K, Of<N>>,
    messages: IntoIter<Message>,
    overrun: u64,
}

impl<K, N: RunName<K>> Model for Feeding<K, N> {
    ghost use Rattle.std.specs.Prelude.{◌≡◌, length};
    ghost use Rattle.std.specs.Vec.Iter.{into_iter_items, into_iter_len};
    ghost use Rattle.strm_run_callers.specs.Feeding.{FeedingValue, IsFeeding};

    ghost Value = { FeedingValue };

    ghost view = { λ f. record { number = f.feeder.feed.number; left = into_iter_items f.messages } };

    ghost invariant = { λ f. (into_iter_len f.messages ≡ length (into_iter_items f.messages)) × IsFeeding N.run f.feeder.feed (into_iter_items f.messages) f.overrun };
}

/// A feeder that has offered each of its messages once. A contract sees the result of its feed.
#[derive(Drop)]
pub struct Offered<K, N: RunName<K>> {
    result: FeedResult<K, N>,
}

impl<K, N: RunName<K>> Model for Offered<K, N> {
    ghost use Rattle.strm_run_callers.specs.Feeding.{FeedResultValue, HasOffered};

    ghost Value = { FeedResultValue };

    ghost view = { λ o. o.result };

    ghost invariant = { λ o. HasOffered N.run o.result.feed o.result.overrun };
}

impl<K, N: RunName<K>> Feeding<K, N> {
    /// A feeder that has offered none of its messages.
    pub fn new(feeder: Feeder<K, Of<N>>, messages: Vec<Message>) -> Feeding<K, N>
        requires feed { IsUnfed N.run feeder.feed messages.items }
        requires kinds { All (λ m. is_from_line m.kind ≡ true) messages.items }
        ensures { result ≡ record { number = feeder.feed.number; left = messages.items } }
    {
        Feeding {
            feeder,
            messages: messages.into_iter(),
            overrun: 0,
        }
    }

    /// The number of the stream.
    pub fn number(&self) -> u32
        ensures number { result ≡ self.now.number }
        ensures there { self.now.number < length N.run.setups }
    {
        self.feeder.number()
    }

    /// The number of messages that are left to offer.
    pub fn len(&self) -> usize
        ensures { result ≡ length self.now.left }
    {
        self.messages.len()
    }

    /// Whether there is no message left to offer.
    pub fn is_empty(&self) -> bool
        ensures { result ≡ true ↔ (self.now.left ≡ []) }
    {
        self.messages.len() == 0
    }

    /// Offers the next message, if one is left, and returns whether one was. One that comes back is dropped,
    /// and counted.
    pub fn step(&mut self) -> bool
        ensures number { self.new.number ≡ self.old.number }
        ensures one { result ≡ true → (m : _) × (self.old.left ≡ m ∷ self.new.left) }
        ensures none { result ≡ false → ((self.old.left ≡ []) × (self.new.left ≡ [])) }
    {
        let Some(m) = self.messages.next() else {
            return false;
        };
        if !accepts(&mut self.feeder, m) {
            self.overrun += 1;
        }
        true
    }

    /// The end of a feed of which no message is left. `None` if the stream was dropped before.
    fn end(self) -> Option<Offered<K, N>>
        requires { self.left ≡ [] }
        ensures { IfSome result (λ offered. offered.feed.number ≡ self.number) }
    {
        let Feeding {
            feeder,
            messages,
            overrun,
        } = self;
        drop(messages);
        let end = feeder.finish()?;
        Some(Offered {
            result: FeedResult::new(end, overrun),
        })
    }

    /// Offers each message that is left once, in order, and notes that the feed was offered. One that comes
    /// back is dropped, and counted. `None` if the stream was dropped before.
    pub fn offer<R: Wait>(mut self, rt: &R, feeds: &OfferedFeeds) -> Option<Offered<K, N>>
        ensures { IfSome result (λ offered. offered.feed.number ≡ self.number) }
    {
        while self.step() {}
        feeds.note(rt, self.number());
        self.end()
    }
}

impl<K, N: RunName<K>> Offered<K, N> {
    /// The result of the feed: it was offered whole.
    pub fn into_result(self) -> FeedResult<K, N>
        ensures same { result ≡ self }
        ensures offered { HasOffered N.run self.feed self.overrun }
    {
        self.result
    }
}
