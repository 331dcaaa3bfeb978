//! The feeder of a line.
ghost use Rattle.std.specs.Prelude.{◌≡◌, ◌≤◌, ◌<◌, ◌+◌, [], true, Some, IfErr, IfSome, IsOk, OnOk, OnErr};
ghost use Rattle.strm_msg.specs.Kind.{is_from_line};
ghost use Rattle.rtrb.specs.Ring.{sent, all_sent, known_free};
ghost use Rattle.strm_shared_ring.specs.Feed.{new_feeder, with_accepted, with_offer};
ghost use Rattle.strm_shared_ring.specs.Name.{producer_name, finished_name};
ghost use Rattle.strm_shared_ring.specs.StreamRunName.{IsNextOf};

use crate::ring::FromLine;
use crate::stream_run_name::StreamRunName;
use rtrb::{Finished, Producer, PushError};
use std::alloc::Global;
use std::marker::{Model, PhantomData};
use strm_msg::Message;

/// Feeds the line of a shared stream, through a ring: it takes no lock, waits for nobody, and takes no
/// memory. It can be moved to a thread of its own. Dropping it ends the feed, but only the result of `finish`
/// shows that it has ended.
///
/// A contract sees the feed so far, and the number of further messages for which it knows the ring to have
/// room.
#[derive(Drop)]
pub struct Feeder<K, N: StreamRunName<K>> {
    number: u32,
    offers: u64,
    producer: Producer<Message, Global, FromLine>,
    of: PhantomData<(K, N)>,
}

impl<K, N: StreamRunName<K>> Model for Feeder<K, N> {
    ghost use Rattle.std.specs.Prelude.{◌≡◌, Some};
    ghost use Rattle.rtrb.specs.Ring.{sent, known_free};
    ghost use Rattle.strm_shared_ring.specs.Name.{producer_name};
    ghost use Rattle.strm_shared_ring.specs.Feed.{FeederValue};

    ghost Value = { FeederValue };

    ghost view = { λ f. record {
      feed = record { number = f.number; offers = f.offers; accepted = sent f.producer };
      room = known_free f.producer;
    } };

    ghost invariant = { λ f. N.ring f.number ≡ Some (producer_name f.producer) };
}

/// The end of a feed: proof that its feeder has ended, the number of its offers, and the messages that it had
/// accepted.
#[derive(Drop)]
pub struct FeedEnd<K, N: StreamRunName<K>> {
    number: u32,
    offers: u64,
    finished: Finished<Message, Global, FromLine>,
    of: PhantomData<(K, N)>,
}

impl<K, N: StreamRunName<K>> Model for FeedEnd<K, N> {
    ghost use Rattle.std.specs.Prelude.{◌≡◌, Some};
    ghost use Rattle.rtrb.specs.Ring.{all_sent};
    ghost use Rattle.strm_shared_ring.specs.Name.{finished_name};
    ghost use Rattle.strm_shared_ring.specs.Feed.{FeedValue};

    ghost Value = { FeedValue };

    ghost view = { λ f. record { number = f.number; offers = f.offers; accepted = all_sent f.finished } };

    ghost invariant = { λ f. N.ring f.number ≡ Some (finished_name f.finished) };
}

impl<K, N: StreamRunName<K>> Feeder<K, N> {
    /// A feeder that had nothing accepted yet.
    pub(crate) fn new(number: u32, producer: Producer<Message, Global, FromLine>) -> Feeder<K, N>
        requires name { N.ring number ≡ Some (producer_name producer) }
        requires none { sent producer ≡ [] }
        ensures { result ≡ new_feeder number (known_free producer) }
    {
        Feeder {
            number,
            offers: 0,
            producer,
            of: PhantomData,
        }
    }

    /// The number of the stream.
    pub fn number(&self) -> u32
        ensures { result ≡ self.now.feed.number }
    {
        self.number
    }

    /// Offers a message once, and counts that. Where the ring has room it is accepted, and comes in with a
    /// later call on the stream. Where the ring is full the same message comes back.
    ///
    /// To be called with a message of a kind that comes from a line (`Message::from_line`), the one that the
    /// run's feed has next, if it has a feed for this line.
    pub fn arrive(&mut self, m: Message) -> Result<(), Message>
        requires line { is_from_line m.kind ≡ true }
        requires next { IsNextOf (N.feed self.old.feed.number) self.old.feed.offers m }
        ensures accepted { OnOk result (self.new.feed ≡ with_accepted self.old.feed m) }
        ensures back { IfErr result (λ same. same ≡ m) }
        ensures none { OnErr result (self.new.feed ≡ with_offer self.old.feed) }
        ensures room { 0 < self.old.room → IsOk result }
        ensures spent { OnOk result (self.old.room ≤ self.new.room + 1) }
        ensures full { OnErr result (self.new.room ≡ 0) }
    {
        self.offers = self.offers.saturating_add(1);
        match self.producer.push(m) {
            Ok(()) => Ok(()),
            Err(PushError::Full(m)) => Err(m),
        }
    }

    /// Ends the feed. `None` if the stream was dropped before.
    pub fn finish(self) -> Option<FeedEnd<K, N>>
        ensures { IfSome result (λ end. end ≡ self.feed) }
    {
        let Feeder {
            number,
            offers,
            producer,
            of: _,
        } = self;
        let finished = producer.finish()?;
        Some(FeedEnd {
            number,
            offers,
            finished,
            of: PhantomData,
        })
    }
}

impl<K, N: StreamRunName<K>> FeedEnd<K, N> {
    /// The number of the stream.
    pub fn number(&self) -> u32
        ensures { result ≡ self.now.number }
    {
        self.number
    }

    /// The number of offers of messages, up to 2^64 - 1.
    pub fn offers(&self) -> u64
        ensures { result ≡ self.now.offers }
    {
        self.offers
    }

    /// The ring's account of all that went into it.
    pub(crate) fn into_finished(self) -> Finished<Message, Global, FromLine>
        ensures name { N.ring self.number ≡ Some (finished_name result) }
        ensures accepted { all_sent result ≡ self.accepted }
    {
        let FeedEnd {
            number: _,
            offers: _,
            finished,
            of: _,
        } = self;
        finished
    }
}
