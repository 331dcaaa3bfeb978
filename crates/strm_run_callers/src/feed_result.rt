//! The result of a feed.
ghost use Rattle.std.specs.Prelude.{◌≡◌};

use crate::run_name::{Of, RunName};
use std::marker::Model;
use strm_shared_ring::FeedEnd;

/// The end of a feed, and the number of its messages that came back. A contract sees both.
#[derive(Drop)]
pub struct FeedResult<K, N: RunName<K>> {
    end: FeedEnd<K, Of<N>>,
    overrun: u64,
}

impl<K, N: RunName<K>> Model for FeedResult<K, N> {
    ghost use Rattle.strm_run_callers.specs.Feeding.{FeedResultValue};

    ghost Value = { FeedResultValue };

    ghost view = { λ r. record { feed = r.end; overrun = r.overrun } };
}

impl<K, N: RunName<K>> FeedResult<K, N> {
    /// The end of a feed, of which so many messages came back.
    pub(crate) fn new(end: FeedEnd<K, Of<N>>, overrun: u64) -> FeedResult<K, N>
        ensures { result ≡ record { feed = end; overrun = overrun } }
    {
        FeedResult { end, overrun }
    }

    /// The number of the stream.
    pub fn number(&self) -> u32
        ensures { result ≡ self.now.feed.number }
    {
        self.end.number()
    }

    /// The end of the feed, and the number of messages that came back.
    pub fn into_parts(self) -> (FeedEnd<K, Of<N>>, u64)
        ensures feed { result.0 ≡ self.feed }
        ensures overrun { result.1 ≡ self.overrun }
    {
        let FeedResult { end, overrun } = self;
        (end, overrun)
    }
}
