//! A message that is offered to a stream.
ghost use Rattle.std.specs.Prelude.{◌≡◌, true, false};
ghost use Rattle.strm_msg.specs.Kind.{is_from_line};
ghost use Rattle.strm_shared_ring.specs.Feed.{with_accepted, with_offer};
ghost use Rattle.strm_shared_ring.specs.StreamRunName.{IsNextOf};
ghost use Rattle.strm_run_callers.specs.RunName.{feed_in};

use crate::run_name::{Of, RunName};
use strm_msg::Message;
use strm_shared_ring::Feeder;

/// Offers a message once, and returns whether it was accepted. One that comes back is dropped.
pub(crate) fn accepts<K, N: RunName<K>>(feeder: &mut Feeder<K, Of<N>>, m: Message) -> bool
    requires line { is_from_line m.kind ≡ true }
    requires next { IsNextOf (feed_in N.run feeder.old.feed.number) feeder.old.feed.offers m }
    ensures accepted { result ≡ true → feeder.new.feed ≡ with_accepted feeder.old.feed m }
    ensures none { result ≡ false → feeder.new.feed ≡ with_offer feeder.old.feed }
{
    feeder.arrive(m).is_ok()
}
