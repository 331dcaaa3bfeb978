//! Steps that may change a stream, which are news to those who wait for it to change.
ghost use Rattle.std.specs.Prelude.{◌≡◌, ◌↔◌, true, Any};
ghost use Rattle.strm_shared.specs.Waiting.{may_change, only_looks, HasNews};

use strm_head_calls::{Answer, Event, Request};
use strm_shared_log::{Entry, Kept};

/// Whether a call only looks at the stream, and leaves it as it is.
fn only_looks<P>(request: &Request<P>) -> bool
    ensures { result ≡ only_looks request.now }
{
    matches!(
        request,
        Request::Nread
            | Request::Peek { .. }
            | Request::GetRead
            | Request::Canput { .. }
            | Request::Ckband { .. }
            | Request::Getband
            | Request::Look
            | Request::List
            | Request::Find { .. }
            | Request::Poll
    )
}

/// Whether a step may have changed the stream: a message that came in, or a call that was not refused and
/// does not only look.
fn may_change<K>(entry: &Entry<K>) -> bool
    ensures { result ≡ may_change entry.now }
{
    if let Answer::Refused(_) = entry.answer() {
        return false;
    }
    match entry.event() {
        Event::Asked(request) => !only_looks(request),
        Event::Arrived(_) => true,
    }
}

/// Whether a step of these may have changed the stream.
fn have_changed<K>(entries: &[Kept<K>]) -> bool
    ensures { result ≡ true ↔ Any (λ e. may_change e ≡ true) entries.now }
{
    entries.iter().any(|kept| may_change(kept.entry()))
}

/// Whether the stream may have changed since its history had this many entries.
pub(crate) fn has_news<K>(history: &[Kept<K>], before: usize) -> bool
    ensures { result ≡ true ↔ HasNews before history.now }
{
    match history.get(before..) {
        Some(since) => have_changed(since),
        None => false,
    }
}
