//! Poll: the state of an end as poll(2) reports it. It changes nothing and takes no memory.
ghost use Rattle.std.specs.Prelude.{◌≡◌};
ghost use Rattle.strm_chain_end.specs.Canput.{fill_of, below};
ghost use Rattle.strm_chain_ends.specs.Image.{end_of};
ghost use Rattle.strm_head_ioctl.specs.Poll.{nothing, has_open_band, open_in, polled_open, polled, poll_effect};

use strm_chain::Chain;
use strm_head_calls::{Polled, Received, Reply};
use strm_module::ModuleOf;
use strm_msg::End;
use strm_queue::BandQueue;

/// The state of an end of which nothing holds.
fn nothing() -> Polled
    ensures { result ≡ nothing }
{
    Polled {
        first: None,
        out: false,
        wrband: false,
        err: false,
        hup: false,
        nval: false,
    }
}

/// Whether one of the bands above 0, up to this one, has a message and is not full.
#[tactic(auto, unfolding(crate::specs::Poll::has_open_band))]
fn has_open_band(queue: &BandQueue, band: u8) -> bool
    ensures { result ≡ has_open_band (fill_of queue.now) band }
{
    if band == 0 {
        return false;
    }
    (queue.has_band(band) && !queue.full(band)) || has_open_band(queue, band - 1)
}

/// Whether a message could be sent of a band above 0 that has one in the first write queue.
fn is_open_ahead<M: ModuleOf>(chain: &Chain<M>, end: End) -> bool
    ensures { result ≡ open_in (below chain.now.image.driver (end_of chain.now.image end) 0) }
{
    match chain.queue_ahead(end) {
        Some(queue) => has_open_band(queue, u8::MAX),
        None => false,
    }
}

/// The state of an open end of a stream that is not broken.
fn polled_open<M: ModuleOf>(chain: &Chain<M>, end: End) -> Polled
    ensures { result ≡ polled_open chain.now.image end }
{
    let state = chain.state(end);
    let receives = state.rd_errno.is_none();
    let sends = state.wr_errno.is_none() && !state.hung;
    Polled {
        first: if receives {
            chain.head(end).first().map(Received::of)
        } else {
            None
        },
        out: sends && !chain.full_ahead(end, 0),
        wrband: sends && is_open_ahead(chain, end),
        err: state.rd_errno.is_some() || state.wr_errno.is_some(),
        hup: state.hung,
        nval: false,
    }
}

/// The state of an end.
fn polled<M: ModuleOf>(chain: &Chain<M>, end: End) -> Polled
    ensures { result ≡ polled chain.now.image end }
{
    if !chain.is_open(end) {
        return Polled {
            nval: true,
            ..nothing()
        };
    }
    if chain.is_broken() {
        return Polled {
            err: true,
            ..nothing()
        };
    }
    polled_open(chain, end)
}

/// Returns the state of an end, as poll(2) reports it.
pub fn poll<M: ModuleOf>(chain: &Chain<M>, end: End) -> Reply
    ensures { result ≡ (poll_effect chain.now.image end).reply }
{
    Reply::Poll {
        told: polled(chain, end),
    }
}
