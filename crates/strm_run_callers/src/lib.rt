//! The crew of a run: callers that play their scripts, and the streams that they share. Feeders offer the
//! feeds at the same time.
//!
//! Each is a plain value, proved without a thread. `strm_run` gives each caller and each feeder a thread, and
//! judges the input of a run before and its results afterwards.
#![tactic(auto)]

mod account;
mod awaits;
mod carrier;
mod dealing;
mod feed_result;
mod feeding;
mod gate;
mod joint;
mod offered_feeds;
mod offering;
mod player;
mod run_name;
mod streams;

pub use account::Account;
pub use dealing::{deal, seated};
pub use feed_result::FeedResult;
pub use feeding::{Feeding, Offered};
pub use gate::Gate;
pub use joint::Joint;
pub use offered_feeds::OfferedFeeds;
pub use player::{Played, Player, Stepped, play_each};
pub use run_name::{Of, RunName};
pub use streams::Streams;
pub use strm_shared_ended::{Receipts, holds_all, log_of};
