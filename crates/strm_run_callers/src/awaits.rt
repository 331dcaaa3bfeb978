//! The feeds that a caller awaits.
use crate::offered_feeds::OfferedFeeds;
use std::sync::Wait;
use strm_run_input::Await;

/// The feeds that a caller awaits before its next calls, in order.
#[derive(Drop)]
pub(crate) struct Awaits {
    /// The feeds of all its calls.
    all: Vec<Await>,
    /// The number of them that it need not await any more.
    passed: usize,
}

impl Awaits {
    /// The feeds of a caller that has made no call.
    pub(crate) fn new(all: Vec<Await>) -> Awaits {
        Awaits { all, passed: 0 }
    }

    /// Whether each feed was offered that is awaited before the call of this number, from 0.
    pub(crate) fn are_over<R: Wait>(&self, rt: &R, feeds: &OfferedFeeds, call: u64) -> bool {
        for at in self.passed..self.all.len() {
            let one = self.all[at];
            if one.call as u64 > call {
                return true;
            }
            if !feeds.has(rt, one.stream) {
                return false;
            }
        }
        true
    }

    /// Waits until each feed was offered that is awaited before the call of this number, from 0.
    #[inline(always)]
    pub(crate) fn wait<R: Wait>(&mut self, rt: &R, feeds: &OfferedFeeds, call: u64) {
        for at in self.passed..self.all.len() {
            let one = self.all[at];
            if one.call as u64 > call {
                return;
            }
            feeds.wait_for(rt, one.stream);
            self.passed = at + 1;
        }
    }
}
