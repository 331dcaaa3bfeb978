//! The feeds of a run that have been offered.
use std::sync::{Condvar, Mutex, Wait};

/// The feeds of a run that have been offered: each message of them, once. So a caller can await one.
///
/// A contract says nothing of them, as feeders change them at any time.
#[derive(Drop)]
pub struct OfferedFeeds {
    /// Whether the feed of each stream was offered, by the number of the stream.
    offered: Mutex<Vec<bool>>,
    changed: Condvar,
}

/// Whether the feed of this stream was offered. A stream that is not there has none left to offer.
fn is_offered(offered: &[bool], stream: u32) -> bool {
    offered.get(stream as usize).copied().unwrap_or(true)
}

impl OfferedFeeds {
    /// The feeds by the number of their streams: each was offered, if this says so. A feed without messages
    /// was. Takes no memory.
    pub fn new(offered: Vec<bool>) -> OfferedFeeds {
        OfferedFeeds {
            offered: Mutex::new(offered),
            changed: Condvar::new(),
        }
    }

    /// Notes that the feed of this stream was offered, and wakes all who await it.
    pub fn note<R: Wait>(&self, rt: &R, stream: u32) {
        let mut offered = self.offered.lock(rt);
        if let Some(one) = offered.get_mut(stream as usize) {
            *one = true;
        }
        drop(offered);
        self.changed.notify_all();
    }

    /// Whether the feed of this stream was offered.
    pub fn has<R: Wait>(&self, rt: &R, stream: u32) -> bool {
        is_offered(self.offered.lock(rt).as_slice(), stream)
    }

    /// Waits until the feed of this stream was offered. It ends, since a feeder waits for nobody.
    pub fn wait_for<R: Wait>(&self, rt: &R, stream: u32) {
        let offered = self
            .changed
            .wait_while(rt, self.offered.lock(rt), |offered| {
                !is_offered(offered.as_slice(), stream)
            });
        drop(offered);
    }
}
