//! A bell for several streams.
use std::sync::{Condvar, Mutex, Wait};

/// Counts the changes of the streams that ring it (`Shared::with_bell`). So a caller can wait until one of
/// several streams is ready, as in poll(2) without a timeout.
///
/// Such a caller reads the count, and then tries or polls each of its streams. Where none is ready, it sleeps
/// until the count is another. A change between the look and the sleep is not lost, since the stream rings
/// after it. One bell serves any number of streams and callers.
///
/// The count begins at 0, and wraps to 0 behind 2^64 - 1. A contract says nothing of it, as other threads
/// change it at any time.
#[derive(Drop)]
pub struct Bell {
    rung: Mutex<u64>,
    heard: Condvar,
}

impl Bell {
    /// A bell that was not rung. Takes no memory.
    pub fn new() -> Bell {
        Bell {
            rung: Mutex::new(0),
            heard: Condvar::new(),
        }
    }

    /// The number of times that the bell was rung.
    pub fn count<R: Wait>(&self, rt: &R) -> u64 {
        *self.rung.lock(rt)
    }

    /// Rings the bell: it counts one more, and all who sleep on it wake. A stream with this bell rings it. A
    /// program rings it for what happens elsewhere, as for a caller that is to stop.
    pub fn ring<R: Wait>(&self, rt: &R) {
        let mut rung = self.rung.lock(rt);
        *rung = rung.wrapping_add(1);
        drop(rung);
        self.heard.notify_all();
    }

    /// Sleeps until the count is another than the one that was seen. Comes back at once where it is already.
    /// It may sleep for ever, if nobody rings.
    pub fn wait_past<R: Wait>(&self, rt: &R, seen: u64) {
        let rung = self
            .heard
            .wait_while(rt, self.rung.lock(rt), |rung| *rung == seen);
        drop(rung);
    }
}
