//! The transcript of a run.
use crate::kept::Kept;
use arrayvec::ArrayVec;
use strm_head_calls::Name;
use strm_module::MOST_MODULES;

/// The log that a run leaves of a stream.
#[derive(Drop)]
pub struct StreamLog<K> {
    /// Every step, in order.
    pub history: Vec<Kept<K>>,
    /// The names of the modules on end A, topmost first; `None` where it is closed.
    pub a: Option<ArrayVec<Name, MOST_MODULES>>,
    /// The names of the modules on end B, topmost first; `None` where it is closed or not there.
    pub b: Option<ArrayVec<Name, MOST_MODULES>>,
    /// The number of messages of its feed that were accepted.
    pub accepted: u64,
    /// The number of messages that came in, as the history has them.
    pub arrived: u64,
    /// The number of messages of its feed that were handed back.
    pub overrun: u64,
}

/// The transcript of a run: the log of each stream, in order of their numbers.
#[derive(Drop)]
pub struct Transcript<K> {
    /// The streams.
    pub streams: Vec<StreamLog<K>>,
}
