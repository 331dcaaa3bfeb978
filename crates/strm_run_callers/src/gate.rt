//! The gate, which is called round each call of a run.

/// The gate, which is called round each call of a run, by the thread that makes it, outside of every lock.
pub trait Gate: Sync {
    /// Called when the caller is about to make its call of this number, counted from 1.
    fn before(&self, caller: u32, number: u64);

    /// Called when the caller has its answer, and the modules that came back are dropped.
    fn after(&self, caller: u32, number: u64);
}
