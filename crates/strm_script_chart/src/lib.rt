//! Charts: the log that a run has of each stream, as a sequence chart in text, with one column for each
//! process and one for the stream.
#![tactic(auto)]

mod charting;
mod columns;
mod entry;
mod moved;
mod stream;

pub use charting::chart;
