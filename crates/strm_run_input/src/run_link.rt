//! The links of a run.
use strm_link::Rule;

/// A link of a run, on which one caller carries messages from a wire to a wire.
///
/// All that the caller takes of the first wire goes over the link, and what the link passes on is offered at
/// the second one.
#[derive(Drop)]
pub struct RunLink {
    /// The number of the caller, from 0.
    pub by: u32,
    /// The number of the wire that is taken from, from 0.
    pub from: u32,
    /// The number of the wire at which it arrives, from 0. It may be the same.
    pub to: u32,
    /// The rule of the link.
    pub rule: Rule,
}
