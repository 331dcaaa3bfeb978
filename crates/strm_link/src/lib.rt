//! Links: a line from one wire to another, that may lose, double and delay what it passes on.
//!
//! A program takes a message of the one wire, gives it to a [`Link`], and hands in at the other wire what the
//! link passes on. A [`Rule`] says what is done with each message. It is a pattern of acts, which is used over
//! and over, or odds, by which a seed draws them. Two links make a line with two ways.
#![tactic(auto)]

mod act;
mod fault;
mod laws;
mod link;
mod passage;
mod rule;

pub use act::Act;
pub use fault::RuleFault;
pub use laws::{link_keeps, link_makes_none, link_only_holds, link_only_loses};
pub use link::{Link, MOST_PASSED};
pub use passage::Passage;
pub use rule::{DRAWS, MOST_ACTS, Odds, Rule};
