//! The plans that scripts spell.
use crate::push_decl::PushDecl;
use arrayvec::ArrayVec;
use indexmap::IndexMap;
use strm_head_calls::Setup;
use strm_link::Rule;
use strm_run_input::{Await, Feed, Script};

/// The longest name of a stream, a process or a link, in bytes.
pub const LONGEST: usize = 16;

/// The name of a stream, a process or a link: 1 to 16 letters, digits and `_`.
pub type Name = ArrayVec<u8, LONGEST>;

/// The replies that a script expects of a call: any of some choices.
#[derive(Drop)]
pub struct Expected {
    /// The number of the call among those of its process, from 0.
    pub call: usize,
    /// The number of its line, from 1.
    pub line: u64,
    /// The choices, as a transcript has a reply behind its `:`, with a blank in front of each field.
    pub choices: Vec<Vec<u8>>,
}

/// A process: a caller with the calls that it makes, one after another.
#[derive(Drop)]
pub struct ProcessDecl<P = PushDecl> {
    /// Its name, which no other process has.
    pub name: Name,
    /// Its calls, in order, each with the number of its stream in the order of the plan. A push carries `P`.
    pub calls: Script<P>,
    /// The replies that are expected of some of its calls, in order.
    pub expected: Vec<Expected>,
    /// The feeds that it awaits before some of its calls, in order.
    pub awaits: Vec<Await>,
}

/// A link: what its carrier takes from one wire goes over it, and what it passes on arrives at another wire.
#[derive(Drop)]
pub struct LinkDecl {
    /// Its name, which no other link has.
    pub name: Name,
    /// The number of the wire that is taken from, in the order of the plan.
    pub from: u32,
    /// The number of the wire at which it arrives. It may be the same.
    pub to: u32,
    /// The rule by which it passes messages on.
    pub rule: Rule,
    /// The number of its carrier, the process that carries on it, if one does.
    pub by: Option<u32>,
}

/// A plan that a script spells. Its pushes carry `P`: the declaration of a module, or the module itself, of
/// the built-in kinds or of kinds of a program's own.
#[derive(Drop)]
pub struct Plan<P = PushDecl> {
    /// The setup of each stream, by its name, in order of declaration.
    pub streams: IndexMap<Name, Setup>,
    /// The processes, in order.
    pub processes: Vec<ProcessDecl<P>>,
    /// The feeds, in order, each for another line or wire, with its number in the order of the plan.
    pub feeds: Vec<Feed>,
    /// The links, in order. Those without a carrier pass nothing on.
    pub links: Vec<LinkDecl>,
}

/// The names by which a transcript is printed. They are kept from a plan when a run takes the rest of it.
#[derive(Drop)]
pub struct Names {
    /// The setup of each stream, by its name, in order of declaration.
    pub streams: IndexMap<Name, Setup>,
    /// The names of the processes, in order.
    pub processes: Vec<Name>,
    /// The links, as the plan had them.
    pub links: Vec<LinkDecl>,
}
