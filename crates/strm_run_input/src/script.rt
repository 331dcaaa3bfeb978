//! The scripts that a run plays.
ghost use Rattle.std.specs.Prelude.{◌≡◌, ◌++◌, ◌∷◌, ◌<◌, ◌^◌, ◌↔◌, [], false, IsTrue, MatchOption, OnOk, length};
ghost use Rattle.strm_run_input.specs.Scripts.{in_blocks, starts_empty};

use std::alloc::Global;
use std::marker::Model;
use std::mem;
use strm_head_calls::Call;
use strm_msg::{Message, NoMem};

/// The greatest number of calls of a block that `push` has filled.
const BLOCK: usize = 512;

/// One call of a script. A push carries `P`, the module.
#[derive(Drop)]
pub struct ScriptCall<P> {
    /// The number of the stream, from 0.
    pub stream: u32,
    /// The call.
    pub call: Call<P>,
}

/// A feed that a caller awaits: a call is made when all its messages were offered.
#[derive(Clone, Copy, Debug, PartialEq, Eq, Drop)]
pub struct Await {
    /// The number of the call among those of the caller, from 0.
    pub call: usize,
    /// The number of the stream that has the feed, from 0.
    pub stream: u32,
}

/// The calls of one caller, in order, and the feeds that it awaits before some of them. A contract sees the
/// list of the calls.
///
/// They are in blocks. So a script that grows is not moved, and calls that were played can be given back
/// while the rest is played.
#[derive(Drop)]
pub struct Script<P> {
    full: Vec<Vec<ScriptCall<P>>>,
    last: Vec<ScriptCall<P>>,
    many: usize,
    awaits: Vec<Await>,
}

impl<P> Model for Script<P> {
    ghost use Rattle.std.specs.Prelude.{◌≡◌, List, length};
    ghost use Rattle.strm_run_input.specs.declared.script.ScriptCall.{ScriptCall};
    ghost use Rattle.strm_run_input.specs.Scripts.{in_blocks};

    ghost Value = { List (ScriptCall P) };

    ghost view = { λ s. in_blocks s.full.items s.last.items };

    ghost invariant = { λ s. s.many ≡ length (in_blocks s.full.items s.last.items) };
}

impl<P> Script<P> {
    /// No calls. Takes no memory.
    pub fn new(alloc: Global) -> Script<P>
        ensures { result ≡ [] }
    {
        Script::of(alloc, Vec::new(alloc))
    }

    /// These calls. Takes no memory.
    pub fn of(alloc: Global, calls: Vec<ScriptCall<P>>) -> Script<P>
        ensures { result ≡ calls.items }
    {
        Script {
            full: Vec::new(alloc),
            many: calls.len(),
            last: calls,
            awaits: Vec::new(alloc),
        }
    }

    /// The calls of blocks, one block after another, and then others: `many` in all. Takes no memory.
    pub fn of_blocks(
        alloc: Global,
        full: Vec<Vec<ScriptCall<P>>>,
        last: Vec<ScriptCall<P>>,
        many: usize,
    ) -> Script<P>
        requires { many ≡ length (in_blocks full.items last.items) }
        ensures { result ≡ in_blocks full.items last.items }
    {
        Script {
            full,
            last,
            many,
            awaits: Vec::new(alloc),
        }
    }

    /// Has these feeds awaited, in place of those that were. They are in order of their calls. Takes no memory.
    ///
    /// Nobody waits for a stream that has no feed, or that is not there.
    pub fn set_awaits(&mut self, awaits: Vec<Await>)
        ensures { self.new ≡ self.old }
    {
        self.awaits = awaits;
    }

    /// Gives up the feeds that are awaited, in order of their calls.
    pub fn take_awaits(&mut self, alloc: Global) -> Vec<Await>
        ensures { self.new ≡ self.old }
    {
        mem::replace(&mut self.awaits, Vec::new(alloc))
    }

    /// The number of calls.
    pub fn len(&self) -> usize
        ensures { result ≡ length self.now }
    {
        self.many
    }

    /// Whether there are none.
    pub fn is_empty(&self) -> bool
        ensures { IsTrue result ↔ (self.now ≡ []) }
    {
        self.many == 0
    }

    /// The calls in order: those of blocks, one block after another, and then the others.
    pub fn blocks(&self) -> (&[Vec<ScriptCall<P>>], &[ScriptCall<P>])
        ensures { self.now ≡ in_blocks result.0.now result.1.now }
    {
        (self.full.as_slice(), self.last.as_slice())
    }

    /// The calls in order: those of blocks, one block after another, and then the others. Takes no memory.
    pub fn into_blocks(self) -> (Vec<Vec<ScriptCall<P>>>, Vec<ScriptCall<P>>)
        ensures { self ≡ in_blocks result.0.items result.1.items }
    {
        let Script {
            full,
            last,
            many: _,
            awaits: _,
        } = self;
        (full, last)
    }
}

/// Whether there is a first block, and it has no call.
fn starts_empty<P>(blocks: &[Vec<ScriptCall<P>>]) -> bool
    ensures { result ≡ starts_empty blocks.now }
{
    match blocks {
        [first, ..] => first.is_empty(),
        [] => false,
    }
}

/// Gives up the blocks in front that have no call.
fn skip_empty<P: Drop>(blocks: &mut Vec<Vec<ScriptCall<P>>>)
    ensures same { in_blocks blocks.new.items [] ≡ in_blocks blocks.old.items [] }
    ensures first { starts_empty blocks.new.items ≡ false }
{
    while starts_empty(blocks.as_slice()) {
        blocks.remove(0);
    }
}

/// Gives up the first of these calls, and returns it; `None` if there is none.
fn pop<P>(calls: &mut Vec<ScriptCall<P>>) -> Option<ScriptCall<P>>
    ensures { MatchOption result ((calls.old.items ≡ []) × (calls.new.items ≡ [])) (λ first. calls.old.items ≡ first ∷ calls.new.items) }
{
    if calls.is_empty() {
        return None;
    }
    Some(calls.remove(0))
}

impl<P: Drop> Script<P> {
    /// Makes room for one call more. Fails only when memory runs out.
    fn make_room(&mut self, alloc: Global) -> Result<(), NoMem>
        ensures { self.new ≡ self.old }
    {
        if self.last.len() < BLOCK {
            return Ok(());
        }
        self.full.reserve(1)?;
        let block = Vec::with_capacity(alloc, BLOCK)?;
        self.full.push_reserved(mem::replace(&mut self.last, block));
        Ok(())
    }

    /// Puts a call behind the others, of which there are fewer than 2^63. Fails only when memory runs out.
    #[inline(always)]
    pub fn push(&mut self, alloc: Global, call: ScriptCall<P>) -> Result<(), NoMem>
        requires { length self.old < 2 ^ 63 }
        ensures { OnOk result (self.new ≡ self.old ++ call ∷ []) }
    {
        self.make_room(alloc)?;
        self.last.push(call)?;
        self.many += 1;
        Ok(())
    }

    /// Gives up the first call, and returns it; `None` if there is none. Takes no memory.
    pub fn pop_front(&mut self) -> Option<ScriptCall<P>>
        ensures { MatchOption result ((self.old ≡ []) × (self.new ≡ [])) (λ first. self.old ≡ first ∷ self.new) }
    {
        skip_empty(&mut self.full);
        let first = if self.full.is_empty() {
            pop(&mut self.last)?
        } else {
            pop(&mut self.full[0])?
        };
        self.many -= 1;
        Some(first)
    }
}

/// The messages that a line is offered, in order.
#[derive(Drop)]
pub struct Feed {
    /// The number of the stream, from 0.
    pub stream: u32,
    /// The messages, each of a kind that comes from a line (`Message::from_line`).
    pub messages: Vec<Message>,
}
