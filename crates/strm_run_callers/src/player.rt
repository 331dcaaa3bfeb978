//! A caller that plays its script.
ghost use Rattle.std.specs.Prelude.{◌≡◌, ◌∷◌, [], IfOk, OnOk};
ghost use Rattle.strm_run_callers.specs.Play.{ArePlayed, CallsDoFit, HasPrefixCalls, IsPlayer};
ghost use Rattle.strm_run_callers.specs.Play.{KeepsLaterCalls};
ghost use Rattle.strm_run_callers.specs.Steps.{caller_of};

use crate::account::{Account, call_on};
use crate::awaits::Awaits;
use crate::gate::Gate;
use crate::offered_feeds::OfferedFeeds;
use crate::run_name::RunName;
use crate::streams::Streams;
use std::alloc::Global;
use std::marker::Model;
use std::sync::Wait;
use strm_module::{BoxedModule, ModuleOf};
use strm_msg::NoMem;
use strm_run_input::{Script, ScriptCall};

/// A caller: its number, the calls that it has made, the feeds that it awaits, and a seat on each stream with
/// the receipts so far.
#[derive(Drop)]
struct Caller<K, N: RunName<K>> {
    number: u32,
    made: u64,
    awaits: Awaits,
    accounts: Vec<Account<K, N>>,
}

/// A caller with the rest of its script.
#[derive(Drop)]
pub struct Player<M: ModuleOf, N: RunName<M::Kind>> {
    caller: Caller<M::Kind, N>,
    script: Script<BoxedModule<M>>,
}

impl<M: ModuleOf, N: RunName<M::Kind>> Model for Player<M, N> {
    ghost use Rattle.std.specs.Prelude.{ℕ};
    ghost use Rattle.strm_run_callers.specs.Play.{IsPlayer};

    ghost Value = { ℕ };

    ghost view = { λ p. p.caller.number };

    ghost invariant = { λ p. IsPlayer N.run p.caller.number p.script p.caller.accounts.items };
}

/// A caller after a step.
#[derive(Drop)]
pub enum Stepped<M: ModuleOf, N: RunName<M::Kind>> {
    /// It goes on.
    Goes(Player<M, N>),
    /// It has played its script.
    Ended(Played<M::Kind, N>),
}

/// The result of a caller that has played its script: a seat on each stream, with its receipts.
#[derive(Drop)]
pub struct Played<K, N: RunName<K>> {
    caller: u32,
    accounts: Vec<Account<K, N>>,
}

impl<K, N: RunName<K>> Model for Played<K, N> {
    ghost use Rattle.std.specs.Prelude.{ℕ};
    ghost use Rattle.strm_run_callers.specs.Play.{ArePlayed};

    ghost Value = { ℕ };

    ghost view = { λ p. p.caller };

    ghost invariant = { λ p. ArePlayed N.run p.accounts.items };
}

/// Makes the next call of a caller, once the feeds were offered that it awaits before. Fails only when memory
/// runs out.
fn make_call<M: ModuleOf, N: RunName<M::Kind>, R: Wait, G: Gate>(
    rt: &R,
    streams: &Streams<M, N>,
    gate: &G,
    caller: &mut Caller<M::Kind, N>,
    one: ScriptCall<BoxedModule<M>>,
) -> Result<(), NoMem>
    requires fits { CallsDoFit M.row M.Kind.row M.Kind.Kinds }
    requires next { HasPrefixCalls N.run caller.old.number (one ∷ []) caller.old.accounts.items }
    ensures number { caller.new.number ≡ caller.old.number }
    ensures made { OnOk result (KeepsLaterCalls N.run caller.old.number (one ∷ []) caller.old.accounts.items [] caller.new.accounts.items) }
{
    let ScriptCall { stream, call } = one;
    caller.awaits.wait(rt, streams.offered(), caller.made);
    caller.made = caller.made.saturating_add(1);
    gate.before(caller.number, caller.made);
    let account = &mut caller.accounts[stream as usize];
    let made = call_on(rt, streams.at(stream), account, call);
    gate.after(caller.number, caller.made);
    made
}

/// Makes the next calls of a caller, in order. Fails only when memory runs out.
fn play_block<M: ModuleOf, N: RunName<M::Kind>, R: Wait, G: Gate>(
    rt: &R,
    streams: &Streams<M, N>,
    gate: &G,
    caller: &mut Caller<M::Kind, N>,
    block: Vec<ScriptCall<BoxedModule<M>>>,
) -> Result<(), NoMem>
    requires fits { CallsDoFit M.row M.Kind.row M.Kind.Kinds }
    requires next { HasPrefixCalls N.run caller.old.number block.items caller.old.accounts.items }
    ensures number { caller.new.number ≡ caller.old.number }
    ensures made { OnOk result (KeepsLaterCalls N.run caller.old.number block.items caller.old.accounts.items [] caller.new.accounts.items) }
{
    for one in block {
        make_call(rt, streams, gate, caller, one)?;
    }
    Ok(())
}

/// The result of a caller that has no call left.
fn finished<K, N: RunName<K>>(caller: Caller<K, N>) -> Played<K, N>
    requires { ArePlayed N.run caller.accounts.items }
    ensures { result ≡ caller.number }
{
    let Caller {
        number,
        made: _,
        awaits,
        accounts,
    } = caller;
    drop(awaits);
    Played {
        caller: number,
        accounts,
    }
}

/// A caller with this script left.
fn after_step<M: ModuleOf, N: RunName<M::Kind>>(
    caller: Caller<M::Kind, N>,
    script: Script<BoxedModule<M>>,
) -> Stepped<M, N>
    requires { IsPlayer N.run caller.number script caller.accounts.items }
    ensures { caller_of result ≡ caller.number }
{
    if script.is_empty() {
        drop(script);
        Stepped::Ended(finished(caller))
    } else {
        Stepped::Goes(Player { caller, script })
    }
}

impl<M: ModuleOf, N: RunName<M::Kind>> Player<M, N> {
    /// A caller that has its whole script left.
    pub fn new(
        alloc: Global,
        number: u32,
        mut script: Script<BoxedModule<M>>,
        accounts: Vec<Account<M::Kind, N>>,
    ) -> Player<M, N>
        requires { IsPlayer N.run number script accounts.items }
        ensures { result ≡ number }
    {
        let awaits = Awaits::new(script.take_awaits(alloc));
        Player {
            caller: Caller {
                number,
                made: 0,
                awaits,
                accounts,
            },
            script,
        }
    }

    /// The number of the caller.
    pub fn caller(&self) -> u32
        ensures { result ≡ self.now }
    {
        self.caller.number
    }

    /// The caller before its first step.
    pub fn begin(self) -> Stepped<M, N>
        ensures { caller_of result ≡ self }
    {
        let Player { caller, script } = self;
        after_step(caller, script)
    }

    /// Makes the next call, if one is left, once the feeds were offered that it awaits before it. Fails only
    /// when memory runs out.
    pub fn step<R: Wait, G: Gate>(
        self,
        rt: &R,
        streams: &Streams<M, N>,
        gate: &G,
    ) -> Result<Stepped<M, N>, NoMem>
        requires { CallsDoFit M.row M.Kind.row M.Kind.Kinds }
        ensures { IfOk result (λ after. caller_of after ≡ self) }
    {
        let Player {
            mut caller,
            mut script,
        } = self;
        let Some(one) = script.pop_front() else {
            return Ok(after_step(caller, script));
        };
        make_call(rt, streams, gate, &mut caller, one)?;
        Ok(after_step(caller, script))
    }

    /// Plays the script to its end, or until memory runs out: each call once, in order, by the type of the
    /// rest of the script.
    pub fn play<R: Wait, G: Gate>(
        self,
        rt: &R,
        streams: &Streams<M, N>,
        gate: &G,
    ) -> Result<Played<M::Kind, N>, NoMem>
        requires { CallsDoFit M.row M.Kind.row M.Kind.Kinds }
        ensures { IfOk result (λ played. played ≡ self) }
    {
        let Player { mut caller, script } = self;
        let (blocks, last) = script.into_blocks();
        for block in blocks {
            play_block(rt, streams, gate, &mut caller, block)?;
        }
        play_block(rt, streams, gate, &mut caller, last)?;
        Ok(finished(caller))
    }
}

impl<M: ModuleOf, N: RunName<M::Kind>> Stepped<M, N> {
    /// The number of calls that are left.
    pub fn calls_left(&self) -> usize {
        match self {
            Stepped::Goes(player) => player.script.len(),
            Stepped::Ended(_) => 0,
        }
    }

    /// Whether it goes on, and its next call awaits no feed that is still to be offered.
    pub fn may_go<R: Wait>(&self, rt: &R, feeds: &OfferedFeeds) -> bool {
        match self {
            Stepped::Goes(player) => player.caller.awaits.are_over(rt, feeds, player.caller.made),
            Stepped::Ended(_) => false,
        }
    }

    /// Makes a step more, if it goes on (`Player::step`).
    pub fn step<R: Wait, G: Gate>(
        self,
        rt: &R,
        streams: &Streams<M, N>,
        gate: &G,
    ) -> Result<Stepped<M, N>, NoMem>
        requires { CallsDoFit M.row M.Kind.row M.Kind.Kinds }
        ensures { IfOk result (λ after. caller_of after ≡ caller_of self) }
    {
        match self {
            Stepped::Goes(player) => player.step(rt, streams, gate),
            Stepped::Ended(played) => Ok(Stepped::Ended(played)),
        }
    }

    /// Plays what is left of the script (`Player::play`).
    pub fn play<R: Wait, G: Gate>(
        self,
        rt: &R,
        streams: &Streams<M, N>,
        gate: &G,
    ) -> Result<Played<M::Kind, N>, NoMem>
        requires { CallsDoFit M.row M.Kind.row M.Kind.Kinds }
        ensures { IfOk result (λ played. played ≡ caller_of self) }
    {
        match self {
            Stepped::Goes(player) => player.play(rt, streams, gate),
            Stepped::Ended(played) => Ok(played),
        }
    }
}

impl<K, N: RunName<K>> Played<K, N> {
    /// The number of the caller.
    pub fn caller(&self) -> u32
        ensures { result ≡ self.now }
    {
        self.caller
    }

    /// A seat on each stream, with its receipts.
    pub fn into_accounts(self) -> Vec<Account<K, N>>
        ensures { ArePlayed N.run result.items }
    {
        self.accounts
    }
}

/// Plays the scripts of callers to their ends, one after another, or until memory runs out.
pub fn play_each<M: ModuleOf, N: RunName<M::Kind>, R: Wait, G: Gate>(
    rt: &R,
    alloc: Global,
    streams: &Streams<M, N>,
    players: Vec<Player<M, N>>,
    gate: &G,
) -> Result<Vec<Played<M::Kind, N>>, NoMem>
    requires { CallsDoFit M.row M.Kind.row M.Kind.Kinds }
    ensures { IfOk result (λ all. all.items ≡ players.items) }
{
    let mut all = Vec::new(alloc);
    for player in players {
        all.push(player.play(rt, streams, gate)?)?;
    }
    Ok(all)
}
