//! The messages of one rank.
ghost use Rattle.std.specs.Prelude.{◌≡◌, ◌==◌, ◌+◌, ◌*◌, ◌^◌, ◌<◌, ◌≤◌, ◌∷◌, ◌++◌, [], not, true, length, sum_by, IsOk, OnOk, OnErr, IfErr, option_copied, slice_get};
ghost use Rattle.std.specs.List.{list_all};
ghost use Rattle.strm_msg.specs.Message.{weight_of};
ghost use Rattle.strm_queue.specs.Queue.{flush_of, is_flushed, has_pcproto, TakesFirst};
ghost use Rattle.strm_queue.specs.Lanes.{is_light};

use std::alloc::Global;
use std::collections::VecDeque;
use std::marker::Model;
use strm_msg::{BoxedMessage, Message, MsgKind, NoMem};

/// A lane: the messages of one rank in order, and the sum of their weights.
///
/// A lane that has run empty keeps its place and its list's memory for the messages to come.
#[derive(Debug, Drop)]
pub(crate) struct Lane {
    rank: u16,
    messages: VecDeque<BoxedMessage>,
    weight: u128,
}

impl Model for Lane {
    ghost use Rattle.std.specs.Prelude.{◌-◌};
    ghost use Rattle.std.specs.VecDeque.{deque_len, deque_capacity};
    ghost use Rattle.strm_queue.specs.Lanes.{Ranked, AreWeighed};

    ghost Value = { Ranked };

    ghost view = { λ l. record {
      rank = l.rank;
      messages = l.messages.items;
      spare = deque_capacity l.messages - deque_len l.messages;
    } };

    ghost invariant = { λ l. AreWeighed l.messages.items l.weight };
}

/// Whether a flush removes messages of the kind.
fn is_flushed(kind: MsgKind) -> bool
    ensures { result ≡ is_flushed kind }
{
    matches!(kind, MsgKind::MData | MsgKind::MProto | MsgKind::MPcproto)
}

/// Whether a flush leaves the message.
fn stays(m: &BoxedMessage) -> bool
    ensures { result ≡ not (is_flushed m.now.kind) }
{
    !is_flushed(m.kind)
}

/// The sum of the weights of messages.
fn weigh(messages: &VecDeque<BoxedMessage>) -> u128
    requires { list_all is_light messages.now.items ≡ true }
    ensures { result ≡ sum_by weight_of messages.now.items }
{
    let mut sum: u128 = 0;
    for m in messages {
        sum += m.weight();
    }
    sum
}

impl Lane {
    /// A lane without messages. Takes no memory.
    pub(crate) fn new(alloc: Global, rank: u16) -> Self
        ensures rank { result.rank ≡ rank }
        ensures messages { result.messages ≡ [] }
    {
        Lane {
            rank,
            messages: VecDeque::new(alloc),
            weight: 0,
        }
    }

    pub(crate) fn rank(&self) -> u16
        ensures { result ≡ self.now.rank }
    {
        self.rank
    }

    pub(crate) fn is_empty(&self) -> bool
        ensures { result ≡ (length self.now.messages == 0) }
    {
        self.messages.is_empty()
    }

    /// The number of messages.
    pub(crate) fn len(&self) -> usize
        ensures { result ≡ length self.now.messages }
    {
        self.messages.len()
    }

    /// The sum of the weights of the lane's messages.
    pub(crate) fn weight(&self) -> u128
        ensures value { result ≡ sum_by weight_of self.now.messages }
        ensures most { result ≤ length self.now.messages * 2 ^ 65 }
    {
        self.weight
    }

    /// The message at a place, counted from 0 for the first.
    pub(crate) fn at(&self, i: usize) -> Option<&Message>
        ensures { option_copied result ≡ slice_get self.now.messages i }
    {
        match self.messages.get(i) {
            Some(m) => Some(m),
            None => None,
        }
    }

    /// Makes room for one more message. Fails only when memory runs out.
    pub(crate) fn reserve(&mut self) -> Result<(), NoMem>
        ensures rank { self.new.rank ≡ self.old.rank }
        ensures messages { self.new.messages ≡ self.old.messages }
        ensures kept { self.old.spare ≤ self.new.spare }
        ensures room { OnOk result (0 < self.new.spare) }
        ensures enough { 0 < self.old.spare → IsOk result }
    {
        self.messages.reserve(1)?;
        Ok(())
    }

    /// Puts a message behind the others. It comes back only when memory runs out.
    pub(crate) fn push_back(&mut self, m: BoxedMessage) -> Result<(), BoxedMessage>
        ensures rank { self.new.rank ≡ self.old.rank }
        ensures ok { OnOk result (self.new.messages ≡ self.old.messages ++ m ∷ []) }
        ensures err { OnErr result (self.new.messages ≡ self.old.messages) }
        ensures back { IfErr result (λ same. same ≡ m) }
        ensures room { 0 < self.old.spare → IsOk result }
        ensures spent { OnOk result (self.old.spare ≤ self.new.spare + 1) }
        ensures unspent { OnErr result (self.old.spare ≤ self.new.spare) }
    {
        let weight = self.weight + m.weight();
        match self.messages.push_back(m) {
            Ok(()) => {
                self.weight = weight;
                Ok(())
            }
            Err(refused) => Err(refused.value),
        }
    }

    /// Puts a message before the others. It comes back only when memory runs out.
    pub(crate) fn push_front(&mut self, m: BoxedMessage) -> Result<(), BoxedMessage>
        ensures rank { self.new.rank ≡ self.old.rank }
        ensures ok { OnOk result (self.new.messages ≡ m ∷ self.old.messages) }
        ensures err { OnErr result (self.new.messages ≡ self.old.messages) }
        ensures back { IfErr result (λ same. same ≡ m) }
        ensures room { 0 < self.old.spare → IsOk result }
        ensures spent { OnOk result (self.old.spare ≤ self.new.spare + 1) }
        ensures unspent { OnErr result (self.old.spare ≤ self.new.spare) }
    {
        let weight = self.weight + m.weight();
        match self.messages.push_front(m) {
            Ok(()) => {
                self.weight = weight;
                Ok(())
            }
            Err(refused) => Err(refused.value),
        }
    }

    /// Takes the first message. Its place stays with the lane.
    pub(crate) fn pop(&mut self) -> Option<BoxedMessage>
        ensures rank { self.new.rank ≡ self.old.rank }
        ensures first { TakesFirst result self.old.messages self.new.messages }
        ensures room { self.old.spare ≤ self.new.spare }
    {
        let m = self.messages.pop_front()?;
        self.weight -= m.weight();
        Some(m)
    }

    /// Removes data and protocol messages, and returns their number. Their places stay with the lane.
    pub(crate) fn flush(&mut self) -> usize
        ensures rank { self.new.rank ≡ self.old.rank }
        ensures messages { self.new.messages ≡ flush_of self.old.messages }
        ensures count { result + length self.new.messages ≡ length self.old.messages }
        ensures room { self.old.spare ≤ self.new.spare }
    {
        let len = self.messages.len();
        self.messages.retain(|m| stays(m));
        self.weight = weigh(&self.messages);
        len - self.messages.len()
    }

    /// Whether an `MPcproto` is there.
    pub(crate) fn has_pcproto(&self) -> bool
        ensures { result ≡ has_pcproto self.now.messages }
    {
        self.messages
            .iter()
            .any(|m| matches!(m.kind, MsgKind::MPcproto))
    }
}
