//! Who may go next in a script: its processes, call by call, and its feeds, message by message.
ghost use Rattle.std.specs.Prelude.{◌≡◌, ◌++◌, ◌+◌, ◌-◌, ◌<◌, ◌&&◌, ◌^◌, [], None, OnOk, OnSome, Some};
ghost use Rattle.std.specs.Prelude.{IfOk, IfSome, IsSome, length, map, min, nat_eq, slice_get, true};
ghost use Rattle.std.specs.Str.{bytes_eq};
ghost use Rattle.strm_script_orders.specs.Counting.{orders_of};
ghost use Rattle.strm_script_orders.specs.Free.{is_free};
ghost use Rattle.strm_script_orders.specs.Lanes as says;
ghost use Rattle.strm_script_orders.specs.Lanes.{as_before, at_start, goers, order_text, steps_left};
ghost use Rattle.strm_script_orders.specs.Lanes.{stepped, stepped_by, with_step, word_of};
ghost use Rattle.strm_script_orders.specs.Spelt.{choice_by, named, rank_of, stuck_cause};

use crate::fault::OrderCause;
use crate::free::{are_free, free_orders};
use crate::listed::Choice;
use std::alloc::Global;
use std::marker::Model;
use strm_msg::NoMem;
use strm_run_input::Await;

/// The word before the name of a stream, where a message of its feed is spelt.
const FEED: &[u8] = b"feed:";

/// A process, which takes a step with each call, or a feed, which takes one with each message.
#[derive(Drop)]
pub struct Lane {
    name: Vec<u8>,
    feeds: Option<u32>,
    steps: usize,
    taken: usize,
    awaits: Vec<Await>,
}

impl Model for Lane {
    ghost use Rattle.strm_script_orders.specs.Lanes.{LaneValue};

    ghost Value = { LaneValue };

    ghost view = { λ l. record {
      name = l.name.items;
      feeds = l.feeds;
      steps = l.steps;
      taken = l.taken;
      awaits = l.awaits.items;
    } };
}

impl Lane {
    /// A process that has taken no step: its name, the number of its calls, and the feeds that it awaits
    /// before some of them. Takes no memory.
    pub fn of_process(name: Vec<u8>, calls: usize, awaits: Vec<Await>) -> Lane
        ensures { result ≡ record {
          name = name.items;
          feeds = None;
          steps = calls;
          taken = 0;
          awaits = awaits.items;
        } }
    {
        Lane {
            name,
            feeds: None,
            steps: calls,
            taken: 0,
            awaits,
        }
    }

    /// A feed that has taken no step: the name and the number of its stream, and the number of its messages.
    /// Takes no memory.
    pub fn of_feed(alloc: Global, name: Vec<u8>, stream: u32, messages: usize) -> Lane
        ensures { result ≡ record {
          name = name.items;
          feeds = Some stream;
          steps = messages;
          taken = 0;
          awaits = [];
        } }
    {
        Lane {
            name,
            feeds: Some(stream),
            steps: messages,
            taken: 0,
            awaits: Vec::new(alloc),
        }
    }

    /// The number of steps that it has left.
    pub(crate) fn left(&self) -> usize
        ensures { result ≡ says.left_of self.now }
    {
        self.steps.saturating_sub(self.taken)
    }

    /// Whether it awaits no feed.
    pub(crate) fn awaits_nobody(&self) -> bool
        ensures { result ≡ nat_eq (length self.now.awaits) 0 }
    {
        self.awaits.is_empty()
    }

    /// Whether it is a feed of this stream that has a message left.
    fn is_feeding(&self, stream: u32) -> bool
        ensures { result ≡ (says.is_stream stream self.now.feeds && says.has_left self.now) }
    {
        match self.feeds {
            Some(own) => own == stream && self.taken < self.steps,
            None => false,
        }
    }

    /// Whether its next call awaits a feed that has a message left.
    fn waits(&self, lanes: &[Lane]) -> bool
        ensures { result ≡ says.waits lanes.now self.now }
    {
        for one in &self.awaits {
            if one.call == self.taken && is_fed(lanes, one.stream) {
                return true;
            }
        }
        false
    }

    /// Whether it may go next.
    fn may_go(&self, lanes: &[Lane]) -> bool
        ensures { result ≡ says.may_go lanes.now self.now }
    {
        self.taken < self.steps && !self.waits(lanes)
    }

    /// Whether this word spells a step of it.
    fn is_spelt(&self, word: &[u8]) -> bool
        ensures { result ≡ bytes_eq (word_of self.now) word.now }
    {
        if self.feeds.is_none() {
            return self.name.as_slice() == word;
        }
        match word.strip_prefix(FEED) {
            Some(name) => self.name.as_slice() == name,
            None => false,
        }
    }

    /// Takes a step.
    fn step(&mut self)
        requires { self.old.taken < self.old.steps }
        ensures { self.new ≡ with_step self.old }
    {
        prove!(self.taken < self.steps);
        self.taken += 1;
    }

    /// Has taken no step from then on.
    fn start_again(&mut self)
        ensures { self.new ≡ as_before self.old }
    {
        self.taken = 0;
    }

    /// Appends the word that spells a step of it. Fails only when memory runs out.
    fn add_word(&self, text: &mut Vec<u8>) -> Result<(), NoMem>
        ensures { OnOk result (text.new.items ≡ text.old.items ++ word_of self.now) }
    {
        if self.feeds.is_some() {
            text.extend_from_slice(FEED)?;
        }
        text.extend_from_slice(self.name.as_slice())?;
        Ok(())
    }
}

/// Whether a feed of this stream has a message left.
fn is_fed(lanes: &[Lane], stream: u32) -> bool
    ensures { result ≡ says.is_fed lanes.now stream }
{
    for lane in lanes {
        if lane.is_feeding(stream) {
            return true;
        }
    }
    false
}

/// The number of those that may go next.
#[tactic(auto, unfolding(crate::specs::Lanes::goers))]
fn many(lanes: &[Lane]) -> usize
    ensures { result ≡ length (goers lanes.now) }
{
    let mut many = 0;
    for lane in lanes {
        many += usize::from(lane.may_go(lanes));
    }
    many
}

/// The number of the one that goes by a choice of those that may; nothing if there are not so many.
#[tactic(auto, unfolding(crate::specs::Lanes::goers))]
fn goer(lanes: &[Lane], choice: usize) -> Option<usize>
    ensures number { result ≡ slice_get (goers lanes.now) choice }
    ensures left { IfSome result (λ number. says.HasLeft lanes.now number) }
{
    let mut left = choice;
    for (number, lane) in lanes.iter().enumerate() {
        if lane.may_go(lanes) {
            if left == 0 {
                return Some(number);
            }
            left -= 1;
        }
    }
    None
}

/// The number of the one that a word names.
fn named(lanes: &[Lane], word: &[u8]) -> Option<usize>
    ensures { result ≡ named lanes.now word.now }
{
    for (number, lane) in lanes.iter().enumerate() {
        if lane.is_spelt(word) {
            return Some(number);
        }
    }
    None
}

/// The number of the one of this number among those that may go; nothing if it may not.
#[tactic(auto, unfolding(crate::specs::Lanes::goers))]
fn rank(lanes: &[Lane], number: usize) -> Option<usize>
    ensures { result ≡ rank_of lanes.now number }
{
    let mut rank = 0;
    for (other, lane) in lanes.iter().enumerate() {
        if lane.may_go(lanes) {
            if other == number {
                return Some(rank);
            }
            rank += 1;
        }
    }
    None
}

/// The cause for which the one of this number may not go.
fn stuck_cause(lanes: &[Lane], number: usize) -> OrderCause
    ensures { result ≡ stuck_cause (slice_get lanes.now number) }
{
    match lanes.get(number) {
        None => OrderCause::Unknown,
        Some(lane) if lane.taken < lane.steps => OrderCause::Waits,
        Some(_) => OrderCause::NoneLeft,
    }
}

/// The one of this number takes a step.
fn take_step(lanes: &mut [Lane], number: usize)
    requires { says.HasLeft lanes.old number }
    ensures stepped { lanes.new ≡ stepped number lanes.old }
    ensures fewer { steps_left lanes.new + 1 ≡ steps_left lanes.old }
    ensures same { at_start lanes.new ≡ at_start lanes.old }
{
    lanes[number].step();
}

/// Nobody has taken a step from then on.
fn start_again(lanes: &mut [Lane])
    ensures { lanes.new ≡ at_start lanes.old }
{
    for lane in lanes.iter_mut() {
        lane.start_again();
    }
}

/// The processes and the feeds of a script, of whom one after another goes a step. A contract sees their
/// list.
///
/// Those that may go next are numbered from 0, in the order of the list: the processes that have a call
/// left, and then the feeds that have a message left. A process does not count while its next call awaits a
/// feed that has a message left. A stream without a feed is not awaited.
#[derive(Drop)]
pub struct Lanes {
    lanes: Vec<Lane>,
}

impl Model for Lanes {
    ghost use Rattle.std.specs.Prelude.{List};
    ghost use Rattle.strm_script_orders.specs.Lanes.{LaneValue};

    ghost Value = { List LaneValue };

    ghost view = { λ l. l.lanes.items };
}

impl Lanes {
    /// These processes in the order in which they were declared, and then these feeds in the order of their
    /// streams. Takes no memory.
    pub fn of(lanes: Vec<Lane>) -> Lanes
        ensures { result ≡ lanes.items }
    {
        Lanes { lanes }
    }

    /// The number of those that may go next.
    pub fn many(&self) -> usize
        ensures { result ≡ length (goers self.now) }
    {
        many(self.lanes.as_slice())
    }

    /// Takes the step of one of those that may go next, by its number among them, and returns its number
    /// among all. If there are not so many, nobody takes a step.
    pub fn step(&mut self, choice: usize) -> Option<usize>
        ensures number { result ≡ slice_get (goers self.old) choice }
        ensures stepped { self.new ≡ stepped_by result self.old }
        ensures fewer { OnSome result (steps_left self.new + 1 ≡ steps_left self.old) }
        ensures same { at_start self.new ≡ at_start self.old }
    {
        let number = goer(self.lanes.as_slice(), choice)?;
        take_step(self.lanes.as_mut_slice(), number);
        Some(number)
    }

    /// The choice by which the one goes that a word names; the cause, if it may not go.
    pub(crate) fn choice(&self, word: &[u8]) -> Result<Choice, OrderCause>
        ensures { result ≡ choice_by self.now word.now }
    {
        let lanes = self.lanes.as_slice();
        let Some(number) = named(lanes, word) else {
            return Err(OrderCause::Unknown);
        };
        match rank(lanes, number) {
            Some(one) => Ok(Choice {
                one,
                many: many(lanes),
            }),
            None => Err(stuck_cause(lanes, number)),
        }
    }

    /// The number of steps that are left, or 2^64 - 1 if there are more.
    #[tactic(auto, unfolding(crate::specs::Lanes::steps_left))]
    pub fn steps_left(&self) -> usize
        ensures { result ≡ min (steps_left self.now) (2 ^ 64 - 1) }
    {
        let mut steps: usize = 0;
        for lane in &self.lanes {
            steps = steps.saturating_add(lane.left());
        }
        steps
    }

    /// The number of orders of the steps that are left, or 2^64 - 1 if there are more; nothing if a process
    /// awaits a feed, or 2^64 - 1 steps are left. It is a product, and no order is walked through for it.
    pub fn free_count(&self) -> Option<u64>
        ensures count { IfSome result (λ count. count ≡ min (orders_of self.now) (2 ^ 64 - 1)) }
        ensures free { is_free self.now ≡ true → steps_left self.now < 2 ^ 64 - 1 → IsSome result }
    {
        if self.steps_left() == usize::MAX || !are_free(self.lanes.as_slice()) {
            return None;
        }
        Some(free_orders(self.lanes.as_slice()))
    }

    /// Takes all steps back.
    pub fn start_again(&mut self)
        ensures { self.new ≡ at_start self.old }
    {
        start_again(self.lanes.as_mut_slice());
    }

    /// Appends the word that spells a step of the one of this number. Fails only when memory runs out.
    fn add_word(&self, text: &mut Vec<u8>, number: usize) -> Result<(), NoMem>
        ensures { OnOk result (text.new.items ≡ text.old.items ++ says.word_at self.now number) }
    {
        match self.lanes.get(number) {
            Some(lane) => lane.add_word(text),
            None => Ok(()),
        }
    }

    /// The spelling of an order by its choices, from the start on: the words of its steps with a comma
    /// between two, as `p,q,feed:n,p`. A call is spelt by the name of the process, a message by `feed:` and
    /// the name of the stream. It ends before a choice of more than may go.
    ///
    /// Fails only when memory runs out. Some have taken steps then, or all.
    pub fn spell(&mut self, alloc: Global, choices: &[Choice]) -> Result<Vec<u8>, NoMem>
        ensures text { IfOk result (λ text. text.items
            ≡ order_text (at_start self.old) (map (λ choice. choice.one) choices.now)) }
        ensures same { at_start self.new ≡ at_start self.old }
    {
        self.start_again();
        let mut text = Vec::new(alloc);
        let mut before: &[u8] = b"";
        for choice in choices {
            let Some(number) = self.step(choice.one) else {
                break;
            };
            text.extend_from_slice(before)?;
            self.add_word(&mut text, number)?;
            before = b",";
        }
        Ok(text)
    }
}
