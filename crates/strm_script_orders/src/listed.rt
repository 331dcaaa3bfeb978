//! All orders, one after another.
ghost use Rattle.std.specs.Prelude.{◌≡◌, ◌<◌, ◌^◌, [], is_some, IfOk, OnOk, length, unwrap_or};
ghost use Rattle.strm_script_orders.specs.Choices.{chosen, next_choice, successor, with_choice};

use std::alloc::Global;
use std::marker::Model;
use strm_msg::NoMem;
use strm_run_input::Order;

/// A choice of the one that goes next.
#[derive(Clone, Copy, Debug, PartialEq, Eq, Drop)]
pub struct Choice {
    /// The number of the one, of those that may.
    pub one: usize,
    /// How many may.
    pub many: usize,
}

impl Choice {
    /// The next choice of as many; nothing if it is the last.
    fn next(self) -> Option<Choice>
        ensures { result ≡ next_choice self }
    {
        if self.many.saturating_sub(self.one) <= 1 {
            return None;
        }
        Some(Choice {
            one: self.one + 1,
            many: self.many,
        })
    }
}

/// All orders of a script, of which one is played after another, in lexicographic order of their choices. A
/// contract sees the choices.
///
/// A play makes the choices that are kept, and then always the first one, which is kept too. So the same play
/// of a script makes the same choices, until `advance` goes on to the next order.
#[derive(Drop)]
pub struct ListedOrder {
    choices: Vec<Choice>,
    made: usize,
    steps: usize,
}

impl Model for ListedOrder {
    ghost use Rattle.std.specs.Prelude.{length, vec_capacity};
    ghost use Rattle.strm_script_orders.specs.Choices.{ListedValue};
    ghost use Rattle.strm_script_orders.specs.Inside.{IsListed};

    ghost Value = { ListedValue };

    ghost view = { λ o. record { choices = o.choices.items; made = o.made; steps = o.steps } };

    ghost invariant = { λ o. IsListed (length o.choices.items) (vec_capacity o.choices) o.made o.steps };
}

impl ListedOrder {
    /// The first order, for plays of so many steps at most. Fails only when memory runs out.
    pub fn new(alloc: Global, steps: usize) -> Result<ListedOrder, NoMem>
        ensures order { IfOk result (λ order. order ≡ record { choices = []; made = 0; steps = steps }) }
        ensures few { OnOk result (steps < 2 ^ 63) }
    {
        Ok(ListedOrder {
            choices: Vec::with_capacity(alloc, steps)?,
            made: 0,
            steps,
        })
    }

    /// The order of these choices. A play keeps no more than these. Takes no memory.
    pub(crate) fn of(choices: Vec<Choice>) -> ListedOrder
        ensures { result ≡ record { choices = choices.items; made = 0; steps = length choices.items } }
    {
        ListedOrder {
            steps: choices.len(),
            choices,
            made: 0,
        }
    }

    /// The choices that are kept: behind a play, those that it made.
    pub fn choices(&self) -> &[Choice]
        ensures { result.now ≡ self.now.choices }
    {
        self.choices.as_slice()
    }

    /// Goes on to the next order, and returns whether there is one: the last choice that was not of the last
    /// one becomes that of the next one, and those behind it are no longer kept. If there is none, the first
    /// order is the next one.
    pub fn advance(&mut self) -> bool
        ensures next { result ≡ is_some (successor self.old.choices) }
        ensures choices { self.new.choices ≡ unwrap_or (successor self.old.choices) [] }
        ensures made { self.new.made ≡ 0 }
        ensures steps { self.new.steps ≡ self.old.steps }
    {
        self.made = 0;
        while let Some(last) = self.choices.pop() {
            if let Some(next) = last.next() {
                self.choices.push_reserved(next);
                return true;
            }
        }
        false
    }
}

impl Order for ListedOrder {
    /// The one of the next choice that is kept, if there is one and it may go; else the first. Beyond the
    /// choices that are kept, it is kept, if it is one of the first `steps`.
    fn next(&mut self, many: usize) -> usize
        requires { 0 < many }
        ensures choice { result ≡ chosen self.old many }
        ensures kept { self.new ≡ with_choice self.old many }
        ensures below { result < many }
    {
        if let Some(choice) = self.choices.get(self.made).copied() {
            self.made += 1;
            return if choice.one < many { choice.one } else { 0 };
        }
        if self.choices.len() < self.steps {
            self.choices.push_reserved(Choice { one: 0, many });
            self.made += 1;
        }
        0
    }
}
