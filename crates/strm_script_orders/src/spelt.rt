//! Orders that are spelt.
ghost use Rattle.std.specs.Prelude.{◌≡◌, ◌≢◌, ◌+◌, ◌<◌, ◌^◌, IfErr, IfOk, OnOk, Err, Ok, ◌++◌, ◌∷◌, []};
ghost use Rattle.strm_script_orders.specs.declared.fault.OrderCause.TheVariants as Causes;
ghost use Rattle.strm_script_orders.specs.Counting.{after};
ghost use Rattle.strm_script_orders.specs.Lanes.{at_start};
ghost use Rattle.strm_script_orders.specs.Spelt.{choice_by, choice_of_step, choices_of};

use crate::fault::{OrderCause, OrderFault};
use crate::lanes::Lanes;
use crate::listed::{Choice, ListedOrder};
use crate::pieces::Pieces;
use std::alloc::Global;
use strm_msg::NoMem;

/// Takes the step that a word names, behind so many others, and returns its choice. Nobody takes a step, if
/// that one may not go.
fn take_step(lanes: &mut Lanes, word: &[u8], before: usize) -> Result<Choice, OrderFault>
    requires { before < 2 ^ 63 }
    ensures choice { result ≡ choice_of_step (before + 1) (choice_by lanes.old word.now) }
    ensures after { IfOk result (λ choice. lanes.new ≡ after choice lanes.old) }
    ensures same { at_start lanes.new ≡ at_start lanes.old }
{
    match lanes.choice(word) {
        Ok(choice) => {
            let _ = lanes.step(choice.one);
            Ok(choice)
        }
        Err(cause) => Err(OrderFault {
            step: before as u64 + 1,
            cause,
        }),
    }
}

/// Keeps a choice. Fails only when memory runs out.
fn keep(choices: &mut Vec<Choice>, choice: Choice) -> Result<(), NoMem>
    ensures { OnOk result (choices.new.items ≡ choices.old.items ++ choice ∷ []) }
{
    choices.push(choice)?;
    Ok(())
}

/// The order that a text spells, as `Lanes::spell` does, from the start on to its end: a play makes its
/// choices.
///
/// Refused, with the number of the first step at fault, for a word that names nobody, for one that has no
/// step left or awaits a feed, and if steps are left over; and if memory runs out. Some have taken steps then,
/// or all.
pub fn spelt_order(alloc: Global, lanes: &mut Lanes, text: &[u8]) -> Result<ListedOrder, OrderFault>
    ensures choices { IfOk result (λ order. choices_of (at_start lanes.old) text.now ≡ Ok order.choices) }
    ensures made { IfOk result (λ order. order.made ≡ 0) }
    ensures fault { IfErr result (λ fault. fault.cause ≢ Causes.NoMemory
        → choices_of (at_start lanes.old) text.now ≡ Err fault) }
    ensures same { at_start lanes.new ≡ at_start lanes.old }
{
    lanes.start_again();
    let mut choices = Vec::new(alloc);
    let mut words = Pieces::of_words(text);
    while let Some(word) = words.next() {
        let choice = take_step(lanes, word, choices.len())?;
        keep(&mut choices, choice)?;
    }
    if lanes.many() > 0 {
        return Err(OrderFault {
            step: choices.len() as u64 + 1,
            cause: OrderCause::Ended,
        });
    }
    Ok(ListedOrder::of(choices))
}
