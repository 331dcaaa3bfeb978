//! A link.
ghost use Rattle.std.specs.Prelude.{◌≡◌, ◌<◌, ◌++◌, None, length, option_map, IfErr, IfOk, OnErr, OnOk};
ghost use Rattle.std.specs.Option.{option_to_list};
ghost use Rattle.strm_link.specs.Link.{fresh, held_after, leaves, passed};
ghost use Rattle.strm_link.specs.Rule.{act_of};

use crate::act::Act;
use crate::rule::Rule;
use arrayvec::ArrayVec;
use std::marker::Model;
use strm_msg::Message;

/// The most messages that a link passes on at once: one that is doubled, and the one that was held.
pub const MOST_PASSED: usize = 3;

/// A directed link between two wires, which passes messages on by a rule. It holds at most one back. What
/// kind of message it is, and of which band, makes no difference.
///
/// A contract sees the rule from the next message on, and the message that is held.
#[derive(Drop)]
pub struct Link {
    rule: Rule,
    held: Option<Message>,
}

impl Model for Link {
    ghost use Rattle.strm_link.specs.Link.{LinkValue};

    ghost Value = { LinkValue };

    ghost view = { λ link. record { rule = link.rule; held = link.held } };
}

/// Puts the message that is held behind those that are passed on.
fn release(out: &mut ArrayVec<Message, MOST_PASSED>, held: &mut Option<Message>)
    requires { length out.old.items < MOST_PASSED }
    ensures out { out.new.items ≡ out.old.items ++ option_to_list held.old }
    ensures held { held.new ≡ None }
{
    if let Some(other) = held.take() {
        out.push(other);
    }
}

/// Does with a message what the act says, and gives what is passed on.
fn act_on(
    act: Act,
    held: &mut Option<Message>,
    m: Message,
) -> Result<ArrayVec<Message, MOST_PASSED>, Message>
    ensures out { IfOk result (λ out. out.items ≡ leaves act m held.old) }
    ensures ok { OnOk result (held.new ≡ held_after act m held.old) }
    ensures back { IfErr result (λ same. same ≡ m) }
    ensures err { OnErr result (held.new ≡ held.old) }
    ensures doubled { OnErr result (act ≡ Act.Double) }
{
    let mut out = ArrayVec::new();
    match act {
        Act::Keep => {
            out.push(m);
            release(&mut out, held);
            Ok(out)
        }
        Act::Lose => {
            drop(m);
            Ok(out)
        }
        Act::Double => {
            let Ok(twin) = m.copy() else {
                return Err(m);
            };
            out.push(m);
            out.push(twin);
            release(&mut out, held);
            Ok(out)
        }
        Act::Hold => {
            release(&mut out, held);
            *held = Some(m);
            Ok(out)
        }
    }
}

impl Link {
    /// A link of a rule, which holds nothing.
    pub fn new(rule: Rule) -> Link
        ensures { result ≡ fresh rule }
    {
        Link { rule, held: None }
    }

    /// Gives the link a message that was taken of the one wire. What it passes on then is for the other wire,
    /// in this order: up to three messages, all with the same bytes that were taken. Takes no memory.
    ///
    /// Only a message that is to be doubled can come back: where its bytes have more owners than can be
    /// counted. Then nothing is changed.
    pub fn pass(&mut self, m: Message) -> Result<ArrayVec<Message, MOST_PASSED>, Message>
        ensures out { IfOk result (λ out. out.items ≡ leaves (act_of self.old.rule) m self.old.held) }
        ensures ok { OnOk result (self.new ≡ passed self.old m) }
        ensures back { IfErr result (λ same. same ≡ m) }
        ensures err { OnErr result (self.new ≡ self.old) }
        ensures doubled { OnErr result (act_of self.old.rule ≡ Act.Double) }
    {
        let out = act_on(self.rule.act(), &mut self.held, m)?;
        self.rule.advance();
        Ok(out)
    }

    /// The message that is held.
    pub fn held(&self) -> Option<&Message>
        ensures { option_map (λ m. m.now) result ≡ self.now.held }
    {
        self.held.as_ref()
    }

    /// The rule, from the next message on.
    pub fn rule(&self) -> &Rule
        ensures { result.now ≡ self.now.rule }
    {
        &self.rule
    }

    /// The message that is held when no more is given. Drop it, or hand it in behind all others.
    pub fn finish(self) -> Option<Message>
        ensures { result ≡ self.held }
    {
        self.held
    }
}
