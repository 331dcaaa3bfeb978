//! The rule by which a link passes messages on.
ghost use Rattle.std.specs.Prelude.{◌≡◌, ◌<◌, ◌+◌, ◌%◌, ◌^◌, List, length};
ghost use Rattle.rand_pcg.specs.Pcg.{pcg32};
ghost use Rattle.strm_link.specs.Link.{fresh};
ghost use Rattle.strm_link.specs.Passage.{nothing_yet, passage_behind, passage_of};
ghost use Rattle.strm_msg.specs.Message.{Msg};
ghost use Rattle.strm_link.specs.Rule.{act_drawn, act_of, after_act, draw_of, rule_of_acts, rule_of_odds};

use crate::act::Act;
use crate::fault::RuleFault;
use crate::passage::Passage;
use arrayvec::ArrayVec;
use rand_core::utils::NextWord;
use rand_pcg::Pcg32;
use std::marker::Model;

/// The most acts of a pattern.
pub const MOST_ACTS: usize = 64;

/// The number of draws among which odds are counted.
pub const DRAWS: u16 = 256;

/// The stream of the generator that all links draw from. Orders of a script are drawn from another one.
const STREAM: u64 = 55;

/// The odds of acts: how many of 256 draws lose, double and hold a message. The others keep it.
#[derive(Clone, Copy, Debug, PartialEq, Eq)]
pub struct Odds {
    /// The number of draws that lose the message, up to 256.
    pub lose: u16,
    /// The number of draws that double it.
    pub double: u16,
    /// The number of draws that hold it.
    pub hold: u16,
}

impl Odds {
    /// What a draw asks for: the lowest numbers lose, the next ones double, and those behind hold.
    fn act(self, draw: u16) -> Act
        requires { self.lose + self.double + self.hold < 2 ^ 16 }
        ensures { result ≡ act_drawn self draw }
    {
        if draw < self.lose {
            Act::Lose
        } else if draw < self.lose + self.double {
            Act::Double
        } else if draw < self.lose + self.double + self.hold {
            Act::Hold
        } else {
            Act::Keep
        }
    }
}

/// Where acts come from.
#[derive(Drop)]
pub(crate) enum Source {
    /// From a pattern. The number is that of the next act.
    Pattern {
        acts: ArrayVec<Act, MOST_ACTS>,
        next: usize,
    },
    /// From draws.
    Drawn {
        odds: Odds,
        rng: Pcg32,
    },
}

/// The rule by which a link passes messages on: which act is next, and which ones come behind it.
///
/// A pattern is used over and over. Odds draw each act by PCG32, so that a seed gives the same acts again. A
/// contract sees the acts of the pattern with the next one first, or the odds with the generator.
#[derive(Drop)]
pub struct Rule {
    source: Source,
}

impl Model for Rule {
    ghost use Rattle.strm_link.specs.Rule.{RuleValue};
    ghost use Rattle.strm_link.specs.Source.{IsSource, rule_from};

    ghost Value = { RuleValue };

    ghost view = { λ rule. rule_from rule.source };

    ghost invariant = { λ rule. IsSource rule.source };
}

/// The number of the act behind this one, in a pattern of so many.
fn place_behind(next: usize, many: usize) -> usize
    requires { next < many }
    ensures value { result ≡ (next + 1) % many }
    ensures within { result < many }
{
    if next + 1 < many { next + 1 } else { 0 }
}

/// The next number that a generator draws, from 0 to 255. The generator stays as it is.
fn draw(rng: &Pcg32) -> u16
    ensures value { result ≡ draw_of rng.now }
    ensures below { result < 256 }
{
    let mut ahead = rng.clone().unwrap();
    (ahead.next_word() % u32::from(DRAWS)) as u16
}

/// How far a link that holds nothing is behind so many messages.
fn passage_behind(from: &Rule, many: u64) -> Passage
    requires { many < 2 ^ 63 }
    ensures { result ≡ passage_behind from.now nothing_yet many }
{
    let mut rule = from.copy();
    let mut passage = Passage::new();
    for _ in 0..many {
        passage = passage.after(rule.act());
        rule.advance();
    }
    passage
}

impl Rule {
    /// A pattern of acts, which is used over and over. Takes no memory.
    ///
    /// Refused with `Acts` (1) exactly where there is no act, or more than 64.
    pub fn of_acts(acts: &[Act]) -> Result<Rule, RuleFault>
        ensures { result ≡ rule_of_acts acts.now }
    {
        if acts.is_empty() {
            return Err(RuleFault::Acts);
        }
        match ArrayVec::try_from(acts) {
            Ok(acts) => Ok(Rule {
                source: Source::Pattern { acts, next: 0 },
            }),
            Err(_) => Err(RuleFault::Acts),
        }
    }

    /// Acts that a seed draws, by odds. Takes no memory.
    ///
    /// Refused with `Draws` (2) exactly where the odds are together more than 256.
    pub fn of_odds(odds: Odds, seed: u64) -> Result<Rule, RuleFault>
        ensures { result ≡ rule_of_odds odds seed }
    {
        let taken = u64::from(odds.lose) + u64::from(odds.double) + u64::from(odds.hold);
        if taken > u64::from(DRAWS) {
            return Err(RuleFault::Draws);
        }
        let rng = Pcg32::new(seed, STREAM);
        Ok(Rule {
            source: Source::Drawn { odds, rng },
        })
    }

    /// An equal rule. Takes no memory.
    pub fn copy(&self) -> Rule
        ensures { result ≡ self.now }
    {
        match &self.source {
            Source::Pattern { acts, next } => Rule {
                source: Source::Pattern {
                    acts: acts.clone().unwrap(),
                    next: *next,
                },
            },
            Source::Drawn { odds, rng } => Rule {
                source: Source::Drawn {
                    odds: *odds,
                    rng: rng.clone().unwrap(),
                },
            },
        }
    }

    /// The act for the next message.
    pub fn act(&self) -> Act
        ensures { result ≡ act_of self.now }
    {
        match &self.source {
            Source::Pattern { acts, next } => acts[*next],
            Source::Drawn { odds, rng } => odds.act(draw(rng)),
        }
    }

    /// Goes on to the act for the message behind it.
    pub fn advance(&mut self)
        ensures { self.new ≡ after_act self.old }
    {
        match &mut self.source {
            Source::Pattern { acts, next } => *next = place_behind(*next, acts.len()),
            Source::Drawn { rng, .. } => {
                rng.next_word();
            }
        }
    }

    /// How far a link of this rule, which holds nothing now, is behind so many messages. Takes as long as the
    /// messages are many.
    pub fn passage(&self, many: u64) -> Passage
        requires { many < 2 ^ 63 }
        ensures { (taken : List Msg) → length taken ≡ many → result ≡ passage_of (fresh self.now) taken }
    {
        passage_behind(self, many)
    }
}
