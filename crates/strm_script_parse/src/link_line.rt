//! A link line: NAME, the wires FROM and TO, and the rule of the link.
ghost use Rattle.std.specs.Prelude.{◌≡◌, ◌≤◌, length, map};
ghost use Rattle.strm_script_parse.specs.Plan.{feed_view, link_view, streams_of};
ghost use Rattle.strm_script_parse.specs.Reading as reading;
ghost use Rattle.strm_script_parse.specs.declared.draft.TheConstants.{MOST_STREAMS};
ghost use Rattle.strm_script_text.specs.Text.{texts_of};
ghost use Rattle.strm_script_words.specs.Fault.{Tells};

use crate::draft::has_feed;
use crate::names::link_name;
use crate::plan::{LinkDecl, Name};
use crate::target::stream_at;
use arrayvec::ArrayVec;
use indexmap::IndexMap;
use strm_head_calls::Setup;
use strm_link::{Act, DRAWS, MOST_ACTS, Odds, Rule};
use strm_run_input::Feed;
use strm_script_words::{Cause, MOST_ID, number_at};

/// Whether a letter stands for an act.
fn is_letter(letter: u8) -> bool
    ensures { result ≡ reading.is_letter letter }
{
    letter == b'k' || letter == b'x' || letter == b'd' || letter == b'h'
}

/// The act of a letter: `k`, `x`, `d` and `h` keep, lose, double and hold.
fn act_of_letter(letter: u8) -> Act
    ensures { result ≡ reading.act_of_letter letter }
{
    if letter == b'x' {
        Act::Lose
    } else if letter == b'd' {
        Act::Double
    } else if letter == b'h' {
        Act::Hold
    } else {
        Act::Keep
    }
}

/// Whether each letter of a text stands for an act.
fn are_letters(text: &[u8]) -> bool
    ensures { result ≡ reading.are_letters text.now }
{
    text.iter().all(|letter| is_letter(*letter))
}

/// The acts of letters.
fn acts_of(text: &[u8]) -> ArrayVec<Act, MOST_ACTS>
    requires { length text.now ≤ MOST_ACTS }
    ensures { result.items ≡ map reading.act_of_letter text.now }
{
    let mut acts = ArrayVec::new();
    for letter in text {
        acts.push(act_of_letter(*letter));
    }
    acts
}

/// The pattern of 1 to 64 letters. Refused with `Part` if the text is none.
fn acts_at(text: &[u8]) -> Result<Rule, Cause>
    ensures { Tells (λ rule. rule) result (reading.acts_at text.now) }
{
    if text.is_empty() || text.len() > MOST_ACTS || !are_letters(text) {
        return Err(Cause::Part);
    }
    match Rule::of_acts(acts_of(text).as_slice()) {
        Ok(rule) => Ok(rule),
        Err(_) => Err(Cause::Part),
    }
}

/// A number of draws, up to 256. Refused if the text is none.
fn draws_at(text: &[u8]) -> Result<u16, Cause>
    ensures { Tells (λ n. n) result (reading.draws_at text.now) }
{
    let draws = number_at(text, u64::from(DRAWS))?;
    Ok(draws as u16)
}

/// The rule of a seed and of odds. Refused with `Number` if the odds are together more than 256.
fn drawn_at(seed: u64, lose: u16, double: u16, hold: u16) -> Result<Rule, Cause>
    ensures { Tells (λ rule. rule) result (reading.drawn_at seed lose double hold) }
{
    let odds = Odds { lose, double, hold };
    match Rule::of_odds(odds, seed) {
        Ok(rule) => Ok(rule),
        Err(_) => Err(Cause::Number),
    }
}

/// Reads `N X D H`: a seed, and how many of 256 draws lose, double and hold.
fn odds_at(seed: &[u8], lose: &[u8], double: &[u8], hold: &[u8]) -> Result<Rule, Cause>
    ensures { Tells (λ rule. rule) result (reading.odds_at seed.now lose.now double.now hold.now) }
{
    let seed = number_at(seed, MOST_ID)?;
    let lose = draws_at(lose)?;
    let double = draws_at(double)?;
    let hold = draws_at(hold)?;
    drawn_at(seed, lose, double, hold)
}

/// The number of fields of a rule, by its word. There may be none.
fn rule_arity(texts: &[&[u8]]) -> Result<usize, Cause>
    ensures { Tells (λ n. n) result (reading.rule_arity (texts_of texts.now)) }
{
    match texts {
        [] => Ok(0),
        [word, ..] if *word == b"acts".as_slice() => Ok(2),
        [word, ..] if *word == b"seed".as_slice() => Ok(5),
        _ => Err(Cause::UnknownWord),
    }
}

/// The rule of these fields, of which there are as many as its word says. Without any all is kept.
fn rule_at(texts: &[&[u8]]) -> Result<Rule, Cause>
    ensures { Tells (λ rule. rule) result (reading.rule_at (texts_of texts.now)) }
{
    match texts {
        [] => acts_at(b"k"),
        [_, acts] => acts_at(acts),
        [_, seed, lose, double, hold] => odds_at(seed, lose, double, hold),
        _ => Err(Cause::Fields),
    }
}

/// The number of the wire that a field names. Refused with `NoSuch`, and with `OutOfPlace` if the stream is no
/// wire.
fn wire_at(streams: &IndexMap<Name, Setup>, text: &[u8]) -> Result<u32, Cause>
    requires { length streams.now.entries ≤ MOST_STREAMS }
    ensures { Tells (λ wire. wire) result (reading.wire_at (streams_of streams.now) text.now) }
{
    match stream_at(streams, &mut None, text) {
        None => Err(Cause::NoSuch),
        Some((wire, driver)) if driver.is_wire() => Ok(wire),
        Some(_) => Err(Cause::OutOfPlace),
    }
}

/// Whether a link leads to the stream of this number.
pub(crate) fn leads_to(links: &[LinkDecl], number: u32) -> bool
    ensures { result ≡ reading.leads_to (map link_view links.now) number }
{
    links.iter().any(|link| link.to == number)
}

/// The number of the wire that a field names, which has no feed, and to which no link leads.
fn free_wire_at(
    streams: &IndexMap<Name, Setup>,
    feeds: &[Feed],
    links: &[LinkDecl],
    text: &[u8],
) -> Result<u32, Cause>
    requires { length streams.now.entries ≤ MOST_STREAMS }
    ensures { Tells (λ wire. wire) result
        (reading.free_wire_at (streams_of streams.now) (map feed_view feeds.now) (map link_view links.now) text.now) }
{
    let wire = wire_at(streams, text)?;
    if has_feed(feeds, wire) || leads_to(links, wire) {
        return Err(Cause::OutOfPlace);
    }
    Ok(wire)
}

/// A link, by its fields, of which there are as many as its rule's word says.
#[tactic(auto, unfolding(crate::specs::Reading::linked_at))]
fn linked_at(
    streams: &IndexMap<Name, Setup>,
    feeds: &[Feed],
    links: &[LinkDecl],
    name: &[u8],
    from: &[u8],
    to: &[u8],
    texts: &[&[u8]],
) -> Result<LinkDecl, Cause>
    requires { length streams.now.entries ≤ MOST_STREAMS }
    ensures { Tells link_view result (reading.linked_at (streams_of streams.now) (map feed_view feeds.now)
        (map link_view links.now) name.now from.now to.now (texts_of texts.now)) }
{
    let name = link_name(links, name)?;
    let from = wire_at(streams, from)?;
    let to = free_wire_at(streams, feeds, links, to)?;
    let rule = rule_at(texts)?;
    Ok(LinkDecl {
        name,
        from,
        to,
        rule,
        by: None,
    })
}

/// The link of a line, by the fields behind `link`. The word of its rule is checked before their number. Takes
/// no memory.
#[tactic(auto, unfolding(crate::specs::Reading::link_at))]
pub(crate) fn link_at(
    streams: &IndexMap<Name, Setup>,
    feeds: &[Feed],
    links: &[LinkDecl],
    texts: &[&[u8]],
) -> Result<LinkDecl, Cause>
    requires { length streams.now.entries ≤ MOST_STREAMS }
    ensures { Tells link_view result (reading.link_at (streams_of streams.now) (map feed_view feeds.now)
        (map link_view links.now) (texts_of texts.now)) }
{
    let [name, from, to, texts @ ..] = texts else {
        return Err(Cause::Fields);
    };
    let arity = rule_arity(texts)?;
    if texts.len() != arity {
        return Err(Cause::Fields);
    }
    linked_at(streams, feeds, links, name, from, to, texts)
}
