//! The transcripts that the runs of a script in many orders gave.
ghost use Rattle.std.specs.Prelude.{◌≡◌, ◌+◌, ◌<◌, ◌≤◌, ◌^◌, [], All, IfOk, OnErr, OnOk, map};
ghost use Rattle.std.specs.List.{flat_map};
ghost use Rattle.std.specs.Str.{bytes_eq};
ghost use Rattle.strm_script_text.specs.Writing.{Writes};
ghost use Rattle.strm_script_orders.specs.Parts.{label_in};
ghost use Rattle.strm_script_orders.specs.Tally.{AddsRun, is_among, missed_label, tally_of, texts_of};
ghost use Rattle.strm_script_orders.specs.Tally.{with_other, with_play, with_text};
ghost use Rattle.strm_script_orders.specs.Telling.{given_text, kept_text, orders_text, others_text};
ghost use Rattle.strm_script_orders.specs.Telling.{tally_text, unmet_text};

use crate::printing::{put_difference, put_many, put_number, put_plays};
use std::alloc::Global;
use std::io::{self, Write};
use std::marker::Model;
use strm_msg::NoMem;

/// The most transcripts that are kept apart.
pub const MOST_KEPT: usize = 64;

/// A transcript that orders gave: the label of the first of them, and how many they are.
#[derive(Drop)]
pub(crate) struct Given {
    label: Vec<u8>,
    text: Vec<u8>,
    plays: u64,
}

impl Model for Given {
    ghost use Rattle.strm_script_orders.specs.Tally.{GivenValue};

    ghost Value = { GivenValue };

    ghost view = { λ g. record { label = g.label.items; text = g.text.items; plays = g.plays } };
}

impl Given {
    /// Counts a play more, if it has this text, and returns whether it has.
    fn count(&mut self, text: &[u8]) -> bool
        requires { self.old.plays < 2 ^ 63 }
        ensures same { result ≡ bytes_eq text.now self.old.text }
        ensures counted { self.new ≡ with_play text.now self.old }
    {
        let same = text == self.text.as_slice();
        self.plays += u64::from(same);
        same
    }

    /// Writes how many orders gave it, and the first line in which it differs from another text.
    fn put<W: Write>(&self, w: &mut W, first: &[u8]) -> io::Result<()>
        ensures { Writes W.contents w.old w.new result (given_text first.now self.now) }
    {
        put_plays(w, self.label.as_slice(), self.plays)?;
        put_difference(w, first, self.text.as_slice())
    }
}

/// Counts a play more of the transcript that has this text, and returns whether one has.
fn count_play(kept: &mut [Given], text: &[u8]) -> bool
    requires { All (λ given. given.plays < 2 ^ 63) kept.old }
    ensures found { result ≡ is_among (texts_of kept.old) text.now }
    ensures counted { kept.new ≡ map (with_play text.now) kept.old }
{
    let mut found = false;
    for given in kept.iter_mut() {
        found |= given.count(text);
    }
    found
}

/// Counts a run by its transcript: that is kept apart, if it is new and fewer than `MOST_KEPT` are, and else
/// only counted. Fails only when memory runs out; then nothing has changed.
fn count_text(
    kept: &mut Vec<Given>,
    others: &mut u64,
    label: Vec<u8>,
    text: Vec<u8>,
) -> Result<(), NoMem>
    requires plays { All (λ given. given.plays < 2 ^ 63) kept.old.items }
    requires others { others.old < 2 ^ 63 }
    ensures kept { OnOk result (kept.new.items ≡ with_text kept.old.items label.items text.items) }
    ensures others { OnOk result (others.new ≡ with_other kept.old.items others.old text.items) }
    ensures err { OnErr result (kept.new.items ≡ kept.old.items) }
    ensures err_others { OnErr result (others.new ≡ others.old) }
{
    kept.reserve(1)?;
    if count_play(kept.as_mut_slice(), text.as_slice()) {
        return Ok(());
    }
    if kept.len() < MOST_KEPT {
        kept.push_reserved(Given {
            label,
            text,
            plays: 1,
        });
        return Ok(());
    }
    *others += 1;
    Ok(())
}

/// Writes how many orders gave each of these transcripts, and how it differs from the text of the first.
fn put_rest<W: Write>(w: &mut W, first: &[u8], rest: &[Given]) -> io::Result<()>
    ensures { Writes W.contents w.old w.new result (flat_map (given_text first.now) rest.now) }
{
    for given in rest {
        given.put(w, first)?;
    }
    Ok(())
}

/// Writes how many orders gave each of these transcripts, and how those behind the first differ from it.
#[tactic(auto, unfolding(crate::specs::Telling::kept_text))]
fn put_kept<W: Write>(w: &mut W, kept: &[Given]) -> io::Result<()>
    ensures { Writes W.contents w.old w.new result (kept_text kept.now) }
{
    match kept {
        [] => Ok(()),
        [first, rest @ ..] => {
            put_plays(w, first.label.as_slice(), first.plays)?;
            put_rest(w, first.text.as_slice(), rest)
        }
    }
}

/// The label of an order with an expected reply that was not met, if there was no such order before. Fails
/// only when memory runs out.
fn missed_label(alloc: Global, label: &[u8], is_unmet: bool) -> Result<Option<Vec<u8>>, NoMem>
    ensures { IfOk result (λ copy. label_in copy ≡ missed_label label.now is_unmet) }
{
    if is_unmet {
        return Ok(Some(Vec::from_slice(alloc, label)?));
    }
    Ok(None)
}

/// The transcripts that the runs in many orders gave. A contract sees how many gave which.
#[derive(Drop)]
pub struct Tally {
    orders: u64,
    kept: Vec<Given>,
    others: u64,
    unmet: u64,
    first_unmet: Option<Vec<u8>>,
}

impl Model for Tally {
    ghost use Rattle.strm_script_orders.specs.Tally.{TallyValue};
    ghost use Rattle.strm_script_orders.specs.Parts.{IsWithin, tally_in};

    ghost Value = { TallyValue };

    ghost view = { λ t. tally_in t.orders t.kept.items t.others t.unmet t.first_unmet };

    ghost invariant = { λ t. IsWithin t.orders t.kept.items t.others t.unmet };
}

impl Tally {
    /// No runs yet. Takes no memory.
    pub fn new(alloc: Global) -> Tally
        ensures { result ≡ tally_of [] }
    {
        Tally {
            orders: 0,
            kept: Vec::new(alloc),
            others: 0,
            unmet: 0,
            first_unmet: None,
        }
    }

    /// The number of runs.
    pub fn orders(&self) -> u64
        ensures { result ≡ self.now.orders }
    {
        self.orders
    }

    /// The number of runs that had an expected reply that was not met.
    pub fn unmet(&self) -> u64
        ensures { result ≡ self.now.unmet }
    {
        self.unmet
    }

    /// Counts a run in one order, by the text of its transcript: `label` spells the order, and `is_unmet`
    /// says whether an expected reply was not met. There were fewer than 2^63 runs before.
    ///
    /// Fails only when memory runs out; then nothing has changed.
    pub fn add(
        &mut self,
        alloc: Global,
        label: Vec<u8>,
        text: Vec<u8>,
        is_unmet: bool,
    ) -> Result<(), NoMem>
        requires { self.old.orders < 2 ^ 63 }
        ensures added { OnOk result
            (AddsRun self.old self.new (record { label = label.items; text = text.items; is_unmet = is_unmet })) }
        ensures orders { OnOk result (self.new.orders ≡ self.old.orders + 1) }
        ensures err { OnErr result (self.new ≡ self.old) }
    {
        let missed = missed_label(alloc, label.as_slice(), is_unmet)?;
        count_text(&mut self.kept, &mut self.others, label, text)?;
        self.first_unmet = self.first_unmet.take().or(missed);
        self.unmet += u64::from(is_unmet);
        self.orders += 1;
        Ok(())
    }

    /// Writes how many orders there are and how many transcripts: `orders N transcripts K`.
    #[tactic(auto, unfolding(crate::specs::Telling::orders_text))]
    fn put_orders<W: Write>(&self, w: &mut W) -> io::Result<()>
        ensures { Writes W.contents w.old w.new result (orders_text self.now) }
    {
        w.write_all(b"orders ")?;
        put_number(w, self.orders)?;
        w.write_all(b" transcripts ")?;
        put_many(w, self.kept.len(), self.others)?;
        w.write_all(b"\n")
    }

    /// Writes how many orders gave transcripts that are not kept apart: `order others plays M`, if any did.
    fn put_others<W: Write>(&self, w: &mut W) -> io::Result<()>
        ensures { Writes W.contents w.old w.new result (others_text self.now.others) }
    {
        if self.others == 0 {
            return Ok(());
        }
        put_plays(w, b"others", self.others)
    }

    /// Writes how many orders had an expected reply that was not met: `unmet M first S`, if one had.
    fn put_unmet<W: Write>(&self, w: &mut W) -> io::Result<()>
        ensures { Writes W.contents w.old w.new result (unmet_text self.now.unmet self.now.first_unmet) }
    {
        let Some(first) = &self.first_unmet else {
            return Ok(());
        };
        w.write_all(b"unmet ")?;
        put_number(w, self.unmet)?;
        w.write_all(b" first ")?;
        w.write_all(first.as_slice())?;
        w.write_all(b"\n")
    }

    /// Writes what the runs gave:
    ///
    /// - `orders N transcripts K`, or `transcripts over 64` if more than `MOST_KEPT` differ;
    /// - for each different transcript, in the order in which they came, `order S plays M`: the label of the
    ///   first order that gave it, and how many gave it;
    /// - behind each of these but the first `differs STREAM: LINE`: the first line in which it differs from
    ///   the first transcript, and the stream of that line;
    /// - `order others plays M`, if transcripts are not kept apart;
    /// - `unmet M first S`, if an order had an expected reply that was not met: how many had one, and the
    ///   label of the first.
    ///
    /// Refused only if the writer refuses, with its error. Takes no memory.
    pub fn put<W: Write>(&self, w: &mut W) -> io::Result<()>
        ensures { Writes W.contents w.old w.new result (tally_text self.now) }
    {
        self.put_orders(w)?;
        put_kept(w, self.kept.as_slice())?;
        self.put_others(w)?;
        self.put_unmet(w)
    }
}
