//! The options that a command line asks for.
ghost use Rattle.std.specs.Prelude.{◌≡◌, ◌≤◌, IfOk, IfSome, Some, is_some, map, option_map};
ghost use Rattle.std.specs.List.{list_all};
ghost use Rattle.clap.specs.Words.{FailsBy, found_of, rows_of};
ghost use Rattle.strm_run_input.specs.declared.validation.TheConstants.{MOST_WORKERS};
ghost use Rattle.strsh_options.specs.CommandLine.{found, has_conflict, is_given};
ghost use Rattle.strsh_options.specs.Options.{AreInRange, PlaysInRange, conflict_kinds, order_of, orders_of};
ghost use Rattle.strsh_options.specs.Options.{output_of, paths_of, playing_by, playing_kinds, playing_of};
ghost use Rattle.strsh_options.specs.Options.{plays_of, refusals, workers_of};
ghost use Rattle.strm_script_text.specs.Bytes.{is_digit};

use crate::line::{command, refusal};
use clap::error::ErrorKind;
use clap::parser::ValueSource;
use clap::{ArgMatches, Error};
use std::alloc::{AllocError, Global};
use strm_run_input::MOST_WORKERS;
use strm_script_text::number;

/// The number of worker threads, if the command line asks for none.
const DEFAULT_WORKERS: u32 = 4;

/// The most orders that can be asked for by their number.
pub const MOST_ORDERS: u32 = 1_000_000;

/// The greatest seed of an order.
pub const MOST_SEED: u64 = u64::MAX;

/// The orders in which a script is played.
#[derive(Clone, Copy, Debug, PartialEq, Eq)]
pub enum Orders {
    /// That many, 1 to `MOST_ORDERS`.
    First(u32),
    /// Each order once.
    All,
}

/// Who makes the calls of a script, and in which order.
#[derive(Clone, Copy, Debug, PartialEq, Eq)]
pub enum Playing<'a> {
    /// The worker threads.
    Threads,
    /// One thread, in the order that this seed draws.
    InOrder(u64),
    /// One thread, by the steps that this text spells.
    Spelt(&'a str),
    /// One thread, once in each of these orders.
    Each(Orders),
}

/// What is printed of a script that was played, beside the expected replies that were not met.
#[derive(Clone, Copy, Debug, PartialEq, Eq)]
pub enum Output {
    /// The transcript.
    Transcript,
    /// The chart.
    Chart,
    /// Nothing.
    Quiet,
}

/// The options of a command line.
#[derive(Debug, Drop)]
pub struct Options<'a> {
    /// The number of worker threads, 1 to `MOST_WORKERS`.
    pub workers: u32,
    /// Who makes the calls, and in which order.
    pub playing: Playing<'a>,
    /// What is printed.
    pub output: Output,
    /// The paths of the scripts, in their order; `-` is standard input.
    pub paths: Vec<&'a str>,
}

/// Whether an option is among the words. Its default does not count.
fn given(matches: &ArgMatches, id: &str) -> bool
    ensures { result ≡ is_given id.now (rows_of (found_of matches.now)) }
{
    matches.value_source(id) == Some(ValueSource::CommandLine)
}

/// The first two options among the words that exclude each other, as an error spells them.
fn excluded(matches: &ArgMatches) -> Option<(&'static str, &'static str)>
    ensures { is_some result ≡ has_conflict (rows_of (found_of matches.now)) }
{
    let workers = given(matches, "workers");
    let order = given(matches, "order");
    let orders = given(matches, "orders");
    let chart = given(matches, "chart");
    let quiet = given(matches, "quiet");
    if workers && order {
        Some(("--workers <N>", "--order <ORDER>"))
    } else if workers && orders {
        Some(("--workers <N>", "--orders <N>"))
    } else if order && orders {
        Some(("--order <ORDER>", "--orders <N>"))
    } else if orders && chart {
        Some(("--orders <N>", "--chart"))
    } else if orders && quiet {
        Some(("--orders <N>", "--quiet"))
    } else if chart && quiet {
        Some(("--chart", "--quiet"))
    } else {
        None
    }
}

/// Refuses options that exclude each other. Fails otherwise only when memory runs out.
fn check_excluded(alloc: Global, matches: &ArgMatches) -> Result<(), Error>
    ensures { FailsBy (conflict_kinds (rows_of (found_of matches.now))) result }
{
    let Some((one, other)) = excluded(matches) else {
        return Ok(());
    };
    let message = format!(in alloc; "the argument '{one}' cannot be used with '{other}'")?;
    Err(refusal(alloc, ErrorKind::ArgumentConflict, message.as_str())?)
}

/// The orders that a text asks for: `all`, or a number of them. Nothing if the text is neither.
fn orders_asked(text: &str) -> Option<Orders>
    ensures orders { result ≡ orders_of text.now }
    ensures range { IfSome result AreInRange }
{
    if text == "all" {
        return Some(Orders::All);
    }
    match number(text.as_bytes(), u64::from(MOST_ORDERS))? {
        0 => None,
        many => Some(Orders::First(many as u32)),
    }
}

/// Whether a text is digits alone.
fn is_digits(text: &str) -> bool
    ensures { result ≡ list_all is_digit text.now }
{
    text.as_bytes().iter().all(|byte| byte.is_ascii_digit())
}

/// The order that a text asks for: digits alone are a seed, and another text spells steps. Nothing if digits
/// are no number of 64 bits.
fn order_asked(text: &str) -> Option<Playing<'_>>
    ensures order { option_map plays_of result ≡ order_of text.entry.now }
    ensures range { IfSome result PlaysInRange }
{
    if let Some(seed) = number(text.as_bytes(), MOST_SEED) {
        return Some(Playing::InOrder(seed));
    }
    if is_digits(text) {
        return None;
    }
    Some(Playing::Spelt(text))
}

/// Who makes the calls, by the text of `--order`. Refused if that text is digits alone and no number of 64
/// bits, and when memory runs out.
fn playing_in_order<'a>(alloc: Global, text: &'a str) -> Result<Playing<'a>, Error>
    ensures playing { IfOk result (λ playing. Some (plays_of playing) ≡ order_of text.entry.now) }
    ensures range { IfOk result PlaysInRange }
    ensures kinds { FailsBy (playing_kinds (order_of text.entry.now)) result }
{
    if let Some(playing) = order_asked(text) {
        return Ok(playing);
    }
    let message = format!(in alloc;
        "invalid value '{text}' for '--order <ORDER>': neither in 0..={MOST_SEED} nor steps"
    )?;
    Err(refusal(alloc, ErrorKind::ValueValidation, message.as_str())?)
}

/// Who makes the calls, by the texts of `--order` and `--orders`. Refused if that of `--order` is digits alone
/// and no number of 64 bits, if that of `--orders` is neither `all` nor a number from 1 to `MOST_ORDERS`, and
/// when memory runs out.
fn playing_asked<'a>(
    alloc: Global,
    order: Option<&'a str>,
    orders: Option<&'a str>,
) -> Result<Playing<'a>, Error>
    ensures playing { IfOk result (λ playing. Some (plays_of playing) ≡ playing_by
        (option_map (λ asked. asked.now) order.entry) (option_map (λ asked. asked.now) orders.entry)) }
    ensures range { IfOk result PlaysInRange }
    ensures kinds { FailsBy (playing_kinds (playing_by
        (option_map (λ asked. asked.now) order.entry) (option_map (λ asked. asked.now) orders.entry))) result }
{
    if let Some(text) = order {
        return playing_in_order(alloc, text);
    }
    let Some(text) = orders else {
        return Ok(Playing::Threads);
    };
    if let Some(orders) = orders_asked(text) {
        return Ok(Playing::Each(orders));
    }
    let message = format!(in alloc;
        "invalid value '{text}' for '--orders <N>': neither in 1..={MOST_ORDERS} nor all"
    )?;
    Err(refusal(alloc, ErrorKind::ValueValidation, message.as_str())?)
}

/// What is printed.
fn output_asked(matches: &ArgMatches) -> Output
    ensures { result ≡ output_of (rows_of (found_of matches.now)) }
{
    if given(matches, "chart") {
        Output::Chart
    } else if given(matches, "quiet") {
        Output::Quiet
    } else {
        Output::Transcript
    }
}

/// The paths of the scripts, in their order. Fails only when memory runs out.
fn paths_asked<'a>(alloc: Global, matches: &ArgMatches<'a>) -> Result<Vec<&'a str>, AllocError>
    ensures { IfOk result
        (λ paths. map (λ path. path.now) paths.items ≡ paths_of (rows_of (found_of matches.now))) }
{
    match matches.get_strs("FILE") {
        Some(paths) => Vec::from_slice(alloc, paths),
        None => Ok(Vec::new(alloc)),
    }
}

impl<'a> Options<'a> {
    /// Reads the words of a command line. The first is the program's name.
    ///
    /// Refused, with the text to print, in this order: if the words are no such command line, or ask for help
    /// or the version; if two options exclude each other; if the text of `--order` is digits alone and no
    /// number of 64 bits, or that of `--orders` neither `all` nor a number from 1 to `MOST_ORDERS`. Refused
    /// also when memory runs out.
    pub fn read(alloc: Global, words: &'a [String]) -> Result<Options<'a>, Error>
        ensures workers { IfOk result (λ options. options.workers ≡ workers_of (found words.entry.now)) }
        ensures range { IfOk result (λ options. (1 ≤ options.workers) × (options.workers ≤ MOST_WORKERS)) }
        ensures playing { IfOk result
            (λ options. Some (plays_of options.playing) ≡ playing_of (found words.entry.now)) }
        ensures orders { IfOk result (λ options. PlaysInRange options.playing) }
        ensures output { IfOk result (λ options. options.output ≡ output_of (found words.entry.now)) }
        ensures paths { IfOk result
            (λ options. map (λ path. path.now) options.paths.items ≡ paths_of (found words.entry.now)) }
        ensures kinds { FailsBy (refusals words.entry.now) result }
    {
        let matches = command(alloc)?.try_get_matches_from(words)?;
        check_excluded(alloc, &matches)?;
        let order = matches.get_str("order");
        Ok(Options {
            workers: matches.get_one::<u32>("workers").unwrap_or(DEFAULT_WORKERS),
            playing: playing_asked(alloc, order, matches.get_str("orders"))?,
            output: output_asked(&matches),
            paths: paths_asked(alloc, &matches)?,
        })
    }
}
