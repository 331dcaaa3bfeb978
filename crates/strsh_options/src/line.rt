//! The accepted command line.
ghost use Rattle.std.specs.Prelude.{◌≡◌, IfErr, IfOk};
ghost use Rattle.clap.specs.Words.{app_of, kind_of, rule_of};
ghost use Rattle.clap.specs.declared.error.kind.ErrorKind.TheVariants.{OutOfMemory};
ghost use Rattle.strsh_options.specs.CommandLine.{bare_line, command_line, file_rule, flag_rule};
ghost use Rattle.strsh_options.specs.CommandLine.{option_rule, valued_rule, worded_rule, workers_rule};

use clap::builder::ValueParser;
use clap::error::ErrorKind;
use clap::{Arg, ArgAction, Command, Error, value_parser};
use std::alloc::Global;
use strm_run_input::MOST_WORKERS;

/// The version of the program, which is that of the library.
const VERSION: &str = "1";

/// The description of the program.
const ABOUT: &str = "Plays a script of calls on STREAMS, and prints a transcript of each stream.";

/// The help of `--order`.
const ORDER_HELP: &str =
    "Makes the calls in one thread, in the order that a seed draws, or by steps as p,q,p";

/// The help of `--orders`.
const ORDERS_HELP: &str = "Plays the script in N orders, 1 to 1000000, or in all";

/// The help of `--chart`.
const CHART_HELP: &str = "Draws a sequence chart of each stream, in place of a transcript";

/// The help of `--quiet`.
const QUIET_HELP: &str = "Prints only the expected replies that were not met";

/// A script that can be played.
const EXAMPLE: &str = "\
A script declares streams, and then processes, each with its calls. This one sends a message
down an echo stream and takes it at the head:

  stream s echo 16/4 16/4
  process p
  putmsg s:a =c =hello norm
  getmsg s:a 64 64 any

Behind a call, `: REPLY` expects that reply, byte for byte as a transcript spells it.";

/// The option with this id, `--ID`.
fn option<'a>(alloc: Global, id: &'a str) -> Arg<'a>
    ensures { rule_of result ≡ option_rule id.entry.now }
{
    Arg::new(alloc, id).long(id)
}

/// The option with this id that is given or not.
fn flag<'a>(alloc: Global, id: &'a str, help: &'a str) -> Arg<'a>
    ensures { rule_of result ≡ flag_rule id.entry.now }
{
    option(alloc, id).action(ArgAction::SetTrue).help(help)
}

/// The option with this id and a value, which the parser reads.
fn valued<'a>(alloc: Global, id: &'a str, name: &'a str, parser: ValueParser<'a>) -> Arg<'a>
    ensures { rule_of result ≡ valued_rule id.entry.now parser.entry }
{
    option(alloc, id).value_name(name).value_parser(parser)
}

/// The option `--workers N`.
fn workers<'a>(alloc: Global) -> Arg<'a>
    ensures { rule_of result ≡ workers_rule }
{
    let parser = value_parser!(u32).range(1..=i64::from(MOST_WORKERS));
    valued(alloc, "workers", "N", parser)
        .default_value("4")
        .help("How many worker threads make the calls, 1 to 64")
}

/// The option with this id and a value, whose text is read later, as no parser of `clap` takes a number or
/// words.
fn worded<'a>(alloc: Global, id: &'a str, name: &'a str, help: &'a str) -> Arg<'a>
    ensures { rule_of result ≡ worded_rule id.entry.now }
{
    option(alloc, id).value_name(name).help(help)
}

/// The arguments `FILE`.
fn file<'a>(alloc: Global) -> Arg<'a>
    ensures { rule_of result ≡ file_rule }
{
    Arg::new(alloc, "FILE")
        .required(true)
        .action(ArgAction::Append)
        .help("The scripts; - is standard input")
}

/// A command without arguments, with the program's version. Fails only when memory runs out.
fn bare_command<'a>(alloc: Global) -> Result<Command<'a>, Error>
    ensures line { IfOk result (λ command. app_of command ≡ bare_line) }
    ensures memory { IfErr result (λ error. kind_of error ≡ OutOfMemory) }
{
    Ok(
        Command::new(alloc, "strsh")
            .bin_name("strsh")?
            .version(VERSION)
            .about(ABOUT)
            .after_help(EXAMPLE),
    )
}

/// The accepted command line: `strsh [--workers N | --order ORDER | --orders N] [--chart | --quiet] FILE ..`,
/// but for the options that exclude each other. Fails only when memory runs out.
pub(crate) fn command<'a>(alloc: Global) -> Result<Command<'a>, Error>
    ensures line { IfOk result (λ command. app_of command ≡ command_line) }
    ensures memory { IfErr result (λ error. kind_of error ≡ OutOfMemory) }
{
    Ok(
        bare_command(alloc)?
            .arg(workers(alloc))?
            .arg(worded(alloc, "order", "ORDER", ORDER_HELP))?
            .arg(worded(alloc, "orders", "N", ORDERS_HELP))?
            .arg(flag(alloc, "chart", CHART_HELP))?
            .arg(flag(alloc, "quiet", QUIET_HELP))?
            .arg(file(alloc))?,
    )
}

/// The error of a wrong command line, with its usage behind the message. Fails only when memory runs out.
pub(crate) fn refusal(alloc: Global, kind: ErrorKind, message: &str) -> Result<Error, Error>
    ensures kind { IfOk result (λ error. kind_of error ≡ kind) }
    ensures memory { IfErr result (λ error. kind_of error ≡ OutOfMemory) }
{
    Ok(command(alloc)?.error(kind, message)?)
}
