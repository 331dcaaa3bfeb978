//! The playing of a script, and the printing of its transcript or its chart, and of the expected replies that
//! were not met.
ghost use Rattle.std.specs.Prelude.{◌≡◌, ◌≢◌, ◌++◌, ◌<◌, ◌==◌, if◌then◌else◌, IfOk, OnOk, length, map};
ghost use Rattle.std.specs.List.{flat_map};
ghost use Rattle.std.specs.Io.KnownBytes.{Appends};
ghost use Rattle.std.specs.IoError.{error_kind};
ghost use Rattle.std.specs.declared.io.ErrorKind.TheVariants.{OutOfMemory};
ghost use Rattle.strm_run_input.specs.declared.fault.RunFault.TheVariants as RunFaults;
ghost use Rattle.strm_script_parse.specs.Plan.{names_view, plan_view};
ghost use Rattle.strm_script_parse.specs.Sound.{IsSound};
ghost use Rattle.strm_script_parse.specs.RunInput.{replies_view};
ghost use Rattle.strm_script_expect.specs.Unmet.{missed_text, missed_view, unmet_of};
ghost use Rattle.strsh_options.specs.Fault.{line};
ghost use Rattle.strsh.specs.Outcome.{outcome_text};

use crate::orders::play_orders;
use crate::refusal::Refusal;
use crate::spelt::play_spelt;
use std::alloc::Global;
use std::io::{self, BufWriter, ErrorKind, IsTerminal, Write};
use std::rt::{Clock, Files};
use std::sync::Wait;
use std::thread::Threads;
use std::{fs, mem};
use strm_module::{BoxedModule, Plain};
use strm_run_input::RunFault;
use strm_script::{
    LoadFault, Missed, Outcome, Plan, chart, load, parse_parallel, play_plan, play_plan_in_order,
    print_parallel, put_missed, unmet,
};
use strm_script_orders::DrawnOrder;
use strsh_options::{Fault, Options, Output, Playing};

/// The number of bytes that are written at once.
pub(crate) const BUFFER: usize = 65_536;

/// The status if an expected reply was not met.
pub(crate) const UNMET: u8 = 3;

/// The path that stands for standard input.
const STANDARD_INPUT: &str = "-";

/// The name of the script at a path, as it is shown.
pub(crate) fn shown_name(path: &str) -> &str {
    if path == STANDARD_INPUT {
        "standard input"
    } else {
        path
    }
}

/// The bytes of the script at a path, or of standard input.
pub(crate) fn script<R: Files + Input>(
    rt: &R,
    alloc: Global,
    path: &str,
) -> Result<Vec<u8>, LoadFault> {
    if path == STANDARD_INPUT {
        return load(alloc, rt.reader());
    }
    load(alloc, fs::open(rt, path)?)
}

/// The plan of the script at a path, read in at most that many threads. The text is dropped before the plan
/// is played. The fault of a script is explained.
fn plan_at<R: Files + Input + Threads + Sync>(
    rt: &R,
    alloc: Global,
    path: &str,
    threads: usize,
) -> Result<Plan<BoxedModule<Plain>>, Refusal>
    requires { 0 < threads }
    ensures { IfOk result (λ plan. IsSound (plan_view plan)) }
{
    let bytes = script(rt, alloc, path).map_err(Fault::from)?;
    match parse_parallel::<Plain, R>(rt, alloc, bytes.as_slice(), threads) {
        Ok(plan) => Ok(plan),
        Err(fault) => Err(Refusal::of_script(alloc, shown_name(path), bytes.as_slice(), fault)),
    }
}

/// Writes the outcome of a script that was played: as a transcript, whose lines are made in at most `threads`
/// threads, or as a chart, or not at all.
fn put_text<R: Threads + Sync, W: Write>(
    rt: &R,
    alloc: Global,
    outcome: &mut Outcome,
    output: Output,
    threads: usize,
    w: &mut W,
) -> io::Result<()>
    requires { 0 < threads }
    ensures { OnOk result (Appends (W.contents w.old) (W.contents w.new)
        (outcome_text output (names_view outcome.old.names) outcome.old.transcript.streams.items)) }
{
    let Outcome {
        names,
        transcript,
        expected: _,
    } = outcome;
    match output {
        Output::Transcript => print_parallel(rt, alloc, transcript, names, threads, w),
        Output::Chart => chart(transcript, names, w),
        Output::Quiet => Ok(()),
    }
}

/// Writes the line of an expected reply that was not met.
fn put_line<W: Write>(missed: &Missed, w: &mut W) -> io::Result<()>
    ensures { OnOk result (Appends (W.contents w.old) (W.contents w.new) (line (missed_text (missed_view missed.now)))) }
{
    w.write_all(b"strsh: ")?;
    put_missed(w, missed)?;
    w.write_all(b"\n")
}

/// Writes a line for each expected reply that was not met.
fn put_lines<W: Write>(missed: &[Missed], w: &mut W) -> io::Result<()>
    ensures { OnOk result (Appends (W.contents w.old) (W.contents w.new)
        (flat_map (λ one. line (missed_text (missed_view one))) missed.now)) }
{
    for one in missed {
        put_line(one, w)?;
    }
    Ok(())
}

/// Writes the outcome of a script that was played, as it is asked for, and then a line for each expected reply
/// that was not met, to the last byte.
///
/// Fails when memory runs out, with an error of kind `OutOfMemory`, and if the writer fails, with its error.
pub fn put<R: Threads + Sync, W: Write>(
    rt: &R,
    alloc: Global,
    outcome: &mut Outcome,
    missed: &[Missed],
    output: Output,
    threads: usize,
    w: &mut W,
) -> io::Result<()>
    requires threads { 0 < threads }
    ensures text { OnOk result (Appends (W.contents w.old) (W.contents w.new)
        (outcome_text output (names_view outcome.old.names) outcome.old.transcript.streams.items
        ++ flat_map (λ one. line (missed_text (missed_view one))) missed.now)) }
{
    put_text(rt, alloc, outcome, output, threads, w)?;
    put_lines(missed, w)?;
    w.flush()
}

/// The fault of an outcome that could not be printed.
pub(crate) fn not_put(error: io::Error) -> Fault
    ensures memory { error_kind error ≡ OutOfMemory → result ≡ Fault.Run RunFaults.NoMem }
    ensures write { error_kind error ≢ OutOfMemory → result ≡ Fault.Write }
{
    if error.kind() == ErrorKind::OutOfMemory {
        Fault::no_memory()
    } else {
        Fault::Write
    }
}

/// The expected replies of a script that was played that were not met. The outcome has none from then on.
pub(crate) fn missed(alloc: Global, outcome: &mut Outcome) -> Result<Vec<Missed>, Fault>
    ensures missed { IfOk result (λ all. map missed_view all.items
        ≡ unmet_of outcome.old.transcript.streams.items (map replies_view outcome.old.expected.items)) }
    ensures names { outcome.new.names ≡ outcome.old.names }
    ensures transcript { outcome.new.transcript ≡ outcome.old.transcript }
{
    let expected = mem::replace(&mut outcome.expected, Vec::new(alloc));
    match unmet(alloc, &outcome.transcript, expected) {
        Ok(missed) => Ok(missed),
        Err(_) => Err(Fault::no_memory()),
    }
}

/// The exit status, by the expected replies that were not met.
fn status(missed: &[Missed]) -> u8
    ensures { result ≡ (if length missed.now == 0 then 0 else UNMET) }
{
    if missed.is_empty() { 0 } else { UNMET }
}

/// Prints the outcome of a script that was played, and the expected replies that were not met.
fn put_out<R: Print + Threads + Sync>(
    rt: &R,
    alloc: Global,
    outcome: &mut Outcome,
    missed: &[Missed],
    options: &Options,
) -> Result<(), Fault>
    requires { 0 < options.now.workers }
{
    let Ok(mut out) = BufWriter::with_capacity(alloc, BUFFER, io::writer(rt)) else {
        return Err(Fault::no_memory());
    };
    put(
        rt,
        alloc,
        outcome,
        missed,
        options.output,
        options.workers as usize,
        &mut out,
    )
    .map_err(not_put)
}

/// Plays a plan in threads, or in one order that is drawn.
fn play<R: Threads + Wait + Sync>(
    rt: &R,
    alloc: Global,
    plan: Plan<BoxedModule<Plain>>,
    seed: Option<u64>,
    workers: u32,
) -> Result<Outcome, RunFault>
    requires { IsSound (plan_view plan) }
{
    match seed {
        Some(seed) => {
            let mut order = DrawnOrder::new(seed);
            play_plan_in_order::<Plain, R, DrawnOrder>(rt, alloc, plan, &mut order)
        }
        None => play_plan::<Plain, R>(rt, alloc, plan, workers),
    }
}

/// Prints the outcome of a script that was played once, and the expected replies that were not met. Returns
/// the exit status: 3 if there are some, else 0.
pub(crate) fn print_outcome<R: Print + Threads + Sync>(
    rt: &R,
    alloc: Global,
    mut outcome: Outcome,
    options: &Options,
) -> Result<u8, Fault>
    requires { 0 < options.now.workers }
{
    let missed = missed(alloc, &mut outcome)?;
    put_out(rt, alloc, &mut outcome, missed.as_slice(), options)?;
    if options.paths.len() == 1 {
        // The program ends here. Dropping the outcome, entry by entry, would take up to a tenth of its time.
        mem::forget(outcome);
    }
    Ok(status(missed.as_slice()))
}

/// Plays a plan once, and prints its outcome, and the expected replies that were not met. Returns the exit
/// status: 3 if there are some, else 0.
fn play_plan_once<R: Print + Threads + Wait + Sync>(
    rt: &R,
    alloc: Global,
    plan: Plan<BoxedModule<Plain>>,
    seed: Option<u64>,
    options: &Options,
) -> Result<u8, Fault>
    requires sound { IsSound (plan_view plan) }
    requires workers { 0 < options.now.workers }
{
    let outcome = play(rt, alloc, plan, seed, options.workers)?;
    print_outcome(rt, alloc, outcome, options)
}

/// Plays the script at a path once, and prints its outcome, and the expected replies that were not met.
/// Returns the exit status: 3 if there are some, else 0.
fn play_once<R: Files + Input + Print + Threads + Wait + Sync>(
    rt: &R,
    alloc: Global,
    path: &str,
    seed: Option<u64>,
    options: &Options,
) -> Result<u8, Refusal>
    requires { 0 < options.now.workers }
{
    let plan = plan_at(rt, alloc, path, options.workers as usize)?;
    Ok(play_plan_once(rt, alloc, plan, seed, options)?)
}

/// Plays the script at a path as the command line asks for it, and prints the outcome. Returns the exit
/// status.
fn play_file<R: Files + Input + Print + Threads + Wait + Clock + Sync, E: Print + IsTerminal>(
    rt: &R,
    errors: &E,
    alloc: Global,
    path: &str,
    options: &Options,
) -> Result<u8, Refusal>
    requires { 0 < options.now.workers }
{
    match options.playing {
        Playing::Threads => play_once(rt, alloc, path, None, options),
        Playing::InOrder(seed) => play_once(rt, alloc, path, Some(seed), options),
        Playing::Spelt(steps) => play_spelt(rt, alloc, path, steps, options),
        Playing::Each(orders) => play_orders(rt, errors, alloc, path, orders),
    }
}

/// Plays the script at a path, and prints the outcome, or the fault for which there is none. A fault of the
/// script is explained on standard error. Returns the exit status.
fn serve_file<R: Files + Input + Print + Threads + Wait + Clock + Sync, E: Print + IsTerminal>(
    rt: &R,
    errors: &E,
    alloc: Global,
    path: &str,
    options: &Options,
) -> u8
    requires { 0 < options.now.workers }
{
    match play_file(rt, errors, alloc, path, options) {
        Ok(status) => status,
        Err(Refusal { fault, explanation }) => {
            let _ = print!(rt; "{fault}");
            if let Some(text) = explanation {
                let _ = errors.write_all(text.as_slice());
            }
            fault.status()
        }
    }
}

/// Plays the scripts that a command line names, one after another, and prints the outcome of each. Where there
/// are several, a line `file PATH` is in front of each outcome. Returns the greatest exit status.
///
/// A script that cannot be read, that is no script or that does not run keeps none of the others from being
/// played. Its fault is explained on `errors`. Refused if the command line has a fault, or if a line `file PATH`
/// cannot be printed.
pub fn serve<
    R: Files + Input + Print + Threads + Wait + Clock + AllocGlobal + Sync,
    E: Print + IsTerminal,
>(rt: &R, errors: &E, words: &[String]) -> Result<u8, Fault> {
    let alloc = rt.alloc();
    let options = Options::read(alloc, words)?;
    let mut status = 0;
    for path in &options.paths {
        if options.paths.len() > 1 && print!(rt; "file {path}\n").is_err() {
            return Err(Fault::Write);
        }
        status = status.max(serve_file(rt, errors, alloc, path, &options));
    }
    Ok(status)
}
