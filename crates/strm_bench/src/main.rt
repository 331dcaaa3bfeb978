//! The cost of queues, calls and scripts.
//!
//! Without a word the program prints the number of messages that it puts through queues, rings and streams,
//! and with `--time` also the time that this takes. `script FILE WORKERS` prints the time that the script of
//! a file takes. `moves FILE` prints the number of queues that moved after each of its calls, and of places
//! at which service looked. `retry FILE OFFERS` makes its calls one after another, and repeats those for
//! which memory ran out. `echo` plays a discipline that answers data that is typed. `drain TIMES CALLS`
//! makes CALLS calls on a stream, TIMES times, and takes its history behind each time.
#![tactic(auto)]

mod echo;
mod feed;
mod history;
mod queue;
mod retry;
mod script;
mod service;

use std::env;
use std::rt::{Clock, Files};
use std::sync::Wait;
use std::thread::Threads;

/// The usage of the program.
const USAGE: &str =
    "strm_bench [--time | script FILE WORKERS | moves FILE | retry FILE OFFERS | echo | drain TIMES CALLS]";

/// A word of the command line.
fn word(words: &[String], i: usize) -> &str {
    match words.get(i) {
        Some(word) => word.as_str(),
        None => "",
    }
}

/// Makes the measurements that the words of the command line name.
fn measure<R: Files + Print + Clock + Threads + Wait + AllocGlobal + Sync>(
    rt: &R,
    words: &[String],
) -> anyhow::Result<()> {
    let many = words.len();
    let first = word(words, 1);
    let is_timed = first == "--time" && many == 2;
    if first == "script" && many == 4 {
        return script::measure(rt, word(words, 2), word(words, 3).parse::<u32>()?);
    }
    if first == "moves" && many == 3 {
        return script::moves(rt, word(words, 2));
    }
    if first == "retry" && many == 4 {
        return retry::play(rt, word(words, 2), word(words, 3));
    }
    if first == "echo" && many == 2 {
        return echo::play(rt);
    }
    if first == "drain" && many == 4 {
        let times = word(words, 2).parse::<u64>()?;
        return history::drain(rt, times, word(words, 3).parse::<u64>()?);
    }
    if is_timed || many == 1 {
        queue::measure(rt, is_timed)?;
        feed::measure(rt, is_timed)?;
        service::measure(rt, is_timed)?;
        return history::measure(rt, is_timed);
    }
    println!(rt; "{USAGE}")?;
    Ok(())
}

fn main(rt: HostRuntime) -> anyhow::Result<()> {
    let words: Vec<String> = env::args(&rt)?.collect(rt.alloc())?;
    measure(&rt, words.as_slice())
}
