//! A protocol on running streams. Data is numbered on its way down, and judged by its number on its way up.
//!
//! The module is a discipline of a program's own. It has an ioctl, and a queue whose service numbers the
//! data. The reply of the call that takes it out has the number of messages that were lost.
//!
//! The program plays it on a line, call by call. Then it plays a script of two callers on a loop with a feed
//! at the same time, and prints the faults of two other scripts. Last, a caller shows by its receipts that
//! its calls are in a stream's history.
#![tactic(auto)]

mod kinds;
mod laws;
mod playing;
mod saying;
mod showing;
mod words;

use playing::{play_calls, play_script, say_faults};
use showing::show_receipts;
use std::process::ExitCode;

fn main(rt: HostRuntime) -> ExitCode {
    let alloc = rt.alloc();
    if play_calls(&rt, alloc).is_some()
        && play_script(&rt, alloc).is_some()
        && say_faults(&rt, alloc).is_some()
        && show_receipts(&rt, alloc).is_some()
    {
        ExitCode::from(0)
    } else {
        ExitCode::from(1)
    }
}
