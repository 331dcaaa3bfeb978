//! `strsh` plays a script of calls on streams, and prints the outcome of each stream. Where a script has a
//! fault, standard error shows its line, with a mark under the field and what was wanted there.
//!
//! It exits with one of these statuses:
//!
//! - 0 if the transcript was printed, or help or the version was asked for;
//! - 1 if the run or the printing failed;
//! - 2 if the command line or the script has a fault;
//! - 3 if the transcript was printed, and a reply that the script expects was not met.
#![tactic(auto)]

mod lanes;
mod orders;
mod playing;
mod progress;
mod refusal;
mod spelt;

use playing::serve;
use std::env;
use std::process::ExitCode;
use std::rt::Env;
use strsh_options::Fault;

/// The words of the command line. The first is the program's name.
fn words<R: Env + AllocGlobal>(rt: &R) -> Result<Vec<String>, Fault> {
    Ok(env::args(rt)?.collect(rt.alloc())?)
}

fn main(rt: HostRuntime) -> ExitCode {
    let status = match words(&rt).and_then(|words| serve(&rt, &rt.stderr(), words.as_slice())) {
        Ok(status) => status,
        Err(fault) => {
            let _ = print!(rt; "{fault}");
            fault.status()
        }
    };
    ExitCode::from(status)
}
