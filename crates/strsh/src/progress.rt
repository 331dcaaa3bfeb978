//! The line on a terminal that says how many orders were played.
ghost use Rattle.std.specs.Prelude.{Some};
ghost use Rattle.strsh.specs.Progress.{played_text};

use std::fmt;
use std::io::IsTerminal;
use std::rt::Clock;
use std::time::{Duration, Instant};

/// How many milliseconds nothing is shown.
const FIRST: u64 = 1_000;

/// How many milliseconds a line is shown before the next one.
const PAUSE: u64 = 200;

/// What hides the longest line, and goes back to its beginning.
const BLANKS: &[u8] = b"\r                                        \r";

/// How many of some orders were played. It is printed over the line before: `strsh: P of N orders`.
#[derive(Clone, Copy)]
struct Played {
    played: u64,
    many: u64,
}

impl fmt::Display for Played {
    ghost output = { λ orders. Some (played_text orders.played orders.many) };

    fn fmt<W: fmt::Write>(&self, f: &mut fmt::Formatter<W>) -> fmt::Result {
        write!(f, "\rstrsh: {} of {} orders", self.played, self.many)
    }
}

/// The time that many milliseconds from now on, if the clock can be read.
fn time_in<R: Clock>(rt: &R, pause: u64) -> Option<Instant> {
    let Ok(now) = Instant::now(rt) else {
        return None;
    };
    now.checked_add(Duration::from_millis(pause))
}

/// A line that says how many of some orders were played. It is shown where standard error is a terminal, once
/// they take more than a second, and then again five times a second.
#[derive(Drop)]
pub(crate) struct Progress<'a, E> {
    errors: &'a E,
    many: u64,
    due: Option<Instant>,
    is_shown: bool,
}

impl<'a, E: Print + IsTerminal> Progress<'a, E> {
    /// The line of that many orders. Nothing is shown yet.
    pub(crate) fn new<R: Clock>(rt: &R, errors: &'a E, many: u64) -> Progress<'a, E> {
        let due = if errors.is_terminal() {
            time_in(rt, FIRST)
        } else {
            None
        };
        Progress {
            errors,
            many,
            due,
            is_shown: false,
        }
    }

    /// Shows how many orders were played, if it is time. Nothing else changes where it cannot be shown.
    pub(crate) fn show<R: Clock>(&mut self, rt: &R, played: u64) {
        let Some(due) = self.due else {
            return;
        };
        let Ok(now) = Instant::now(rt) else {
            return;
        };
        if now < due {
            return;
        }
        let line = Played {
            played,
            many: self.many,
        };
        let _ = print!(self.errors; "{line}");
        self.due = now.checked_add(Duration::from_millis(PAUSE));
        self.is_shown = true;
    }

    /// Takes the line away.
    pub(crate) fn erase(self) {
        if self.is_shown {
            let _ = self.errors.write_all(BLANKS);
        }
    }
}
