//! The acknowledged link at both ends of a bad line.
//!
//! The program plays a short exchange in which the line doubles a frame and loses one, and draws its chart.
//! Then it plays a longer one in a thousand orders of its calls, with messages both ways over links that lose,
//! double and delay frames. It exits with status 1 if a message was not read in its place.
#![tactic(auto)]

mod exchange;
mod orders;
mod reading;

use exchange::draw_exchange;
use orders::play_orders;
use std::process::ExitCode;

fn main(rt: HostRuntime) -> ExitCode {
    let alloc = rt.alloc();
    if draw_exchange(&rt, alloc).is_some() && play_orders(&rt, alloc).is_some() {
        ExitCode::from(0)
    } else {
        ExitCode::from(1)
    }
}
