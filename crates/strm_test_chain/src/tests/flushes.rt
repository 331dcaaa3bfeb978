//! Flushes that pass modules, drivers and heads.
use super::Call::{Errs, HeadLen, Holds, May, With};
use super::Way::{Comes, Deliver, Send};
use super::{
    Call, DRV_A, FIVE, HEAD_A, Pushed, Pushes, RD_1, RD_2, Row, Sample, TOP_A, WR_1, WR_2,
    chain_of, check, play_rows, play_tables, steps,
};
use std::alloc::Global;
use std::process::Abort;
use strm_chain::{Chain, Driver, Place, Spot};
use strm_module::ModuleOf;
use strm_msg::{End, Errno};

const DOWN_2: Spot = Spot::Down { end: End::A, i: 2 };

const DOWN_3: Spot = Spot::Down { end: End::A, i: 3 };

const UP_1: Spot = Spot::Up { end: End::A, i: 1 };

const UP_2: Spot = Spot::Up { end: End::A, i: 2 };

const UP_3: Spot = Spot::Up { end: End::A, i: 3 };

/// A module of end A with a queue on both sides.
const AT_A: Pushed = (End::A, Pushes::Pass, true, true);

const TWO_AT_A: &[Pushed] = &[AT_A, AT_A];

const AT_B: Pushed = (End::B, Pushes::Pass, true, true);

/// Data of band 1.
const X: Sample = Sample::Data(1, b"x");

const ALL: [bool; 6] = [true; 6];

const NONE: [bool; 6] = [false; 6];

// The queues that still hold a message behind a FLUSHW in an end with an echo or a loop, and with a line:
// those on the way up.
const UP: [bool; 6] = [false, false, false, true, true, true];

const UP_AND_LINE: [bool; 6] = [false, false, true, true, true, true];

// The queues that still hold a message behind a FLUSHR.
const DOWN: [bool; 6] = [true, true, true, false, false, false];

const DOWN_BUT_LINE: [bool; 6] = [true, true, false, false, false, false];

// A message in each queue of an end with two modules, apart from that of the driver.
const MODULES_ARE_FILLED: &[Call] = &[
    With(Deliver(TOP_A), X),
    With(Deliver(DOWN_2), X),
    With(Deliver(UP_1), X),
    With(Deliver(UP_2), X),
    With(Deliver(HEAD_A), X),
];

// A message in each of these queues, and in that of the driver.
const FILLED: &[&[Call]] = &[
    MODULES_ARE_FILLED,
    &[With(Deliver(DOWN_3), X), Holds(End::A, 1, ALL)],
];

const LINE_IS_FILLED: &[&[Call]] = &[MODULES_ARE_FILLED, &[With(Comes, X), Holds(End::A, 1, ALL)]];

const RW: Sample = Sample::Flush(true, true, None);

const RW_OF_0: Sample = Sample::Flush(true, true, Some(0));

const RW_OF_1: Sample = Sample::Flush(true, true, Some(1));

const W: Sample = Sample::Flush(false, true, None);

const R: Sample = Sample::Flush(true, false, None);

const NEITHER: Sample = Sample::Flush(false, false, None);

/// A name, a driver, a flush that is written at end A, and the queues that still hold their message then. The
/// messages are of band 1.
type Written = (&'static str, Driver, Sample, [bool; 6]);

// A FLUSHW empties the write queues, and the queue of an echo or a loop. A FLUSHR empties the read queues on
// its way down, and the queue of a line, and is sent up, where it empties the head's queue. A flush of
// another band empties none.
const WRITTEN: &[Written] = &[
    ("an echo is flushed", Driver::Echo, RW, NONE),
    ("band 1 of an echo", Driver::Echo, RW_OF_1, NONE),
    ("band 0 of an echo", Driver::Echo, RW_OF_0, ALL),
    ("the write side of an echo", Driver::Echo, W, UP),
    ("the read side of an echo", Driver::Echo, R, DOWN),
    ("neither side of an echo", Driver::Echo, NEITHER, ALL),
    ("a loop is flushed", Driver::Loop, RW, NONE),
    ("band 1 of a loop", Driver::Loop, RW_OF_1, NONE),
    ("band 0 of a loop", Driver::Loop, RW_OF_0, ALL),
    ("the write side of a loop", Driver::Loop, W, UP),
    ("the read side of a loop", Driver::Loop, R, DOWN),
    ("neither side of a loop", Driver::Loop, NEITHER, ALL),
    ("a line is flushed", Driver::Line, RW, NONE),
    ("band 1 of a line", Driver::Line, RW_OF_1, NONE),
    ("band 0 of a line", Driver::Line, RW_OF_0, ALL),
    ("the write side of a line", Driver::Line, W, UP_AND_LINE),
    ("the read side of a line", Driver::Line, R, DOWN_BUT_LINE),
    ("neither side of a line", Driver::Line, NEITHER, ALL),
];

/// Checks the flush that is written at an end whose queues all hold a message.
fn is_left(rt: &impl Abort, alloc: Global, (name, driver, flush, left): Written) {
    let mut chain = chain_of(rt, alloc, (driver, FIVE), TWO_AT_A);
    play_tables(rt, &mut chain, filling(driver), name);
    check(rt, (name, 0), leaves(rt, &mut chain, flush, left));
}

/// The calls that fill each queue of an end with two modules over a driver.
fn filling(driver: Driver) -> &'static [&'static [Call]] {
    match driver {
        Driver::Line | Driver::Wire => LINE_IS_FILLED,
        _ => FILLED,
    }
}

/// Whether these queues still hold their message once a flush is written at end A.
fn leaves<M: ModuleOf>(
    rt: &impl Abort,
    chain: &mut Chain<M>,
    flush: Sample,
    left: [bool; 6],
) -> bool {
    let is_written = steps::acts(rt, chain, With(Send(End::A), flush));
    is_written && steps::acts(rt, chain, Holds(End::A, 1, left))
}

#[test]
fn what_a_flush_leaves_is_by_its_driver(rt: HostRuntime) {
    for row in WRITTEN {
        is_left(&rt, rt.alloc(), *row);
    }
}

/// Data of band 0.
const Y: Sample = Sample::Data(0, b"x");

const BOTH_ENDS_ARE_FILLED: &[Call] = &[
    With(Deliver(TOP_A), Y),
    With(Deliver(DOWN_2), Y),
    With(Deliver(UP_1), Y),
    With(Deliver(UP_2), Y),
    With(Deliver(HEAD_A), Y),
    With(Deliver(DOWN_3), Y),
    With(Deliver(Spot::Down { end: End::B, i: 1 }), Y),
    With(Deliver(Spot::Down { end: End::B, i: 2 }), Y),
    With(Deliver(Spot::Up { end: End::B, i: 1 }), Y),
    With(Deliver(Spot::Up { end: End::B, i: 2 }), Y),
    With(Deliver(Spot::Up { end: End::B, i: 0 }), Y),
    With(Deliver(Spot::Down { end: End::B, i: 3 }), Y),
];

const END_B_IS_FLUSHED: &[Call] = &[
    With(Send(End::B), RW),
    Holds(End::A, 1, ALL),
    Holds(End::B, 1, NONE),
];

/// Data of band 3.
const Z: Sample = Sample::Data(3, b"x");

// A message in each queue below a module without queues, which is the first.
const LINE_IS_FILLED_BELOW: &[Call] = &[
    With(Deliver(DOWN_2), Z),
    With(Deliver(DOWN_3), Z),
    With(Deliver(UP_2), Z),
    With(Deliver(UP_3), Z),
    With(Deliver(HEAD_A), Z),
    With(Comes, Z),
    Holds(End::A, 2, ALL),
];

const ERRORS_COME: &[Call] = &[
    With(Deliver(UP_3), Sample::Error(Errno::EPROTO)),
    Errs(End::A, Some(Errno::EPROTO), Some(Errno::EPROTO)),
    May(WR_1, false),
    May(RD_1, false),
    May(WR_2, false),
    May(RD_2, false),
    May(Place::Wr { end: End::A, i: 3 }, false),
    May(Place::Rd { end: End::A, i: 3 }, false),
    May(DRV_A, false),
    HeadLen(End::A, 0),
    With(Deliver(UP_3), Sample::Error(Errno::EIO)),
    Errs(End::A, Some(Errno::EIO), Some(Errno::EIO)),
];

const ROWS: &[Row] = &[
    // The far end of a loop keeps its messages: the driver's answer goes up the end that it came down.
    Row {
        name: "a flush stays on its end",
        driver: Driver::Loop,
        marks: FIVE,
        modules: &[AT_A, AT_A, AT_B, AT_B],
        calls: &[BOTH_ENDS_ARE_FILLED, END_B_IS_FLUSHED],
    },
    // The head keeps the error and flushes all queues. Its flush goes down past the modules to the line,
    // whose queue it empties, and comes back up to empty the head's queue.
    Row {
        name: "an error flushes all",
        driver: Driver::Line,
        marks: FIVE,
        modules: &[AT_A, AT_A, (End::A, Pushes::Mute, false, false)],
        calls: &[LINE_IS_FILLED_BELOW, ERRORS_COME],
    },
];

#[test]
fn each_row_is_answered(rt: HostRuntime) {
    play_rows(&rt, rt.alloc(), ROWS);
}
