//! Wires, row by row: data that is written waits until it is taken from outside.
use super::Call::{
    FullAhead, HeadLen, IsOpen, LineFull, May, NoneEnabled, NothingOut, Settle, With, Write,
};
use super::Way::{Comes, Deliver, Take, TakeOut};
use super::{Call, DRV_A, DRV_B, FIVE, Pushed, Pushes, Row, Sample, TOP_A, WR_1, play_rows};
use strm_chain::Driver;
use strm_msg::End;

// Data that is written goes through the module into the wire's queue, which is full then. The next waits in
// the module, and moves when the first is taken. A high message passes both, and is taken before them. The
// five bytes behind it are not slack.
const A_MODULE_WAITS_FOR_A_TAKE: &[Call] = &[
    Write(b"aaaaa"),
    Settle(&[WR_1], 2),
    FullAhead(End::A, false),
    Write(b"bbbbb"),
    Settle(&[], 1),
    FullAhead(End::A, true),
    May(WR_1, false),
    May(DRV_A, false),
    NoneEnabled,
    With(TakeOut, Sample::Data(0, b"aaaaa")),
    Settle(&[WR_1], 2),
    FullAhead(End::A, false),
    Write(b"c"),
    Settle(&[], 1),
    With(Deliver(TOP_A), Sample::Pcproto(b"h", None)),
    Settle(&[], 0),
    With(TakeOut, Sample::Pcproto(b"h", None)),
    Settle(&[], 0),
    With(TakeOut, Sample::Data(0, b"bbbbb")),
    Settle(&[WR_1], 2),
    With(TakeOut, Sample::Data(0, b"c")),
    NothingOut,
];

// A flush of the write side empties the messages that wait for a take. A flush of the read side empties those
// that came in and the head. A flush of a band empties neither.
const FLUSHES_EMPTY_ONE_LIST_EACH: &[Call] = &[
    IsOpen(End::B, false),
    Write(b"aaaaa"),
    Settle(&[], 0),
    FullAhead(End::A, true),
    With(Deliver(TOP_A), Sample::Flush(false, true, None)),
    FullAhead(End::A, false),
    NothingOut,
    With(Comes, Sample::Data(0, b"ccccc")),
    Settle(&[DRV_B], 2),
    With(Comes, Sample::Data(0, b"ddddd")),
    Settle(&[], 1),
    LineFull(true),
    Write(b"x"),
    With(Deliver(TOP_A), Sample::Flush(true, false, None)),
    LineFull(false),
    HeadLen(End::A, 0),
    Settle(&[], 0),
    With(Comes, Sample::Data(0, b"e")),
    With(Deliver(TOP_A), Sample::Flush(true, true, Some(3))),
    Settle(&[DRV_B], 2),
    With(Take(End::A), Sample::Data(0, b"e")),
    With(TakeOut, Sample::Data(0, b"x")),
    NothingOut,
];

/// A module with a queue on its write side.
const QUEUED: Pushed = (End::A, Pushes::Pass, false, true);

const ROWS: &[Row] = &[
    Row {
        name: "a module waits for a take",
        driver: Driver::Wire,
        marks: FIVE,
        modules: &[QUEUED],
        calls: &[A_MODULE_WAITS_FOR_A_TAKE],
    },
    Row {
        name: "flushes empty one list each",
        driver: Driver::Wire,
        marks: FIVE,
        modules: &[],
        calls: &[FLUSHES_EMPTY_ONE_LIST_EACH],
    },
];

#[test]
fn each_wire_is_answered(rt: HostRuntime) {
    play_rows(&rt, rt.alloc(), ROWS);
}
