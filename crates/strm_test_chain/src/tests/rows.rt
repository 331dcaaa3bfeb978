//! Messages through chains, row by row.
use super::Call::{
    FullAhead, HasSpot, HeadHeld, HeadLen, IsOpen, LineFull, May, NoneEnabled, Read, Settle, With,
    Write,
};
use super::Way::{Comes, Deliver, PutBack, Send, Take};
use super::{
    Call, DRV_A, FIVE, HEAD_A, Pushed, Pushes, RD_1, Row, Sample, TOP_A, WR_1, WR_2, play_rows,
};
use strm_chain::{Driver, Place, Spot};
use strm_msg::End;

// Messages that came in wait in the line's queue while the head holds its 5 bytes. A message that is put back
// comes before those of its rank.
const LINE_TAKES_WHAT_COMES_IN: &[Call] = &[
    With(Comes, Sample::Data(0, b"aaaaa")),
    Settle(&[DRV_A], 2),
    With(Comes, Sample::Data(0, b"bbbbb")),
    Settle(&[], 1),
    LineFull(true),
    Read(b"aaaaa"),
    Settle(&[DRV_A], 2),
    LineFull(false),
    With(PutBack, Sample::Data(0, b"z")),
    Read(b"z"),
    Read(b"bbbbb"),
];

// The copies go up to the head at once, which takes them though it is full. The messages wait in the module
// below. One fits the driver, and moves on once the head is read empty.
//
// The module's place moves, and is looked at again and finds the driver full. The driver's place finds the
// head full: 3 looks. A head that still holds 5 bytes enables nothing: 0 looks. When it is empty, the
// driver's place moves and is found empty. The module's, which waited for it, does the same, and the driver's
// finds the head full again: 5 looks.
const TEE_STANDS_OVER_A_BLOCKED_MODULE: &[Call] = &[
    Write(b"aaaaa"),
    FullAhead(End::A, true),
    Write(b"bbbbb"),
    HeadHeld(End::A, 10),
    Settle(&[WR_2], 3),
    NoneEnabled,
    Read(b"aaaaa"),
    NoneEnabled,
    Settle(&[], 0),
    Read(b"bbbbb"),
    Settle(&[DRV_A, WR_2], 5),
    FullAhead(End::A, false),
    Read(b"aaaaa"),
    Settle(&[DRV_A], 2),
    Read(b"bbbbb"),
];

// An echo has no end B: there is no spot on it, and no place of it moves.
const ECHO_LACKS_THE_FAR_END: &[Call] = &[
    IsOpen(End::A, true),
    IsOpen(End::B, false),
    HasSpot(Spot::Down { end: End::B, i: 1 }, false),
    May(Place::Drv { end: End::B }, false),
    May(Place::Wr { end: End::B, i: 1 }, false),
    May(Place::Rd { end: End::A, i: 0 }, false),
    Settle(&[], 0),
    FullAhead(End::B, false),
];

// A message of a band that is not full passes a head that is full in another band, and high messages are not
// held back. The head keeps the first of two high ones.
//
// The driver's place is looked at before u moves, and then finds the head full in the band of b.
const BANDS_ARE_HELD_BACK_BY_THEMSELVES: &[Call] = &[
    Write(b"aaaaa"),
    Settle(&[DRV_A], 2),
    Write(b"b"),
    With(Deliver(TOP_A), Sample::Data(5, b"u")),
    Settle(&[DRV_A], 2),
    With(Take(End::A), Sample::Data(5, b"u")),
    With(Deliver(TOP_A), Sample::Pcproto(b"h", None)),
    With(Deliver(TOP_A), Sample::Pcproto(b"i", None)),
    With(Take(End::A), Sample::Pcproto(b"h", None)),
    Read(b"aaaaa"),
    HeadLen(End::A, 0),
];

// The head is full, and the module holds the second message on its read side and the third on its write side.
// A high message from below is taken into the full head. One that is written passes all messages that wait.
//
// Each of three places is looked at before its move and when it is empty. The second time the last of them is
// looked at once, and finds the head full.
const HIGH_MESSAGES_PASS_WHAT_IS_BLOCKED: &[Call] = &[
    Write(b"aaaaa"),
    Settle(&[WR_1, DRV_A, RD_1], 6),
    HeadHeld(End::A, 5),
    Write(b"bbbbb"),
    Settle(&[WR_1, DRV_A], 5),
    May(RD_1, false),
    With(Deliver(HEAD_A), Sample::Pcproto(b"h", None)),
    HeadLen(End::A, 2),
    With(Take(End::A), Sample::Pcproto(b"h", None)),
    Write(b"c"),
    With(Deliver(TOP_A), Sample::Pcproto(b"i", None)),
    HeadLen(End::A, 2),
    With(Take(End::A), Sample::Pcproto(b"i", None)),
    May(RD_1, false),
    Read(b"aaaaa"),
    HeadLen(End::A, 0),
];

// A message for the topmost of two modules goes to `Spot::top`, and waits in that module.
const TOP_IS_THE_SPOT_OF_THE_TOPMOST: &[Call] = &[
    With(Send(End::A), Sample::Data(0, b"x")),
    Write(b"x"),
    May(WR_1, true),
    May(WR_2, false),
    May(DRV_A, false),
];

/// A module with a queue on its write side.
const QUEUED: Pushed = (End::A, Pushes::Pass, false, true);

const ROWS: &[Row] = &[
    Row {
        name: "a line takes what comes in",
        driver: Driver::Line,
        marks: FIVE,
        modules: &[],
        calls: &[LINE_TAKES_WHAT_COMES_IN],
    },
    Row {
        name: "a tee stands over a blocked module",
        driver: Driver::Echo,
        marks: FIVE,
        modules: &[QUEUED, (End::A, Pushes::Tee, false, false)],
        calls: &[TEE_STANDS_OVER_A_BLOCKED_MODULE],
    },
    Row {
        name: "an echo lacks the far end",
        driver: Driver::Echo,
        marks: FIVE,
        modules: &[],
        calls: &[ECHO_LACKS_THE_FAR_END],
    },
    Row {
        name: "bands are held back by themselves",
        driver: Driver::Echo,
        marks: FIVE,
        modules: &[],
        calls: &[BANDS_ARE_HELD_BACK_BY_THEMSELVES],
    },
    Row {
        name: "high messages pass what is blocked",
        driver: Driver::Echo,
        marks: FIVE,
        modules: &[(End::A, Pushes::Pass, true, true)],
        calls: &[HIGH_MESSAGES_PASS_WHAT_IS_BLOCKED],
    },
    Row {
        name: "top is the spot of the topmost",
        driver: Driver::Echo,
        marks: FIVE,
        modules: &[QUEUED, QUEUED],
        calls: &[TOP_IS_THE_SPOT_OF_THE_TOPMOST],
    },
];

#[test]
fn each_row_is_answered(rt: HostRuntime) {
    play_rows(&rt, rt.alloc(), ROWS);
}
