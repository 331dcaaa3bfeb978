//! The places that are enabled, and the number of looks of service. A place that may move is looked at before
//! its move, is enabled again behind the others, and is looked at once more.
use super::Call::{Count, Enabled, HeadHeld, HeadLen, May, NoneEnabled, Read, Settle, With, Write};
use super::Way::{Deliver, Take};
use super::{
    Call, DRV_A, DRV_B, FIVE, Pushed, Pushes, RD_1, RD_2, Row, Sample, TOP_A, WR_1, WR_2, play_rows,
};
use strm_chain::{Driver, Spot};
use strm_msg::End;

/// The spot to which a message comes first that is written at end B of a loop without modules there.
const TOP_B: Spot = Spot::Down { end: End::B, i: 1 };

/// The marks of an echo whose head and driver are full at 6 bytes and slack at 2.
const SIX_AND_TWO: (u32, u32) = (6, 2);

// The message that comes to the driver enables its place. The first look finds that it may move, and the
// second that it is empty. All that is enabled was looked at then, so nothing more is.
const ONE_MESSAGE: &[Call] = &[
    NoneEnabled,
    Write(b"x"),
    Enabled(DRV_A, true),
    Settle(&[DRV_A], 2),
    Enabled(DRV_A, false),
    NoneEnabled,
    HeadLen(End::A, 1),
    Settle(&[], 0),
];

// The head holds 5 bytes, and is full. One look finds that, and the place is not enabled any more, so the
// next service looks at nothing. A message that is put behind enables the place again, for one more look in
// vain. Taking the 5 bytes enables it too: it is looked at before each of two moves and when it is empty.
const BLOCKED: &[Call] = &[
    Write(b"aaaaa"),
    Settle(&[DRV_A], 2),
    Write(b"b"),
    Enabled(DRV_A, true),
    Settle(&[], 1),
    NoneEnabled,
    Settle(&[], 0),
    Write(b"c"),
    Enabled(DRV_A, true),
    Settle(&[], 1),
    Settle(&[], 0),
    Read(b"aaaaa"),
    Enabled(DRV_A, true),
    Settle(&[DRV_A, DRV_A], 3),
    NoneEnabled,
];

/// A module without queues.
const NO_QUEUE: Pushed = (End::A, Pushes::Pass, false, false);

/// A module with a queue on both sides.
const TWO_QUEUES: Pushed = (End::A, Pushes::Pass, true, true);

// Every queue is full at 6 bytes and slack at 2. Three messages of 2 bytes move, and fill the head. The
// fourth waits. When one is taken, the head holds 4 bytes. It is not full, so the place may move; but it is
// not slack, so the place need not move, and nothing is enabled. When another is taken, the head holds 2
// bytes. That enables the place, which moves, and is found empty.
const BETWEEN_THE_MARKS: &[Call] = &[
    Write(b"aa"),
    Write(b"bb"),
    Write(b"cc"),
    Settle(&[DRV_A, DRV_A, DRV_A], 4),
    HeadHeld(End::A, 6),
    Write(b"dd"),
    Settle(&[], 1),
    Read(b"aa"),
    HeadHeld(End::A, 4),
    May(DRV_A, true),
    Enabled(DRV_A, false),
    Settle(&[], 0),
    Read(b"bb"),
    HeadHeld(End::A, 2),
    Enabled(DRV_A, true),
    Settle(&[DRV_A], 2),
    HeadHeld(End::A, 4),
    NoneEnabled,
    Settle(&[], 0),
];

// A message that is put between the marks still enables the place. The place waits for the low mark, and may
// move since the head is not full. So dd moves and fills the head, and e, which came after it, waits.
const PUT_BETWEEN_THE_MARKS: &[Call] = &[
    Write(b"aa"),
    Write(b"bb"),
    Write(b"cc"),
    Settle(&[DRV_A, DRV_A, DRV_A], 4),
    Write(b"dd"),
    Settle(&[], 1),
    Read(b"aa"),
    Enabled(DRV_A, false),
    Write(b"e"),
    Enabled(DRV_A, true),
    Settle(&[DRV_A], 2),
    HeadHeld(End::A, 6),
    NoneEnabled,
];

// Data that is written at an end waits in the driver place of that end for the head of the other end. Each
// place moves once, and each is found empty. Then both heads are full, and each place is looked at once, in
// vain.
const BOTH_ENDS: &[Call] = &[
    Write(b"aaaaa"),
    With(Deliver(TOP_B), Sample::Data(0, b"bbbbb")),
    Enabled(DRV_A, true),
    Enabled(DRV_B, true),
    Settle(&[DRV_A, DRV_B], 4),
    HeadHeld(End::A, 5),
    HeadHeld(End::B, 5),
    Write(b"c"),
    With(Deliver(TOP_B), Sample::Data(0, b"d")),
    Settle(&[], 2),
    NoneEnabled,
    Settle(&[], 0),
];

// Taking at end A enables the place of the data that was written at end B, and nothing else.
const TAKEN_AT_A: &[Call] = &[
    Read(b"bbbbb"),
    Enabled(DRV_A, false),
    Enabled(DRV_B, true),
    Settle(&[DRV_B], 2),
    HeadHeld(End::A, 1),
    NoneEnabled,
];

const TAKEN_AT_B: &[Call] = &[
    With(Take(End::B), Sample::Data(0, b"aaaaa")),
    Enabled(DRV_A, true),
    Enabled(DRV_B, false),
    Settle(&[DRV_A], 2),
    HeadHeld(End::B, 1),
    NoneEnabled,
];

// Two modules with queues on both sides, and the driver between: five places and the head, each of which one
// message fills. Each of the six messages is put when those before it are at rest. When the head's message is
// taken, the places move one after the other, from the head on down. Each is looked at before its move and
// when it is empty. Four of the messages that moved, all but the one that came to the head, are looked at in
// their new places, and are blocked. In the end the topmost place is empty.
const FULL_TO_THE_TOP: &[Call] = &[
    Write(b"aaaaa"),
    Settle(&[WR_1, WR_2, DRV_A, RD_2, RD_1], 10),
    Write(b"bbbbb"),
    Settle(&[WR_1, WR_2, DRV_A, RD_2], 9),
    Write(b"ccccc"),
    Settle(&[WR_1, WR_2, DRV_A], 7),
    Write(b"ddddd"),
    Settle(&[WR_1, WR_2], 5),
    Write(b"eeeee"),
    Settle(&[WR_1], 3),
    Write(b"fffff"),
    Settle(&[], 1),
    NoneEnabled,
    Read(b"aaaaa"),
    Enabled(RD_1, true),
    Settle(&[RD_1, RD_2, DRV_A, WR_2, WR_1], 14),
    NoneEnabled,
    May(WR_1, false),
    Write(b"ggggg"),
    Settle(&[], 1),
    NoneEnabled,
];

// A high message goes up past the messages that wait, and enables nothing: it fills band 0 of the head by a
// byte.
const HIGH_ENABLES_NOTHING: &[Call] = &[
    Write(b"aaaaa"),
    Settle(&[DRV_A], 2),
    Write(b"b"),
    Settle(&[], 1),
    With(Deliver(TOP_A), Sample::Pcproto(b"h", None)),
    NoneEnabled,
];

// The head holds 6 bytes. Taking h leaves 5, which is full, and enables nothing.
const HIGH_IS_TAKEN: &[Call] = &[
    With(Take(End::A), Sample::Pcproto(b"h", None)),
    NoneEnabled,
    Read(b"aaaaa"),
    Settle(&[DRV_A], 2),
];

const LOOKS: &[Row] = &[
    Row {
        name: "a message is looked at twice",
        driver: Driver::Echo,
        marks: FIVE,
        modules: &[],
        calls: &[ONE_MESSAGE],
    },
    // Modules without queues have no place. So the looks are as many with eight of them as with none, also if
    // a message is blocked.
    Row {
        name: "modules without queues cost no look",
        driver: Driver::Echo,
        marks: FIVE,
        modules: &[
            NO_QUEUE, NO_QUEUE, NO_QUEUE, NO_QUEUE, NO_QUEUE, NO_QUEUE, NO_QUEUE, NO_QUEUE,
        ],
        calls: &[&[Count(End::A, 8)], ONE_MESSAGE, &[Read(b"x")], BLOCKED],
    },
    Row {
        name: "a blocked place is looked at once",
        driver: Driver::Echo,
        marks: FIVE,
        modules: &[],
        calls: &[BLOCKED],
    },
];

#[test]
fn a_place_is_looked_at_twice_or_once_in_vain(rt: HostRuntime) {
    play_rows(&rt, rt.alloc(), LOOKS);
}

const MARKS: &[Row] = &[
    Row {
        name: "a place is enabled at the low mark",
        driver: Driver::Echo,
        marks: SIX_AND_TWO,
        modules: &[],
        calls: &[BETWEEN_THE_MARKS],
    },
    Row {
        name: "what is put is looked at between the marks",
        driver: Driver::Echo,
        marks: SIX_AND_TWO,
        modules: &[],
        calls: &[PUT_BETWEEN_THE_MARKS],
    },
    Row {
        name: "a high message enables no place",
        driver: Driver::Echo,
        marks: FIVE,
        modules: &[],
        calls: &[HIGH_ENABLES_NOTHING, HIGH_IS_TAKEN],
    },
];

#[test]
fn a_place_is_enabled_at_the_low_mark(rt: HostRuntime) {
    play_rows(&rt, rt.alloc(), MARKS);
}

const PLACES: &[Row] = &[
    Row {
        name: "each end of a loop waits for the other",
        driver: Driver::Loop,
        marks: FIVE,
        modules: &[],
        calls: &[BOTH_ENDS, TAKEN_AT_A, TAKEN_AT_B],
    },
    Row {
        name: "a take moves each place that waits",
        driver: Driver::Echo,
        marks: FIVE,
        modules: &[TWO_QUEUES, TWO_QUEUES],
        calls: &[FULL_TO_THE_TOP],
    },
];

#[test]
fn a_take_enables_what_waits_for_it(rt: HostRuntime) {
    play_rows(&rt, rt.alloc(), PLACES);
}
