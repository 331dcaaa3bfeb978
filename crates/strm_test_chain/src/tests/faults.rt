//! Out of memory in the answers of modules, and broken chains.
use super::Call::{
    BreakOff, Count, HeadLen, Ids, IsBroken, IsDriver, IsOpen, May, Serial, ServeFails, Settle,
    SettleFails, With, Write,
};
use super::Way::Fails;
use super::objects::Ask::{Counted, Dismantle, Do, Push};
use super::objects::{Ask, NO_QUEUE, Object, Story, tell_stories};
use super::{Call, DRV_A, FIVE, Pushes, Row, Sample, TOP_A, WR_1, play_rows};
use strm_chain::ChainFault::{Broken, NoMem};
use strm_chain::Driver;
use strm_msg::End;

const X: Sample = Sample::Data(0, b"x");

/// An object that refuses its first put, and counts in its shape.
const REFUSES_1: Object = Object {
    pushes: Pushes::Count,
    queues: (false, false),
    refuses: (1, 0),
};

/// An object that refuses its second put.
const REFUSES_2: Object = Object {
    pushes: Pushes::Count,
    queues: (false, false),
    refuses: (2, 0),
};

/// An object with a queue on its way down, which refuses its first service.
const REFUSES_SERVICE: Object = Object {
    pushes: Pushes::Count,
    queues: (false, true),
    refuses: (0, 1),
};

// Steps that a broken chain refuses, each without asking an object.
const PUT: Ask = Do(With(Fails(TOP_A, Broken), X));

const SETTLE: Ask = Do(SettleFails(Broken));

const PUT_HIGH: Ask = Do(With(Fails(TOP_A, Broken), Sample::Pcproto(b"h", None)));

// The first put is refused before anything is changed, and the object is asked again. The driver's place is
// looked at twice, before its move and when it is empty.
const NOTHING_IS_CHANGED: &[(Ask, u64)] = &[
    (Push(End::A, 1, 1, REFUSES_1), 0),
    (Do(With(Fails(TOP_A, NoMem), X)), 1),
    (Do(May(DRV_A, false)), 1),
    (Do(HeadLen(End::A, 0)), 1),
    (Do(IsBroken(false)), 1),
    (Counted(0), 1),
    (Do(Write(b"x")), 11),
    (Do(Settle(&[DRV_A], 2)), 111),
    (Do(HeadLen(End::A, 1)), 111),
    (Counted(1), 111),
];

// The second put comes when the driver's message was taken from its queue: the chain breaks. Its modules are
// still taken out.
const PUT_AFTER_A_CHANGE: &[(Ask, u64)] = &[
    (Push(End::A, 1, 1, REFUSES_2), 0),
    (Do(Write(b"x")), 1),
    (SETTLE, 11),
    (Do(IsBroken(true)), 11),
    (PUT, 11),
    (SETTLE, 11),
    (PUT_HIGH, 11),
    (Do(Count(End::A, 1)), 11),
    (Dismantle(End::A, &[(1, 117)]), 117),
    (Do(IsBroken(true)), 117),
];

// The message goes past the topmost module and is refused by the one below.
const SECOND_PUT: &[(Ask, u64)] = &[
    (Push(End::A, 1, 1, REFUSES_1), 0),
    (Push(End::A, 2, 2, NO_QUEUE), 0),
    (PUT, 21),
    (Do(IsBroken(true)), 21),
    (PUT, 21),
    (SETTLE, 21),
    (PUT_HIGH, 21),
];

// A service is refused when its message was already taken from its queue.
const SERVICE: &[(Ask, u64)] = &[
    (Push(End::A, 1, 1, REFUSES_SERVICE), 0),
    (Do(Write(b"x")), 1),
    (Do(ServeFails(WR_1, Broken)), 14),
    (Do(IsBroken(true)), 14),
    (Counted(0), 14),
    (PUT, 14),
    (SETTLE, 14),
    (PUT_HIGH, 14),
];

const SERVICE_BY_SETTLING: &[(Ask, u64)] = &[
    (Push(End::A, 1, 1, REFUSES_SERVICE), 0),
    (Do(Write(b"x")), 1),
    (SETTLE, 14),
    (Do(IsBroken(true)), 14),
    (Counted(0), 14),
    (PUT, 14),
    (SETTLE, 14),
    (PUT_HIGH, 14),
];

const STORIES: &[Story<'static>] = &[
    Story {
        name: "nothing is changed",
        driver: Driver::Echo,
        asks: NOTHING_IS_CHANGED,
        end: None,
    },
    Story {
        name: "a put after a change breaks the chain",
        driver: Driver::Echo,
        asks: PUT_AFTER_A_CHANGE,
        end: None,
    },
    Story {
        name: "a second put breaks the chain",
        driver: Driver::Echo,
        asks: SECOND_PUT,
        end: None,
    },
    Story {
        name: "a service breaks the chain",
        driver: Driver::Echo,
        asks: SERVICE,
        end: None,
    },
    Story {
        name: "a service of settling breaks the chain",
        driver: Driver::Echo,
        asks: SERVICE_BY_SETTLING,
        end: None,
    },
];

const BROKEN_OFF: &[Call] = &[
    Write(b"x"),
    May(WR_1, true),
    IsBroken(false),
    BreakOff,
    IsBroken(true),
    With(Fails(TOP_A, Broken), X),
    SettleFails(Broken),
    With(Fails(TOP_A, Broken), Sample::Pcproto(b"h", None)),
    ServeFails(WR_1, Broken),
    May(WR_1, true),
    IsDriver(Driver::Loop),
    IsOpen(End::A, true),
    Count(End::A, 1),
    Ids(End::A, Some(1), None),
    HeadLen(End::A, 0),
    IsOpen(End::B, true),
    Count(End::B, 0),
    Ids(End::B, Some(1), None),
    HeadLen(End::B, 0),
    Serial(1, Some(1)),
];

const ROWS: &[Row] = &[
    // A chain that its owner breaks neither delivers nor serves, and still shows its contents.
    Row {
        name: "a chain that is broken off shows what it has",
        driver: Driver::Loop,
        marks: FIVE,
        modules: &[(End::A, Pushes::Pass, false, true)],
        calls: &[BROKEN_OFF],
    },
];

#[test]
fn each_row_is_answered(rt: HostRuntime) {
    play_rows(&rt, rt.alloc(), ROWS);
}

#[test]
fn each_story_goes_as_told(rt: HostRuntime) {
    tell_stories(&rt, rt.alloc(), STORIES);
}
