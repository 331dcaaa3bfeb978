//! Boxed modules are handed in and come back. None is lost, and none is dropped twice.
use super::Call::{
    Enabled, FullAhead, HasRoom, HeadHeld, HeadLen, Hung, IsOpen, May, Read, Serial, Serve, Settle,
    With, Write,
};
use super::Way::Deliver;
use super::objects::Ask::{Dismantle, Do, Push, Refused, Remove};
use super::objects::{Ask, Object, Story, tell_stories};
use super::{Call, DRV_A, HEAD_A, Pushes, Sample, WR_1};
use strm_chain::Driver;
use strm_msg::End;

/// An object that passes everything on, with a queue on its way down.
const PASS: Object = Object {
    pushes: Pushes::Pass,
    queues: (false, true),
    refuses: (0, 0),
};

// The topmost of two modules is removed and dropped. The other comes back from a dismantled end.
const TAKEN_OUT: &[(Ask, u64)] = &[
    (Push(End::A, 1, 1, PASS), 0),
    (Push(End::A, 2, 2, PASS), 0),
    (Do(Serial(0, None)), 0),
    (Do(Serial(1, Some(2))), 0),
    (Do(Serial(2, Some(1))), 0),
    (Do(Serial(3, None)), 0),
    (Remove(2), 8),
    (Dismantle(End::A, &[(1, 87)]), 87),
];

// A closed end hands a module back. A module in the other end is closed with the chain.
const REFUSED_AND_LEFT: &[(Ask, u64)] = &[
    (Push(End::B, 4, 1, PASS), 0),
    (Dismantle(End::A, &[]), 0),
    (Refused(End::A, 3, 3, PASS), 9),
];

// An end has room for eight modules, and hands the ninth back. The object of that one is the only one of
// number 2.
const NINTH_COMES_BACK: &[(Ask, u64)] = &[
    (Do(HasRoom(End::A, true)), 0),
    (Push(End::A, 1, 1, PASS), 0),
    (Do(HasRoom(End::A, true)), 0),
    (Push(End::A, 2, 1, PASS), 0),
    (Do(HasRoom(End::A, true)), 0),
    (Push(End::A, 3, 1, PASS), 0),
    (Do(HasRoom(End::A, true)), 0),
    (Push(End::A, 4, 1, PASS), 0),
    (Do(HasRoom(End::A, true)), 0),
    (Push(End::A, 5, 1, PASS), 0),
    (Do(HasRoom(End::A, true)), 0),
    (Push(End::A, 6, 1, PASS), 0),
    (Do(HasRoom(End::A, true)), 0),
    (Push(End::A, 7, 1, PASS), 0),
    (Do(HasRoom(End::A, true)), 0),
    (Push(End::A, 8, 1, PASS), 0),
    (Do(HasRoom(End::A, false)), 0),
    (Refused(End::A, 9, 2, PASS), 8),
    (
        Dismantle(
            End::A,
            &[
                (8, 87),
                (7, 877),
                (6, 8777),
                (5, 87777),
                (4, 877777),
                (3, 8777777),
                (2, 87777777),
                (1, 877777777),
            ],
        ),
        877777777,
    ),
];

// A boxed module is put in between, and is taken out again. A message that is written waits in it and then in
// the driver, and comes to the head behind the one that was there.
//
// The head holds 5 bytes after the first move, which is its high mark. So the second message waits in the
// driver until the first is taken. The driver's place is looked at once in vain, then once before its move,
// and once more when it is empty.
//
// The module's place stays enabled when it was served, and is found empty. Then the driver's is looked at
// twice. On its way up the message is put to the object once more.
const ECHO_WAITS_FOR_ITS_HEAD: &[(Ask, u64)] = &[
    (Do(Write(b"aaaaa")), 0),
    (Do(May(DRV_A, true)), 0),
    (Do(Serve(DRV_A)), 0),
    (Do(HeadHeld(End::A, 5)), 0),
    (Do(Write(b"b")), 0),
    (Do(May(DRV_A, false)), 0),
    (Do(Settle(&[], 1)), 0),
    (Do(Read(b"aaaaa")), 0),
    (Do(Settle(&[DRV_A], 2)), 0),
    (Push(End::A, 7, 1, PASS), 0),
    (Do(Write(b"c")), 1),
    (Do(May(DRV_A, false)), 1),
    (Do(Serve(WR_1)), 14),
    (Do(Settle(&[DRV_A], 3)), 141),
    (Do(Read(b"b")), 141),
    (Do(Read(b"c")), 141),
    (Remove(7), 1417),
    (Do(Call::Remove(None)), 1417),
];

// A message that waits for the far end's head moves on once that end is closed, and is dropped there.
const FAR_END_OF_A_LOOP_IS_CLOSED: &[(Ask, u64)] = &[
    (Do(Write(b"aaaaa")), 0),
    (Do(Settle(&[DRV_A], 2)), 0),
    (Do(Write(b"bbbbb")), 0),
    (Do(Settle(&[], 1)), 0),
    (Do(Enabled(DRV_A, false)), 0),
    (Do(FullAhead(End::A, true)), 0),
    (Do(HeadLen(End::A, 0)), 0),
    (Do(HeadLen(End::B, 1)), 0),
    (Dismantle(End::B, &[]), 0),
    (Do(IsOpen(End::B, false)), 0),
    (Do(HeadLen(End::B, 0)), 0),
    (Do(Enabled(DRV_A, true)), 0),
    (Do(Settle(&[DRV_A], 2)), 0),
    (Do(FullAhead(End::A, false)), 0),
    (Do(HeadLen(End::B, 0)), 0),
    (Do(With(Deliver(HEAD_A), Sample::Hangup)), 0),
    (Do(Hung(End::A, true)), 0),
];

const STORIES: &[Story<'static>] = &[
    Story {
        name: "boxes that are taken out are closed once",
        driver: Driver::Loop,
        asks: TAKEN_OUT,
        end: Some(87),
    },
    Story {
        name: "boxes that are refused and left are closed once",
        driver: Driver::Loop,
        asks: REFUSED_AND_LEFT,
        end: Some(97),
    },
    Story {
        name: "the ninth module comes back",
        driver: Driver::Echo,
        asks: NINTH_COMES_BACK,
        end: Some(877777777),
    },
];

const WAITING: &[Story<'static>] = &[
    Story {
        name: "an echo waits for its head",
        driver: Driver::Echo,
        asks: ECHO_WAITS_FOR_ITS_HEAD,
        end: Some(1417),
    },
    Story {
        name: "the far end of a loop is closed",
        driver: Driver::Loop,
        asks: FAR_END_OF_A_LOOP_IS_CLOSED,
        end: Some(0),
    },
];

#[test]
fn each_module_is_closed_once(rt: HostRuntime) {
    tell_stories(&rt, rt.alloc(), STORIES);
}

#[test]
fn what_waits_goes_on_past_a_new_module_and_at_a_closed_end(rt: HostRuntime) {
    tell_stories(&rt, rt.alloc(), WAITING);
}
