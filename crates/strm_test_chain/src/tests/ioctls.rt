//! Ioctls and their answers.
use super::Call::{Begins, Ids, NoAnswer, Read, Settle, Undoes, With, Write};
use super::Way::{Answer, Send};
use super::{Call, DRV_A, FIVE, Pushed, Pushes, Row, Sample, WR_1, play_rows};
use strm_chain::Driver;
use strm_msg::{End, Errno};

// The ids go up from 1. One that is given back is taken again.
const IDS_GO_UP: &[Call] = &[Begins(1), Undoes, Begins(1), NoAnswer, Begins(2)];

// The module answers the first ioctl with its count, which is 1 after one message of data. No module knows
// the second one, so the driver refuses it.
const MODULE_OR_DRIVER_ANSWERS: &[Call] = &[
    Write(b"x"),
    Begins(1),
    With(Send(End::A), Sample::Ioctl(1, 1, None)),
    With(Answer, Sample::Ack(1, 1, None)),
    Begins(2),
    With(Send(End::A), Sample::Ioctl(2, 9, None)),
    With(Answer, Sample::Nak(2, Errno::EINVAL)),
];

// Both places are looked at to move, and when they are empty. The second time it is the module's place, and
// once the driver's, which finds the head full. While the ioctl waits, the module's place is looked at once,
// and finds the driver full.
const ANSWER_IS_LATE: &[Call] = &[
    Write(b"aaaaa"),
    Settle(&[WR_1, DRV_A], 4),
    Write(b"bbbbb"),
    Settle(&[WR_1], 3),
    Begins(1),
    With(Send(End::A), Sample::Ioctl(1, 1, None)),
    Settle(&[], 1),
    NoAnswer,
];

// Once the head is empty, the driver's place is enabled, and by its move the module's. Each is looked at once
// to move, and once when it is empty.
const LATE_ANSWER_IS_DROPPED: &[Call] = &[
    Begins(2),
    Read(b"aaaaa"),
    Settle(&[DRV_A, WR_1], 4),
    Ids(End::A, Some(3), Some(2)),
    NoAnswer,
];

const COUNT: Pushed = (End::A, Pushes::Count, false, false);

const ROWS: &[Row] = &[
    Row {
        name: "ids go up",
        driver: Driver::Line,
        marks: FIVE,
        modules: &[],
        calls: &[IDS_GO_UP],
    },
    Row {
        name: "a module or the driver answers",
        driver: Driver::Echo,
        marks: FIVE,
        modules: &[COUNT, (End::A, Pushes::Pass, false, false)],
        calls: &[MODULE_OR_DRIVER_ANSWERS],
    },
    // The ioctl waits behind data for a full driver, so no answer has come when it is given up. Its
    // late answer is not that of the next ioctl, and is dropped.
    Row {
        name: "a late answer is dropped",
        driver: Driver::Echo,
        marks: FIVE,
        modules: &[COUNT, (End::A, Pushes::Pass, false, true)],
        calls: &[ANSWER_IS_LATE, LATE_ANSWER_IS_DROPPED],
    },
];

#[test]
fn each_row_is_answered(rt: HostRuntime) {
    play_rows(&rt, rt.alloc(), ROWS);
}
