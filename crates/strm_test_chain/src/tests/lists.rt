//! The spots and the modes of a chain.
use super::Call::{Count, Errs, HasSpot, Hung, Mode, SetMode};
use super::{Call, FIVE, Pushes, Row, play_rows};
use strm_chain::{Driver, Spot};
use strm_msg::{End, Prot, ReadMode};

const READS_AS_IT_WAS_SET: &[Call] = &[
    SetMode(End::B, ReadMode::Rmsgd, Prot::Dis),
    Mode(End::B, ReadMode::Rmsgd, Prot::Dis),
    Mode(End::A, ReadMode::Rnorm, Prot::Norm),
    Hung(End::A, false),
    Errs(End::A, None, None),
];

// With one module there are the spots 1 and 2 on the way down, and 0 and 1 on the way up.
const END_HAS_ITS_SPOTS: &[Call] = &[
    Count(End::A, 1),
    HasSpot(Spot::Down { end: End::A, i: 0 }, false),
    HasSpot(Spot::Up { end: End::A, i: 0 }, true),
    HasSpot(Spot::Down { end: End::A, i: 1 }, true),
    HasSpot(Spot::Up { end: End::A, i: 1 }, true),
    HasSpot(Spot::Down { end: End::A, i: 2 }, true),
    HasSpot(Spot::Up { end: End::A, i: 2 }, false),
    HasSpot(Spot::Down { end: End::A, i: 3 }, false),
    HasSpot(Spot::Up { end: End::A, i: 3 }, false),
];

const ROWS: &[Row] = &[
    Row {
        name: "an end reads as it was set",
        driver: Driver::Loop,
        marks: FIVE,
        modules: &[],
        calls: &[READS_AS_IT_WAS_SET],
    },
    Row {
        name: "an end has its spots",
        driver: Driver::Line,
        marks: FIVE,
        modules: &[(End::A, Pushes::Pass, false, false)],
        calls: &[END_HAS_ITS_SPOTS],
    },
];

#[test]
fn each_row_is_answered(rt: HostRuntime) {
    play_rows(&rt, rt.alloc(), ROWS);
}
