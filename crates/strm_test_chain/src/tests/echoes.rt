//! A discipline that echoes, on one end of a loop and on a wire. An emulator holds the other end of the loop,
//! as that of a terminal.
use super::Call::{Enabled, May, NothingOut, Read, Settle, With, Write};
use super::Way::{Comes, Send, Take, TakeOut};
use super::{Call, DRV_A, DRV_B, FIVE, RD_1, Sample, WR_1, chain_over, inserts, play};
use port_echo::ByShape;
use std::process::Abort;
use strm_chain::Driver;
use strm_module::BoxedModule;
use strm_msg::End;

// Data that is typed at end B comes up end A and is echoed down to end B, in the same event. The places are
// enabled in the order of the moves. Each is looked at once more, and holds nothing then.
const A_TERMINAL_ON_A_LOOP: &[Call] = &[
    With(Send(End::B), Sample::Data(0, b"ab")),
    Settle(&[DRV_B, RD_1, WR_1, DRV_A], 8),
    Read(b"ab"),
    With(Take(End::B), Sample::Data(0, b"ab")),
];

// The echoes fill the wire's queue. Of the data that comes in then, four bytes go up and are owed, and the
// read side is shut. The data that comes next waits, and enables nothing. A take opens the window: the echo
// leaves, before the data that waited behind it, and the read side is enabled again.
const AN_ECHO_WAITS_FOR_A_TAKE: &[Call] = &[
    With(Comes, Sample::Data(0, b"abcd")),
    Settle(&[DRV_B, RD_1, WR_1], 6),
    With(Comes, Sample::Data(0, b"efgh")),
    Settle(&[DRV_B, RD_1, WR_1], 6),
    Read(b"abcd"),
    Read(b"efgh"),
    With(Comes, Sample::Data(0, b"ijkl")),
    Settle(&[DRV_B, RD_1], 5),
    With(Comes, Sample::Data(0, b"m")),
    Settle(&[DRV_B], 2),
    May(RD_1, false),
    Enabled(RD_1, false),
    Write(b"x"),
    Settle(&[], 1),
    With(TakeOut, Sample::Data(0, b"abcd")),
    Settle(&[WR_1, RD_1], 5),
    With(TakeOut, Sample::Data(0, b"efgh")),
    Settle(&[WR_1], 2),
    With(TakeOut, Sample::Data(0, b"ijkl")),
    Settle(&[WR_1], 2),
    With(TakeOut, Sample::Data(0, b"m")),
    With(TakeOut, Sample::Data(0, b"x")),
    NothingOut,
    Read(b"ijkl"),
    Read(b"m"),
];

const ROWS: &[(&str, Driver, &[Call])] = &[
    ("a terminal on a loop", Driver::Loop, A_TERMINAL_ON_A_LOOP),
    (
        "an echo waits for a take",
        Driver::Wire,
        AN_ECHO_WAITS_FOR_A_TAKE,
    ),
];

#[test]
fn each_echo_leaves(rt: HostRuntime) {
    for (name, driver, calls) in ROWS {
        let mut chain = chain_over(&rt, rt.alloc(), *driver, FIVE);
        let module = ByShape::echoing(rt.alloc(), 1, b"echo", FIVE).expect(
            &rt,
            "a good name and good marks",
        );
        let module = BoxedModule::new(rt.alloc(), module).expect(&rt, "no memory for a box");
        assert!(rt; inserts(&mut chain, End::A, module));
        play(&rt, &mut chain, calls, name);
    }
}
