//! Charts that no script is sure to give: messages that came in from a line.
use super::names_of;
use super::printing::{KINDS, Taker, is_told, kind_of, log, new_taker};
use std::alloc::Global;
use std::process::Abort;
use strm_chain::Looks;
use strm_head::{Moves, Place};
use strm_module::Kind;
use strm_msg::End::A;
use strm_msg::Message;
use strm_run::{StreamLog, Transcript};
use strm_script_chart::chart;
use strm_script_parse::Names;
use strm_shared_entry::{Entry, Kept, room_for_arrival, taken};

/// A line `l`, and one process.
const PLAN: &[u8] = b"stream l line 16/4 16/4 8\nprocess p\n";

/// The chart of a message that came in, after which three queues moved, and of another one, which broke the
/// stream.
const DRAWN: &str = "stream l\np\n|   l\n|   |   line\n|   |   |\n\
    |   |<--| data 0 =abc\n|   |   | moved a:driver a:rd:10 a:rd:1\n|   |   | : 0\n\
    |   |<--| hangup\n|   |   | : ENOSR broke\n\
    open a m\nfeed accepted 3 arrived 2 overrun 1\n";

/// The places that moved.
fn places(rt: &impl Abort, alloc: Global) -> Moves {
    let driver = Place::Drv { end: A };
    let (lower, upper) = (Place::Rd { end: A, i: 10 }, Place::Rd { end: A, i: 1 });
    Moves::from_slice(alloc, &[driver, lower, upper]).expect(rt, "no memory")
}

/// The entry of a message that came in, as it is when the stream breaks.
fn came(rt: &impl Abort, alloc: Global, m: &Message) -> Box<Entry<Kind>> {
    room_for_arrival(alloc, m).expect(rt, "no memory")
}

/// The messages that came in.
fn arrivals(rt: &impl Abort, alloc: Global) -> Vec<Kept<Kind>> {
    let data = Message::of_data(alloc, 0, b"abc").expect(rt, "no memory");
    let first = taken(came(rt, alloc, &data), places(rt, alloc), Looks::none());
    let second = Kept::plain(came(rt, alloc, &Message::of_hangup()));
    vec![in alloc; first, second].expect(rt, "no memory")
}

/// The chart of one stream.
fn drawn(rt: &impl Abort, alloc: Global, names: &Names, log: StreamLog<Kind>) -> Vec<u8> {
    let streams = vec![in alloc; log].expect(rt, "no memory");
    let mut out: Vec<u8> = Vec::new(alloc);
    assert!(rt; chart(&Transcript { streams }, names, &mut out).is_ok());
    out
}

/// The log of the line.
fn line(rt: &impl Abort, alloc: Global) -> StreamLog<Kind> {
    let mut log = log(rt, alloc, &[b"m"]);
    log.history = arrivals(rt, alloc);
    log
}

#[test]
fn messages_that_came_in_are_drawn_from_the_line(rt: HostRuntime) {
    let alloc: Global = rt.alloc();
    let names = names_of(&rt, alloc, PLAN);
    assert!(rt; drawn(&rt, alloc, &names, line(&rt, alloc)).as_slice() == DRAWN.as_bytes());
}

/// Whether all is drawn to a writer, and whether an error of the writer is reported.
fn drawn_to(transcript: &Transcript<Kind>, names: &Names, mut taker: Taker) -> (bool, bool) {
    let fault = kind_of(chart(transcript, names, &mut taker));
    (is_told(&taker, DRAWN, fault), fault.is_none())
}

#[test]
fn each_write_of_a_chart_may_fail(rt: HostRuntime) {
    let alloc: Global = rt.alloc();
    let names = names_of(&rt, alloc, PLAN);
    let streams = vec![in alloc; line(&rt, alloc)].expect(&rt, "no memory");
    let transcript = Transcript { streams };
    for kind in KINDS {
        for before in 0..DRAWN.len() {
            assert!(rt; drawn_to(&transcript, &names, new_taker(kind, 1, before)) == (true, false));
        }
        let all = drawn_to(&transcript, &names, new_taker(kind, 1, DRAWN.len()));
        assert!(rt; all == (true, true));
    }
}
