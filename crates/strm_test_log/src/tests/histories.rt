//! New streams, and the histories of the events on them.
use super::tables::{ECHOES, LINES, MIXED};
use super::wires::WIRES;
use super::{Call, Comes, Happens, Row, Want, answer_of, came_back, check, message, request_of};
use std::alloc::Global;
use std::process::Abort;
use strm_head::{Answer, Driver, Event, NewFault, Reply, Request, Stream};
use strm_module::{BoxedModule, BoxedShape, Kind, ModuleOf, Plain};
use strm_msg::{End, Message};
use strm_shared_log::{Called, Entry, Kept, Landed, Log, Setup, Who};

/// The number of the caller of a row. There are five callers.
fn caller_of(at: usize) -> u32 {
    (at % 5) as u32 + 7
}

/// Marks of a head and of a driver with which no stream is made.
const BAD_MARKS: &[((u32, u32), (u32, u32))] = &[
    ((4, 4), (16, 4)),
    ((16, 4), (4, 4)),
    ((4, 16), (4, 16)),
];

/// Whether a stream with these marks is refused for them.
fn is_refused<M: ModuleOf>(alloc: Global, head: (u32, u32), drv: (u32, u32)) -> bool {
    let made: Result<Stream<M>, NewFault> = Stream::new(alloc, Driver::Loop, head, drv);
    made.err() == Some(NewFault::Marks)
}

#[test]
fn low_marks_are_below_high_ones(rt: HostRuntime) {
    for (head, drv) in BAD_MARKS {
        assert!(rt; is_refused::<Plain>(rt.alloc(), *head, *drv));
    }
}

/// Whether an event is a call.
fn is_call(event: &Event<BoxedShape<Kind>>) -> bool {
    match event {
        Event::Asked(_) => true,
        Event::Arrived(_) => false,
    }
}

/// The serial of the module that a call puts in.
fn pushed(event: &Event<BoxedShape<Kind>>) -> Option<u64> {
    match event {
        Event::Asked(Request::Push { instance }) => Some(instance.shape().serial),
        _ => None,
    }
}

/// The serial of the module that the call of a row puts in.
fn pushed_at(call: Call, at: usize) -> Option<u64> {
    match call {
        Call::Push(_, _) => Some(at as u64),
        _ => None,
    }
}

/// The serials of the modules that a call takes out, out of those that come back. A call that is refused
/// takes none out.
fn taken_out(want: Want, back: &[u64]) -> &[u64] {
    match want {
        Want::Refused(_) => &[],
        _ => back,
    }
}

/// Whether this is the answer.
fn is_answer(found: &Answer, want: Answer) -> bool {
    let is_so = *found == want;
    drop(want);
    is_so
}

/// Whether this is the entry of a call.
fn is_asked(
    rt: &impl Abort,
    alloc: Global,
    entry: &Entry<Kind>,
    (call, want, moves): (Call, Want, usize),
    back: &[u64],
    at: usize,
) -> bool {
    is_call(entry.event())
        && pushed(entry.event()) == pushed_at(call, at)
        && entry.who() == Who::Caller(caller_of(at))
        && is_answer(entry.answer(), answer_of(rt, alloc, want))
        && entry.moves().len() == moves
        && moves as u64 <= entry.looks()
        && entry.out() == taken_out(want, back)
}

/// Whether an event is the arrival of this message.
fn is_arrival(event: &Event<BoxedShape<Kind>>, wanted: Message) -> bool {
    let is_so = match event {
        Event::Arrived(m) => **m == wanted,
        Event::Asked(_) => false,
    };
    drop(wanted);
    is_so
}

/// Whether this is the entry of a message that came in.
fn is_taken(
    rt: &impl Abort,
    alloc: Global,
    entry: &Entry<Kind>,
    (comes, moves, looks): (Comes, usize, u64),
) -> bool {
    is_arrival(entry.event(), message(rt, alloc, comes))
        && entry.who() == Who::Line
        && *entry.answer() == Answer::Done(Reply::Line)
        && entry.moves().len() == moves
        && entry.looks() == looks
        && entry.out().is_empty()
}

/// Whether this is the entry of a row.
fn is_entry(
    rt: &impl Abort,
    alloc: Global,
    kept: Option<&Kept<Kind>>,
    (end, happens): Row,
    at: usize,
) -> bool {
    let Some(kept) = kept else {
        return false;
    };
    let entry = kept.entry();
    entry.end() == end
        && match happens {
            Happens::Asked(call, want, moves, back) => {
                is_asked(rt, alloc, entry, (call, want, moves), back, at)
            }
            Happens::Taken(comes, moves, looks) => is_taken(
                rt,
                alloc,
                entry,
                (comes, moves, looks),
            ),
            Happens::Left(_) => false,
        }
}

/// Offers a message.
fn offered<M: ModuleOf>(log: &mut Log<M>, m: Message) -> Landed {
    if m.from_line() {
        log.arrive(m)
    } else {
        Landed::NoMem(m)
    }
}

/// Whether a message came in.
fn is_entered(landed: Landed) -> bool {
    let is_so = matches!(&landed, Landed::Entered);
    drop(landed);
    is_so
}

/// Whether a message did not come in, and came back.
fn is_left(landed: Landed, wanted: Message) -> bool {
    let is_so = match &landed {
        Landed::Full(m) => *m == wanted,
        _ => false,
    };
    drop(landed);
    drop(wanted);
    is_so
}

fn call_on<M: ModuleOf>(
    log: &mut Log<M>,
    caller: u32,
    end: End,
    request: Request<BoxedModule<M>>,
) -> Called<BoxedModule<M>, M::Kind> {
    log.call(caller, 1, strm_shared_log::Call { end, request })
}

/// Makes the call of a row, and returns whether it has this answer and these modules come back.
fn asks(
    rt: &impl Abort,
    alloc: Global,
    log: &mut Log<Plain>,
    (end, call, want, back): (End, Call, Want, &[u64]),
    at: usize,
) -> bool {
    let request = request_of(rt, alloc, at as u64, call);
    let called = call_on(log, caller_of(at), end, request);
    is_told(called, answer_of(rt, alloc, want), back)
}

/// Whether a call found room, has this answer, and the modules that came back have these serials.
fn is_told<M: ModuleOf>(
    called: Called<BoxedModule<M>, M::Kind>,
    want: Answer,
    serials: &[u64],
) -> bool {
    match called {
        Called::Done {
            answer,
            back,
            receipt,
        } => {
            let is_so = is_answer(&answer, want) && came_back(back.as_slice(), serials);
            drop(receipt);
            drop(back);
            drop(answer);
            is_so
        }
        Called::NoRoom(_) => false,
    }
}

/// Plays the event of a row, and returns whether it has the expected outcome.
fn happens(
    rt: &impl Abort,
    alloc: Global,
    log: &mut Log<Plain>,
    (end, happens): Row,
    at: usize,
) -> bool {
    match happens {
        Happens::Asked(call, want, _, back) => asks(rt, alloc, log, (end, call, want, back), at),
        Happens::Taken(comes, _, _) => is_entered(offered(log, message(rt, alloc, comes))),
        Happens::Left(comes) => {
            let landed = offered(log, message(rt, alloc, comes));
            is_left(landed, message(rt, alloc, comes))
        }
    }
}

/// Plays the events of a table, one after another.
fn all_happen(rt: &impl Abort, alloc: Global, log: &mut Log<Plain>, rows: &[Row]) {
    for (at, row) in rows.iter().enumerate() {
        check(rt, ("what happens", at), happens(rt, alloc, log, *row, at));
    }
}

/// A log of a new stream.
fn new_log<M: ModuleOf>(rt: &impl Abort, alloc: Global, driver: Driver) -> Log<M> {
    let setup = Setup {
        driver,
        head: (16, 4),
        drv: (16, 4),
        ring: 0,
    };
    Log::new(alloc, setup).ok().expect(rt, "a stream")
}

/// The history of a log, and whether end A is open at its end.
fn parts_of<M: ModuleOf>(log: Log<M>) -> (Vec<Kept<M::Kind>>, bool) {
    let (history, stream) = log.into_parts();
    let is_open = stream.is_open(End::A);
    drop(stream);
    (history, is_open)
}

/// Checks the entry of each row, apart from messages that do not come in.
fn are_entries(rt: &impl Abort, alloc: Global, history: &[Kept<Kind>], rows: &[Row]) {
    let mut entries = history.iter();
    for (at, row) in rows.iter().enumerate() {
        if !matches!(row.1, Happens::Left(_)) {
            let is_so = is_entry(rt, alloc, entries.next(), *row, at);
            check(rt, ("entries", at), is_so);
        }
    }
    assert!(rt; entries.next().is_none());
}

/// Plays a table on a new stream, and then checks its history. Returns whether end A is open then.
fn play(rt: &impl Abort, alloc: Global, driver: Driver, rows: &[Row]) -> bool {
    let mut log = new_log(rt, alloc, driver);
    all_happen(rt, alloc, &mut log, rows);
    let (history, is_open) = parts_of(log);
    are_entries(rt, alloc, history.as_slice(), rows);
    is_open
}

#[test]
fn what_comes_in_between_calls_stands_in_the_history(rt: HostRuntime) {
    for rows in LINES {
        play(&rt, rt.alloc(), Driver::Line, rows);
    }
}

#[test]
fn calls_and_messages_make_a_history(rt: HostRuntime) {
    for rows in ECHOES {
        play(&rt, rt.alloc(), Driver::Echo, rows);
    }
    assert!(rt; !play(&rt, rt.alloc(), Driver::Line, MIXED));
}

#[test]
fn what_is_written_to_a_wire_waits_until_it_is_taken(rt: HostRuntime) {
    for rows in WIRES {
        play(&rt, rt.alloc(), Driver::Wire, rows);
    }
}
