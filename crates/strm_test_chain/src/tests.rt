//! Facts that no clause states: calls succeed if there is enough memory, texts are printed as they should be,
//! and the rules of the clauses are the intended ones.
//!
//! Most tests are tables of rows, each with its calls and the answers that they must give. A row of a chain
//! makes its calls on a new one. The expected answers are worked out by hand from the rules, next to them.
use Sample::{Ack, Data, Error, Error2, Flush, Hangup, Ioctl, Nak, Options, Pcproto, Proto};
use std::alloc::Global;
use std::process::Abort;
use std::sync::Arc;
use std::sync::atomic::{AtomicU64, Ordering};
use strm_chain::{Chain, ChainFault, Driver, Place, Spot};
use strm_module::{BoxedModule, Instance, Kind, Kinds, Module, ModuleOf, Plain, Shape};
use strm_msg::{BoxedMessage, Bytes, End, Errno, Marks, Message, NoMem, Prot, ReadMode};

mod echoes;
mod enabled;
mod faults;
mod flushes;
mod ioctls;
mod kinds;
mod lists;
mod messages;
mod objects;
mod owners;
mod places;
mod queues;
mod rows;
mod steps;
mod texts;
mod user;
mod wires;

/// A part of a message that may be missing.
type Part = Option<&'static [u8]>;

/// A message as a table has it.
#[derive(Clone, Copy, Drop)]
enum Sample {
    /// A band, and data.
    Data(u8, &'static [u8]),
    /// A band, control and data.
    Proto(u8, &'static [u8], Part),
    /// Control and data, of high priority.
    Pcproto(&'static [u8], Part),
    /// A number, a command and data.
    Ioctl(u64, u32, Part),
    /// A number, a value and data.
    Ack(u64, u64, Part),
    /// A number, and an error.
    Nak(u64, Errno),
    /// Whether it flushes the read side and the write side, and its band, unless it flushes all bands.
    Flush(bool, bool, Option<u8>),
    /// The read mode, and the water marks, each if it is given.
    Options(Option<ReadMode>, Option<(u32, u32)>),
    Hangup,
    Error(Errno),
    Error2(Option<Errno>, Option<Errno>),
}

/// The use of a message.
#[derive(Clone, Copy, Drop)]
enum Way {
    /// The message is written at an end.
    Send(End),
    /// The message is handed in.
    Deliver(Spot),
    /// The message is handed in, and refused.
    Fails(Spot, ChainFault),
    /// The message is an ordinary one, and comes in from the line.
    Comes,
    /// The message is the first of the head of an end, and is taken.
    Take(End),
    /// The message is the first that was sent down to a wire, and is taken from outside.
    TakeOut,
    /// Room is made in band 0 of the head of end A and of the queue of the line, and the message is put back
    /// to that head.
    PutBack,
    /// The message is the answer that has come at end A, and is taken.
    Answer,
}

/// A call, and the answer that it must give.
///
/// A message is in one variant alone. A table takes the longer to prove the more often its type names a type
/// of many cases.
#[derive(Clone, Copy, Drop)]
enum Call {
    /// Data of band 0 is written at end A.
    Write(&'static [u8]),
    /// Data of band 0 is the first message of the head of end A, and is taken.
    Read(&'static [u8]),
    With(Way, Sample),
    /// A place that may move is served.
    Serve(Place),
    /// A place that may move is served, which is refused.
    ServeFails(Place, ChainFault),
    /// These places move, until none is enabled, with that many looks.
    Settle(&'static [Place], u64),
    SettleFails(ChainFault),
    BreakOff,
    SetMode(End, ReadMode, Prot),
    /// The next id is taken at end A, and is this one.
    Begins(u64),
    /// The id that was taken last at end A is given back.
    Undoes,
    /// No answer has come at end A.
    NoAnswer,
    /// The topmost module of end A is taken out and dropped. It has this serial.
    Remove(Option<u64>),
    /// Whether a place may move.
    May(Place, bool),
    /// Whether a place is enabled.
    Enabled(Place, bool),
    /// No place is enabled.
    NoneEnabled,
    /// The number of messages in the queue of a head.
    HeadLen(End, usize),
    /// The number of bytes of band 0 in the queue of a head.
    HeadHeld(End, u128),
    /// Whether the first write queue of an end is full in band 0.
    FullAhead(End, bool),
    /// No message is there that was sent down to a wire.
    NothingOut,
    /// Whether the queue of the line is full in band 0.
    LineFull(bool),
    /// The queues of an end that hold a message: those of two modules on the way down, of the driver, of the
    /// modules on the way up, and of the head. The number is that of the upper module.
    Holds(End, u8, [bool; 6]),
    /// The number of modules of an end.
    Count(End, usize),
    /// Whether an end is there and not closed.
    IsOpen(End, bool),
    HasSpot(Spot, bool),
    IsDriver(Driver),
    IsBroken(bool),
    /// The serial of a module of end A, counted from 1.
    Serial(u8, Option<u64>),
    /// Whether an end has room for a module.
    HasRoom(End, bool),
    /// Whether an end was hung up.
    Hung(End, bool),
    /// The latest error of an end.
    Errs(End, Option<Errno>, Option<Errno>),
    /// The mode in which an end is read.
    Mode(End, ReadMode, Prot),
    /// The id of the next ioctl of an end, and that of the one that waits for its answer.
    Ids(End, Option<u64>, Option<u64>),
}

/// The kind of a module.
#[derive(Clone, Copy, Drop)]
enum Pushes {
    Pass,
    Count,
    Mute,
    Tee,
}

/// A module that is put in: the end, its kind, and whether it has a queue on its read side and on its write
/// side.
type Pushed = (End, Pushes, bool, bool);

/// A worked example on a chain of modules that act by their shapes alone.
#[derive(Clone, Copy, Drop)]
struct Row {
    name: &'static str,
    driver: Driver,
    /// The marks of the heads and of the driver.
    marks: (u32, u32),
    /// The modules that are put in, one above the other.
    modules: &'static [Pushed],
    calls: &'static [&'static [Call]],
}

/// The marks if nothing else is given: a queue is full at 5 bytes and slack at 4.
const FIVE: (u32, u32) = (5, 4);

const DRV_A: Place = Place::Drv { end: End::A };

const DRV_B: Place = Place::Drv { end: End::B };

/// The spot to which a message comes first that is written at end A.
const TOP_A: Spot = Spot::Down { end: End::A, i: 1 };

/// The spot at which a message comes to the head of end A.
const HEAD_A: Spot = Spot::Up { end: End::A, i: 0 };

const WR_1: Place = Place::Wr { end: End::A, i: 1 };

const WR_2: Place = Place::Wr { end: End::A, i: 2 };

const RD_1: Place = Place::Rd { end: End::A, i: 1 };

const RD_2: Place = Place::Rd { end: End::A, i: 2 };

fn bytes(rt: &impl Abort, alloc: Global, bytes: &[u8]) -> Bytes {
    Bytes::from_slice(alloc, bytes).expect(rt, "no memory for bytes")
}

fn part(rt: &impl Abort, alloc: Global, part: Part) -> Option<Bytes> {
    match part {
        Some(part) => Some(bytes(rt, alloc, part)),
        None => None,
    }
}

/// The result of the call that makes a message of its kind.
fn made(rt: &impl Abort, alloc: Global, sample: Sample) -> Result<Message, NoMem> {
    match sample {
        Data(band, dat) => Message::of_data(alloc, band, dat),
        Proto(band, ctl, dat) => Message::of_proto(alloc, band, ctl, dat),
        Pcproto(ctl, dat) => Message::of_pcproto(alloc, ctl, dat),
        Ioctl(id, cmd, dat) => Message::of_ioctl(alloc, id, cmd, dat),
        Ack(id, rval, dat) => Ok(Message::of_ack(id, rval, part(rt, alloc, dat))),
        Nak(id, errno) => Ok(Message::of_nak(id, errno)),
        Flush(r, w, band) => Ok(Message::of_flush(r, w, band)),
        Options(mode, marks) => Ok(Message::of_setopts(mode, None, marks)),
        Hangup => Ok(Message::of_hangup()),
        Error(errno) => Ok(Message::of_error(errno)),
        Error2(rd, wr) => Ok(Message::of_error2(rd, wr)),
    }
}

/// The message, by the call that makes one of its kind.
fn message(rt: &impl Abort, alloc: Global, sample: Sample) -> Message {
    made(rt, alloc, sample).expect(rt, "no memory for a message")
}

/// The message in a box.
fn boxed_message(rt: &impl Abort, alloc: Global, sample: Sample) -> BoxedMessage {
    BoxedMessage::new(alloc, message(rt, alloc, sample)).expect(rt, "no memory for a box")
}

/// The expected message, if one is expected.
fn wanted(rt: &impl Abort, alloc: Global, want: Option<Sample>) -> Option<Message> {
    match want {
        Some(want) => Some(message(rt, alloc, want)),
        None => None,
    }
}

/// Whether two messages are equal, or none is there and none is expected. They are dropped by name, which is
/// one call each.
fn are_same(found: Option<BoxedMessage>, want: Option<Message>) -> bool {
    let is_so = match (&found, &want) {
        (Some(m), Some(n)) => **m == *n,
        (None, None) => true,
        _ => false,
    };
    drop(found);
    drop(want);
    is_so
}

/// Whether a message was accepted, and did not come back.
fn is_taken(answer: Result<(), BoxedMessage>) -> bool {
    let is_so = answer.is_ok();
    drop(answer);
    is_so
}

/// Stops the test if a row of a table does not hold. It prints the name of the table and the number of the
/// row, counted from 0.
fn check(rt: &impl Abort, (name, at): (&str, usize), is_so: bool) {
    assert!(rt; is_so, "{name}: row {at}");
}

/// The log on which objects write. Each has a handle of its own.
type Log = Arc<AtomicU64, Global>;

fn new_log(rt: &impl Abort, alloc: Global) -> Log {
    Arc::new(alloc, AtomicU64::new(0)).expect(rt, "no memory for a log")
}

/// One more handle of a log.
fn held(rt: &impl Abort, log: &Log) -> Log {
    Arc::try_clone(log).expect(rt, "the log has few owners")
}

/// The number on a log.
fn logged(log: &Log) -> u64 {
    log.load(Ordering::SeqCst)
}

/// A shape that can be made.
fn shaped<K: Kinds>(
    rt: &impl Abort,
    serial: u64,
    name: &[u8],
    (rd, wr): (Option<(u32, u32)>, Option<(u32, u32)>),
    kind: K,
) -> Shape<K> {
    Shape::new(serial, name, rd, wr, kind).expect(rt, "a good name and good marks")
}

/// Puts the value that was made into a box.
fn in_box<T: Drop>(rt: &impl Abort, alloc: Global, made: Result<T, NoMem>) -> Box<T> {
    let value = made.expect(rt, "no memory for what a box holds");
    Box::new(alloc, value).expect(rt, "no memory for a box")
}

/// A chain for modules of some type. It is in a box, since a function that holds all of it takes long to
/// prove.
fn chain_over<M: ModuleOf>(
    rt: &impl Abort,
    alloc: Global,
    driver: Driver,
    (hi, lo): (u32, u32),
) -> Box<Chain<M>> {
    let marks = Marks::new(hi, lo).expect(rt, "the low mark is below the high one");
    in_box(rt, alloc, Chain::new(alloc, driver, marks, marks))
}

fn kind(pushes: Pushes) -> Kind {
    match pushes {
        Pushes::Pass => Kind::Pass,
        Pushes::Count => Kind::Count { n: 0 },
        Pushes::Mute => Kind::Mute,
        Pushes::Tee => Kind::Tee,
    }
}

/// The shape of a module with a queue on each named side.
fn shape_of(rt: &impl Abort, serial: u64, pushes: Pushes, (rd, wr): (bool, bool)) -> Shape {
    let five = Some(FIVE);
    let rd = if rd { five } else { None };
    let wr = if wr { five } else { None };
    shaped(rt, serial, b"m", (rd, wr), kind(pushes))
}

/// A module, as a chain takes it.
fn boxed<M: Module>(rt: &impl Abort, alloc: Global, shape: Shape, object: M) -> BoxedModule<M> {
    BoxedModule::new(alloc, Instance::new(shape, object)).expect(rt, "no memory for a box")
}

/// Puts a module in at an end.
fn inserts<M: ModuleOf>(chain: &mut Chain<M>, end: End, instance: BoxedModule<M>) -> bool {
    chain.insert(end, instance).is_ok()
}

/// Pushes a module with a queue on each named side.
fn push(rt: &impl Abort, chain: &mut Chain<Plain>, end: End, pushes: Pushes, queues: (bool, bool)) {
    let shape = shape_of(rt, 1, pushes, queues);
    let instance = boxed(rt, chain.alloc(), shape, Plain);
    assert!(rt; inserts(chain, end, instance));
}

/// Makes the calls of a table, one after another. A fault has the number of its call, counted from 0.
fn play<M: ModuleOf>(rt: &impl Abort, chain: &mut Chain<M>, calls: &[Call], name: &str) {
    for (at, call) in calls.iter().enumerate() {
        check(rt, (name, at), steps::acts(rt, chain, *call));
    }
}

/// A new chain with these modules.
fn chain_of(
    rt: &impl Abort,
    alloc: Global,
    (driver, marks): (Driver, (u32, u32)),
    modules: &[Pushed],
) -> Box<Chain<Plain>> {
    let mut chain = chain_over(rt, alloc, driver, marks);
    for (end, pushes, rd, wr) in modules {
        push(rt, &mut chain, *end, *pushes, (*rd, *wr));
    }
    chain
}

/// Makes the calls of tables, one after the other.
fn play_tables(rt: &impl Abort, chain: &mut Chain<Plain>, tables: &[&[Call]], name: &str) {
    for calls in tables {
        play(rt, chain, calls, name);
    }
}

fn play_rows(rt: &impl Abort, alloc: Global, rows: &[Row]) {
    for row in rows {
        let mut chain = chain_of(rt, alloc, (row.driver, row.marks), row.modules);
        play_tables(rt, &mut chain, row.calls, row.name);
    }
}
