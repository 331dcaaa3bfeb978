//! Objects with numbers. By these the tests see which of them is asked, and which comes back.
use super::Call::{HeadLen, Serve, Settle, With, Write};
use super::Way::Deliver;
use super::{
    Call, DRV_A, FIVE, Log, Pushes, RD_1, RD_2, Sample, WR_1, WR_2, boxed, chain_over, check, held,
    inserts, logged, new_log, shape_of, steps,
};
use Ask::{Dismantle, Do, GoOn, Push, Remove};
use std::alloc::Global;
use std::process::Abort;
use std::sync::atomic::Ordering;
use strm_chain::{Chain, Driver, Spot};
use strm_module::{BoxedModule, Kind, Module, ModuleOf, Outs, Put, Shape};
use strm_msg::{BoxedMessage, End, NoMem, Side};

// The log has the calls of the objects 1 to 3, in order, with a digit for each call: the object's number if a
// message was put to it, 3 more if it served one, and 6 more if it was closed.
const PUT: u64 = 0;

const SERVED: u64 = 3;

const CLOSED: u64 = 6;

type Boxes = Chain<Box<dyn Module>>;

/// An object that acts by its shape and writes its calls on the log, but refuses the put and the service of
/// these numbers, counted from 1.
struct Told {
    number: u64,
    log: Log,
    refused_put: u32,
    refused_serve: u32,
}

/// Whether a call is the one that is refused. The number of calls before that one goes down by 1.
fn is_refused(left: &mut u32) -> bool {
    let is_this = *left == 1;
    *left = left.saturating_sub(1);
    is_this
}

impl Told {
    fn writes(&self, what: u64) {
        let digit = self.number.saturating_add(what);
        let before = self.log.load(Ordering::SeqCst).saturating_mul(10);
        self.log
            .store(before.saturating_add(digit), Ordering::SeqCst);
    }
}

impl Drop for Told {
    fn drop(self) {
        self.writes(CLOSED);
        let Told {
            number: _,
            log: _,
            refused_put: _,
            refused_serve: _,
        } = self;
    }
}

impl Module for Told {
    fn put(
        &mut self,
        alloc: Global,
        shape: &mut Shape,
        side: Side,
        m: BoxedMessage,
    ) -> Result<Put, NoMem> {
        self.writes(PUT);
        if is_refused(&mut self.refused_put) {
            return Err(NoMem);
        }
        shape.put(alloc, side, m)
    }

    fn serve(
        &mut self,
        alloc: Global,
        shape: &mut Shape,
        side: Side,
        m: BoxedMessage,
    ) -> Result<Outs, NoMem> {
        self.writes(SERVED);
        if is_refused(&mut self.refused_serve) {
            return Err(NoMem);
        }
        shape.serve(alloc, side, m)
    }
}

/// An object, in a module of a kind with these queues on its read side and on its write side.
#[derive(Clone, Copy, Drop)]
pub(super) struct Object {
    pub(super) pushes: Pushes,
    pub(super) queues: (bool, bool),
    /// The put and the service that it refuses, counted from 1.
    pub(super) refuses: (u32, u32),
}

/// A step, and its expected outcome.
#[derive(Clone, Copy, Drop)]
pub(super) enum Ask {
    Do(Call),
    /// An object is put in at an end, in a module of this serial, with this number.
    Push(End, u64, u64, Object),
    /// An object comes back from an end, not closed, and is dropped.
    Refused(End, u64, u64, Object),
    /// The topmost module of end A has counted this number.
    Counted(u64),
    /// The topmost module of end A comes out. It has this serial, and its object is taken out of it and
    /// dropped.
    Remove(u64),
    /// The modules of an end come out, and none is closed. The rows have the serial of each, and the number
    /// on the log once its object is dropped.
    Dismantle(End, &'static [(u64, u64)]),
    /// The topmost module of end A goes into another echo, where a message is written. This number is on the
    /// log before that echo is dropped with it.
    GoOn(u64),
}

/// A worked example: steps on a new chain, and the number on the log after each. In the end the chain is
/// dropped, and this number is on the log.
#[derive(Clone, Copy, Drop)]
pub(super) struct Story<'a> {
    pub(super) name: &'a str,
    pub(super) driver: Driver,
    pub(super) asks: &'a [(Ask, u64)],
    pub(super) end: Option<u64>,
}

/// A module in a box, with the object of this number.
fn with_object(
    rt: &impl Abort,
    alloc: Global,
    log: &Log,
    (serial, number): (u64, u64),
    object: Object,
) -> BoxedModule<Box<dyn Module>> {
    let (refused_put, refused_serve) = object.refuses;
    let told = Told {
        number,
        log: held(rt, log),
        refused_put,
        refused_serve,
    };
    let told: Box<dyn Module> = Box::new(alloc, told).expect(rt, "no memory for a box");
    let shape = shape_of(rt, serial, object.pushes, object.queues);
    boxed(rt, alloc, shape, told)
}

/// Whether a module of this serial came out, and nothing was closed since this number was on the log. Its
/// object is taken out of it and dropped.
fn closes<M: Module>(log: &Log, before: u64, came: Option<BoxedModule<M>>, serial: u64) -> bool {
    let Some(instance) = came else {
        return false;
    };
    let is_so = instance.shape().serial == serial && logged(log) == before;
    drop(instance.into_instance().into_object());
    is_so
}

/// Hands a module in, and returns whether it comes back, not closed.
fn comes_back<M: Module>(
    chain: &mut Chain<M>,
    log: &Log,
    end: End,
    instance: BoxedModule<M>,
    serial: u64,
) -> bool {
    let before = logged(log);
    let came = chain.insert(end, instance).err();
    closes(log, before, came, serial)
}

/// Takes the topmost module out, and returns whether it is the one of this serial, not closed.
fn removes<M: Module>(chain: &mut Chain<M>, log: &Log, serial: u64) -> bool {
    let before = logged(log);
    let came = chain.remove(End::A);
    closes(log, before, came, serial)
}

/// Drops the modules that came out, one after another, and returns whether each is the expected one.
fn close_in_turn<M: Module>(
    log: &Log,
    came: &mut [Option<BoxedModule<M>>],
    wants: &[(u64, u64)],
) -> bool {
    let mut are_so = true;
    for (at, want) in wants.iter().enumerate() {
        are_so &= closes_at(log, came, at, *want);
    }
    are_so
}

/// Drops the module at this index, and returns whether it has this serial, and this number is on the log
/// then.
fn closes_at<M: Module>(
    log: &Log,
    came: &mut [Option<BoxedModule<M>>],
    at: usize,
    (serial, want): (u64, u64),
) -> bool {
    match came.get_mut(at) {
        Some(one) => closes(log, logged(log), one.take(), serial) && logged(log) == want,
        None => false,
    }
}

/// Takes all modules out and drops them one after another. Returns whether they are the expected ones, and
/// none was closed before.
fn dismantles<M: Module>(chain: &mut Chain<M>, log: &Log, end: End, wants: &[(u64, u64)]) -> bool {
    let before = logged(log);
    let mut came = chain.dismantle(end);
    let are_all = came.len() == wants.len() && logged(log) == before;
    let are_so = close_in_turn(log, came.as_mut_slice(), wants);
    drop(came);
    are_all && are_so
}

/// Puts the topmost module into another echo, and a message to it there.
fn goes_on<M: Module>(rt: &impl Abort, chain: &mut Chain<M>, log: &Log, want: u64) -> bool {
    let mut other = chain_over(rt, chain.alloc(), Driver::Echo, FIVE);
    let is_moved = moves(chain, &mut other) && steps::acts(rt, &mut other, Write(b"x"));
    let is_asked = logged(log) == want;
    drop(other);
    is_moved && is_asked
}

/// Moves the topmost module of end A from one chain to the other.
fn moves<M: ModuleOf>(from: &mut Chain<M>, to: &mut Chain<M>) -> bool {
    match from.remove(End::A) {
        Some(instance) => inserts(to, End::A, instance),
        None => false,
    }
}

/// Whether the topmost module has counted this number.
fn has_counted(chain: &Boxes, n: u64) -> bool {
    match chain.shape(End::A, 1) {
        Some(shape) => matches!(shape.kind, Kind::Count { n: found } if found == n),
        None => false,
    }
}

/// Does a step, and returns whether it had the expected outcome.
fn asks(rt: &impl Abort, chain: &mut Boxes, log: &Log, ask: Ask) -> bool {
    match ask {
        Ask::Do(call) => steps::acts(rt, chain, call),
        Ask::Push(end, serial, number, object) => {
            let instance = with_object(rt, chain.alloc(), log, (serial, number), object);
            inserts(chain, end, instance)
        }
        Ask::Refused(end, serial, number, object) => {
            let instance = with_object(rt, chain.alloc(), log, (serial, number), object);
            comes_back(chain, log, end, instance, serial)
        }
        Ask::Counted(n) => has_counted(chain, n),
        Ask::Remove(serial) => removes(chain, log, serial),
        Ask::Dismantle(end, wants) => dismantles(chain, log, end, wants),
        Ask::GoOn(want) => goes_on(rt, chain, log, want),
    }
}

/// Does steps one after another, and checks the log after each.
fn tell(rt: &impl Abort, chain: &mut Boxes, log: &Log, name: &str, rows: &[(Ask, u64)]) {
    for (at, (ask, want)) in rows.iter().enumerate() {
        let is_so = asks(rt, chain, log, *ask);
        check(rt, (name, at), is_so && logged(log) == *want);
    }
}

fn tell_story(rt: &impl Abort, alloc: Global, story: Story<'_>) {
    let log = new_log(rt, alloc);
    let mut chain: Box<Boxes> = chain_over(rt, alloc, story.driver, FIVE);
    tell(rt, &mut chain, &log, story.name, story.asks);
    drop(chain);
    let is_so = story.end.is_none() || story.end == Some(logged(&log));
    check(rt, (story.name, story.asks.len()), is_so);
}

pub(super) fn tell_stories(rt: &impl Abort, alloc: Global, stories: &[Story<'_>]) {
    for story in stories {
        tell_story(rt, alloc, *story);
    }
}

/// An object that passes everything on, without a queue.
pub(super) const NO_QUEUE: Object = Object {
    pushes: Pushes::Pass,
    queues: (false, false),
    refuses: (0, 0),
};

/// An object that passes everything on, with a queue on both sides.
const TWO_QUEUES: Object = Object {
    pushes: Pushes::Pass,
    queues: (true, true),
    refuses: (0, 0),
};

// A message goes down through the queues of module 2 and then module 1, and up through those of 1 and then 2.
const EACH_QUEUE_IS_SERVED_BY_ITS_OBJECT: &[(Ask, u64)] = &[
    (Push(End::A, 1, 1, TWO_QUEUES), 0),
    (Push(End::A, 2, 2, TWO_QUEUES), 0),
    (Do(Write(b"x")), 2),
    (Do(Serve(WR_1)), 251),
    (Do(Serve(WR_2)), 2514),
    (Do(Serve(DRV_A)), 25141),
    (Do(Serve(RD_2)), 2514142),
    (Do(Serve(RD_1)), 25141425),
    (Do(HeadLen(End::A, 1)), 25141425),
];

// A message that is handed in below the topmost of three modules goes down past 2 and 1, and up past 1, 2 and
// 3. A message that is handed in from below to the second goes up past 2 and 3. The only queue is the
// driver's. Its place is looked at before its move and when it is empty.
const EACH_MESSAGE_IS_PUT_TO_ITS_OBJECTS: &[(Ask, u64)] = &[
    (Push(End::A, 1, 1, NO_QUEUE), 0),
    (Push(End::A, 2, 2, NO_QUEUE), 0),
    (Push(End::A, 3, 3, NO_QUEUE), 0),
    (
        Do(With(
            Deliver(Spot::Down { end: End::A, i: 2 }),
            Sample::Data(0, b"x"),
        )),
        21,
    ),
    (Do(Settle(&[DRV_A], 2)), 21123),
    (
        Do(With(
            Deliver(Spot::Up { end: End::A, i: 2 }),
            Sample::Data(0, b"y"),
        )),
        2112323,
    ),
    (
        Do(With(
            Deliver(Spot::Down { end: End::A, i: 3 }),
            Sample::Pcproto(b"h", None),
        )),
        21123231123,
    ),
    (Do(HeadLen(End::A, 3)), 21123231123),
];

// The topmost module comes out first. An object is closed when it is taken out of its instance.
const REMOVED_OBJECTS_ARE_THE_TOPMOST: &[(Ask, u64)] = &[
    (Push(End::A, 1, 1, TWO_QUEUES), 0),
    (Push(End::A, 2, 2, TWO_QUEUES), 0),
    (Push(End::A, 3, 3, TWO_QUEUES), 0),
    (Remove(3), 9),
    (Remove(2), 98),
    (Remove(1), 987),
    (Do(Call::Remove(None)), 987),
];

// All modules come out at once, topmost first, each with its object. None is closed before.
const DISMANTLED_OBJECTS_COME_TOPMOST_FIRST: &[(Ask, u64)] = &[
    (Push(End::A, 1, 1, TWO_QUEUES), 0),
    (Push(End::A, 2, 2, TWO_QUEUES), 0),
    (Push(End::A, 3, 3, TWO_QUEUES), 0),
    (Dismantle(End::A, &[(3, 9), (2, 98), (1, 987)]), 987),
];

// Once its module is in another chain, the object that came back is asked, and no other. Then the object that
// stayed is asked in the first chain.
const OBJECT_GOES_ON_IN_ANOTHER_CHAIN: &[(Ask, u64)] = &[
    (Push(End::A, 1, 1, NO_QUEUE), 0),
    (Push(End::A, 2, 2, NO_QUEUE), 0),
    (GoOn(2), 28),
    (Do(Write(b"x")), 281),
];

const STORIES: &[Story<'static>] = &[
    Story {
        name: "an object goes on in another chain",
        driver: Driver::Echo,
        asks: OBJECT_GOES_ON_IN_ANOTHER_CHAIN,
        end: None,
    },
    Story {
        name: "each queue is served by its object",
        driver: Driver::Echo,
        asks: EACH_QUEUE_IS_SERVED_BY_ITS_OBJECT,
        end: None,
    },
    Story {
        name: "each message is put to its objects",
        driver: Driver::Echo,
        asks: EACH_MESSAGE_IS_PUT_TO_ITS_OBJECTS,
        end: None,
    },
    Story {
        name: "removed objects are the topmost",
        driver: Driver::Echo,
        asks: REMOVED_OBJECTS_ARE_THE_TOPMOST,
        end: None,
    },
    Story {
        name: "dismantled objects come topmost first",
        driver: Driver::Echo,
        asks: DISMANTLED_OBJECTS_COME_TOPMOST_FIRST,
        end: None,
    },
];

#[test]
fn each_story_goes_as_told(rt: HostRuntime) {
    tell_stories(&rt, rt.alloc(), STORIES);
}
