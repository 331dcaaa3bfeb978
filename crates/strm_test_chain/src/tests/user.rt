//! Modules as a user of the crate writes them: an object that keeps a tally of its calls, one that leaves
//! both procedures out, and one for a vocabulary of its own.
use super::Sample::{Ack, Ioctl};
use super::kinds::Keeps::{Counted, Same};
use super::kinds::Want::{GoesOn, Refused, Sends};
use super::kinds::{Call, Row, Want, X, play};
use super::{Log, boxed_message, held, logged, new_log, shaped};
use std::alloc::Global;
use std::process::Abort;
use std::sync::atomic::Ordering;
use strm_module::{Instance, Kind, Kinds, Module, ModuleOf, Outs, Put, Shape, Turn, reply};
use strm_module_builtin::Count;
use strm_msg::Side::{Rd, Wr};
use strm_msg::{BoxedMessage, NoMem, Side};

const PUT: u64 = 1;

const SERVED: u64 = 100;

const CLOSED: u64 = 10000;

/// An object that acts by its shape, and adds `PUT`, `SERVED` or `CLOSED` to its tally when it is asked or
/// closed. It can refuse its first put or its first service.
struct Watch {
    tally: Log,
    refuses_put: bool,
    refuses_serve: bool,
    seen: u64,
}

impl Drop for Watch {
    fn drop(self) {
        self.tally.fetch_add(CLOSED, Ordering::SeqCst);
        let Watch {
            tally: _,
            refuses_put: _,
            refuses_serve: _,
            seen: _,
        } = self;
    }
}

impl Module for Watch {
    fn put(
        &mut self,
        alloc: Global,
        shape: &mut Shape,
        side: Side,
        m: BoxedMessage,
    ) -> Result<Put, NoMem> {
        self.tally.fetch_add(PUT, Ordering::SeqCst);
        self.seen = self.seen.saturating_add(1);
        if self.refuses_put {
            self.refuses_put = false;
            return Err(NoMem);
        }
        shape.put(alloc, side, m)
    }

    fn serve(
        &mut self,
        alloc: Global,
        shape: &mut Shape,
        side: Side,
        m: BoxedMessage,
    ) -> Result<Outs, NoMem> {
        self.tally.fetch_add(SERVED, Ordering::SeqCst);
        if self.refuses_serve {
            self.refuses_serve = false;
            return Err(NoMem);
        }
        shape.serve(alloc, side, m)
    }
}

/// An object with this tally that refuses its first put or its first service.
fn watching(rt: &impl Abort, tally: &Log, (refuses_put, refuses_serve): (bool, bool)) -> Watch {
    Watch {
        tally: held(rt, tally),
        refuses_put,
        refuses_serve,
        seen: 0,
    }
}

/// An object that refuses nothing.
const NEVER: (bool, bool) = (false, false);

fn boxed(rt: &impl Abort, alloc: Global, watch: Watch) -> Box<dyn Module> {
    Box::new(alloc, watch).expect(rt, "no memory for a box")
}

/// A module without queues that has counted three messages.
fn counting<M: Module>(rt: &impl Abort, object: M) -> Instance<M> {
    let kind = Kind::Count { n: 3 };
    Instance::new(shaped(rt, 3, b"count", (None, None), kind), object)
}

const ANSWERED: &[Row] = &[(Wr, X, GoesOn, Counted(4))];

/// A refused call leaves the shape unchanged, and the next call is answered.
const REFUSED_FIRST: &[Row] = &[(Wr, X, Refused, Same), (Wr, X, GoesOn, Counted(4))];

/// The call of an object, the calls that it refuses, the messages that it is handed, and the number in its
/// tally after them, and once it is closed.
type Example = (Call, (bool, bool), &'static [Row], u64, u64);

const EXAMPLES: &[Example] = &[
    (Call::Put, NEVER, ANSWERED, PUT, PUT + CLOSED),
    (Call::Serve, NEVER, ANSWERED, SERVED, SERVED + CLOSED),
    (
        Call::Put,
        (true, false),
        REFUSED_FIRST,
        2 * PUT,
        2 * PUT + CLOSED,
    ),
    (
        Call::Serve,
        (false, true),
        REFUSED_FIRST,
        2 * SERVED,
        2 * SERVED + CLOSED,
    ),
];

/// Checks that the first module is asked and closed, while the second has nothing on its tally.
fn asks_first<M: Module>(
    rt: &impl Abort,
    alloc: Global,
    (first, second): (M, M),
    (tally, other): (&Log, &Log),
    (call, _, rows, asked, closed): Example,
) {
    let mut first = counting(rt, first);
    let second = counting(rt, second);
    play(rt, alloc, &mut first, call, ("an object", rows));
    assert!(rt; logged(tally) == asked);
    drop(first);
    assert!(rt; logged(tally) == closed && logged(other) == 0);
    drop(second);
    assert!(rt; logged(tally) == closed && logged(other) == CLOSED);
}

#[test]
fn object_of_the_instance_is_called_and_closed_once(rt: HostRuntime) {
    for example in EXAMPLES {
        let (one, other) = (new_log(&rt, rt.alloc()), new_log(&rt, rt.alloc()));
        let objects = (
            watching(&rt, &one, example.1),
            watching(&rt, &other, example.1),
        );
        asks_first(&rt, rt.alloc(), objects, (&one, &other), *example);
    }
}

#[test]
fn object_in_the_box_is_called_and_closed_once(rt: HostRuntime) {
    let alloc = rt.alloc();
    for example in EXAMPLES {
        let (one, other) = (new_log(&rt, alloc), new_log(&rt, alloc));
        let first = boxed(&rt, alloc, watching(&rt, &one, example.1));
        let second = boxed(&rt, alloc, watching(&rt, &other, example.1));
        asks_first(&rt, alloc, (first, second), (&one, &other), *example);
    }
}

/// Whether one message was put to the object, which is then closed.
fn has_seen_one(tally: &Log, watch: Watch) -> bool {
    let is_so = (watch.seen == 1) & (logged(tally) == PUT);
    drop(watch);
    is_so
}

#[test]
fn object_comes_back_with_its_private_data(rt: HostRuntime) {
    let alloc = rt.alloc();
    let tally = new_log(&rt, alloc);
    let mut it = counting(&rt, watching(&rt, &tally, NEVER));
    play(&rt, alloc, &mut it, Call::Put, ("private data", ANSWERED));
    assert!(rt; has_seen_one(&tally, it.into_object()) && logged(&tally) == PUT + CLOSED);
}

const TOLD: Want = Sends(Rd, Ack(7, 4, None));

const COUNTED_AND_TOLD: &[Row] = &[
    (Wr, X, GoesOn, Counted(4)),
    (Wr, Ioctl(7, 2, None), TOLD, Counted(0)),
];

#[test]
fn boxed_count_counts(rt: HostRuntime) {
    let alloc = rt.alloc();
    let object: Box<dyn Module> = Box::new(alloc, Count).expect(&rt, "no memory for a box");
    let mut it = counting(&rt, object);
    play(
        &rt,
        alloc,
        &mut it,
        Call::Put,
        ("boxed count", COUNTED_AND_TOLD),
    );
}

/// A vocabulary of one kind, which turns each message round.
#[derive(Debug, Drop, PartialEq, Eq)]
struct Reply;

impl Kinds for Reply {
    ghost use Rattle.std.specs.Prelude.{not};
    ghost use Rattle.strm_module.specs.Kinds.{serving, replied, is_up};

    ghost means = { serving (λ kind side m. replied kind m) (λ kind side. not (is_up side)) };

    fn process(&mut self, _: Global, _: Side, m: BoxedMessage) -> Result<Outs, NoMem> {
        Ok(reply(m))
    }

    fn turn(&self, _: Side) -> Turn {
        Turn::Serves
    }

    fn own(&mut self, _: Global, _: Side) -> Result<Outs, NoMem> {
        Ok(Outs::new())
    }

    fn answers(&self, side: Side) -> bool {
        match side {
            Rd => false,
            Wr => true,
        }
    }

    fn expire(&mut self, _: u32) {}

    fn copy(&self, _: Global) -> Result<Reply, NoMem> {
        Ok(Reply)
    }
}

/// The object of such a module, which acts by its shape.
#[derive(Drop)]
struct Turner;

impl ModuleOf for Turner {
    type Kind = Reply;
}

/// Whether such a module has this answer to a message that is put to it.
fn answers_put(
    rt: &impl Abort,
    alloc: Global,
    it: &mut Instance<Turner>,
    side: Side,
    want: Put,
) -> bool {
    it.put(alloc, side, boxed_message(rt, alloc, X)) == Ok(want)
}

/// Whether a message that is served is turned round.
fn turns_served(rt: &impl Abort, alloc: Global, it: &mut Instance<Turner>) -> bool {
    let turned = reply(boxed_message(rt, alloc, X));
    it.serve(alloc, Rd, boxed_message(rt, alloc, X)) == Ok(turned)
}

#[test]
fn kind_of_another_vocabulary_acts_by_its_meaning(rt: HostRuntime) {
    let alloc = rt.alloc();
    let shape = shaped(&rt, 4, b"turn", (Some((5, 4)), None), Reply);
    let mut it = Instance::new(shape, Turner);
    let before = it.shape().copy(alloc).expect(&rt, "no memory for a shape");
    let turned = Put::Sent(reply(boxed_message(&rt, alloc, X)));
    assert!(rt; answers_put(&rt, alloc, &mut it, Wr, turned));
    let queued = Put::Queue(boxed_message(&rt, alloc, X));
    assert!(rt; answers_put(&rt, alloc, &mut it, Rd, queued));
    assert!(rt; turns_served(&rt, alloc, &mut it));
    assert!(rt; *it.shape() == before);
}
