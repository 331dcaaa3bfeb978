//! An owner that sends up what comes down to its module, on each kind of stream. The outcomes are worked out
//! by hand from the refusals of service calls.
use std::alloc::Global;
use std::process::Abort;
use std::sync::Wait;
use strm_head::{Outcome, Stream};
use strm_head_calls::{Answer, Name, Refusal, Reply, Request, ServiceCall, Setup, Wanted};
use strm_module::{BoxedModule, Driver, Instance, Kind, ModuleOf, Plain, Shape};
use strm_msg::{BoxedMessage, Bytes, End, Side};
use strm_owner::{Owner, Pumped, ServedModule, Told};
use strm_shared::{AnyCalls, Call, Log, Ring, Seat, Shared};

/// The name of the module.
const NAME: &[u8] = b"m";

/// Sends up what comes down to its module. It rests when it is refused, until it is pumped again.
#[derive(Drop)]
struct Returner {
    /// A message that is to go up.
    held: Option<BoxedMessage>,
    /// Whether it rests.
    rests: bool,
    /// The refusals that it has heard.
    refusals: Vec<Refusal>,
}

impl Returner {
    fn new(alloc: Global) -> Returner {
        Returner {
            held: None,
            rests: false,
            refusals: Vec::new(alloc),
        }
    }

    /// Whether it has heard these refusals since it was asked last.
    fn was_refused(&mut self, wanted: &[Refusal]) -> bool {
        let is_so = self.refusals.as_slice() == wanted;
        self.refusals.clear();
        is_so
    }
}

impl Owner for Returner {
    ghost use Rattle.std.specs.Prelude.{⊤};

    ghost Asks = { λ owner call after. ⊤ };

    ghost Hears = { λ owner told after. ⊤ };

    fn next_call(&mut self) -> Option<(Side, ServiceCall)> {
        if self.rests {
            self.rests = false;
            return None;
        }
        match self.held.take() {
            Some(m) => Some((Side::Rd, ServiceCall::Putnext { m })),
            None => Some((Side::Wr, ServiceCall::Getq { flag: Wanted::Any })),
        }
    }

    fn hear(&mut self, told: Told) {
        match told {
            Told::Done {
                reply: Reply::Message { m },
            } => self.held = Some(m),
            Told::Refused { refusal, call } => {
                self.rests = true;
                let _ = self.refusals.push(refusal);
                if let ServiceCall::Putnext { m } = call {
                    self.held = Some(m);
                }
            }
            _ => {}
        }
    }
}

fn served_module(rt: &impl Abort, alloc: Global, name: &[u8]) -> ServedModule {
    ServedModule::new(alloc, End::A, Name::of(name).expect(rt, "a short name"))
}

/// A push of a module that the program serves.
fn push(rt: &impl Abort, alloc: Global) -> Request<BoxedModule<Plain>> {
    let shape = Shape::new(1, NAME, Some((16, 8)), Some((16, 8)), Kind::Pass);
    let shape = shape.expect(rt, "a good name").noenabled();
    let instance = BoxedModule::new(alloc, Instance::new(shape, Plain)).expect(rt, "no memory");
    Request::Push { instance }
}

fn write<P>(rt: &impl Abort, alloc: Global, text: &[u8]) -> Request<P> {
    let dat = Bytes::from_slice(alloc, text).expect(rt, "no memory");
    Request::Write { dat }
}

/// A stream whose head is full at 5 bytes.
fn stream(rt: &impl Abort, alloc: Global) -> Stream<Plain> {
    Stream::new(alloc, Driver::Wire, (5, 4), (16, 8)).expect(rt, "no memory")
}

fn apply<M: ModuleOf>(stream: &mut Stream<M>, request: Request<BoxedModule<M>>) -> Answer {
    let Outcome { answer, .. } = stream.apply(End::A, request);
    answer
}

/// Whether these bytes are read.
fn reads<M: ModuleOf>(stream: &mut Stream<M>, wanted: &[u8]) -> bool {
    match apply(stream, Request::Read { max: 64 }) {
        Answer::Done(Reply::Read { dat }) => dat.as_slice() == wanted,
        _ => false,
    }
}

/// What a pump says that did so many calls and then had nothing to do.
fn idle(done: u32) -> Pumped {
    Pumped {
        done,
        is_idle: true,
    }
}

/// What a pump says whose budget was used up.
fn used_up(done: u32) -> Pumped {
    Pumped {
        done,
        is_idle: false,
    }
}

/// A stream, its module, and an owner.
#[derive(Drop)]
struct Scene<M: ModuleOf> {
    stream: Stream<M>,
    served: ServedModule,
    owner: Returner,
}

impl<M: ModuleOf> Scene<M> {
    /// A stream with this module pushed, and the owner of the module of a name.
    fn new(
        rt: &impl Abort,
        alloc: Global,
        name: &[u8],
        mut stream: Stream<M>,
        push: Request<BoxedModule<M>>,
    ) -> Scene<M> {
        let pushed = apply(&mut stream, push);
        drop(pushed);
        Scene {
            stream,
            served: served_module(rt, alloc, name),
            owner: Returner::new(alloc),
        }
    }

    fn writes(&mut self, rt: &impl Abort, alloc: Global, text: &[u8]) {
        let request = write(rt, alloc, text);
        let written = apply(&mut self.stream, request);
        drop(written);
    }

    /// Pumps, and says whether that is what came of it, and which refusals the owner has heard.
    fn pumps(&mut self, budget: u32, wanted: Pumped, refusals: &[Refusal]) -> bool {
        let pumped = self.served.pump(&mut self.stream, &mut self.owner, budget);
        pumped == wanted && self.owner.was_refused(refusals)
    }

    fn reads(&mut self, wanted: &[u8]) -> bool {
        reads(&mut self.stream, wanted)
    }
}

/// A getq that finds nothing; and then a getq, a putnext, and a getq that finds nothing.
fn serves_until_idle<M: ModuleOf>(rt: &impl Abort, alloc: Global, mut scene: Scene<M>) {
    assert!(rt; scene.pumps(10, idle(1), &[Refusal::WouldWait]));
    scene.writes(rt, alloc, b"abc");
    assert!(rt; scene.pumps(10, idle(3), &[Refusal::WouldWait]));
    assert!(rt; scene.reads(b"abc"));
}

#[test]
fn owner_serves_its_module_until_it_has_nothing_to_do(rt: HostRuntime) {
    let alloc = rt.alloc();
    let scene = Scene::new(&rt, alloc, NAME, stream(&rt, alloc), push(&rt, alloc));
    serves_until_idle(&rt, alloc, scene);
}

/// No call, one call, and then the others.
fn serves_within_budgets<M: ModuleOf>(rt: &impl Abort, alloc: Global, mut scene: Scene<M>) {
    scene.writes(rt, alloc, b"abc");
    assert!(rt; scene.pumps(0, used_up(0), &[]));
    assert!(rt; scene.pumps(1, used_up(1), &[]));
    assert!(rt; scene.pumps(10, idle(2), &[Refusal::WouldWait]));
    assert!(rt; scene.reads(b"abc"));
}

#[test]
fn budget_ends_a_pump_and_the_next_one_goes_on(rt: HostRuntime) {
    let alloc = rt.alloc();
    let scene = Scene::new(&rt, alloc, NAME, stream(&rt, alloc), push(&rt, alloc));
    serves_within_budgets(&rt, alloc, scene);
}

/// The first message fills the head. The second is taken, cannot go up, and comes back to the owner.
fn keeps_what_has_no_room<M: ModuleOf>(rt: &impl Abort, alloc: Global, mut scene: Scene<M>) {
    scene.writes(rt, alloc, b"first");
    scene.writes(rt, alloc, b"second");
    assert!(rt; scene.pumps(10, idle(4), &[Refusal::WouldWait]));
    assert!(rt; scene.pumps(10, idle(1), &[Refusal::WouldWait]));
    assert!(rt; scene.reads(b"first"));
    assert!(rt; scene.pumps(10, idle(2), &[Refusal::WouldWait]));
    assert!(rt; scene.reads(b"second"));
}

#[test]
fn message_without_room_comes_back_to_its_owner(rt: HostRuntime) {
    let alloc = rt.alloc();
    let scene = Scene::new(&rt, alloc, NAME, stream(&rt, alloc), push(&rt, alloc));
    keeps_what_has_no_room(&rt, alloc, scene);
}

/// There is no such module, and then the end is closed.
fn finds_no_module<M: ModuleOf>(rt: &impl Abort, mut scene: Scene<M>) {
    assert!(rt; scene.pumps(10, idle(1), &[Refusal::Invalid]));
    let closed = apply(&mut scene.stream, Request::Close);
    drop(closed);
    assert!(rt; scene.pumps(10, idle(1), &[Refusal::Closed]));
}

#[test]
fn owner_of_a_module_that_is_not_there_is_refused(rt: HostRuntime) {
    let alloc = rt.alloc();
    let scene = Scene::new(&rt, alloc, b"other", stream(&rt, alloc), push(&rt, alloc));
    finds_no_module(&rt, scene);
}

/// The setup of an echo whose head is full at 5 bytes.
const SETUP: Setup = Setup {
    driver: Driver::Echo,
    head: (5, 4),
    drv: (16, 8),
    ring: 1,
};

/// A call at end A.
fn call<P>(request: Request<P>) -> Call<P> {
    Call {
        end: End::A,
        request,
    }
}

/// The push, the write, the getq and the putnext are entries. The getq that finds nothing is not made.
fn is_recorded<M: ModuleOf>(
    rt: &impl Abort,
    alloc: Global,
    mut log: Log<M>,
    push: Request<BoxedModule<M>>,
) {
    drop(log.call(0, 1, call(push)));
    drop(log.call(0, 2, call(write(rt, alloc, b"abc"))));
    let mut owner = Returner::new(alloc);
    let served = served_module(rt, alloc, NAME);
    assert!(rt; served.pump_log(&mut log, 7, &mut owner, 10) == idle(3));
    assert!(rt; owner.was_refused(&[Refusal::WouldWait]));
    assert!(rt; log.history().len() == 4);
}

#[test]
fn history_has_the_calls_that_were_made(rt: HostRuntime) {
    let alloc = rt.alloc();
    let log: Log<Plain> = Log::new(alloc, SETUP).expect(&rt, "no memory");
    is_recorded(&rt, alloc, log, push(&rt, alloc));
}

/// Makes a call from a seat of the stream.
fn makes<M: ModuleOf, R: Wait + Abort>(
    rt: &R,
    shared: &Shared<M, AnyCalls>,
    seat: &mut Seat,
    request: Request<BoxedModule<M>>,
) {
    assert!(rt; seat.number() == shared.number());
    drop(shared.call(rt, seat, call(request)));
}

/// Each call is made from the seat, the getq that finds nothing too.
fn is_counted<M: ModuleOf, R: Wait + Abort>(
    rt: &R,
    alloc: Global,
    shared: Shared<M, AnyCalls>,
    mut seats: Vec<Seat>,
    push: Request<BoxedModule<M>>,
) {
    let mut seat = seats.pop().expect(rt, "a seat");
    let mut user = seats.pop().expect(rt, "a seat");
    makes(rt, &shared, &mut user, push);
    makes(rt, &shared, &mut user, write(rt, alloc, b"abc"));
    let mut owner = Returner::new(alloc);
    let served = served_module(rt, alloc, NAME);
    assert!(rt; seat.number() == shared.number());
    assert!(rt; served.pump_shared(&shared, rt, &mut seat, &mut owner, 10) == idle(3));
    assert!(rt; owner.was_refused(&[Refusal::WouldWait]));
    assert!(rt; seat.calls() == 3 && user.calls() == 2);
}

#[test]
fn seat_counts_each_call_of_its_owner(rt: HostRuntime) {
    let alloc = rt.alloc();
    let ring = Ring::new(alloc, SETUP).expect(&rt, "no memory for a ring");
    let (shared, seats, _) = Shared::<Plain, AnyCalls>::new(alloc, 0, 2, ring).expect(
        &rt,
        "no memory",
    );
    is_counted(&rt, alloc, shared, seats, push(&rt, alloc));
}
