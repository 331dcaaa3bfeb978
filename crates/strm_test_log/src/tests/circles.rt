//! Pushes with which messages could go round a circle. They are refused, and their modules come back.
use super::{came_back, check, stream_over};
use std::alloc::Global;
use std::process::Abort;
use strm_head::{Answer, Driver, Refusal, Reply, Request, Stream};
use strm_module::{BoxedModule, Instance, Kinds, ModuleOf, Outs, Shape, Turn, pass_on};
use strm_msg::{BoxedMessage, End, NoMem, Side};

/// A kind that passes everything on, and names the sides on which it may answer messages.
#[derive(Debug, Drop, PartialEq, Eq)]
struct Answering {
    /// Whether it answers messages that come up, as a discipline that echoes.
    up: bool,
    /// Whether it answers messages that go down, as a tee.
    down: bool,
}

impl Kinds for Answering {
    ghost use Rattle.std.specs.Prelude.{if◌then◌else◌};
    ghost use Rattle.strm_module.specs.Kinds.{serving, passed_on, is_up};

    ghost means = { serving (λ kind side m. passed_on kind side m) (λ kind side. if is_up side then kind.up else kind.down) };

    fn process(&mut self, _: Global, side: Side, m: BoxedMessage) -> Result<Outs, NoMem> {
        Ok(pass_on(side, m))
    }

    fn turn(&self, _: Side) -> Turn {
        Turn::Serves
    }

    fn own(&mut self, _: Global, _: Side) -> Result<Outs, NoMem> {
        Ok(Outs::new())
    }

    fn answers(&self, side: Side) -> bool {
        match side {
            Side::Rd => self.up,
            Side::Wr => self.down,
        }
    }

    fn expire(&mut self, _: u32) {}

    fn copy(&self, _: Global) -> Result<Answering, NoMem> {
        Ok(Answering {
            up: self.up,
            down: self.down,
        })
    }
}

/// The object of such a module. It acts by its shape.
#[derive(Drop)]
struct ByShape;

impl ModuleOf for ByShape {
    type Kind = Answering;
}

/// The messages that a module answers.
#[derive(Clone, Copy, Drop)]
enum Pushes {
    /// It answers messages that come up.
    Echoes,
    /// It answers messages that go down.
    Copies,
    Neither,
}

/// A push on an end, and whether it is refused.
type Push = (End, Pushes, bool);

/// Pushes on a new stream. The serial of a module is the number of its push.
const ROWS: &[(&str, Driver, &[Push])] = &[
    (
        "over an echo",
        Driver::Echo,
        &[
            (End::A, Pushes::Copies, false),
            (End::A, Pushes::Echoes, true),
        ],
    ),
    (
        "above one that copies",
        Driver::Line,
        &[
            (End::A, Pushes::Echoes, false),
            (End::A, Pushes::Copies, false),
            (End::A, Pushes::Neither, false),
            (End::A, Pushes::Echoes, true),
        ],
    ),
    (
        "at both ends of a loop",
        Driver::Loop,
        &[
            (End::A, Pushes::Echoes, false),
            (End::A, Pushes::Echoes, false),
            (End::B, Pushes::Neither, false),
            (End::B, Pushes::Echoes, true),
            (End::B, Pushes::Copies, false),
        ],
    ),
    (
        "over a wire",
        Driver::Wire,
        &[
            (End::A, Pushes::Echoes, false),
            (End::A, Pushes::Echoes, false),
        ],
    ),
];

/// A module of this serial, without queues of its own.
fn module(rt: &impl Abort, alloc: Global, serial: u64, pushes: Pushes) -> BoxedModule<ByShape> {
    let (up, down) = match pushes {
        Pushes::Echoes => (true, false),
        Pushes::Copies => (false, true),
        Pushes::Neither => (false, false),
    };
    let shape = Shape::new(serial, b"m", None, None, Answering { up, down });
    let shape = shape.expect(rt, "a good name");
    BoxedModule::new(alloc, Instance::new(shape, ByShape)).expect(rt, "no memory")
}

/// Whether a push is done, or is refused and its module comes back, as the row has it.
fn is_pushed(
    stream: &mut Stream<ByShape>,
    instance: BoxedModule<ByShape>,
    serial: u64,
    (end, _, is_refused): Push,
) -> bool {
    let outcome = stream.apply(end, Request::Push { instance });
    let back = outcome.back.as_slice();
    if is_refused {
        outcome.answer == Answer::Refused(Refusal::Invalid) && came_back(back, &[serial])
    } else {
        outcome.answer == Answer::Done(Reply::Push) && came_back(back, &[])
    }
}

#[test]
fn no_push_closes_a_circle(rt: HostRuntime) {
    let alloc = rt.alloc();
    for (name, driver, pushes) in ROWS {
        let mut stream = stream_over(&rt, alloc, *driver);
        for (at, push) in pushes.iter().enumerate() {
            let serial = at as u64;
            let instance = module(&rt, alloc, serial, push.1);
            let is_so = is_pushed(&mut stream, instance, serial, *push);
            check(&rt, (name, at), is_so);
        }
    }
}
