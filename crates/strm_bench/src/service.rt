//! The cost of calls on an echo stream, with the service that follows them, and on a wire.
ghost use Rattle.std.specs.Mem.{FitsInMemory};
ghost use Rattle.strm_head.specs.contracts.outcome.Outcome as outcome_type;

use std::alloc::Global;
use std::rt::Clock;
use std::time::Instant;
use strm_head::{Driver, Priority, Request, Stream, Wanted};
use strm_module::{BoxedModule, Instance, Kind, ModuleOf, Plain, Shape};
use strm_msg::{Bytes, End, NoMem};

/// The number of times that the calls are made.
const ROUNDS: u32 = 50_000;

/// The bytes of each message.
const TEXT: &[u8] = b"aaaaa";

/// A high and a low mark far above the bytes that wait.
const WIDE: (u32, u32) = (4096, 1024);

/// The marks of a queue that one message fills.
const NARROW: (u32, u32) = (5, 4);

/// The names of the modules.
const NAMES: [&[u8]; 8] = [b"m1", b"m2", b"m3", b"m4", b"m5", b"m6", b"m7", b"m8"];

/// The modules of a stream, which pass everything.
#[derive(Clone, Copy)]
enum Modules {
    /// No modules.
    None,
    /// Eight modules without queues.
    Bare,
    /// Eight modules with a queue on each side, with these marks.
    Queued((u32, u32)),
}

/// The calls that are made over and over. They leave the stream unchanged.
#[derive(Clone, Copy)]
enum Calls {
    /// A write, and a read that takes it.
    WriteRead,
    /// A write, and a take of the message that it has sent down.
    WriteTake,
    /// A getmsg, and a write.
    GetmsgWrite,
    /// A getread, which changes no queue.
    GetRead,
}

/// The work that is timed.
#[derive(Clone, Copy)]
struct Trial {
    /// Its name.
    name: &'static str,
    /// The driver of the stream.
    driver: Driver,
    /// The marks of the head and of the driver.
    marks: (u32, u32),
    /// The modules of the stream.
    modules: Modules,
    /// The number of messages that are written first.
    written: u32,
    /// The calls.
    calls: Calls,
}

const TRIALS: [Trial; 7] = [
    Trial {
        name: "a write and a read, no modules",
        driver: Driver::Echo,
        marks: WIDE,
        modules: Modules::None,
        written: 0,
        calls: Calls::WriteRead,
    },
    Trial {
        name: "a write and a take, over a wire",
        driver: Driver::Wire,
        marks: WIDE,
        modules: Modules::None,
        written: 0,
        calls: Calls::WriteTake,
    },
    Trial {
        name: "a write and a read, eight modules without queues",
        driver: Driver::Echo,
        marks: WIDE,
        modules: Modules::Bare,
        written: 0,
        calls: Calls::WriteRead,
    },
    Trial {
        name: "a write and a read, eight modules with queues",
        driver: Driver::Echo,
        marks: WIDE,
        modules: Modules::Queued(NARROW),
        written: 0,
        calls: Calls::WriteRead,
    },
    Trial {
        name: "a getmsg and a write, eight modules with queues, all full",
        driver: Driver::Echo,
        marks: NARROW,
        modules: Modules::Queued(NARROW),
        written: 18,
        calls: Calls::GetmsgWrite,
    },
    Trial {
        name: "a getread, no modules",
        driver: Driver::Echo,
        marks: WIDE,
        modules: Modules::None,
        written: 0,
        calls: Calls::GetRead,
    },
    Trial {
        name: "a getread, eight modules with queues",
        driver: Driver::Echo,
        marks: WIDE,
        modules: Modules::Queued(WIDE),
        written: 0,
        calls: Calls::GetRead,
    },
];

/// The service of calls, added up.
#[derive(Clone, Copy)]
struct Service {
    /// The number of moves.
    moves: u64,
    /// The number of looks.
    looks: u64,
}

impl Service {
    /// The sum of this service and another.
    fn with(self, other: Service) -> Service {
        Service {
            moves: self.moves.saturating_add(other.moves),
            looks: self.looks.saturating_add(other.looks),
        }
    }
}

/// Makes a call on an end of the stream, and returns its service.
fn ask<M: ModuleOf>(stream: &mut Stream<M>, request: Request<BoxedModule<M>>) -> Service
    requires { FitsInMemory (outcome_type.the_row M.row M.Kind.row M.Kind.Kinds) }
{
    let outcome = stream.apply(End::A, request);
    Service {
        moves: outcome.moves.len() as u64,
        looks: outcome.looks,
    }
}

/// Writes a message.
fn write(alloc: Global, stream: &mut Stream<Plain>) -> Result<Service, NoMem> {
    let dat = Bytes::from_slice(alloc, TEXT)?;
    Ok(ask(stream, Request::Write { dat }))
}

/// Puts eight modules in. Their queues have these marks, if they have queues.
fn push_eight(
    alloc: Global,
    stream: &mut Stream<Plain>,
    queues: Option<(u32, u32)>,
) -> anyhow::Result<()> {
    for (serial, name) in NAMES.iter().enumerate() {
        let shape = Shape::new(serial as u64, name, queues, queues, Kind::Pass)?;
        let instance = BoxedModule::new(alloc, Instance::new(shape, Plain))?;
        ask(stream, Request::Push { instance });
    }
    Ok(())
}

/// Puts the modules of a trial in, and writes its messages.
fn fill(alloc: Global, stream: &mut Stream<Plain>, trial: &Trial) -> anyhow::Result<()> {
    match trial.modules {
        Modules::None => {}
        Modules::Bare => push_eight(alloc, stream, None)?,
        Modules::Queued(marks) => push_eight(alloc, stream, Some(marks))?,
    }
    for _ in 0..trial.written {
        write(alloc, stream)?;
    }
    Ok(())
}

/// Makes the calls once, and returns the service so far with theirs.
fn turn(
    alloc: Global,
    stream: &mut Stream<Plain>,
    calls: Calls,
    service: Service,
) -> Result<Service, NoMem> {
    match calls {
        Calls::WriteRead => {
            let wrote = write(alloc, stream)?;
            let read = ask(stream, Request::Read { max: 5 });
            Ok(service.with(wrote).with(read))
        }
        Calls::WriteTake => {
            let wrote = write(alloc, stream)?;
            let took = ask(stream, Request::Take);
            Ok(service.with(wrote).with(took))
        }
        Calls::GetmsgWrite => {
            let getmsg = Request::Getmsg {
                maxctl: None,
                maxdat: Some(5),
                flag: Wanted::Any,
            };
            let got = ask(stream, getmsg);
            let wrote = write(alloc, stream)?;
            Ok(service.with(got).with(wrote))
        }
        Calls::GetRead => {
            let got = ask(stream, Request::GetRead);
            Ok(service.with(got))
        }
    }
}

/// Makes the calls over and over.
fn turns(alloc: Global, stream: &mut Stream<Plain>, calls: Calls) -> Result<Service, NoMem> {
    let mut service = Service { moves: 0, looks: 0 };
    for _ in 0..ROUNDS {
        service = turn(alloc, stream, calls, service)?;
    }
    Ok(service)
}

/// The service of a trial's calls on its stream, and the nanoseconds that they took.
fn timed(
    rt: &impl Clock,
    alloc: Global,
    stream: &mut Stream<Plain>,
    trial: &Trial,
) -> anyhow::Result<(Service, u128)> {
    fill(alloc, stream, trial)?;
    let start = Instant::now(rt)?;
    let service = turns(alloc, stream, trial.calls)?;
    Ok((service, start.elapsed(rt)?.as_nanos()))
}

/// The service of a trial's calls, and the nanoseconds that they took.
fn tried(rt: &impl Clock, alloc: Global, trial: &Trial) -> anyhow::Result<(Service, u128)> {
    let mut stream = Stream::new(alloc, trial.driver, trial.marks, trial.marks)?;
    timed(rt, alloc, &mut stream, trial)
}

/// Prints the calls that are made, their number, and their moves and looks. If they are timed, also prints
/// the time that they take.
pub fn measure<R: Print + Clock + AllocGlobal>(rt: &R, is_timed: bool) -> anyhow::Result<()> {
    for trial in &TRIALS {
        let (service, nanos) = tried(rt, rt.alloc(), trial)?;
        let name = trial.name;
        let moves = service.moves / u64::from(ROUNDS);
        let looks = service.looks / u64::from(ROUNDS);
        print!(rt; "{name}: {ROUNDS} times, moves {moves} and looks {looks} each")?;
        if is_timed {
            print!(rt; ", {} ns each", nanos / u128::from(ROUNDS))?;
        }
        println!(rt; "")?;
    }
    Ok(())
}
