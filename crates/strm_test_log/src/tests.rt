//! Worked examples that no script can show, by the public calls alone: a stream with one caller, messages
//! that come in at a known point between the calls, the histories of both, and the serials of modules that
//! come back. The expected answers are worked out by hand from the rules.
use arrayvec::ArrayVec;
use std::alloc::Global;
use std::process::Abort;
use strm_head::{
    Acknowledged, Answer, Driver, GetFlag, MOST_MODULES, More, Name, NameList, Outcome, Polled,
    Priority, PutFlag, Received, Refusal, Reply, Request, Stream, Wanted,
};
use strm_module::{BoxedModule, Instance, Kind, Module, ModuleOf, Plain, Shape};
use strm_msg::{BoxedMessage, Bytes, End, Errno, Message, NoMem};

mod circles;
mod histories;
mod owners;
mod tables;
mod ticks;
mod wants;
mod wires;

/// Names of modules, topmost first.
type Names = &'static [&'static [u8]];

/// A kind of module.
#[derive(Clone, Copy, Drop)]
enum Pushes {
    Pass,
    CrNl,
    Tee,
    Mute,
}

/// A message that comes in from a line.
#[derive(Clone, Copy, Drop)]
enum Comes {
    /// Data in a band.
    Data(u8, &'static [u8]),
    /// Control of high priority.
    High(&'static [u8]),
    Hangup,
    Error(Errno),
    /// An error of the write side alone.
    WriteError(Errno),
}

/// A call.
#[derive(Clone, Copy, Drop)]
enum Call {
    /// Takes the first message.
    Get,
    /// Takes the first message, of any band.
    GetOf,
    Read(u16),
    Write(&'static [u8]),
    /// Sends data in a band.
    Send(u8, &'static [u8]),
    /// Sends control of high priority.
    SendHigh(&'static [u8]),
    /// Sends an ioctl without data.
    Str(u32),
    Nread,
    /// Puts in a module of this kind and name.
    Push(Pushes, &'static [u8]),
    Pop,
    Look,
    List,
    /// Flushes all bands of the read side, of the write side, or of both.
    Flush(bool, bool),
    /// Flushes one band of both sides.
    FlushBand(u8),
    Take,
    Poll,
    Close,
}

/// The expected answer of a call.
#[derive(Clone, Copy, Drop)]
enum Want {
    /// Control of high priority was taken.
    Control(&'static [u8]),
    /// Data in a band was taken.
    DataOf(u8, &'static [u8]),
    Bytes(&'static [u8]),
    Written(u64),
    Sent,
    HighSent,
    /// The ioctl was refused.
    Nak(Errno),
    Waiting(u64, u64),
    Pushed,
    Popped(&'static [u8]),
    Listed(Names, Driver),
    /// The close took out the modules of these names.
    Closed(Names),
    Flushed,
    BandFlushed,
    /// A message was taken that had been sent down to a wire.
    Message(Comes),
    /// The wire is closed and empty.
    Hangup,
    Told(Polled),
    Refused(Refusal),
}

/// An event at an end, and its outcome.
#[derive(Clone, Copy, Drop)]
enum Happens {
    /// The call has this answer, that many queues move, and modules of these serials come back. A push has
    /// the number of its row as serial.
    Asked(Call, Want, usize, &'static [u64]),
    /// The message comes in, that many queues move, and service makes that many looks.
    ///
    /// A place is looked at when a message has come to it, or when the queue that it waits for has drained. A
    /// place that may move moves, and is looked at again.
    Taken(Comes, usize, u64),
    /// The message does not come in, and nothing is changed.
    Left(Comes),
}

type Row = (End, Happens);

/// Stops the test if a row of a table does not hold. It prints the name of the table and the number of the
/// row, counted from 0.
fn check(rt: &impl Abort, (name, at): (&str, usize), is_so: bool) {
    assert!(rt; is_so, "{name}: row {at}");
}

fn bytes(rt: &impl Abort, alloc: Global, bytes: &[u8]) -> Bytes {
    Bytes::from_slice(alloc, bytes).expect(rt, "no memory")
}

/// A module of this serial, name and kind, without queues of its own.
fn boxed<M: Module>(
    rt: &impl Abort,
    alloc: Global,
    (serial, name, kind): (u64, &[u8], Kind),
    object: M,
) -> BoxedModule<M> {
    let shape = Shape::new(serial, name, None, None, kind).expect(rt, "a good name");
    BoxedModule::new(alloc, Instance::new(shape, object)).expect(rt, "no memory")
}

/// The serial of a module that came back.
fn serial_at<M: ModuleOf>(back: &[Option<BoxedModule<M>>], i: usize) -> Option<u64> {
    match back.get(i) {
        Some(Some(instance)) => Some(instance.shape().serial),
        _ => None,
    }
}

/// Whether the modules that came back have these serials, topmost first, and no others came back.
fn came_back<M: ModuleOf>(back: &[Option<BoxedModule<M>>], serials: &[u64]) -> bool {
    for (i, serial) in serials.iter().enumerate() {
        if serial_at(back, i) != Some(*serial) {
            return false;
        }
    }
    back.len() == serials.len()
}

/// A new stream over this driver. Its queues are full at 16 bytes.
fn stream_over<M: ModuleOf>(rt: &impl Abort, alloc: Global, driver: Driver) -> Stream<M> {
    Stream::new(alloc, driver, (16, 4), (16, 4)).expect(rt, "no memory for a stream")
}

/// The outcome of a call on end A.
fn apply<M: ModuleOf>(stream: &mut Stream<M>, request: Request<BoxedModule<M>>) -> Outcome<M> {
    stream.apply(End::A, request)
}

/// The result of the call that makes a message of its kind.
fn made(alloc: Global, comes: Comes) -> Result<Message, NoMem> {
    match comes {
        Comes::Data(band, dat) => Message::of_data(alloc, band, dat),
        Comes::High(ctl) => Message::of_pcproto(alloc, ctl, None),
        Comes::Hangup => Ok(Message::of_hangup()),
        Comes::Error(errno) => Ok(Message::of_error(errno)),
        Comes::WriteError(errno) => Ok(Message::of_error2(None, Some(errno))),
    }
}

fn message(rt: &impl Abort, alloc: Global, comes: Comes) -> Message {
    made(alloc, comes).expect(rt, "no memory for a message")
}

fn kind_of(pushes: Pushes) -> Kind {
    match pushes {
        Pushes::Pass => Kind::Pass,
        Pushes::CrNl => Kind::CrNl,
        Pushes::Tee => Kind::Tee,
        Pushes::Mute => Kind::Mute,
    }
}

/// A request that sends data in a band.
fn sent(rt: &impl Abort, alloc: Global, band: u8, dat: &[u8]) -> Request<BoxedModule<Plain>> {
    let dat = Some(bytes(rt, alloc, dat));
    Request::putpmsg(alloc, None, dat, band, PutFlag::Band).expect(rt, "no memory")
}

/// A request that sends control of high priority.
fn sent_high(rt: &impl Abort, alloc: Global, ctl: &[u8]) -> Request<BoxedModule<Plain>> {
    let ctl = Some(bytes(rt, alloc, ctl));
    Request::putmsg(alloc, ctl, None, Priority::Hipri).expect(rt, "no memory")
}

/// The request of a call. A push has a module of this serial.
fn request_of(
    rt: &impl Abort,
    alloc: Global,
    serial: u64,
    call: Call,
) -> Request<BoxedModule<Plain>> {
    match call {
        Call::Get => Request::Getmsg {
            maxctl: Some(64),
            maxdat: Some(64),
            flag: Wanted::Any,
        },
        Call::GetOf => Request::Getpmsg {
            maxctl: Some(64),
            maxdat: Some(64),
            band: 0,
            flag: GetFlag::Any,
        },
        Call::Read(max) => Request::Read { max },
        Call::Write(dat) => Request::Write {
            dat: bytes(rt, alloc, dat),
        },
        Call::Send(band, dat) => sent(rt, alloc, band, dat),
        Call::SendHigh(ctl) => sent_high(rt, alloc, ctl),
        Call::Str(cmd) => Request::Str { cmd, dat: None },
        Call::Nread => Request::Nread,
        Call::Push(pushes, name) => Request::Push {
            instance: boxed(rt, alloc, (serial, name, kind_of(pushes)), Plain),
        },
        Call::Pop => Request::Pop,
        Call::Look => Request::Look,
        Call::List => Request::List,
        Call::Flush(r, w) => Request::Flush { r, w },
        Call::FlushBand(band) => Request::FlushBand {
            band,
            r: true,
            w: true,
        },
        Call::Take => Request::Take,
        Call::Poll => Request::Poll,
        Call::Close => Request::Close,
    }
}

fn name_of(rt: &impl Abort, name: &[u8]) -> Name {
    Name::new(&ArrayVec::try_from(name).ok().expect(rt, "a short name"))
}

fn list_of(rt: &impl Abort, names: &[&[u8]]) -> NameList {
    let mut all: ArrayVec<Name, MOST_MODULES> = ArrayVec::new();
    for name in names {
        let pushed = all.try_push(name_of(rt, name));
        pushed.ok().expect(rt, "few names");
    }
    assert!(rt; all.len() <= MOST_MODULES);
    NameList::new(all.as_slice())
}

/// A reply with control of high priority.
fn control(rt: &impl Abort, alloc: Global, ctl: &[u8]) -> Reply {
    Reply::Getmsg {
        ctl: Some(bytes(rt, alloc, ctl)),
        dat: None,
        flag: Priority::Hipri,
        more: More::Nothing,
    }
}

/// A reply with data in a band.
fn data_of_band(rt: &impl Abort, alloc: Global, band: u8, dat: &[u8]) -> Reply {
    Reply::Getpmsg {
        ctl: None,
        dat: Some(bytes(rt, alloc, dat)),
        flag: Received::Band { band },
        more: More::Nothing,
    }
}

fn read(rt: &impl Abort, alloc: Global, dat: &[u8]) -> Reply {
    Reply::Read {
        dat: bytes(rt, alloc, dat),
    }
}

fn popped(rt: &impl Abort, name: &[u8]) -> Reply {
    Reply::Pop {
        name: name_of(rt, name),
    }
}

fn listed(rt: &impl Abort, names: Names, driver: Driver) -> Reply {
    Reply::List {
        names: list_of(rt, names),
        driver,
    }
}

fn closed(rt: &impl Abort, names: Names) -> Reply {
    Reply::Close {
        names: list_of(rt, names),
    }
}

/// A reply with a message that was taken.
fn taken(rt: &impl Abort, alloc: Global, comes: Comes) -> Reply {
    let m = BoxedMessage::new(alloc, message(rt, alloc, comes)).expect(rt, "no memory");
    Reply::Message { m }
}

fn answer_of(rt: &impl Abort, alloc: Global, want: Want) -> Answer {
    match want {
        Want::Refused(refusal) => Answer::Refused(refusal),
        Want::Control(ctl) => Answer::Done(control(rt, alloc, ctl)),
        Want::DataOf(band, dat) => Answer::Done(data_of_band(rt, alloc, band, dat)),
        Want::Bytes(dat) => Answer::Done(read(rt, alloc, dat)),
        Want::Waiting(messages, bytes) => Answer::Done(Reply::Nread { messages, bytes }),
        Want::Pushed => Answer::Done(Reply::Push),
        Want::Popped(name) => Answer::Done(popped(rt, name)),
        Want::Listed(names, driver) => Answer::Done(listed(rt, names, driver)),
        Want::Closed(names) => Answer::Done(closed(rt, names)),
        Want::Written(len) => Answer::Done(Reply::Write { len }),
        Want::Sent => Answer::Done(Reply::Putpmsg),
        Want::HighSent => Answer::Done(Reply::Putmsg),
        Want::Nak(errno) => Answer::Done(Reply::Str {
            answer: Acknowledged::Nak { errno },
        }),
        Want::Flushed => Answer::Done(Reply::Flush),
        Want::BandFlushed => Answer::Done(Reply::FlushBand),
        Want::Message(comes) => Answer::Done(taken(rt, alloc, comes)),
        Want::Hangup => Answer::Done(Reply::Hangup),
        Want::Told(told) => Answer::Done(Reply::Poll { told }),
    }
}
