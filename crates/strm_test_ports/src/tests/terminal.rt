//! A terminal, whose keys come in and whose output is taken: as an owner over a wire, as a kind of module over
//! a wire, and as one over a loop, where the other end is the master. The outcome of each row is worked out
//! by hand from termio(7) and streamio(7).
use super::editor::{RAW, USUAL};
use port_ldterm::{GET_MODES, Modes, SET_MODES, Terminal};
use port_ldterm_module::ByShape;
use std::alloc::Global;
use std::process::Abort;
use strm_head::{Arrived, Outcome, Stream};
use strm_head_calls::{Acknowledged, Answer, Name, Refusal, Reply, Request};
use strm_module::{BoxedModule, Driver, Instance, Kind, ModuleOf, Plain, Shape};
use strm_msg::{Bytes, End, Errno, Message, Prot, ReadMode};
use strm_owner::ServedModule;

/// The most calls that a terminal makes for one event here.
const BUDGET: u32 = 1000;

/// An event, and its outcome.
#[derive(Clone, Copy, Drop)]
enum Row {
    /// Keys come in, and this is shown.
    Types(&'static [u8], &'static [u8]),
    /// Keys come in, and nobody takes what is shown.
    TypesOn(&'static [u8]),
    /// A process reads these bytes.
    Reads(&'static [u8]),
    /// There is nothing to read.
    ReadsNothing,
    /// A process writes a text, and this is shown.
    Writes(&'static [u8], &'static [u8]),
    /// A process writes while nobody takes what is shown.
    WritesOn(&'static [u8]),
    /// A process cannot write, as all is full.
    WritesNothing,
    /// What waited is shown.
    Shows(&'static [u8]),
    /// A process asks for the modes.
    Asks(&'static [u8]),
    /// A process sets the modes.
    Sets(&'static [u8]),
    /// A process cannot set these modes.
    SetsNothing(&'static [u8]),
    /// A process flushes the read side.
    Flushes,
}

use Row::{
    Asks, Flushes, Reads, ReadsNothing, Sets, SetsNothing, Shows, Types, TypesOn, Writes,
    WritesNothing, WritesOn,
};

/// Keys are edited, and lines are read one by one.
const EDITS: &[Row] = &[
    Types(b"lx\x7fs\r", b"lx\x08 \x08s\r\n"),
    Reads(b"ls\n"),
    Writes(b"login:", b"login:"),
    Types(b"rot\x08ot\r", b"rot\x08 \x08ot\r\n"),
    Reads(b"root\n"),
    Types(
        b"rm -r\x15date\r",
        b"rm -r\x08 \x08\x08 \x08\x08 \x08\x08 \x08\x08 \x08date\r\n",
    ),
    Reads(b"date\n"),
    Writes(b"a\nb\n", b"a\r\nb\r\n"),
    Types(b"half", b"half"),
    ReadsNothing,
    Types(b" a line\r", b" a line\r\n"),
    Reads(b"half a line\n"),
    Types(b"bye\x04", b"bye"),
    Reads(b"bye"),
    Types(b"\x04", b""),
    Reads(b""),
];

/// Lines that come in one message go up one by one. The head is full from 16 bytes on: what comes behind is
/// neither lost nor shown before it is typed.
const FILLS: &[Row] = &[
    Types(b"one\rtwo\rthr", b"one\r\ntwo\r\nthr"),
    Reads(b"one\n"),
    Reads(b"two\n"),
    Types(b"ee and more and more\r", b"ee and more and more\r\n"),
    Types(b"second\r", b"second\r\n"),
    Types(b"third\r", b""),
    Reads(b"three and more and more\n"),
    Shows(b"third\r\n"),
    Reads(b"second\n"),
    Reads(b"third\n"),
    ReadsNothing,
];

/// The same for a kind of module. A message of keys waits in its queue until the head has room, and so is not
/// shown before.
const KIND_FILLS: &[Row] = &[
    Types(b"one\rtwo\rthr", b"one\r\ntwo\r\nthr"),
    Reads(b"one\n"),
    Reads(b"two\n"),
    Types(b"ee and more and more\r", b"ee and more and more\r\n"),
    Types(b"second\r", b""),
    Types(b"third\r", b""),
    Reads(b"three and more and more\n"),
    Shows(b"second\r\nthird\r\n"),
    Reads(b"second\n"),
    Reads(b"third\n"),
    ReadsNothing,
];

/// Output that nobody takes fills the wire, and then the queue of the module.
const HOLDS: &[Row] = &[
    WritesOn(b"0123456789abcdef"),
    WritesOn(b"0123456789abcdef"),
    WritesOn(b"0123456789abcdef"),
    WritesNothing,
    Shows(b"0123456789abcdef0123456789abcdef0123456789abcdef"),
    Writes(b"more", b"more"),
];

/// The same for a kind of module, which takes no text before it can send it on.
const KIND_HOLDS: &[Row] = &[
    WritesOn(b"0123456789abcdef"),
    WritesOn(b"0123456789abcdef"),
    WritesNothing,
    Shows(b"0123456789abcdef0123456789abcdef"),
    Writes(b"more", b"more"),
];

/// What is typed while nobody takes what is shown: once 64 bytes are owed, keys wait and are not lost.
const KIND_OWES: &[Row] = &[
    TypesOn(b"0123456789abcdef"),
    TypesOn(b"\x150123456789abcdef\r"),
    TypesOn(b"second\r"),
    Reads(b"0123456789abcdef\n"),
    ReadsNothing,
    Shows(
        b"0123456789abcdef\x08 \x08\x08 \x08\x08 \x08\x08 \x08\x08 \x08\x08 \x08\x08 \x08\x08 \x08\
\x08 \x08\x08 \x08\x08 \x08\x08 \x08\x08 \x08\x08 \x08\x08 \x08\x08 \x08\
0123456789abcdef\r\nsecond\r\n",
    ),
    Reads(b"second\n"),
];

/// Modes are told and set. Without ICANON the line goes up.
const SETS: &[Row] = &[
    Asks(&[0, 0, 0, 15]),
    SetsNothing(&[0, 0, 0]),
    SetsNothing(&[0, 0, 0, 16]),
    SetsNothing(&[1, 0, 0, 1]),
    Types(b"a", b"a"),
    Sets(&[0, 0, 0, 0]),
    Reads(b"a"),
    Types(b"q\x03\r", b""),
    Reads(b"q\x03\r"),
    Writes(b"\n", b"\n"),
    Asks(&[0, 0, 0, 0]),
    Sets(&[0, 0, 0, 10]),
    Types(b"\x7f", b"^?"),
    Reads(b"\x7f"),
    Writes(b"\n", b"\r\n"),
];

/// A flush forgets the line that is being typed.
const FORGETS: &[Row] = &[
    Types(b"old", b"old"),
    Flushes,
    Types(b"new\r", b"new\r\n"),
    Reads(b"new\n"),
];

/// A module of the program, and the terminal that serves it.
#[derive(Drop)]
struct Served {
    module: ServedModule,
    terminal: Terminal,
}

/// A stream with a terminal at end A: one that the program serves, or a kind of module.
#[derive(Drop)]
struct Tty<M: ModuleOf> {
    stream: Stream<M>,
    served: Option<Served>,
    /// Whether the keys are written at end B of a loop, where what is shown is read.
    is_pty: bool,
    alloc: Global,
}

/// A module that the program serves, of this name.
fn module(rt: &impl Abort, alloc: Global, name: &[u8]) -> BoxedModule<Plain> {
    let shape = Shape::new(1, name, Some((16, 8)), Some((16, 8)), Kind::Pass);
    let shape = shape.expect(rt, "a good name").noenabled();
    BoxedModule::new(alloc, Instance::new(shape, Plain)).expect(rt, "no memory")
}

impl<M: ModuleOf> Tty<M> {
    /// A terminal on this stream, with the module of this push.
    fn new(
        alloc: Global,
        served: Option<Served>,
        is_pty: bool,
        stream: Stream<M>,
        push: Request<BoxedModule<M>>,
    ) -> Tty<M> {
        let mut tty = Tty {
            stream,
            served,
            is_pty,
            alloc,
        };
        drop(tty.ask(push));
        drop(tty.ask(Request::SetRead {
            mode: ReadMode::Rmsgn,
            prot: Prot::Norm,
        }));
        tty
    }

    /// Makes a call, and lets the terminal do its part.
    fn ask(&mut self, request: Request<BoxedModule<M>>) -> Answer {
        let Outcome { answer, .. } = self.stream.apply(End::A, request);
        self.pump();
        answer
    }

    fn pump(&mut self) {
        if let Some(served) = &mut self.served {
            served
                .module
                .pump(&mut self.stream, &mut served.terminal, BUDGET);
        }
    }

    /// Makes a call at the other end of a loop, and lets the terminal do its part.
    fn ask_master(&mut self, request: Request<BoxedModule<M>>) -> Answer {
        let Outcome { answer, .. } = self.stream.apply(End::B, request);
        self.pump();
        answer
    }

    fn bytes(&self, rt: &impl Abort, bytes: &[u8]) -> Bytes {
        Bytes::from_slice(self.alloc, bytes).expect(rt, "no memory")
    }

    /// Adds the next bytes that are read at the other end of a loop, if there are more.
    fn reads_screen(&mut self, rt: &impl Abort, shown: &mut Vec<u8>) -> bool {
        let Answer::Done(Reply::Read { dat }) = self.ask_master(Request::Read { max: 64 }) else {
            return false;
        };
        shown
            .extend_from_slice(dat.as_slice())
            .expect(rt, "no memory");
        true
    }

    /// Adds the next bytes that are taken of a wire, if there are more.
    fn takes_screen(&mut self, rt: &impl Abort, shown: &mut Vec<u8>) -> bool {
        let Answer::Done(Reply::Message { m }) = self.ask(Request::Take) else {
            return false;
        };
        let dat = m.dat.as_ref().expect(rt, "data alone");
        shown
            .extend_from_slice(dat.as_slice())
            .expect(rt, "no memory");
        true
    }

    /// Adds the next bytes that are shown, if there are more.
    fn adds_shown(&mut self, rt: &impl Abort, shown: &mut Vec<u8>) -> bool {
        if self.is_pty {
            self.reads_screen(rt, shown)
        } else {
            self.takes_screen(rt, shown)
        }
    }

    /// Whether these bytes are shown, in messages of any length.
    fn shows(&mut self, rt: &impl Abort, wanted: &[u8]) -> bool {
        let mut shown = Vec::new(self.alloc);
        for _ in 0..BUDGET {
            if !self.adds_shown(rt, &mut shown) {
                break;
            }
        }
        shown.as_slice() == wanted
    }

    fn types(&mut self, rt: &impl Abort, keys: &[u8]) -> bool {
        if self.is_pty {
            let dat = self.bytes(rt, keys);
            return matches!(
                self.ask_master(Request::Write { dat }),
                Answer::Done(Reply::Write { .. })
            );
        }
        let m = Message::of_data(self.alloc, 0, keys).expect(rt, "no memory");
        let arrived = self.stream.arrive(m);
        self.pump();
        matches!(arrived, Arrived::Taken { .. })
    }

    fn reads(&mut self, wanted: &[u8]) -> bool {
        match self.ask(Request::Read { max: 64 }) {
            Answer::Done(Reply::Read { dat }) => dat.as_slice() == wanted,
            _ => false,
        }
    }

    fn writes(&mut self, rt: &impl Abort, text: &[u8]) -> bool {
        let dat = self.bytes(rt, text);
        matches!(
            self.ask(Request::Write { dat }),
            Answer::Done(Reply::Write { .. })
        )
    }

    /// The answer to an ioctl that the terminal carries out.
    fn ioctl(&mut self, rt: &impl Abort, cmd: u32, bytes: Option<&[u8]>) -> Answer {
        let dat = bytes.map(|bytes| self.bytes(rt, bytes));
        self.ask(Request::Strput { cmd, dat });
        self.ask(Request::Strget { drops: false })
    }

    fn happens(&mut self, rt: &impl Abort, row: Row) -> bool {
        match row {
            Types(keys, shown) => self.types(rt, keys) && self.shows(rt, shown),
            TypesOn(keys) => self.types(rt, keys),
            Reads(bytes) => self.reads(bytes),
            ReadsNothing => matches!(
                self.ask(Request::Read { max: 64 }),
                Answer::Refused(Refusal::WouldWait)
            ),
            Writes(text, shown) => self.writes(rt, text) && self.shows(rt, shown),
            WritesOn(text) => self.writes(rt, text),
            WritesNothing => !self.writes(rt, b"x"),
            Shows(shown) => self.shows(rt, shown),
            Asks(modes) => is_answer(self.ioctl(rt, GET_MODES, None), Some(modes)),
            Sets(modes) => is_answer(self.ioctl(rt, SET_MODES, Some(modes)), None),
            SetsNothing(modes) => is_refused(self.ioctl(rt, SET_MODES, Some(modes))),
            Flushes => matches!(
                self.ask(Request::Flush { r: true, w: false }),
                Answer::Done(Reply::Flush)
            ),
        }
    }
}

/// Whether an ioctl was carried out, and gave these bytes.
fn is_answer(answer: Answer, wanted: Option<&[u8]>) -> bool {
    let Answer::Done(
        Reply::Str {
            answer: Acknowledged::Ack { rval: 0, dat },
        },
    ) = answer
    else {
        return false;
    };
    match (dat, wanted) {
        (Some(dat), Some(wanted)) => dat.as_slice() == wanted,
        (None, None) => true,
        _ => false,
    }
}

/// Whether an ioctl was not carried out.
fn is_refused(answer: Answer) -> bool {
    let Answer::Done(Reply::Str { answer }) = answer else {
        return false;
    };
    answer
        == Acknowledged::Nak {
            errno: Errno::EINVAL,
        }
}

/// Plays rows, one after another.
fn play_on<M: ModuleOf>(rt: &impl Abort, mut tty: Tty<M>, rows: &[Row]) {
    for (at, row) in rows.iter().enumerate() {
        let is_so = tty.happens(rt, *row);
        assert!(rt; is_so, "row {at}");
    }
}

/// Plays rows at a terminal over a wire that is full at 16 bytes.
fn play(rt: &impl Abort, alloc: Global, modes: Modes, rows: &[Row]) {
    let stream = Stream::new(alloc, Driver::Wire, (16, 8), (16, 8)).expect(rt, "no memory");
    let instance = module(rt, alloc, b"ldterm");
    let name = Name::of(b"ldterm").expect(rt, "a short name");
    let served = Served {
        module: ServedModule::new(alloc, End::A, name),
        terminal: Terminal::new(alloc, modes),
    };
    let push = Request::Push { instance };
    let tty = Tty::new(alloc, Some(served), false, stream, push);
    play_on(rt, tty, rows);
}

/// Plays rows at a terminal that is a kind of module, over a driver whose lists are full at 16 bytes.
fn play_kind(rt: &impl Abort, alloc: Global, driver: Driver, modes: Modes, rows: &[Row]) {
    let stream = Stream::new(alloc, driver, (16, 8), (16, 8)).expect(rt, "no memory");
    let made = ByShape::ldterm(1, b"ldterm", (16, 8), (16, 8), modes);
    let instance = BoxedModule::new(alloc, made.expect(rt, "a good name")).expect(rt, "no memory");
    let push = Request::Push { instance };
    let tty = Tty::new(alloc, None, driver == Driver::Loop, stream, push);
    play_on(rt, tty, rows);
}

/// Plays rows at a terminal that is a kind of module, over a wire and over a loop.
fn play_kinds(rt: &impl Abort, alloc: Global, modes: Modes, rows: &[Row]) {
    play_kind(rt, alloc, Driver::Wire, modes, rows);
    play_kind(rt, alloc, Driver::Loop, modes, rows);
}

#[test]
fn keys_are_edited_and_read_in_lines(rt: HostRuntime) {
    play(&rt, rt.alloc(), USUAL, EDITS);
}

#[test]
fn lines_that_nobody_reads_wait(rt: HostRuntime) {
    play(&rt, rt.alloc(), USUAL, FILLS);
}

#[test]
fn output_that_nobody_takes_waits(rt: HostRuntime) {
    play(&rt, rt.alloc(), USUAL, HOLDS);
}

#[test]
fn modes_are_told_and_set(rt: HostRuntime) {
    play(&rt, rt.alloc(), USUAL, SETS);
}

#[test]
fn flush_forgets_the_line(rt: HostRuntime) {
    play(&rt, rt.alloc(), USUAL, FORGETS);
}

/// Keys without ICANON and ECHO.
const RAW_KEYS: &[Row] = &[Types(b"a\x7f\r", b""), Reads(b"a\x7f\r")];

#[test]
fn raw_keys_go_up_as_they_come(rt: HostRuntime) {
    play(&rt, rt.alloc(), RAW, RAW_KEYS);
}

#[test]
fn a_kind_of_module_edits_keys_likewise(rt: HostRuntime) {
    play_kinds(&rt, rt.alloc(), USUAL, EDITS);
    play_kinds(&rt, rt.alloc(), USUAL, SETS);
    play_kinds(&rt, rt.alloc(), USUAL, FORGETS);
    play_kinds(&rt, rt.alloc(), RAW, RAW_KEYS);
}

#[test]
fn a_kind_of_module_holds_keys_and_output_back(rt: HostRuntime) {
    play_kind(&rt, rt.alloc(), Driver::Wire, USUAL, KIND_FILLS);
    play_kind(&rt, rt.alloc(), Driver::Wire, USUAL, KIND_HOLDS);
    play_kind(&rt, rt.alloc(), Driver::Wire, USUAL, KIND_OWES);
}
