//! Transcripts that no script can give: answers that no stream gives to such a call, numbers that do not fit
//! each other, and writers that fail.
use super::{handed, names_of};
use Ask::{Getband, Nread, Str};
use Say::{Ack, Broke, Line, Nak, Refused};
use arrayvec::ArrayVec;
use std::alloc::Global;
use std::io::{self, ErrorKind, Write};
use std::process::Abort;
use strm_head::{Event, MOST_MODULES};
use strm_head_calls::{Acknowledged, Answer, Name, NameList, Refusal, Reply, Request};
use strm_module::{BoxedShape, Kind};
use strm_msg::End::{A, B};
use strm_msg::{BoxedMessage, Bytes, End, Errno, Message};
use strm_run::{Feed, StreamLog, Transcript};
use strm_script_parse::Names;
use strm_script_print::print;
use strm_shared_log::{Entry, Kept, Who};

/// A part, if there is one.
type Part = Option<&'static [u8]>;

/// A request, as a table has it.
#[derive(Clone, Copy, Drop)]
enum Ask {
    Nread,
    Str(u32, Part),
    Getband,
}

/// An answer, as a table has it.
#[derive(Clone, Copy, Drop)]
pub(super) enum Say {
    Line,
    Ack(u64, Part),
    Nak(Errno),
    Refused(Refusal),
    Broke,
}

/// Calls at an end, their answers, and their lines.
const CALLS: [(End, Ask, Say, &str); 7] = [
    (A, Nread, Line, "p nread s:a : 0\n"),
    (
        A,
        Str(1, Some(b"x y")),
        Ack(7, Some(b"\x00")),
        "p str s:a 1 =x%20y : 7 =%00\n",
    ),
    (
        A,
        Str(4_294_967_295, None),
        Ack(18_446_744_073_709_551_615, None),
        "p str s:a 4294967295 - : 18446744073709551615 -\n",
    ),
    (
        B,
        Str(0, Some(b"")),
        Ack(0, Some(b"")),
        "p str s:b 0 = : 0 =\n",
    ),
    (
        B,
        Str(5, Some(b"-")),
        Nak(Errno::ETIME),
        "p str s:b 5 =- : nak ETIME\n",
    ),
    (
        A,
        Str(7, None),
        Refused(Refusal::WouldWait),
        "p str s:a 7 - : EAGAIN\n",
    ),
    (A, Getband, Broke, "p getband s:a : ENOSR broke\n"),
];

/// The refusals of a getband at end A, and their lines.
const REFUSALS: [(Refusal, &str); 10] = [
    (Refusal::Closed, "p getband s:a : EBADF\n"),
    (Refusal::Broken, "p getband s:a : ENOSR\n"),
    (
        Refusal::ReadError {
            errno: Errno::EPROTO,
        },
        "p getband s:a : EPROTO\n",
    ),
    (Refusal::Invalid, "p getband s:a : EINVAL\n"),
    (Refusal::TooLong, "p getband s:a : ERANGE\n"),
    (Refusal::HungUp, "p getband s:a : ENXIO\n"),
    (Refusal::BadMessage, "p getband s:a : EBADMSG\n"),
    (Refusal::NoMessage, "p getband s:a : ENODATA\n"),
    (Refusal::WouldWait, "p getband s:a : EAGAIN\n"),
    (Refusal::NoMemory, "p getband s:a : ENOSR\n"),
];

/// The lines of messages that came in after them, and of the ends: flushes of one band, which no feed has,
/// and data that broke the stream.
const ARRIVED: &str =
    "line flushband 7 w : 0\nline flushband 0 none : 0\nline data 255 =a%20b : ENOSR broke\n\
    open a\nopen b\n";

fn part(rt: &impl Abort, alloc: Global, part: Part) -> Option<Bytes> {
    match part {
        Some(part) => Some(Bytes::from_slice(alloc, part).expect(rt, "no memory")),
        None => None,
    }
}

fn request(rt: &impl Abort, alloc: Global, ask: Ask) -> Request<BoxedShape> {
    match ask {
        Nread => Request::Nread,
        Str(cmd, dat) => {
            let dat = part(rt, alloc, dat);
            Request::Str { cmd, dat }
        }
        Getband => Request::Getband,
    }
}

fn acknowledged(answer: Acknowledged) -> Answer {
    Answer::Done(Reply::Str { answer })
}

/// The answer that a table has.
pub(super) fn answer(rt: &impl Abort, alloc: Global, say: Say) -> Answer {
    match say {
        Line => Answer::Done(Reply::Line),
        Ack(rval, dat) => acknowledged(Acknowledged::Ack {
            rval,
            dat: part(rt, alloc, dat),
        }),
        Nak(errno) => acknowledged(Acknowledged::Nak { errno }),
        Refused(refusal) => Answer::Refused(refusal),
        Broke => Answer::Broke,
    }
}

/// A step with this maker, without the places that moved.
pub(super) fn step(
    rt: &impl Abort,
    alloc: Global,
    (who, end): (Who, End),
    event: Event<BoxedShape>,
    answer: Answer,
) -> Kept<Kind> {
    let entry = Entry::new(who, end, event, answer);
    Kept::plain(Box::new(alloc, entry).expect(rt, "no memory"))
}

/// A message that came in.
pub(super) fn came(rt: &impl Abort, alloc: Global, m: Message, answer: Answer) -> Kept<Kind> {
    let m = BoxedMessage::new(alloc, m).expect(rt, "no memory");
    step(rt, alloc, (Who::Line, A), Event::Arrived(m), answer)
}

/// The messages that come in.
fn arrivals(rt: &impl Abort, alloc: Global) -> [Kept<Kind>; 3] {
    let data = Message::of_data(alloc, 255, b"a b").expect(rt, "no memory");
    let done = || Answer::Done(Reply::Line);
    [
        came(rt, alloc, Message::of_flush(false, true, Some(7)), done()),
        came(rt, alloc, Message::of_flush(false, false, Some(0)), done()),
        came(rt, alloc, data, Answer::Broke),
    ]
}

/// The names on an end.
fn names(rt: &impl Abort, names: &[&[u8]]) -> Option<ArrayVec<Name, MOST_MODULES>> {
    let mut all = ArrayVec::new();
    for bytes in names {
        let name = ArrayVec::try_from(*bytes).expect(rt, "a short name");
        all.try_push(Name::new(&name)).expect(rt, "few names");
    }
    Some(all)
}

/// The log of a stream with end A open under these names, end B open without any, and 3, 2 and 1 messages of
/// its feed that were accepted, that came in and that were handed back.
pub(super) fn log(rt: &impl Abort, alloc: Global, on_a: &[&[u8]]) -> StreamLog<Kind> {
    StreamLog {
        history: Vec::new(alloc),
        a: names(rt, on_a),
        b: names(rt, &[]),
        accepted: 3,
        arrived: 2,
        overrun: 1,
    }
}

/// The transcript of one stream.
fn printed(rt: &impl Abort, alloc: Global, names: &Names, log: StreamLog<Kind>) -> Vec<u8> {
    let streams = vec![in alloc; log].expect(rt, "no memory");
    let mut out: Vec<u8> = Vec::new(alloc);
    assert!(rt; print(&Transcript { streams }, names, &mut out).is_ok());
    out
}

/// A call by the second process.
fn call(rt: &impl Abort, alloc: Global, end: End, ask: Ask, say: Say) -> Kept<Kind> {
    let event = Event::Asked(request(rt, alloc, ask));
    let said = answer(rt, alloc, say);
    step(rt, alloc, (Who::Caller(1), end), event, said)
}

/// The steps.
fn steps(rt: &impl Abort, alloc: Global) -> Vec<Kept<Kind>> {
    let mut history = Vec::new(alloc);
    for (refusal, _) in REFUSALS {
        let entry = call(rt, alloc, A, Getband, Refused(refusal));
        history.push(entry).expect(rt, "no memory");
    }
    for (end, ask, say, _) in CALLS {
        let entry = call(rt, alloc, end, ask, say);
        history.push(entry).expect(rt, "no memory");
    }
    for entry in arrivals(rt, alloc) {
        history.push(entry).expect(rt, "no memory");
    }
    history
}

fn add(rt: &impl Abort, text: &mut Vec<u8>, line: &str) {
    text.extend_from_slice(line.as_bytes())
        .expect(rt, "no memory");
}

/// The expected text of the steps.
fn lines(rt: &impl Abort, alloc: Global) -> Vec<u8> {
    let mut text = Vec::from_slice(alloc, b"stream s\n").expect(rt, "no memory");
    for (_, line) in REFUSALS {
        add(rt, &mut text, line);
    }
    for (_, _, _, line) in CALLS {
        add(rt, &mut text, line);
    }
    add(rt, &mut text, ARRIVED);
    text
}

#[test]
fn steps_are_spelt_with_their_answers(rt: HostRuntime) {
    let alloc: Global = rt.alloc();
    let names = names_of(&rt, alloc, b"stream s loop 16/4 16/4\nprocess q\nprocess p");
    let mut log = log(&rt, alloc, &[]);
    log.history = steps(&rt, alloc);
    assert!(rt; printed(&rt, alloc, &names, log) == lines(&rt, alloc));
}

/// Messages of a feed, some of them with words and parts that a transcript spells in another way.
const FEED: &[u8] = b"stream s line 0016/04 16/4 4096\nfeed s\n\
    data 3 =a\nproto 0 =c -\npcproto =c =\nflush w\nhangup\nerror EPROTO\nflush rw\nflush r\n\
    error\tEIO\nerror2\tEIO EIO\nerror2 - EPROTO\nerror2 EPROTO EIO\nerror2 - -\nproto 003 *1:63 -\npcproto *0:00 =%2d\ndata 255 =a%20%62\n";

/// The text of these messages when each came in.
const FED: &str = "stream s\n\
    line data 3 =a : 0\nline proto 0 =c - : 0\nline pcproto =c = : 0\nline flush w : 0\n\
    line hangup : 0\nline error EPROTO : 0\nline flush rw : 0\nline flush r : 0\n\
    line error EIO : 0\nline error EIO : 0\nline error2 - EPROTO : 0\nline error2 EPROTO EIO : 0\n\
    line error2 - - : 0\nline proto 3 =c - : 0\nline pcproto = =- : 0\nline data 255 =a%20b : 0\n\
    open a\nfeed accepted 3 arrived 2 overrun 1\n";

/// A step for each message of feeds.
fn fed(rt: &impl Abort, alloc: Global, feeds: &[Feed]) -> Vec<Kept<Kind>> {
    let mut history = Vec::new(alloc);
    for feed in feeds {
        for m in &feed.messages {
            let m = m.copy().expect(rt, "no memory");
            let entry = came(rt, alloc, m, Answer::Done(Reply::Line));
            history.push(entry).expect(rt, "no memory");
        }
    }
    history
}

#[test]
fn messages_that_came_in_are_spelt_as_in_a_feed(rt: HostRuntime) {
    let alloc: Global = rt.alloc();
    let handed = handed(&rt, alloc, FEED);
    let mut log = log(&rt, alloc, &[]);
    log.history = fed(&rt, alloc, handed.feeds.as_slice());
    assert!(rt; printed(&rt, alloc, &handed.names, log).as_slice() == FED.as_bytes());
}

/// A plan with a loop `one`, an echo `two`, and one process, `p`.
const PLAN: &[u8] = b"stream one loop 16/4 16/4\nstream two echo 16/4 16/4\nprocess p";

/// The transcript of the plan's run, in which `p` closed end A of the second stream.
fn transcript(rt: &impl Abort, alloc: Global) -> Transcript<Kind> {
    let reply = Reply::Close {
        names: NameList::new(&[]),
    };
    let event = Event::Asked(Request::Close);
    let entry = step(rt, alloc, (Who::Caller(0), A), event, Answer::Done(reply));
    let mut second = log(rt, alloc, &[]);
    second.a = None;
    second.history.push(entry).expect(rt, "no memory");
    let first = log(rt, alloc, &[]);
    let third = log(rt, alloc, &[]);
    Transcript {
        streams: vec![in alloc; first, second, third].expect(rt, "no memory"),
    }
}

/// The text of the transcript. The third log has no stream.
const PRINTED: &str = "stream one\nopen a\nopen b\nstream two\np close two:a : closed\nclosed a\n";

/// A writer that takes at most that many bytes at a time. The write after that many others fails with an
/// error of this kind.
#[derive(Drop)]
pub(super) struct Taker {
    pub(super) out: ArrayVec<u8, 512>,
    pub(super) most: usize,
    pub(super) before: usize,
    pub(super) kind: ErrorKind,
}

impl Write for Taker {
    fn write(&mut self, buf: &[u8]) -> io::Result<usize> {
        if self.before == 0 {
            return Err(io::Error::from(self.kind));
        }
        self.before -= 1;
        self.out.write(&buf[..self.most.min(buf.len())])
    }

    fn flush(&mut self) -> io::Result<()> {
        Ok(())
    }
}

/// The kinds of a writer's error, with that of out of memory among them.
pub(super) const KINDS: [ErrorKind; 3] = [
    ErrorKind::BrokenPipe,
    ErrorKind::StorageFull,
    ErrorKind::OutOfMemory,
];

/// A writer that has no text yet.
pub(super) fn new_taker(kind: ErrorKind, most: usize, before: usize) -> Taker {
    let out = ArrayVec::new();
    Taker {
        out,
        most,
        before,
        kind,
    }
}

/// The kind of the error of a write, if it failed.
pub(super) fn kind_of(written: io::Result<()>) -> Option<ErrorKind> {
    match written {
        Ok(()) => None,
        Err(error) => Some(error.kind()),
    }
}

/// Whether the writer has the whole text and no error, or the beginning of the text and its own error.
pub(super) fn is_told(taker: &Taker, text: &str, fault: Option<ErrorKind>) -> bool {
    match fault {
        None => taker.out.as_slice() == text.as_bytes(),
        Some(kind) => kind == taker.kind && text.as_bytes().starts_with(taker.out.as_slice()),
    }
}

/// Whether all is printed to a writer, and whether an error of the writer is reported.
fn printed_to(transcript: &Transcript<Kind>, names: &Names, mut taker: Taker) -> (bool, bool) {
    let fault = kind_of(print(transcript, names, &mut taker));
    (is_told(&taker, PRINTED, fault), fault.is_none())
}

/// The number of printed bytes, and so the greatest number of writes.
const WRITES: usize = 68;

#[test]
fn each_write_may_fail_or_take_little(rt: HostRuntime) {
    let alloc: Global = rt.alloc();
    let (transcript, names) = (transcript(&rt, alloc), names_of(&rt, alloc, PLAN));
    for kind in KINDS {
        for most in [1, 5, 80] {
            for before in 0..WRITES {
                assert!(rt; printed_to(&transcript, &names, new_taker(kind, most, before)).0);
            }
            let all = printed_to(&transcript, &names, new_taker(kind, most, WRITES));
            assert!(rt; all == (true, true));
        }
    }
    let none = printed_to(
        &transcript,
        &names,
        new_taker(ErrorKind::WriteZero, 0, WRITES),
    );
    assert!(rt; none == (true, false));
}
