//! The kinds of modules, as tables of messages with their answers. Each ioctl and each answer to one has
//! number 7.
use super::Sample::{Ack, Data, Flush, Hangup, Ioctl, Proto};
use super::texts::is_displayed;
use super::{Sample, boxed_message, bytes, check, shaped};
use Keeps::{Counted, Partial, Same};
use Want::{GoesOn, InTwo, Nothing, Refused, Sends, Twice, Waits};
use std::alloc::Global;
use std::process::Abort;
use strm_module::{
    Instance, Kind, Kinds, MakeFault, Module, Outs, Plain, Put, Shape, both, pass_on,
};
use strm_module_builtin::{Band, Count, CrNl, Line, Mute, Pass, Split, Table, Tee};
use strm_msg::Side::{Rd, Wr};
use strm_msg::{BoxedMessage, Marks, NoMem, Side};

/// The procedure to which a message is handed.
#[derive(Clone, Copy, Drop)]
pub(super) enum Call {
    Put,
    Serve,
}

/// The expected answer.
#[derive(Clone, Copy, Drop)]
pub(super) enum Want {
    /// Memory runs out.
    Refused,
    /// The message waits unchanged.
    Waits,
    /// Nothing leaves.
    Nothing,
    /// The message goes on unchanged.
    GoesOn,
    /// This message leaves in its place.
    Sends(Side, Sample),
    /// A copy goes up, and then the message on.
    Twice,
    /// These messages go down, in this order.
    InTwo(Sample, Sample),
}

/// The state of the module afterwards.
#[derive(Clone, Copy, Drop)]
pub(super) enum Keeps {
    /// The state that it had before.
    Same,
    /// The module has counted this number of messages.
    Counted(u64),
    /// The module keeps this partial line.
    Partial(&'static [u8]),
}

/// A message that comes on a side, the expected answer, and the state afterwards.
pub(super) type Row = (Side, Sample, Want, Keeps);

fn line(rt: &impl Abort, alloc: Global, partial: &[u8]) -> Kind {
    Kind::Line {
        partial: bytes(rt, alloc, partial),
    }
}

/// A table that makes capitals of a, b and c, leaves d, and makes 0 of all other bytes.
fn capitals() -> [u8; 256] {
    let mut map = [0; 256];
    map[97..101].copy_from_slice(b"ABCd");
    map
}

fn sent(side: Side, m: BoxedMessage) -> Put {
    Put::Sent(pass_on(side, m))
}

fn sent_twice(first: (Side, BoxedMessage), second: (Side, BoxedMessage)) -> Put {
    Put::Sent(both(first, second))
}

fn wanted(
    rt: &impl Abort,
    alloc: Global,
    side: Side,
    came: Sample,
    want: Want,
) -> Result<Put, NoMem> {
    match want {
        Refused => Err(NoMem),
        Waits => Ok(Put::Queue(boxed_message(rt, alloc, came))),
        Nothing => Ok(Put::Sent(Outs::new())),
        GoesOn => Ok(sent(side, boxed_message(rt, alloc, came))),
        Sends(side, sample) => Ok(sent(side, boxed_message(rt, alloc, sample))),
        Twice => Ok(sent_twice(
            (Rd, boxed_message(rt, alloc, came)),
            (Wr, boxed_message(rt, alloc, came)),
        )),
        InTwo(first, rest) => Ok(sent_twice(
            (Wr, boxed_message(rt, alloc, first)),
            (Wr, boxed_message(rt, alloc, rest)),
        )),
    }
}

/// The expected kind, where this one was before.
fn kept(rt: &impl Abort, alloc: Global, before: &Kind, keeps: Keeps) -> Kind {
    match keeps {
        Same => before.copy(alloc).expect(rt, "no memory for a kind"),
        Counted(n) => Kind::Count { n },
        Partial(partial) => line(rt, alloc, partial),
    }
}

/// The answer of a call. A service can only send.
pub(super) fn called<M: Module>(
    alloc: Global,
    it: &mut Instance<M>,
    call: Call,
    side: Side,
    m: BoxedMessage,
) -> Result<Put, NoMem> {
    match call {
        Call::Put => it.put(alloc, side, m),
        Call::Serve => Ok(Put::Sent(it.serve(alloc, side, m)?)),
    }
}

/// Whether a module gives this answer, and has this state afterwards.
fn answers<M: Module>(
    rt: &impl Abort,
    alloc: Global,
    it: &mut Instance<M>,
    call: Call,
    (side, came, want, keeps): Row,
) -> bool {
    let kind = kept(rt, alloc, &it.shape().kind, keeps);
    let answer = called(alloc, it, call, side, boxed_message(rt, alloc, came));
    let is_kept = it.shape().kind == kind;
    drop(kind);
    answer == wanted(rt, alloc, side, came, want) && is_kept
}

/// Hands a module each message of a table, one after another.
pub(super) fn play<M: Module>(
    rt: &impl Abort,
    alloc: Global,
    it: &mut Instance<M>,
    call: Call,
    (name, rows): (&str, &[Row]),
) {
    for (i, row) in rows.iter().enumerate() {
        check(rt, (name, i), answers(rt, alloc, it, call, *row));
    }
}

/// Puts each message of one table to a module, and lets it serve each of another.
fn plays<M: Module>(
    rt: &impl Abort,
    alloc: Global,
    it: &mut Instance<M>,
    (name, put, served): (&str, &[Row], &[Row]),
) {
    play(rt, alloc, it, Call::Put, (name, put));
    play(rt, alloc, it, Call::Serve, (name, served));
}

const MARKS: Option<(u32, u32)> = Some((5, 4));

pub(super) const X: Sample = Data(0, b"x");

const TOLD: Want = Sends(Rd, Ack(7, 1, None));

const COUNTED: &[Row] = &[
    (Wr, X, GoesOn, Counted(1)),
    (Wr, Ioctl(7, 1, None), TOLD, Counted(1)),
    (Wr, Ioctl(7, 2, None), TOLD, Counted(0)),
];

const NOT_COUNTED_YET: &[Row] = &[(Wr, X, Waits, Counted(0))];

const COUNTED_WHERE_SERVED: &[Row] = &[(Wr, X, GoesOn, Counted(1))];

const FIRST: Want = Sends(Rd, Data(0, b"abc\n"));

const THREE: Want = Sends(Rd, Data(0, b"d\n\ne\n"));

const GATHERED: &[Row] = &[
    (Rd, Data(0, b"ab"), Nothing, Partial(b"ab")),
    (Rd, Data(0, b"c\nd"), FIRST, Partial(b"d")),
    (Rd, Data(3, b"e\nf"), GoesOn, Same),
    (Wr, Data(0, b"e\nf"), GoesOn, Same),
    (Rd, Data(0, b"\n\ne\n"), THREE, Partial(b"")),
];

const A_96: &[u8] = &[b'a'; 96];

const A_4000: &[u8] = &[b'a'; 4000];

const A_4096: &[u8] = &[b'a'; 4096];

const A_4097: &[u8] = &[b'a'; 4097];

/// Messages for a module that gathers and keeps 4000 bytes.
const MOST: &[Row] = &[
    (Rd, Data(0, A_96), Nothing, Partial(A_4096)),
    (Rd, Data(0, b"a"), Sends(Rd, Data(0, A_4097)), Partial(b"")),
];

const TO_LF: Want = Sends(Rd, Data(0, b"a\nb\r"));

const LAST_CR: Want = Sends(Rd, Data(2, b"\r\n\n\ra"));

const ENDS_OF_LINES: &[Row] = &[
    (Wr, Data(0, b"a\nb"), Sends(Wr, Data(0, b"a\r\nb")), Same),
    (Wr, Data(2, b"\r\n"), Sends(Wr, Data(2, b"\r\r\n")), Same),
    (Rd, Data(0, b"a\r\nb\r"), TO_LF, Same),
    (Rd, Data(2, b"\r\r\n\n\ra"), LAST_CR, Same),
];

const MAPPED: Want = Sends(Wr, Data(2, b"CAd"));

const ANSWERED: Want = Sends(Rd, Ack(7, 3, Some(b"CAB")));

/// Messages for a module that makes capitals.
const CAPITALS: &[Row] = &[
    (Wr, Data(2, b"cad"), MAPPED, Same),
    (Rd, Data(2, b"cad"), GoesOn, Same),
    (Wr, Ioctl(7, 3, Some(b"cab")), ANSWERED, Same),
    (Wr, Ioctl(7, 3, None), Sends(Rd, Ack(7, 0, None)), Same),
    (Wr, Ioctl(7, 4, Some(b"cab")), GoesOn, Same),
    (Wr, Proto(1, b"cab", None), GoesOn, Same),
];

const COPIED_UP: &[Row] = &[(Wr, X, Twice, Same), (Rd, X, GoesOn, Same)];

const P_OF_7: Want = Sends(Wr, Proto(7, b"p", None));

const OF_BAND_7: &[Row] = &[
    (Wr, Data(2, b"x"), Sends(Wr, Data(7, b"x")), Same),
    (Wr, Proto(2, b"p", None), P_OF_7, Same),
    (Rd, Data(2, b"x"), GoesOn, Same),
    (Rd, Proto(2, b"p", None), GoesOn, Same),
];

const DROPPED: &[Row] = &[(Wr, X, Nothing, Same), (Rd, X, GoesOn, Same)];

const SENT: &[Row] = &[(Wr, X, GoesOn, Same), (Rd, X, GoesOn, Same)];

// A message of as many bytes as go at once is not split, and the rest of a message is not split again.
const IN_TWO: &[Row] = &[
    (
        Wr,
        Data(3, b"abcde"),
        InTwo(Data(3, b"ab"), Data(3, b"cde")),
        Same,
    ),
    (
        Wr,
        Data(3, b"abc"),
        InTwo(Data(3, b"ab"), Data(3, b"c")),
        Same,
    ),
    (Wr, Data(3, b"ab"), GoesOn, Same),
    (Wr, Data(3, b""), GoesOn, Same),
    (Wr, Proto(3, b"abc", Some(b"abc")), GoesOn, Same),
    (Rd, Data(3, b"abcde"), GoesOn, Same),
];

const ORDINARY_WAIT: &[Row] = &[
    (Rd, Data(0, b"x\n"), Waits, Same),
    (Wr, Ioctl(7, 3, None), Waits, Same),
    (Rd, Hangup, GoesOn, Same),
];

const SERVED: &[Row] = &[(Wr, Ioctl(7, 99, None), GoesOn, Same)];

/// A kind, with its state or the arguments of its making.
#[derive(Clone, Copy, Drop)]
enum State {
    Pass,
    Capitals,
    CrNl,
    Partial(&'static [u8]),
    Counted(u64),
    Band(u8),
    Tee,
    Mute,
    Split(u16),
}

fn kind_of(rt: &impl Abort, alloc: Global, state: State) -> Kind {
    match state {
        State::Pass => Kind::Pass,
        State::Capitals => Kind::Table { map: capitals() },
        State::CrNl => Kind::CrNl,
        State::Partial(partial) => line(rt, alloc, partial),
        State::Counted(n) => Kind::Count { n },
        State::Band(b) => Kind::Band { b },
        State::Tee => Kind::Tee,
        State::Mute => Kind::Mute,
        State::Split(n) => Kind::Split { n },
    }
}

/// The marks of the read side and of the write side.
type Sides = (Option<(u32, u32)>, Option<(u32, u32)>);

/// A name, a kind, the marks of its sides, the messages that are put to it, and those that it serves.
type Example = (&'static str, State, Sides, &'static [Row], &'static [Row]);

const NO_QUEUES: Sides = (None, None);

const QUEUES: Sides = (MARKS, MARKS);

// Each kind queues only ordinary messages.
const QUEUED: &[Example] = &[
    ("pass", State::Pass, QUEUES, ORDINARY_WAIT, SERVED),
    ("table", State::Capitals, QUEUES, ORDINARY_WAIT, SERVED),
    ("crnl", State::CrNl, QUEUES, ORDINARY_WAIT, SERVED),
    ("line", State::Partial(b"ab"), QUEUES, ORDINARY_WAIT, SERVED),
    ("count", State::Counted(5), QUEUES, ORDINARY_WAIT, SERVED),
    ("band", State::Band(3), QUEUES, ORDINARY_WAIT, SERVED),
    ("tee", State::Tee, QUEUES, ORDINARY_WAIT, SERVED),
    ("mute", State::Mute, QUEUES, ORDINARY_WAIT, SERVED),
    ("split", State::Split(2), QUEUES, ORDINARY_WAIT, SERVED),
];

const FLUSHED: &[Row] = &[(Wr, Flush(true, false, None), GoesOn, Partial(b""))];

const FLUSHED_OF_0: &[Row] = &[(Wr, Flush(true, true, Some(0)), GoesOn, Partial(b""))];

const LEFT: &[Row] = &[
    (Wr, Flush(true, true, Some(1)), GoesOn, Same),
    (Wr, Flush(false, true, None), GoesOn, Same),
    (Wr, Flush(false, true, Some(0)), GoesOn, Same),
];

// A module that gathers keeps at most 4096 bytes of a line. A flush of its read side and band empties it.
const PARTIAL: &[Example] = &[
    ("the longest", State::Partial(A_4000), NO_QUEUES, MOST, &[]),
    (
        "a flush of all",
        State::Partial(b"ab"),
        QUEUES,
        FLUSHED,
        &[],
    ),
    (
        "a flush of band 0",
        State::Partial(b"ab"),
        QUEUES,
        FLUSHED_OF_0,
        &[],
    ),
    ("other flushes", State::Partial(b"ab"), QUEUES, LEFT, &[]),
];

fn play_examples(rt: &impl Abort, alloc: Global, examples: &[Example]) {
    for (name, state, marks, put, served) in examples {
        let shape = shaped(rt, 1, b"plain", *marks, kind_of(rt, alloc, *state));
        let mut it = Instance::new(shape, Plain);
        plays(rt, alloc, &mut it, (name, *put, *served));
    }
}

#[test]
fn each_kind_queues_ordinary_messages_alone(rt: HostRuntime) {
    play_examples(&rt, rt.alloc(), QUEUED);
}

#[test]
fn a_partial_line_is_bounded_and_flushed(rt: HostRuntime) {
    play_examples(&rt, rt.alloc(), PARTIAL);
}

const NAME: &[u8] = b"A_z09";

/// Whether a queue is there with these marks, or none is there if none are given.
fn are_marks(found: Option<Marks>, given: Option<(u32, u32)>) -> bool {
    match given {
        Some((hi, lo)) => found == Marks::new(hi, lo),
        None => found.is_none(),
    }
}

/// Whether a shape is the one that was asked for.
fn is_asked_for(shape: &Shape, kind: &Kind, (rd, wr): Sides) -> bool {
    shape.serial == 9
        && shape.name.as_slice() == NAME
        && are_marks(shape.rd, rd)
        && are_marks(shape.wr, wr)
        && shape.kind == *kind
}

/// Whether a copy of a shape is equal to it.
fn is_copied(rt: &impl Abort, alloc: Global, shape: &Shape) -> bool {
    let copy = shape.copy(alloc).expect(rt, "no memory for a shape");
    let is_so = copy == *shape;
    drop(copy);
    is_so
}

/// Whether a new module has the shape that was asked for, and a copy of it is equal.
fn has_shape(rt: &impl Abort, alloc: Global, shape: &Shape, state: State, marks: Sides) -> bool {
    let kind = kind_of(rt, alloc, state);
    let is_so = is_asked_for(shape, &kind, marks) && is_copied(rt, alloc, shape);
    drop(kind);
    is_so
}

/// Checks that a new module has the shape that was asked for, puts each message of one table to it, and lets
/// it serve each of another.
fn plays_new<M: Module>(
    rt: &impl Abort,
    alloc: Global,
    new: Result<Instance<M>, MakeFault>,
    (name, state, marks, put, served): Example,
) {
    let mut it = new.expect(rt, "a good name and good marks");
    check(
        rt,
        (name, 0),
        has_shape(rt, alloc, it.shape(), state, marks),
    );
    plays(rt, alloc, &mut it, (name, put, served));
}

/// Plays an example with the module that the call for its kind makes.
fn plays_made(rt: &impl Abort, alloc: Global, example: Example) {
    let (_, state, (rd, wr), _, _) = example;
    match state {
        State::Pass => plays_new(rt, alloc, Pass::new(9, NAME, rd, wr), example),
        State::Capitals => {
            plays_new(rt, alloc, Table::new(9, NAME, rd, wr, capitals()), example)
        }
        State::CrNl => plays_new(rt, alloc, CrNl::new(9, NAME, rd, wr), example),
        State::Partial(_) => plays_new(rt, alloc, Line::new(alloc, 9, NAME, rd, wr), example),
        State::Counted(_) => plays_new(rt, alloc, Count::new(9, NAME, rd, wr), example),
        State::Band(b) => plays_new(rt, alloc, Band::new(9, NAME, rd, wr, b), example),
        State::Tee => plays_new(rt, alloc, Tee::new(9, NAME, rd, wr), example),
        State::Mute => plays_new(rt, alloc, Mute::new(9, NAME, rd, wr), example),
        State::Split(n) => plays_new(rt, alloc, Split::new(9, NAME, rd, wr, n), example),
    }
}

fn all_play(rt: &impl Abort, alloc: Global, examples: &[Example]) {
    for example in examples {
        plays_made(rt, alloc, *example);
    }
}

const READ_WAITS: &[Row] = &[(Rd, X, Waits, Same), (Wr, X, GoesOn, Same)];

const EMPTY: State = State::Partial(b"");

const ACTING: &[Example] = &[
    ("crnl", State::CrNl, NO_QUEUES, ENDS_OF_LINES, &[]),
    ("tee", State::Tee, NO_QUEUES, COPIED_UP, &[]),
    ("band", State::Band(7), NO_QUEUES, OF_BAND_7, &[]),
    ("mute", State::Mute, NO_QUEUES, DROPPED, &[]),
    ("pass", State::Pass, NO_QUEUES, SENT, &[]),
    (
        "pass with a queue",
        State::Pass,
        (MARKS, None),
        READ_WAITS,
        &[],
    ),
    ("split", State::Split(2), NO_QUEUES, IN_TWO, &[]),
    ("count", State::Counted(0), NO_QUEUES, COUNTED, &[]),
    (
        "count with a queue",
        State::Counted(0),
        (None, MARKS),
        NOT_COUNTED_YET,
        COUNTED_WHERE_SERVED,
    ),
    ("line", EMPTY, NO_QUEUES, GATHERED, &[]),
    ("table", State::Capitals, NO_QUEUES, CAPITALS, &[]),
];

#[test]
fn each_kind_acts_on_what_is_put(rt: HostRuntime) {
    all_play(&rt, rt.alloc(), ACTING);
}

const OTHER: Sides = (MARKS, Some((16, 0)));

const NEW: &[Example] = &[
    ("pass", State::Pass, OTHER, &[], &[]),
    ("table", State::Capitals, OTHER, &[], &[]),
    ("crnl", State::CrNl, OTHER, &[], &[]),
    ("line", EMPTY, OTHER, &[], &[]),
    ("count", State::Counted(0), OTHER, &[], &[]),
    ("band", State::Band(7), OTHER, &[], &[]),
    ("tee", State::Tee, OTHER, &[], &[]),
    ("mute", State::Mute, OTHER, &[], &[]),
    ("split", State::Split(2), OTHER, &[], &[]),
];

#[test]
fn new_modules_have_the_shape_asked_for(rt: HostRuntime) {
    all_play(&rt, rt.alloc(), NEW);
}

const EQUAL: Option<(u32, u32)> = Some((4, 4));

const TURNED: Option<(u32, u32)> = Some((4, 5));

/// A name, marks, and the fault of a module with these.
const FAULTS: &[(
    &[u8],
    Option<(u32, u32)>,
    Option<(u32, u32)>,
    Option<MakeFault>,
)] = &[
    (b"ninebytes", EQUAL, None, Some(MakeFault::Name)),
    (b"ninebytes", None, None, Some(MakeFault::Name)),
    (b"ninebytes", MARKS, MARKS, Some(MakeFault::Name)),
    (b"eightbyt", None, None, None),
    (b"eightbyt", MARKS, MARKS, None),
    (b"eightbyt", MARKS, TURNED, Some(MakeFault::Marks)),
    (b"", None, None, Some(MakeFault::Name)),
    (b"a-b", None, EQUAL, Some(MakeFault::Name)),
    (b"a", EQUAL, None, Some(MakeFault::Marks)),
];

/// Whether a module is refused with this fault, or is made if there is none.
fn is_refused<M: Module>(made: Result<Instance<M>, MakeFault>, fault: Option<MakeFault>) -> bool {
    made.err() == fault
}

#[test]
fn faults_are_for_the_name_first(rt: HostRuntime) {
    for (at, (name, rd, wr, fault)) in FAULTS.iter().enumerate() {
        let is_so = is_refused(Pass::new(1, name, *rd, *wr), *fault);
        check(&rt, ("faults", at), is_so);
    }
}

/// A name, write marks, a number of bytes, and the fault of a module that splits with these.
const SPLIT_FAULTS: &[(&[u8], Option<(u32, u32)>, u16, Option<MakeFault>)] = &[
    (b"s", None, 0, Some(MakeFault::Split)),
    (b"s", EQUAL, 0, Some(MakeFault::Marks)),
    (b"", EQUAL, 0, Some(MakeFault::Name)),
    (b"s", MARKS, 1, None),
    (b"s", MARKS, 4096, None),
    (b"s", MARKS, 4097, Some(MakeFault::Split)),
];

#[test]
fn bytes_of_a_split_are_looked_at_last(rt: HostRuntime) {
    for (at, (name, wr, n, fault)) in SPLIT_FAULTS.iter().enumerate() {
        let is_so = is_refused(Split::new(1, name, None, *wr, *n), *fault);
        check(&rt, ("faults", at), is_so);
    }
}

const BAD_NAME: &str = "a module's name must be 1 to 8 letters, digits or `_`";

const BAD_MARKS: &str = "the low mark of a queue must be below its high mark";

const BAD_SPLIT: &str = "a module that splits must let through 1 to 4096 bytes at once";

/// A fault, its number, and its text.
const WORDS: &[(MakeFault, u8, &str)] = &[
    (MakeFault::Name, 1, BAD_NAME),
    (MakeFault::Marks, 2, BAD_MARKS),
    (MakeFault::Split, 3, BAD_SPLIT),
];

#[test]
fn faults_have_numbers_and_words(rt: HostRuntime) {
    for (fault, number, words) in WORDS {
        assert!(rt; fault.number() == *number && is_displayed(&rt, rt.alloc(), fault, words));
    }
}
