//! Queues of messages with the marks 16 and 4: examples of calls and their answers, in order.
use super::Sample::{Ack, Data, Error, Flush, Hangup, Ioctl, Nak, Options, Pcproto, Proto};
use super::{Sample, are_same, boxed_message, check, is_taken, wanted};
use Step::{
    At, First, FlushAll, FlushBand, Get, HasBand, HasPcproto, Held, Holds, Len, Level, MakeRoom,
    Put, PutBack,
};
use std::alloc::Global;
use std::process::Abort;
use strm_msg::{Errno, Message};
use strm_queue::{BandQueue, Marks};

/// A call on a queue, and its answer.
#[derive(Clone, Copy, Drop)]
enum Step {
    Put(Sample),
    PutBack(Sample),
    MakeRoom(u16),
    FlushAll,
    FlushBand(u8),
    Get(Option<Sample>),
    First(Option<Sample>),
    At(usize, Option<Sample>),
    /// The number of messages, and whether there are none.
    Len(usize),
    /// A band, and the bytes that it holds.
    Held(u8, u128),
    /// A band, the bytes that it holds, and whether it is slack and whether it is full.
    Level(u8, u128, bool, bool),
    HasPcproto(bool),
    HasBand(u8, bool),
    /// The messages are these, taken one by one in this order, and no others.
    Holds(&'static [Sample]),
}

/// The name of the example, the messages that are put first, and the steps that follow.
type Example = (&'static str, &'static [Sample], &'static [Step]);

const A: Sample = Data(0, b"a");

const H: Sample = Pcproto(b"h", None);

const B: Sample = Data(3, b"b");

const C: Sample = Data(3, b"c");

const Z: Sample = Data(3, b"z");

const PROTO: Sample = Proto(3, b"c", None);

const IOCTL: Sample = Ioctl(1, 9, None);

const OPTIONS: Sample = Options(None, Some((16, 4)));

const ACK: Sample = Ack(1, 0, None);

const NAK: Sample = Nak(2, Errno::EINVAL);

const FLUSH: Sample = Flush(true, true, None);

const ERROR: Sample = Error(Errno::EIO);

const TEN: &[Sample] = &[A, IOCTL, OPTIONS, PROTO, ACK, NAK, H, FLUSH, Hangup, ERROR];

// Worked out by hand from the rules of order: high messages before bands, a greater band before a lesser one;
// a message is put behind its equals, and put back before them.
const ORDER: &[Example] = &[
    ("messages are put", &[A, B, H, C], &[Holds(&[H, B, C, A])]),
    (
        "a message is put back",
        &[A, B, H, C],
        &[
            PutBack(Z),
            Held(3, 3),
            Held(0, 2),
            Held(1, 0),
            Holds(&[H, Z, B, C, A]),
        ],
    ),
    (
        "a band is flushed",
        &[A, B, H, C],
        &[PutBack(Z), FlushBand(3), Holds(&[H, A])],
    ),
    (
        "a band is flushed, and then all",
        &[A, B, H, C],
        &[FlushBand(3), FlushAll, Holds(&[])],
    ),
    (
        "control and data of a message are two bytes together",
        &[Proto(3, b"c", Some(b"d"))],
        &[Held(3, 2), Holds(&[Proto(3, b"c", Some(b"d"))])],
    ),
    (
        "places are counted from 0, in order of rank",
        &[A, B],
        &[At(0, Some(B)), At(1, Some(A)), At(2, None)],
    ),
];

// By the rule of flushes: they take data and protocol messages, and a high-priority one counts as one of band
// 0. A high message is of no band that is asked for.
const FLUSHES: &[Example] = &[
    (
        "a flush takes data and protocol messages alone",
        TEN,
        &[
            FlushAll,
            Holds(&[ACK, NAK, FLUSH, Hangup, ERROR, IOCTL, OPTIONS]),
        ],
    ),
    (
        "a flush of band 0 takes the high protocol message too",
        TEN,
        &[
            FlushBand(0),
            Holds(&[ACK, NAK, FLUSH, Hangup, ERROR, PROTO, IOCTL, OPTIONS]),
        ],
    ),
    (
        "a flush of band 3 takes what is of that band",
        TEN,
        &[
            FlushBand(3),
            Holds(&[ACK, NAK, H, FLUSH, Hangup, ERROR, A, IOCTL, OPTIONS]),
        ],
    ),
    (
        "a high protocol message is found, and another high one is none",
        &[],
        &[
            HasPcproto(false),
            Put(ACK),
            Put(Proto(0, b"c", None)),
            HasPcproto(false),
            Put(H),
            HasPcproto(true),
            FlushAll,
            HasPcproto(false),
        ],
    ),
    (
        "an ordinary message of a band is found",
        &[H],
        &[
            HasBand(0, false),
            Put(PROTO),
            HasBand(3, true),
            HasBand(0, false),
            HasBand(4, false),
            Put(IOCTL),
            FlushAll,
            HasBand(0, true),
            HasBand(3, false),
        ],
    ),
];

// By hand: at most 4 bytes are slack, at least 16 are full, and another band does not count. putq(9F) puts at
// any fill. A rank above 256 counts as 256: room for it is room for a high message.
const ROOM: &[Example] = &[
    (
        "bands between the marks",
        &[],
        &[
            Level(0, 0, true, false),
            Level(1, 0, true, false),
            Put(Data(0, b"xxxx")),
            Level(0, 4, true, false),
            Level(1, 0, true, false),
            Put(Data(0, b"x")),
            Level(0, 5, false, false),
            Level(1, 0, true, false),
            Put(Data(0, b"xxxxxxxxxx")),
            Level(0, 15, false, false),
            Level(1, 0, true, false),
            Put(Data(0, b"x")),
            Level(0, 16, false, true),
            Level(1, 0, true, false),
        ],
    ),
    (
        "a full queue takes messages",
        &[Data(0, b"0123456789abcdef")],
        &[
            Level(0, 16, false, true),
            Put(Data(0, b"x")),
            Held(0, 17),
            MakeRoom(0),
            Put(Data(0, b"y")),
            Level(0, 18, false, true),
        ],
    ),
    (
        "room for rank 257",
        &[],
        &[MakeRoom(257), Put(Hangup), Len(1)],
    ),
    (
        "room for rank 65535",
        &[],
        &[MakeRoom(65535), Put(Hangup), Len(1)],
    ),
    (
        "an empty queue takes what room was made for",
        &[],
        &[
            First(None),
            Get(None),
            Len(0),
            MakeRoom(0),
            Len(0),
            Put(A),
            MakeRoom(256),
            PutBack(H),
            Len(2),
            Holds(&[H, A]),
        ],
    ),
];

/// Whether this is the expected message, or there is none and none is expected.
fn is(rt: &impl Abort, alloc: Global, found: Option<&Message>, want: Option<Sample>) -> bool {
    let want = wanted(rt, alloc, want);
    let is_so = found == want.as_ref();
    drop(want);
    is_so
}

fn gets(rt: &impl Abort, alloc: Global, q: &mut BandQueue, want: Option<Sample>) -> bool {
    are_same(q.get(), wanted(rt, alloc, want))
}

/// Takes the first message, and returns whether it is this one.
fn takes(rt: &impl Abort, alloc: Global, q: &mut BandQueue, want: Sample) -> bool {
    let is_first = is(rt, alloc, q.first(), Some(want));
    gets(rt, alloc, q, Some(want)) & is_first
}

fn holds(rt: &impl Abort, alloc: Global, q: &mut BandQueue, wanted: &[Sample]) -> bool {
    let mut same = q.len() == wanted.len();
    for want in wanted {
        same &= takes(rt, alloc, q, *want);
    }
    same && q.is_empty()
}

/// Whether the call has this answer. A call that changes a queue and returns nothing always has it.
fn answers(rt: &impl Abort, alloc: Global, q: &mut BandQueue, step: Step) -> bool {
    match step {
        Put(sample) => puts(rt, alloc, q, sample),
        PutBack(sample) => is_taken(q.put_back(boxed_message(rt, alloc, sample))),
        MakeRoom(rank) => q.make_room(rank).is_ok(),
        FlushAll => {
            q.flush();
            true
        }
        FlushBand(band) => {
            q.flush_band(band);
            true
        }
        Get(want) => gets(rt, alloc, q, want),
        First(want) => is(rt, alloc, q.first(), want),
        At(i, want) => is(rt, alloc, q.at(i), want),
        Len(n) => q.len() == n && q.is_empty() == (n == 0),
        Held(band, n) => q.held(band) == n,
        Level(band, n, slack, full) => {
            (q.held(band) == n) & (q.slack(band) == slack) & (q.full(band) == full)
        }
        HasPcproto(has) => q.has_pcproto() == has,
        HasBand(band, has) => q.has_band(band) == has,
        Holds(wanted) => holds(rt, alloc, q, wanted),
    }
}

fn new(rt: &impl Abort, alloc: Global) -> BandQueue {
    BandQueue::new(alloc, Marks::new(16, 4).expect(rt, "good marks"))
}

fn play(rt: &impl Abort, alloc: Global, name: &str, q: &mut BandQueue, steps: &[Step]) {
    for (i, step) in steps.iter().enumerate() {
        check(rt, (name, i), answers(rt, alloc, q, *step));
    }
}

fn puts(rt: &impl Abort, alloc: Global, q: &mut BandQueue, sample: Sample) -> bool {
    is_taken(q.put(boxed_message(rt, alloc, sample)))
}

fn puts_all(rt: &impl Abort, alloc: Global, q: &mut BandQueue, samples: &[Sample]) -> bool {
    let mut are_put = true;
    for sample in samples {
        are_put &= puts(rt, alloc, q, *sample);
    }
    are_put
}

fn play_one(rt: &impl Abort, alloc: Global, (name, puts, steps): Example) {
    let mut q = new(rt, alloc);
    check(rt, (name, 0), puts_all(rt, alloc, &mut q, puts));
    play(rt, alloc, name, &mut q, steps);
}

fn play_all(rt: &impl Abort, alloc: Global, examples: &[Example]) {
    for example in examples {
        play_one(rt, alloc, *example);
    }
}

#[test]
fn messages_stand_in_order_of_rank(rt: HostRuntime) {
    play_all(&rt, rt.alloc(), ORDER);
}

#[test]
fn flushes_take_what_they_name(rt: HostRuntime) {
    play_all(&rt, rt.alloc(), FLUSHES);
}

#[test]
fn bands_are_slack_or_full_and_room_is_made(rt: HostRuntime) {
    play_all(&rt, rt.alloc(), ROOM);
}

// By the rule that the low mark is below the high one.
#[test]
fn marks_are_made_of_a_lower_and_a_higher_one(rt: HostRuntime) {
    for (hi, lo) in [(4, 4), (4, 5), (0, 0)] {
        assert!(rt; Marks::new(hi, lo).is_none());
    }
    assert!(rt; Marks::new(5, 4) == Some(Marks { hi: 5, lo: 4 }));
}

fn puts_in_each_band(rt: &impl Abort, alloc: Global, q: &mut BandQueue) -> bool {
    let mut are_put = true;
    for band in 0..=255_u8 {
        are_put &= puts(rt, alloc, q, Data(band, b"x"));
    }
    are_put
}

fn gets_from_each_band_below_255(rt: &impl Abort, alloc: Global, q: &mut BandQueue) -> bool {
    let mut are_got = true;
    for band in (0..=254_u8).rev() {
        are_got &= gets(rt, alloc, q, Some(Data(band, b"x")));
    }
    are_got
}

const BETWEEN: &[Step] = &[
    Put(H),
    Len(257),
    Held(0, 2),
    Held(255, 1),
    FlushBand(255),
    Len(256),
    Get(Some(H)),
];

// By hand: a message in each band, put with the lowest band first, and a high one. They come out with the
// high one first and the greatest band next. A flush takes only the one of its band.
#[test]
fn a_message_in_each_band(rt: HostRuntime) {
    let alloc = rt.alloc();
    let mut q = new(&rt, alloc);
    assert!(rt; puts_in_each_band(&rt, alloc, &mut q));
    play(&rt, alloc, "between", &mut q, BETWEEN);
    assert!(rt; gets_from_each_band_below_255(&rt, alloc, &mut q));
    assert!(rt; gets(&rt, alloc, &mut q, None));
}

const LOW: Sample = Data(0, b"low");

// By hand: a band that ran empty is used again, next to one that did not.
const ROUND: &[Step] = &[
    Put(Data(7, b"a")),
    Put(Proto(7, b"b", None)),
    Held(7, 2),
    Held(0, 3),
    Get(Some(Data(7, b"a"))),
    Held(7, 1),
    FlushBand(7),
    Held(7, 0),
    Len(1),
];

const ROUNDS: &[(&str, &[Step])] = &[
    ("low", &[Put(LOW)]),
    ("round 0", ROUND),
    ("round 1", ROUND),
    ("round 2", ROUND),
    ("end", &[First(Some(LOW))]),
];

#[test]
fn a_band_that_ran_empty_is_used_again(rt: HostRuntime) {
    let alloc = rt.alloc();
    let mut q = new(&rt, alloc);
    for (name, steps) in ROUNDS {
        play(&rt, alloc, name, &mut q, steps);
    }
}
