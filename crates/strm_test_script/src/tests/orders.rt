//! Orders that are drawn, worked out by the reference code of PCG, and listed, worked out by hand; and what the
//! runs in many orders gave.
use std::alloc::Global;
use std::process::Abort;
use strm_run_input::{Await, Order};
use strm_script_orders::{
    DrawnOrder, Lane, Lanes, ListedOrder, OrderCause, OrderFault, Tally, count, spelt_order,
};

/// A seed, and whom it draws of three who take one step each: of the three, and then of the two others.
const DRAWN: [(u64, usize, usize); 4] = [(0, 2, 1), (1, 1, 0), (2, 0, 1), (3, 2, 0)];

/// The transcripts of these four orders: two processes write to an echo, and one reads.
const TRANSCRIPTS: [&[u8]; 4] = [
    b"stream s\nr read s:a 8 : EAGAIN\nq write s:a =q : 1\np write s:a =p : 1\nopen a\n",
    b"stream s\nq write s:a =q : 1\np write s:a =p : 1\nr read s:a 8 : =qp\nopen a\n",
    b"stream s\np write s:a =p : 1\nr read s:a 8 : =p\nq write s:a =q : 1\nopen a\n",
    b"stream s\nr read s:a 8 : EAGAIN\np write s:a =p : 1\nq write s:a =q : 1\nopen a\n",
];

/// What is told of them.
const FOUR: &[u8] = b"orders 4 transcripts 4\n\
    order 0 plays 1\n\
    order 1 plays 1\ndiffers s: q write s:a =q : 1\n\
    order 2 plays 1\ndiffers s: p write s:a =p : 1\n\
    order 3 plays 1\ndiffers s: p write s:a =p : 1\n";

/// Runs by their labels: the text of each, and whether an expected reply was not met. The first text is given
/// twice; the second has other lines in the section of another stream, the third ends too early.
const RUNS: [(&[u8], &[u8], bool); 4] = [
    (b"p,q", b"stream s\nopen a\nstream t\np\nopen a\n", false),
    (b"q,p", b"stream s\nopen a\nstream t\nq\nopen a\n", true),
    (b"p,p", b"stream s\nopen a\nstream t\n", true),
    (b"q,q", b"stream s\nopen a\nstream t\np\nopen a\n", false),
];

/// What is told of them.
const THREE: &[u8] = b"orders 4 transcripts 3\n\
    order p,q plays 2\n\
    order q,p plays 1\ndiffers t: q\n\
    order p,p plays 1\ndiffers t: \n\
    unmet 2 first q,p\n";

/// The orders of three processes of one call each.
const OF_THREE: &[u8] = b"p,q,r\np,r,q\nq,p,r\nq,r,p\nr,p,q\nr,q,p\n";

/// The orders of a process that awaits a feed of two messages before its second call, beside another process.
const OF_WAITING: &[u8] = b"p,q,feed:n,feed:n,p\n\
    p,feed:n,q,feed:n,p\n\
    p,feed:n,feed:n,p,q\np,feed:n,feed:n,q,p\n\
    q,p,feed:n,feed:n,p\n\
    q,feed:n,p,feed:n,p\n\
    q,feed:n,feed:n,p,p\n\
    feed:n,p,q,feed:n,p\n\
    feed:n,p,feed:n,p,q\nfeed:n,p,feed:n,q,p\n\
    feed:n,q,p,feed:n,p\n\
    feed:n,q,feed:n,p,p\n\
    feed:n,feed:n,p,p,q\nfeed:n,feed:n,p,q,p\n\
    feed:n,feed:n,q,p,p\n";

/// The calls of processes, and the number of their orders: the last is more than 2^64.
const COUNTED: [(&[usize], u64); 8] = [
    (&[], 1),
    (&[9], 1),
    (&[0, 0, 0], 1),
    (&[1, 1, 1], 6),
    (&[3, 3, 3], 1_680),
    (&[1, 1_000_000], 1_000_001),
    (&[30, 30], 118_264_581_564_861_424),
    (&[40, 40], u64::MAX),
];

/// Orders of these that are wrong, with the step and the cause.
const WRONG: [(&[u8], u64, OrderCause); 9] = [
    (b"", 1, OrderCause::Ended),
    (b"p,q", 3, OrderCause::Ended),
    (b"p,p", 2, OrderCause::Waits),
    (b"p,feed:n,p,feed:n,q", 3, OrderCause::Waits),
    (b"q,q", 2, OrderCause::NoneLeft),
    (b"q,feed:n,feed:n,p,p,feed:n", 6, OrderCause::NoneLeft),
    (b"q,n", 2, OrderCause::Unknown),
    (b"feed:p", 1, OrderCause::Unknown),
    (b"q,,p", 2, OrderCause::Unknown),
];

/// Bytes that are kept.
fn bytes(rt: &impl Abort, alloc: Global, text: &[u8]) -> Vec<u8> {
    Vec::from_slice(alloc, text).expect(rt, "no memory")
}

/// A process of this name, with so many calls, that awaits these feeds.
fn process(rt: &impl Abort, alloc: Global, name: u8, calls: usize, awaits: &[Await]) -> Lane {
    let awaits = Vec::from_slice(alloc, awaits).expect(rt, "no memory");
    Lane::of_process(bytes(rt, alloc, &[name]), calls, awaits)
}

/// Processes of so many calls each, that await these feeds.
fn processes(rt: &impl Abort, alloc: Global, calls: &[usize], awaits: &[Await]) -> Lanes {
    let mut lanes = Vec::new(alloc);
    for (calls, name) in calls.iter().zip([b'p', b'q', b'r']) {
        lanes
            .push(process(rt, alloc, name, *calls, awaits))
            .ok()
            .expect(rt, "no memory");
    }
    Lanes::of(lanes)
}

/// A process of two calls that awaits a feed of two messages before the second one, a process of one call, and
/// the feed. It also awaits a stream without a feed, which nobody waits for.
fn waiting(rt: &impl Abort, alloc: Global) -> Lanes {
    let awaits = [Await { call: 0, stream: 7 }, Await { call: 1, stream: 3 }];
    let p = process(rt, alloc, b'p', 2, &awaits);
    let q = process(rt, alloc, b'q', 1, &[]);
    let feed = Lane::of_feed(alloc, bytes(rt, alloc, b"n"), 3, 2);
    let lanes = vec![in alloc; p, q, feed].expect(rt, "no memory");
    Lanes::of(lanes)
}

/// Plays an order to its end, in 16 steps at most.
fn play(lanes: &mut Lanes, order: &mut impl Order) {
    lanes.start_again();
    for _ in 0..16 {
        let many = lanes.many();
        if many == 0 {
            break;
        }
        let _ = lanes.step(order.next(many));
    }
}

/// The spelling of all orders, each with a line end, of 16 at most.
fn listed(rt: &impl Abort, alloc: Global, lanes: &mut Lanes) -> Vec<u8> {
    let mut order = ListedOrder::new(alloc, lanes.steps_left())
        .ok()
        .expect(rt, "no memory");
    let mut text = Vec::new(alloc);
    for _ in 0..16 {
        play(lanes, &mut order);
        let spelt = lanes
            .spell(alloc, order.choices())
            .ok()
            .expect(rt, "no memory");
        text.extend_from_slice(spelt.as_slice())
            .expect(rt, "no memory");
        text.push(b'\n').expect(rt, "no memory");
        if !order.advance() {
            break;
        }
    }
    text
}

/// Adds a run to a tally.
fn add(
    rt: &impl Abort,
    alloc: Global,
    tally: &mut Tally,
    label: &[u8],
    text: &[u8],
    is_unmet: bool,
) {
    assert!(rt; tally.orders() < 100);
    let label = bytes(rt, alloc, label);
    let text = bytes(rt, alloc, text);
    assert!(rt; tally.add(alloc, label, text, is_unmet).is_ok());
}

/// What is told of a tally.
fn told(rt: &impl Abort, alloc: Global, tally: &Tally) -> Vec<u8> {
    let mut text = Vec::new(alloc);
    assert!(rt; tally.put(&mut text).is_ok());
    text
}

#[test]
fn a_seed_draws_its_order(rt: HostRuntime) {
    for (seed, first, second) in DRAWN {
        let mut order = DrawnOrder::new(seed);
        assert_eq!(rt; order.next(3), first, "seed {seed}");
        assert_eq!(rt; order.next(2), second, "seed {seed}");
        assert_eq!(rt; order.next(1), 0, "seed {seed}");
    }
}

#[test]
fn each_order_is_listed_once(rt: HostRuntime) {
    let alloc: Global = rt.alloc();
    let mut lanes = processes(&rt, alloc, &[1, 1, 1], &[]);
    assert!(rt; listed(&rt, alloc, &mut lanes).as_slice() == OF_THREE);
    let mut lanes = waiting(&rt, alloc);
    assert!(rt; listed(&rt, alloc, &mut lanes).as_slice() == OF_WAITING);
}

#[test]
fn a_spelt_order_is_played(rt: HostRuntime) {
    let alloc: Global = rt.alloc();
    let mut lanes = waiting(&rt, alloc);
    for text in OF_WAITING.split(|byte| *byte == b'\n') {
        if text.is_empty() {
            continue;
        }
        let mut order = spelt_order(alloc, &mut lanes, text)
            .ok()
            .expect(&rt, "an order");
        play(&mut lanes, &mut order);
        assert!(rt; lanes.many() == 0);
        let spelt = lanes.spell(alloc, order.choices()).ok();
        assert!(rt; spelt.expect(&rt, "no memory").as_slice() == text);
    }
}

#[test]
fn a_wrong_order_has_a_step_and_a_cause(rt: HostRuntime) {
    let alloc: Global = rt.alloc();
    let mut lanes = waiting(&rt, alloc);
    for (text, step, cause) in WRONG {
        let fault = spelt_order(alloc, &mut lanes, text).err();
        assert_eq!(rt; fault, Some(OrderFault { step, cause }));
    }
    let fault = OrderFault {
        step: 2,
        cause: OrderCause::Waits,
    };
    let text = format!(in alloc; "{fault}").expect(&rt, "no memory");
    assert!(rt; text.as_str() == "step 2: awaits a feed");
}

#[test]
fn orders_are_counted(rt: HostRuntime) {
    let alloc: Global = rt.alloc();
    for (calls, many) in COUNTED {
        let lanes = processes(&rt, alloc, calls, &[]);
        assert_eq!(rt; lanes.free_count(), Some(many), "{calls:?}");
    }
    assert!(rt; waiting(&rt, alloc).free_count().is_none());
    assert!(rt; count(alloc, &mut waiting(&rt, alloc), 100).ok() == Some(15));
}

#[test]
fn orders_are_walked_through_up_to_a_limit(rt: HostRuntime) {
    let alloc: Global = rt.alloc();
    for (limit, many) in [(100_000, 1_680), (1_680, 1_680), (1_000, 1_001), (0, 1)] {
        for awaits in [[].as_slice(), &[Await { call: 0, stream: 0 }]] {
            let mut lanes = processes(&rt, alloc, &[3, 3, 3], awaits);
            assert_eq!(rt; count(alloc, &mut lanes, limit).ok(), Some(many), "{limit}");
        }
    }
}

#[test]
fn four_orders_give_four_transcripts(rt: HostRuntime) {
    let alloc: Global = rt.alloc();
    let mut tally = Tally::new(alloc);
    for (label, text) in [b"0", b"1", b"2", b"3"].iter().zip(TRANSCRIPTS) {
        add(&rt, alloc, &mut tally, label.as_slice(), text, false);
    }
    assert!(rt; told(&rt, alloc, &tally).as_slice() == FOUR);
}

#[test]
fn a_transcript_is_told_once(rt: HostRuntime) {
    let alloc: Global = rt.alloc();
    let mut tally = Tally::new(alloc);
    for (label, text, is_unmet) in RUNS {
        add(&rt, alloc, &mut tally, label, text, is_unmet);
    }
    assert!(rt; told(&rt, alloc, &tally).as_slice() == THREE);
}

#[test]
fn sixty_four_transcripts_are_kept_apart(rt: HostRuntime) {
    let alloc: Global = rt.alloc();
    let mut tally = Tally::new(alloc);
    for number in 0..70u8 {
        add(&rt, alloc, &mut tally, b"s", &[number], false);
    }
    let text = told(&rt, alloc, &tally);
    assert!(rt; text.starts_with(b"orders 70 transcripts over 64\norder s plays 1\n"));
    assert!(rt; text.ends_with(b"\norder others plays 6\n"));
}
