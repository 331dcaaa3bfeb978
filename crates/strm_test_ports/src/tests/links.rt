//! Tests of links. What is passed on is worked out by hand, and what is drawn by PCG's reference algorithm.
use Act::{Double, Hold, Keep, Lose};
use std::alloc::Global;
use std::process::Abort;
use strm_link::{Act, Link, MOST_ACTS, Odds, Passage, Rule, RuleFault};
use strm_msg::Message;

/// The acts of a pattern. Messages of one byte each: those that are taken, those that are passed on, and the
/// one that is held at the end.
type Row = (&'static [Act], &'static [u8], &'static [u8], &'static [u8]);

const ROWS: [Row; 11] = [
    (&[Keep], b"abc", b"abc", b""),
    (&[Lose], b"abc", b"", b""),
    (&[Double], b"ab", b"aabb", b""),
    // each message is late by one, and none is held for ever
    (&[Hold], b"abc", b"ab", b"c"),
    (&[Keep, Lose, Double, Hold], b"abcde", b"acced", b""),
    // a loss sets nothing free
    (&[Hold, Lose, Keep], b"abc", b"ca", b""),
    (&[Hold, Lose], b"ab", b"", b"a"),
    // what is doubled goes before what is held
    (&[Hold, Double], b"abc", b"bba", b"c"),
    (&[Keep, Keep, Lose], b"abcdefgh", b"abdegh", b""),
    (&[Hold, Keep], b"abcd", b"badc", b""),
    (&[Hold], b"", b"", b""),
];

/// Odds to lose, to double and to hold, a seed, and what becomes of messages.
type Drawn = (
    u16,
    u16,
    u16,
    u64,
    &'static [u8],
    &'static [u8],
    &'static [u8],
);

const DRAWN: [Drawn; 6] = [
    (0, 0, 0, 1, b"abcd", b"abcd", b""),
    (256, 0, 0, 1, b"abcd", b"", b""),
    (0, 256, 0, 1, b"ab", b"aabb", b""),
    (0, 0, 256, 1, b"abcd", b"abc", b"d"),
    // keep, double, lose twice, hold, keep, lose, double twice, lose, keep twice
    (64, 32, 64, 7, b"abcdefghijkl", b"abbfehhiikl", b""),
    // double, lose three times, double twice, lose twice
    (128, 128, 0, 7, b"abcdefgh", b"aaeeff", b""),
];

/// The byte of a message of one byte.
fn byte_of(m: &Message) -> Option<u8> {
    m.dat.as_ref()?.as_slice().first().copied()
}

/// A value that may go to another thread.
fn to_any_thread<T: Send>(value: T) -> T {
    value
}

/// Gives a link messages, and compares what it passes on and what it holds then. The rule tells before how far
/// it will be.
fn passes(
    rt: &impl Abort,
    alloc: Global,
    rule: Result<Rule, RuleFault>,
    taken: &[u8],
    wanted: &[u8],
    held: &[u8],
) {
    let rule = rule.expect(rt, "a good rule");
    let passage = Passage {
        given: wanted.len() as u64,
        held: !held.is_empty(),
    };
    assert_eq!(rt; rule.passage(taken.len() as u64), passage, "of {taken:?}");
    let mut link = to_any_thread(Link::new(rule));
    let mut left = wanted;
    for byte in taken {
        let m = Message::of_data(alloc, 255, &[*byte]).expect(rt, "no memory for a message");
        let Ok(out) = link.pass(m) else {
            panic!(rt; "a message came back");
        };
        for other in out {
            let (first, rest) = left.split_first().expect(rt, "one message too many");
            assert_eq!(rt; byte_of(&other), Some(*first), "of {taken:?}");
            left = rest;
        }
    }
    assert!(rt; left.is_empty(), "{left:?} of {taken:?} are missing");
    let seen = link.held().and_then(byte_of);
    assert_eq!(rt; seen, held.first().copied(), "of {taken:?}");
    assert_eq!(rt; link.finish().is_some(), !held.is_empty(), "of {taken:?}");
}

#[test]
fn patterns_pass_messages_on(rt: HostRuntime) {
    for (acts, taken, wanted, held) in ROWS {
        passes(&rt, rt.alloc(), Rule::of_acts(acts), taken, wanted, held);
    }
    let mut longest = [Keep; MOST_ACTS];
    longest[MOST_ACTS - 1] = Lose;
    let letters = [b'a'; 2 * MOST_ACTS];
    let wanted = [b'a'; 2 * MOST_ACTS - 2];
    passes(
        &rt,
        rt.alloc(),
        Rule::of_acts(&longest),
        &letters,
        &wanted,
        b"",
    );
}

#[test]
fn seeds_draw_acts(rt: HostRuntime) {
    for (lose, double, hold, seed, taken, wanted, held) in DRAWN {
        let odds = Odds { lose, double, hold };
        passes(
            &rt,
            rt.alloc(),
            Rule::of_odds(odds, seed),
            taken,
            wanted,
            held,
        );
    }
}

#[test]
fn rules_have_limits(rt: HostRuntime) {
    assert_eq!(rt; Rule::of_acts(&[]).err(), Some(RuleFault::Acts));
    assert_eq!(rt;
        Rule::of_acts(&[Keep; MOST_ACTS + 1]).err(),
        Some(RuleFault::Acts)
    );
    for (lose, double, hold) in [(257, 0, 0), (128, 128, 1), (65535, 65535, 65535)] {
        let refused = Rule::of_odds(Odds { lose, double, hold }, 1);
        assert_eq!(rt; refused.err(), Some(RuleFault::Draws));
    }
    let text = format!(in rt.alloc(); "{}", RuleFault::Draws).expect(&rt, "no memory for a text");
    assert_eq!(rt;
        text.as_str(),
        "the odds of a link are together more than 256 of 256"
    );
}
