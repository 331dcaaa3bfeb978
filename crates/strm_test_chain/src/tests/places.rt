//! The run queue: examples of calls and their answers, in order.
use super::check;
use Step::{Clear, Enable, Enabled, First, Given, Len, Next, Places, Restart};
use std::alloc::Global;
use std::process::Abort;
use strm_queue::RunQueue;

/// A call on a run queue, and its answer.
#[derive(Clone, Copy, Drop)]
enum Step {
    Enable(usize),
    Clear,
    Restart,
    Next(Option<usize>),
    First(Option<usize>),
    Enabled(usize, bool),
    /// The number of places that are enabled, and whether none is.
    Len(usize),
    Given(u64),
    Places(usize),
}

/// The name of the example, the number of places, and the steps.
type Example = (&'static str, usize, &'static [Step]);

const EXAMPLES: &[Example] = &[
    (
        // By hand: a place that is enabled twice is there once, so it is given out once.
        "a place is enabled once",
        2,
        &[
            Places(2),
            Len(0),
            Given(0),
            Enable(1),
            Enable(1),
            Enabled(0, false),
            Enabled(1, true),
            Len(1),
            Next(Some(1)),
            Enabled(1, false),
            Next(None),
            Places(2),
            Len(0),
        ],
    ),
    (
        // By hand: 2, 0 and 1 come out in that order, whatever their numbers. Enabling 2 again before it was
        // given out leaves it in front. Once it was given out, it is enabled again behind the others.
        "places are given out in order",
        3,
        &[
            First(None),
            Enable(2),
            Enable(0),
            Enable(2),
            Enable(1),
            Len(3),
            First(Some(2)),
            Next(Some(2)),
            Enable(2),
            Len(3),
            Next(Some(0)),
            Next(Some(1)),
            Next(Some(2)),
            Next(None),
        ],
    ),
    (
        // By hand: each place that is given out counts, also one that was given out before. An empty queue
        // gives out none, and counts nothing. Counting from 0 again changes no enabled place.
        "places that are given out are counted",
        2,
        &[
            Enable(0),
            Next(Some(0)),
            Given(1),
            Next(None),
            Given(1),
            Enable(0),
            Enable(1),
            Next(Some(0)),
            Given(2),
            Restart,
            Given(0),
            Len(1),
            Next(Some(1)),
            Given(1),
        ],
    ),
    (
        // By hand: a place that was enabled is not given out once the queue is cleared, and can be enabled
        // again. The count is of places that were given out before, and stays.
        "a run queue is cleared",
        2,
        &[
            Enable(1),
            Enable(0),
            Next(Some(1)),
            Enable(1),
            Clear,
            Len(0),
            Given(1),
            Places(2),
            Enabled(0, false),
            Enabled(1, false),
            Next(None),
            Enable(1),
            Next(Some(1)),
            Given(2),
        ],
    ),
    (
        // By hand: a queue without places gives out none.
        "there may be no places",
        0,
        &[First(None), Next(None), Given(0)],
    ),
];

/// Whether the call has this answer. A call that changes a run queue and returns nothing always has it.
fn answers(rt: &impl Abort, run: &mut RunQueue, step: Step) -> bool {
    match step {
        Enable(place) => {
            assert!(rt; place < run.places());
            run.enable(place);
            true
        }
        Clear => {
            run.clear();
            true
        }
        Restart => {
            run.restart();
            true
        }
        Next(want) => run.next() == want,
        First(want) => run.first() == want,
        Enabled(place, want) => {
            assert!(rt; place < run.places());
            run.is_enabled(place) == want
        }
        Len(n) => run.len() == n && run.is_empty() == (n == 0),
        Given(n) => run.given() == n,
        Places(n) => run.places() == n,
    }
}

fn play(rt: &impl Abort, alloc: Global, (name, places, steps): Example) {
    let mut run = RunQueue::new(alloc, places).expect(rt, "no memory for a run queue");
    for (i, step) in steps.iter().enumerate() {
        check(rt, (name, i), answers(rt, &mut run, *step));
    }
}

#[test]
fn places_in_worked_examples(rt: HostRuntime) {
    for example in EXAMPLES {
        play(&rt, rt.alloc(), *example);
    }
}
