//! Tests of two ends of a link: exchanges that were worked out by hand, and many that are drawn.
ghost use Rattle.std.specs.Prelude.{◌<◌, ◌≤◌};

use port_arq::{Frame, Peer, Refusal};
use std::alloc::Global;
use std::process::Abort;
use strm_msg::Bytes;

/// An end of the link.
#[derive(Clone, Copy, Drop, PartialEq, Eq)]
enum End {
    Near,
    Far,
}

/// A step of an exchange, with what comes of it.
#[derive(Clone, Copy, Drop)]
enum Step {
    /// A message of one byte is handed down at an end, and is taken, or refused for this reason.
    Down(End, u8, Option<Refusal>),
    /// An end sends these bytes. There are none if it has nothing to send.
    Sends(End, &'static [u8]),
    /// An end hears these bytes, and a message of one byte goes up, or nothing.
    Hears(End, &'static [u8], Option<u8>),
    /// Ticks pass at an end.
    Ticks(End, u32),
}

use End::{Far, Near};
use Step::{Down, Hears, Sends, Ticks};

/// The messages 65 and 66 of an end that has heard nothing.
const FIRST: &[u8] = &[1, 0, 0, 0, 0, 0, 0, 0, 0, 65];

const SECOND: &[u8] = &[1, 0, 0, 0, 0, 0, 0, 0, 1, 66];

/// Acknowledgements of the messages before this number.
const NONE_CAME: &[u8] = &[0, 0, 0, 0, 0];

const ONE_CAME: &[u8] = &[0, 0, 0, 0, 1];

const TWO_CAME: &[u8] = &[0, 0, 0, 0, 2];

const NOTHING: &[u8] = &[];

/// The first of two messages is lost. The second waits for it, and both are sent again.
const LOST: &[Step] = &[
    Down(Near, 65, None),
    Down(Near, 66, None),
    Down(Near, 67, Some(Refusal::WindowIsFull)),
    Sends(Near, FIRST),
    Sends(Near, SECOND),
    Sends(Near, NOTHING),
    Hears(Far, SECOND, None),
    Sends(Far, NONE_CAME),
    Hears(Near, NONE_CAME, None),
    Ticks(Near, 2),
    Sends(Near, NOTHING),
    Ticks(Near, 1),
    Sends(Near, FIRST),
    Sends(Near, SECOND),
    Hears(Far, FIRST, Some(65)),
    Hears(Far, SECOND, Some(66)),
    Sends(Far, TWO_CAME),
    Hears(Near, TWO_CAME, None),
    Ticks(Near, 9),
    Sends(Near, NOTHING),
    Sends(Far, NOTHING),
];

/// An acknowledgement is lost. The message comes again, does not go up again, and is acknowledged again.
const LOST_ACKNOWLEDGEMENT: &[Step] = &[
    Down(Near, 65, None),
    Sends(Near, FIRST),
    Hears(Far, FIRST, Some(65)),
    Sends(Far, ONE_CAME),
    Sends(Far, NOTHING),
    Ticks(Near, 3),
    Sends(Near, FIRST),
    Hears(Far, FIRST, None),
    Sends(Far, ONE_CAME),
    Hears(Near, ONE_CAME, None),
    Ticks(Near, 3),
    Sends(Near, NOTHING),
];

/// A message is doubled, and comes again after the next one. An old acknowledgement comes late.
const DOUBLED_AND_LATE: &[Step] = &[
    Down(Near, 65, None),
    Down(Near, 66, None),
    Sends(Near, FIRST),
    Sends(Near, SECOND),
    Hears(Far, FIRST, Some(65)),
    Sends(Far, ONE_CAME),
    Hears(Far, FIRST, None),
    Hears(Far, SECOND, Some(66)),
    Hears(Far, FIRST, None),
    Sends(Far, TWO_CAME),
    Hears(Near, TWO_CAME, None),
    Hears(Near, ONE_CAME, None),
    Down(Near, 67, None),
    Sends(Near, &[1, 0, 0, 0, 0, 0, 0, 0, 2, 67]),
    Hears(Near, ONE_CAME, None),
    Ticks(Near, 2),
    Sends(Near, NOTHING),
    Ticks(Near, 1),
    Sends(Near, &[1, 0, 0, 0, 0, 0, 0, 0, 2, 67]),
];

/// A message that goes the other way acknowledges. An acknowledgement of what nobody sent does nothing.
const BOTH_WAYS: &[Step] = &[
    Down(Near, 65, None),
    Sends(Near, FIRST),
    Hears(Far, FIRST, Some(65)),
    Down(Far, 90, None),
    Sends(Far, &[1, 0, 0, 0, 1, 0, 0, 0, 0, 90]),
    Sends(Far, NOTHING),
    Hears(Near, &[0, 0, 0, 0, 9], None),
    Hears(Near, &[1, 0, 0, 0, 1, 0, 0, 0, 0, 90], Some(90)),
    Ticks(Near, 3),
    Sends(Near, ONE_CAME),
    Hears(Far, ONE_CAME, None),
    Ticks(Far, 3),
    Sends(Far, NOTHING),
];

/// Bytes that are no frame.
const NO_FRAMES: &[&[u8]] = &[
    &[],
    &[0],
    &[0, 0, 0, 0],
    &[0, 0, 0, 0, 0, 0],
    &[1, 0, 0, 0, 0, 0, 0, 0],
    &[2, 0, 0, 0, 0],
    &[2, 0, 0, 0, 0, 0, 0, 0, 0, 65],
];

fn bytes_of(rt: &impl Abort, alloc: Global, bytes: &[u8]) -> Bytes {
    Bytes::from_slice(alloc, bytes).expect(rt, "no memory for bytes")
}

/// The frame that some bytes are, if they are one.
fn read(rt: &impl Abort, alloc: Global, bytes: &Bytes) -> Option<Frame> {
    Frame::read(alloc, bytes).expect(rt, "no memory for a frame")
}

/// The bytes that an end sends. There are none if it has nothing to send.
fn sent(rt: &impl Abort, alloc: Global, peer: &mut Peer) -> Bytes {
    let owes = peer.owes_frame();
    let frame = peer.next_frame().expect(rt, "too many owners");
    assert!(rt; owes == frame.is_some());
    peer.note_sent();
    match frame {
        Some(frame) => frame.bytes(alloc).expect(rt, "no memory for a frame"),
        None => Bytes::empty(),
    }
}

/// The message that goes up as an end hears some bytes, if one does.
fn heard(rt: &impl Abort, alloc: Global, peer: &mut Peer, bytes: &Bytes) -> Option<Bytes> {
    let frame = read(rt, alloc, bytes).expect(rt, "no frame");
    peer.hear(frame)
}

/// Whether a step of an end, whose name is not looked at, brings what it is to bring.
fn brings(rt: &impl Abort, alloc: Global, peer: &mut Peer, step: Step) -> bool {
    match step {
        Down(_, byte, want) => match peer.hand_down(bytes_of(rt, alloc, &[byte])) {
            Ok(()) => want.is_none(),
            Err(refused) => want == Some(refused.refusal),
        },
        Sends(_, want) => sent(rt, alloc, peer).as_slice() == want,
        Hears(_, bytes, want) => {
            let bytes = bytes_of(rt, alloc, bytes);
            match (heard(rt, alloc, peer, &bytes), want) {
                (Some(up), Some(byte)) => up.as_slice() == [byte].as_slice(),
                (None, None) => true,
                _ => false,
            }
        }
        Ticks(_, ticks) => {
            peer.tick(ticks);
            true
        }
    }
}

/// The end at which a step is.
fn end_of(step: Step) -> End {
    match step {
        Down(end, ..) | Sends(end, ..) | Hears(end, ..) | Ticks(end, ..) => end,
    }
}

#[test]
fn worked_exchanges(rt: HostRuntime) {
    for exchange in [LOST, LOST_ACKNOWLEDGEMENT, DOUBLED_AND_LATE, BOTH_WAYS] {
        let mut near = Peer::new(2, 3);
        let mut far = Peer::new(7, 3);
        for (i, step) in exchange.iter().enumerate() {
            let peer = if end_of(*step) == Near {
                &mut near
            } else {
                &mut far
            };
            assert!(rt; brings(&rt, rt.alloc(), peer, *step), "step {i}");
        }
    }
}

#[test]
fn other_bytes_are_no_frames(rt: HostRuntime) {
    for bytes in NO_FRAMES {
        let bytes = bytes_of(&rt, rt.alloc(), bytes);
        assert!(rt; read(&rt, rt.alloc(), &bytes).is_none());
    }
}

/// An end in a drawn exchange. Its messages are their numbers.
#[derive(Drop)]
struct Side {
    peer: Peer,
    /// All that it ever sent.
    sent: Vec<Bytes>,
    /// How many messages were handed down.
    handed: u32,
    /// How many went up.
    up: u32,
}

fn fresh_side(alloc: Global, window: usize) -> Side
    requires least { 0 < window }
    requires most { window ≤ 7 }
{
    Side {
        peer: Peer::new(window, 3),
        sent: Vec::new(alloc),
        handed: 0,
        up: 0,
    }
}

/// The next of some drawn numbers.
fn draw(seed: &mut u64) -> u64 {
    *seed = seed
        .wrapping_mul(6364136223846793005)
        .wrapping_add(1442695040888963407);
    *seed >> 33
}

fn hands_down(rt: &impl Abort, alloc: Global, side: &mut Side) {
    let bytes = bytes_of(rt, alloc, &side.handed.to_be_bytes());
    if side.peer.hand_down(bytes).is_ok() {
        side.handed = side.handed.saturating_add(1);
    }
}

/// Sends what is to be sent, if anything is.
fn sends(rt: &impl Abort, alloc: Global, side: &mut Side) {
    let bytes = sent(rt, alloc, &mut side.peer);
    if !bytes.is_empty() {
        side.sent
            .push(bytes)
            .expect(rt, "no memory for what was sent");
    }
}

/// Hears what was sent, from the last one back. What goes up is the next message.
fn hears(rt: &impl Abort, alloc: Global, side: &mut Side, sent: &[Bytes], back: usize) {
    let Some(bytes) = sent.get(sent.len().saturating_sub(back)) else {
        return;
    };
    if let Some(up) = heard(rt, alloc, &mut side.peer, bytes) {
        assert!(rt; up.as_slice() == side.up.to_be_bytes().as_slice());
        side.up = side.up.saturating_add(1);
    }
}

/// Something happens at an end. Of what it hears much is late, and comes again or never.
fn acts(rt: &impl Abort, alloc: Global, side: &mut Side, sent: &[Bytes], seed: &mut u64) {
    match draw(seed) % 8 {
        0 | 1 => hands_down(rt, alloc, side),
        2 | 3 => sends(rt, alloc, side),
        4 | 5 | 6 => hears(rt, alloc, side, sent, 1 + (draw(seed) % 12) as usize),
        _ => side.peer.tick((draw(seed) % 3) as u32),
    }
}

/// The timer of an end runs out, and what it sends then is heard.
fn settles(rt: &impl Abort, alloc: Global, from: &mut Side, to: &mut Side) {
    from.peer.tick(3);
    for _ in 0..8 {
        if from.peer.owes_frame() {
            sends(rt, alloc, from);
            hears(rt, alloc, to, from.sent.as_slice(), 1);
        }
    }
}

/// Whether all that was handed down at an end has gone up at the other, and was acknowledged.
fn is_whole(from: &Side, to: &Side) -> bool {
    from.peer.is_acknowledged() && from.handed == to.up
}

/// Draws an exchange of 4,000 steps, and then lets the link lose nothing more.
fn plays(rt: &impl Abort, alloc: Global, seed: &mut u64, window: usize)
    requires least { 0 < window }
    requires most { window ≤ 7 }
{
    let mut near = fresh_side(alloc, window);
    let mut far = fresh_side(alloc, 7);
    for _ in 0..2000 {
        acts(rt, alloc, &mut near, far.sent.as_slice(), seed);
        acts(rt, alloc, &mut far, near.sent.as_slice(), seed);
    }
    assert!(rt; near.handed > 10, "the window never opened");
    for _ in 0..3 {
        settles(rt, alloc, &mut near, &mut far);
        settles(rt, alloc, &mut far, &mut near);
    }
    assert!(rt; is_whole(&near, &far));
    assert!(rt; is_whole(&far, &near));
}

#[test]
fn drawn_exchanges(rt: HostRuntime) {
    let mut seed = 1;
    for _ in 0..10 {
        for window in 1..8 {
            plays(&rt, rt.alloc(), &mut seed, window);
        }
    }
}
