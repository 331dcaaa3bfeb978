//! One end of a data link.
ghost use Rattle.std.specs.Prelude.{◌≡◌, ◌<◌, ◌≤◌, length, IfOk, IfErr, OnOk, OnErr, None, Some, is_some, IsSome, drop, ◌↔◌, true};
ghost use Rattle.port_arq.specs.Peer as peer;
ghost use Rattle.port_arq.specs.Peer.{fresh, refusal, handed_down, after_sending, unsent, carrying, heard_up, goes_up, taken, after_hearing, acknowledged_by, without_first, timed};

use crate::frame::{Frame, Numbered};
use crate::refusal::{Refusal, Refused};
use crate::waiting::{Waiting, are_same, copied, drop_first};
use arrayvec::ArrayVec;
use std::marker::Model;
use strm_msg::{Bytes, NoMem};

/// The most messages of a window.
pub const MOST_WINDOW: usize = 7;

/// The most messages that an end takes in all: 2^32 - 1, as their numbers and the one behind the last are
/// numbers of 32 bits.
pub const MOST_MESSAGES: u32 = u32::MAX;

/// One end of a data link over which messages go both ways. Contracts see it as a record.
///
/// It numbers the messages that are handed down, keeps each until the other end acknowledges it, and sends
/// all that it keeps again when its timer runs out. Of what it hears, a message goes up if its number is
/// the one that is awaited. It takes no memory of its own.
#[derive(Debug, Drop, PartialEq, Eq)]
pub struct Peer {
    window: usize,
    interval: u32,
    acknowledged: u32,
    waiting: ArrayVec<Waiting, MOST_WINDOW>,
    sent: usize,
    ticks: u32,
    awaited: u32,
    owes: bool,
}

impl Model for Peer {
    ghost use Rattle.std.specs.Prelude.{◌+◌, ◌<◌, ◌≤◌, length};
    ghost use Rattle.port_arq.specs.declared.peer.TheConstants.{MOST_WINDOW, MOST_MESSAGES};
    ghost use Rattle.port_arq.specs.Peer.{PeerValue};
    ghost use Rattle.port_arq.specs.InsidePeer.{IsPeer};

    ghost Value = { PeerValue };

    ghost view = { λ p. record {
      window = p.window;
      interval = p.interval;
      acknowledged = p.acknowledged;
      waiting = p.waiting.items;
      sent = p.sent;
      ticks = p.ticks;
      awaited = p.awaited;
      owes = p.owes;
    } };

    ghost invariant = { λ p. IsPeer p.window p.interval p.acknowledged p.waiting.items p.sent p.ticks p.awaited };

    ghost inverse = { λ p. record {
      window = p.window;
      interval = p.interval;
      acknowledged = p.acknowledged;
      waiting = record { items = p.waiting };
      sent = p.sent;
      ticks = p.ticks;
      awaited = p.awaited;
      owes = p.owes;
    } };
}

impl Peer {
    /// An end at which nothing has happened. At most `window` messages, 1 to `MOST_WINDOW`, wait for an
    /// acknowledgement, and the timer runs out after `interval` ticks, 1 or more.
    pub fn new(window: usize, interval: u32) -> Peer
        requires least { 0 < window }
        requires most { window ≤ MOST_WINDOW }
        requires interval { 0 < interval }
        ensures { result ≡ fresh window interval }
    {
        Peer {
            window,
            interval,
            acknowledged: 0,
            waiting: ArrayVec::new(),
            sent: 0,
            ticks: 0,
            awaited: 0,
            owes: false,
        }
    }

    /// Whether the other end has acknowledged all messages that were handed down.
    pub fn is_acknowledged(&self) -> bool
        ensures { result ≡ peer.is_acknowledged self.now }
    {
        self.waiting.is_empty()
    }

    /// The number of messages that wait for an acknowledgement, which is never more than the window.
    pub fn waiting(&self) -> usize
        ensures value { result ≡ length self.now.waiting }
        ensures window { result ≤ self.now.window }
        ensures most { self.now.window ≤ MOST_WINDOW }
    {
        self.waiting.len()
    }

    /// The most messages that wait for an acknowledgement, 1 to `MOST_WINDOW`.
    pub fn window(&self) -> usize
        ensures { result ≡ self.now.window }
    {
        self.window
    }

    /// The ticks after which the timer runs out, 1 or more.
    pub fn interval(&self) -> u32
        ensures { result ≡ self.now.interval }
    {
        self.interval
    }

    /// The reason for which the next message is not taken, if there is one.
    pub fn refusal(&self) -> Option<Refusal>
        ensures { result ≡ refusal self.now }
    {
        let waiting = self.waiting.len();
        if self.acknowledged >= MOST_MESSAGES - waiting as u32 {
            Some(Refusal::NumbersAreUsed)
        } else if waiting >= self.window {
            Some(Refusal::WindowIsFull)
        } else {
            None
        }
    }

    /// Hands a message down, which is to go up at the other end. Where it is refused, it comes back, and
    /// nothing has changed.
    pub fn hand_down(&mut self, bytes: Bytes) -> Result<(), Refused>
        ensures taken { OnOk result (refusal self.old ≡ None) }
        ensures ok { OnOk result (self.new ≡ handed_down self.old bytes) }
        ensures why { IfErr result (λ refused. refusal self.old ≡ Some refused.refusal) }
        ensures back { IfErr result (λ refused. refused.bytes ≡ bytes) }
        ensures same { OnErr result (self.new ≡ self.old) }
    {
        if let Some(refusal) = self.refusal() {
            return Err(Refused { refusal, bytes });
        }
        self.waiting.push(Waiting { bytes });
        Ok(())
    }

    /// Whether there is a frame to send.
    pub fn owes_frame(&self) -> bool
        ensures { result ≡ is_some (peer.next_frame self.now) }
    {
        self.sent < self.waiting.len() || self.owes
    }

    /// The frame that is to be sent next, if there is one: the first message that waits and was not sent
    /// since the timer ran out, or else an acknowledgement that is owed. Once it is sent, `note_sent` says
    /// so. Fails only where the bytes of the message have more owners than can be counted.
    pub fn next_frame(&self) -> Result<Option<Frame>, NoMem>
        ensures frame { IfOk result (λ frame. frame ≡ peer.next_frame self.now) }
        ensures memory { OnErr result (IsSome (unsent self.now)) }
    {
        let message = match self.waiting.as_slice().get(self.sent) {
            Some(waiting) => Some(Numbered {
                number: self.acknowledged + self.sent as u32,
                bytes: waiting.bytes.copy()?,
            }),
            None if self.owes => None,
            None => return Ok(None),
        };
        Ok(Some(Frame {
            awaited: self.awaited,
            message,
        }))
    }

    /// Notes that the next frame was sent. Does nothing if there is none. Between `next_frame` and this no other
    /// call changes the end: both together are what the law calls sending.
    pub fn note_sent(&mut self)
        ensures { self.new ≡ after_sending self.old }
    {
        if self.sent < self.waiting.len() {
            self.sent += 1;
        }
        self.owes = false;
    }

    /// Lets go of the first messages that wait.
    fn let_go(&mut self, count: usize)
        requires { count ≤ length self.old.waiting }
        ensures { self.new ≡ without_first self.old count }
    {
        drop_first(&mut self.waiting, count);
        self.acknowledged += count as u32;
        self.sent = self.sent.saturating_sub(count);
        self.ticks = 0;
    }

    /// Hears an acknowledgement. One of messages that wait lets go of them, and any other does nothing.
    fn hear_awaited(&mut self, awaited: u32)
        ensures { self.new ≡ acknowledged_by self.old awaited }
    {
        if awaited <= self.acknowledged {
            return;
        }
        let count = (awaited - self.acknowledged) as usize;
        if count <= self.waiting.len() {
            self.let_go(count);
        }
    }

    /// Hears a message, and gives what goes up. It is acknowledged in any case.
    fn hear_message(&mut self, message: Numbered) -> Option<Bytes>
        ensures up { result ≡ goes_up self.old (Some message) }
        ensures after { self.new ≡ taken self.old (Some message) }
    {
        self.owes = true;
        if message.number != self.awaited || message.number == MOST_MESSAGES {
            return None;
        }
        self.awaited += 1;
        Some(message.bytes)
    }

    /// Hears a frame of the other end, and gives the message that goes up, if one does. The frame may be
    /// late, or one that was heard before.
    pub fn hear(&mut self, frame: Frame) -> Option<Bytes>
        ensures up { result ≡ heard_up self.old frame }
        ensures after { self.new ≡ after_hearing self.old frame }
    {
        self.hear_awaited(frame.awaited);
        match frame.message {
            Some(message) => self.hear_message(message),
            None => None,
        }
    }

    /// Lets time pass. When the timer runs out, all messages that wait are to be sent again.
    pub fn tick(&mut self, ticks: u32)
        ensures { self.new ≡ timed self.old ticks }
    {
        if self.sent == 0 {
            return;
        }
        if ticks < self.interval - self.ticks {
            self.ticks += ticks;
        } else {
            self.sent = 0;
            self.ticks = 0;
        }
    }
    /// An equal end, whose messages share their bytes with this one's. Fails only where the bytes of a message
    /// have more owners than can be counted.
    pub fn copy(&self) -> Result<Peer, NoMem>
        ensures { IfOk result (λ copy. copy ≡ self.now) }
    {
        Ok(Peer {
            window: self.window,
            interval: self.interval,
            acknowledged: self.acknowledged,
            waiting: copied(&self.waiting)?,
            sent: self.sent,
            ticks: self.ticks,
            awaited: self.awaited,
            owes: self.owes,
        })
    }
    /// Whether another end is the same, and knows the same.
    pub fn is_same(&self, other: &Peer) -> bool
        ensures { result ≡ true ↔ self.now ≡ other.now }
    {
        self.window == other.window
            && self.interval == other.interval
            && self.acknowledged == other.acknowledged
            && are_same(self.waiting.as_slice(), other.waiting.as_slice())
            && self.sent == other.sent
            && self.ticks == other.ticks
            && self.awaited == other.awaited
            && self.owes == other.owes
    }
}
