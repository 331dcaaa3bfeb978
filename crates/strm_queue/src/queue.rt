//! A queue with bands and water marks.
ghost use Rattle.std.specs.Prelude.{◌≡◌, ◌↔◌, ◌+◌, ◌<◌, [], true, length, IsTrue, IsOk, OnOk, IfErr, OnErr, option_copied, slice_get};
ghost use Rattle.strm_queue.specs.Queue.{put_in, put_back_in, behind_last, is_ordered, flush_of, flush_band_of, held_of, is_full, is_slack, has_pcproto, has_band, TakesFirst};
ghost use Rattle.strm_msg.specs.Message.{rank_of};
ghost use Rattle.strm_queue.specs.Room.{room_for, KeepsRoom, SpendsOne};

use crate::lane::Lane;
use crate::lanes::{
    HIGH, find, first, flush_all, flush_rank, message_at, push_first_of_rank, push_last_of_rank,
    reserve_at, take_first, weight_at,
};
use std::alloc::Global;
use std::marker::Model;
use strm_msg::{BoxedMessage, Marks, Message, NoMem};

/// The most messages that a queue holds, so that the sum of their weights can be counted.
const MOST: usize = 9_223_372_036_854_775_807;

/// Messages in order of rank, greatest first, and first in first out within a rank.
///
/// Each rank in use has a lane with its messages and their weight. So no call's cost grows with the number of
/// messages, but for the flushes and the calls that look at the high messages.
///
/// Lanes that ran empty stay. The queue keeps the number of lanes at the front that are known to be empty,
/// and the search for the first message begins behind them.
///
/// A queue holds at most 2^63 - 1 messages, more than any memory has. Where it holds that many, one message
/// more is refused as when memory runs out.
#[derive(Debug, Drop)]
pub struct BandQueue {
    marks: Marks,
    lanes: Vec<Lane>,
    /// No lane before this place has a message.
    front: usize,
    len: usize,
}

impl Model for BandQueue {
    ghost use Rattle.std.specs.Prelude.{◌-◌, ◌^◌};
    ghost use Rattle.strm_queue.specs.Queue.{Queue};
    ghost use Rattle.strm_queue.specs.Lanes.{messages_of, IsQueue};
    ghost use Rattle.strm_queue.specs.Room.{lane_room};

    ghost Value = { Queue };

    ghost view = { λ q. record {
      marks = q.marks;
      messages = messages_of q.lanes.items;
      room = lane_room (2 ^ 63 - 1 - q.len) q.lanes.items;
    } };

    ghost invariant = { λ q. IsQueue q.lanes.items q.front q.len };
}

impl BandQueue {
    /// An empty queue. Takes no memory.
    pub fn new(alloc: Global, marks: Marks) -> Self
        ensures marks { result.marks ≡ marks }
        ensures messages { result.messages ≡ [] }
    {
        BandQueue {
            marks,
            lanes: Vec::new(alloc),
            front: 0,
            len: 0,
        }
    }

    /// Sets the water marks, and changes nothing else (M_SETOPTS). Takes no memory.
    pub fn set_marks(&mut self, marks: Marks)
        ensures { self.new ≡ record self.old { marks = marks } }
    {
        self.marks = marks;
    }

    /// Puts a message behind those of its rank (putq(9F)). The marks hold nothing back: a full queue
    /// takes messages too.
    ///
    /// Fails only when memory runs out: the message comes back, and the queue is as before. Each
    /// rank loses room for one message at most, and none where the message is refused.
    pub fn put(&mut self, m: BoxedMessage) -> Result<(), BoxedMessage>
        ensures place { put_in self.old.messages m ≡ behind_last self.old.messages m }
        ensures ok { OnOk result (self.new.messages ≡ put_in self.old.messages m) }
        ensures err { OnErr result (self.new.messages ≡ self.old.messages) }
        ensures back { IfErr result (λ same. same ≡ m) }
        ensures marks { self.new.marks ≡ self.old.marks }
        ensures room { 0 < room_for self.old.room (rank_of m) → IsOk result }
        ensures spent { OnOk result (SpendsOne self.old.room self.new.room) }
        ensures unspent { OnErr result (KeepsRoom self.old.room self.new.room) }
    {
        if self.len == MOST {
            return Err(m);
        }
        let at = push_last_of_rank(&mut self.lanes, m)?;
        self.front = self.front.min(at);
        self.len += 1;
        Ok(())
    }

    /// Puts a message before those of its rank (putbq(9F)), also where the queue is full.
    ///
    /// Fails only when memory runs out: the message comes back, and the queue is as before. Each
    /// rank loses room for one message at most, and none where the message is refused.
    pub fn put_back(&mut self, m: BoxedMessage) -> Result<(), BoxedMessage>
        ensures ok { OnOk result (self.new.messages ≡ put_back_in self.old.messages m) }
        ensures err { OnErr result (self.new.messages ≡ self.old.messages) }
        ensures back { IfErr result (λ same. same ≡ m) }
        ensures marks { self.new.marks ≡ self.old.marks }
        ensures room { 0 < room_for self.old.room (rank_of m) → IsOk result }
        ensures spent { OnOk result (SpendsOne self.old.room self.new.room) }
        ensures unspent { OnErr result (KeepsRoom self.old.room self.new.room) }
    {
        if self.len == MOST {
            return Err(m);
        }
        let at = push_first_of_rank(&mut self.lanes, m)?;
        self.front = self.front.min(at);
        self.len += 1;
        Ok(())
    }

    /// Makes room, so that the next `put` or `put_back` of a message of this rank succeeds. A rank
    /// above 256, which no message has, counts as 256.
    ///
    /// Fails only when memory runs out, and not where the room is there. No rank loses room.
    pub fn make_room(&mut self, rank: u16) -> Result<(), NoMem>
        ensures room { OnOk result (0 < room_for self.new.room rank) }
        ensures enough { 0 < room_for self.old.room rank → IsOk result }
        ensures kept { KeepsRoom self.old.room self.new.room }
        ensures marks { self.new.marks ≡ self.old.marks }
        ensures messages { self.new.messages ≡ self.old.messages }
    {
        if self.len == MOST {
            return Err(NoMem);
        }
        reserve_at(&mut self.lanes, rank.min(HIGH))
    }

    /// Takes the first message (getq(9F)). Takes no memory, and leaves the room that there was.
    pub fn get(&mut self) -> Option<BoxedMessage>
        ensures first { TakesFirst result self.old.messages self.new.messages }
        ensures marks { self.new.marks ≡ self.old.marks }
        ensures room { KeepsRoom self.old.room self.new.room }
    {
        if self.is_empty() {
            return None;
        }
        let m = take_first(&mut self.lanes, &mut self.front)?;
        self.len -= 1;
        Some(m)
    }

    /// The message that `get` would take.
    pub fn first(&self) -> Option<&Message>
        ensures { option_copied result ≡ slice_get self.now.messages 0 }
    {
        if self.len == 0 {
            return None;
        }
        first(self.lanes.as_slice(), self.front)
    }

    /// The message at a place, counted from 0 for the one that `get` would take.
    pub fn at(&self, i: usize) -> Option<&Message>
        ensures { option_copied result ≡ slice_get self.now.messages i }
    {
        message_at(self.lanes.as_slice(), i)
    }

    /// The number of messages. They are in order of rank.
    pub fn len(&self) -> usize
        ensures count { result ≡ length self.now.messages }
        ensures ordered { is_ordered self.now.messages ≡ true }
    {
        self.len
    }

    /// Whether there is no message.
    pub fn is_empty(&self) -> bool
        ensures { IsTrue result ↔ (self.now.messages ≡ []) }
    {
        self.len == 0
    }

    /// Removes data and protocol messages (flushq(9F) with FLUSHDATA). Takes no memory, and leaves the room
    /// that there was.
    pub fn flush(&mut self)
        ensures messages { self.new.messages ≡ flush_of self.old.messages }
        ensures marks { self.new.marks ≡ self.old.marks }
        ensures room { KeepsRoom self.old.room self.new.room }
    {
        self.len -= flush_all(&mut self.lanes);
    }

    /// Removes the ordinary data and protocol messages of one band, and `MPcproto` where that is band 0
    /// (flushband(9F) with FLUSHDATA). Takes no memory, and leaves the room that there was.
    pub fn flush_band(&mut self, band: u8)
        ensures messages { self.new.messages ≡ flush_band_of band self.old.messages }
        ensures marks { self.new.marks ≡ self.old.marks }
        ensures room { KeepsRoom self.old.room self.new.room }
    {
        self.len -= flush_rank(&mut self.lanes, u16::from(band));
        if band == 0 {
            self.len -= flush_rank(&mut self.lanes, HIGH);
        }
    }

    /// The size of a band's messages, in bytes: the weights of its ordinary messages, and for band 0 those of
    /// the high ones too. A message without bytes counts as one byte. That is a choice of this project.
    pub fn held(&self, band: u8) -> u128
        ensures { result ≡ held_of self.now.messages band }
    {
        let ordinary = weight_at(self.lanes.as_slice(), u16::from(band));
        if band == 0 {
            ordinary + weight_at(self.lanes.as_slice(), HIGH)
        } else {
            ordinary
        }
    }

    /// Whether a band holds the high water mark or more, so that no more is to be put there.
    ///
    /// This is the opposite of bcanput(9F), which answers whether a message may be put.
    pub fn full(&self, band: u8) -> bool
        ensures { result ≡ is_full self.now.marks self.now.messages band }
    {
        self.held(band) >= u128::from(self.marks.hi)
    }

    /// Whether a band holds the low water mark or less, so that messages that wait behind the queue must
    /// move. Between the marks, where a band is neither slack nor full, they may move and need not.
    #[inline(always)]
    pub fn slack(&self, band: u8) -> bool
        ensures { result ≡ is_slack self.now.marks self.now.messages band }
    {
        self.held(band) <= u128::from(self.marks.lo)
    }

    /// Whether an `MPcproto` is there.
    pub fn has_pcproto(&self) -> bool
        ensures { result ≡ has_pcproto self.now.messages }
    {
        match find(self.lanes.as_slice(), HIGH) {
            Some(at) => self.lanes[at].has_pcproto(),
            None => false,
        }
    }

    /// Whether an ordinary message of the band is there (streamio(7), I_CKBAND). High messages count
    /// for no band here, not even for band 0.
    pub fn has_band(&self, band: u8) -> bool
        ensures { result ≡ has_band self.now.messages band }
    {
        match find(self.lanes.as_slice(), u16::from(band)) {
            Some(at) => !self.lanes[at].is_empty(),
            None => false,
        }
    }
}
