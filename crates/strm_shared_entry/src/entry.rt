//! The entries of a history.
ghost use Rattle.std.specs.Prelude.{◌≡◌};
ghost use Rattle.strm_shared_entry.specs.Entry.{is_caller, bare_entry, with_outcome};
ghost use Rattle.strm_shared_entry.specs.Inside.{who_in, end_in, looks_in, out_in_box, looks_before, out_before};

use crate::header::Header;
use crate::service_info::ServiceInfo;
use std::marker::Model;
use strm_chain::{Looks, Moves};
use strm_head_calls::{Answer, Event};
use strm_module::BoxedShape;
use strm_msg::End;

/// The maker of a step.
#[derive(Clone, Copy, Debug, PartialEq, Eq)]
pub enum Who {
    /// The caller of this number, who made a call.
    Caller(u32),
    /// The line, from which a message came in.
    Line,
}

/// One step of a stream, as its history has it.
///
/// A contract sees a record of its parts: the maker (`who`), the `end`, the `event`, the `answer`, the places
/// that moved (`moves`), the number of places that service looked at (`looks`), and the serials of the
/// modules that were taken out (`out`).
#[derive(Drop)]
pub struct Entry<K> {
    header: Header,
    event: Event<BoxedShape<K>>,
    answer: Answer,
    moves: Moves,
}

impl<K> Model for Entry<K> {
    ghost use Rattle.strm_shared_entry.specs.Entry.{Entry};
    ghost use Rattle.strm_shared_entry.specs.Inside.{who_in, end_in, looks_in, out_in_box};

    ghost Value = { Entry K };

    ghost view = { λ e. record {
      who = who_in e.header;
      end = end_in e.header;
      event = e.event;
      answer = e.answer;
      moves = e.moves;
      looks = looks_in e.header;
      out = out_in_box e.header;
    } };
}

impl Who {
    /// Whether it is the caller of this number.
    pub fn is_caller(self, caller: u32) -> bool
        ensures { result ≡ is_caller caller self }
    {
        self == Who::Caller(caller)
    }
}

impl<K> Entry<K> {
    /// A step after which no place was looked at, so that none moved, and which took no module out. Takes no
    /// memory.
    #[inline(always)]
    pub fn new(who: Who, end: End, event: Event<BoxedShape<K>>, answer: Answer) -> Entry<K>
        ensures { result ≡ bare_entry who end event answer }
    {
        Entry {
            header: Header::new(who, end, ServiceInfo::Looks(Looks::none())),
            event,
            answer,
            moves: Moves::new(),
        }
    }

    /// The maker of the step: a caller made each call, and from the line came each message that came in.
    pub fn who(&self) -> Who
        ensures { result ≡ self.now.who }
    {
        self.header.who()
    }

    /// The end of the event. Messages come in at end A.
    pub fn end(&self) -> End
        ensures { result ≡ self.now.end }
    {
        self.header.end()
    }

    /// The event: the call, or the message that came in. A module that was pushed is its shape as it was
    /// handed in.
    pub fn event(&self) -> &Event<BoxedShape<K>>
        ensures { result.now ≡ self.now.event }
    {
        &self.event
    }

    /// The answer. Of a message that came in, `Done` with the reply of a line, or `Broke`.
    pub fn answer(&self) -> &Answer
        ensures { result.now ≡ self.now.answer }
    {
        &self.answer
    }

    /// The places that moved, in order.
    pub fn moves(&self) -> &Moves
        ensures { result.now ≡ self.now.moves }
    {
        &self.moves
    }

    /// The number of places that service looked at, each taken out of the run queue: at least those that
    /// moved; u64::MAX if more, and 0 where the answer is not `Done`.
    pub fn looks(&self) -> u64
        ensures { result ≡ self.now.looks }
    {
        self.header.looks()
    }

    /// The serials of the modules that the call took out, topmost first.
    pub fn out(&self) -> &[u64]
        ensures { result.now ≡ self.now.out.items }
    {
        self.header.out()
    }

    /// The parts of the entry in addition to the event, the answer and the moves.
    pub(crate) fn header(&self) -> &Header
        ensures who { who_in result.now ≡ self.now.who }
        ensures end { end_in result.now ≡ self.now.end }
        ensures looks { looks_in result.now ≡ self.now.looks }
        ensures out { out_in_box result.now ≡ self.now.out }
    {
        &self.header
    }

    /// Puts in the outcome of the step. Takes no memory.
    #[inline(always)]
    pub(crate) fn fill(&mut self, answer: Answer, moves: Moves, service: ServiceInfo)
        ensures { self.new ≡ with_outcome self.old answer moves (looks_before service) (out_before service) }
    {
        self.answer = answer;
        self.moves = moves;
        self.header = Header::new(self.who(), self.end(), service);
    }
}
