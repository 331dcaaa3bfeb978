//! The record of a head, in addition to its list.
ghost use Rattle.std.specs.Prelude.{◌≡◌, unwrap_or};
ghost use Rattle.strm_chain_end.specs.Change.{fresh_record, with_mode, awaiting_next, id_given_back, awaiting_none, asking_next, asked_given_back, asking_none};
ghost use Rattle.strm_chain_end.specs.Head.{kept_answer, with_errors};
ghost use Rattle.strm_chain_end.specs.Modules.{SameIds};

use strm_msg::{BoxedMessage, Errno, Prot, ReadMode};

/// The record of a head, in addition to its list (stdata).
#[derive(Debug, Drop, PartialEq, Eq)]
pub struct Record {
    /// Whether the end was hung up (M_HANGUP).
    pub hung: bool,
    /// The latest error of the read side (M_ERROR).
    pub rd_errno: Option<Errno>,
    /// The latest error of the write side (M_ERROR).
    pub wr_errno: Option<Errno>,
    /// The way in which read treats the bounds of messages.
    pub mode: ReadMode,
    /// The way in which read treats control parts.
    pub prot: Prot,
    /// The id of the next ioctl, or `None` once the greatest was given out.
    pub next: Option<u64>,
    /// The id of the ioctl whose answer is awaited.
    pub pending: Option<u64>,
    /// The answer to it.
    pub kept: Option<BoxedMessage>,
    /// The id of the ioctl whose answer is asked for later.
    pub asked: Option<u64>,
    /// The answer to that one.
    pub answer: Option<BoxedMessage>,
}

impl Record {
    /// The record of a new stream's head.
    pub(crate) fn new() -> Self
        ensures { result ≡ fresh_record }
    {
        Record {
            hung: false,
            rd_errno: None,
            wr_errno: None,
            mode: ReadMode::Rnorm,
            prot: Prot::Norm,
            next: Some(1),
            pending: None,
            kept: None,
            asked: None,
            answer: None,
        }
    }

    /// Keeps an answer that is awaited, or asked for later.
    pub(crate) fn keep(&mut self, id: u64, m: BoxedMessage)
        ensures record { self.new ≡ kept_answer self.old id m }
        ensures same { SameIds self.old self.new }
    {
        if self.pending == Some(id) && self.kept.is_none() {
            self.kept = Some(m);
        } else if self.asked == Some(id) && self.answer.is_none() {
            self.answer = Some(m);
        }
    }

    /// Keeps the error of each side for which one is given, in the place of the one before.
    pub(crate) fn set_errors(&mut self, rd: Option<Errno>, wr: Option<Errno>)
        ensures { self.new ≡ with_errors self.old rd wr }
    {
        self.rd_errno = rd.or(self.rd_errno);
        self.wr_errno = wr.or(self.wr_errno);
    }

    /// Sets the way in which read treats messages.
    pub(crate) fn set_mode(&mut self, mode: ReadMode, prot: Prot)
        ensures { self.new ≡ with_mode self.old mode prot }
    {
        self.mode = mode;
        self.prot = prot;
    }

    /// Sets the ways in which read treats messages, those that are given.
    pub(crate) fn set_given(&mut self, mode: Option<ReadMode>, prot: Option<Prot>)
        ensures { self.new ≡ with_mode self.old (unwrap_or mode self.old.mode) (unwrap_or prot self.old.prot) }
    {
        self.mode = mode.unwrap_or(self.mode);
        self.prot = prot.unwrap_or(self.prot);
    }

    /// Takes the next id, whose answer is then awaited.
    pub(crate) fn begin(&mut self) -> Option<u64>
        ensures id { result ≡ self.old.next }
        ensures record { self.new ≡ awaiting_next self.old }
    {
        let id = self.next?;
        self.next = if id == u64::MAX { None } else { Some(id + 1) };
        self.pending = Some(id);
        Some(id)
    }

    /// Gives back the latest id.
    pub(crate) fn undo(&mut self)
        ensures { self.new ≡ id_given_back self.old }
    {
        self.next = self.pending;
        self.pending = None;
    }

    /// Takes the answer, and awaits none any longer.
    pub(crate) fn end(&mut self) -> Option<BoxedMessage>
        ensures answer { result ≡ self.old.kept }
        ensures record { self.new ≡ awaiting_none self.old }
    {
        self.pending = None;
        self.kept.take()
    }

    /// Takes the next id, whose answer is asked for later.
    pub(crate) fn ask(&mut self) -> Option<u64>
        ensures id { result ≡ self.old.next }
        ensures record { self.new ≡ asking_next self.old }
    {
        let id = self.next?;
        self.next = if id == u64::MAX { None } else { Some(id + 1) };
        self.asked = Some(id);
        self.answer = None;
        Some(id)
    }

    /// Gives back the latest id, whose answer was to be asked for later.
    pub(crate) fn undo_ask(&mut self)
        ensures { self.new ≡ asked_given_back self.old }
    {
        self.next = self.asked;
        self.asked = None;
    }

    /// Takes the answer that was asked for, and asks for none any longer.
    pub(crate) fn end_ask(&mut self) -> Option<BoxedMessage>
        ensures answer { result ≡ self.old.answer }
        ensures record { self.new ≡ asking_none self.old }
    {
        self.asked = None;
        self.answer.take()
    }
}
