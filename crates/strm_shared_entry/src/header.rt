//! The header of an entry: its parts in addition to request, answer and moves.
ghost use Rattle.std.specs.Prelude.{◌≡◌, ◌↔◌, true};
ghost use Rattle.strm_shared_entry.specs.Inside.{who_of, who_in, end_in, looks_in, out_in_box, looks_before, out_before, IsSameHeader};

use crate::entry::Who;
use crate::service_info::{RemovedModules, ServiceInfo};
use strm_msg::End;

/// The maker of a step and its end, the number of places that service looked at after it, and the modules
/// that the call took out. It is two words, and a box of a call that may take modules out.
#[derive(Drop)]
pub(crate) enum Header {
    /// The header of a step that takes no module out.
    Plain {
        end: End,
        is_line: bool,
        caller: u32,
        looks: u64,
    },
    /// The header of a call that may.
    Taking {
        end: End,
        is_line: bool,
        caller: u32,
        taken_out: Box<RemovedModules>,
    },
}

/// The maker of a step: the line, or else the caller of this number.
fn who_of(is_line: bool, caller: u32) -> Who
    ensures { result ≡ who_of is_line caller }
{
    if is_line {
        Who::Line
    } else {
        Who::Caller(caller)
    }
}

/// The maker as two values: whether it is the line, and else the caller.
fn maker_parts(who: Who) -> (bool, u32)
    ensures { who_of result.0 result.1 ≡ who }
{
    match who {
        Who::Caller(caller) => (false, caller),
        Who::Line => (true, 0),
    }
}

impl Header {
    /// The header of a step, with the looks of its service and the modules that were taken out. Takes no
    /// memory.
    #[inline(always)]
    pub(crate) fn new(who: Who, end: End, service: ServiceInfo) -> Header
        ensures who { who_in result ≡ who }
        ensures end { end_in result ≡ end }
        ensures looks { looks_in result ≡ looks_before service }
        ensures out { out_in_box result ≡ out_before service }
    {
        let (is_line, caller) = maker_parts(who);
        match service {
            ServiceInfo::Looks(looks) => Header::Plain {
                end,
                is_line,
                caller,
                looks: looks.count(),
            },
            ServiceInfo::Out(taken_out) => Header::Taking {
                end,
                is_line,
                caller,
                taken_out,
            },
        }
    }

    /// The maker of the step.
    pub(crate) fn who(&self) -> Who
        ensures { result ≡ who_in self.now }
    {
        match self {
            Header::Plain {
                is_line,
                caller,
                ..
            }
            | Header::Taking {
                is_line,
                caller,
                ..
            } => who_of(*is_line, *caller),
        }
    }

    /// The end of the step.
    pub(crate) fn end(&self) -> End
        ensures { result ≡ end_in self.now }
    {
        match self {
            Header::Plain { end, .. } | Header::Taking { end, .. } => *end,
        }
    }

    /// The number of places that service looked at.
    pub(crate) fn looks(&self) -> u64
        ensures { result ≡ looks_in self.now }
    {
        match self {
            Header::Plain { looks, .. } => *looks,
            Header::Taking { taken_out, .. } => taken_out.looks.count(),
        }
    }

    /// The serials of the modules that the call took out, topmost first.
    pub(crate) fn out(&self) -> &[u64]
        ensures { result.now ≡ (out_in_box self.now).items }
    {
        match self {
            Header::Plain { .. } => &[],
            Header::Taking { taken_out, .. } => taken_out.out.as_slice(),
        }
    }

    /// Whether another has the same serials.
    fn has_same_out(&self, other: &Header) -> bool
        ensures { result ≡ true ↔ out_in_box self.now ≡ out_in_box other.now }
    {
        match (self, other) {
            (Header::Plain { .. }, Header::Plain { .. }) => true,
            _ => self.out() == other.out(),
        }
    }

    /// Whether another says the same.
    pub(crate) fn is_same(&self, other: &Header) -> bool
        ensures { result ≡ true ↔ IsSameHeader self.now other.now }
    {
        self.who() == other.who()
            && self.end() == other.end()
            && self.looks() == other.looks()
            && self.has_same_out(other)
    }
}
