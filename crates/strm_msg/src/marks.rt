//! Water marks.
ghost use Rattle.std.specs.Prelude.{◌≡◌, ◌↔◌, ◌<◌, IsSome, IfSome};

use std::marker::Model;

/// The water marks of a queue, in bytes. They hold for each band by itself, and the low mark is below the
/// high one.
///
/// Messages that wait behind a full band must stay, and behind a slack one they must move. Between the marks
/// they may move and need not, so the low mark decides only which messages must move.
#[derive(Clone, Copy, Debug, PartialEq, Eq)]
pub struct Marks {
    /// A band is full where it holds at least this many bytes.
    pub hi: u32,
    /// A band is slack where it holds at most this many bytes.
    pub lo: u32,
}

impl Model for Marks {
    ghost use Rattle.std.specs.Prelude.{◌<◌};
    ghost use Rattle.strm_msg.specs.Marks.{WaterMarks};

    ghost Value = { WaterMarks };

    ghost view = { λ m. record { hi = m.hi; lo = m.lo } };

    ghost invariant = { λ m. m.lo < m.hi };

    ghost inverse = { λ m. record { hi = m.hi; lo = m.lo } };
}

impl Marks {
    /// The marks, or `None` unless `lo < hi`.
    pub fn new(hi: u32, lo: u32) -> Option<Marks>
        ensures found { IsSome result ↔ (lo < hi) }
        ensures value { IfSome result (λ marks. marks ≡ record { hi = hi; lo = lo }) }
    {
        if lo < hi {
            Some(Marks { hi, lo })
        } else {
            None
        }
    }
}
